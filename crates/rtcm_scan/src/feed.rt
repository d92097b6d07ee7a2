//! Passing the frames of a stream, given in pieces or by a reader, to a consumer.
ghost use Rattle.std.specs.Prelude.{◌≡◌, ◌+◌, ◌≤◌, ◌<◌, ⊤, true, false, max, length, OnOk, OnErr, IfOk, IfErr, MatchResult};
ghost use Rattle.std.specs.Io.KnownBytes.{Keeps, IsAtEnd};
ghost use Rattle.devices.specs.Device.{failures_after_read, moved};
ghost use Rattle.rtcm_scan.specs.inner.Passing.{PassesKnown, PassesPushed, BreaksKnown, Passes, Breaks, PassesToLimit};
ghost use Rattle.rtcm_scan.specs.inner.Passing.{PassesAll, BreaksAfter, BreaksReading, HasReadPiece, Reads, ReadsOn};
ghost use Rattle.rtcm_scan.specs.inner.Passing.{CountsReads, TakesPiece, Continues, IsSameStream, IsReadingOn, AtFault};
ghost use Rattle.rtcm_scan.specs.inner.Passing.{UnlessBroken};

use crate::framer::{Frame, Framer};
use crate::sink::FrameSink;
use devices::Counted;
use std::io::{self, Read};

/// Why a stream was not processed to its end.
pub enum StreamFault<F> {
    /// The reader failed.
    Read,
    /// The stream is longer than the framer's limit. All bytes up to the limit were processed.
    TooLong,
    /// The sink failed.
    Sink(F),
}

impl Framer {
    /// Passes frame after frame to the sink until no more are decided. `frame` is the buffer of
    /// their messages.
    // Of the calls for a stream that comes byte by byte half follow no push.
    fn drain_into<O, S: FrameSink<O>>(
        &mut self,
        frame: &mut Frame,
        sink: &mut S,
        out: &mut O,
    ) -> Result<(), S::Fault>
        requires { S.can_take sink.old }
        ensures goes { S.can_take sink.new }
        ensures whole { OnOk result (PassesPushed S.took self.old sink.old out.old self.new sink.new out.new) }
        ensures part { OnErr result
            (BreaksKnown S.took S.broke self.old.has_ended self.old sink.old out.old sink.new out.new) }
        ensures ready { OnOk result (self.new.is_ready ≡ true) }
        ensures ended { self.new.has_ended ≡ self.old.has_ended }
        ensures same { IsSameStream self.old self.new }
    {
        if self.is_drained() {
            return Ok(());
        }
        while let Some(offset) = self.next_into(&mut frame.message) {
            frame.offset = offset;
            sink.take(frame, out)?;
        }
        Ok(())
    }

    /// Accepts these bytes up to the limit, passes each frame to the sink as soon as it is decided,
    /// and returns the number of bytes accepted.
    fn take_piece<O, S: FrameSink<O>>(
        &mut self,
        piece: &[u8],
        frame: &mut Frame,
        sink: &mut S,
        out: &mut O,
    ) -> Result<usize, S::Fault>
        requires can { S.can_take sink.old }
        requires going { self.old.has_ended ≡ true → length piece.now ≡ 0 }
        ensures goes { S.can_take sink.new }
        ensures whole { IfOk result (TakesPiece S.took self.old sink.old out.old self.new sink.new out.new piece.now) }
        ensures part { OnErr result (Breaks S.took S.broke self.old sink.old out.old sink.new out.new piece.now) }
        ensures same { Continues self.old self.new (length piece.now) }
    {
        // Brings the bound on the number of accepted bytes into the proof.
        let _ = self.taken();
        let mut taken = 0;
        loop {
            self.drain_into(frame, sink, out)?;
            let next = taken + self.room().min(piece.len() - taken);
            if next == taken {
                return Ok(taken);
            }
            let Ok(()) = self.push_all(&piece[taken..next]) else {
                unreachable!()
            };
            taken = next;
        }
    }

    /// Accepts these bytes up to the limit, passes each frame to the sink as soon as it is decided,
    /// and delivers the output. `frame` is the buffer of the frames.
    ///
    /// # Errors
    ///
    /// `TooLong` if these bytes go over the limit: those up to it were accepted. `Sink` if the sink
    /// failed.
    pub fn feed<O, S: FrameSink<O>>(
        &mut self,
        piece: &[u8],
        frame: &mut Frame,
        sink: &mut S,
        out: &mut O,
    ) -> Result<(), StreamFault<S::Fault>>
        requires can { S.can_take sink.old }
        requires going { self.old.has_ended ≡ true → length piece.now ≡ 0 }
        ensures goes { S.can_take sink.new }
        ensures whole { OnOk result (Passes S.took self.old sink.old out.old self.new sink.new out.new piece.now) }
        ensures fault { IfErr result (λ fault. AtFault fault ⊥
            (PassesToLimit S.took self.old sink.old out.old self.new sink.new out.new piece.now)
            (Breaks S.took S.broke self.old sink.old out.old sink.new out.new piece.now)) }
        ensures sent { UnlessBroken result (S.is_sent out.new) }
        ensures taken { OnOk result (self.new.taken ≡ self.old.taken + length piece.now) }
        ensures ready { OnOk result (self.new.is_ready ≡ true) }
        ensures same { Continues self.old self.new (length piece.now) }
    {
        let taken = self
            .take_piece(piece, frame, sink, out)
            .map_err(StreamFault::Sink)?;
        sink.send(out).map_err(StreamFault::Sink)?;
        if taken < piece.len() {
            return Err(StreamFault::TooLong);
        }
        Ok(())
    }

    /// Ends the stream: passes the remaining frames to the sink, and delivers the output.
    ///
    /// # Errors
    ///
    /// The fault of the sink, if it failed.
    pub fn finish<O, S: FrameSink<O>>(&mut self, sink: &mut S, out: &mut O) -> Result<(), S::Fault>
        requires { S.can_take sink.old }
        ensures goes { S.can_take sink.new }
        ensures whole { OnOk result (PassesKnown S.took self.old sink.old out.old self.new sink.new out.new) }
        ensures part { OnErr result (BreaksKnown S.took S.broke true self.old sink.old out.old sink.new out.new) }
        ensures sent { OnOk result (S.is_sent out.new) }
        ensures ended { self.new.has_ended ≡ true }
        ensures same { IsSameStream self.old self.new }
    {
        self.end();
        let mut frame = Frame::new();
        self.drain_into(&mut frame, sink, out)?;
        sink.send(out)
    }

    /// Reads a piece of the stream that fits into the buffer beside the held bytes, and returns its
    /// length in bytes, 0 at the end.
    fn read_piece<R: Read>(&self, reader: &mut Counted<R>, buffer: &mut [u8]) -> io::Result<usize>
        requires { 0 < length buffer.old }
        ensures piece { MatchResult result
            (HasReadPiece self.now (R.remaining reader.old.inner) (R.remaining reader.new.inner)
            (length buffer.old) buffer.new)
            (λ _. Keeps (R.remaining reader.old.inner) (R.remaining reader.new.inner)) }
        ensures failures { reader.new.failures ≡ failures_after_read reader.old.failures (moved result) }
        ensures widest { reader.new.widest ≤ max reader.old.widest (length buffer.old) }
        ensures size { length buffer.new ≡ length buffer.old }
    {
        let room = buffer.len().saturating_sub(self.held()).max(1);
        reader.read(&mut buffer[..room])
    }

    /// Reads to the end of the stream, passes each frame to the sink as soon as it is decided, and
    /// delivers the output before the first piece and after each. A piece fits into `buffer` beside
    /// the held bytes; `frame` is the buffer of the frames. The stream may go on: `finish` ends it.
    ///
    /// # Errors
    ///
    /// `Read` if the reader failed, `TooLong` if the stream goes over the framer's limit, and
    /// `Sink` if the sink failed.
    pub fn read_pieces<R: Read, O, S: FrameSink<O>>(
        &mut self,
        reader: &mut Counted<R>,
        buffer: &mut [u8],
        frame: &mut Frame,
        sink: &mut S,
        out: &mut O,
    ) -> Result<(), StreamFault<S::Fault>>
        requires can { S.can_take sink.old }
        requires room { 0 < length buffer.old }
        requires going { self.old.has_ended ≡ false }
        ensures whole { OnOk result (ReadsOn S.took self.old sink.old out.old self.new sink.new out.new
            (R.remaining reader.old.inner) (R.remaining reader.new.inner)) }
        ensures end { OnOk result (IsAtEnd (R.remaining reader.new.inner) × (self.new.is_ready ≡ true)) }
        ensures fault { IfErr result (λ fault. AtFault fault
            (ReadsOn S.took self.old sink.old out.old self.new sink.new out.new
            (R.remaining reader.old.inner) (R.remaining reader.new.inner))
            (Reads (R.remaining reader.old.inner) (R.remaining reader.new.inner)
            (PassesToLimit S.took self.old sink.old out.old self.new sink.new out.new))
            (BreaksAfter S.took S.broke self.old sink.old out.old self.new sink.new out.new (length buffer.old)
            (R.remaining reader.old.inner) (R.remaining reader.new.inner))) }
        ensures sent { UnlessBroken result (S.is_sent out.new) }
        ensures reader { CountsReads result reader.old reader.new (length buffer.old) }
        ensures same { IsReadingOn S.can_take sink.new self.old self.new (length buffer.old) (length buffer.new) }
    {
        sink.send(out).map_err(StreamFault::Sink)?;
        loop {
            let n = match self.read_piece(reader, buffer) {
                Ok(n) => n,
                Err(_) => return Err(StreamFault::Read),
            };
            if let Err(fault) = self.feed(&buffer[..n], frame, sink, out) {
                return Err(fault);
            }
            if n == 0 {
                return Ok(());
            }
        }
    }

    /// Reads to the end of the stream as [`read_pieces`](Framer::read_pieces) does, and ends it.
    ///
    /// # Errors
    ///
    /// Those of `read_pieces`, and `Sink` if the sink failed at the end.
    pub fn read_frames<R: Read, O, S: FrameSink<O>>(
        &mut self,
        reader: &mut Counted<R>,
        buffer: &mut [u8],
        sink: &mut S,
        out: &mut O,
    ) -> Result<(), StreamFault<S::Fault>>
        requires can { S.can_take sink.old }
        requires room { 0 < length buffer.old }
        requires going { self.old.has_ended ≡ false }
        ensures whole { OnOk result (PassesAll S.took self.old sink.old out.old self.new sink.new out.new
            (R.remaining reader.old.inner) (R.remaining reader.new.inner)) }
        ensures fault { IfErr result (λ fault. AtFault fault
            (Reads (R.remaining reader.old.inner) (R.remaining reader.new.inner)
            (Passes S.took self.old sink.old out.old self.new sink.new out.new))
            (Reads (R.remaining reader.old.inner) (R.remaining reader.new.inner)
            (PassesToLimit S.took self.old sink.old out.old self.new sink.new out.new))
            (BreaksReading S.took S.broke self.old sink.old out.old sink.new out.new (length buffer.old)
            (R.remaining reader.old.inner) (R.remaining reader.new.inner))) }
        ensures sent { UnlessBroken result (S.is_sent out.new) }
        ensures reader { CountsReads result reader.old reader.new (length buffer.old) }
        ensures ended { OnOk result (self.new.has_ended ≡ true) }
        ensures going { IfErr result
            (λ fault. AtFault fault (self.new.has_ended ≡ false) (self.new.has_ended ≡ false) ⊤) }
        ensures goes { S.can_take sink.new }
    {
        let mut frame = Frame::new();
        // Matches, as the loop of `read_pieces` is inlined here: `?` and `map_err` after it cost 3
        // instructions a byte of a stream that comes byte by byte.
        match self.read_pieces(reader, buffer, &mut frame, sink, out) {
            Ok(()) => match self.finish(sink, out) {
                Ok(()) => Ok(()),
                Err(fault) => Err(StreamFault::Sink(fault)),
            },
            Err(fault) => Err(fault),
        }
    }
}
