//! The frames of a stream that comes in blocks or byte by byte.
//!
//! The scan goes from the left. If a whole frame with a valid CRC begins at the first undecided
//! offset, it is returned, and the scan continues after it; if none can begin there, the scan
//! continues one byte further; if bytes are missing, it waits for them. So a frame inside a damaged
//! frame is found. Each byte of a candidate is read once, for every way to cut the stream.
ghost use Rattle.std.specs.Prelude.{◌≡◌, ◌+◌, ◌-◌, ◌*◌, ◌<◌, ◌≤◌, ◌⊎◌, ◌&&◌, not, ℕ, List, [], ◌∷◌, min, length, take};
ghost use Rattle.std.specs.Prelude.{true, false, IsTrue, IfOk, IfErr, IfNone, ◌↔◌};
ghost use Rattle.rtcm_scan.specs.Frame.{begins_frame, frame_length, framed_message};
ghost use Rattle.rtcm_scan.specs.Frames.{Framed};
ghost use Rattle.rtcm_scan.specs.Scan.{IsScannedOn, most_bytes, first_held, window_of};
ghost use Rattle.rtcm_scan.specs.Scan.{with_window};
ghost use Rattle.rtcm_scan.specs.inner.Candidate.{HasTaken};
ghost use Rattle.rtcm_scan.specs.Examined.{HasExamined, KeepsHistory, FindsFrame};
ghost use Rattle.rtcm_scan.specs.inner.Pending.{asked, ComesToFrame, with_candidate_examined, passed};
ghost use Rattle.rtcm_bits.specs.FrameOf.{longest_frame};
ghost use Rattle.rtcm_bits.specs.Window.{looked_through, without_front};
ghost use Rattle.rtcm_scan.specs.Decided.{most_undecided};
ghost use Rattle.rtcm_scan.specs.Looks.{most_looks};
ghost use Rattle.rtcm_scan.specs.Drained.{IsDrained, SeeksFrame};
ghost use Rattle.rtcm_scan.specs.inner.Results.{Pushes, framed, frame_at, decision, new_scan};

use crate::candidate::Candidate;
use crate::front::{Decision, examine, judge, pass_others};
use arrayvec::ArrayVec;
use rtcm_bits::{HEADER_BYTES, LONGEST_FRAME, LONGEST_MESSAGE, SHORTEST_FRAME, Window};
use std::alloc::Global;
use std::marker::Model;
use thiserror::Error;

/// Largest number of bytes of a stream, 2^48.
pub const MOST_BYTES: u64 = 1 << 48;

/// Why a call of a framer failed. The framer is then unchanged. It is displayed by its name.
#[derive(Clone, Copy, Debug, PartialEq, Eq, Error)]
pub enum ScanFault {
    /// Out of memory: the held bytes can't be allocated.
    #[error("Memory")]
    Memory,
    /// The limit is above 2^48 bytes.
    #[error("BadLimit")]
    BadLimit,
    /// The stream is longer than the framer's limit.
    #[error("TooLong")]
    TooLong,
    /// The stream has ended.
    #[error("Ended")]
    Ended,
}

/// A frame of a stream.
#[derive(Drop)]
pub struct Frame {
    /// The offset of its first byte in the stream, in bytes from 0.
    pub offset: u64,
    /// Its message, of 0 to 1,023 bytes: the frame without header and CRC.
    pub message: ArrayVec<u8, LONGEST_MESSAGE>,
}

impl Frame {
    /// Returns an empty buffer for frames.
    pub fn new() -> Frame
        ensures { (result.offset ≡ 0) × (result.message.items ≡ []) }
    {
        Frame {
            offset: 0,
            message: ArrayVec::new(),
        }
    }
}

/// Finds the frames of a stream that comes in blocks or byte by byte. It holds the undecided bytes,
/// at most 1,029, in memory that [`new`](Framer::new) reserves.
#[derive(Drop)]
pub struct Framer {
    /// The held bytes.
    window: Window,
    /// The state of the candidate at the front of the held bytes, from one call to the next.
    candidate: Candidate,
    /// Largest number of bytes that are accepted.
    limit: u64,
    /// The offset of the first held byte in the stream.
    offset: u64,
    /// Number of bytes before it that are in no frame.
    given_up: u64,
    /// Whether the stream has ended.
    ended: bool,
    /// Whether the held bytes decide no further frame.
    drained: bool,
}

impl Model for Framer {
    ghost use Rattle.std.specs.Prelude.{◌≡◌, ◌+◌, ◌<◌, ◌≤◌, length, take, true};
    ghost use Rattle.rtcm_bits.specs.FrameOf.{longest_frame};
    ghost use Rattle.rtcm_scan.specs.Scan.{FramerValue, most_bytes, scan_of};
    ghost use Rattle.rtcm_scan.specs.inner.Candidate.{HasTaken};

    ghost Value = { FramerValue };

    ghost view = { λ f. scan_of f.limit f.offset f.window f.ended f.drained f.given_up f.candidate.count };

    ghost invariant = { λ f. (f.offset + length f.window.bytes ≤ f.limit) × (f.limit ≤ most_bytes)
        × (f.given_up ≤ f.offset)
        × (length f.window.bytes ≤ longest_frame) × (f.drained ≡ true → length f.window.bytes < longest_frame)
        × HasTaken f.candidate (take f.candidate.count f.window.bytes) × (f.candidate.count ≤ length f.window.bytes) };
}

impl Framer {
    /// Returns a framer of a stream of at most `limit` bytes, from 0 to 2^48.
    ///
    /// # Errors
    ///
    /// `BadLimit` if the limit is above 2^48, and `Memory` if the memory for the held bytes can't
    /// be allocated.
    pub fn new(alloc: Global, limit: u64) -> Result<Framer, ScanFault>
        ensures new { IfOk result (λ f. f ≡ new_scan limit) }
        ensures history { IfOk result (λ f. HasExamined f [] []) }
        ensures drained { IfOk result (λ f. IsDrained f [] []) }
        ensures bad_limit { result ≡ Err ScanFault.BadLimit ↔ most_bytes < limit }
        ensures only { IfErr result (λ fault. (fault ≡ ScanFault.BadLimit) ⊎ (fault ≡ ScanFault.Memory)) }
    {
        if limit > MOST_BYTES {
            return Err(ScanFault::BadLimit);
        }
        let window = Window::new(alloc).map_err(|_| ScanFault::Memory)?;
        Ok(Framer {
            window,
            candidate: Candidate::new(),
            limit,
            offset: 0,
            given_up: 0,
            ended: false,
            drained: true,
        })
    }

    /// Returns whether bytes may be pushed: none were pushed since `next` or `next_into` last
    /// returned `None`, or since the framer was made.
    pub fn ready(&self) -> bool
        ensures { result ≡ self.now.is_ready }
    {
        self.drained
    }

    /// Returns whether the stream hasn't ended and no byte was pushed since `next_into` last returned
    /// `None`: it would return `None` again.
    pub(crate) fn is_drained(&self) -> bool
        ensures { result ≡ self.now.is_ready && not self.now.has_ended }
    {
        self.drained && !self.ended
    }

    /// Accepts one more byte, and reads none. Call `next` or `next_into` until it returns `None`
    /// before the next push.
    ///
    /// # Errors
    ///
    /// `Ended` after `end`, and `TooLong` if the number of bytes accepted is the limit.
    pub fn push(&mut self, byte: u8) -> Result<(), ScanFault>
        requires { IsTrue self.old.is_ready }
        ensures { Pushes result self.old self.new (byte ∷ []) }
    {
        // Brings the bound on the number of held bytes into the proof.
        let _ = self.held();
        self.push_all(&[byte])
    }

    /// Accepts these bytes, at most 1,029 with those held, and reads none. Call `next` or
    /// `next_into` until it returns `None` before the next push.
    ///
    /// # Errors
    ///
    /// `Ended` after `end`, and `TooLong` if these bytes go over the limit; none of them is then
    /// accepted.
    pub fn push_all(&mut self, bytes: &[u8]) -> Result<(), ScanFault>
        requires ready { IsTrue self.old.is_ready }
        requires room { length self.old.held + length bytes.now ≤ longest_frame }
        ensures { Pushes result self.old self.new bytes.now }
    {
        if self.ended {
            Err(ScanFault::Ended)
        } else if self.limit - self.taken() < bytes.len() as u64 {
            Err(ScanFault::TooLong)
        } else {
            self.window.push_all(bytes);
            self.drained = false;
            Ok(())
        }
    }

    /// Ends the stream: `next` then decides all held bytes.
    pub fn end(&mut self)
        ensures ended { self.new ≡ record self.old { has_ended = true } }
        ensures history { KeepsHistory self.old self.new }
    {
        self.ended = true;
    }

    /// Returns the number of bytes held, from 0 to 1,029: those from the first undecided offset on,
    /// at most 1,028 after `next` returned `None`.
    pub fn held(&self) -> usize
        ensures value { result ≡ length self.now.held }
        ensures bound { result ≤ longest_frame }
        ensures decided { self.now.is_ready ≡ true → result ≤ most_undecided }
    {
        self.window.held()
    }

    /// Returns the number of bytes that may be pushed at once, 0 to 1,029: within the limit, and
    /// beside the held bytes.
    pub fn room(&self) -> usize
        ensures value { result ≡ min (longest_frame - length self.now.held) (self.now.limit - self.now.taken) }
        ensures fits { length self.now.held + result ≤ longest_frame }
        ensures within { self.now.taken + result ≤ self.now.limit }
        ensures some { self.now.is_ready ≡ true → self.now.taken < self.now.limit → 0 < result }
    {
        let allowed = (self.limit - self.taken()).min(LONGEST_FRAME as u64);
        (LONGEST_FRAME - self.held()).min(allowed as usize)
    }

    /// Returns the number of bytes accepted, at most the limit.
    pub fn taken(&self) -> u64
        ensures value { result ≡ self.now.taken }
        ensures within { (result ≤ self.now.limit) × (self.now.limit ≤ most_bytes) }
    {
        self.offset + self.window.held() as u64
    }

    /// Returns the number of decided bytes that are in no frame.
    pub fn skipped(&self) -> u64
        ensures { result ≡ self.now.skipped }
    {
        self.given_up
    }

    /// Returns the number of reads of bytes in all, at most 1,030 for each byte accepted.
    pub fn examined(&self) -> u64
        ensures value { result ≡ self.now.examined }
        ensures bound { (b : List ℕ) (fs : List Framed) → HasExamined self.now b fs → result ≤ most_looks * length b }
    {
        self.window.examined()
    }

    /// Returns the largest number of reads of any single byte, at most 1,030.
    pub fn most(&self) -> u16
        ensures value { result ≡ self.now.most }
        ensures bound { (b : List ℕ) (fs : List Framed) → HasExamined self.now b fs → result ≤ most_looks }
    {
        self.window.most()
    }

    /// Returns the next frame that the accepted bytes decide, or `None` if they decide no more.
    pub fn next(&mut self) -> Option<Frame>
        ensures { SeeksFrame result self.old self.new (λ f. FindsFrame self.old self.new (framed f)) }
    {
        let mut message = ArrayVec::new();
        let offset = self.next_into(&mut message)?;
        Some(Frame { offset, message })
    }

    /// Returns the offset of the next frame, as [`next`](Framer::next) does, and replaces the
    /// buffer's content by its message. If there is no frame, the buffer is unchanged.
    pub fn next_into(&mut self, message: &mut ArrayVec<u8, LONGEST_MESSAGE>) -> Option<u64>
        ensures next { SeeksFrame result self.old self.new
            (λ offset. FindsFrame self.old self.new (frame_at offset message.new.items)) }
        ensures kept { IfNone result (message.new ≡ message.old) }
    {
        let size = self.seek()?;
        Some(self.take_frame(size, message))
    }

    /// Drops bytes until a whole frame begins at the front, and returns its size, if the held bytes
    /// decide one.
    fn seek(&mut self) -> Option<usize>
        ensures { SeeksFrame result self.old self.new (ComesToFrame self.old self.new) }
    {
        while self.held() > 0 {
            match self.decide() {
                Decision::Open => break,
                Decision::Passed => self.pass_over(),
                Decision::Found(size) => return Some(size),
            }
        }
        self.drained = true;
        None
    }

    /// Reads the bytes of the candidate at the front that are held, and decides about it.
    fn decide(&mut self) -> Decision
        requires { 0 < length self.old.held }
        ensures examined { self.new ≡ with_candidate_examined self.old }
        ensures tried { self.old.tried ≤ asked self.old.held }
        ensures decision { result ≡ decision self.old.has_ended self.old.held }
    {
        examine(&mut self.window, &mut self.candidate);
        judge(&self.candidate, self.ended)
    }

    /// Drops the byte at the front, which is in no frame, and those before the next preamble.
    fn pass_over(&mut self)
        requires { 0 < length self.old.held }
        ensures history { KeepsHistory (passed self.old) self.new }
        ensures ready { self.new.is_ready ≡ self.old.is_ready }
        ensures same { IsScannedOn (passed self.old) self.new }
    {
        self.window.drop_front(1);
        self.candidate = Candidate::new();
        let n = 1 + pass_others(&mut self.window, &mut self.candidate) as u64;
        self.offset += n;
        self.given_up += n;
    }

    /// Writes the message of the frame at the front to the buffer, drops the frame, and returns its
    /// offset.
    fn take_frame(&mut self, size: usize, message: &mut ArrayVec<u8, LONGEST_MESSAGE>) -> u64
        requires begins { begins_frame self.old.held ≡ true }
        requires size { size ≡ frame_length self.old.held }
        ensures offset { result ≡ first_held self.old }
        ensures message { message.new.items ≡ framed_message self.old.held }
        ensures taken { self.new
            ≡ with_window self.old (without_front (looked_through (window_of self.old) 3 (size - 6)) size) 0 }
    {
        let offset = self.offset;
        let n = size - SHORTEST_FRAME;
        self.window.take_front(HEADER_BYTES, n, size, message);
        self.candidate = Candidate::new();
        self.offset += size as u64;
        offset
    }
}
