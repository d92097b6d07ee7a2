//! The converter: it accepts a stream piece by piece, and writes its observation file.
ghost use Rattle.std.specs.Prelude.{◌≡◌, ◌≢◌, ◌<◌, ◌≤◌, ◌+◌, ◌*◌, ◌↔◌, [], true, false, length, drop};
ghost use Rattle.std.specs.Prelude.{Err, OnOk, IfOk, IfErr, IsErrOf, None, Some};
ghost use Rattle.gnss_obs.specs.GatheredEpochs.{AreStationValues};
ghost use Rattle.rtcm_scan.specs.Frames.{frames_of};
ghost use Rattle.rtcm_scan.specs.Decided.{decided, decided_frames, most_undecided};
ghost use Rattle.rtcm_bits.specs.FrameOf.{longest_frame};
ghost use Rattle.rtcm_scan.specs.Looks.{examined, examined_now, most, most_looks, most_now};
ghost use Rattle.gnss_obs.specs.Values.{cells_of, most_cells};
ghost use Rattle.obs_epoch.specs.GathererAfter.{most_locks, recorded};
ghost use Rattle.rtcm_convert.specs.Kept.{cells_kept, locks_kept, locks_in_all, IsWithinBounds, IsKeptNow, IsKeptAtEnd};
ghost use Rattle.devices.specs.Device.{IsUntouched, Moves, WritesBytes};
ghost use Rattle.rtcm_convert.specs.Outcomes.{report_with};
ghost use Rattle.rtcm_convert.specs.Faults.{FailsWithReader, FailsWithWriter, IfEmpty, IsSentAfter, IsSetupFault};
ghost use Rattle.rtcm_convert.specs.Faults.{fault_of_none, IsFeedFault, IsFinishFault, IsPiecesFault, IsRunFault};
ghost use Rattle.rtcm_convert.specs.SetupValues.{setup_value, IsBad};
ghost use Rattle.rtcm_convert.specs.Conversion.{kept_of, HasConverted, ForAccepted, ForFinished, IsGoing, CutsAtLimit};
ghost use Rattle.rtcm_convert.specs.Conversion.{refusal, IsLeft, IsRefused, CompletesFile, CompletesEmptyFile};
ghost use Rattle.rtcm_convert.specs.Conversion.{CompletesFileOfAll, CompletesEmptyFileOfAll};
ghost use Rattle.rtcm_convert.specs.Conversion.{RanToFault, RanToLimit, StopsRunning};
ghost use Rattle.rtcm_convert.specs.inner.Conversion.{KeepsNow, GoesOnBy, TakesPiece, WritesPrefixOfAdded, StopsAtEnd};
ghost use Rattle.rtcm_convert.specs.inner.Conversion.{FinishesNow, FinishesEmptyNow};
ghost use Rattle.rtcm_convert.specs.Broken.{joined_pieces};
ghost use Rattle.rtcm_convert.specs.Pieces.{StopsInPieces};

use crate::fault::Fault;
use crate::file_writer::{FileWriter, end_stream};
use crate::laws;
use crate::report::Report;
use crate::setup::Setup;
use devices::{Counted, Deliver};
use gnss_system::{BySystem, System};
use rtcm_bits::LONGEST_FRAME;
use rtcm_scan::{Frame, Framer, MOST_BYTES};
use std::alloc::Global;
use std::io::Read;
use std::marker::Model;

/// Converts a stream to an observation file. It holds at most 1,029 bytes of the stream, 256 cells
/// per system and `gnss_system::KEY_COUNT` lock records; [`kept`](Converter::kept) returns their
/// numbers.
#[derive(Drop)]
pub struct Converter {
    framer: Framer,
    /// The buffer of the frames.
    frame: Frame,
    file_writer: FileWriter,
    failed: bool,
    finished: bool,
}

/// What a converter holds, and the number of times it has read its input.
#[derive(Clone, Copy)]
pub struct Kept {
    /// Number of undecided bytes held, 0 to 1,029.
    pub held: usize,
    /// Number of cells of each system of the pending epoch or, if none is pending, of the one closed
    /// last; at most 256.
    pub cells: BySystem<usize>,
    /// Number of lock records, at most `gnss_system::KEY_COUNT`.
    pub locks: usize,
    /// Number of reads of bytes in all.
    pub examined: u64,
    /// Largest number of reads of any single byte, at most 1,030.
    pub most: u16,
}

impl Model for Converter {
    ghost use Rattle.std.specs.Prelude.{◌≡◌, true, false};
    ghost use Rattle.rtcm_convert.specs.Conversion.{Conversion};
    ghost use Rattle.rtcm_convert.specs.inner.Conversion.{IsFit};

    ghost Value = { Conversion };

    ghost view = { λ c.
        record { scan = c.framer; file_writer = c.file_writer; has_failed = c.failed; has_ended = c.finished } };

    ghost invariant = { λ c.
        IsFit
        (record { scan = c.framer; file_writer = c.file_writer; has_failed = c.failed; has_ended = c.finished }) };
}

impl Converter {
    /// Returns a converter that has accepted no byte. Only this call allocates.
    ///
    /// # Errors
    ///
    /// `BadSetup` for a limit, week or station out of range, and for coordinates that don't fit 38
    /// bits (DF025 to DF027); and `Memory`.
    pub fn new(alloc: Global, setup: Setup) -> Result<Self, Fault>
        ensures history { IfOk result (λ c. HasConverted c (setup_value setup) []) }
        ensures fresh { IfOk result (λ c. (c.scan.limit ≡ setup.limit) × (c.scan.taken ≡ 0)) }
        ensures bad { result ≡ Err Fault.BadSetup ↔ IsBad setup }
        ensures fits { IfOk result (λ c. AreStationValues setup.gatherer.initial) }
        ensures only { IfErr result IsSetupFault }
    {
        if setup.limit > MOST_BYTES || !setup.gatherer.initial.fits_message() {
            drop(setup);
            return Err(Fault::BadSetup);
        }
        let limit = setup.limit;
        let file_writer = FileWriter::new(alloc, setup)?;
        let Ok(framer) = Framer::new(alloc, limit) else {
            drop(file_writer);
            return Err(Fault::Memory);
        };
        Ok(Converter {
            framer,
            frame: Frame::new(),
            file_writer,
            failed: false,
            finished: false,
        })
    }

    /// Accepts a piece of the stream, of any length, writes every epoch that it closes, and has the
    /// writer deliver it.
    ///
    /// # Errors
    ///
    /// `TooLong` if the stream goes over its limit (the bytes up to it are accepted), `Write` if
    /// the writer failed; and, without any effect, `Finished` if the stream was ended, and `Failed`
    /// if an earlier call failed.
    pub fn feed<W: Deliver>(&mut self, piece: &[u8], writer: &mut Counted<W>) -> Result<(), Fault>
        ensures refused { IsRefused self.old self.new (writer.new ≡ writer.old) result }
        // All bytes were accepted, what they add was written, and the converter holds and has
        // examined the values for all bytes, within the bounds.
        ensures whole { OnOk result (WritesBytes W.contents writer.old writer.new
            (TakesPiece self.old self.new piece.now)) }
        ensures going { OnOk result (GoesOnBy self.old self.new (length piece.now)) }
        // At a fault no more than this piece was accepted.
        ensures taken { (self.old.scan.taken ≤ self.new.scan.taken)
            × (self.new.scan.taken ≤ self.old.scan.taken + length piece.now) }
        // What is held and was examined then.
        ensures keeps { OnOk result (KeepsNow self.new) }
        // A prefix of what these bytes add was written.
        ensures part { IsErrOf result Fault.Write
            → WritesBytes W.contents writer.old writer.new (WritesPrefixOfAdded self.old piece.now) }
        // The bytes up to the limit were accepted, and what they add was written.
        ensures long { IsErrOf result Fault.TooLong
            → WritesBytes W.contents writer.old writer.new (CutsAtLimit self.old self.new piece.now) }
        // Nothing waits in the writer, unless it failed.
        ensures sent { IsSentAfter result (W.waiting writer.old.inner) (W.waiting writer.new.inner) }
        ensures device { FailsWithWriter result writer.old writer.new }
        ensures left { IsLeft IsFeedFault self.old self.new result }
    {
        // A refused call has no effect.
        self.refuse()?;
        laws::filed();
        let frame = &mut self.frame;
        let file_writer = &mut self.file_writer;
        match self.framer.feed(piece, frame, file_writer, writer) {
            Ok(()) => {
                // Brings the values and bounds of what is held into the proof.
                let _ = self.kept();
                Ok(())
            }
            Err(stopped) => {
                self.failed = true;
                Err(Fault::from(stopped))
            }
        }
    }

    /// Ends the stream, writes the rest of the file, delivers it, and returns the report.
    ///
    /// # Errors
    ///
    /// If the file has no epoch, so that nothing was written, `NoEpoch` if no epoch of the stream
    /// has a value, else `NoneChosen`; the converter is then finished, as after `Ok`. `Write` if
    /// the writer failed; and, without any effect, `Finished` if the stream was ended before, and
    /// `Failed` if an earlier call failed.
    pub fn finish<W: Deliver>(&mut self, writer: &mut Counted<W>) -> Result<Report, Fault>
        ensures refused { IsRefused self.old self.new (writer.new ≡ writer.old) result }
        // The rest of the file was written, and that is the report.
        ensures whole { IfOk result (λ report. WritesBytes W.contents writer.old writer.new
            (FinishesNow self.old self.new report)) }
        // Nothing was written: no epoch of the whole stream has a value, or none that has one is chosen.
        ensures empty { IfEmpty result (λ fault. WritesBytes W.contents writer.old writer.new
            (FinishesEmptyNow self.old self.new fault)) }
        // A prefix of the rest of the file was written.
        ensures part { IsErrOf result Fault.Write → WritesBytes W.contents writer.old writer.new (StopsAtEnd self.old) }
        // Nothing waits in the writer, unless it failed.
        ensures sent { IsSentAfter result (W.waiting writer.old.inner) (W.waiting writer.new.inner) }
        ensures device { FailsWithWriter result writer.old writer.new }
        ensures taken { self.new.scan.taken ≡ self.old.scan.taken }
        ensures left { IsLeft IsFinishFault self.old self.new result × OnOk result (self.new.has_ended ≡ true) }
    {
        self.refuse()?;
        if let Err(_) = end_stream(&mut self.framer, &mut self.file_writer, writer) {
            self.failed = true;
            return Err(Fault::Write);
        }
        self.finished = true;
        // Brings the values and bounds of what is held into the proof.
        let _ = self.kept();
        self.ended_report()
    }

    /// Returns the report of an ended stream, or why its file has no epoch.
    fn ended_report(&self) -> Result<Report, Fault>
        ensures some { IfOk result (λ report. (self.now.file_writer.epochs ≢ 0)
            × (report
            ≡ report_with self.now.scan.taken self.now.scan.skipped self.now.file_writer.tally
            self.now.file_writer.epochs)) }
        ensures none { IfErr result (λ fault. (fault ≡ fault_of_none self.now.file_writer.gatherer.counts)
            × (self.now.file_writer.epochs ≡ 0)) }
    {
        let epochs = self.file_writer.epochs;
        if epochs == 0 {
            return Err(self.fault_of_none());
        }
        Ok(Report {
            bytes: self.framer.taken(),
            skipped_bytes: self.framer.skipped(),
            epochs,
            ..self.file_writer.tally
        })
    }

    /// Returns why the file of an ended stream has no epoch.
    fn fault_of_none(&self) -> Fault
        ensures { result ≡ fault_of_none self.now.file_writer.gatherer.counts }
    {
        let counts = self.file_writer.gatherer.epoch_counts();
        if counts.epochs == 0 {
            Fault::NoEpoch
        } else {
            Fault::NoneChosen(counts)
        }
    }

    /// Accepts the pieces of the rest of the stream in order, ends it, and returns the report: a
    /// call of [`feed`](Converter::feed) for each piece, and [`finish`](Converter::finish).
    ///
    /// # Errors
    ///
    /// Those of `feed` and `finish`.
    pub fn take_pieces<W: Deliver>(
        &mut self,
        pieces: &[Vec<u8>],
        writer: &mut Counted<W>,
    ) -> Result<Report, Fault>
        ensures refused { IsRefused self.old self.new (writer.new ≡ writer.old) result }
        // The file of all the bytes, those accepted before and those of the pieces, was completed,
        // with that report, and the converter holds and has examined the values for all bytes,
        // within the bounds.
        ensures whole { IfOk result (λ report. WritesBytes W.contents writer.old writer.new
            (CompletesFile self.old self.new report (joined_pieces pieces.now))) }
        // Nothing was written: no epoch of the whole stream has a value, or none that has one is chosen.
        ensures empty { IfEmpty result (λ fault. WritesBytes W.contents writer.old writer.new
            (CompletesEmptyFile self.old self.new fault (joined_pieces pieces.now))) }
        // The bytes up to the limit were accepted, and what they add was written.
        ensures long { IsErrOf result Fault.TooLong
            → WritesBytes W.contents writer.old writer.new (CutsAtLimit self.old self.new (joined_pieces pieces.now)) }
        // The writer failed at one of the pieces, or at the end.
        ensures write { IsErrOf result Fault.Write
            → WritesBytes W.contents writer.old writer.new (StopsInPieces self.old pieces.now) }
        // Nothing waits in the writer, unless it failed.
        ensures sent { IsSentAfter result (W.waiting writer.old.inner) (W.waiting writer.new.inner) }
        ensures device { FailsWithWriter result writer.old writer.new }
        ensures left { IsLeft IsPiecesFault self.old self.new result × OnOk result (self.new.has_ended ≡ true) }
    {
        self.refuse()?;
        for piece in pieces {
            self.feed(piece, writer)?;
        }
        self.finish(writer)
    }

    /// Refuses every call of a converter that is finished or has failed.
    fn refuse(&self) -> Result<(), Fault>
        ensures going { OnOk result (refusal self.now ≡ None) }
        ensures refused { IfErr result (λ fault. refusal self.now ≡ Some fault) }
    {
        match (self.finished, self.failed) {
            (true, _) => Err(Fault::Finished),
            (_, true) => Err(Fault::Failed),
            _ => Ok(()),
        }
    }

    /// Reads the rest of the stream, at most 1,029 bytes at a time less those held, and writes the
    /// rest of its file. What was written is delivered before the first piece, after each, and at
    /// the end; after `Read` too nothing waits in the writer.
    ///
    /// # Errors
    ///
    /// `Read` if the reader failed, and those of `feed` and `finish`.
    pub fn run<R: Read, W: Deliver>(
        &mut self,
        reader: &mut Counted<R>,
        writer: &mut Counted<W>,
    ) -> Result<Report, Fault>
        ensures refused { IsRefused self.old self.new (IsUntouched reader.old reader.new writer.old writer.new) result }
        // The rest of the file of all the bytes was written, and that is the report.
        ensures whole { IfOk result (λ report. Moves R.remaining reader.old reader.new W.contents writer.old writer.new
            (CompletesFileOfAll self.old self.new report)) }
        // Nothing was written: no epoch of the whole stream has a value, or none that has one is chosen.
        ensures empty { IfEmpty result (λ f. Moves R.remaining reader.old reader.new W.contents writer.old writer.new
            (CompletesEmptyFileOfAll self.old self.new f)) }
        // The stream is longer than the limit; the bytes up to it were accepted, and what they add
        // was written.
        ensures long { IsErrOf result Fault.TooLong
            → Moves R.remaining reader.old reader.new W.contents writer.old writer.new (RanToLimit self.old self.new) }
        // The reader failed: what the bytes read before add was written.
        ensures read { IsErrOf result Fault.Read
            → Moves R.remaining reader.old reader.new W.contents writer.old writer.new (RanToFault self.old self.new) }
        // The writer failed, at one of the pieces or at the end.
        ensures write { IsErrOf result Fault.Write
            → Moves R.remaining reader.old reader.new W.contents writer.old writer.new
            (StopsRunning self.old self.new) }
        // Nothing waits in the writer, unless it failed.
        ensures sent { IsSentAfter result (W.waiting writer.old.inner) (W.waiting writer.new.inner) }
        ensures reader { FailsWithReader result reader.old reader.new }
        ensures writer { FailsWithWriter result writer.old writer.new }
        ensures left { IsLeft IsRunFault self.old self.new result × OnOk result (self.new.has_ended ≡ true) }
    {
        self.refuse()?;
        laws::filed();
        rtcm_scan::laws::prefix();
        let mut buffer = [0u8; LONGEST_FRAME];
        let framer = &mut self.framer;
        let frame = &mut self.frame;
        match framer.read_pieces(reader, &mut buffer, frame, &mut self.file_writer, writer) {
            Ok(()) => {
                // Brings the values and bounds of what is held into the proof.
                let _ = self.kept();
                self.finish(writer)
            }
            Err(fault) => {
                self.failed = true;
                Err(Fault::from(fault))
            }
        }
    }

    /// Returns what the converter holds and has examined: the values of [`held`](Converter::held),
    /// [`cells`](Converter::cells), [`locks`](Converter::locks), [`examined`](Converter::examined)
    /// and [`most`](Converter::most).
    pub fn kept(&self) -> Kept
        ensures value { result ≡ kept_of self.now }
        ensures bounds { IsWithinBounds self.now.scan.taken (kept_of self.now) }
        ensures now { ForAccepted self.now (λ s b. IsKeptNow s b (kept_of self.now)) }
        ensures all { ForFinished self.now (λ s b. IsKeptAtEnd s b (kept_of self.now)) }
    {
        Kept {
            held: self.held(),
            cells: BySystem::each(|system| self.cells(system)),
            locks: self.locks(),
            examined: self.examined(),
            most: self.most(),
        }
    }

    /// Returns the number of bytes held, from 0 to 1,029: those that are not decided.
    pub fn held(&self) -> usize
        ensures value { result ≡ length self.now.scan.held }
        ensures bound { result ≤ longest_frame }
        ensures room { IsGoing self.now → result ≤ most_undecided }
        // The held bytes are those from the first undecided offset on; none after the end of the
        // stream.
        ensures undecided { ForAccepted self.now (λ s b. self.now.scan.held ≡ drop (decided b) b) }
        ensures nothing { ForFinished self.now (λ s b. result ≡ 0) }
    {
        self.framer.held()
    }

    /// Returns the number of cells of a system held, from 0 to 256: those of the pending epoch or,
    /// if none is pending, of the one closed last.
    pub fn cells(&self, system: System) -> usize
        ensures value { result ≡ length (cells_of system self.now.file_writer.gatherer.epoch) }
        ensures now { ForAccepted self.now (λ s b. result ≡ cells_kept s system (decided_frames b)) }
        ensures all { ForFinished self.now (λ s b. result ≡ cells_kept s system (frames_of b)) }
        ensures bound { result ≤ most_cells }
    {
        self.file_writer.gatherer.cells(system)
    }

    /// Returns the number of lock records held, at most `gnss_system::KEY_COUNT`: one for each
    /// satellite and signal of which a closed epoch has a kept cell with a valid phase and a known
    /// lock.
    pub fn locks(&self) -> usize
        ensures value { result ≡ recorded self.now.file_writer.gatherer.locks }
        ensures now { ForAccepted self.now (λ s b. result ≡ locks_kept s (decided_frames b)) }
        ensures all { ForFinished self.now (λ s b. result ≡ locks_in_all s (frames_of b)) }
        ensures bound { result ≤ most_locks }
    {
        obs_epoch::laws::closed_stay();
        self.file_writer.gatherer.locks()
    }

    /// Returns the number of reads of bytes in all, at most 1,030 for each byte accepted.
    pub fn examined(&self) -> u64
        ensures value { result ≡ self.now.scan.examined }
        // At most 1,030 for each byte accepted, at every moment.
        ensures bound { result ≤ most_looks * self.now.scan.taken }
        ensures now { ForAccepted self.now (λ s b. result ≡ examined_now b) }
        ensures all { ForFinished self.now (λ s b. result ≡ examined b) }
    {
        self.framer.examined()
    }

    /// Returns the largest number of reads of any single byte, at most 1,030.
    pub fn most(&self) -> u16
        ensures value { result ≡ self.now.scan.most }
        ensures bound { result ≤ most_looks }
        ensures now { ForAccepted self.now (λ s b. result ≡ most_now b) }
        ensures all { ForFinished self.now (λ s b. result ≡ most b) }
    {
        self.framer.most()
    }
}
