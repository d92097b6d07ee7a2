//! Reading a file line by line, and epoch by epoch.
ghost use Rattle.std.specs.Prelude.{◌≡◌, ◌==◌, ◌+◌, [], List, Option, ℕ, IsTrue, ◌↔◌};
ghost use Rattle.rinex_file.specs.Accepted.{IsFaultAfter};
ghost use Rattle.rinex_file.specs.Exact.{ExplainsFault, IsFaulty, IsExpectedAt};
ghost use Rattle.rinex_file.specs.Blocks.{ReadsPrefix};
ghost use Rattle.rinex_file.specs.inner.ParserState.{ExpectsRow};
ghost use Rattle.rinex_file.specs.Counting.{History};
ghost use Rattle.rinex_file.specs.Value.{Stamped};
ghost use Rattle.rinex_file.specs.inner.Read.Steps.{GoesOnReading, HasRead};
ghost use Rattle.gnss_obs.specs.SignalLists.{indices};
ghost use Rattle.gnss_obs.specs.Values.{planned_of};
ghost use Rattle.gnss_obs.specs.inner.SignalLists.{IsOf};
ghost use Rattle.rinex_file.specs.inner.Read.EpochSteps.{BeginsEpoch, FinishesEpoch, HasReadEpochs, HasReadRows};
ghost use Rattle.rinex_file.specs.inner.Read.EpochSteps.{ReadsRow, plan_of, row_of};

use crate::read::fault::ReadFault;
use crate::read::file::FileSummary;
use crate::read::lines::{Found, Lines};
use crate::read::parser_state::{Expected, ParserState, Refusal};
use crate::read::times::EpochTimes;
use crate::values::SatelliteRow;
use devices::Counted;
use gnss_obs::{GpsTime, Signal};
use gnss_system::System;
use rinex_columns::Line;
use std::alloc::Global;
use std::io::Read;

/// Largest number of lines of a file.
const MOST_LINES: u64 = 1 << 32;

/// Returns the fault of a line that isn't of the kind that was expected.
fn fault_at(expected: Expected, number: u64) -> ReadFault
    ensures faulty { (input : List ℕ) → IsFaulty input number → IsExpectedAt expected input number
        → ExplainsFault input result }
    ensures other { result ≡ ReadFault.Read → ⊥ }
    ensures memory { result ≡ ReadFault.Memory → ⊥ }
    ensures number { (n : ℕ) → number ≡ n + 1 → IsFaultAfter result n }
{
    match expected {
        Expected::Header(_) => ReadFault::BadHeader(number),
        Expected::Epoch | Expected::EventEpoch(_) => ReadFault::BadEpoch(number),
        Expected::EventPosition | Expected::EventHeight(_) => ReadFault::BadEvent(number),
        Expected::Satellite(_) => ReadFault::BadSatellite(number),
    }
}

/// What follows in a file.
#[derive(Clone, Copy)]
pub enum NextEpoch {
    /// An epoch.
    Epoch {
        /// The times of the epochs before it, if there are any.
        before: Option<EpochTimes>,
        /// Its time.
        time: GpsTime,
    },
    /// The end of the file, which has this summary.
    End(FileSummary),
}

/// The reading of a file epoch by epoch. It accepts the files that
/// [`check_file`](crate::check_file) accepts, and its size doesn't grow with the file.
#[derive(Drop)]
pub struct EpochReader {
    pub(crate) parser_state: ParserState,
    // The number of lines that were accepted.
    pub(crate) count: u64,
    pub(crate) lines: Lines,
    again: Line,
}

impl EpochReader {
    /// Returns the reading of a file of which nothing was read.
    pub fn new(alloc: Global) -> EpochReader
        ensures { (input : Option (List ℕ)) → HasReadEpochs result [] input input }
    {
        EpochReader {
            parser_state: ParserState::new(alloc),
            count: 0,
            lines: Lines::new(),
            again: Line::new(),
        }
    }

    /// Reads the next line, and returns true; or false at the end of the file.
    // Three loops call it, and a call for each line would cost 30 instructions.
    #[inline(always)]
    pub(crate) fn next_line<R: Read>(&mut self, reader: &mut Counted<R>) -> Result<bool, ReadFault>
        requires { (h : History) × (input : Option (List ℕ)) × HasRead self.old h input (R.remaining reader.old.inner) }
        ensures goes { GoesOnReading self.old (R.remaining reader.old.inner) self.new (R.remaining reader.new.inner)
            result }
        ensures reads { ReadsPrefix ReadFault.Read result R.remaining reader.old reader.new }
    {
        let number = self.count + 1;
        let fault = fault_at(self.parser_state.expected, number);
        match self.lines.next(reader) {
            Found::Failed => return Err(ReadFault::Read),
            _ if self.count == MOST_LINES && !self.lines.is_empty() => {
                return Err(ReadFault::TooLong);
            }
            Found::Line => {}
            Found::End if self.lines.is_empty() && self.parser_state.may_end() => return Ok(false),
            Found::End => return Err(ReadFault::CutShort(number)),
            Found::Long => return Err(fault),
        }
        match self.parser_state.take(self.lines.line(), &mut self.again) {
            Ok(()) => self.count = number,
            Err(Refusal::Memory) => return Err(ReadFault::Memory),
            Err(Refusal::Bad) => return Err(fault),
        }
        Ok(true)
    }

    /// Reads the lines up to that of the next epoch, or to the end of the file. The epoch is whole
    /// after its rows: read them by [`next_row`](EpochReader::next_row) or
    /// [`finish`](EpochReader::finish). Not to be called before that, nor after the end or an error.
    ///
    /// # Errors
    ///
    /// As for [`check_file`](crate::check_file).
    pub fn begin<R: Read>(&mut self, reader: &mut Counted<R>) -> Result<NextEpoch, ReadFault>
        requires { (es : List Stamped) × (input : Option (List ℕ))
            × HasReadEpochs self.old es input (R.remaining reader.old.inner) }
        ensures epochs { (es : List Stamped) → (input : Option (List ℕ))
            → HasReadEpochs self.old es input (R.remaining reader.old.inner)
            → BeginsEpoch self.old self.new es input (R.remaining reader.new.inner) result }
        ensures reads { ReadsPrefix ReadFault.Read result R.remaining reader.old reader.new }
    {
        let before = self.parser_state.times;
        while self.next_line(reader)? {
            if self.expects_row() {
                let time = self.parser_state.time;
                return Ok(NextEpoch::Epoch { before, time });
            }
        }
        let state = &self.parser_state;
        let (counts, times) = (state.counts, state.times.unwrap());
        Ok(NextEpoch::End(FileSummary { counts, times }))
    }

    /// Reads the line of the next satellite of the epoch that was begun, and returns true; or false
    /// if the epoch is whole. [`row`](EpochReader::row) returns what the line contains.
    ///
    /// # Errors
    ///
    /// As for [`check_file`](crate::check_file).
    // Inlined in the loops over rows, as `next_line` is.
    #[inline(always)]
    pub fn next_row<R: Read>(&mut self, reader: &mut Counted<R>) -> Result<bool, ReadFault>
        requires { (es : List Stamped) × (e : Stamped) × (input : Option (List ℕ))
            × HasReadRows self.old es e input (R.remaining reader.old.inner) }
        ensures rows { (es : List Stamped) → (e : Stamped) → (input : Option (List ℕ))
            → HasReadRows self.old es e input (R.remaining reader.old.inner)
            → ReadsRow self.old self.new es e input (R.remaining reader.new.inner) result }
        ensures reads { ReadsPrefix ReadFault.Read result R.remaining reader.old reader.new }
    {
        if !self.expects_row() {
            return Ok(false);
        }
        self.next_line(reader)
    }

    /// Reads the lines of the satellites that are left of the epoch that was begun.
    ///
    /// # Errors
    ///
    /// As for [`check_file`](crate::check_file).
    pub fn finish<R: Read>(&mut self, reader: &mut Counted<R>) -> Result<(), ReadFault>
        requires { (es : List Stamped) × (e : Stamped) × (input : Option (List ℕ))
            × HasReadRows self.old es e input (R.remaining reader.old.inner) }
        ensures rows { (es : List Stamped) → (e : Stamped) → (input : Option (List ℕ))
            → HasReadRows self.old es e input (R.remaining reader.old.inner)
            → FinishesEpoch self.old self.new es e input (R.remaining reader.new.inner) result }
        ensures reads { ReadsPrefix ReadFault.Read result R.remaining reader.old reader.new }
    {
        while self.next_row(reader)? {}
        Ok(())
    }

    /// Returns whether the line of a satellite is expected.
    fn expects_row(&self) -> bool
        ensures { IsTrue result ↔ ExpectsRow self.now.parser_state.expected }
    {
        matches!(self.parser_state.expected, Expected::Satellite(_))
    }

    /// Returns the row that was read last.
    pub fn row(&self) -> &SatelliteRow
        ensures { result.now ≡ row_of self.now }
    {
        &self.parser_state.last_read
    }

    /// Returns the number of the line that was read last, counted from 1; 0 before any line.
    pub fn line(&self) -> u64
        ensures { result ≡ self.now.count }
    {
        self.count
    }

    /// Returns the planned signals of a system, in the order of the file. They are read with the
    /// header, so none is planned before the first epoch was begun.
    pub fn signals(&self, system: System) -> &[Signal]
        ensures indices { indices result.now ≡ planned_of system (plan_of self.now) }
        ensures system { IsOf system result.now }
    {
        self.parser_state.head.signals(system)
    }
}
