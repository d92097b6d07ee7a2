//! The state of the parser of a file: what the next line has to fit, and counts. It doesn't grow
//! with the file.
ghost use Rattle.std.specs.Prelude.{◌≡◌, ◌<◌, ◌^◌, ◌↔◌, [], None, IsTrue};
ghost use Rattle.gnss_system.specs.declared.system.System.{System};
ghost use Rattle.gnss_system.specs.SystemValues.{value_of};
ghost use Rattle.rinex_file.specs.Value.{FileValue};
ghost use Rattle.gnss_obs.specs.declared.cell.StationValues.{StationValues};
ghost use Rattle.rinex_file.specs.FileValues.{IsFileValue, most_rows, planned_in, rank_of};
ghost use Rattle.rinex_file.specs.File.{event_line, file_lines};
ghost use Rattle.rinex_file.specs.inner.Read.Progress.{HasLinesLeft, epoch_after};
ghost use Rattle.rinex_file.specs.inner.ParserState.{ExpectsHeader, HasRoom, FollowsHistory, TakesLine, progress_at};
ghost use Rattle.rinex_file.specs.Counting.{History, nothing};
ghost use Rattle.rinex_file.specs.inner.Read.Sound.{AreLinesOf, AreRead, MayBegin};

use crate::read::file::Counts;
use crate::read::head_so_far::HeadSoFar;
use crate::read::other_lines::{read_delta, read_epoch_line, read_position};
use crate::read::row::read_row;
use crate::read::times::{EpochTimes, with_later};
use crate::values::SatelliteRow;
use crate::write::line::event_line;
use arrayvec::ArrayVec;
use gnss_obs::{GpsTime, StationValues};
use gnss_system::{BySystem, SYSTEMS, System};
use rinex_columns::{Line, is_same};
use std::alloc::Global;

/// The kind of line that is expected next.
#[derive(Clone, Copy)]
pub(crate) enum Expected {
    /// A line of the header: that of the row at this index or of a later one.
    Header(usize),
    /// The line of an epoch or of an event, or the end.
    Epoch,
    /// The position in an event.
    EventPosition,
    /// The height in an event, after this position, whose height is zero.
    EventHeight(StationValues),
    /// The line of an epoch after an event with these station values.
    EventEpoch(StationValues),
    /// The line of a satellite, with the number of satellites that are left.
    Satellite(usize),
}

/// Why a line isn't accepted.
#[derive(Clone, Copy)]
pub(crate) enum Refusal {
    /// Memory ran out.
    Memory,
    /// No file continues with this line.
    Bad,
}

/// The state of the parser of a file.
#[derive(Drop)]
pub(crate) struct ParserState {
    pub(crate) expected: Expected,
    pub(crate) head: HeadSoFar,
    // Of the epoch that was begun: the station values that change with it, and its time.
    pub(crate) change: Option<StationValues>,
    pub(crate) time: GpsTime,
    // Of those before it: their times, and the station values that changed last, if they did.
    pub(crate) times: Option<EpochTimes>,
    pub(crate) values: Option<StationValues>,
    // The satellite that was read last, and its rank if it is of the epoch that was begun, or 0.
    pub(crate) last_read: SatelliteRow,
    pub(crate) rank: u64,
    pub(crate) counts: Counts,
}

/// Returns a satellite's rank among all: by system, and then by its number.
fn rank_of(row: &SatelliteRow) -> u64
    ensures { result ≡ rank_of row.now }
{
    100 * row.system as u64 + row.satellite as u64
}

/// Returns the number of planned signals of each system.
fn planned_signals(head: &HeadSoFar) -> BySystem<usize>
    ensures { (s : System) → value_of s result ≡ planned_in head.now.shown.plan s }
{
    BySystem::each(|system| head.planned(system))
}

/// Returns the number of satellites of the systems of which some signal is planned.
fn most_rows(head: &HeadSoFar) -> usize
    ensures { result ≡ most_rows (planned_in head.now.shown.plan) }
{
    let mut most = 0;
    for i in 0..SYSTEMS.len() {
        let system = System::at(i);
        if head.planned(system) > 0 {
            most += system.satellites() as usize;
        }
    }
    most
}

impl ParserState {
    /// Returns the state of a parser that has read nothing.
    pub(crate) fn new(alloc: Global) -> ParserState
        ensures history { FollowsHistory result nothing }
        ensures starts { (v : FileValue) → IsFileValue v → HasLinesLeft (progress_at result nothing) v (file_lines v) }
        ensures lines { AreLinesOf (progress_at result nothing) [] }
        ensures none { HasRoom result 0 }
        ensures header { ExpectsHeader result.expected }
    {
        let head = HeadSoFar::new(alloc);
        let time = head.first;
        ParserState {
            expected: Expected::Header(0),
            head,
            change: None,
            time,
            times: None,
            values: None,
            last_read: SatelliteRow {
                system: System::Gps,
                satellite: 0,
                signal_values: ArrayVec::new(),
            },
            rank: 0,
            counts: Counts::default(),
        }
    }

    /// Processes the next line; the buffer is for the line as it would be written.
    // Inlined in each of the two loops over lines, 12 instructions a line are saved.
    #[inline(always)]
    pub(crate) fn take(&mut self, line: &[u8], again: &mut Line) -> Result<(), Refusal>
        requires history { (h : History) × FollowsHistory self.old h }
        requires room { HasRoom self.old (2 ^ 40) }
        ensures { TakesLine self.old self.new line.now result }
    {
        match self.expected {
            Expected::Header(place) => {
                self.expected = self.head.take(place, line)?;
                Ok(())
            }
            // No event precedes the first epoch.
            Expected::Epoch if self.counts.epochs > 0 && is_same(line, event_line()) => {
                self.expected = Expected::EventPosition;
                Ok(())
            }
            Expected::Epoch => self.take_epoch(None, line, again),
            Expected::EventPosition => {
                let position = read_position(line).ok_or(Refusal::Bad)?;
                self.expected = Expected::EventHeight(position);
                Ok(())
            }
            Expected::EventHeight(position) => self.take_height(position, line),
            Expected::EventEpoch(values) => self.take_epoch(Some(values), line, again),
            Expected::Satellite(left) => self.take_satellite(left, line),
        }
    }

    /// Returns whether an epoch of this number of satellites may follow at a time.
    fn may_begin(&self, time: GpsTime, satellites: usize) -> bool
        requires between { (h : History) → FollowsHistory self.now h → AreRead (progress_at self.now h) }
        ensures { (h : History) → FollowsHistory self.now h → IsTrue result
            ↔ MayBegin (progress_at self.now h) time satellites }
    {
        if satellites == 0 || satellites > most_rows(&self.head) {
            return false;
        }
        match self.times {
            None => self.head.first.milliseconds() == time.milliseconds(),
            Some(times) => times.last.milliseconds() < time.milliseconds(),
        }
    }

    /// Processes the first line of an epoch, after an event with these station values or none.
    fn take_epoch(
        &mut self,
        change: Option<StationValues>,
        line: &[u8],
        again: &mut Line,
    ) -> Result<(), Refusal>
        requires expected { self.old.expected ≡ epoch_after change }
        requires event { change ≡ None → (0 < self.old.counts.epochs) × (line.now ≡ event_line) → ⊥ }
        ensures { TakesLine self.old self.new line.now result }
    {
        let (time, satellites) = read_epoch_line(line, again).ok_or(Refusal::Bad)?;
        if !self.may_begin(time, satellites) {
            return Err(Refusal::Bad);
        }
        self.change = change;
        self.time = time;
        self.expected = Expected::Satellite(satellites);
        Ok(())
    }

    /// Processes the height in an event, after this position. Refuses the line if neither differs
    /// from the current station values.
    fn take_height(&mut self, position: StationValues, line: &[u8]) -> Result<(), Refusal>
        requires expected { self.old.expected ≡ Expected.EventHeight position }
        ensures { TakesLine self.old self.new line.now result }
    {
        let height = read_delta(line).ok_or(Refusal::Bad)?;
        let mut values = position;
        values.height = height;
        if values.is_same(self.values.unwrap_or(self.head.values)) {
            return Err(Refusal::Bad);
        }
        self.expected = Expected::EventEpoch(values);
        Ok(())
    }

    /// Processes the line of a satellite, of which this number is left.
    fn take_satellite(&mut self, left: usize, line: &[u8]) -> Result<(), Refusal>
        requires history { (h : History) × FollowsHistory self.old h }
        requires room { HasRoom self.old (2 ^ 40) }
        requires expected { self.old.expected ≡ Expected.Satellite left }
        ensures { TakesLine self.old self.new line.now result }
    {
        let planned = planned_signals(&self.head);
        read_row(line, &planned, &mut self.last_read).ok_or(Refusal::Bad)?;
        let rank = rank_of(&self.last_read);
        if rank <= self.rank {
            return Err(Refusal::Bad);
        }
        self.counts.satellites += 1;
        if left > 1 {
            self.rank = rank;
            self.expected = Expected::Satellite(left - 1);
            return Ok(());
        }
        self.counts.epochs += 1;
        self.counts.events += self.change.is_some() as u64;
        self.values = self.change.or(self.values);
        self.times = Some(with_later(self.times, self.time));
        self.rank = 0;
        self.expected = Expected::Epoch;
        Ok(())
    }

    /// Returns whether the file may end here.
    pub(crate) fn may_end(&self) -> bool
        ensures { IsTrue result ↔ ((self.now.expected ≡ Expected.Epoch) × (0 < self.now.counts.epochs)) }
    {
        matches!(self.expected, Expected::Epoch) && self.counts.epochs > 0
    }
}
