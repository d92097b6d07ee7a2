//! What was read of a header.
ghost use Rattle.std.specs.Prelude.{◌≡◌, ◌<◌, ◌≤◌, ◌+◌, true, length, is_some, Err, OnOk};
ghost use Rattle.gnss_system.specs.Signals.{table};
ghost use Rattle.gnss_obs.specs.SignalLists.{indices};
ghost use Rattle.gnss_obs.specs.Values.{planned_of};
ghost use Rattle.gnss_obs.specs.inner.SignalLists.{IsOf};
ghost use Rattle.rinex_file.specs.Header.{is_of_types, type_rows};
ghost use Rattle.rinex_file.specs.inner.Header.{row_at};
ghost use Rattle.rinex_file.specs.inner.Read.Progress.{AreValid, IsHeadAt, counted, signals_begun, is_chosen, fits};
ghost use Rattle.rinex_file.specs.inner.Read.HeaderSteps.{begins_with, expected_if, known_line, SameFrom};
ghost use Rattle.rinex_file.specs.inner.Read.HeaderSteps.{TakesHeaderLine, TakesTypes, RefusesTypes, with_types};
ghost use Rattle.rinex_file.specs.inner.Read.HeaderSteps.{AreItemsBefore, IsHeaderLineRead, IsOnly, ReadsOrRefuses};
ghost use Rattle.rinex_file.specs.inner.Read.HeaderSteps.{RefusesHeaderLine};

use crate::header::lines::{UNIT, flagged_letter};
use crate::header::lists::{slot_rows, type_rows};
use crate::header::rows::{HeaderRow, first_types, row_at};
use crate::header::texts::HeaderTexts;
use crate::read::other_lines::{
    read_delta, read_first, read_interval, read_position, read_texts, read_version,
};
use crate::read::parser_state::{Expected, Refusal};
use crate::read::slots::SlotsSoFar;
use crate::read::types::TypesSoFar;
use gnss_obs::{GpsTime, Interval, Signal, StationValues};
use gnss_system::{BySystem, System};
use rinex_columns::has_label;
use std::alloc::Global;
use std::marker::Model;

/// What was read of a header.
#[derive(Drop)]
pub(crate) struct HeadSoFar {
    /// The letter in the first line, or 0 before it is read.
    pub(crate) letter: u8,
    pub(crate) texts: HeaderTexts,
    pub(crate) interval: Option<Interval>,
    pub(crate) types: BySystem<TypesSoFar>,
    pub(crate) slots: SlotsSoFar,
    pub(crate) values: StationValues,
    pub(crate) first: GpsTime,
}

impl Model for HeadSoFar {
    ghost use Rattle.std.specs.Prelude.{◌≤◌, length};
    ghost use Rattle.gnss_system.specs.Signals.{table};
    ghost use Rattle.gnss_obs.specs.SignalLists.{indices};
    ghost use Rattle.gnss_obs.specs.inner.SignalLists.{IsOf};
    ghost use Rattle.gnss_system.specs.declared.system.System.{System};
    ghost use Rattle.gnss_system.specs.SystemValues.{value_of, map_by};
    ghost use Rattle.rinex_file.specs.inner.Read.Progress.{Known};
    ghost use Rattle.std.specs.Prelude.{IfSome};
    ghost use Rattle.gnss_obs.specs.GatheredEpochs.{AreStationValues};
    ghost use Rattle.rinex_file.specs.FileValues.{IsTime};
    ghost use Rattle.gnss_obs.specs.Intervals.{IsInterval};

    ghost Value = { Known };

    ghost view = { λ h. record {
      shown =
          record {
            texts = h.texts;
            interval = h.interval;
            plan = record { signals = map_by (λ t. indices t.signals) h.types; channels = h.slots.channels };
            values = h.values;
            first = h.first;
          };
      letter = h.letter;
      counts = map_by (λ t. t.count) h.types;
      slots = h.slots.count;
    } };

    ghost invariant = { λ h. AreStationValues h.values × IsTime h.first × ((s : System) →
        IsOf s (value_of s h.types).signals × ((value_of s h.types).count ≤ length (table s)))
        × IfSome h.interval IsInterval };
}

impl HeadSoFar {
    /// Returns a header of which nothing was read.
    pub(crate) fn new(alloc: Global) -> HeadSoFar
        ensures { IsHeadAt result 0 }
    {
        let head = HeadSoFar {
            letter: 0,
            texts: HeaderTexts::blank(),
            interval: None,
            types: BySystem::each(|_| TypesSoFar::new(alloc)),
            slots: SlotsSoFar::new(),
            values: StationValues::zero(),
            first: GpsTime::new(0).unwrap(),
        };
        head.are_valid();
        head
    }

    /// Returns what was read of the types of a system.
    fn of(&self, system: System) -> &TypesSoFar
        ensures count { result.now.count ≡ counted self.now system }
        ensures signals { indices result.now.signals ≡ planned_of system self.now.shown.plan }
        ensures few { result.now.count ≤ length (table system) }
        ensures system { IsOf system result.now.signals }
    {
        self.types.of(system)
    }

    /// Returns the number of signals of a system that were read.
    pub(crate) fn planned(&self, system: System) -> usize
        ensures { result ≡ length (planned_of system self.now.shown.plan) }
    {
        self.of(system).signals.len()
    }

    /// Returns the signals of a system that were read.
    pub(crate) fn signals(&self, system: System) -> &[Signal]
        ensures indices { indices result.now ≡ planned_of system self.now.shown.plan }
        ensures system { IsOf system result.now }
    {
        self.of(system).signals.as_slice()
    }

    /// Shows that each part that was read is one of a header.
    fn are_valid(&self)
        ensures { AreValid self.now }
    {
        // The prover knows the invariant of a type once a field is read.
        let _ = &self.types;
        self.texts.are_texts();
        self.slots.channels.are_channels();
    }

    /// Returns whether a row has a line, if this line comes next.
    fn has_line(&self, row: HeaderRow, line: &[u8]) -> bool
        ensures { result ≡ known_line self.now line.now row }
    {
        match row {
            HeaderRow::Texts(row) => row.is_required() || has_label(line, row.label()),
            HeaderRow::Interval => has_label(line, row.label()),
            HeaderRow::Types(system, 0) => begins_with(line, system.letter()),
            HeaderRow::Types(system, row) => row < type_rows(self.of(system).count),
            HeaderRow::Shift(system) => self.of(system).count > 0,
            HeaderRow::Slots(0) | HeaderRow::Biases => self.of(System::Glonass).count > 0,
            HeaderRow::Slots(row) => row < slot_rows(self.slots.count as usize),
            _ => true,
        }
    }

    /// Returns the index of the first row with a line, at `from` or later, if this line comes next.
    fn place_from(&self, from: usize, line: &[u8]) -> usize
        requires { IsHeadAt self.now from }
        ensures here { known_line self.now line.now (row_at result) ≡ true }
        ensures same { SameFrom self.now line.now from result }
    {
        let mut place = from;
        while !self.has_line(row_at(place), line) {
            place += 1;
        }
        place
    }

    /// Returns whether signals of a system are planned, or may be by the first line if the row of
    /// its first types isn't before an index.
    fn is_chosen(&self, place: usize, system: System) -> bool
        ensures { result ≡ is_chosen self.now place system }
    {
        self.of(system).count > 0
            || place <= first_types(system)
                && (self.letter == b'M' || self.letter == system.letter())
    }

    /// Returns whether some plan has the first line's letter and what the rows before an index
    /// said.
    fn fits(&self, place: usize) -> bool
        ensures { result ≡ fits self.now place }
    {
        let chosen = BySystem::each(|system| self.is_chosen(place, system));
        flagged_letter(&chosen) == self.letter && self.letter > 0
    }

    /// Processes a line of the types of a system.
    fn take_types(&mut self, system: System, row: usize, line: &[u8]) -> Result<(), Refusal>
        requires rows { 0 < row → row < type_rows (counted self.old system) }
        requires begun { length (planned_of system self.old.shown.plan) ≡ signals_begun row }
        ensures kept { OnOk result (self.new
            ≡ with_types system self.old (counted self.new system) (planned_of system self.new.shown.plan)) }
        ensures taken { OnOk result
            (TakesTypes system row line.now (counted self.old system) (planned_of system self.old.shown.plan)
            (counted self.new system) (planned_of system self.new.shown.plan)) }
        ensures bad { result ≡ Err Refusal.Bad → RefusesTypes system row line.now (counted self.old system)
            (planned_of system self.old.shown.plan) }
        ensures memory { result ≡ Err Refusal.Memory → is_of_types line.now ≡ true }
    {
        // Memory is allocated only for a line with this label.
        if !has_label(line, HeaderRow::Types(system, row).label()) {
            return Err(Refusal::Bad);
        }
        self.types.of_mut(system).take(system, row, line)
    }

    /// Reads the line of a row other than the last.
    fn read_row(&mut self, row: HeaderRow, line: &[u8]) -> Result<(), Refusal>
        requires other { row ≡ HeaderRow.End → ⊥ }
        requires before { AreItemsBefore self.old row }
        ensures read { OnOk result (IsHeaderLineRead row line.now self.old self.new) }
        ensures bad { result ≡ Err Refusal.Bad → RefusesHeaderLine self.old row line.now }
        ensures memory { result ≡ Err Refusal.Memory → is_of_types line.now ≡ true }
    {
        match row {
            HeaderRow::Types(system, row) => self.take_types(system, row, line),
            row => self.read_header_line(row, line).ok_or(Refusal::Bad),
        }
    }

    /// Reads the line of a row other than types, or returns None if no header has it.
    fn read_header_line(&mut self, row: HeaderRow, line: &[u8]) -> Option<()>
        requires only { IsOnly row }
        requires before { AreItemsBefore self.old row }
        ensures { ReadsOrRefuses row line.now self.old self.new (is_some result) }
    {
        match row {
            HeaderRow::Version => self.letter = read_version(line)?,
            HeaderRow::Texts(row) => return read_texts(&mut self.texts, row, line),
            HeaderRow::Position => {
                let height = self.values.height;
                self.values = read_position(line)?;
                self.values.height = height;
            }
            HeaderRow::Delta => self.values.height = read_delta(line)?,
            HeaderRow::StrengthUnit => return row.read(line, UNIT),
            HeaderRow::Interval => self.interval = Some(read_interval(line)?),
            HeaderRow::First => self.first = read_first(line)?,
            HeaderRow::Shift(system) => return row.read(line, &[system.letter()]),
            HeaderRow::Slots(row) => return self.slots.take(row, line),
            HeaderRow::Biases => return row.read(line, b""),
            HeaderRow::Types(_, _) | HeaderRow::End => return None,
        }
        Some(())
    }

    /// Processes a line, which is expected to be that of row `from` or of a later one. Returns what
    /// is expected after it.
    pub(crate) fn take(&mut self, from: usize, line: &[u8]) -> Result<Expected, Refusal>
        requires { IsHeadAt self.old from }
        ensures { TakesHeaderLine self.old from line.now self.new result }
    {
        let place = self.place_from(from, line);
        match row_at(place) {
            HeaderRow::End if HeaderRow::End.read(line, b"").is_some() => Ok(Expected::Epoch),
            HeaderRow::End => Err(Refusal::Bad),
            row => {
                self.read_row(row, line)?;
                self.are_valid();
                self.expected_at(place + 1)
            }
        }
    }

    /// Returns that the row at an index is expected, unless no plan fits.
    fn expected_at(&self, place: usize) -> Result<Expected, Refusal>
        ensures { result ≡ expected_if (fits self.now place) place }
    {
        self.fits(place)
            .then_some(Expected::Header(place))
            .ok_or(Refusal::Bad)
    }
}

/// Returns whether a text begins with this byte.
fn begins_with(text: &[u8], byte: u8) -> bool
    ensures { result ≡ begins_with byte text.now }
{
    text.len() > 0 && text[0] == byte
}
