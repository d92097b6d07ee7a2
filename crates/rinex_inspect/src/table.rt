//! The table of what each satellite and signal has in some epochs.
ghost use Rattle.std.specs.Prelude.{◌≡◌, ◌<◌, ◌≤◌, ◌-◌, IfOk, length, ℕ, get_or, set};
ghost use Rattle.gnss_system.specs.Satellites.{satellites};
ghost use Rattle.gnss_system.specs.Signals.{most_signals};
ghost use Rattle.rinex_inspect.specs.inner.Tables.{HasAdded, HasAddedRow, HasPlaces, IsBlankRecord, IsBlankTable};
ghost use Rattle.rinex_inspect.specs.inner.Tables.{AreBlank, added, begun, no_record, records_in};

use crate::tally::{Presence, Tally};
use gnss_obs::GpsTime;
use gnss_system::{BySystem, MOST_SIGNALS, SYSTEMS, System};
use rinex_file::{SatelliteRow, SignalValues};
use std::alloc::{AllocError, Global};

/// What a satellite has: the tallies of its planned signals, and its epochs.
#[derive(Clone, Copy)]
pub(crate) struct SatelliteRecord {
    /// The tallies of its planned signals, in the order of the plan.
    pub(crate) signals: [Tally; MOST_SIGNALS],
    /// Its epochs.
    pub(crate) presence: Presence,
    /// The number of epochs before the first of them.
    before: u64,
}

/// What each satellite has in some epochs.
#[derive(Drop)]
pub(crate) struct Table {
    /// The number of epochs.
    epochs: u64,
    /// The time of the last one.
    time: GpsTime,
    /// The records of the satellites of each system, in the order of their numbers.
    pub(crate) records: BySystem<Vec<SatelliteRecord>>,
}

impl SatelliteRecord {
    /// Returns the record of a satellite without a line.
    fn new() -> SatelliteRecord
        ensures { IsBlankRecord result }
    {
        let none = GpsTime::within(0);
        SatelliteRecord {
            signals: [Tally::new(); MOST_SIGNALS],
            presence: Presence {
                epochs: 0,
                span: 0,
                first: none,
                last: none,
            },
            before: 0,
        }
    }

    /// Adds a line of the last of this number of epochs, which is at this time.
    fn add(&mut self, epochs: u64, time: GpsTime, values: &[SignalValues])
        requires { length values.now ≤ most_signals }
        ensures { HasAdded epochs time values.now self.old self.new }
    {
        add_values(&mut self.signals, values);
        if self.presence.epochs == 0 {
            self.presence.first = time;
            self.before = epochs.saturating_sub(1);
        }
        self.presence.epochs = self.presence.epochs.saturating_add(1);
        self.presence.span = epochs.saturating_sub(self.before);
        self.presence.last = time;
    }
}

/// Adds the values of each planned signal to its tally.
fn add_values(tallies: &mut [Tally], values: &[SignalValues])
    requires { length values.now ≤ length tallies.old }
    ensures { tallies.new ≡ added tallies.old values.now }
{
    for k in 0..values.len() {
        tallies[k] = tallies[k].with_values(&values[k]);
    }
}

/// Returns the records of the satellites of a system, without a line.
fn new_records(alloc: Global, system: System) -> Result<Vec<SatelliteRecord>, AllocError>
    ensures { IfOk result (λ rs. AreBlank system rs.items) }
{
    vec![in alloc; SatelliteRecord::new(); system.satellites() as usize]
}

impl Table {
    /// Returns a table without epochs.
    ///
    /// # Errors
    ///
    /// `AllocError` if an allocation failed.
    pub(crate) fn new(alloc: Global) -> Result<Table, AllocError>
        ensures { IfOk result IsBlankTable }
    {
        let records = BySystem::try_each(
            |system| -> Result<Vec<SatelliteRecord>, AllocError>
                ensures { IfOk result (λ rs. AreBlank system rs.items) }
            { new_records(alloc, system) },
        )?;
        Ok(Table {
            epochs: 0,
            time: GpsTime::within(0),
            records,
        })
    }

    /// Adds an epoch without lines at this time.
    pub(crate) fn begin(&mut self, time: GpsTime)
        ensures { self.new ≡ begun time self.old }
    {
        self.epochs = self.epochs.saturating_add(1);
        self.time = time;
    }

    /// Adds a line of a satellite to the last epoch.
    pub(crate) fn add(&mut self, row: &SatelliteRow)
        requires some { 1 ≤ row.now.row.satellite }
        requires place { row.now.row.satellite ≤ length (records_in self.old row.now.system) }
        ensures { HasAddedRow row.now self.old self.new }
    {
        let (epochs, time) = (self.epochs, self.time);
        let records = self.records.of_mut(row.system);
        let index = row.satellite as usize - 1;
        add_at(records, index, epochs, time, row.signal_values.as_slice());
    }

    /// Removes all epochs.
    pub(crate) fn clear(&mut self)
        requires { HasPlaces self.old }
        ensures { IsBlankTable self.new }
    {
        for i in 0..SYSTEMS.len() {
            clear_records(self.records.of_mut(System::at(i)));
        }
        self.epochs = 0;
        self.time = GpsTime::within(0);
    }
}

/// Adds a line to the record at an index, in the last of this number of epochs, at this time.
fn add_at(
    records: &mut [SatelliteRecord],
    index: usize,
    epochs: u64,
    time: GpsTime,
    values: &[SignalValues],
)
    requires place { index < length records.old }
    requires few { length values.now ≤ most_signals }
    ensures { (r : SatelliteRecord) × (records.new ≡ set records.old index r)
        × HasAdded epochs time values.now (get_or records.old index no_record) r }
{
    records[index].add(epochs, time, values);
}

/// Removes the lines of satellites.
fn clear_records(records: &mut [SatelliteRecord])
    ensures size { length records.new ≡ length records.old }
    ensures each { (i : ℕ) → i < length records.old → IsBlankRecord (get_or records.new i no_record) }
{
    for i in 0..records.len() {
        records[i] = SatelliteRecord::new();
    }
}
