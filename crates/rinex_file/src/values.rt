//! A file that was read, as it is stored in memory.
ghost use Rattle.std.specs.Prelude.{◌≡◌, length};
ghost use Rattle.std.specs.List.{sum_by};
ghost use Rattle.rinex_file.specs.FileValues.{has_some_value};
ghost use Rattle.rinex_file.specs.Counting.{events_in};

use crate::header::texts::HeaderTexts;
use crate::read::file::Counts;
use arrayvec::ArrayVec;
use gnss_obs::{GpsTime, Interval, Plan, StationValues, Thousandths};
use gnss_system::{MOST_SIGNALS, System};
use std::marker::Model;

/// The values of a signal in a line: pseudorange (m), phase (cycles), Doppler (Hz) and strength
/// (dB-Hz), and the loss-of-lock indicator of the phase. All are absent if nothing was observed.
#[derive(Clone, Copy, Default)]
pub struct SignalValues {
    /// The pseudorange in metres.
    pub c: Option<Thousandths>,
    /// The carrier phase in cycles.
    pub l: Option<Thousandths>,
    /// The Doppler shift in hertz.
    pub d: Option<Thousandths>,
    /// The strength in dB-Hz, 0.001 to 99.999.
    pub s: Option<Thousandths>,
    /// The loss-of-lock indicator of the phase, 0 to 3: bit 0 if lock was lost, bit 1 if the phase
    /// may be off by half a cycle.
    pub lli: u8,
}

impl Model for SignalValues {
    ghost use Rattle.rinex_file.specs.Value.{SignalValues};

    ghost Value = { SignalValues };

    ghost view = { λ e. record { c = e.c; l = e.l; d = e.d; s = e.s; lli = e.lli } };

    ghost inverse = { λ e. record { c = e.c; l = e.l; d = e.d; s = e.s; lli = e.lli } };
}

impl SignalValues {
    /// Returns whether something was observed.
    pub(crate) fn has_value(&self) -> bool
        ensures { result ≡ has_some_value self.now }
    {
        self.c.is_some() || self.l.is_some() || self.d.is_some() || self.s.is_some()
    }
}

/// The row of a satellite: its system, its number, and the values of each planned signal in the
/// plan's order. It has a fixed size, so that reading a line into it doesn't allocate.
#[derive(Drop)]
pub struct SatelliteRow {
    /// Its system.
    pub system: System,
    /// Its number, counted from 1, without the offset of the number in a file.
    pub satellite: u8,
    /// The values of each planned signal of its system, in the order of the file.
    pub signal_values: ArrayVec<SignalValues, MOST_SIGNALS>,
}

impl Model for SatelliteRow {
    ghost use Rattle.rinex_file.specs.Value.{SatelliteRow};

    ghost Value = { SatelliteRow };

    ghost view = { λ s.
        record { system = s.system; row = record { satellite = s.satellite; signal_values = s.signal_values.items } } };
}

/// A [`SatelliteRow`] of a file that is stored whole, with memory for the signals that it has.
#[derive(Drop)]
pub(crate) struct StoredRow {
    pub(crate) system: System,
    pub(crate) satellite: u8,
    pub(crate) signal_values: Vec<SignalValues>,
}

impl Model for StoredRow {
    ghost use Rattle.rinex_file.specs.Value.{SatelliteRow};

    ghost Value = { SatelliteRow };

    ghost view = { λ s.
        record { system = s.system; row = record { satellite = s.satellite; signal_values = s.signal_values.items } } };
}

/// An epoch with its satellites, and the station values that change with it.
#[derive(Drop)]
pub(crate) struct StoredEpoch {
    pub(crate) change: Option<StationValues>,
    pub(crate) time: GpsTime,
    pub(crate) rows: Vec<StoredRow>,
}

impl Model for StoredEpoch {
    ghost use Rattle.rinex_file.specs.Value.{Stamped};

    ghost Value = { Stamped };

    ghost view = { λ e. record { change = e.change; time = e.time; rows = e.rows.items } };
}

/// An observation file that was read; only [`read_file`](crate::read_file) makes one.
#[derive(Drop)]
pub struct ObsFile {
    pub(crate) texts: HeaderTexts,
    pub(crate) interval: Option<Interval>,
    pub(crate) plan: Plan,
    pub(crate) values: StationValues,
    pub(crate) epochs: Vec<StoredEpoch>,
    pub(crate) counts: Counts,
}

impl Model for ObsFile {
    ghost use Rattle.std.specs.Prelude.{◌≡◌};
    ghost use Rattle.rinex_file.specs.Value.{FileValue, file_with};
    ghost use Rattle.rinex_file.specs.FileValues.{IsFileValue};
    ghost use Rattle.rinex_file.specs.Counting.{rows_in, events_in};

    ghost Value = { FileValue };

    ghost view = { λ f. file_with f.texts f.interval f.plan f.values f.epochs.items };

    ghost invariant = { λ f. IsFileValue (file_with f.texts f.interval f.plan f.values f.epochs.items)
        × (f.counts.satellites ≡ rows_in f.epochs.items) × (f.counts.events ≡ events_in f.epochs.items) };
}

impl ObsFile {
    /// Returns the texts of the header.
    pub fn texts(&self) -> &HeaderTexts
        ensures { result.now ≡ self.now.texts }
    {
        &self.texts
    }

    /// Returns the interval of the observations, if the header has one.
    pub fn interval(&self) -> Option<Interval>
        ensures { result ≡ self.now.interval }
    {
        self.interval
    }

    /// Returns the signals whose observations the file has.
    pub fn plan(&self) -> &Plan
        ensures { result.now ≡ self.now.plan }
    {
        &self.plan
    }

    /// Returns position and height of the antenna in 0.0001 m, as in the header.
    pub fn station_values(&self) -> StationValues
        ensures { result ≡ self.now.values }
    {
        self.values
    }

    /// Returns the number of epochs.
    pub fn epochs(&self) -> usize
        ensures { result ≡ length self.now.epochs }
    {
        self.epochs.as_slice().len()
    }

    /// Returns the number of events, each of which changes the station values.
    pub fn events(&self) -> usize
        ensures { result ≡ events_in self.now.epochs }
    {
        self.counts.events as usize
    }

    /// Returns the number of lines of satellites in all epochs.
    pub fn satellites(&self) -> usize
        ensures { result ≡ sum_by (λ e. length e.rows) self.now.epochs }
    {
        self.counts.satellites as usize
    }
}
