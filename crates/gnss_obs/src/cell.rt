//! Data kept from messages: cells, and the station values.
ghost use Rattle.std.specs.Prelude.{◌≡◌, ◌↔◌, IsTrue};
ghost use Rattle.gnss_obs.specs.GatheredEpochs.{IsCoordinate};

use crate::lock::Lock;
use crate::satellite::Sat;
use crate::signal::Signal;
use crate::thousandths::Thousandths;

/// Least coordinate of an antenna reference point, in 0.0001 m: that of 38 bits with a sign
/// (RTCM 10403.3 DF025 to DF027).
pub const LEAST_COORDINATE: i64 = -(1 << 37);

/// Greatest coordinate of an antenna reference point, in 0.0001 m (DF025 to DF027).
pub const GREATEST_COORDINATE: i64 = (1 << 37) - 1;

/// The observations of one signal of one satellite.
#[derive(Clone, Copy, Default)]
pub struct Cell {
    /// The satellite.
    pub satellite: Sat,
    /// The signal, of the satellite's system.
    pub signal: Signal,
    /// The loss of lock indicator (LLI) of RINEX. Bit 0: lock was lost since the latest earlier
    /// cell of this satellite and signal with a phase and a known lock time, or before, in an epoch
    /// that was left out of a file of an interval. Bit 1: the phase may be off by half a cycle
    /// (DF420). 0 without a phase.
    pub lli: u8,
    /// Whether the phase may be off by half a cycle (DF420).
    pub half_cycle: bool,
    /// The pseudorange in thousandths of a metre; `None` if absent.
    pub c: Option<Thousandths>,
    /// The carrier phase in thousandths of a cycle; `None` if absent.
    pub l: Option<Thousandths>,
    /// The Doppler shift in thousandths of a hertz; `None` if absent.
    pub d: Option<Thousandths>,
    /// The signal strength in thousandths of a dB-Hz; `None` if absent.
    pub s: Option<Thousandths>,
    /// The lock of the phase.
    pub lock: Lock,
}

/// The antenna reference point and the antenna height in the last messages that contain them; 0
/// before the first.
#[derive(Clone, Copy, Default)]
pub struct StationValues {
    /// Antenna reference point ECEF-X of the last message 1005 or 1006, in 0.0001 m (DF025).
    pub x: i64,
    /// Antenna reference point ECEF-Y of the same message, in 0.0001 m (DF026).
    pub y: i64,
    /// Antenna reference point ECEF-Z of the same message, in 0.0001 m (DF027).
    pub z: i64,
    /// Antenna height of the last message 1006, in 0.0001 m (DF028).
    pub height: u16,
}

impl Cell {
    ghost use Rattle.gnss_obs.specs.Values.{has_value};

    /// Returns whether the cell has a pseudorange, a phase, a Doppler shift or a strength.
    pub fn has_value(&self) -> bool
        ensures { result ≡ has_value self.now }
    {
        self.c.is_some() || self.l.is_some() || self.d.is_some() || self.s.is_some()
    }
}

/// Returns whether a number fits 38 bits with a sign, the width of a coordinate (DF025 to DF027).
fn is_coordinate(v: &i64) -> bool
    ensures { IsTrue result ↔ IsCoordinate v.now }
{
    LEAST_COORDINATE <= *v && *v <= GREATEST_COORDINATE
}

impl StationValues {
    ghost use Rattle.gnss_obs.specs.Values.{no_values};
    ghost use Rattle.gnss_obs.specs.GatheredEpochs.{AreStationValues};
    ghost use Rattle.gnss_obs.specs.Values.{same_values};

    /// Returns values that are all 0, for a station of unknown position.
    pub fn zero() -> StationValues
        ensures { result ≡ no_values }
    {
        StationValues::default()
    }

    /// Returns whether message 1005 or 1006 can contain these values: each coordinate fits 38 bits
    /// with a sign.
    pub fn fits_message(self) -> bool
        ensures { IsTrue result ↔ AreStationValues self }
    {
        is_coordinate(&self.x) && is_coordinate(&self.y) && is_coordinate(&self.z)
    }

    /// Returns whether all four values are equal.
    pub fn is_same(self, other: StationValues) -> bool
        ensures value { result ≡ same_values self other }
        ensures exact { IsTrue result ↔ (self ≡ other) }
    {
        self.x == other.x && self.y == other.y && self.z == other.z && self.height == other.height
    }
}
