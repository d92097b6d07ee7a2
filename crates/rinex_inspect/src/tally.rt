//! What satellites and their signals have in the epochs so far.
ghost use Rattle.std.specs.Prelude.{◌≡◌, is_some};
ghost use Rattle.rinex_inspect.specs.Tallies.{has_values, is_half, is_lost, no_tally, strength_of};
ghost use Rattle.rinex_inspect.specs.inner.Tables.{plus, with_values};

use gnss_obs::{GpsTime, Thousandths};
use rinex_file::SignalValues;

/// What a signal of a satellite has, or a signal of all satellites. Of each line a number grows by
/// at most one, and a file has at most 2^32 lines with its header: 32 bits are enough.
#[derive(Clone, Copy)]
pub(crate) struct Tally {
    /// Number of pseudoranges.
    pub(crate) c: u32,
    /// Number of carrier phases.
    pub(crate) l: u32,
    /// Number of Doppler shifts.
    pub(crate) d: u32,
    /// Number of strengths.
    pub(crate) s: u32,
    /// Number of phases at which lock was lost, by bit 0 of the loss-of-lock indicator.
    pub(crate) lost: u32,
    /// Number of phases that may be off by half a cycle, by bit 1.
    pub(crate) half: u32,
    /// Sum of the strengths in 0.001 dB-Hz.
    pub(crate) strength: u64,
}

/// The epochs of a satellite: those in which it has a line.
#[derive(Clone, Copy)]
pub(crate) struct Presence {
    /// Their number.
    pub(crate) epochs: u64,
    /// The number of all epochs from the first to the last of them.
    pub(crate) span: u64,
    /// The time of the first of them.
    pub(crate) first: GpsTime,
    /// The time of the last of them.
    pub(crate) last: GpsTime,
}

impl Tally {
    /// Returns the tally of a signal without values.
    pub(crate) fn new() -> Tally
        ensures { result ≡ no_tally }
    {
        Tally {
            c: 0,
            l: 0,
            d: 0,
            s: 0,
            lost: 0,
            half: 0,
            strength: 0,
        }
    }

    /// Returns whether there is a value.
    pub(crate) fn has_values(&self) -> bool
        ensures { result ≡ has_values self.now }
    {
        self.c > 0 || self.l > 0 || self.d > 0 || self.s > 0
    }

    /// Returns the tally with these values in addition.
    #[inline(always)]
    pub(crate) fn with_values(self, values: &SignalValues) -> Tally
        ensures { result ≡ with_values self values.now }
    {
        Tally {
            c: self.c.saturating_add(u32::from(values.c.is_some())),
            l: self.l.saturating_add(u32::from(values.l.is_some())),
            d: self.d.saturating_add(u32::from(values.d.is_some())),
            s: self.s.saturating_add(u32::from(values.s.is_some())),
            lost: self.lost.saturating_add(u32::from(is_lost(values))),
            half: self.half.saturating_add(u32::from(is_half(values))),
            strength: self.strength.saturating_add(strength_of(values.s)),
        }
    }

    /// Returns the sum of two tallies.
    pub(crate) fn plus(self, other: Tally) -> Tally
        ensures { result ≡ plus self other }
    {
        Tally {
            c: self.c.saturating_add(other.c),
            l: self.l.saturating_add(other.l),
            d: self.d.saturating_add(other.d),
            s: self.s.saturating_add(other.s),
            lost: self.lost.saturating_add(other.lost),
            half: self.half.saturating_add(other.half),
            strength: self.strength.saturating_add(other.strength),
        }
    }
}

/// Returns whether lock was lost at a phase.
#[inline(always)]
fn is_lost(values: &SignalValues) -> bool
    ensures { result ≡ is_lost values.now }
{
    values.l.is_some() && values.lli % 2 == 1
}

/// Returns whether a phase may be off by half a cycle.
#[inline(always)]
fn is_half(values: &SignalValues) -> bool
    ensures { result ≡ is_half values.now }
{
    values.l.is_some() && values.lli / 2 % 2 == 1
}

/// Returns a strength in 0.001 dB-Hz, or 0 without one.
#[inline(always)]
fn strength_of(strength: Option<Thousandths>) -> u64
    ensures { result ≡ strength_of strength }
{
    strength.map_or(0, |strength| strength.value().unsigned_abs())
}
