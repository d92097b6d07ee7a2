//! The meaning of the data of a satellite and of a cell: ranges, a rate and a strength.
ghost use Rattle.std.specs.Prelude.{◌≡◌, ◌*◌, ◌^◌, ◌<◌, ◌≤◌, IfSome, unsigned_abs};
ghost use Rattle.std.specs.Option.{ForSome};
ghost use Rattle.rtcm_msg.specs.Forms as forms;
ghost use Rattle.rtcm_msg.specs.Forms.{IsSatelliteData, IsCellData, fine_range, fine_phase, precision};
ghost use Rattle.rtcm_msg.specs.inner.Forms.{has_range};
ghost use Rattle.rtcm_msg.specs.Entries.{IsEntry};
ghost use Rattle.rtcm_msg.specs.Fractions.{range_joined, scaled};

use crate::data::{
    Cell, INVALID_COARSE_PHASE, INVALID_COARSE_RANGE, INVALID_FINE_PHASE, INVALID_FINE_RANGE,
    INVALID_FINE_RATE, INVALID_ROUGH_RANGE, INVALID_ROUGH_RATE, Satellite,
};
use crate::entry::Entry;
use crate::pairs::Pair;
use crate::view::Form;

impl Form {
    /// Returns whether the cell has a valid fine pseudorange.
    #[inline(always)]
    pub(crate) fn has_fine_range(self, cell: &Cell) -> bool
        requires { IsCellData self cell.now }
        ensures { result ≡ has_range self cell.now }
    {
        self.fine_range(cell).is_some()
    }

    /// Returns the fine pseudorange in 2^-31 ms, or `None` if it is invalid.
    #[inline(always)]
    fn fine_range(self, cell: &Cell) -> Option<i64>
        ensures value { result ≡ fine_range self cell.now }
        ensures fits { ForSome result (λ z. unsigned_abs z ≤ 2 ^ 38) }
        ensures small { IsCellData self cell.now → ForSome result (λ z. unsigned_abs z ≤ 2 ^ 26) }
    {
        if self.is_fine() {
            scaled(cell.range, INVALID_FINE_RANGE, 4)
        } else {
            scaled(cell.range, INVALID_COARSE_RANGE, 128)
        }
    }

    /// Returns the fine phase range in 2^-31 ms, or `None` if it is invalid.
    #[inline(always)]
    fn fine_phase(self, cell: &Cell) -> Option<i64>
        ensures value { result ≡ fine_phase self cell.now }
        ensures fits { ForSome result (λ z. unsigned_abs z ≤ 2 ^ 38) }
        ensures small { IsCellData self cell.now → ForSome result (λ z. unsigned_abs z ≤ 2 ^ 26) }
    {
        if self.is_fine() {
            scaled(cell.phase, INVALID_FINE_PHASE, 1)
        } else {
            scaled(cell.phase, INVALID_COARSE_PHASE, 4)
        }
    }

    /// Returns the pseudorange in 2^-31 ms: the sum of the rough range and the fine pseudorange.
    /// `None` if either is invalid.
    #[inline(always)]
    pub fn range(self, satellite: &Satellite, cell: &Cell) -> Option<i64>
        ensures value { result ≡ forms.range_of self satellite.now cell.now }
        ensures bound { IsSatelliteData self satellite.now → IsCellData self cell.now
            → IfSome result (λ r. unsigned_abs r ≤ 2 ^ 39) }
    {
        range_joined(satellite.whole, satellite.fraction, self.fine_range(cell))
    }

    /// Returns the phase range in 2^-31 ms: the sum of the rough range and the fine phase range.
    /// `None` if either is invalid.
    #[inline(always)]
    pub fn phase(self, satellite: &Satellite, cell: &Cell) -> Option<i64>
        ensures value { result ≡ forms.phase_of self satellite.now cell.now }
        ensures bound { IsSatelliteData self satellite.now → IsCellData self cell.now
            → IfSome result (λ r. unsigned_abs r ≤ 2 ^ 39) }
    {
        range_joined(satellite.whole, satellite.fraction, self.fine_phase(cell))
    }

    /// Returns the phase range rate in 0.0001 m/s: the sum of the rough and the fine rate. `None`
    /// if either is invalid, and in MSM4 and MSM6.
    pub fn rate(self, satellite: &Satellite, cell: &Cell) -> Option<i32>
        ensures value { result ≡ forms.rate_of satellite.now cell.now }
        ensures bound { IsSatelliteData self satellite.now → IsCellData self cell.now
            → IfSome result (λ r. unsigned_abs r ≤ 10 ^ 8) }
    {
        if satellite.rate == INVALID_ROUGH_RATE || cell.rate == INVALID_FINE_RATE {
            return None;
        }
        Some(satellite.rate as i32 * 10000 + cell.rate as i32)
    }

    /// Returns the carrier to noise ratio in 1/16 dB-Hz, DF403 or DF408. `None` if not computed.
    #[inline(always)]
    pub fn strength(self, cell: &Cell) -> Option<u16>
        requires fits { cell.now.strength * (precision (forms.is_fine self)).strength_unit < 2 ^ 16 }
        ensures value { result ≡ forms.strength_of self cell.now }
        ensures bound { IsCellData self cell.now → IfSome result (λ s. s < 2 ^ 10) }
    {
        let unit = if self.is_fine() { 1 } else { 16 };
        (cell.strength != 0).then_some(cell.strength * unit)
    }

    /// Returns the lock time indicator, DF402 or DF407.
    pub fn lock_code(self, cell: &Cell) -> u16
        ensures value { result ≡ cell.now.lock }
        ensures bound { IsCellData self cell.now → result < forms.lock_codes self }
    {
        cell.lock
    }

    /// Returns the entry of a cell from its data and those of its satellite.
    #[inline(always)]
    pub(crate) fn entry_of(self, pair: Pair, satellite: &Satellite, cell: &Cell) -> Entry
        requires satellite { IsSatelliteData self satellite.now }
        requires cell { IsCellData self cell.now }
        ensures value { result ≡ forms.entry self pair satellite.now cell.now }
        ensures bounds { IsEntry (forms.lock_codes self) result }
    {
        Entry {
            satellite: pair.satellite,
            signal: pair.signal,
            range: self.range(satellite, cell),
            phase: self.phase(satellite, cell),
            rate: self.rate(satellite, cell),
            strength: self.strength(cell),
            lock: cell.lock,
            half_cycle: cell.half_cycle,
        }
    }
}

/// Returns a fine part in 2^-31 ms: `number` units of `unit`, or `None` for the invalid number.
fn scaled(number: i32, invalid: i32, unit: u32) -> Option<i64>
    requires few { unit ≤ 128 }
    ensures value { result ≡ scaled invalid unit number }
    ensures fits { unsigned_abs number * unit ≤ 2 ^ 38 → IfSome result (λ z. unsigned_abs z ≤ 2 ^ 38) }
    ensures small { unsigned_abs number * unit ≤ 2 ^ 26 → IfSome result (λ z. unsigned_abs z ≤ 2 ^ 26) }
{
    (number != invalid).then_some(number as i64 * unit as i64)
}

/// Returns the sum of the rough range and a fine part in 2^-31 ms: `whole` milliseconds (DF397) and
/// `fraction` / 1024 ms (DF398). `None` if either is invalid.
fn range_joined(whole: u8, fraction: u16, fine: Option<i64>) -> Option<i64>
    requires fits { ForSome fine (λ z. unsigned_abs z ≤ 2 ^ 38) }
    ensures value { result ≡ range_joined whole fraction fine }
    ensures bound { fraction < 2 ^ 10 → ForSome fine (λ z. unsigned_abs z ≤ 2 ^ 26)
        → IfSome result (λ r. unsigned_abs r ≤ 2 ^ 39) }
{
    if whole == INVALID_ROUGH_RANGE {
        return None;
    }
    Some((whole as u64 * (1 << 31) + fraction as u64 * (1 << 21)) as i64 + fine?)
}
