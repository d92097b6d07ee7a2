//! The layout of the data of an MSM: one field of all satellites or cells follows the other.
ghost use Rattle.std.specs.Prelude.{◌≡◌, ◌+◌, ◌*◌, ◌<◌, ◌≤◌};
ghost use Rattle.rtcm_bits.specs.Bits.{bits_of};
ghost use Rattle.rtcm_bits.specs.FrameOf.{longest_message};
ghost use Rattle.rtcm_msg.specs.Msm.{satellite_mask_bits, most_pairs};
ghost use Rattle.rtcm_msg.specs.inner.Rows.{row_at};
ghost use Rattle.rtcm_msg.specs.inner.LastBits.{AreLast};
ghost use Rattle.rtcm_msg.specs.inner.MessageBits.{HasBits};
ghost use Rattle.rtcm_msg.specs.Packed.{total_width};
ghost use Rattle.rtcm_msg.specs.Forms as forms;
ghost use Rattle.rtcm_msg.specs.Forms.{satellite_data, cell_data};

use crate::data::{Cell, INVALID_FINE_RATE, INVALID_ROUGH_RATE, Satellite};
use crate::field::{short_to, signed_to};
use crate::view::Form;

/// Width of DF397, the rough range in whole milliseconds. Widths are in bits.
pub(crate) const DF397: u32 = 8;

/// Width of DF398, the rough range modulo 1 ms.
pub(crate) const DF398: u32 = 10;

/// Width of DF399, the rough phase range rate.
pub(crate) const DF399: u32 = 14;

/// Width of DF400 and of DF405, the fine pseudorange, in the coarser forms and in the finer ones.
pub(crate) const DF400: u32 = 15;

pub(crate) const DF405: u32 = 20;

/// Width of DF401 and of DF406, the fine phase range.
pub(crate) const DF401: u32 = 22;

pub(crate) const DF406: u32 = 24;

/// Width of DF402 and of DF407, the lock time indicator.
pub(crate) const DF402: u32 = 4;

pub(crate) const DF407: u32 = 10;

/// Width of DF403 and of DF408, the carrier to noise ratio.
pub(crate) const DF403: u32 = 6;

pub(crate) const DF408: u32 = 10;

/// Width of DF404, the fine phase range rate.
pub(crate) const DF404: u32 = 15;

/// Width of the extended satellite information, which is DF419 of GLONASS.
pub(crate) const DF419: u32 = 4;

/// Width of DF420, the half-cycle ambiguity indicator.
pub(crate) const DF420: u32 = 1;

/// Width of the fields of a satellite without rates.
const RATELESS: u32 = DF397 + DF398;

/// Width of the fields of a cell without a rate, in the coarser forms and in the finer ones.
const COARSE: u32 = DF400 + DF401 + DF402 + DF420 + DF403;

const FINE: u32 = DF405 + DF406 + DF407 + DF420 + DF408;

/// Where the data of a message's cells are. Its fields are found by their last bits: the field of
/// cell `i` ends `i` times its width after the one of the first cell.
#[derive(Clone, Copy)]
pub(crate) struct LastBits {
    /// The number of cells.
    pub count: usize,
    /// The first bit of the data.
    pub place: usize,
    /// The last bit of the first cell's fine pseudorange.
    pub range: usize,
    /// The last bit of its fine phase range.
    pub phase: usize,
    /// The last bit of its lock time indicator.
    pub lock: usize,
    /// The bit of its half-cycle ambiguity indicator.
    pub half_cycle: usize,
    /// The last bit of its carrier to noise ratio.
    pub strength: usize,
    /// The last bit of its fine phase range rate, if the form has one.
    pub rate: usize,
}

impl Form {
    /// Returns the widths in bits of the fields of a satellite and of a cell, in the order of the
    /// layout.
    pub(crate) fn widths(self) -> (&'static [u32], &'static [u32])
        ensures satellites { result.0.now ≡ forms.satellite_widths self }
        ensures cells { result.1.now ≡ forms.cell_widths self }
    {
        match self {
            Form::Msm4 => (&[DF397, DF398], &[DF400, DF401, DF402, DF420, DF403]),
            Form::Msm5 => (
                &[DF397, DF419, DF398, DF399],
                &[DF400, DF401, DF402, DF420, DF403, DF404],
            ),
            Form::Msm6 => (&[DF397, DF398], &[DF405, DF406, DF407, DF420, DF408]),
            Form::Msm7 => (
                &[DF397, DF419, DF398, DF399],
                &[DF405, DF406, DF407, DF420, DF408, DF404],
            ),
        }
    }

    /// Returns the sums of the widths in bits of the fields of a satellite and of a cell, as `widths`
    /// has them.
    pub(crate) fn total_widths(self) -> (usize, usize)
        ensures satellite { result.0 ≡ total_width (forms.satellite_widths self) }
        ensures cell { result.1 ≡ total_width (forms.cell_widths self) }
        ensures narrow { (result.0 ≤ 36) × (result.1 ≤ 80) }
    {
        let (satellite, cell) = match self {
            Form::Msm4 => (RATELESS, COARSE),
            Form::Msm5 => (RATELESS + DF419 + DF399, COARSE + DF404),
            Form::Msm6 => (RATELESS, FINE),
            Form::Msm7 => (RATELESS + DF419 + DF399, FINE + DF404),
        };
        (satellite as usize, cell as usize)
    }

    /// Returns the last bits of the fields of `count` cells whose data begin at bit `place`.
    pub(crate) fn last_bits(self, count: usize, place: usize) -> LastBits
        requires few { count ≤ most_pairs }
        requires small { place ≤ 8 * longest_message }
        ensures count { result.count ≡ count }
        ensures place { result.place ≡ place }
        ensures last { AreLast (forms.cell_widths self) result }
    {
        let (range, phase, lock, strength) = match self {
            Form::Msm4 | Form::Msm5 => (DF400, DF401, DF402, DF403),
            Form::Msm6 | Form::Msm7 => (DF405, DF406, DF407, DF408),
        };
        let phases = place + count * range as usize;
        let locks = phases + count * phase as usize;
        let half_cycle = locks + count * lock as usize;
        let strengths = half_cycle + count * DF420 as usize;
        LastBits {
            count,
            place,
            range: place + range as usize - 1,
            phase: phases + phase as usize - 1,
            lock: locks + lock as usize - 1,
            half_cycle,
            strength: strengths + strength as usize - 1,
            rate: strengths + count * strength as usize + DF404 as usize - 1,
        }
    }

    /// Reads satellite `i` of `count` satellites whose data begin at bit `place`.
    #[inline(always)]
    pub(crate) fn satellite_in(
        self,
        bytes: &[u8],
        count: usize,
        place: usize,
        i: usize,
    ) -> Satellite
        requires there { i < count }
        requires few { count ≤ satellite_mask_bits }
        requires within { HasBits bytes.now (place + count * total_width (forms.satellite_widths self)) }
        requires after { 64 ≤ place }
        ensures { result ≡ satellite_data self (row_at (forms.satellite_widths self) count (bits_of bytes.now) place i 0) }
    {
        let whole = short_to(bytes, place + DF397 as usize - 1, i, DF397) as u8;
        let place = place + count * DF397 as usize;
        if self.has_rates() {
            let fractions = place + count * DF419 as usize;
            let rates = place + count * (DF419 + DF398) as usize;
            Satellite {
                whole,
                extended: short_to(bytes, place + DF419 as usize - 1, i, DF419) as u8,
                fraction: short_to(bytes, fractions + DF398 as usize - 1, i, DF398) as u16,
                rate: signed_to(bytes, rates + DF399 as usize - 1, i, DF399) as i16,
            }
        } else {
            Satellite {
                whole,
                extended: 0,
                fraction: short_to(bytes, place + DF398 as usize - 1, i, DF398) as u16,
                rate: INVALID_ROUGH_RATE,
            }
        }
    }

    /// Reads the fine phase range rate of cell `i`.
    #[inline(always)]
    fn rate_in(self, bytes: &[u8], cells: &LastBits, i: usize) -> i16
        requires there { i < cells.now.count }
        requires few { cells.now.count ≤ most_pairs }
        requires last { AreLast (forms.cell_widths self) cells.now }
        requires within { HasBits bytes.now (cells.now.place + cells.now.count * total_width (forms.cell_widths self)) }
        requires after { 64 ≤ cells.now.place }
        ensures { result ≡ (cell_data self
            (row_at (forms.cell_widths self) cells.now.count (bits_of bytes.now) cells.now.place i 0)).rate }
    {
        if self.has_rates() {
            signed_to(bytes, cells.rate, i, DF404) as i16
        } else {
            INVALID_FINE_RATE
        }
    }

    /// Reads cell `i`.
    #[inline(always)]
    pub(crate) fn cell_in(self, bytes: &[u8], cells: &LastBits, i: usize) -> Cell
        requires there { i < cells.now.count }
        requires few { cells.now.count ≤ most_pairs }
        requires last { AreLast (forms.cell_widths self) cells.now }
        requires within { HasBits bytes.now (cells.now.place + cells.now.count * total_width (forms.cell_widths self)) }
        requires after { 64 ≤ cells.now.place }
        ensures { result ≡ cell_data self
            (row_at (forms.cell_widths self) cells.now.count (bits_of bytes.now) cells.now.place i 0) }
    {
        if self.is_fine() {
            Cell {
                range: signed_to(bytes, cells.range, i, DF405) as i32,
                phase: signed_to(bytes, cells.phase, i, DF406) as i32,
                lock: short_to(bytes, cells.lock, i, DF407) as u16,
                half_cycle: short_to(bytes, cells.half_cycle, i, DF420) == 1,
                strength: short_to(bytes, cells.strength, i, DF408) as u16,
                rate: self.rate_in(bytes, cells, i),
            }
        } else {
            Cell {
                range: signed_to(bytes, cells.range, i, DF400) as i32,
                phase: signed_to(bytes, cells.phase, i, DF401) as i32,
                lock: short_to(bytes, cells.lock, i, DF402) as u16,
                half_cycle: short_to(bytes, cells.half_cycle, i, DF420) == 1,
                strength: short_to(bytes, cells.strength, i, DF403) as u16,
                rate: self.rate_in(bytes, cells, i),
            }
        }
    }
}
