//! The data of a satellite and of a cell of an MSM.
use crate::layout::{DF399, DF400, DF401, DF404, DF405, DF406};

/// Data of a satellite.
#[derive(Clone, Copy, Default, PartialEq, Drop)]
pub struct Satellite {
    /// Rough range in whole milliseconds, DF397: 8 bits, 255 if invalid.
    pub whole: u8,
    /// Extended satellite information, of GLONASS DF419: 4 bits, and 0 in MSM4 and MSM6.
    pub extended: u8,
    /// Rough range modulo 1 ms, in 2^-10 ms, DF398: 10 bits.
    pub fraction: u16,
    /// Rough phase range rate in m/s, DF399: 14 bits with a sign, -2^13 if invalid, and in MSM4
    /// and MSM6.
    pub rate: i16,
}

/// Data of a cell: of a pair of a satellite and a signal. The least number that fits the bits of a
/// range, a phase or a rate is the invalid one.
#[derive(Clone, Copy, PartialEq, Drop)]
pub struct Cell {
    /// Fine pseudorange: DF400, 15 bits with a sign, in 2^-24 ms, or DF405, 20 bits, in 2^-29 ms.
    pub range: i32,
    /// Fine phase range: DF401, 22 bits with a sign, in 2^-29 ms, or DF406, 24 bits, in 2^-31 ms.
    pub phase: i32,
    /// Lock time indicator: DF402, 4 bits, or DF407, 10 bits.
    pub lock: u16,
    /// Half-cycle ambiguity indicator, DF420: whether one is possible.
    pub half_cycle: bool,
    /// Carrier to noise ratio, 0 if not computed: DF403, 6 bits, in dB-Hz, or DF408, 10 bits, in
    /// 2^-4 dB-Hz.
    pub strength: u16,
    /// Fine phase range rate in 0.0001 m/s, DF404: 15 bits with a sign, -2^14 if invalid, and in
    /// MSM4 and MSM6.
    pub rate: i16,
}

/// The value of DF397 for an invalid rough range.
pub(crate) const INVALID_ROUGH_RANGE: u8 = 255;

/// The value of DF399 for an invalid rough phase range rate, and of a form without it.
pub const INVALID_ROUGH_RATE: i16 = -(1 << (DF399 - 1));

/// The value of DF404 for an invalid fine phase range rate, and of a form without it.
pub const INVALID_FINE_RATE: i16 = -(1 << (DF404 - 1));

/// The values of an invalid fine pseudorange, DF400 and DF405.
pub(crate) const INVALID_COARSE_RANGE: i32 = -(1 << (DF400 - 1));

pub(crate) const INVALID_FINE_RANGE: i32 = -(1 << (DF405 - 1));

/// The values of an invalid fine phase range, DF401 and DF406.
pub(crate) const INVALID_COARSE_PHASE: i32 = -(1 << (DF401 - 1));

pub(crate) const INVALID_FINE_PHASE: i32 = -(1 << (DF406 - 1));
