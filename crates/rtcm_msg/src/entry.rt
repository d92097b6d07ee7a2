//! The cells of MSMs as exact fractions.

/// The data of a cell of an MSM, as exact fractions.
#[derive(Clone, Copy, PartialEq)]
pub struct Entry {
    /// Satellite ID, 1 to 64: the index of its bit in DF394, counted from 1.
    pub satellite: u8,
    /// Signal ID, 1 to 32: the index of its bit in DF395, counted from 1.
    pub signal: u8,
    /// Pseudorange in 2^-31 ms, at most 2^39 in absolute value: DF397 and DF398 with DF400 or
    /// DF405. `None` if invalid.
    pub range: Option<i64>,
    /// Phase range in 2^-31 ms, at most 2^39 in absolute value: DF397 and DF398 with DF401 or
    /// DF406. `None` if invalid.
    pub phase: Option<i64>,
    /// Phase range rate in 0.0001 m/s, at most 10^8 in absolute value: DF399 with DF404. `None` if
    /// invalid, and in MSM4 and MSM6.
    pub rate: Option<i32>,
    /// Carrier to noise ratio in 1/16 dB-Hz, 1 to 1023: DF403 or DF408. `None` if not computed.
    pub strength: Option<u16>,
    /// Lock time indicator: DF402, 4 bits, or in MSM6 and MSM7 DF407, 10 bits.
    pub lock: u16,
    /// Half-cycle ambiguity indicator, DF420: whether one is possible.
    pub half_cycle: bool,
}
