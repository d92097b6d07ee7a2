//! Values from outside: the rows of the tables, and fractions computed by hand.
mod channels;
mod dates;
mod faults;
mod plans;

use gnss_obs::{
    Lock, Sat, Signal, Thousandths, doppler, is_lost, phase, pseudorange, strength, strength_digit,
};
use gnss_system::System;

static NUMBERS: [(System, u8, bool); 19] = [
    (System::Gps, 0, false),
    (System::Gps, 1, true),
    (System::Gps, 32, true),
    (System::Gps, 33, false),
    (System::Galileo, 0, false),
    (System::Galileo, 36, true),
    (System::Galileo, 37, false),
    (System::Glonass, 0, false),
    (System::Glonass, 27, true),
    (System::Glonass, 28, false),
    (System::Beidou, 0, false),
    (System::Beidou, 63, true),
    (System::Beidou, 64, false),
    (System::Qzss, 0, false),
    (System::Qzss, 10, true),
    (System::Qzss, 11, false),
    (System::Sbas, 0, false),
    (System::Sbas, 39, true),
    (System::Sbas, 40, false),
];

/// Whether each system has a satellite of its number, or has none.
fn are_numbered() -> bool {
    for (system, id, is_listed) in &NUMBERS {
        let is_right = match Sat::new(*system, *id) {
            Some(made) => *is_listed && made.system() == *system && made.id() == *id,
            None => !*is_listed,
        };
        if !is_right {
            return false;
        }
    }
    true
}

#[test]
fn numbers_satellites(rt: HostRuntime) {
    let satellites = (System::Gps.satellites(), System::Galileo.satellites());
    assert!(rt; are_numbered() && satellites == (32, 36));
}

/// The ID of a signal, its code, its index and its carrier frequency.
type Listed = (System, u8, &'static str, usize, u32);

static SIGNALS: [Listed; 19] = [
    (System::Gps, 2, "1C", 0, 1_575_420_000),
    (System::Gps, 10, "2W", 5, 1_227_600_000),
    (System::Gps, 24, "5X", 11, 1_176_450_000),
    (System::Gps, 32, "1X", 14, 1_575_420_000),
    (System::Galileo, 3, "1A", 1, 1_575_420_000),
    (System::Galileo, 12, "6Z", 9, 1_278_750_000),
    (System::Galileo, 14, "7I", 10, 1_207_140_000),
    (System::Galileo, 19, "8Q", 14, 1_191_795_000),
    (System::Galileo, 24, "5X", 18, 1_176_450_000),
    (System::Beidou, 2, "2I", 0, 1_561_098_000),
    (System::Beidou, 10, "6X", 5, 1_268_520_000),
    (System::Beidou, 14, "7I", 6, 1_207_140_000),
    (System::Beidou, 23, "5P", 10, 1_176_450_000),
    (System::Beidou, 32, "1X", 15, 1_575_420_000),
    (System::Qzss, 2, "1C", 0, 1_575_420_000),
    (System::Qzss, 10, "6L", 2, 1_278_750_000),
    (System::Qzss, 17, "2X", 6, 1_227_600_000),
    (System::Sbas, 2, "1C", 0, 1_575_420_000),
    (System::Sbas, 24, "5X", 3, 1_176_450_000),
];

/// Whether the signal has this row.
fn gives(signal: Signal, listed: &Listed) -> bool {
    signal.system() == listed.0
        && signal.index() == listed.3
        && signal.hertz() == listed.4
        && signal.code().as_slice() == listed.2.as_bytes()
}

/// Whether the ID, the index and the code of each row are those of its signal.
fn are_listed() -> bool {
    for listed in &SIGNALS {
        let Some(signal) = Signal::from_id(listed.0, listed.1) else {
            return false;
        };
        if !gives(signal, listed)
            || Signal::from_index(listed.0, listed.3) != Some(signal)
            || Signal::from_code(listed.0, listed.2) != Some(signal)
        {
            return false;
        }
    }
    true
}

#[test]
fn lists_signals(rt: HostRuntime) {
    assert!(rt; are_listed() && System::Gps.signals() == 15 && System::Galileo.signals() == 19);
}

/// The codes of the 32 positions of the signal mask DF395 of GPS, in order, `--` if no signal has
/// the position.
static GPS_MASK: [&str; 32] = [
    "--", "1C", "1P", "1W", "--", "--", "--", "2C", "2P", "2W", "--", "--", "--", "--", "2S", "2L",
    "2X", "--", "--", "--", "--", "5I", "5Q", "5X", "--", "--", "--", "--", "--", "1S", "1L", "1X",
];

/// Those of Galileo.
static GALILEO_MASK: [&str; 32] = [
    "--", "1C", "1A", "1B", "1X", "1Z", "--", "6C", "6A", "6B", "6X", "6Z", "--", "7I", "7Q", "7X",
    "--", "8I", "8Q", "8X", "--", "5I", "5Q", "5X", "--", "--", "--", "--", "--", "--", "--", "--",
];

/// Those of GLONASS.
static GLONASS_MASK: [&str; 32] = [
    "--", "1C", "1P", "--", "--", "--", "--", "2C", "2P", "--", "--", "--", "--", "--", "--", "--",
    "--", "--", "--", "--", "--", "--", "--", "--", "--", "--", "--", "--", "--", "--", "--", "--",
];

/// Those of BeiDou.
static BEIDOU_MASK: [&str; 32] = [
    "--", "2I", "2Q", "2X", "--", "--", "--", "6I", "6Q", "6X", "--", "--", "--", "7I", "7Q", "7X",
    "--", "--", "--", "--", "--", "5D", "5P", "5X", "7D", "--", "--", "--", "--", "1D", "1P", "1X",
];

/// Those of QZSS.
static QZSS_MASK: [&str; 32] = [
    "--", "1C", "--", "--", "--", "--", "--", "--", "6S", "6L", "6X", "--", "--", "--", "2S", "2L",
    "2X", "--", "--", "--", "--", "5I", "5Q", "5X", "--", "--", "--", "--", "--", "1S", "1L", "1X",
];

/// Those of SBAS.
static SBAS_MASK: [&str; 32] = [
    "--", "1C", "--", "--", "--", "--", "--", "--", "--", "--", "--", "--", "--", "--", "--", "--",
    "--", "--", "--", "--", "--", "5I", "5Q", "5X", "--", "--", "--", "--", "--", "--", "--", "--",
];

/// Whether these are the codes of the IDs from 1 on, `--` that of an ID without a signal.
fn is_mask(system: System, codes: &[&str; 32]) -> bool {
    for id in 1..33u8 {
        let code = codes[usize::from(id) - 1];
        let signal = Signal::from_id(system, id);
        if signal != Signal::from_code(system, code) || signal.is_none() != (code == "--") {
            return false;
        }
    }
    true
}

#[test]
fn fills_the_signal_masks(rt: HostRuntime) {
    assert!(rt; is_mask(System::Gps, &GPS_MASK) && is_mask(System::Galileo, &GALILEO_MASK));
    assert!(rt; is_mask(System::Glonass, &GLONASS_MASK) && is_mask(System::Beidou, &BEIDOU_MASK));
    assert!(rt; is_mask(System::Qzss, &QZSS_MASK) && is_mask(System::Sbas, &SBAS_MASK));
}

static OTHER_IDS: [(System, u8); 6] = [
    (System::Gps, 0),
    (System::Gps, 1),
    (System::Gps, 5),
    (System::Gps, 33),
    (System::Gps, 255),
    (System::Galileo, 7),
];

static OTHER_CODES: [(System, &str); 9] = [
    (System::Gps, "1A"),
    (System::Gps, "1c"),
    (System::Gps, ""),
    (System::Gps, "1"),
    (System::Gps, "C"),
    (System::Gps, "1C "),
    (System::Gps, "9C"),
    (System::Gps, "7I"),
    (System::Galileo, "2W"),
];

fn has_place(system: System, index: usize) -> bool {
    Signal::from_index(system, index).is_some()
}

fn has_other_id() -> bool {
    for (system, id) in &OTHER_IDS {
        if Signal::from_id(*system, *id).is_some() {
            return true;
        }
    }
    false
}

fn has_other_code() -> bool {
    for (system, code) in &OTHER_CODES {
        if Signal::from_code(*system, code).is_some() {
            return true;
        }
    }
    false
}

#[test]
fn knows_no_other_signal(rt: HostRuntime) {
    assert!(rt; !has_other_id() && !has_other_code());
    assert!(rt; !has_place(System::Gps, 15) && !has_place(System::Galileo, 19));
}

/// A value of a message that is rounded.
enum Observed {
    Range(i64),
    /// Of the signal 1C of GPS.
    Phase(i64),
    /// Of a signal of GPS.
    Rate(i32, &'static str),
    Strength(u16),
    /// The digit of a strength.
    Digit(i64),
}

/// 70 ms and the fractions next to it. The last phase is a tie below zero, which is rounded away
/// from it.
static RANGES_AND_PHASES: [(Observed, i64); 6] = [
    (Observed::Range(150_323_855_360), 20_985_472_060),
    (Observed::Range(150_323_855_364), 20_985_472_061),
    (Observed::Range(150_323_855_356), 20_985_472_059),
    (Observed::Phase(150_323_855_360), 110_279_400_000),
    (Observed::Phase(150_323_855_361), 110_279_400_001),
    (Observed::Phase(-33_554_432), -24_615_938),
];

/// The two strengths, 45.0625 dB-Hz and 0.0625 dB-Hz, are ties.
static RATES_AND_STRENGTHS: [(Observed, i64); 12] = [
    (Observed::Rate(1_000_000, "1C"), -525_504),
    (Observed::Rate(1, "1C"), -1),
    (Observed::Rate(1, "5X"), 0),
    (Observed::Strength(721), 45_063),
    (Observed::Strength(1), 63),
    (Observed::Digit(63), 1),
    (Observed::Digit(6_000), 1),
    (Observed::Digit(11_999), 1),
    (Observed::Digit(12_000), 2),
    (Observed::Digit(45_063), 7),
    (Observed::Digit(54_000), 9),
    (Observed::Digit(63_000), 9),
];

fn rounded(observed: &Observed) -> Option<Thousandths> {
    match observed {
        Observed::Range(range) if range.unsigned_abs() <= 1 << 40 => pseudorange(Some(*range)),
        Observed::Phase(range) if range.unsigned_abs() <= 1 << 39 => {
            phase(Some(*range), Signal::from_code(System::Gps, "1C")?)
        }
        Observed::Rate(rate, code) if rate.unsigned_abs() <= 100_000_000 => {
            doppler(Some(*rate), Signal::from_code(System::Gps, code)?)
        }
        Observed::Strength(ratio) if *ratio < 1024 => strength(Some(*ratio)),
        Observed::Digit(strength) => {
            let digit = strength_digit(Thousandths::new(*strength));
            Some(Thousandths::new(i64::from(digit)))
        }
        _ => None,
    }
}

fn are_rounded(rows: &[(Observed, i64)]) -> bool {
    for (observed, want) in rows {
        if rounded(observed) != Some(Thousandths::new(*want)) {
            return false;
        }
    }
    true
}

#[test]
fn rounds_ranges_and_phases(rt: HostRuntime) {
    assert!(rt; are_rounded(&RANGES_AND_PHASES));
}

#[test]
fn rounds_rates_and_strengths(rt: HostRuntime) {
    let negative = Thousandths::new(-1);
    assert!(rt; are_rounded(&RATES_AND_STRENGTHS));
    assert!(rt; negative < Thousandths::new(0) && negative.value() == -1);
}

/// Whether absent values of this signal remain absent: a range, its phase, a rate and a strength.
fn are_absent(code: &str) -> bool {
    match Signal::from_code(System::Gps, code) {
        Some(signal) => {
            pseudorange(None).is_none()
                && phase(None, signal).is_none()
                && doppler(None, signal).is_none()
                && strength(None).is_none()
        }
        None => false,
    }
}

#[test]
fn keeps_absent_observables(rt: HostRuntime) {
    assert!(rt; are_absent("1C"));
}

enum Indicator {
    Df402(u8),
    Df407(u16),
}

impl Indicator {
    fn lock(&self) -> Lock {
        match self {
            Indicator::Df402(code) => Lock::from_df402(*code % 16),
            Indicator::Df407(code) => Lock::from_df407(*code % 1024),
        }
    }
}

static TIMES: [(Indicator, Option<u32>, Option<u32>); 11] = [
    (Indicator::Df402(0), Some(0), Some(32)),
    (Indicator::Df402(14), Some(262_144), Some(524_288)),
    (Indicator::Df402(15), Some(524_288), None),
    (Indicator::Df407(0), Some(0), Some(1)),
    (Indicator::Df407(63), Some(63), Some(64)),
    (Indicator::Df407(64), Some(64), Some(66)),
    (Indicator::Df407(96), Some(128), Some(132)),
    (Indicator::Df407(703), Some(66_060_288), Some(67_108_864)),
    (Indicator::Df407(704), Some(67_108_864), None),
    (Indicator::Df407(705), None, None),
    (Indicator::Df407(1023), None, None),
];

#[test]
fn reads_lock_times(rt: HostRuntime) {
    for (indicator, least, upper) in &TIMES {
        let lock = indicator.lock();
        assert!(rt; lock.least() == *least && lock.upper() == *upper);
    }
}

static LOSSES: [(Indicator, Indicator, u64, bool); 8] = [
    // the lock time decreased
    (Indicator::Df402(15), Indicator::Df402(14), 1_000, true),
    (Indicator::Df402(8), Indicator::Df402(7), 2_000, true),
    // the lock is younger than the time between, or exactly as old
    (Indicator::Df407(0), Indicator::Df407(0), 1_000, true),
    (Indicator::Df407(63), Indicator::Df407(63), 64, true),
    (Indicator::Df407(63), Indicator::Df407(63), 63, false),
    // there is no upper time
    (
        Indicator::Df407(704),
        Indicator::Df407(704),
        18_000_000,
        false,
    ),
    // one of them is unknown
    (Indicator::Df407(705), Indicator::Df407(0), 1_000, false),
    (Indicator::Df402(15), Indicator::Df407(705), 1_000, false),
];

#[test]
fn finds_lost_locks(rt: HostRuntime) {
    for (then, now, elapsed, want) in &LOSSES {
        assert!(rt; is_lost(then.lock(), now.lock(), *elapsed) == *want);
    }
}
