//! All lock records: 15 signals of 32 GPS satellites and 19 signals of 36 Galileo satellites.
use super::messages::Heard;
use super::{KEPT, Keeps, LastLli, Locks, Step, Takes, goes_by_bit};
use std::test::*;

/// Cells of each satellite and signal in turn: GPS by pairs of signals, Galileo one by one.
static EACH_KEY: [Step; 32] = [
    Keeps(
        Heard::All(false, 1_000, true, 1 << 30 | 1 << 29),
        (64, 0, 0),
        false,
    ),
    Keeps(
        Heard::All(false, 1_000, true, 1 << 28 | 1 << 24),
        (64, 0, 0),
        false,
    ),
    Keeps(
        Heard::All(false, 1_000, true, 1 << 23 | 1 << 22),
        (64, 0, 0),
        false,
    ),
    Keeps(
        Heard::All(false, 1_000, true, 1 << 17 | 1 << 16),
        (64, 0, 0),
        false,
    ),
    Keeps(Heard::All(true, 1_000, true, 1 << 30), (36, 0, 0), false),
    Keeps(Heard::All(true, 1_000, true, 1 << 29), (36, 0, 0), false),
    Keeps(Heard::All(true, 1_000, true, 1 << 28), (36, 0, 0), false),
    Keeps(Heard::All(true, 1_000, true, 1 << 27), (36, 0, 0), false),
    Keeps(Heard::All(true, 1_000, true, 1 << 26), (36, 0, 0), false),
    Keeps(Heard::All(true, 1_000, true, 1 << 24), (36, 0, 0), false),
    Keeps(Heard::All(true, 1_000, false, 1 << 23), (36, 0, 0), true),
    Locks(508),
    Keeps(
        Heard::All(false, 2_000, true, 1 << 15 | 1 << 10),
        (64, 0, 0),
        false,
    ),
    Keeps(
        Heard::All(false, 2_000, true, 1 << 9 | 1 << 8),
        (64, 0, 0),
        false,
    ),
    Keeps(
        Heard::All(false, 2_000, true, 1 << 2 | 1 << 1),
        (64, 0, 0),
        false,
    ),
    Keeps(Heard::All(false, 2_000, true, 1 << 0), (32, 0, 0), false),
    Keeps(Heard::All(true, 2_000, true, 1 << 22), (36, 0, 0), false),
    Keeps(Heard::All(true, 2_000, true, 1 << 21), (36, 0, 0), false),
    Keeps(Heard::All(true, 2_000, true, 1 << 20), (36, 0, 0), false),
    Keeps(Heard::All(true, 2_000, true, 1 << 18), (36, 0, 0), false),
    Keeps(Heard::All(true, 2_000, true, 1 << 17), (36, 0, 0), false),
    Keeps(Heard::All(true, 2_000, true, 1 << 16), (36, 0, 0), false),
    Keeps(Heard::All(true, 2_000, false, 1 << 14), (36, 0, 0), true),
    Keeps(Heard::All(true, 3_000, true, 1 << 13), (36, 0, 0), false),
    Keeps(Heard::All(true, 3_000, true, 1 << 12), (36, 0, 0), false),
    Keeps(Heard::All(true, 3_000, true, 1 << 10), (36, 0, 0), false),
    Keeps(Heard::All(true, 3_000, true, 1 << 9), (36, 0, 0), false),
    Keeps(Heard::All(true, 3_000, false, 1 << 8), (36, 0, 0), true),
    Locks(1_164),
    // the last record, E36 5X, is compared, and no other is added
    Takes(Heard::Last(4_000, 63), KEPT, true),
    LastLli(36, 1),
    Locks(1_164),
];

#[test]
fn each_satellite_and_signal_has_a_record(rt: HostRuntime) {
    assert!(rt; goes_by_bit(rt.alloc(), &EACH_KEY));
}
