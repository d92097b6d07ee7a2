//! The cells of an epoch that are kept, and their order.
use super::messages::Heard;
use super::{
    Closed, Ends, FIRST, Falls, HasNoDoppler, Holds, KEPT, Keeps, LastLli, Locks, Of, Repeats,
    Step, Takes, goes_as_given, goes_by_bit,
};
use obs_epoch::Gather;
use std::test::*;

#[test]
fn the_first_cell_of_a_key_is_kept(rt: HostRuntime) {
    static STEPS: [Step; 5] = [
        Takes(Heard::Short(1_000, true, true, 15), KEPT, false),
        Keeps(Heard::Long(1_000, true, 64), (0, 1, 0), false),
        Ends(true),
        Closed(FIRST, 1, 1),
        HasNoDoppler,
    ];
    assert!(rt; goes_by_bit(rt.alloc(), &STEPS));
}

#[test]
fn a_thousand_repeats_keep_the_first_cell(rt: HostRuntime) {
    static STEPS: [Step; 7] = [
        Takes(Heard::Short(1_000, true, true, 15), KEPT, false),
        Repeats(Heard::Long(1_000, true, 64), 1_000),
        Holds(1),
        Ends(true),
        Closed(FIRST, 1, 1),
        HasNoDoppler,
        Locks(1),
    ];
    assert!(rt; goes_by_bit(rt.alloc(), &STEPS));
}

#[test]
fn cells_that_fall_by_messages_of_one_are_sorted(rt: HostRuntime) {
    static STEPS: [Step; 10] = [
        Falls,
        Holds(128),
        Ends(true),
        Closed(FIRST, 32, 128),
        Of(0, 1, *b"1C"),
        Of(1, 1, *b"2W"),
        Of(2, 1, *b"2L"),
        Of(3, 1, *b"5X"),
        Of(4, 2, *b"1C"),
        Of(127, 32, *b"5X"),
    ];
    assert!(rt; goes_by_bit(rt.alloc(), &STEPS));
}

const ALL_GPS: u64 = 0xFFFF_FFFF << 32;

#[test]
fn a_set_split_over_messages_is_kept(rt: HostRuntime) {
    static STEPS: [Step; 4] = [
        Keeps(
            Heard::Wide(true, ALL_GPS, 1 << 30 | 1 << 22),
            (64, 0, 0),
            false,
        ),
        Takes(Heard::Wide(false, 1 << 63, 1 << 8), KEPT, true),
        Closed(FIRST, 32, 65),
        Locks(65),
    ];
    assert!(rt; goes_by_bit(rt.alloc(), &STEPS));
}

#[test]
fn cells_past_the_bound_are_crowded(rt: HostRuntime) {
    static STEPS: [Step; 8] = [
        // 1C and 1P, 1W and 2C, 2P and 2W, 2S and 2L
        Keeps(
            Heard::Wide(true, ALL_GPS, 1 << 30 | 1 << 29),
            (64, 0, 0),
            false,
        ),
        Keeps(
            Heard::Wide(true, ALL_GPS, 1 << 28 | 1 << 24),
            (64, 0, 0),
            false,
        ),
        Keeps(
            Heard::Wide(true, ALL_GPS, 1 << 23 | 1 << 22),
            (64, 0, 0),
            false,
        ),
        Keeps(
            Heard::Wide(true, ALL_GPS, 1 << 17 | 1 << 16),
            (64, 0, 0),
            false,
        ),
        Keeps(Heard::Wide(false, 1 << 63, 1 << 15), (0, 0, 1), true),
        Holds(256),
        Closed(FIRST, 32, 256),
        Locks(256),
    ];
    assert!(rt; goes_by_bit(rt.alloc(), &STEPS));
}

#[test]
fn cells_are_ordered_by_satellite_and_plan(rt: HostRuntime) {
    static STEPS: [Step; 9] = [
        Keeps(
            Heard::Wide(true, 1 << 63 | 1 << 61, 1 << 30 | 1 << 22),
            (4, 0, 0),
            false,
        ),
        Keeps(
            Heard::Wide(false, 1 << 63 | 1 << 62, 1 << 8),
            (2, 0, 0),
            true,
        ),
        Closed(FIRST, 3, 6),
        Of(0, 1, *b"5X"),
        Of(1, 1, *b"2W"),
        Of(2, 1, *b"1C"),
        Of(3, 2, *b"5X"),
        Of(4, 3, *b"2W"),
        Of(5, 3, *b"1C"),
    ];
    let plan = ("5X,2W,1C", "none");
    assert!(rt; goes_as_given(rt.alloc(), plan, 2_300, Gather::Bit, &STEPS));
}

#[test]
fn a_second_satellite_comes_first_in_order(rt: HostRuntime) {
    static STEPS: [Step; 5] = [
        Takes(Heard::Wide(true, 1 << 59, 1 << 30), KEPT, false),
        Takes(Heard::Wide(false, 1 << 61, 1 << 30), KEPT, true),
        Closed(FIRST, 2, 2),
        Of(0, 3, *b"1C"),
        Of(1, 5, *b"1C"),
    ];
    assert!(rt; goes_by_bit(rt.alloc(), &STEPS));
}

#[test]
fn groups_of_signals_come_together(rt: HostRuntime) {
    static STEPS: [Step; 14] = [
        // 1C and 2W, 1W and 2L, 1C and 1P
        Keeps(
            Heard::Wide(true, 0xF << 60, 1 << 30 | 1 << 22),
            (8, 0, 0),
            false,
        ),
        Keeps(
            Heard::Wide(true, 0xF << 60, 1 << 28 | 1 << 16),
            (8, 0, 0),
            false,
        ),
        Keeps(
            Heard::Wide(false, 0x1F << 59, 1 << 30 | 1 << 29),
            (6, 4, 0),
            true,
        ),
        Closed(FIRST, 5, 22),
        Of(0, 1, *b"1C"),
        Of(1, 1, *b"1P"),
        Of(2, 1, *b"1W"),
        Of(3, 1, *b"2W"),
        Of(4, 1, *b"2L"),
        Of(5, 2, *b"1C"),
        Of(16, 4, *b"1P"),
        Of(19, 4, *b"2L"),
        Of(20, 5, *b"1C"),
        Of(21, 5, *b"1P"),
    ];
    assert!(rt; goes_by_bit(rt.alloc(), &STEPS));
}

#[test]
fn cells_of_a_message_fall_by_the_plan(rt: HostRuntime) {
    static STEPS: [Step; 11] = [
        Keeps(
            Heard::Wide(true, 0x7 << 61, 1 << 30 | 1 << 22),
            (6, 0, 0),
            false,
        ),
        Keeps(
            Heard::Wide(false, 0x7 << 61, 1 << 16 | 1 << 8),
            (6, 0, 0),
            true,
        ),
        Closed(FIRST, 3, 12),
        Of(0, 1, *b"5X"),
        Of(1, 1, *b"2L"),
        Of(2, 1, *b"2W"),
        Of(3, 1, *b"1C"),
        Of(4, 2, *b"5X"),
        Of(7, 2, *b"1C"),
        Of(8, 3, *b"5X"),
        Of(11, 3, *b"1C"),
    ];
    let plan = ("5X,2L,2W,1C", "none");
    assert!(rt; goes_as_given(rt.alloc(), plan, 2_300, Gather::Bit, &STEPS));
}

#[test]
fn the_bound_is_reached_between_cells(rt: HostRuntime) {
    static STEPS: [Step; 12] = [
        // 1C and 5X, 1P and 2X, 1W and 2L, 2C and 2P, 2S and 5I
        Keeps(
            Heard::Wide(true, ALL_GPS, 1 << 30 | 1 << 8),
            (64, 0, 0),
            false,
        ),
        Keeps(
            Heard::Wide(true, ALL_GPS, 1 << 29 | 1 << 15),
            (64, 0, 0),
            false,
        ),
        Keeps(
            Heard::Wide(true, ALL_GPS, 1 << 28 | 1 << 16),
            (64, 0, 0),
            false,
        ),
        Keeps(
            Heard::Wide(true, ALL_GPS << 8, 1 << 24 | 1 << 23),
            (48, 0, 0),
            false,
        ),
        Keeps(
            Heard::Wide(false, 0x3FF << 54, 1 << 17 | 1 << 10),
            (16, 0, 4),
            true,
        ),
        Closed(FIRST, 32, 256),
        Of(5, 1, *b"2S"),
        Of(6, 1, *b"2L"),
        Of(8, 1, *b"5I"),
        Of(9, 1, *b"5X"),
        Of(10, 2, *b"1C"),
        Of(255, 32, *b"5X"),
    ];
    assert!(rt; goes_by_bit(rt.alloc(), &STEPS));
}

#[test]
fn many_cells_of_a_message_fall_by_the_plan(rt: HostRuntime) {
    static STEPS: [Step; 8] = [
        // 1C and 1P, then 1W, 2C, 2P and 2W of each satellite
        Keeps(
            Heard::Wide(true, 0xF << 60, 1 << 30 | 1 << 29),
            (8, 0, 0),
            false,
        ),
        Keeps(
            Heard::Wide(false, 0xF << 60, 1 << 28 | 1 << 24 | 1 << 23 | 1 << 22),
            (16, 0, 0),
            true,
        ),
        Closed(FIRST, 4, 24),
        Of(0, 1, *b"2W"),
        Of(3, 1, *b"1W"),
        Of(5, 1, *b"1C"),
        Of(18, 4, *b"2W"),
        Of(23, 4, *b"1C"),
    ];
    let plan = ("2W,2P,2C,1W,1P,1C", "none");
    assert!(rt; goes_as_given(rt.alloc(), plan, 2_300, Gather::Bit, &STEPS));
}

#[test]
fn groups_of_both_systems_come_together(rt: HostRuntime) {
    static STEPS: [Step; 11] = [
        // 1C and 2W of GPS, 5X of Galileo, 1W of GPS, 1C of Galileo
        Keeps(
            Heard::All(false, 1_000, true, 1 << 30 | 1 << 22),
            (64, 0, 0),
            false,
        ),
        Keeps(Heard::All(true, 1_000, true, 1 << 8), (36, 0, 0), false),
        Keeps(Heard::All(false, 1_000, true, 1 << 28), (32, 0, 0), false),
        Keeps(Heard::All(true, 1_000, false, 1 << 30), (36, 0, 0), true),
        Closed(FIRST, 68, 96),
        Of(0, 1, *b"1C"),
        Of(1, 1, *b"1W"),
        Of(2, 1, *b"2W"),
        Of(94, 32, *b"1W"),
        Of(95, 32, *b"2W"),
        LastLli(36, 0),
    ];
    assert!(rt; goes_by_bit(rt.alloc(), &STEPS));
}
