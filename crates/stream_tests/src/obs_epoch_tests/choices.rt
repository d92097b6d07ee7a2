//! Windows of time, the grid of an interval, and marks of lost lock in epochs off the grid.
use super::messages::Heard;
use super::{
    Closed, ClosedNone, Counts, Ends, KEPT, Lli, Step, Takes, WEEK, goes_by_bit, goes_with,
};
use gnss_obs::Interval;
use obs_epoch::Choice;
use std::test::*;

/// The beginning of week 2,300.
const BEGIN: u64 = 2_300 * WEEK;

/// Every 2 s, at the default tolerance.
fn every_2_seconds() -> Choice {
    Choice {
        interval: Interval::new(2_000),
        ..Choice::default()
    }
}

#[test]
fn a_window_has_its_begin_and_not_its_end(rt: HostRuntime) {
    static STEPS: [Step; 11] = [
        Takes(Heard::Long(994, false, 704), KEPT, false),
        ClosedNone,
        Takes(Heard::Long(995, false, 704), KEPT, true),
        Closed(BEGIN + 995, 1, 1),
        Takes(Heard::Long(2_994, false, 704), KEPT, true),
        Takes(Heard::Long(2_995, false, 704), KEPT, false),
        ClosedNone,
        Takes(Heard::Long(4_000, true, 704), KEPT, false),
        Ends(false),
        ClosedNone,
        Counts(3, 0, 3),
    ];
    let choice = Choice {
        from: BEGIN + 1_000,
        until: BEGIN + 3_000,
        ..Choice::default()
    };
    assert!(rt; goes_with(rt.alloc(), choice, &STEPS));
}

#[test]
fn the_grid_has_a_tolerance_on_both_sides(rt: HostRuntime) {
    static STEPS: [Step; 8] = [
        Takes(Heard::Long(1_000, false, 704), KEPT, false),
        Takes(Heard::Long(1_994, false, 704), KEPT, false),
        Takes(Heard::Long(1_995, false, 704), KEPT, true),
        Closed(BEGIN + 1_995, 1, 1),
        Takes(Heard::Long(2_005, false, 704), KEPT, true),
        Takes(Heard::Long(2_006, false, 704), KEPT, false),
        Counts(3, 3, 0),
        Ends(false),
    ];
    static EXACT: [Step; 3] = [
        Takes(Heard::Long(1_999, false, 704), KEPT, false),
        Takes(Heard::Long(2_000, false, 704), KEPT, true),
        Takes(Heard::Long(2_001, false, 704), KEPT, false),
    ];
    let exact = Choice {
        tolerance: 0,
        ..every_2_seconds()
    };
    let goes = goes_with(rt.alloc(), every_2_seconds(), &STEPS);
    assert!(rt; goes && goes_with(rt.alloc(), exact, &EXACT));
}

#[test]
fn a_loss_of_lock_off_the_grid_is_marked_once(rt: HostRuntime) {
    static STEPS: [Step; 8] = [
        Takes(Heard::Long(2_000, false, 704), KEPT, true),
        Lli(0),
        Takes(Heard::Long(3_000, false, 64), KEPT, false),
        Takes(Heard::Long(4_000, false, 704), KEPT, true),
        Lli(1),
        Takes(Heard::Long(6_000, false, 704), KEPT, true),
        Lli(0),
        Counts(1, 1, 0),
    ];
    static WHOLE: [Step; 5] = [
        Takes(Heard::Long(2_000, false, 704), KEPT, true),
        Takes(Heard::Long(3_000, false, 64), KEPT, true),
        Lli(1),
        Takes(Heard::Long(4_000, false, 704), KEPT, true),
        Lli(0),
    ];
    let goes = goes_with(rt.alloc(), every_2_seconds(), &STEPS);
    assert!(rt; goes && goes_by_bit(rt.alloc(), &WHOLE));
}

#[test]
fn a_half_cycle_off_the_grid_is_not_carried(rt: HostRuntime) {
    static STEPS: [Step; 5] = [
        Takes(Heard::Short(2_000, false, true, 15), KEPT, true),
        Takes(Heard::Half(3_000, false, 0), KEPT, false),
        Takes(Heard::Short(4_000, false, true, 15), KEPT, true),
        Lli(1),
        Takes(Heard::Half(6_000, false, 15), KEPT, true),
    ];
    assert!(rt; goes_with(rt.alloc(), every_2_seconds(), &STEPS));
}

#[test]
fn a_cell_without_a_phase_ends_nothing(rt: HostRuntime) {
    static STEPS: [Step; 7] = [
        Takes(Heard::Short(2_000, false, true, 15), KEPT, true),
        Takes(Heard::Short(3_000, false, true, 0), KEPT, false),
        Takes(Heard::Short(4_000, false, false, 15), KEPT, true),
        Lli(0),
        Takes(Heard::Half(6_000, false, 15), KEPT, true),
        Lli(3),
        Takes(Heard::Short(8_000, true, true, 15), KEPT, false),
    ];
    assert!(rt; goes_with(rt.alloc(), every_2_seconds(), &STEPS));
}

#[test]
fn a_phase_with_an_unknown_lock_is_marked_and_ends_the_carrying(rt: HostRuntime) {
    static STEPS: [Step; 7] = [
        Takes(Heard::Long(2_000, false, 704), KEPT, true),
        Takes(Heard::Long(3_000, false, 64), KEPT, false),
        Takes(Heard::Long(4_000, false, 705), KEPT, true),
        Lli(1),
        Takes(Heard::Long(6_000, false, 704), KEPT, true),
        Lli(0),
        Ends(false),
    ];
    assert!(rt; goes_with(rt.alloc(), every_2_seconds(), &STEPS));
}

#[test]
fn marks_are_carried_regardless_of_the_window(rt: HostRuntime) {
    static STEPS: [Step; 7] = [
        Takes(Heard::Long(2_000, false, 704), KEPT, false),
        Takes(Heard::Long(3_000, false, 64), KEPT, false),
        Takes(Heard::Long(4_000, false, 704), KEPT, false),
        Takes(Heard::Long(6_000, false, 704), KEPT, true),
        Lli(0),
        Takes(Heard::Long(7_000, false, 704), KEPT, false),
        Counts(4, 1, 2),
    ];
    static LATER: [Step; 4] = [
        Takes(Heard::Long(4_000, false, 704), KEPT, false),
        Takes(Heard::Long(5_000, false, 64), KEPT, false),
        Takes(Heard::Long(6_000, false, 704), KEPT, true),
        Lli(1),
    ];
    let choice = Choice {
        from: BEGIN + 6_000,
        ..every_2_seconds()
    };
    let goes = goes_with(rt.alloc(), choice, &STEPS);
    assert!(rt; goes && goes_with(rt.alloc(), choice, &LATER));
}
