//! The week of the first observations near noon of a date.
use super::messages::Heard;
use super::{Closed, KEPT, Step, Takes, WEEK, goes_near};
use obs_epoch::Kind;
use std::test::*;

/// Half a day, and the last 10 s of a week.
const HALF_DAY: u64 = 43_200_000;

const LAST_SECONDS: u32 = 604_790_000;

/// Noon of 2024-02-11, a Sunday, and of the Wednesday after it.
const SUNDAY: u64 = 2_301 * WEEK + HALF_DAY;

const WEDNESDAY: u64 = 2_301 * WEEK + WEEK / 2;

#[test]
fn a_sunday_may_begin_on_saturday(rt: HostRuntime) {
    static STEPS: [Step; 4] = [
        Takes(Heard::Long(LAST_SECONDS, false, 64), KEPT, true),
        Closed(2_300 * WEEK + LAST_SECONDS as u64, 1, 1),
        Takes(Heard::Long(1_000, false, 64), KEPT, true),
        Closed(2_301 * WEEK + 1_000, 1, 1),
    ];
    assert!(rt; goes_near(rt.alloc(), SUNDAY, &STEPS));
}

#[test]
fn a_saturday_may_have_its_first_message_on_sunday(rt: HostRuntime) {
    static STEPS: [Step; 2] = [
        Takes(Heard::Long(1_000, false, 64), KEPT, true),
        Closed(2_301 * WEEK + 1_000, 1, 1),
    ];
    assert!(rt; goes_near(rt.alloc(), 2_301 * WEEK - HALF_DAY, &STEPS));
}

#[test]
fn half_a_week_away_is_before_noon(rt: HostRuntime) {
    static EQUAL: [Step; 2] = [
        Takes(Heard::Long(0, false, 64), KEPT, true),
        Closed(2_301 * WEEK, 1, 1),
    ];
    static LESS: [Step; 2] = [
        Takes(Heard::Long(604_799_999, false, 64), KEPT, true),
        Closed(2_302 * WEEK - 1, 1, 1),
    ];
    let alloc = rt.alloc();
    assert!(rt; goes_near(alloc, WEDNESDAY, &EQUAL) && goes_near(alloc, WEDNESDAY, &LESS));
}

// Other messages are after the first accepted one, or they are late.
#[test]
fn only_the_first_accepted_message_is_near_noon(rt: HostRuntime) {
    static STEPS: [Step; 5] = [
        Takes(Heard::Unread(7, false), Kind::Ignored, false),
        Takes(Heard::Long(1_000, false, 64), KEPT, true),
        Takes(Heard::Long(LAST_SECONDS, false, 64), Kind::Late, false),
        Takes(Heard::Long(2_000, false, 64), KEPT, true),
        Closed(2_301 * WEEK + 2_000, 1, 1),
    ];
    assert!(rt; goes_near(rt.alloc(), WEDNESDAY, &STEPS));
}

#[test]
fn the_first_and_the_last_week_are_the_nearest(rt: HostRuntime) {
    static FIRST: [Step; 2] = [
        Takes(Heard::Long(LAST_SECONDS, false, 64), KEPT, true),
        Closed(LAST_SECONDS as u64, 1, 1),
    ];
    static LAST: [Step; 2] = [
        Takes(Heard::Long(1_000, false, 64), KEPT, true),
        Closed(99_999 * WEEK + 1_000, 1, 1),
    ];
    let alloc = rt.alloc();
    assert!(rt; goes_near(alloc, HALF_DAY, &FIRST));
    assert!(rt; goes_near(alloc, 100_000 * WEEK - HALF_DAY, &LAST));
}
