//! Dates and times of day.
use gnss_obs::{Civil, GpsTime, WEEK};
use std::test::*;

/// Whether a time is the beginning of a day.
fn is_date(milliseconds: u64, midnight: &Civil) -> bool {
    match GpsTime::new(milliseconds) {
        None => false,
        Some(time) => time.civil() == *midnight,
    }
}

/// The beginning of the leap day of 2024.
const LEAP_DAY: Civil = Civil {
    year: 2024,
    month: 2,
    day: 29,
    hour: 0,
    minute: 0,
    millisecond: 0,
};

const TIME: u64 = 2_303 * WEEK + 345_600_000;

/// Dates, and their times if they have one.
static DATES: [(Civil, Option<u64>); 3] = [
    (LEAP_DAY, Some(TIME)),
    (
        Civil {
            year: 2023,
            ..LEAP_DAY
        },
        None,
    ),
    (
        Civil {
            year: 1980,
            month: 1,
            day: 5,
            ..LEAP_DAY
        },
        None,
    ),
];

fn have_times() -> bool {
    for (civil, want) in &DATES {
        let time = match GpsTime::from_civil(civil) {
            None => None,
            Some(time) => Some(time.milliseconds()),
        };
        if time != *want {
            return false;
        }
    }
    true
}

#[test]
fn dates_go_both_ways(rt: HostRuntime) {
    let has_end = GpsTime::new(100_000 * WEEK).is_none();
    assert!(rt; is_date(TIME, &DATES[0].0) && has_end && have_times());
}
