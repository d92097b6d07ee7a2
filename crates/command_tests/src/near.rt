//! A conversion near a date in place of a week.
use super::scenario::Expected::{Good, Invalid, Refused};
use super::scenario::{Case, Expected, FAULTLESS, Setting, assert_come};
use super::texts::Piece::Fine;
use super::texts::Text::Stream;
use super::texts::{FINE_FILE, REPORT, Text};

/// A conversion whose other options follow, among them what gives the week.
static UNDATED: Setting = Setting {
    words: &[
        "rtcm2rinex",
        "convert",
        "--date",
        "20240204 000001 UTC",
        "--gps",
        "1C",
        "--galileo",
        "none",
    ],
    ..FAULTLESS
};

/// An epoch at 2024-02-04 00:00:01.
const ONE: Text = Stream(&[Fine(&[])]);

const ONE_OF: Expected = Invalid("rtcm2rinex: OneOf --week WEEK, --near DATE: one of them\n");

const BAD_NEAR: Expected = Invalid(
    "rtcm2rinex: BadDate --near DATE: a date yyyy-mm-dd, 1980-01-06 to 3896-07-18\n",
);

/// Dates of which the first second of a week is at most half a week away.
static NEAR: [Case; 4] = [
    (&["--near", "2024-02-04"], ONE, Good(FINE_FILE, REPORT)),
    (&["--near=2024-02-03"], ONE, Good(FINE_FILE, REPORT)),
    (&["--near", "2024-02-07"], ONE, Good(FINE_FILE, REPORT)),
    (&["--near", "2024-02-01"], ONE, Good(FINE_FILE, REPORT)),
];

#[test]
fn a_date_gives_the_week(rt: HostRuntime) {
    assert_come(&rt, rt.alloc(), &UNDATED, &NEAR);
}

/// Neither a week nor a date, both, a week in place of a date, and dates that aren't one.
static NO_START: [Case; 8] = [
    (&[], ONE, ONE_OF),
    (&["--near", "2024-02-04", "--week", "2300"], ONE, ONE_OF),
    (&["--near", "x", "--week", "x"], ONE, ONE_OF),
    (&["--position", "x"], ONE, ONE_OF),
    (&["--near", "2300"], ONE, BAD_NEAR),
    (&["--near", "2024-02-30"], ONE, BAD_NEAR),
    (&["--near=", "--position", "x"], ONE, BAD_NEAR),
    (
        &["--near", "2024-02-04", "--near", "2024-02-04"],
        ONE,
        Refused,
    ),
];

#[test]
fn other_starts_are_refused(rt: HostRuntime) {
    assert_come(&rt, rt.alloc(), &UNDATED, &NO_START);
}
