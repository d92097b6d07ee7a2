//! The epochs that are written: their options, and the faults of these.
use super::convert::OPTIONS;
use super::scenario::Expected::{Fault, Good, Invalid};
use super::scenario::{Case, Expected, FAULTLESS, Setting, assert_come};
use super::texts::ExpectedLine::{NextTime, NextValues, Time, Valid, Values};
use super::texts::Piece::Fine;
use super::texts::Text::{File, Lines, Stream};
use super::texts::{ExpectedLine, FINE_FILE, REPORT, Text};

/// A conversion whose other options follow.
static CHOOSING: Setting = Setting {
    words: &OPTIONS,
    ..FAULTLESS
};

/// An epoch at 2024-02-04 00:00:01.
const ONE: Text = Stream(&[Fine(&[])]);

/// An epoch a second later too.
const TWO: Text = Stream(&[Fine(&[]), Fine(&[(5, 0x1F), (6, 0x40)])]);

const ONE_OF_TWO: &str =
    "bytes 84 skipped_bytes 0 frames 2 faulty 0 station 0 other 0 ignored 0 late 0 past 0 taken 2 \
     skipped 0 repeated 0 crowded 0 epochs 1\n";

const BAD_FROM: Expected = Invalid(
    "rtcm2rinex: BadDate --from TIME: a date yyyy-mm-dd or a time yyyy-mm-ddThh:mm:ss, \
     1980-01-06 to 3896-07-18\n",
);

const BAD_UNTIL: Expected = Invalid(
    "rtcm2rinex: BadDate --until TIME: a date yyyy-mm-dd or a time yyyy-mm-ddThh:mm:ss, \
     1980-01-06 to 3896-07-18\n",
);

const BAD_WINDOW: Expected = Invalid("rtcm2rinex: BadWindow --until TIME: later than --from\n");

const BAD_INTERVAL: Expected = Invalid(
    "rtcm2rinex: BadInterval --interval SECONDS: up to 3 decimals, 0.1 to 86400, \
     a divisor of a day\n",
);

const BAD_TOLERANCE: Expected = Invalid(
    "rtcm2rinex: BadTolerance --tolerance SECONDS: up to 3 decimals, 0 to 0.5, \
     at most half of --interval\n",
);

/// No time: an hour of 24, a second and a minute of 60, an hour of one digit, a minute of three, no
/// seconds, a blank, a zone, no date, a date that isn't in the calendar, and dates before and after
/// all weeks.
static NO_TIMES: [Case; 14] = [
    (&["--from", "2024-02-04T24:00:00"], ONE, BAD_FROM),
    (&["--from", "2024-02-04T23:59:60"], ONE, BAD_FROM),
    (&["--from", "2024-02-04T23:60:59"], ONE, BAD_FROM),
    (&["--from", "2024-02-04T1:00:00"], ONE, BAD_FROM),
    (&["--from", "2024-02-04T01:000:00"], ONE, BAD_FROM),
    (&["--from", "2024-02-04T01:00"], ONE, BAD_FROM),
    (&["--from", "2024-02-04T"], ONE, BAD_FROM),
    (&["--from", "2024-02-04 00:00:00"], ONE, BAD_FROM),
    (&["--until", "2024-02-04T00:00:00Z"], ONE, BAD_UNTIL),
    (&["--until", "00:00:01"], ONE, BAD_UNTIL),
    (&["--until", "2300"], ONE, BAD_UNTIL),
    (&["--until", "2023-02-29"], ONE, BAD_UNTIL),
    (&["--until", "1980-01-05T23:59:59"], ONE, BAD_UNTIL),
    (&["--until", "3896-07-19"], ONE, BAD_UNTIL),
];

#[test]
fn texts_that_are_no_times_are_refused(rt: HostRuntime) {
    assert_come(&rt, rt.alloc(), &CHOOSING, &NO_TIMES);
}

/// No window, no interval and no tolerance, each just outside its bounds.
static NO_CHOICES: [Case; 14] = [
    (
        &["--from", "2024-02-04", "--until", "2024-02-04T00:00:00"],
        ONE,
        BAD_WINDOW,
    ),
    (
        &["--from", "2024-02-05", "--until", "2024-02-04"],
        ONE,
        BAD_WINDOW,
    ),
    (&["--until", "1980-01-06"], ONE, BAD_WINDOW),
    (&["--interval", "0"], ONE, BAD_INTERVAL),
    (&["--interval", "0.099"], ONE, BAD_INTERVAL),
    (&["--interval", "0.1000"], ONE, BAD_INTERVAL),
    (&["--interval", "7"], ONE, BAD_INTERVAL),
    (&["--interval", "86401"], ONE, BAD_INTERVAL),
    (&["--interval", "172800"], ONE, BAD_INTERVAL),
    (&["--interval", "30s"], ONE, BAD_INTERVAL),
    (&["--tolerance", "0.501"], ONE, BAD_TOLERANCE),
    (&["--tolerance", "0.0050"], ONE, BAD_TOLERANCE),
    (&["--tolerance", ""], ONE, BAD_TOLERANCE),
    (
        &["--interval", "0.1", "--tolerance", "0.051"],
        ONE,
        BAD_TOLERANCE,
    ),
];

#[test]
fn texts_outside_their_bounds_are_refused(rt: HostRuntime) {
    assert_come(&rt, rt.alloc(), &CHOOSING, &NO_CHOICES);
}

/// Options that are all invalid from one on.
static IN_ORDER: [Case; 6] = [
    (
        &["--glonass-channels=1:7", "--from", "x"],
        ONE,
        Invalid(
            "rtcm2rinex: BadChannels --glonass-channels SLOT:CHANNEL,..: slots 1 to 27, \
             each once, channels -7 to 6\n",
        ),
    ),
    (&["--until", "x", "--from", "x"], ONE, BAD_FROM),
    (
        &["--interval", "7", "--until", "x", "--from", "2024-02-04"],
        ONE,
        BAD_UNTIL,
    ),
    (
        &[
            "--until",
            "2024-02-04",
            "--from",
            "2024-02-05",
            "--interval",
            "7",
        ],
        ONE,
        BAD_WINDOW,
    ),
    (&["--tolerance", "1", "--interval", "7"], ONE, BAD_INTERVAL),
    (&["--run-by", "\t", "--tolerance", "1"], ONE, BAD_TOLERANCE),
];

#[test]
fn the_first_invalid_option_is_reported(rt: HostRuntime) {
    assert_come(&rt, rt.alloc(), &CHOOSING, &IN_ORDER);
}

/// The whole file of `TWO`.
const BOTH: Text = File(&[], &[Time, Values, NextTime, NextValues]);

const BOTH_REPORT: &str =
    "bytes 84 skipped_bytes 0 frames 2 faulty 0 station 0 other 0 ignored 0 late 0 past 0 taken 2 \
     skipped 0 repeated 0 crowded 0 epochs 2\n";

/// Windows around the two epochs; the time of an epoch is rounded by the tolerance.
static IN_WINDOWS: [Case; 6] = [
    (
        &["--from", "2024-02-04T00:00:01", "--until", "2024-02-05"],
        TWO,
        Good(BOTH, BOTH_REPORT),
    ),
    (
        &["--until", "2024-02-04T00:00:02"],
        TWO,
        Good(FINE_FILE, ONE_OF_TWO),
    ),
    (
        &["--from", "2024-02-04T00:00:01", "--tolerance", "0"],
        ONE,
        Good(FINE_FILE, REPORT),
    ),
    (
        &["--until", "3896-07-18T23:59:59", "--tolerance", "0.5"],
        ONE,
        Good(FINE_FILE, REPORT),
    ),
    (
        &["--from", "2024-02-04T00:00:02"],
        ONE,
        Fault(
            Lines(""),
            "rtcm2rinex: NoneChosen epochs 1 window 0 grid 1\n",
        ),
    ),
    (
        &["--until", "1980-01-06T00:00:01"],
        TWO,
        Fault(
            Lines(""),
            "rtcm2rinex: NoneChosen epochs 2 window 0 grid 2\n",
        ),
    ),
];

#[test]
fn epochs_of_a_window_are_written(rt: HostRuntime) {
    assert_come(&rt, rt.alloc(), &CHOOSING, &IN_WINDOWS);
}

/// The header line before that of the interval.
const STRENGTH: ExpectedLine = Valid(
    "DBHZ                                                        SIGNAL STRENGTH UNIT",
);

/// The file of `TWO` at an interval of a second, of 0.1 s, and of two seconds.
const EACH_SECOND: Text = File(
    &[(
        10,
        &[
            STRENGTH,
            Valid("     1.000                                                  INTERVAL"),
        ],
    )],
    &[Time, Values, NextTime, NextValues],
);

const EACH_TENTH: Text = File(
    &[(
        10,
        &[
            STRENGTH,
            Valid("     0.100                                                  INTERVAL"),
        ],
    )],
    &[Time, Values, NextTime, NextValues],
);

const EACH_OTHER: Text = File(
    &[
        (
            10,
            &[
                STRENGTH,
                Valid("     2.000                                                  INTERVAL"),
            ],
        ),
        (11, &[SECOND]),
    ],
    &[NextTime, NextValues],
);

const SECOND: ExpectedLine = Valid(
    "  2024     2     4     0     0    2.0000000     GPS         TIME OF FIRST OBS",
);

/// Intervals, and the largest tolerance of one.
static ON_GRIDS: [Case; 6] = [
    (&["--interval", "1"], TWO, Good(EACH_SECOND, BOTH_REPORT)),
    (
        &["--interval", "0.1", "--tolerance", "0.05"],
        TWO,
        Good(EACH_TENTH, BOTH_REPORT),
    ),
    (&["--interval", "2.000"], TWO, Good(EACH_OTHER, ONE_OF_TWO)),
    (
        &["--interval", "2", "--from", "2024-02-04T00:00:02"],
        TWO,
        Good(EACH_OTHER, ONE_OF_TWO),
    ),
    (
        &["--interval", "2", "--until", "2024-02-04T00:00:02"],
        TWO,
        Fault(
            Lines(""),
            "rtcm2rinex: NoneChosen epochs 2 window 1 grid 1\n",
        ),
    ),
    (
        &["--interval", "86400"],
        TWO,
        Fault(
            Lines(""),
            "rtcm2rinex: NoneChosen epochs 2 window 2 grid 0\n",
        ),
    ),
];

#[test]
fn epochs_of_an_interval_are_written(rt: HostRuntime) {
    assert_come(&rt, rt.alloc(), &CHOOSING, &ON_GRIDS);
}
