//! Files that are checked.
use super::scenario::Expected::{Fault, Good};
use super::scenario::{Case, FAULTLESS, Setting, assert_come};
use super::texts::ExpectedLine::{
    self, Above, NextTime, NextValues, Position, Time, TwoLines, Valid, Values,
};
use super::texts::FINE_FILE;
use super::texts::Text::{File, Lines};

pub const CHECK: [&str; 2] = ["rtcm2rinex", "check"];

/// The counts of a file with one epoch of one satellite.
const COUNTS: &str = "epochs 1 satellites 1 events 0\n";

static GOOD: [Case; 3] = [
    (&[], FINE_FILE, Good(Lines(COUNTS), "")),
    (
        &[],
        File(&[(7, &[Position]), (8, &[Above])], &[Time, Values]),
        Good(Lines(COUNTS), ""),
    ),
    (
        &[],
        File(
            &[],
            &[
                Time, Values, TwoLines, Position, Above, NextTime, NextValues,
            ],
        ),
        Good(Lines("epochs 2 satellites 2 events 1\n"), ""),
    ),
];

/// A file in pieces of one byte, of 100 and seven in turn, and in one.
static OF_GOOD: Setting = Setting {
    words: &CHECK,
    sizes: &[&[1], &[100, 7], &[]],
    ..FAULTLESS
};

#[test]
fn a_file_that_was_made_is_good(rt: HostRuntime) {
    assert_come(&rt, rt.alloc(), &OF_GOOD, &GOOD);
}

/// A file with another second line.
static SPOILT: [Case; 1] = [(
    &[],
    File(&[(1, &[Position])], &[Time, Values]),
    Fault(Lines(""), "rtcm2rinex: BadHeader 2\n"),
)];

/// A file in pieces of one byte, and in one.
static OF_SPOILT: Setting = Setting {
    words: &CHECK,
    sizes: &[&[1], &[]],
    ..FAULTLESS
};

#[test]
fn a_damaged_file_is_refused(rt: HostRuntime) {
    assert_come(&rt, rt.alloc(), &OF_SPOILT, &SPOILT);
}

const TIMES: [&str; 3] = ["rtcm2rinex", "check", "--times"];

/// The line of an epoch half a minute after `Time`, of one a quarter of a second later, and of one a
/// millisecond less than a day after that.
const AT_31: ExpectedLine = Valid("> 2024 02 04 00 00 31.0000000  0  1");

const AT_31_250: ExpectedLine = Valid("> 2024 02 04 00 00 31.2500000  0  1");

const A_DAY_LATER: ExpectedLine = Valid("> 2024 02 05 00 00 31.2490000  0  1");

/// Files of an epoch, of two with an event between, with gaps, of more than a day, and of none.
static TIMES_OF: [Case; 5] = [
    (
        &[],
        File(&[], &[Time, Values]),
        Good(
            Lines(
                "epochs 1 satellites 1 events 0\n\
                 first 2024-02-04 00:00:01.000\n\
                 last 2024-02-04 00:00:01.000\n",
            ),
            "",
        ),
    ),
    (
        &[],
        File(
            &[],
            &[
                Time, Values, TwoLines, Position, Above, NextTime, NextValues,
            ],
        ),
        Good(
            Lines(
                "epochs 2 satellites 2 events 1\n\
                 first 2024-02-04 00:00:01.000\n\
                 last 2024-02-04 00:00:02.000\n\
                 step 1.000\n",
            ),
            "",
        ),
    ),
    (
        &[],
        File(&[], &[Time, Values, AT_31, Values, AT_31_250, Values]),
        Good(
            Lines(
                "epochs 3 satellites 3 events 0\n\
                 first 2024-02-04 00:00:01.000\n\
                 last 2024-02-04 00:00:31.250\n\
                 step 0.250\n",
            ),
            "",
        ),
    ),
    (
        &[],
        File(
            &[],
            &[
                Time,
                Values,
                AT_31,
                Values,
                AT_31_250,
                Values,
                A_DAY_LATER,
                Values,
            ],
        ),
        Good(
            Lines(
                "epochs 4 satellites 4 events 0\n\
                 first 2024-02-04 00:00:01.000\n\
                 last 2024-02-05 00:00:31.249\n\
                 step 0.250\n",
            ),
            "",
        ),
    ),
    (
        &[],
        File(&[], &[]),
        Fault(Lines(""), "rtcm2rinex: CutShort 15\n"),
    ),
];

static OF_TIMES: Setting = Setting {
    words: &TIMES,
    sizes: &[&[7]],
    ..FAULTLESS
};

#[test]
fn the_times_of_a_file_are_printed(rt: HostRuntime) {
    assert_come(&rt, rt.alloc(), &OF_TIMES, &TIMES_OF);
}

const GAPS: [&str; 4] = ["rtcm2rinex", "check", "--gaps", "0.4"];

/// A gap of one second, in a file and before a line that is refused.
static WITH_A_GAP: [Case; 2] = [
    (
        &[],
        File(&[], &[Time, Values, NextTime, NextValues]),
        Good(
            Lines(
                "gap 2024-02-04 00:00:01.000 2024-02-04 00:00:02.000\n\
                 epochs 2 satellites 2 events 0\n\
                 complete 2 of 4\n",
            ),
            "",
        ),
    ),
    (
        &[],
        File(&[], &[Time, Values, NextTime, NextValues, Time]),
        Fault(
            Lines("gap 2024-02-04 00:00:01.000 2024-02-04 00:00:02.000\n"),
            "rtcm2rinex: BadEpoch 19\n",
        ),
    ),
];

static OF_GAPS: Setting = Setting {
    words: &GAPS,
    sizes: &[&[1], &[]],
    ..FAULTLESS
};

#[test]
fn the_gaps_of_a_file_are_printed(rt: HostRuntime) {
    assert_come(&rt, rt.alloc(), &OF_GAPS, &WITH_A_GAP);
}

const WINDOW: [&str; 8] = [
    "rtcm2rinex",
    "check",
    "--gaps",
    "1",
    "--from",
    "2024-02-04",
    "--until",
    "2024-02-04T00:00:04",
];

/// Two epochs of a window of four seconds, from 0 s on.
static IN_A_WINDOW: [Case; 1] = [(
    &[],
    File(&[], &[Time, Values, NextTime, NextValues]),
    Good(
        Lines(
            "gap 2024-02-04 00:00:00.000 2024-02-04 00:00:01.000\n\
             gap 2024-02-04 00:00:02.000 2024-02-04 00:00:04.000\n\
             epochs 2 satellites 2 events 0\n\
             complete 2 of 4\n",
        ),
        "",
    ),
)];

static OF_WINDOW: Setting = Setting {
    words: &WINDOW,
    sizes: &[&[1], &[]],
    ..FAULTLESS
};

#[test]
fn the_gaps_of_a_window_are_printed(rt: HostRuntime) {
    assert_come(&rt, rt.alloc(), &OF_WINDOW, &IN_A_WINDOW);
}

const SHORT_WINDOW: [&str; 8] = [
    "rtcm2rinex",
    "check",
    "--gaps",
    "1",
    "--from",
    "2024-02-04",
    "--until",
    "2024-02-04T00:00:02",
];

/// The second epoch, in line 17, is at the end of the window.
static OUT_OF_A_WINDOW: [Case; 1] = [(
    &[],
    File(&[], &[Time, Values, NextTime, NextValues]),
    Fault(
        Lines("gap 2024-02-04 00:00:00.000 2024-02-04 00:00:01.000\n"),
        "rtcm2rinex: OtherDay 17\n",
    ),
)];

static OF_SHORT_WINDOW: Setting = Setting {
    words: &SHORT_WINDOW,
    sizes: &[&[1], &[]],
    ..FAULTLESS
};

#[test]
fn an_epoch_outside_of_the_window_is_refused(rt: HostRuntime) {
    assert_come(&rt, rt.alloc(), &OF_SHORT_WINDOW, &OUT_OF_A_WINDOW);
}
