//! Values of files that are counted.
use super::scenario::Expected::{Fault, Good, Invalid, Refused};
use super::scenario::{Case, Expected, FAULTLESS, READ, Room, Setting, WRITE, assert_come};
use super::texts::ExpectedLine::{NextTime, NextValues, Position, Time, Values};
use super::texts::FINE_FILE;
use super::texts::Text::{self, Bytes, File, Lines};
use devices_for_tests::{ReadEnd, WriteEnd};
use std::io::ErrorKind;

pub const QUALITY: [&str; 2] = ["rtcm2rinex", "quality"];

pub const EVERY: [&str; 4] = ["rtcm2rinex", "quality", "--every", "1"];

/// What is printed of `FINE_FILE`.
pub const RATED: Text = Lines(
    "epochs 1 satellites 1 events 0\n\
     signal G 1C satellites 1 c 1 l 1 d 1 s 1 lost 0 half 0 mean 45.063\n\
     satellite G05 epochs 1 of 1 first 2024-02-04T00:00:01.000 last 2024-02-04T00:00:01.000 \
     lost 0\n",
);

/// A file with an epoch at 1 s and one at 2 s, in which lock may have been lost.
pub const TWO_EPOCHS: Text = File(&[], &[Time, Values, NextTime, NextValues]);

/// The lines of its periods of 1 s.
pub const PERIODS: Text = Lines(
    "2024-02-04T00:00:01.000 G05 1C c 1 l 1 d 1 s 1 lost 0 half 0 mean 45.063\n\
     2024-02-04T00:00:02.000 G05 1C c 1 l 1 d 1 s 1 lost 1 half 0 mean 45.063\n",
);

/// The line of the first of them.
pub const FIRST_PERIOD: Text = Lines(
    "2024-02-04T00:00:01.000 G05 1C c 1 l 1 d 1 s 1 lost 0 half 0 mean 45.063\n",
);

static COUNTED: [Case; 6] = [
    (&[], FINE_FILE, Good(RATED, "")),
    (
        &[],
        TWO_EPOCHS,
        Good(
            Lines(
                "epochs 2 satellites 2 events 0\n\
                 signal G 1C satellites 1 c 2 l 2 d 2 s 2 lost 1 half 0 mean 45.063\n\
                 satellite G05 epochs 2 of 2 first 2024-02-04T00:00:01.000 \
                 last 2024-02-04T00:00:02.000 lost 1\n",
            ),
            "",
        ),
    ),
    (&["--every", "1"], TWO_EPOCHS, Good(PERIODS, "")),
    (
        &["--every", "2"],
        TWO_EPOCHS,
        Good(
            Lines(
                "2024-02-04T00:00:00.000 G05 1C c 1 l 1 d 1 s 1 lost 0 half 0 mean 45.063\n\
                 2024-02-04T00:00:02.000 G05 1C c 1 l 1 d 1 s 1 lost 1 half 0 mean 45.063\n",
            ),
            "",
        ),
    ),
    (
        &["--every=86400"],
        TWO_EPOCHS,
        Good(
            Lines("2024-02-04T00:00:00.000 G05 1C c 2 l 2 d 2 s 2 lost 1 half 0 mean 45.063\n"),
            "",
        ),
    ),
    (&["--every", "1"], FINE_FILE, Good(FIRST_PERIOD, "")),
];

/// A file in pieces of one byte, of 100 and seven in turn, and in one.
static OF_COUNTED: Setting = Setting {
    words: &QUALITY,
    sizes: &[&[1], &[100, 7], &[]],
    ..FAULTLESS
};

#[test]
fn the_values_of_a_file_are_counted(rt: HostRuntime) {
    assert_come(&rt, rt.alloc(), &OF_COUNTED, &COUNTED);
}

/// Another second line, and a third epoch that isn't later.
static SPOILT: [Case; 3] = [
    (
        &[],
        File(&[(1, &[Position])], &[Time, Values]),
        Fault(Lines(""), "rtcm2rinex: BadHeader 2\n"),
    ),
    (
        &[],
        File(&[], &[Time, Values, NextTime, NextValues, Time]),
        Fault(Lines(""), "rtcm2rinex: BadEpoch 19\n"),
    ),
    (
        &["--every", "1"],
        File(&[], &[Time, Values, NextTime, NextValues, Time]),
        Fault(FIRST_PERIOD, "rtcm2rinex: BadEpoch 19\n"),
    ),
];

#[test]
fn a_damaged_file_has_the_periods_before_its_last_epoch(rt: HostRuntime) {
    assert_come(&rt, rt.alloc(), &OF_COUNTED, &SPOILT);
}

/// A file that the reader has in part: an epoch, one and the line of the next one, and two.
static CUT: [Case; 4] = [
    (&[], TWO_EPOCHS, Fault(Lines(""), READ)),
    (&["--every", "1"], FINE_FILE, Fault(Lines(""), READ)),
    (
        &["--every", "1"],
        File(&[], &[Time, Values, NextTime]),
        Fault(Lines(""), READ),
    ),
    (&["--every", "1"], TWO_EPOCHS, Fault(FIRST_PERIOD, READ)),
];

static OF_CUT: Setting = Setting {
    words: &QUALITY,
    sizes: &[&[1], &[]],
    end: ReadEnd::Fails(ErrorKind::Other),
    ..FAULTLESS
};

#[test]
fn a_failed_read_has_the_periods_before_the_last_epoch(rt: HostRuntime) {
    assert_come(&rt, rt.alloc(), &OF_CUT, &CUT);
}

/// The first bytes of the lines of a file, and of its periods, before the writer fails.
static UNWRITTEN: [Case; 2] = [
    (
        &[],
        FINE_FILE,
        Fault(
            Lines(
                "epochs 1 satellites 1 events 0\n\
                 signal G 1C satellites 1 c 1 l 1 d 1 s 1 los",
            ),
            WRITE,
        ),
    ),
    (
        &["--every", "1"],
        TWO_EPOCHS,
        Fault(
            Lines(
                "2024-02-04T00:00:01.000 G05 1C c 1 l 1 d 1 s 1 lost 0 half 0 mean 45.063\n\
                 20",
            ),
            WRITE,
        ),
    ),
];

static OF_UNWRITTEN: Setting = Setting {
    words: &QUALITY,
    room: Room {
        most: 4,
        total: 75,
        end: WriteEnd::Fails(ErrorKind::Other),
    },
    ..FAULTLESS
};

#[test]
fn a_failed_write_leaves_the_lines_before_it(rt: HostRuntime) {
    assert_come(&rt, rt.alloc(), &OF_UNWRITTEN, &UNWRITTEN);
}

const BAD_EVERY: Expected = Invalid(
    "rtcm2rinex: BadInterval --every SECONDS: up to 3 decimals, 1 to 86400, a divisor of a day\n",
);

/// Texts that are no length of periods, and words that are no options of the command.
static REFUSED: [Case; 8] = [
    (&["--every", "0.5"], FINE_FILE, BAD_EVERY),
    (&["--every", "0.999"], FINE_FILE, BAD_EVERY),
    (&["--every", "7"], FINE_FILE, BAD_EVERY),
    (&["--every", "86401"], FINE_FILE, BAD_EVERY),
    (&["--every", "30 s"], FINE_FILE, BAD_EVERY),
    (&["--every", ""], Bytes(&[]), BAD_EVERY),
    (&["--every", "1", "--every", "1"], FINE_FILE, Refused),
    (&["--gaps", "30"], FINE_FILE, Refused),
];

static OF_REFUSED: Setting = Setting {
    words: &QUALITY,
    ..FAULTLESS
};

#[test]
fn other_lengths_of_periods_are_refused(rt: HostRuntime) {
    assert_come(&rt, rt.alloc(), &OF_REFUSED, &REFUSED);
}
