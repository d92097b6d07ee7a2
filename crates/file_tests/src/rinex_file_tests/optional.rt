//! Optional rows of a header: read and written back, and refused.
use super::parts::Part;
use super::reading::{Content, SMALL, has_fault, is_read_back};
use rinex_file::ReadFault;
use std::alloc::Global;

/// The lines before a comment.
const FRONT: &str = "\
\x20    3.05           OBSERVATION DATA    G                   RINEX VERSION / TYPE\n\
rtcm2rinex                              20240204 000001 UTC PGM / RUN BY / DATE \n";

/// The line of the marker's name.
const NAME: &str = "\
\x20                                                           MARKER NAME         \n";

/// The lines after the marker's number.
const MIDDLE: &str = "\
GEODETIC                                                    MARKER TYPE         \n\
\x20                                                           OBSERVER / AGENCY   \n\
\x20                                                           REC # / TYPE / VERS \n\
\x20                                                           ANT # / TYPE        \n\
\x20       0.0000        0.0000        0.0000                  APPROX POSITION XYZ \n\
\x20       0.0000        0.0000        0.0000                  ANTENNA: DELTA H/E/N\n\
G    4 C1C L1C D1C S1C                                      SYS / # / OBS TYPES \n\
DBHZ                                                        SIGNAL STRENGTH UNIT\n";

/// The lines after the interval, and an epoch.
const REST: &str = "\
\x20 2024     2     4     0     0    1.0000000     GPS         TIME OF FIRST OBS   \n\
G                                                           SYS / PHASE SHIFT   \n\
\x20                                                           END OF HEADER       \n\
> 2024 02 04 00 00  1.0000000  0  1\n\
G05  20985472.060 7 110279400.000 7      -525.504          45.063\n";

/// A comment.
const COMMENT: &str = "\
antenna moved in 2019                                       COMMENT             \n";

/// A marker's number.
const NUMBER: &str = "\
13502M004                                                   MARKER NUMBER       \n";

/// An interval of a second.
const INTERVAL: &str = "\
\x20    1.000                                                  INTERVAL            \n";

/// The content of the file.
static CONTENT: Content = Content {
    signals: (1, 0),
    ..SMALL
};

/// A comment, a marker's number and an interval, each present or not.
static ROWS: [(&str, &str, &str); 8] = [
    ("", "", ""),
    (COMMENT, "", ""),
    ("", NUMBER, ""),
    ("", "", INTERVAL),
    (COMMENT, NUMBER, ""),
    (COMMENT, "", INTERVAL),
    ("", NUMBER, INTERVAL),
    (COMMENT, NUMBER, INTERVAL),
];

/// Intervals that are read.
static INTERVALS: [&str; 4] = [
    "\
\x20    0.100                                                  INTERVAL            \n",
    "\
\x20    0.500                                                  INTERVAL            \n",
    "\
\x20   30.000                                                  INTERVAL            \n",
    "\
\x2086400.000                                                  INTERVAL            \n",
];

/// Rows that are refused, each with the number of the refused line.
static REFUSED: [((&str, &str, &str), u64); 15] = [
    // a blank comment
    (
        (
            "\
\x20                                                           COMMENT             \n",
            "",
            "",
        ),
        3,
    ),
    // two comments
    (
        (
            "\
a                                                           COMMENT             \n\
b                                                           COMMENT             \n",
            "",
            "",
        ),
        4,
    ),
    // a number in place of the comment
    (
        (
            "\
13502M004                                                   MARKER NUMBER       \n",
            "",
            "",
        ),
        3,
    ),
    // a blank number
    (
        (
            "",
            "\
\x20                                                           MARKER NUMBER       \n",
            "",
        ),
        4,
    ),
    // a comment in place of the number
    (
        (
            "",
            "\
a                                                           COMMENT             \n",
            "",
        ),
        4,
    ),
    // a number of 21 columns
    (
        (
            "",
            "\
123456789012345678901                                       MARKER NUMBER       \n",
            "",
        ),
        4,
    ),
    // no interval
    (
        (
            "",
            "",
            "\
\x20                                                           INTERVAL            \n",
        ),
        12,
    ),
    // an interval of zero
    (
        (
            "",
            "",
            "\
\x20    0.000                                                  INTERVAL            \n",
        ),
        12,
    ),
    // one longer than a day
    (
        (
            "",
            "",
            "\
\x2086400.001                                                  INTERVAL            \n",
        ),
        12,
    ),
    // one shorter than 0.1 s
    (
        (
            "",
            "",
            "\
\x20    0.096                                                  INTERVAL            \n",
        ),
        12,
    ),
    // one that is no divisor of a day
    (
        (
            "",
            "",
            "\
\x20    7.000                                                  INTERVAL            \n",
        ),
        12,
    ),
    // a leading zero
    (
        (
            "",
            "",
            "\
\x20   01.000                                                  INTERVAL            \n",
        ),
        12,
    ),
    // columns after it
    (
        (
            "",
            "",
            "\
\x20    1.000         1                                        INTERVAL            \n",
        ),
        12,
    ),
    // two decimals
    (
        (
            "",
            "",
            "\
\x20     1.00                                                  INTERVAL            \n",
        ),
        12,
    ),
    // an interval twice
    (
        (
            "",
            "",
            "\
\x20    1.000                                                  INTERVAL            \n\
\x20    1.000                                                  INTERVAL            \n",
        ),
        13,
    ),
];

/// The parts of a file with these rows.
fn parts_of(rows: (&'static str, &'static str, &'static str)) -> [Part; 7] {
    [
        Part::Own(FRONT),
        Part::Own(rows.0),
        Part::Own(NAME),
        Part::Own(rows.1),
        Part::Own(MIDDLE),
        Part::Own(rows.2),
        Part::Own(REST),
    ]
}

fn are_read(alloc: Global) -> bool {
    for rows in &ROWS {
        if !is_read_back(alloc, &parts_of(*rows), &CONTENT) {
            return false;
        }
    }
    for interval in &INTERVALS {
        if !is_read_back(alloc, &parts_of(("", "", *interval)), &CONTENT) {
            return false;
        }
    }
    true
}

fn are_refused(alloc: Global) -> bool {
    for (rows, line) in &REFUSED {
        if !has_fault(alloc, &parts_of(*rows), Some(ReadFault::BadHeader(*line))) {
            return false;
        }
    }
    true
}

#[test]
fn optional_rows_are_read_and_written_back(rt: HostRuntime) {
    assert!(rt; are_read(rt.alloc()));
}

#[test]
fn optional_rows_that_are_blank_or_wrong_are_refused(rt: HostRuntime) {
    assert!(rt; are_refused(rt.alloc()));
}
