//! Streams that are converted in pieces of any size: their files and reports.
use super::messages::HEIGHT;
use super::scenario::Expected::{Good, Refused, Unread};
use super::scenario::{Case, FAULTLESS, Setting, assert_come};
use super::texts::ExpectedLine::{Above, NextTime, NextValues, Position, Time, TwoLines, Values};
use super::texts::Piece::{Fine, Framed};
use super::texts::Text::{File, Stream};
use super::texts::{FINE_FILE, REPORT, Text};
use devices::Counted;
use gnss_obs::Plan;
use rinex_file::{HeaderTexts, Texts};
use rtcm_command::{report_line, run_convert};
use rtcm_convert::Setup;
use std::alloc::Global;

pub const OPTIONS: [&str; 10] = [
    "rtcm2rinex",
    "convert",
    "--week",
    "2300",
    "--date",
    "20240204 000001 UTC",
    "--gps",
    "1C",
    "--galileo",
    "none",
];

const IN_ONE: Text = Stream(&[Fine(&[])]);

/// One message, and one followed by a change of the station values, in any pieces.
static IN_PIECES: [Case; 2] = [
    (&[], Stream(&[Fine(&[])]), Good(FINE_FILE, REPORT)),
    (
        &[],
        Stream(&[Fine(&[]), Framed(&HEIGHT), Fine(&[(5, 0x1F), (6, 0x40)])]),
        Good(
            File(
                &[],
                &[
                    Time, Values, TwoLines, Position, Above, NextTime, NextValues,
                ],
            ),
            "bytes 111 skipped_bytes 0 frames 3 faulty 0 station 1 other 0 ignored 0 late 0 past 0 \
             taken 2 skipped 0 repeated 0 crowded 0 epochs 2\n",
        ),
    ),
];

/// A conversion in pieces of one byte, of two, and in one.
static CONVERTING: Setting = Setting {
    words: &OPTIONS,
    sizes: &[&[1], &[2], &[]],
    ..FAULTLESS
};

#[test]
fn a_stream_becomes_a_file(rt: HostRuntime) {
    assert_come(&rt, rt.alloc(), &CONVERTING, &IN_PIECES);
}

const DATED: [&str; 6] = [
    "rtcm2rinex",
    "convert",
    "--week",
    "2300",
    "--date",
    "20240204 000001 UTC",
];

/// Options that are refused: a code of no signal, no signal at all, and 61 letters for 60 columns.
static UNFIT: [Case; 3] = [
    (
        &["--gps", "1c"],
        IN_ONE,
        Unread("rtcm2rinex: UnknownCode G 0\n"),
    ),
    (
        &["--gps", "none", "--galileo", "none"],
        IN_ONE,
        Unread("rtcm2rinex: NothingPlanned\n"),
    ),
    (
        &[
            "--marker",
            "MARKERMARKERMARKERMARKERMARKERMARKERMARKERMARKERMARKERMARKERM",
        ],
        IN_ONE,
        Unread("rtcm2rinex: TooLong marker\n"),
    ),
];

const FILE_AT: Text = File(&[(7, &[Position]), (8, &[Above])], &[Time, Values]);

/// The station values of `HEIGHT`, given before any message.
const GIVEN: [&str; 3] = [
    "--position=1114104.5999,-4850729.7108,3975521.4643",
    "--antenna-height",
    "1.5",
];

/// A position in the header, and the same values in a message, which are no event.
static PLACED: [Case; 2] = [
    (&GIVEN, Stream(&[Fine(&[])]), Good(FILE_AT, REPORT)),
    (
        &GIVEN,
        Stream(&[Fine(&[]), Framed(&HEIGHT), Fine(&[(5, 0x1F), (6, 0x40)])]),
        Good(
            File(
                &[(7, &[Position]), (8, &[Above])],
                &[Time, Values, NextTime, NextValues],
            ),
            "bytes 111 skipped_bytes 0 frames 3 faulty 0 station 1 other 0 ignored 0 late 0 past 0 \
             taken 2 skipped 0 repeated 0 crowded 0 epochs 2\n",
        ),
    ),
];

/// A conversion in pieces of seven bytes, and in one.
static PLACING: Setting = Setting {
    words: &OPTIONS,
    sizes: &[&[7], &[]],
    ..FAULTLESS
};

#[test]
fn given_station_values_are_in_the_header(rt: HostRuntime) {
    assert_come(&rt, rt.alloc(), &PLACING, &PLACED);
}

/// A missing coordinate, five decimals, a letter, 38 bits exceeded, a height of 17 bits, channel 7,
/// and a slot that is given twice.
static NOT_VALUES: [Case; 7] = [
    (&["--position=1,2"], IN_ONE, Refused),
    (&["--position=1.00000,2,3"], IN_ONE, Refused),
    (&["--position=1,x,3"], IN_ONE, Refused),
    (&["--position=13743895.3472,0,0"], IN_ONE, Refused),
    (&["--antenna-height=6.5536"], IN_ONE, Refused),
    (&["--glonass-channels=1:7"], IN_ONE, Refused),
    (&["--glonass-channels=2:1,1:0,2:1"], IN_ONE, Refused),
];

/// A conversion whose lengths or channels follow.
static MEASURING: Setting = Setting {
    words: &OPTIONS,
    ..FAULTLESS
};

#[test]
fn texts_that_are_no_values_read_nothing(rt: HostRuntime) {
    assert_come(&rt, rt.alloc(), &MEASURING, &NOT_VALUES);
}

/// A conversion whose other options follow.
static FITTING: Setting = Setting {
    words: &DATED,
    ..FAULTLESS
};

#[test]
fn refused_options_read_nothing(rt: HostRuntime) {
    assert_come(&rt, rt.alloc(), &FITTING, &UNFIT);
}

/// The setup of `OPTIONS`.
fn setup(alloc: Global) -> Option<Setup> {
    let texts = Texts {
        date: "20240204 000001 UTC",
        marker_type: "GEODETIC",
        ..Texts::default()
    };
    let texts = HeaderTexts::new(&texts).ok()?;
    let plan = Plan::parse(alloc, "1C", "none").ok()?;
    Some(Setup::new(plan, texts, 2300))
}

/// Whether `run_convert` writes this file of a stream, and returns this report.
fn converts(alloc: Global, stream: &[u8], file: &[u8], report: &str) -> bool {
    let Some(setup) = setup(alloc) else {
        return false;
    };
    let mut reader = Counted::new(stream);
    let mut writer = Counted::new(Vec::new(alloc));
    let ended = run_convert(alloc, setup, &mut reader, &mut writer);
    let output = writer.into_inner();
    match ended {
        Ok(found) => {
            report_line(&found, false).as_bytes() == report.as_bytes() && output.as_slice() == file
        }
        Err(_) => false,
    }
}

/// Whether the stream of one message is converted without station values.
fn converts_one(alloc: Global) -> bool {
    let mut stream = Vec::new(alloc);
    let mut file = Vec::new(alloc);
    IN_ONE.add_to(&mut stream).is_ok()
        && FINE_FILE.add_to(&mut file).is_ok()
        && converts(alloc, stream.as_slice(), file.as_slice(), REPORT)
}

#[test]
fn a_conversion_without_given_values_is_that_of_the_program(rt: HostRuntime) {
    assert!(rt; converts_one(rt.alloc()));
}
