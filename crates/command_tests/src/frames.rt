//! The output of `frames` and `show`.
use super::messages::{FRAMED_NOTHING, FRAMED_STATION, INNER_FRAME, LATE_FRAME, STATION};
use super::scenario::Expected::Good;
use super::scenario::{Case, FAULTLESS, Setting, assert_come};
use super::texts::Piece::{Framed, Front, Repeated};
use super::texts::Text;
use super::texts::Text::{Bytes, Lines, Stream};
use devices::Counted;
use rtcm_inspect::{InspectFault, Listing, list};
use std::alloc::Global;

pub const FRAMES: [&str; 2] = ["rtcm2rinex", "frames"];

pub const SHOW: [&str; 2] = ["rtcm2rinex", "show"];

/// The line of `FRAMED_STATION`.
pub const SHOWN: Text = Lines("0 1005 2003 1114104.5999 -4850729.7108 3975521.4643\n");

const PROGRAM: [&str; 1] = ["rtcm2rinex"];

static LISTED: [Case; 10] = [
    (
        &["frames"],
        Bytes(&FRAMED_STATION),
        Good(Lines("0 19 1005\n"), ""),
    ),
    (&["frames"], Bytes(&[]), Good(Lines(""), "")),
    (
        &["frames"],
        Bytes(&FRAMED_NOTHING),
        Good(Lines("0 0 -\n"), ""),
    ),
    (&["frames"], Bytes(&LATE_FRAME), Good(Lines("1 0 -\n"), "")),
    (
        &["frames"],
        Stream(&[Repeated(0xD3, 10)]),
        Good(Lines(""), ""),
    ),
    (
        &["frames"],
        Stream(&[Front(&FRAMED_STATION, 24)]),
        Good(Lines(""), ""),
    ),
    (&["frames"], Bytes(&INNER_FRAME), Good(Lines("3 0 -\n"), "")),
    (&["show"], Bytes(&FRAMED_STATION), Good(SHOWN, "")),
    (
        &["show"],
        Bytes(&FRAMED_NOTHING),
        Good(Lines("0 - Short 0\n"), ""),
    ),
    (
        &["show"],
        Stream(&[Front(&FRAMED_STATION, 24)]),
        Good(Lines(""), ""),
    ),
];

#[test]
fn frames_are_listed_in_any_pieces(rt: HostRuntime) {
    for first in 1..26 {
        let setting = Setting {
            words: &PROGRAM,
            sizes: &[&[first, 1_000], &[1]],
            ..FAULTLESS
        };
        assert_come(&rt, rt.alloc(), &setting, &LISTED);
    }
}

/// Whether a stream with this limit of bytes has these lines, and is refused or not.
fn lists(alloc: Global, stream: &[u8], limit: u16, is_refused: bool, lines: &[u8]) -> bool {
    let mut reader = Counted::new(stream);
    let mut writer = Counted::new(Vec::new(alloc));
    let answer = list(
        alloc,
        Listing::Frames,
        u64::from(limit),
        &mut reader,
        &mut writer,
    );
    let written = writer.into_inner();
    let has_lines = written.as_slice() == lines;
    drop(written);
    has_lines
        && match answer {
            Ok(()) => !is_refused,
            Err(InspectFault::TooLong) => is_refused,
            Err(_) => false,
        }
}

/// A limit, whether the stream is refused, and the lines.
type Limit<'a> = (u16, bool, &'a [u8]);

static TWO_STATIONS: Text = Stream(&[Framed(&STATION), Framed(&STATION)]);

static LIMITS: [Limit; 4] = [
    (24, true, b""),
    (25, true, b"0 19 1005\n"),
    (49, true, b"0 19 1005\n"),
    (50, false, b"0 19 1005\n25 19 1005\n"),
];

/// Whether a stream has the lines of each limit.
fn list_all(alloc: Global, stream: &[u8]) -> bool {
    for (limit, is_refused, lines) in &LIMITS {
        if !lists(alloc, stream, *limit, *is_refused, lines) {
            return false;
        }
    }
    true
}

/// Whether the stream of two frames has the lines of each limit.
fn list_two(alloc: Global) -> bool {
    let mut stream = Vec::new(alloc);
    TWO_STATIONS.add_to(&mut stream).is_ok() && list_all(alloc, stream.as_slice())
}

// The output that the bytes up to the limit decide is written.
#[test]
fn a_stream_over_the_limit_is_reported(rt: HostRuntime) {
    assert!(rt; list_two(rt.alloc()));
}
