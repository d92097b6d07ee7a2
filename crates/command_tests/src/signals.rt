//! The signals of streams.
use super::messages::{COARSE, HEIGHT};
use super::scenario::Expected::Good;
use super::scenario::{Case, FAULTLESS, Setting, assert_come};
use super::texts::Piece::{Fine, Framed};
use super::texts::Text::{Lines, Stream};
use super::texts::{Piece, Text};

pub const SIGNALS: [&str; 2] = ["rtcm2rinex", "signals"];

/// Satellite 5 has signal 2, which is 1C, twice; in the third message once more as signal 10, which
/// is 2W.
const OF_THREE: Text = Stream(&[Fine(&[]), Framed(&COARSE), Fine(&[(17, 0x00), (18, 0x20)])]);

static TABLES: [Case; 2] = [
    (&[], OF_THREE, Good(Lines("G 1C 2\nG 2W 1\n"), "")),
    (
        &["--station", "2003"],
        OF_THREE,
        Good(Lines("G 1C 2\nG 2W 1\n"), ""),
    ),
];

/// The signals of a stream in pieces of one byte, of seven, and in one.
static LISTING: Setting = Setting {
    words: &SIGNALS,
    sizes: &[&[1], &[7], &[]],
    ..FAULTLESS
};

#[test]
fn signals_are_listed_with_their_cells(rt: HostRuntime) {
    assert_come(&rt, rt.alloc(), &LISTING, &TABLES);
}

pub const PLAN: [&str; 2] = ["rtcm2rinex", "options"];

/// A 1087 with a cell of slot 5 and channel 1, a second after the start of Sunday in Moscow.
const OF_GLONASS: Piece = Fine(&[(1, 0xF7), (22, 0xA0)]);

/// A 1020 with channel -7 of slot 5, and one with channel 1 of slot 27.
const OTHER_CHANNEL: Piece = Framed(&[0x3F, 0xC1, 0x40]);

const OTHER_SLOT: Piece = Framed(&[0x3F, 0xC6, 0xD0]);

/// A 1045 of GPS week 2300 with the clock reference time 0.
pub const EPHEMERIS: [u8; 62] = [
    0x41, 0x50, 0x53, 0xF0, 0x00, 0x00, 0x00, 0x00, 0x00, 0x00, 0x00, 0x00, 0x00, 0x00, 0x00, 0x00,
    0x00, 0x00, 0x00, 0x00, 0x00, 0x00, 0x00, 0x00, 0x00, 0x00, 0x00, 0x00, 0x00, 0x00, 0x00, 0x00,
    0x00, 0x00, 0x00, 0x00, 0x00, 0x00, 0x00, 0x00, 0x00, 0x00, 0x00, 0x00, 0x00, 0x00, 0x00, 0x00,
    0x00, 0x00, 0x00, 0x00, 0x00, 0x00, 0x00, 0x00, 0x00, 0x00, 0x00, 0x00, 0x00, 0x00,
];

static PLANS: [Case; 5] = [
    (
        &["--week"],
        Stream(&[Fine(&[]), Framed(&EPHEMERIS)]),
        Good(Lines("--week 2300 --gps 1C --galileo none\n"), ""),
    ),
    (
        &[],
        OF_THREE,
        Good(Lines("--gps 1C,2W --galileo none\n"), ""),
    ),
    (
        &[],
        Stream(&[Fine(&[]), Framed(&HEIGHT)]),
        Good(
            Lines(
                "--gps 1C --galileo none --position=1114104.5999,-4850729.7108,3975521.4643 \
                 --antenna-height 1.5000\n",
            ),
            "",
        ),
    ),
    (
        &["--near", "2024-02-04"],
        Stream(&[OTHER_SLOT, OF_GLONASS, OTHER_CHANNEL]),
        Good(
            Lines(
                "--week 2299 --gps none --galileo none --glonass 1C --glonass-channels 5:1,27:1 \
                 --leap-seconds 18\n",
            ),
            "",
        ),
    ),
    (
        &[],
        Stream(&[OTHER_CHANNEL, OF_GLONASS]),
        Good(
            Lines("--gps none --galileo none --glonass 1C --glonass-channels 5:-7\n"),
            "",
        ),
    ),
];

/// The options of a stream in pieces of seven bytes, and in one.
static PLANNING: Setting = Setting {
    words: &PLAN,
    sizes: &[&[7], &[]],
    ..FAULTLESS
};

#[test]
fn options_fit_a_stream(rt: HostRuntime) {
    assert_come(&rt, rt.alloc(), &PLANNING, &PLANS);
}
