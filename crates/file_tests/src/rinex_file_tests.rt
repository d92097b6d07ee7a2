//! What no clause states: published lines, that a call can succeed, and failures of writers.
//!
//! A test is a table of inputs and expected outcomes: only one function owns a gatherer, one a
//! writer and one a file, since owners of these take long to prove.
mod blocks;
mod events;
mod faults;
mod fields;
mod long;
mod optional;
mod parts;
mod pieces;
mod reading;
mod slots;
mod writing;

use arrayvec::ArrayVec;
use devices::Counted;
use devices_for_tests::{ShortWriter, WriteEnd};
use gnss_obs::{GpsTime, Plan, StationValues};
use parts::{Part, text_of};
use rinex_file::{Head, HeadFault, HeaderField, HeaderTexts, Texts, header_lines};
use std::alloc::Global;

/// The values of a station.
const VALUES: StationValues = StationValues {
    x: 11_141_045_999,
    y: -48_507_297_108,
    z: 39_755_214_643,
    height: 15_000,
};

pub const TEXTS: Texts<'static> = Texts {
    run_by: "",
    date: "20240204 000001 UTC",
    marker: "",
    marker_number: "",
    comment: "",
    marker_type: "GEODETIC",
    observer: "",
    agency: "",
    rec_number: "",
    rec_type: "",
    rec_version: "",
    ant_number: "",
    ant_type: "",
};

static OWN_TEXTS: Texts<'static> = TEXTS;

/// The text of a small file, or of a part of it.
type Text = ArrayVec<u8, 4096>;

fn put(text: &mut Text, bytes: &[u8]) {
    let _ = text.try_extend_from_slice(bytes);
}

/// These parts, one after the other.
fn joined(parts: &[Part]) -> Text {
    let mut text = Text::new();
    for part in parts {
        put(&mut text, text_of(*part).as_bytes());
    }
    text
}

/// The number of bytes of these parts.
fn length(parts: &[Part]) -> usize {
    let text = joined(parts);
    let length = text.len();
    drop(text);
    length
}

/// The largest numbers of bytes that a writer accepts in a write and in all, and what it does then.
#[derive(Clone, Copy)]
struct Takes {
    each: usize,
    all: usize,
    end: WriteEnd,
}

/// It accepts all.
const ALL: Takes = Takes {
    each: 4096,
    all: 4096,
    end: WriteEnd::TakesNone,
};

type Writer = Counted<ShortWriter<Text>>;

fn writer(takes: &Takes) -> Writer {
    Counted::new(ShortWriter::new(Text::new(), takes.each, takes.all, takes.end))
}

/// Whether a writer has accepted these parts, up to the bytes that it accepts.
fn has_written(writer: Writer, parts: &[Part], takes: &Takes) -> bool {
    let text = writer.into_inner().into_inner();
    let whole = joined(parts);
    let is_start = whole.as_slice().get(..takes.all.min(whole.len())) == Some(text.as_slice());
    drop(whole);
    drop(text);
    is_start
}

/// Whether this is the outcome of writing: a success, or the fault of a writer.
fn is_outcome(outcome: Result<(), HeadFault>, is_good: bool) -> bool {
    match outcome {
        Ok(()) => is_good,
        Err(fault) => !is_good && fault == HeadFault::Write,
    }
}

/// Puts the lines of a header one after the other. Returns whether each has 81 bytes.
fn put_header(head: &Head, text: &mut Text) -> bool {
    let mut are_whole = true;
    for line in header_lines(head) {
        are_whole = are_whole && line.len() == 81;
        put(text, line.as_slice());
        drop(line);
    }
    are_whole
}

/// Whether these lines, of 81 bytes as all are, have their texts.
fn has_lines(text: &[u8], lines: &[(usize, &str)]) -> bool {
    for (number, line) in lines {
        let from = number.saturating_mul(81);
        let to = from.saturating_add(80);
        if text.get(from..to) != Some(line.as_bytes()) || text.get(to) != Some(&b'\n') {
            return false;
        }
    }
    true
}

/// Whether a header has 25 lines, and these among them.
fn is_header(head: &Head, lines: &[(usize, &str)]) -> bool {
    let mut text = Text::new();
    let are_whole = put_header(head, &mut text);
    let are_lines = text.len() == 25 * 81 && has_lines(text.as_slice(), lines);
    drop(text);
    are_whole && are_lines
}

/// The same of the header with this plan and the station values.
fn is_header_under(plan: &Plan, first: GpsTime, lines: &[(usize, &str)]) -> bool {
    match HeaderTexts::new(&OWN_TEXTS) {
        Ok(texts) => {
            let head = Head {
                interval: None,
                texts: &texts,
                plan,
                values: VALUES,
                first,
            };
            let is_header = is_header(&head, lines);
            drop(texts);
            is_header
        }
        Err(_) => false,
    }
}

/// The same of the header with every signal.
fn is_full_header(alloc: Global, lines: &[(usize, &str)]) -> bool {
    let Some(first) = GpsTime::new(2303 * 604_800_000 + 345_600_000) else {
        return false;
    };
    match Plan::parse(alloc, "all", "all") {
        Ok(plan) => {
            let is_header = is_header_under(&plan, first, lines);
            drop(plan);
            is_header
        }
        Err(_) => false,
    }
}

/// Lines of the header with every signal, each with its number from 0.
static FULL_HEADER: [(usize, &str); 8] = [
    (
        0,
        "     3.05           OBSERVATION DATA    M                   RINEX VERSION / TYPE",
    ),
    (
        7,
        "  1114104.5999 -4850729.7108  3975521.4643                  APPROX POSITION XYZ ",
    ),
    (
        8,
        "        1.5000        0.0000        0.0000                  ANTENNA: DELTA H/E/N",
    ),
    (
        9,
        "G   60 C1C L1C D1C S1C C1P L1P D1P S1P C1W L1W D1W S1W C2C  SYS / # / OBS TYPES ",
    ),
    (
        13,
        "       C1L L1L D1L S1L C1X L1X D1X S1X                      SYS / # / OBS TYPES ",
    ),
    (
        14,
        "E   76 C1C L1C D1C S1C C1A L1A D1A S1A C1B L1B D1B S1B C1X  SYS / # / OBS TYPES ",
    ),
    (
        21,
        "  2024     2    29     0     0    0.0000000     GPS         TIME OF FIRST OBS   ",
    ),
    (
        23,
        "E                                                           SYS / PHASE SHIFT   ",
    ),
];

#[test]
fn a_header_shows_plan_and_station(rt: HostRuntime) {
    assert!(rt; is_full_header(rt.alloc(), &FULL_HEADER));
}

const SIXTY: &str = "aaaaaaaaaaaaaaaaaaaaaaaaaaaaaaaaaaaaaaaaaaaaaaaaaaaaaaaaaaaa";

const LONG: &str = "aaaaaaaaaaaaaaaaaaaaaaaaaaaaaaaaaaaaaaaaaaaaaaaaaaaaaaaaaaaaa";

const BLANKS: &str = "aaaaaaaaaaaaaaaaaaaaaaaaaaaaaaaaaaaaaaaaaaaaaaaaaaaaaaaaaaaa  ";

const ODD: &str = "aaaaaaaaaaaaaaaaaaaaaaaaaaaaaa\x7Faaaaaaaaaaaaaaaaaaaaaaaaaaaaaa";

/// Texts, and their fault if they have one.
static JUDGED: [(Texts<'static>, Option<HeadFault>); 5] = [
    (
        Texts {
            marker: SIXTY,
            ..TEXTS
        },
        None,
    ),
    (
        Texts {
            marker: BLANKS,
            ..TEXTS
        },
        None,
    ),
    (
        Texts {
            marker: LONG,
            ..TEXTS
        },
        Some(HeadFault::TooLong(HeaderField::Marker)),
    ),
    (
        Texts {
            marker: ODD,
            ..TEXTS
        },
        Some(HeadFault::NotPrintable(HeaderField::Marker)),
    ),
    (
        Texts {
            date: "\n",
            marker: LONG,
            ..TEXTS
        },
        Some(HeadFault::NotPrintable(HeaderField::Date)),
    ),
];

fn are_judged() -> bool {
    for (texts, fault) in &JUDGED {
        if HeaderTexts::new(texts).err() != *fault {
            return false;
        }
    }
    true
}

#[test]
fn texts_are_judged(rt: HostRuntime) {
    assert!(rt; HeaderField::Marker.width() == 60 && are_judged());
}
