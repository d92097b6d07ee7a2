//! Streams truncated and damaged at each byte: file, report, held bytes and looks of a converter,
//! before the end of a stream and after it, agree with the definitions.
use super::ONE;
use super::by_definition::{DefinedConversion, defined_conversion, piece};
use super::script::{OPTIONS, converter, feed, looks, writer};
use devices_for_tests::WriteEnd;
use rtcm_convert::{Converter, Fault, Report};
use std::alloc::Global;
use streams_for_tests::{agrees_on_each, four_frames};

/// A stream, the size of the pieces in which it is fed, and whether it is ended.
#[derive(Clone, Copy)]
struct Fed<'a> {
    bytes: &'a [u8],
    size: usize,
    ends: bool,
}

/// Feeds the bytes in their pieces, and ends the stream or not. Returns whether the file, the
/// results and the counts are those of the definitions.
fn comes(converter: &mut Converter, fed: &Fed, defined: &DefinedConversion) -> bool {
    let mut writer = writer(4096, 4096, WriteEnd::TakesNone);
    let size = fed.bytes.len();
    let takes = feed(converter, fed.bytes, fed.size, &mut writer).is_ok()
        && (!fed.ends || converter.finish(&mut writer) == defined.result(size));
    let text = writer.into_inner().into_inner();
    let is_file = defined.is_file(text.as_slice());
    drop(text);
    takes && is_file && looks(converter) == defined.counts(size)
}

fn is_converted(alloc: Global, fed: &Fed, defined: &DefinedConversion) -> bool {
    match converter(alloc, &OPTIONS) {
        Ok(mut converter) => {
            let comes = comes(&mut converter, fed, defined);
            drop(converter);
            comes
        }
        Err(_) => false,
    }
}

/// Whether a stream agrees in pieces of one byte and of two, before its end or after it.
fn agrees_at(alloc: Global, bytes: &[u8], ends: bool) -> bool {
    let defined = defined_conversion(bytes, ends);
    is_converted(
        alloc,
        &Fed {
            bytes,
            size: 1,
            ends,
        },
        &defined,
    ) && is_converted(
        alloc,
        &Fed {
            bytes,
            size: 2,
            ends,
        },
        &defined,
    )
}

fn agrees(alloc: Global, bytes: &[u8]) -> bool {
    agrees_at(alloc, bytes, false) && agrees_at(alloc, bytes, true)
}

#[test]
fn cut_and_damaged_streams_are_converted_by_the_definitions(rt: HostRuntime) {
    let alloc = rt.alloc();
    assert!(rt; agrees_on_each(|bytes| agrees(alloc, bytes)));
}

/// The report of the four frames.
const FOUR: Report = Report {
    bytes: 130,
    frames: 4,
    station: 2,
    late: 1,
    ..ONE
};

/// A part of the four frames, whether it is the whole stream, and by the definitions its counts,
/// its result and the length of its file.
struct Part {
    from: usize,
    to: usize,
    has_ended: bool,
    counts: (usize, u64, u16),
    result: Result<Report, Fault>,
    length: usize,
}

static PARTS: [Part; 6] = [
    Part {
        from: 0,
        to: 130,
        has_ended: true,
        counts: (0, 236, 2),
        result: Ok(FOUR),
        length: 1_236,
    },
    Part {
        from: 52,
        to: 94,
        has_ended: true,
        counts: (0, 78, 2),
        result: Ok(ONE),
        length: 1_236,
    },
    Part {
        from: 0,
        to: 25,
        has_ended: true,
        counts: (0, 44, 2),
        result: Err(Fault::NoEpoch),
        length: 0,
    },
    Part {
        from: 0,
        to: 24,
        has_ended: false,
        counts: (24, 24, 1),
        result: Err(Fault::NoEpoch),
        length: 0,
    },
    Part {
        from: 0,
        to: 24,
        has_ended: true,
        counts: (0, 65, 3),
        result: Err(Fault::NoEpoch),
        length: 0,
    },
    Part {
        from: 52,
        to: 91,
        has_ended: true,
        counts: (0, 82, 3),
        result: Err(Fault::NoEpoch),
        length: 0,
    },
];

fn is_defined(part: &Part) -> bool {
    let bytes = four_frames().get(part.from..part.to).unwrap_or(&[]);
    let defined = defined_conversion(bytes, part.has_ended);
    defined.counts(bytes.len()) == part.counts
        && defined.result(bytes.len()) == part.result
        && defined.file().len() == part.length
}

fn are_defined() -> bool {
    for part in &PARTS {
        if !is_defined(part) {
            return false;
        }
    }
    true
}

/// Whether the third frame alone has the known file.
fn has_known_file() -> bool {
    let frame = four_frames().get(52..94).unwrap_or(&[]);
    defined_conversion(frame, true).is_file(piece(0, 1_236))
}

/// The definitions themselves, by numbers counted by hand.
#[test]
fn the_definitions_are_right(rt: HostRuntime) {
    assert!(rt; are_defined() && has_known_file());
}
