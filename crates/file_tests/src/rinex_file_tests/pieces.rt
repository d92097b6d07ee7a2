//! Files that a reader gives in pieces: a line that is whole in the bytes that were read ahead is
//! read there, and any other is put together.
use super::joined;
use super::parts::Part;
use devices::Counted;
use devices_for_tests::{PieceReader, ReadEnd};
use rinex_file::{Counts, ReadFault, check_file, read_file};
use std::alloc::Global;
use std::io::ErrorKind;

/// Checks a file of bytes in pieces of this size.
fn check_in(alloc: Global, text: &[u8], size: usize, end: ReadEnd) -> Result<Counts, ReadFault> {
    let sizes = [size];
    let mut reader = Counted::new(PieceReader::new(text, &sizes, end));
    check_file(alloc, &mut reader)
}

/// Whether a file has these counts in pieces of each size up to that of some lines, and at once.
fn is_counted_in_pieces(alloc: Global, text: &[u8], counts: Counts) -> bool {
    for size in 1..200 {
        if check_in(alloc, text, size, ReadEnd::Ends) != Ok(counts) {
            return false;
        }
    }
    check_in(alloc, text, 10_000, ReadEnd::Ends) == Ok(counts)
}

/// Whether a file that lacks some bytes at its end has the same outcome at once and in pieces.
fn are_cut_alike(alloc: Global, text: &[u8]) -> bool {
    for end in text.len().saturating_sub(150)..text.len() {
        let cut = &text[..end];
        let whole = check_in(alloc, cut, 10_000, ReadEnd::Ends);
        if whole != check_in(alloc, cut, 80, ReadEnd::Ends) {
            return false;
        }
    }
    true
}

/// Whether checking fails with a reader that fails in the last lines, which are given at once.
fn are_failing(alloc: Global, text: &[u8]) -> bool {
    let fails = ReadEnd::Fails(ErrorKind::Other);
    for end in text.len().saturating_sub(150)..text.len() {
        if check_in(alloc, &text[..end], 10_000, fails) != Err(ReadFault::Read) {
            return false;
        }
    }
    true
}

/// Whether a file is read in each of these ways.
fn is_read_alike(alloc: Global, parts: &[Part], counts: Counts) -> bool {
    let text = joined(parts);
    let bytes = text.as_slice();
    let is_counted = is_counted_in_pieces(alloc, bytes, counts);
    let is_alike = is_counted && are_cut_alike(alloc, bytes) && are_failing(alloc, bytes);
    drop(text);
    is_alike
}

const SMALL: Counts = Counts {
    epochs: 1,
    satellites: 1,
    events: 0,
};

const OF_TWO_SYSTEMS: Counts = Counts {
    epochs: 2,
    satellites: 3,
    events: 0,
};

#[test]
fn a_small_file_is_read_in_pieces(rt: HostRuntime) {
    assert!(rt; is_read_alike(rt.alloc(), &[Part::Header, Part::Epoch], SMALL));
}

#[test]
fn a_file_of_two_systems_is_read_in_pieces(rt: HostRuntime) {
    assert!(rt; is_read_alike(rt.alloc(), &[Part::TwoSystems], OF_TWO_SYSTEMS));
}

/// The fault of a file that is given at once.
fn fault_at_once(alloc: Global, text: &[u8]) -> Option<ReadFault> {
    let mut reader = Counted::new(PieceReader::new(text, &[], ReadEnd::Ends));
    match read_file(alloc, &mut reader) {
        Ok(file) => {
            drop(file);
            None
        }
        Err(fault) => Some(fault),
    }
}

/// Returns a line of 1,221 bytes with its line feed.
fn long_line() -> [u8; 1221] {
    let mut bytes = [b'a'; 1221];
    bytes[1220] = b'\n';
    bytes
}

/// Parts of the long line from one offset to another, and their faults.
static PARTS: [(usize, usize, ReadFault); 4] = [
    (0, 1221, ReadFault::BadHeader(1)),
    (1, 1221, ReadFault::BadHeader(1)),
    (0, 1220, ReadFault::BadHeader(1)),
    (1, 1220, ReadFault::CutShort(1)),
];

/// Whether lines about as long as the longest one are refused.
fn are_refused(alloc: Global) -> bool {
    let long = long_line();
    for (from, to, fault) in &PARTS {
        let part = long.get(*from..*to).unwrap_or(&[]);
        if fault_at_once(alloc, part) != Some(*fault) {
            return false;
        }
    }
    true
}

/// Whether empty lines are refused as the first line.
fn are_empty_refused(alloc: Global) -> bool {
    let first = Some(ReadFault::BadHeader(1));
    fault_at_once(alloc, b"\n") == first && fault_at_once(alloc, b"\n\n") == first
}

#[test]
fn long_lines_and_empty_ones_are_refused(rt: HostRuntime) {
    let alloc = rt.alloc();
    assert!(rt; are_refused(alloc) && are_empty_refused(alloc));
}

/// Lines of satellites that are refused after the first line of an epoch.
static LINES: [&str; 7] = ["\n", "G\n", "G0\n", "G01\n", "G01 \n", "E01\n", "G33\n"];

/// Whether each of the lines is refused as the line of a satellite.
fn are_no_satellites(alloc: Global) -> bool {
    for line in &LINES {
        let text = joined(&[Part::Header, Part::EpochLine, Part::Own(line)]);
        let fault = fault_at_once(alloc, text.as_slice());
        drop(text);
        if fault != Some(ReadFault::BadSatellite(16)) {
            return false;
        }
    }
    true
}

#[test]
fn short_lines_of_satellites_are_refused(rt: HostRuntime) {
    assert!(rt; are_no_satellites(rt.alloc()));
}
