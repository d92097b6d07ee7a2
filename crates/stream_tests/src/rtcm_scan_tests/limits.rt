//! The limits of a framer, and the texts of its faults.
use super::{push, push_all};
use rtcm_scan::{Framer, MOST_BYTES, ScanFault};
use std::alloc::Global;
use streams_for_tests::have_texts;

/// Whether pushing a byte is refused so.
fn is_refused(framer: &mut Framer, fault: ScanFault) -> bool {
    push(framer, 0xD3) == Some(Err(fault))
}

/// Whether a framer at its limit has no room, refuses a byte and a block, holds this number of
/// bytes, and refuses a byte after its end.
fn refuses(framer: &mut Framer, held: usize) -> bool {
    framer.room() == 0
        && is_refused(framer, ScanFault::TooLong)
        && push_all(framer, &[0xD3]) == Some(Err(ScanFault::TooLong))
        && framer.held() == held
        && is_refused_after_end(framer)
}

fn is_refused_after_end(framer: &mut Framer) -> bool {
    framer.end();
    is_refused(framer, ScanFault::Ended)
}

/// Whether a framer with this limit accepts as many preambles, which are no frame, and no more.
fn stops_at(framer: &mut Framer, limit: usize) -> bool {
    for _ in 0..limit {
        if push(framer, 0xD3) != Some(Ok(())) || framer.next().is_some() {
            return false;
        }
    }
    refuses(framer, limit)
}

fn is_limited(alloc: Global, limit: usize) -> bool {
    match Framer::new(alloc, limit as u64) {
        Ok(mut framer) => {
            let stops = stops_at(&mut framer, limit);
            drop(framer);
            stops
        }
        Err(_) => false,
    }
}

/// Whether a framer with room refuses a byte after its end.
fn has_end(alloc: Global) -> bool {
    match Framer::new(alloc, MOST_BYTES) {
        Ok(mut framer) => {
            let is_refused = is_refused_after_end(&mut framer);
            drop(framer);
            is_refused
        }
        Err(_) => false,
    }
}

fn are_limited(alloc: Global) -> bool {
    has_end(alloc)
        && Framer::new(alloc, MOST_BYTES + 1).err() == Some(ScanFault::BadLimit)
        && is_limited(alloc, 0)
        && is_limited(alloc, 10)
}

#[test]
fn limits(rt: HostRuntime) {
    assert!(rt; are_limited(rt.alloc()));
}

static TEXTS: [(ScanFault, &str); 4] = [
    (ScanFault::Memory, "Memory"),
    (ScanFault::BadLimit, "BadLimit"),
    (ScanFault::TooLong, "TooLong"),
    (ScanFault::Ended, "Ended"),
];

#[test]
fn texts_of_faults(rt: HostRuntime) {
    assert!(rt; have_texts(rt.alloc(), &TEXTS));
}
