//! Streams truncated and damaged at each byte, framed by the definitions over whole lists.
use super::{Counts, Stream, is_listed, is_set};
use std::alloc::Global;
use streams_for_tests::{SIZE, agrees_on_each, claimed, is_frame};

/// More frames than fit in `SIZE` bytes.
const MOST_FRAMES: usize = 24;

/// The frames of a stream, and the number of looks at each of its bytes.
#[derive(Drop)]
struct DefinedScan {
    frames: [(usize, usize); MOST_FRAMES],
    count: usize,
    /// The number of their bytes.
    framed: usize,
    looks: [u16; SIZE],
}

impl DefinedScan {
    /// Counts one more look at each of these bytes.
    fn look_at(&mut self, from: usize, to: usize) {
        for place in from..to.min(SIZE) {
            self.looks[place] = self.looks[place].saturating_add(1);
        }
    }

    fn add(&mut self, place: usize, message: usize) {
        self.framed = self.framed.saturating_add(message.saturating_add(6));
        if self.count < MOST_FRAMES {
            self.frames[self.count] = (place, message);
            self.count += 1;
        }
    }

    /// Tries the candidate at a byte, and returns the next candidate.
    fn try_at(&mut self, bytes: &[u8], place: usize) -> usize {
        let rest = &bytes[place.min(bytes.len())..];
        let claim = claimed(rest);
        let end = place.saturating_add(claim);
        self.look_at(place, end.min(bytes.len()));
        if !is_frame(rest, claim) {
            return place.saturating_add(1);
        }
        let message = claim.saturating_sub(6);
        let start = place.saturating_add(3);
        self.look_at(start, start.saturating_add(message));
        self.add(place, message);
        end
    }

    /// The counts of a stream of `size` bytes.
    fn counts(&self, size: usize) -> Counts {
        let mut examined = 0u64;
        let mut most = 0;
        for looks in &self.looks {
            examined = examined.saturating_add(u64::from(*looks));
            most = most.max(*looks);
        }
        (size.saturating_sub(self.framed) as u64, examined, most)
    }
}

/// The whole stream by the definitions.
fn defined_scan(bytes: &[u8]) -> DefinedScan {
    let mut defined = DefinedScan {
        frames: [(0, 0); MOST_FRAMES],
        count: 0,
        framed: 0,
        looks: [0; SIZE],
    };
    let mut next = 0;
    for place in 0..bytes.len() {
        if place == next {
            next = defined.try_at(bytes, place);
        }
    }
    defined
}

/// Whether a framer and the slice agree with the definitions, the framer in blocks of one byte and
/// of two.
fn agrees(alloc: Global, bytes: &[u8]) -> bool {
    let defined = defined_scan(bytes);
    let stream = Stream {
        bytes,
        size: bytes.len(),
        frames: &defined.frames[..defined.count.min(MOST_FRAMES)],
        before: None,
        after: defined.counts(bytes.len()),
    };
    is_listed(&stream) && is_set(alloc, &stream, 0, 1) && is_set(alloc, &stream, 0, 2)
}

#[test]
fn cut_and_damaged_streams(rt: HostRuntime) {
    let alloc = rt.alloc();
    assert!(rt; agrees_on_each(|bytes| agrees(alloc, bytes)));
}
