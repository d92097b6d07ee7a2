//! Tables of calls of a window.
use super::{MESSAGE, STATION_FRAME};
use arrayvec::ArrayVec;
use rtcm_bits::{CheckRegister, LONGEST_FRAME, LONGEST_MESSAGE, Window};
use std::alloc::Global;

// Each call with clauses has a function without one, so that no test carries the clauses. It
// returns None or false if the condition of the call isn't met.

fn push_each(window: &mut Window, bytes: &[u8]) -> bool {
    for byte in bytes {
        if window.held() == LONGEST_FRAME {
            return false;
        }
        window.push(*byte);
    }
    true
}

fn check_range(window: &mut Window, start: usize, size: usize) -> Option<u32> {
    if start > LONGEST_FRAME || size > LONGEST_FRAME || start + size > window.held() {
        return None;
    }
    let mut register = CheckRegister::new();
    window.check_range(start, size, &mut register);
    Some(register.value())
}

/// Whether the bytes that are passed on are these.
fn copies(window: &mut Window, start: usize, want: &[u8]) -> bool {
    let size = want.len();
    if start > LONGEST_FRAME || size > LONGEST_MESSAGE || start + size > window.held() {
        return false;
    }
    let mut bytes = ArrayVec::new();
    window.hand_over(start, size, &mut bytes);
    bytes.as_slice() == want
}

/// A call of a window, and its expected outcome.
enum Step {
    /// Bytes are pushed one by one.
    Pushes(&'static [u8]),
    /// Bytes are pushed into an empty window.
    Fills(&'static [u8]),
    /// The number of bytes, of all looks, and of those at one byte.
    Counts(usize, u64, u16),
    /// A look at the byte at an index.
    Looks(usize, u8),
    /// The number of looks at the byte at an index.
    Looked(usize, u16),
    /// The CRC of the bytes from an index on, and their number.
    Checks(usize, usize, u32),
    /// The bytes from an index on are passed on.
    Passes(usize, &'static [u8]),
    /// This number of bytes is dropped.
    Drops(usize),
    /// Bytes other than one are dropped, and their number.
    DropsOthers(u8, usize),
}

/// Whether a step has its expected outcome.
fn goes(window: &mut Window, step: &Step) -> bool {
    match step {
        Step::Pushes(bytes) => push_each(window, bytes),
        Step::Fills(bytes) if window.held() == 0 && bytes.len() <= LONGEST_FRAME => {
            window.push_all(bytes);
            true
        }
        Step::Counts(held, examined, most) => {
            window.held() == *held && window.examined() == *examined && window.most() == *most
        }
        Step::Looks(place, byte) => *place < window.held() && window.look(*place) == *byte,
        Step::Looked(place, times) => { *place < window.held() && window.looks(*place) == *times }
        Step::Checks(start, size, crc) => check_range(window, *start, *size) == Some(*crc),
        Step::Passes(start, bytes) => copies(window, *start, bytes),
        Step::Drops(size) if *size <= window.held() => {
            window.drop_front(*size);
            true
        }
        Step::DropsOthers(byte, size) => window.drop_others(*byte) == *size,
        Step::Fills(_) | Step::Drops(_) => false,
    }
}

fn go_through(window: &mut Window, steps: &[Step]) -> bool {
    for step in steps {
        if !goes(window, step) {
            return false;
        }
    }
    true
}

/// Whether the steps have their expected outcomes in each of this number of rounds.
fn go_round(window: &mut Window, rounds: usize, steps: &[Step]) -> bool {
    for _ in 0..rounds {
        if !go_through(window, steps) {
            return false;
        }
    }
    true
}

/// Whether a new window goes through the first steps in each of this number of rounds, and then
/// through the others.
fn goes_as_given(alloc: Global, rounds: usize, first: &[Step], last: &[Step]) -> bool {
    match Window::new(alloc) {
        Ok(mut window) => {
            let goes = go_round(&mut window, rounds, first) && go_through(&mut window, last);
            drop(window);
            goes
        }
        Err(_) => false,
    }
}

/// Five bytes are pushed, some looked at, and the first one dropped, each with its looks.
static LOOKS: [Step; 8] = [
    Step::Pushes(&[10, 11, 12, 13, 14]),
    Step::Counts(5, 0, 0),
    Step::Looks(0, 10),
    Step::Looks(0, 10),
    Step::Counts(5, 2, 2),
    Step::Passes(1, &[11, 12]),
    Step::Drops(1),
    Step::Looked(0, 1),
];

static AFTER_LOOKS: [Step; 1] = [Step::Counts(4, 4, 2)];

#[test]
fn window_counts_looks(rt: HostRuntime) {
    assert!(rt; goes_as_given(rt.alloc(), 1, &LOOKS, &AFTER_LOOKS));
}

/// A frame is pushed, checked, passed on and dropped, each byte with its looks.
static PASSED_ON: [Step; 6] = [
    Step::Fills(STATION_FRAME),
    Step::Checks(0, 22, 0x36_0B98),
    Step::Looked(21, 1),
    Step::Looked(22, 0),
    Step::Passes(3, MESSAGE),
    Step::Drops(25),
];

static AFTER_FRAMES: [Step; 1] = [Step::Counts(0, 4_100, 2)];

/// The bytes of a hundred frames wrap round at times.
#[test]
fn ranges_of_a_window(rt: HostRuntime) {
    assert!(rt; goes_as_given(rt.alloc(), 100, &PASSED_ON, &AFTER_FRAMES));
}

/// Bytes other than one are dropped, up to it and up to the end, with a look at each and at the
/// byte where it stops.
static OTHERS: [Step; 10] = [
    Step::Fills(&[7, 8, 0xD3, 9, 0xD3]),
    Step::DropsOthers(0xD3, 2),
    Step::Counts(3, 3, 1),
    Step::Looked(0, 1),
    Step::Looked(1, 0),
    Step::DropsOthers(0xD3, 0),
    Step::Counts(3, 4, 2),
    Step::DropsOthers(0xD4, 3),
    Step::Counts(0, 7, 3),
    Step::DropsOthers(0xD4, 0),
];

static AFTER_OTHERS: [Step; 1] = [Step::Counts(0, 7, 3)];

/// The same of three bytes.
static THREE_OTHERS: [Step; 4] = [
    Step::Fills(&[1, 2, 3, 0xD3]),
    Step::DropsOthers(0xD3, 3),
    Step::Looked(0, 1),
    Step::Drops(1),
];

/// In the many rounds the bytes begin at another position of the memory in each, and reach its end.
#[test]
fn others_are_dropped(rt: HostRuntime) {
    let alloc = rt.alloc();
    let goes = goes_as_given(alloc, 1, &OTHERS, &AFTER_OTHERS);
    assert!(rt; goes && goes_as_given(alloc, 3 * LONGEST_FRAME, &THREE_OTHERS, &[]));
}
