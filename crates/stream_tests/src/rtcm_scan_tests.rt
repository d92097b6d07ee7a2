//! What no clause states: worked streams, and that each call can succeed.
mod by_definition;
mod limits;

use arrayvec::ArrayVec;
use rtcm_bits::{LONGEST_FRAME, frame_of};
use rtcm_scan::{Framer, Frames, MOST_BYTES, ScanFault};
use std::alloc::Global;
use streams_for_tests::FOUR_FRAMES;

/// The frame of the message 1005 after three bytes that claim a longest message.
const AFTER_A_FALSE_HEADER: &[u8; 28] = &[
    0xD3, 0xFF, 0xFF, 0xD3, 0x00, 0x13, 0x3E, 0xD7, 0xD3, 0x02, 0x02, 0x98, 0x0E, 0xDE, 0xEF, 0x34,
    0xB4, 0xBD, 0x62, 0xAC, 0x09, 0x41, 0x98, 0x6F, 0x33, 0x36, 0x0B, 0x98,
];

/// The frame of the message 1005 with the six reserved bits of the header set.
const RESERVED_SET: &[u8; 25] = &[
    0xD3, 0xFC, 0x13, 0x3E, 0xD7, 0xD3, 0x02, 0x02, 0x98, 0x0E, 0xDE, 0xEF, 0x34, 0xB4, 0xBD, 0x62,
    0xAC, 0x09, 0x41, 0x98, 0x6F, 0x33, 0xB4, 0x38, 0xF2,
];

/// The frame of the empty message.
const EMPTY_MESSAGE: &[u8; 6] = &[0xD3, 0x00, 0x00, 0x47, 0xEA, 0x4B];

/// That of the empty message after another preamble, which claims 768 bytes of message.
const LATE_FRAME: &[u8; 7] = &[0xD3, 0xD3, 0x00, 0x00, 0x47, 0xEA, 0x4B];

/// That frame inside a candidate with an invalid CRC.
const INNER_FRAME: &[u8; 12] = &[
    0xD3, 0x00, 0x06, 0xD3, 0x00, 0x00, 0x47, 0xEA, 0x4B, 0x00, 0x00, 0x00,
];

/// The longest claim at every byte.
static PREAMBLES: [u8; 2_000] = [0xD3; 2_000];

/// The number of bytes in no frame, of all looks, and of those at one byte.
type Counts = (u64, u64, u16);

/// The first bytes of a stream, with their frames and counts.
#[derive(Drop)]
struct Stream<'a> {
    bytes: &'a [u8],
    size: usize,
    /// The offset of each frame, and the size of its message.
    frames: &'a [(usize, usize)],
    /// Before the end, if they are compared: the numbers of frames and of held bytes.
    before: Option<(usize, usize, Counts)>,
    after: Counts,
}

static STREAMS: [Stream<'static>; 13] = [
    Stream {
        bytes: FOUR_FRAMES,
        size: 25,
        frames: &[(0, 19)],
        before: Some((1, 0, (0, 44, 2))),
        after: (0, 44, 2),
    },
    Stream {
        bytes: FOUR_FRAMES,
        size: 0,
        frames: &[],
        before: Some((0, 0, (0, 0, 0))),
        after: (0, 0, 0),
    },
    Stream {
        bytes: EMPTY_MESSAGE,
        size: 6,
        frames: &[(0, 0)],
        before: Some((1, 0, (0, 6, 1))),
        after: (0, 6, 1),
    },
    Stream {
        bytes: LATE_FRAME,
        size: 7,
        frames: &[(1, 0)],
        before: Some((0, 7, (0, 7, 1))),
        after: (1, 13, 2),
    },
    Stream {
        bytes: &[0xD3; 10],
        size: 10,
        frames: &[],
        before: Some((0, 10, (0, 10, 1))),
        after: (10, 55, 10),
    },
    Stream {
        bytes: FOUR_FRAMES,
        size: 24,
        frames: &[],
        before: Some((0, 24, (0, 24, 1))),
        after: (24, 65, 3),
    },
    Stream {
        bytes: INNER_FRAME,
        size: 12,
        frames: &[(3, 0)],
        before: Some((1, 0, (6, 23, 2))),
        after: (6, 23, 2),
    },
    Stream {
        bytes: AFTER_A_FALSE_HEADER,
        size: 28,
        frames: &[(3, 19)],
        before: Some((0, 28, (0, 28, 1))),
        after: (3, 74, 3),
    },
    Stream {
        bytes: FOUR_FRAMES,
        size: 91,
        frames: &[(0, 19), (25, 21)],
        before: Some((2, 39, (0, 131, 2))),
        after: (39, 174, 3),
    },
    Stream {
        bytes: RESERVED_SET,
        size: 25,
        frames: &[(0, 19)],
        before: Some((1, 0, (0, 44, 2))),
        after: (0, 44, 2),
    },
    Stream {
        bytes: FOUR_FRAMES,
        size: 52,
        frames: &[(0, 19), (25, 21)],
        before: Some((2, 0, (0, 92, 2))),
        after: (0, 92, 2),
    },
    Stream {
        bytes: FOUR_FRAMES,
        size: 94,
        frames: &[(0, 19), (25, 21), (52, 36)],
        before: Some((3, 0, (0, 170, 2))),
        after: (0, 170, 2),
    },
    Stream {
        bytes: FOUR_FRAMES,
        size: 130,
        frames: &[(0, 19), (25, 21), (52, 36), (94, 30)],
        before: Some((4, 0, (0, 236, 2))),
        after: (0, 236, 2),
    },
];

/// Whether each candidate before 1,016 is examined to the end of its claim, and each other one to
/// the end of the stream.
fn are_claims(alloc: Global) -> bool {
    let stream = Stream {
        bytes: &PREAMBLES,
        size: 2_000,
        frames: &[],
        before: Some((0, 984, (1_016, 1_001_744, 985))),
        after: (2_000, 1_485_380, 985),
    };
    is_set(alloc, &stream, 0, 1) && is_listed(&stream)
}

impl<'a> Stream<'a> {
    fn taken(&self) -> &[u8] {
        &self.bytes[..self.size.min(self.bytes.len())]
    }

    /// Whether this is its frame with that number.
    fn has(&self, number: usize, offset: u64, message: &[u8]) -> bool {
        match self.frames.get(number) {
            Some((place, size)) => {
                let start = place.saturating_add(3);
                let own = self.bytes.get(start..start.saturating_add(*size));
                *place as u64 == offset && own == Some(message)
            }
            None => false,
        }
    }
}

// Each call with large clauses has a function without one, so that no test carries the clauses.

/// Pushes a byte. None if the framer isn't ready for it.
fn push(framer: &mut Framer, byte: u8) -> Option<Result<(), ScanFault>> {
    if framer.ready() {
        Some(framer.push(byte))
    } else {
        None
    }
}

/// Pushes a block. None if the framer isn't ready, or has no room for it.
fn push_all(framer: &mut Framer, block: &[u8]) -> Option<Result<(), ScanFault>> {
    if framer.ready() && block.len() <= LONGEST_FRAME - framer.held() {
        Some(framer.push_all(block))
    } else {
        None
    }
}

/// Whether a block is accepted, a single byte by its own call.
fn takes(framer: &mut Framer, block: &[u8]) -> bool {
    match block.first() {
        Some(byte) if block.len() == 1 => push(framer, *byte) == Some(Ok(())),
        _ => block.len() <= framer.room() && push_all(framer, block) == Some(Ok(())),
    }
}

/// Whether there is a frame; None if it isn't that of the stream with this number.
fn is_next(framer: &mut Framer, stream: &Stream, number: usize) -> Option<bool> {
    match framer.next() {
        Some(frame) if stream.has(number, frame.offset, frame.message.as_slice()) => Some(true),
        Some(_) => None,
        None => Some(false),
    }
}

/// Returns the number of frames after the decided ones, with `before` from earlier calls; None if
/// one isn't that of the stream.
fn drain(framer: &mut Framer, stream: &Stream, before: usize) -> Option<usize> {
    for number in before..=stream.frames.len() {
        if !is_next(framer, stream, number)? {
            return Some(number);
        }
    }
    None
}

fn has_counts(framer: &Framer, counts: Counts) -> bool {
    framer.skipped() == counts.0 && framer.examined() == counts.1 && framer.most() == counts.2
}

/// Pushes these bytes of the stream in blocks of a size. Returns the number of frames, including
/// `before` of earlier calls; None if the framer refuses a block, or returns other frames.
fn pass_pieces(
    framer: &mut Framer,
    stream: &Stream,
    bytes: &[u8],
    size: usize,
    before: usize,
) -> Option<usize> {
    let mut frames = before;
    for block in bytes.chunks(size.max(1)) {
        if !takes(framer, block) {
            return None;
        }
        frames = drain(framer, stream, frames)?;
    }
    Some(frames)
}

/// Pushes the bytes of the stream up to a cut, and those after it. Returns the number of frames.
fn pass_both_parts(framer: &mut Framer, stream: &Stream, cut: usize, size: usize) -> Option<usize> {
    let bytes = stream.taken();
    let (front, back) = bytes.split_at(cut.min(bytes.len()));
    let frames = pass_pieces(framer, stream, front, size, 0)?;
    pass_pieces(framer, stream, back, size, frames)
}

fn is_before(framer: &Framer, stream: &Stream, frames: usize) -> bool {
    match stream.before {
        Some((number, held, counts)) => {
            frames == number && framer.held() == held && has_counts(framer, counts)
        }
        None => true,
    }
}

/// Ends the stream after this number of frames.
fn is_after(framer: &mut Framer, stream: &Stream, frames: usize) -> bool {
    framer.end();
    drain(framer, stream, frames) == Some(stream.frames.len())
        && framer.taken() == stream.taken().len() as u64
        && has_counts(framer, stream.after)
}

/// Whether a new framer has the frames and the counts of the stream, cut there and in blocks of a
/// size.
fn is_set(alloc: Global, stream: &Stream, cut: usize, size: usize) -> bool {
    match Framer::new(alloc, MOST_BYTES) {
        Ok(mut framer) => {
            let is_given = match pass_both_parts(&mut framer, stream, cut, size) {
                Some(frames) => {
                    is_before(&framer, stream, frames) && is_after(&mut framer, stream, frames)
                }
                None => false,
            };
            drop(framer);
            is_given
        }
        Err(_) => false,
    }
}

/// Whether the stream has its frames and counts in blocks of each size.
fn is_set_in_blocks(alloc: Global, stream: &Stream) -> bool {
    for size in 1..=stream.size.max(1) {
        if !is_set(alloc, stream, 0, size) {
            return false;
        }
    }
    true
}

/// Whether the stream has its frames and counts with each cut.
fn is_set_cut(alloc: Global, stream: &Stream) -> bool {
    for cut in 0..=stream.size {
        if !is_set(alloc, stream, cut, stream.size) {
            return false;
        }
    }
    true
}

/// Whether the stream has its frames as a slice too.
fn is_listed(stream: &Stream) -> bool {
    let mut listed = 0usize;
    for frame in Frames::new(stream.taken()) {
        if !stream.has(listed, frame.offset as u64, frame.message) {
            return false;
        }
        listed = listed.saturating_add(1);
    }
    listed == stream.frames.len()
}

fn are_worked(alloc: Global) -> bool {
    for stream in &STREAMS {
        if !(is_listed(stream) && is_set_in_blocks(alloc, stream) && is_set_cut(alloc, stream)) {
            return false;
        }
    }
    true
}

#[test]
fn worked_streams(rt: HostRuntime) {
    let alloc = rt.alloc();
    assert!(rt; are_worked(alloc) && are_claims(alloc));
}

/// A byte 0, the frame of a longest message, of 1,023 bytes, and that of a message of 958 bytes,
/// the size of the longest MSM.
fn longest_frames() -> ArrayVec<u8, 2_048> {
    let mut frame = ArrayVec::new();
    let mut frames = ArrayVec::new();
    let _ = frames.try_extend_from_slice(&[0]);
    frame_of(&[0x5A; 1_023], &mut frame);
    let _ = frames.try_extend_from_slice(frame.as_slice());
    frame_of(&[0xA5; 958], &mut frame);
    let _ = frames.try_extend_from_slice(frame.as_slice());
    frames
}

/// Whether the frames of the longest messages are framed after a byte, and alone.
fn are_longest(alloc: Global) -> bool {
    let frames = longest_frames();
    let shifted = Stream {
        bytes: frames.as_slice(),
        size: 1_994,
        frames: &[(1, 1_023), (1_030, 958)],
        before: Some((2, 0, (1, 3_975, 2))),
        after: (1, 3_975, 2),
    };
    let alone = Stream {
        bytes: frames.as_slice().get(1..).unwrap_or(&[]),
        size: 1_993,
        frames: &[(0, 1_023), (1_029, 958)],
        before: Some((2, 0, (0, 3_974, 2))),
        after: (0, 3_974, 2),
    };
    is_set(alloc, &shifted, 0, 1)
        && is_set(alloc, &shifted, 0, 2)
        && is_listed(&shifted)
        && is_set(alloc, &alone, 0, LONGEST_FRAME)
        && is_listed(&alone)
}

/// Blocks of two end with the first frame if a byte precedes it, the longest block if none does.
#[test]
fn longest_messages(rt: HostRuntime) {
    assert!(rt; are_longest(rt.alloc()));
}
