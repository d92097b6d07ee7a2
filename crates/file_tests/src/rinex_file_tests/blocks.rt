//! The blocks in which a file is read ahead: their reads, which no clause counts, and lines that
//! continue in the next block.
use super::long::long_text;
use devices::Counted;
use devices_for_tests::{PieceReader, ReadEnd};
use rinex_file::{Counts, ReadFault, check_file, file_bytes, read_file};
use std::alloc::Global;
use std::io;
use std::io::Read;

/// The size of a block, in bytes.
const BLOCK: usize = 65_536;

/// The size of the file in bytes: a header of 14 lines of 81 bytes, and 1,300 epochs of a line of
/// 36 and one of 66 bytes. These are two blocks and 2,662 bytes.
const SIZE: usize = 14 * 81 + 1_300 * (36 + 66);

const COUNTS: Counts = Counts {
    epochs: 1_300,
    satellites: 1_300,
    events: 0,
};

/// Counts the reads of a reader, and those for another number of bytes than a block has.
#[derive(Drop)]
struct ReadCounts<'a> {
    inner: PieceReader<'a>,
    reads: usize,
    others: usize,
}

impl<'a> Read for ReadCounts<'a> {
    fn read(&mut self, buf: &mut [u8]) -> io::Result<usize> {
        self.reads = self.reads.saturating_add(1);
        if buf.len() != BLOCK {
            self.others = self.others.saturating_add(1);
        }
        self.inner.read(buf)
    }
}

/// A reader of a file whose first piece has this size, and of which each other fills a block.
fn reader_of<'a>(text: &'a [u8], sizes: &'a [usize; 2]) -> Counted<ReadCounts<'a>> {
    Counted::new(ReadCounts {
        inner: PieceReader::new(text, sizes, ReadEnd::Ends),
        reads: 0,
        others: 0,
    })
}

/// Whether a file is checked with this outcome, by this number of reads of a block.
fn is_checked(
    alloc: Global,
    text: &[u8],
    first: usize,
    reads: usize,
    outcome: Result<Counts, ReadFault>,
) -> bool {
    let sizes = [first, BLOCK];
    let mut reader = reader_of(text, &sizes);
    let checked = check_file(alloc, &mut reader);
    let device = reader.into_inner();
    checked == outcome && device.reads == reads && device.others == 0
}

/// The first bytes of the file, one that is replaced, the size of the first piece, the number of
/// reads, and the outcome.
struct Case {
    bytes: usize,
    replaced: Option<usize>,
    first: usize,
    reads: usize,
    outcome: Result<Counts, ReadFault>,
}

const WHOLE: Case = Case {
    bytes: SIZE,
    replaced: None,
    first: BLOCK,
    reads: 4,
    outcome: Ok(COUNTS),
};

/// Each block is read once, and so is the end. The 65,536th byte is in line 14 + 2 * 632 = 1,278,
/// of the satellite of epoch 632, as is the next one; the 131,072nd is in that of epoch 1,274.
static CASES: [Case; 10] = [
    WHOLE,
    // pieces of 1,200, 65,536, 65,536 and 1,462 bytes
    Case {
        first: 1_200,
        reads: 5,
        ..WHOLE
    },
    Case {
        bytes: 0,
        reads: 1,
        outcome: Err(ReadFault::CutShort(1)),
        ..WHOLE
    },
    Case {
        bytes: 14 * 81,
        reads: 2,
        outcome: Err(ReadFault::CutShort(15)),
        ..WHOLE
    },
    Case {
        bytes: BLOCK,
        reads: 2,
        outcome: Err(ReadFault::CutShort(1_278)),
        ..WHOLE
    },
    Case {
        bytes: BLOCK + 1,
        reads: 3,
        outcome: Err(ReadFault::CutShort(1_278)),
        ..WHOLE
    },
    Case {
        bytes: 2 * BLOCK,
        reads: 3,
        outcome: Err(ReadFault::CutShort(2_562)),
        ..WHOLE
    },
    // a refused line ends the reading
    Case {
        replaced: Some(0),
        reads: 1,
        outcome: Err(ReadFault::BadHeader(1)),
        ..WHOLE
    },
    Case {
        replaced: Some(BLOCK - 1),
        reads: 2,
        outcome: Err(ReadFault::BadSatellite(1_278)),
        ..WHOLE
    },
    Case {
        replaced: Some(BLOCK),
        reads: 2,
        outcome: Err(ReadFault::BadSatellite(1_278)),
        ..WHOLE
    },
];

fn is_case(alloc: Global, case: &Case) -> bool {
    let mut text = long_text(1_300);
    if let Some(byte) = text.as_mut_slice().get_mut(case.replaced.unwrap_or(SIZE)) {
        *byte = b'x';
    }
    let front = text.as_slice().get(..case.bytes).unwrap_or(&[]);
    let is_case = is_checked(alloc, front, case.first, case.reads, case.outcome);
    drop(text);
    is_case
}

/// A block is read once its last byte was processed, and nothing after a refused line.
#[test]
fn each_block_is_read_once(rt: HostRuntime) {
    let alloc = rt.alloc();
    for case in &CASES {
        assert!(rt; is_case(alloc, case));
    }
}

/// Whether a file is valid if its second block ends after each byte of an epoch.
fn are_lines_joined(alloc: Global, text: &[u8]) -> bool {
    for first in 14 * 81..14 * 81 + 36 + 66 {
        if !is_checked(alloc, text, first, 5, Ok(COUNTS)) {
            return false;
        }
    }
    true
}

/// Whether a file that is read block by block is written back as it is.
fn is_read_back(alloc: Global, text: &[u8]) -> bool {
    let mut reader = Counted::new(PieceReader::new(text, &[], ReadEnd::Ends));
    let Ok(file) = read_file(alloc, &mut reader) else {
        return false;
    };
    let bytes = file_bytes(alloc, &file);
    drop(file);
    match bytes {
        Ok(bytes) => {
            let are_same = bytes.as_slice() == text;
            drop(bytes);
            are_same
        }
        Err(_) => false,
    }
}

/// A line across the end of a block is read as any other.
#[test]
fn lines_continue_in_the_next_block(rt: HostRuntime) {
    let alloc = rt.alloc();
    let text = long_text(1_300);
    assert!(rt; text.len() == SIZE);
    assert!(rt; are_lines_joined(alloc, text.as_slice()) && is_read_back(alloc, text.as_slice()));
    drop(text);
}
