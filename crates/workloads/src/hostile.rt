//! Bytes that hold no frame, but begin many, as a reader.
use crate::random::Random;
use std::alloc::{AllocError, Global};
use std::io;
use std::io::Read;

/// The bytes of a block.
#[derive(Clone, Copy)]
enum Bytes {
    /// Random bytes.
    Noise,
    /// Headers of frames of no bytes.
    Empty,
    /// Headers of the longest frames.
    Longest,
    /// First bytes of frames.
    Preambles,
}

/// A stated number of rounds of blocks of all four kinds.
#[derive(Drop)]
pub struct Hostile {
    random: Random,
    index: u64,
    rounds: u64,
    block: Vec<u8>,
    place: usize,
}

impl Hostile {
    /// Returns the blocks of this many rounds.
    pub fn new(alloc: Global, seed: u64, rounds: u64) -> Hostile {
        Hostile {
            random: Random::new(seed),
            index: 0,
            rounds,
            block: Vec::new(alloc),
            place: 0,
        }
    }

    /// Makes the next block. Returns whether there is one.
    fn make_next(&mut self) -> Result<bool, AllocError> {
        if self.index / 4 >= self.rounds {
            return Ok(false);
        }
        let (kind, length) = match self.index % 4 {
            0 => (Bytes::Noise, 300_000),
            1 => (Bytes::Empty, 100_000),
            2 => (Bytes::Longest, 6_000),
            _ => (Bytes::Preambles, 2_000),
        };
        self.index = self.index.wrapping_add(1);
        self.place = 0;
        fill(&mut self.block, kind, length, &mut self.random)?;
        Ok(true)
    }
}

/// Replaces the content of the block by `length` such bytes. One in 1,000 or so is a random one.
fn fill(
    block: &mut Vec<u8>,
    kind: Bytes,
    length: usize,
    random: &mut Random,
) -> Result<(), AllocError> {
    block.clear();
    for k in 0..length / 8 {
        let word = match kind {
            Bytes::Noise => random.bits().to_le_bytes(),
            Bytes::Empty => [
                [0xD3, 0, 0, 0xD3, 0, 0, 0xD3, 0],
                [0, 0xD3, 0, 0, 0xD3, 0, 0, 0xD3],
                [0, 0, 0xD3, 0, 0, 0xD3, 0, 0],
            ][k % 3],
            Bytes::Longest => [
                [0xD3, 3, 0xFF, 0xD3, 3, 0xFF, 0xD3, 3],
                [0xFF, 0xD3, 3, 0xFF, 0xD3, 3, 0xFF, 0xD3],
                [3, 0xFF, 0xD3, 3, 0xFF, 0xD3, 3, 0xFF],
            ][k % 3],
            Bytes::Preambles => [0xD3; 8],
        };
        block.extend_from_slice(&word)?;
    }
    for k in 0..length / 1000 {
        let place = (random.below(1000) as usize).wrapping_add(1000 * k);
        if let Some(byte) = block.as_mut_slice().get_mut(place) {
            *byte = (random.bits() % 256) as u8;
        }
    }
    Ok(())
}

impl Read for Hostile {
    fn read(&mut self, buf: &mut [u8]) -> io::Result<usize> {
        if self.place >= self.block.len() && !self.make_next()? {
            return Ok(0);
        }
        let Some(rest) = self.block.as_slice().get(self.place..) else {
            return Ok(0);
        };
        let n = buf.len().min(rest.len());
        buf[..n].copy_from_slice(&rest[..n]);
        self.place = self.place.wrapping_add(n);
        Ok(n)
    }
}
