//! A digest of all that a job computes.
ghost use Rattle.std.specs.Prelude.{[], refl};

use devices::{Deliver, Destination};
use std::io;
use std::io::Write;

/// Bytes are added to the digest in blocks of this size, regardless of how they were written.
const BLOCK_BYTES: usize = 65_536;

/// A digest of 64 bits of numbers and bytes. It accepts bytes as a writer.
#[derive(Drop)]
pub struct Digest {
    lanes: [u64; 4],
    block: Vec<u8>,
    written: u64,
}

impl Digest {
    /// Returns the digest of nothing, over an empty block.
    pub fn new(block: Vec<u8>) -> Digest {
        Digest {
            lanes: [1, 2, 3, 4],
            block,
            written: 0,
        }
    }

    /// Adds a number.
    pub fn add(&mut self, number: u64) {
        self.lanes[0] = mixed(self.lanes[0], number);
    }

    /// Returns the digest of all that was added and written.
    pub fn value(&mut self) -> u64 {
        self.lanes = with_bytes(self.lanes, self.block.as_slice());
        self.block.clear();
        let mut all = self.written;
        for lane in self.lanes {
            all = mixed(all, lane);
        }
        all
    }
}

impl Write for Digest {
    fn write(&mut self, buf: &[u8]) -> io::Result<usize> {
        if self.block.len() >= BLOCK_BYTES {
            self.lanes = with_bytes(self.lanes, self.block.as_slice());
            self.block.clear();
        }
        let n = buf.len().min(BLOCK_BYTES.saturating_sub(self.block.len()));
        match self.block.extend_from_slice(&buf[..n]) {
            Ok(()) => {
                self.written = self.written.wrapping_add(n as u64);
                Ok(n)
            }
            Err(error) => Err(io::Error::from(error)),
        }
    }

    fn flush(&mut self) -> io::Result<()> {
        Ok(())
    }
}

impl Destination for Digest {}

impl Deliver for Digest {
    type Target = Digest;

    ghost target = { λ d. d };

    ghost waiting = { λ _. [] };

    ghost parts = { λ _. refl };

    fn target(&self) -> &Digest {
        self
    }

    fn deliver(&mut self) -> io::Result<()> {
        self.flush()
    }
}

fn mixed(lane: u64, number: u64) -> u64 {
    (lane ^ number)
        .wrapping_mul(0x9E37_79B9_7F4A_7C15)
        .rotate_left(29)
}

/// Adds bytes to the lanes: words of eight bytes in turn, and the last bytes one by one.
fn with_bytes(lanes: [u64; 4], bytes: &[u8]) -> [u64; 4] {
    let [mut a, mut b, mut c, mut d] = lanes;
    let whole = bytes.len() / 32;
    for k in 0..whole {
        let own = &bytes[32 * k..32 * k + 32];
        a = mixed(a, word(own));
        b = mixed(b, word(&own[8..]));
        c = mixed(c, word(&own[16..]));
        d = mixed(d, word(&own[24..]));
    }
    for byte in &bytes[32 * whole..] {
        a = mixed(a, *byte as u64);
    }
    [a, b, c, d]
}

/// Returns the first eight bytes as a number.
fn word(bytes: &[u8]) -> u64 {
    match bytes {
        [a, b, c, d, e, f, g, h, ..] => u64::from_le_bytes([*a, *b, *c, *d, *e, *f, *g, *h]),
        _ => 0,
    }
}
