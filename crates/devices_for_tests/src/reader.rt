//! A reader over memory, with short reads and a failure.
ghost use Rattle.std.specs.Prelude.{◌≡◌, ◌<◌, [], length, Some, OnErr};
ghost use Rattle.std.specs.Io.{ReadsAtMost};
ghost use Rattle.std.specs.Io.KnownBytes.{ReadConsumes};

use std::io;
use std::io::{ErrorKind, Read};
use std::marker::Model;

/// What a reader does after its last byte.
#[derive(Clone, Copy)]
pub enum ReadEnd {
    /// Each further read returns 0 bytes.
    Ends,
    /// Each further read fails with this error.
    Fails(ErrorKind),
}

/// Reads stated bytes in stated pieces, and keeps the size of the last buffer.
#[derive(Drop)]
pub struct PieceReader<'a> {
    rest: &'a [u8],
    sizes: &'a [usize],
    left: usize,
    end: ReadEnd,
    asked: usize,
}

impl<'a> Model for PieceReader<'a> {
    ghost use Rattle.devices_for_tests.specs.inner.PieceReading.{PieceReading};

    ghost Value = { PieceReading };

    ghost view = { λ r. record { rest = r.rest.now; left = r.left; asked = r.asked } };
}

impl<'a> PieceReader<'a> {
    /// Returns a reader of these bytes in pieces of these sizes, of which the last is repeated.
    /// Without a size all bytes are one piece. A size of 0 counts as 1, since a read of 0 bytes is
    /// the end.
    pub fn new(bytes: &'a [u8], sizes: &'a [usize], end: ReadEnd) -> PieceReader<'a>
        ensures rest { result.rest ≡ bytes.now }
        ensures asked { result.asked ≡ 0 }
    {
        PieceReader {
            rest: bytes,
            sizes,
            left: 0,
            end,
            asked: 0,
        }
    }

    /// Returns the size of the buffer of the last read, in bytes; 0 before the first.
    pub fn asked(&self) -> usize
        ensures { result ≡ self.now.asked }
    {
        self.asked
    }

    /// Returns the number of bytes left of the piece, or of the next one if none are left.
    fn piece_left(&mut self) -> usize
        ensures some { 0 < result }
        ensures left { self.new.left ≡ result }
        ensures rest { self.new.rest ≡ self.old.rest }
        ensures asked { self.new.asked ≡ self.old.asked }
    {
        if self.left == 0 {
            let size = match self.sizes {
                [] => usize::MAX,
                [size] => *size,
                [size, rest @ ..] => {
                    self.sizes = rest;
                    *size
                }
            };
            self.left = size.max(1);
        }
        self.left
    }
}

impl<'a> Read for PieceReader<'a> {
    ghost remaining = { λ r. Some r.rest };

    fn read(&mut self, buf: &mut [u8]) -> io::Result<usize>
        ensures bound { ReadsAtMost result buf.new }
        ensures bytes { ReadConsumes (Some self.old.rest) (Some self.new.rest) result buf.new }
        ensures failed { OnErr result (self.old.rest ≡ []) }
        ensures asked { self.new.asked ≡ length buf.old }
    {
        self.asked = buf.len();
        if self.rest.is_empty() {
            return match self.end {
                ReadEnd::Ends => Ok(0),
                ReadEnd::Fails(kind) => Err(io::Error::from(kind)),
            };
        }
        let n = buf.len().min(self.piece_left()).min(self.rest.len());
        let (piece, rest) = self.rest.split_at(n);
        buf[..n].copy_from_slice(piece);
        self.rest = rest;
        self.left -= n;
        Ok(n)
    }
}
