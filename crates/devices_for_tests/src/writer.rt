//! A writer with short writes and failures.
ghost use Rattle.std.specs.Prelude.{◌≡◌, [], IfOk, OnOk};
ghost use Rattle.std.specs.Io.KnownBytes.{Keeps};

use devices::Deliver;
use std::io;
use std::io::{ErrorKind, Write};
use std::marker::Model;

/// What a writer does after the last byte that it accepts.
#[derive(Clone, Copy)]
pub enum WriteEnd {
    /// Each further write fails with this error.
    Fails(ErrorKind),
    /// Each further write accepts nothing.
    TakesNone,
    /// The next write fails with this error, and each one after it accepts nothing.
    FailsOnce(ErrorKind),
}

/// Passes bytes to another writer: at most a stated number in each write, and in all.
#[derive(Drop)]
pub struct ShortWriter<W> {
    inner: W,
    most: usize,
    left: usize,
    end: WriteEnd,
}

impl<W> Model for ShortWriter<W> {
    ghost Value = { W };

    ghost view = { λ w. w.inner };
}

impl<W> ShortWriter<W> {
    /// Returns a writer that passes at most `most` bytes of a write to `inner`, `total` in all, and
    /// then behaves as given by `end`.
    pub fn new(inner: W, most: usize, total: usize, end: WriteEnd) -> ShortWriter<W>
        ensures { result ≡ inner }
    {
        ShortWriter {
            inner,
            most,
            left: total,
            end,
        }
    }

    /// Returns the writer with the accepted bytes.
    pub fn into_inner(self) -> W
        ensures { result ≡ self }
    {
        self.inner
    }

    /// Returns the result of a write after the last accepted byte.
    fn refuse(&mut self) -> io::Result<usize>
        ensures none { IfOk result (λ n. n ≡ 0) }
        ensures inner { self.new ≡ self.old }
    {
        match self.end {
            WriteEnd::TakesNone => Ok(0),
            WriteEnd::Fails(kind) => Err(io::Error::from(kind)),
            WriteEnd::FailsOnce(kind) => {
                self.end = WriteEnd::TakesNone;
                Err(io::Error::from(kind))
            }
        }
    }
}

impl<W: Deliver> Write for ShortWriter<W> {
    ghost contents = { W.contents };

    fn write(&mut self, buf: &[u8]) -> io::Result<usize> {
        if self.left == 0 {
            return self.refuse();
        }
        let n = buf.len().min(self.most).min(self.left);
        let result = self.inner.write(&buf[..n]);
        if let Ok(taken) = &result {
            self.left -= *taken;
        }
        result
    }

    fn flush(&mut self) -> io::Result<()>
        ensures bytes { Keeps (W.contents self.old) (W.contents self.new) }
        ensures sent { OnOk result (W.waiting self.new ≡ []) }
    {
        self.inner.deliver()
    }
}

impl<W: Deliver> Deliver for ShortWriter<W> {
    type Target = W::Target;

    ghost target = { W.target };

    ghost waiting = { W.waiting };

    ghost parts = { W.parts };

    fn target(&self) -> &W::Target {
        self.inner.target()
    }

    fn deliver(&mut self) -> io::Result<()> {
        self.flush()
    }
}
