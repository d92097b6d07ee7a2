//! The calls that a buffer makes of its device.
ghost use Rattle.std.specs.Prelude.{[], refl};

use devices::{Buffered, Deliver, Destination};
use std::alloc::Global;
use std::io;
use std::io::{ErrorKind, Write};

/// A device that fails in one of its calls, counted from 1, and in no other. It counts the bytes
/// that it accepted.
#[derive(Drop)]
pub struct Stumbles {
    fails_at: usize,
    pub calls: usize,
    taken: usize,
}

impl Stumbles {
    pub fn new(fails_at: usize) -> Stumbles {
        Stumbles {
            fails_at,
            calls: 0,
            taken: 0,
        }
    }

    /// Whether the next call succeeds.
    fn is_good(&mut self) -> bool {
        self.calls = self.calls.saturating_add(1);
        self.calls != self.fails_at
    }
}

impl Write for Stumbles {
    fn write(&mut self, buf: &[u8]) -> io::Result<usize> {
        if !self.is_good() {
            return Err(io::Error::from(ErrorKind::Interrupted));
        }
        self.taken = self.taken.saturating_add(buf.len());
        Ok(buf.len())
    }

    fn flush(&mut self) -> io::Result<()> {
        if self.is_good() {
            Ok(())
        } else {
            Err(io::Error::from(ErrorKind::Interrupted))
        }
    }
}

impl Destination for Stumbles {}

impl Deliver for Stumbles {
    type Target = Stumbles;

    ghost target = { λ w. w };

    ghost waiting = { λ _. [] };

    ghost parts = { λ _. refl };

    fn target(&self) -> &Stumbles {
        self
    }

    fn deliver(&mut self) -> io::Result<()> {
        self.flush()
    }
}

static LINE: [u8; 1_000] = [b'x'; 1_000];

/// Writes a line a hundred times, and flushes.
fn write_lines(buffer: &mut Buffered<Stumbles>) -> io::Result<()> {
    for _ in 0..100 {
        buffer.write_all(&LINE)?;
    }
    buffer.flush()
}

/// Whether the lines are written and flushed, by this number of calls of the device.
fn are_written(alloc: Global, calls: usize) -> bool {
    match Buffered::new(alloc, Stumbles::new(0)) {
        Ok(mut buffer) => {
            let are_written = write_lines(&mut buffer).is_ok();
            let device = buffer.into_inner();
            are_written && device.calls == calls && device.taken == 100_000
        }
        Err(_) => false,
    }
}

/// Bytes are written when the buffer is full, and at a flush.
#[test]
fn bytes_go_out_many_at_a_time(rt: HostRuntime) {
    // One write of 65,536 bytes, one of the rest, and a flush.
    assert!(rt; are_written(rt.alloc(), 3));
}

static BLOCK: [u8; 65_536] = [b'x'; 65_536];

fn write(buffer: &mut Buffered<&mut Stumbles>, bytes: &[u8]) -> bool {
    buffer.write(bytes).is_ok()
}

fn flush(buffer: &mut Buffered<&mut Stumbles>) -> bool {
    buffer.flush().is_ok()
}

/// The call in which a device fails, whether each call of its buffer succeeds, and after the drop
/// of the buffer the numbers of calls and of bytes of the device.
struct Outcome {
    fails_at: usize,
    good: [bool; 5],
    calls: usize,
    taken: usize,
}

/// Whether the calls succeed as given: a write that fills the buffer, one after it, a flush, and
/// both once more.
fn are_good(buffer: &mut Buffered<&mut Stumbles>, good: &[bool; 5]) -> bool {
    write(buffer, &BLOCK) == good[0]
        && write(buffer, b"y") == good[1]
        && flush(buffer) == good[2]
        && write(buffer, b"z") == good[3]
        && flush(buffer) == good[4]
}

/// The same of a buffer that is dropped then.
fn are_good_of(alloc: Global, device: &mut Stumbles, good: &[bool; 5]) -> bool {
    match Buffered::new(alloc, device) {
        Ok(mut buffer) => {
            let are_good = are_good(&mut buffer, good);
            drop(buffer);
            are_good
        }
        Err(_) => false,
    }
}

static OUTCOMES: [Outcome; 3] = [
    Outcome {
        fails_at: 1,
        good: [true, false, false, false, false],
        calls: 1,
        taken: 0,
    },
    Outcome {
        fails_at: 2,
        good: [true, true, false, false, false],
        calls: 2,
        taken: 65_536,
    },
    Outcome {
        fails_at: 3,
        good: [true, true, false, false, false],
        calls: 3,
        taken: 65_537,
    },
];

fn all_come(alloc: Global) -> bool {
    for outcome in &OUTCOMES {
        let mut device = Stumbles::new(outcome.fails_at);
        let are_good = are_good_of(alloc, &mut device, &outcome.good);
        if !(are_good && device.calls == outcome.calls && device.taken == outcome.taken) {
            return false;
        }
    }
    true
}

/// After a failure nothing more is written: not by a write, not by a flush, and not by the drop.
#[test]
fn nothing_is_tried_again(rt: HostRuntime) {
    assert!(rt; all_come(rt.alloc()));
}
