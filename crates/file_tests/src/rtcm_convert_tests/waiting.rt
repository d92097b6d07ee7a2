//! A writer that keeps the bytes of its writes until they are delivered: what it has passed on when
//! a read fails, and when a delivery fails.
ghost use Rattle.std.specs.Prelude.{◌≡◌, [], OnOk, refl};

use super::by_definition::Text;
use super::script::{OPTIONS, convert, stream_of};
use super::{Frame, TWO, file};
use devices::{Counted, Deliver};
use devices_for_tests::{PieceReader, ReadEnd};
use rtcm_convert::{Fault, Report};
use std::alloc::Global;
use std::io;
use std::io::{ErrorKind, Sink, Write};

/// A writer that fails in one of its deliveries, counted from 1, and in no other.
#[derive(Drop)]
struct Holding {
    kept: Text,
    delivered: Vec<u8>,
    device: Sink,
    fails_at: usize,
    deliveries: usize,
}

impl Holding {
    fn new(alloc: Global, fails_at: usize) -> Holding {
        Holding {
            kept: Text::new(),
            delivered: Vec::new(alloc),
            device: io::sink(),
            fails_at,
            deliveries: 0,
        }
    }
}

impl Write for Holding {
    fn write(&mut self, buf: &[u8]) -> io::Result<usize> {
        self.kept.write(buf)
    }

    fn flush(&mut self) -> io::Result<()>
        ensures { OnOk result (self.new.kept.items ≡ []) }
    {
        self.deliveries = self.deliveries.saturating_add(1);
        if self.deliveries == self.fails_at {
            return Err(io::Error::from(ErrorKind::Other));
        }
        let _ = self.delivered.write(self.kept.as_slice());
        self.kept.clear();
        Ok(())
    }
}

impl Deliver for Holding {
    type Target = Sink;

    ghost target = { λ h. h.device };

    ghost waiting = { λ h. h.kept.items };

    ghost parts = { λ _. refl };

    fn target(&self) -> &Sink {
        &self.device
    }

    fn deliver(&mut self) -> io::Result<()> {
        self.flush()
    }
}

/// A conversion of the first bytes of two messages of 42 bytes, each of which closes its epoch,
/// read seven at a time.
struct Outcome {
    given: usize,
    then: ReadEnd,
    fails_at: usize,
    result: Result<Report, Fault>,
    failures: u64,
    /// The number of bytes of the file that were delivered, and of those that still wait.
    delivered: usize,
    kept: usize,
}

/// A failure of the reader after both messages.
const READER: Outcome = Outcome {
    given: 84,
    then: ReadEnd::Fails(ErrorKind::Other),
    fails_at: 0,
    result: Err(Fault::Read),
    failures: 0,
    delivered: 1_338,
    kept: 0,
};

/// A failure of the writer. It delivers before the first read, after each of 13, and twice at the
/// end.
const WRITER: Outcome = Outcome {
    then: ReadEnd::Ends,
    result: Err(Fault::Write),
    failures: 1,
    ..READER
};

static OUTCOMES: [Outcome; 9] = [
    READER,
    Outcome {
        given: 42,
        delivered: 1_236,
        ..READER
    },
    Outcome {
        given: 41,
        delivered: 0,
        ..READER
    },
    Outcome {
        fails_at: 1,
        delivered: 0,
        ..WRITER
    },
    // After the pieces that end the messages.
    Outcome {
        fails_at: 7,
        delivered: 0,
        kept: 1_236,
        ..WRITER
    },
    Outcome {
        fails_at: 13,
        delivered: 1_236,
        kept: 102,
        ..WRITER
    },
    Outcome {
        fails_at: 15,
        ..WRITER
    },
    Outcome {
        fails_at: 16,
        ..WRITER
    },
    Outcome {
        fails_at: 17,
        result: Ok(TWO),
        failures: 0,
        ..WRITER
    },
];

fn run(alloc: Global, outcome: &Outcome, writer: &mut Counted<Holding>) -> bool {
    let stream = stream_of(&[Frame::Full, Frame::Next]);
    let bytes = stream.get(..outcome.given).unwrap_or(&[]);
    let mut reader = Counted::new(PieceReader::new(bytes, &[7], outcome.then));
    convert(alloc, &OPTIONS, &mut reader, writer) == outcome.result
}

fn holds(alloc: Global, outcome: &Outcome) -> bool {
    let mut writer = Counted::new(Holding::new(alloc, outcome.fails_at));
    let has_ended = run(alloc, outcome, &mut writer);
    let has_failed = writer.failures() == outcome.failures;
    let device = writer.into_inner();
    let is_delivered = file().get(..outcome.delivered) == Some(device.delivered.as_slice());
    let is_kept = device.kept.len() == outcome.kept;
    drop(device);
    has_ended && has_failed && is_delivered && is_kept
}

fn all_hold(alloc: Global) -> bool {
    for outcome in &OUTCOMES {
        if !holds(alloc, outcome) {
            return false;
        }
    }
    true
}

/// Nothing waits after a failed read, and a failed delivery is a failure of the writer.
#[test]
fn what_waits_is_delivered(rt: HostRuntime) {
    assert!(rt; all_hold(rt.alloc()));
}
