//! Calls of counted devices, with their outcomes and the failures counted: one function owns the
//! reader or the writer, and one makes each call.
mod buffered;

use super::rtcm_bits_tests::STATION_FRAME;
use arrayvec::ArrayVec;
use buffered::Stumbles;
use devices::Counted;
use devices_for_tests::{PieceReader, ReadEnd, ShortWriter, WriteEnd};
use std::io;
use std::io::{ErrorKind, Read, Write};

/// The result of a call, with the number of failures counted by then.
type Answer = (Result<usize, ErrorKind>, u64);

fn answer(outcome: io::Result<usize>, failures: u64) -> Answer {
    match outcome {
        Ok(n) => (Ok(n), failures),
        Err(error) => (Err(error.kind()), failures),
    }
}

/// The size of a buffer for a read, and its result.
static READS: [(usize, Answer); 7] = [
    (10, (Ok(4), 0)),
    (10, (Ok(1), 0)),
    (8, (Ok(8), 0)),
    (10, (Ok(10), 0)),
    (3, (Ok(2), 0)),
    (7, (Err(ErrorKind::Interrupted), 1)),
    (7, (Err(ErrorKind::Interrupted), 2)),
];

/// Whether these reads have their results, the buffer begins with the last bytes, and its size is
/// that of the largest one.
fn are_answered(reader: &mut Counted<PieceReader>) -> bool {
    let mut buf = [0u8; 10];
    for (room, want) in &READS {
        let outcome = reader.read(&mut buf[..(*room).min(10)]);
        if answer(outcome, reader.failures()) != *want {
            return false;
        }
    }
    buf[0] == 0x0B && buf[1] == 0x98 && reader.widest() == 10
}

static PIECES: [usize; 3] = [4, 0, 25];

/// Whether the reads of the frame in pieces are answered, and the size of the last buffer of the
/// device.
fn are_counted() -> bool {
    let end = ReadEnd::Fails(ErrorKind::Interrupted);
    let mut reader = Counted::new(PieceReader::new(STATION_FRAME, &PIECES, end));
    reader.widest() == 0 && are_answered(&mut reader) && reader.into_inner().asked() == 7
}

#[test]
fn reads_are_counted(rt: HostRuntime) {
    assert!(rt; are_counted());
}

/// A reader that fails in its first call, and then has one byte in each.
#[derive(Drop)]
struct FailsFirst {
    calls: u8,
}

impl Read for FailsFirst {
    fn read(&mut self, buf: &mut [u8]) -> io::Result<usize> {
        self.calls = self.calls.saturating_add(1);
        match buf.first_mut() {
            Some(byte) if self.calls > 1 => {
                *byte = self.calls;
                Ok(1)
            }
            _ => Err(io::Error::from(ErrorKind::Interrupted)),
        }
    }
}

/// Whether the failure is returned, and the byte by the second read alone.
fn fails_first() -> bool {
    let mut reader = Counted::new(FailsFirst { calls: 0 });
    let mut buf = [0; 2];
    let first = reader.read(&mut buf).is_err() && buf == [0, 0] && reader.failures() == 1;
    let second = reader.read(&mut buf).is_ok() && buf == [2, 0] && reader.failures() == 1;
    first && second && reader.into_inner().calls == 2
}

#[test]
fn a_failed_read_is_not_repeated(rt: HostRuntime) {
    assert!(rt; fails_first());
}

/// A writer of at most eight bytes that accepts two of them at a time.
type Pairs = Counted<ShortWriter<ArrayVec<u8, 8>>>;

/// Bytes that are written, with the outcome.
enum Sent {
    /// By one write.
    Once(&'static [u8], Answer),
    /// Whether all are written, and the number of failures counted by then.
    Whole(&'static [u8], bool, u64),
}

fn is_sent(writer: &mut Pairs, sent: &Sent) -> bool {
    match sent {
        Sent::Once(bytes, want) => {
            let outcome = writer.write(bytes);
            answer(outcome, writer.failures()) == *want
        }
        Sent::Whole(bytes, is_whole, failures) => {
            writer.write_whole(bytes).is_ok() == *is_whole && writer.failures() == *failures
        }
    }
}

/// Whether the writes to a device have their outcomes, and it has accepted the first of these
/// bytes, their number being all that it accepts.
fn are_taken(total: usize, end: WriteEnd, sends: &[Sent]) -> bool {
    let mut writer = Counted::new(ShortWriter::new(ArrayVec::new(), 2, total, end));
    let mut are_sent = true;
    for sent in sends {
        are_sent = are_sent && is_sent(&mut writer, sent);
    }
    let taken = writer.into_inner().into_inner();
    are_sent && taken.as_slice() == &[1, 2, 3, 4, 5][..total.min(5)]
}

/// A device that fails once after three bytes is counted as failed from then on.
static THREE: [Sent; 5] = [
    Sent::Whole(&[1, 2, 3], true, 0),
    Sent::Once(&[4, 5, 6], (Err(ErrorKind::Other), 1)),
    Sent::Once(&[4, 5, 6], (Ok(0), 2)),
    Sent::Once(&[], (Ok(0), 2)),
    Sent::Whole(&[4, 5], false, 3),
];

#[test]
fn writes_are_counted(rt: HostRuntime) {
    assert!(rt; are_taken(3, WriteEnd::FailsOnce(ErrorKind::Other), &THREE));
}

/// Five bytes of seven are accepted, and one failure is counted.
static FIVE: [Sent; 1] = [Sent::Whole(&[1, 2, 3, 4, 5, 6, 7], false, 1)];

#[test]
fn whole_writes_stop_at_a_failure(rt: HostRuntime) {
    assert!(rt; are_taken(5, WriteEnd::TakesNone, &FIVE));
    assert!(rt; are_taken(5, WriteEnd::Fails(ErrorKind::Interrupted), &FIVE));
}

/// Whether a device that fails in its second call has its bytes and is flushed once.
fn is_flushed_once() -> bool {
    let device = Stumbles::new(2);
    let mut writer = Counted::new(ShortWriter::new(device, 9, 9, WriteEnd::TakesNone));
    let is_written = writer.write_whole(&[1, 2]).is_ok();
    let stops = writer.flush().is_err() && writer.failures() == 1;
    is_written && stops && writer.into_inner().into_inner().calls == 2
}

#[test]
fn flushes_reach_the_device(rt: HostRuntime) {
    assert!(rt; is_flushed_once());
}
