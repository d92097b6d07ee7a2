//! Devices that fail after each byte.
ghost use Rattle.std.specs.Prelude.{refl};

use super::scenario::{FAULTLESS, READ, Room, Setting, WRITE, ends, run};
use super::texts::{Text, front};
use devices::{Buffered, Counted, Deliver};
use devices_for_tests::{PieceReader, ReadEnd, ShortWriter, WriteEnd};
use rtcm_command::command::command;
use std::alloc::Global;
use std::io;
use std::io::{ErrorKind, Read, Sink, Write};
use std::process::Abort;

/// What fails while a command runs, and what is reported.
#[derive(Clone, Copy)]
pub enum Failing<'a> {
    /// For each byte of the output a writer fails after it, which accepts at most this number of
    /// bytes at once. It is reported, with the bytes before written.
    Writer(usize),
    /// For each byte of the input a reader fails after it. It is reported. Nothing is written
    /// before the last byte, and the output after it.
    Reader,
    /// A buffer's device accepts two bytes, which are the output, and then fails once. The writer
    /// is reported.
    Device,
    /// A writer accepts the output, and its flush fails. It is reported.
    Flush,
    /// A read fails after all of the input. Then the device of a buffer has the output.
    Sent,
    /// A reader has the input twice, and once between them a read returns this. The status and what
    /// is reported follow; nothing is read after the failure or the end.
    Stop(ReadEnd, u8, &'a str),
    /// The writer for faults fails. The stream ends so; the status follows. The output isn't
    /// compared.
    Faults(ReadEnd, u8),
}

/// The words, the input, the output, and what fails.
pub type Failure<'a> = (&'a [&'a str], Text<'a>, Text<'a>, Failing<'a>);

/// Asserts that each failure is reported as it should be.
pub fn assert_reported(rt: &impl Abort, alloc: Global, failures: &[Failure<'_>]) {
    for failure in failures {
        assert!(*rt; is_reported(alloc, failure));
    }
}

fn is_reported(alloc: Global, failure: &Failure<'_>) -> bool {
    let mut input = Vec::new(alloc);
    let mut output = Vec::new(alloc);
    failure.1.add_to(&mut input).is_ok()
        && failure.2.add_to(&mut output).is_ok()
        && reports(
            alloc,
            failure.0,
            input.as_slice(),
            output.as_slice(),
            &failure.3,
        )
}

fn reports(
    alloc: Global,
    words: &[&str],
    input: &[u8],
    output: &[u8],
    failing: &Failing<'_>,
) -> bool {
    match failing {
        Failing::Writer(most) => reports_writes(alloc, words, input, *most, output),
        Failing::Reader => reports_reads(alloc, words, input, output),
        Failing::Device => {
            let reader = PieceReader::new(input, &[], ReadEnd::Ends);
            let end = WriteEnd::FailsOnce(ErrorKind::Other);
            let device = ShortWriter::new(Vec::new(alloc), 1, 2, end);
            ends_buffered(alloc, words, reader, device, (1, output, WRITE.as_bytes()))
        }
        Failing::Flush => ends_unflushed(alloc, words, input, output),
        Failing::Sent => {
            let reader = PieceReader::new(input, &[5], ReadEnd::Fails(ErrorKind::Other));
            let most = usize::MAX;
            let device = ShortWriter::new(Vec::new(alloc), most, most, WriteEnd::TakesNone);
            ends_buffered(alloc, words, reader, device, (1, output, READ.as_bytes()))
        }
        Failing::Stop(stop, status, faults) => {
            let wanted = (*status, output, faults.as_bytes());
            stops(alloc, words, input, *stop, wanted)
        }
        Failing::Faults(end, status) => ends_unprinted(alloc, words, input, *end, *status),
    }
}

fn reports_writes(alloc: Global, words: &[&str], input: &[u8], most: usize, output: &[u8]) -> bool {
    let end = WriteEnd::Fails(ErrorKind::Other);
    let mut setting = Setting { words, ..FAULTLESS };
    for total in 0..output.len() {
        setting.room = Room { most, total, end };
        if !run(alloc, &setting, input, &[]).is(1, front(output, total), WRITE.as_bytes()) {
            return false;
        }
    }
    true
}

fn reports_reads(alloc: Global, words: &[&str], input: &[u8], output: &[u8]) -> bool {
    let setting = Setting {
        words,
        end: ReadEnd::Fails(ErrorKind::Other),
        ..FAULTLESS
    };
    for given in 0..=input.len() {
        let written = if given == input.len() { output } else { &[] };
        if !run(alloc, &setting, front(input, given), &[5]).is(1, written, READ.as_bytes()) {
            return false;
        }
    }
    true
}

/// Whether a command that writes to the buffer of a device has this status, output and faults.
fn ends_buffered(
    alloc: Global,
    words: &[&str],
    reader: PieceReader<'_>,
    device: ShortWriter<Vec<u8>>,
    wanted: (u8, &[u8], &[u8]),
) -> bool {
    let Ok(buffer) = Buffered::new(alloc, device) else {
        return false;
    };
    let mut reader = Counted::new(reader);
    let mut writer = Counted::new(buffer);
    let mut faults = Counted::new(Vec::new(alloc));
    let status = command(alloc, words, &mut reader, &mut writer, &mut faults);
    let taken = writer.into_inner().into_inner().into_inner();
    let faults = faults.into_inner();
    ends((status, taken.as_slice(), faults.as_slice()), wanted)
}

/// A writer that accepts all bytes, and that fails to pass them on.
#[derive(Drop)]
struct Unflushed {
    bytes: Vec<u8>,
    device: Sink,
}

impl Write for Unflushed {
    fn write(&mut self, buf: &[u8]) -> io::Result<usize> {
        self.bytes.write(buf)
    }

    fn flush(&mut self) -> io::Result<()> {
        self.deliver()
    }
}

impl Deliver for Unflushed {
    type Target = Sink;

    ghost target = { λ w. w.device };

    ghost waiting = { λ w. w.bytes.items };

    ghost parts = { λ _. refl };

    fn target(&self) -> &Sink {
        &self.device
    }

    fn deliver(&mut self) -> io::Result<()> {
        if self.bytes.is_empty() {
            Ok(())
        } else {
            Err(io::Error::from(ErrorKind::Other))
        }
    }
}

fn ends_unflushed(alloc: Global, words: &[&str], input: &[u8], output: &[u8]) -> bool {
    let mut reader = Counted::new(PieceReader::new(input, &[], ReadEnd::Ends));
    let mut writer = Counted::new(Unflushed {
        bytes: Vec::new(alloc),
        device: io::sink(),
    });
    let mut faults = Counted::new(Vec::new(alloc));
    let status = command(alloc, words, &mut reader, &mut writer, &mut faults);
    let taken = writer.into_inner().bytes;
    let faults = faults.into_inner();
    let found = (status, taken.as_slice(), faults.as_slice());
    ends(found, (1, output, WRITE.as_bytes()))
}

/// A reader that has the same piece twice, and fails or ends once between them.
#[derive(Drop)]
struct Resumes<'a> {
    piece: &'a [u8],
    stop: ReadEnd,
    reads: usize,
}

impl<'a> Read for Resumes<'a> {
    fn read(&mut self, buf: &mut [u8]) -> io::Result<usize> {
        self.reads = self.reads.saturating_add(1);
        match self.stop {
            ReadEnd::Fails(kind) if self.reads == 2 => Err(io::Error::from(kind)),
            ReadEnd::Ends if self.reads == 2 => Ok(0),
            _ => {
                let n = buf.len().min(self.piece.len());
                buf[..n].copy_from_slice(&self.piece[..n]);
                Ok(n)
            }
        }
    }
}

fn stops(
    alloc: Global,
    words: &[&str],
    piece: &[u8],
    stop: ReadEnd,
    wanted: (u8, &[u8], &[u8]),
) -> bool {
    let mut reader = Counted::new(Resumes {
        piece,
        stop,
        reads: 0,
    });
    let mut writer = Counted::new(Vec::new(alloc));
    let mut faults = Counted::new(Vec::new(alloc));
    let status = command(alloc, words, &mut reader, &mut writer, &mut faults);
    let reads = reader.into_inner().reads;
    let taken = writer.into_inner();
    let faults = faults.into_inner();
    let is = ends((status, taken.as_slice(), faults.as_slice()), wanted);
    drop(taken);
    drop(faults);
    is && reads == 2
}

fn ends_unprinted(alloc: Global, words: &[&str], input: &[u8], end: ReadEnd, wanted: u8) -> bool {
    let mut reader = Counted::new(PieceReader::new(input, &[], end));
    let mut writer = Counted::new(Vec::new(alloc));
    let end = WriteEnd::Fails(ErrorKind::Other);
    let mut faults = Counted::new(ShortWriter::new(Vec::new(alloc), 1, 0, end));
    let status = command(alloc, words, &mut reader, &mut writer, &mut faults);
    let is_empty = faults.into_inner().into_inner().is_empty();
    status == wanted && is_empty
}
