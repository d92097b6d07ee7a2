//! Scripts: calls of a converter over devices that can fail, and their expected outcomes.
//!
//! Values with a destructor, such as a converter or a device, make proofs slow. So one function
//! makes and drops each of them, and a test is a table of scripts.
use super::by_definition::Text;
use super::{Frame, bytes_of, file};
use crate::rinex_file_tests::TEXTS;
use devices::{Counted, Deliver};
use devices_for_tests::{PieceReader, ReadEnd, ShortWriter, WriteEnd};
use gnss_obs::Plan;
use gnss_system::System;
use obs_epoch::Choice;
use rinex_file::HeaderTexts;
use rtcm_convert::{Converter, Fault, Report, Setup, convert_stream};
use rtcm_msg::Forms;
use rtcm_scan::MOST_BYTES;
use std::alloc::{AllocError, Global};
use std::io::Read;

/// The parts in which the setups of the tests differ.
#[derive(Clone, Copy)]
pub struct Options {
    pub limit: u64,
    pub week: u32,
    pub station: Option<u16>,
}

/// Every station from week 2300 on, without a limit of its own.
pub const OPTIONS: Options = Options {
    limit: MOST_BYTES,
    week: 2_300,
    station: None,
};

/// A call of a converter, with its result.
pub enum Call {
    /// Feeds the bytes of the stream from one offset to another.
    Feed(usize, usize, Result<(), Fault>),
    /// Reads to the end.
    Run(Result<Report, Fault>),
    Finish(Result<Report, Fault>),
    /// The numbers of bytes held, of all looks, and of those at one byte.
    Looks(usize, u64, u16),
    /// The numbers of cells of GPS and of Galileo that are held, and of lock records.
    Kept(usize, usize, usize),
}

/// The calls that make a file.
pub enum Way {
    /// A converter, by these calls.
    Calls(&'static [Call]),
    Stream(Result<Report, Fault>),
    /// In pieces, of the bytes of the stream that the reader has.
    Pieces(Result<Report, Fault>),
}

/// The calls, the devices, and the expected outcome.
pub struct Script {
    pub options: Options,
    /// The start of the stream, which zeros follow.
    pub frames: &'static [Frame],
    /// The number of bytes of the stream that the reader has, and what it does then.
    pub given: usize,
    pub then: ReadEnd,
    /// The number of bytes that the writer accepts, seven at a time, and what it does then.
    pub room: usize,
    pub full: WriteEnd,
    pub way: Way,
    /// The fault of the setup, if there is no converter.
    pub fault: Option<Fault>,
    /// The failures of reader and writer.
    pub failures: (u64, u64),
    /// The size of the last buffer of a read, and of the largest one.
    pub asked: (usize, usize),
    /// The number of bytes of the file that are written.
    pub sent: usize,
}

/// No call, and no failure of a device.
pub const IDLE: Script = Script {
    options: OPTIONS,
    frames: &[Frame::Full],
    given: 0,
    then: ReadEnd::Ends,
    room: 1_500,
    full: WriteEnd::TakesNone,
    way: Way::Calls(&[]),
    fault: None,
    failures: (0, 0),
    asked: (0, 0),
    sent: 0,
};

type Reader<'a> = Counted<PieceReader<'a>>;

type Writer = Counted<ShortWriter<Text>>;

/// A writer that accepts a number of bytes in a write and in all.
pub fn writer(each: usize, all: usize, full: WriteEnd) -> Writer {
    Counted::new(ShortWriter::new(Text::new(), each, all, full))
}

/// Whether each script has its outcome, in pieces of one byte, of two, and whole.
pub fn all_hold(alloc: Global, scripts: &[Script]) -> bool {
    for script in scripts {
        if !(holds(alloc, script, 1) && holds(alloc, script, 2) && holds(alloc, script, 1_000)) {
            return false;
        }
    }
    true
}

/// Makes the devices, runs the script over them, and drops them.
fn holds(alloc: Global, script: &Script, size: usize) -> bool {
    let stream = stream_of(script.frames);
    let sizes = [size];
    let bytes = stream.get(..script.given).unwrap_or(&[]);
    let mut reader = Counted::new(PieceReader::new(bytes, &sizes, script.then));
    let mut writer = writer(7, script.room, script.full);
    let goes = goes(alloc, script, &stream, size, &mut reader, &mut writer);
    let has_read = has_read(reader, script);
    let has_written = has_written(writer, script);
    goes && has_read && has_written
}

/// These bytes, one after the other, followed by zeros.
pub fn stream_of(frames: &[Frame]) -> [u8; 1_000] {
    let mut stream = [0; 1_000];
    let mut from = 0usize;
    for frame in frames {
        let bytes = bytes_of(*frame);
        let to = from.saturating_add(bytes.len());
        if let Some(room) = stream.get_mut(from..to) {
            room.copy_from_slice(bytes);
        }
        from = to;
    }
    stream
}

/// Whether a reader has the failures and the sizes of buffers of a script.
fn has_read(reader: Reader<'_>, script: &Script) -> bool {
    let has_failed = reader.failures() == script.failures.0;
    let is_widest = reader.widest() == script.asked.1;
    let device = reader.into_inner();
    has_failed && is_widest && device.asked() == script.asked.0
}

/// Whether a writer has the failures of a script, and its bytes are as many of the file.
fn has_written(writer: Writer, script: &Script) -> bool {
    let has_failed = writer.failures() == script.failures.1;
    let text = writer.into_inner().into_inner();
    let is_sent = file().get(..script.sent) == Some(text.as_slice());
    drop(text);
    has_failed && is_sent
}

fn goes(
    alloc: Global,
    script: &Script,
    stream: &[u8],
    size: usize,
    reader: &mut Reader<'_>,
    writer: &mut Writer,
) -> bool {
    match &script.way {
        Way::Calls(calls) => follows(alloc, script, calls, stream, size, reader, writer),
        Way::Stream(want) => convert(alloc, &script.options, reader, writer) == *want,
        Way::Pieces(want) => {
            let bytes = stream.get(..script.given).unwrap_or(&[]);
            pieces(alloc, &script.options, bytes, size, writer) == *want
        }
    }
}

/// Makes a converter, and runs the calls.
fn follows(
    alloc: Global,
    script: &Script,
    calls: &[Call],
    stream: &[u8],
    size: usize,
    reader: &mut Reader<'_>,
    writer: &mut Writer,
) -> bool {
    match converter(alloc, &script.options) {
        Ok(mut converter) => {
            let mut are_right = true;
            for call in calls {
                are_right = are_right && takes(&mut converter, call, stream, size, reader, writer);
            }
            drop(converter);
            are_right
        }
        Err(fault) => script.fault == Some(fault),
    }
}

/// Whether a call has its result.
fn takes<R: Read, W: Deliver>(
    converter: &mut Converter,
    call: &Call,
    stream: &[u8],
    size: usize,
    reader: &mut Counted<R>,
    writer: &mut Counted<W>,
) -> bool {
    match call {
        Call::Feed(from, to, want) => {
            let bytes = stream.get(*from..*to).unwrap_or(&[]);
            feed(converter, bytes, size, writer) == *want
        }
        Call::Run(want) => converter.run(reader, writer) == *want,
        Call::Finish(want) => converter.finish(writer) == *want,
        Call::Looks(held, examined, most) => looks(converter) == (*held, *examined, *most),
        Call::Kept(gps, galileo, locks) => {
            converter.cells(System::Gps) == *gps
                && converter.cells(System::Galileo) == *galileo
                && converter.locks() == *locks
        }
    }
}

/// Feeds at least one piece.
pub fn feed<W: Deliver>(
    converter: &mut Converter,
    bytes: &[u8],
    size: usize,
    writer: &mut Counted<W>,
) -> Result<(), Fault> {
    if bytes.is_empty() {
        return converter.feed(bytes, writer);
    }
    for piece in bytes.chunks(size.max(1)) {
        converter.feed(piece, writer)?;
    }
    Ok(())
}

/// The bytes held, and the looks in all and at one byte.
pub fn looks(converter: &Converter) -> (usize, u64, u16) {
    (converter.held(), converter.examined(), converter.most())
}

/// A converter of this setup.
pub fn converter(alloc: Global, options: &Options) -> Result<Converter, Fault> {
    Converter::new(alloc, setup(alloc, options)?)
}

pub fn convert<R: Read, W: Deliver>(
    alloc: Global,
    options: &Options,
    reader: &mut Counted<R>,
    writer: &mut Counted<W>,
) -> Result<Report, Fault> {
    convert_stream(alloc, setup(alloc, options)?, reader, writer)
}

/// The report of these bytes, of which MSMs in these forms are converted and these epochs written.
pub fn report_of(
    alloc: Global,
    bytes: &[u8],
    forms: Forms,
    choice: Choice,
) -> Result<Report, Fault> {
    let mut reader = Counted::new(PieceReader::new(bytes, &[1], ReadEnd::Ends));
    let mut writer = writer(7, 1_500, WriteEnd::TakesNone);
    let report = match setup(alloc, &OPTIONS) {
        Ok(mut setup) => {
            setup.forms = forms;
            setup.gatherer.choice = choice;
            convert_stream(alloc, setup, &mut reader, &mut writer)
        }
        Err(fault) => Err(fault),
    };
    drop(reader);
    drop(writer);
    report
}

fn pieces<W: Deliver>(
    alloc: Global,
    options: &Options,
    bytes: &[u8],
    size: usize,
    writer: &mut Counted<W>,
) -> Result<Report, Fault> {
    let mut pieces = Vec::new(alloc);
    let made = if cut(alloc, bytes, size, &mut pieces).is_err() {
        Err(Fault::Memory)
    } else {
        match setup(alloc, options) {
            Ok(setup) => take_pieces(alloc, setup, pieces.as_slice(), writer),
            Err(fault) => Err(fault),
        }
    };
    drop(pieces);
    made
}

fn take_pieces<W: Deliver>(
    alloc: Global,
    setup: Setup,
    pieces: &[Vec<u8>],
    writer: &mut Counted<W>,
) -> Result<Report, Fault> {
    let mut converter = Converter::new(alloc, setup)?;
    let made = converter.take_pieces(pieces, writer);
    drop(converter);
    made
}

fn cut(
    alloc: Global,
    bytes: &[u8],
    size: usize,
    pieces: &mut Vec<Vec<u8>>,
) -> Result<(), AllocError> {
    for piece in bytes.chunks(size.max(1)) {
        pieces.push(piece.to_vec(alloc)?)?;
    }
    Ok(())
}

/// Signal 1C of GPS. If there is no memory for the plan, the fault is `Memory`.
fn setup(alloc: Global, options: &Options) -> Result<Setup, Fault> {
    let Ok(texts) = HeaderTexts::new(&TEXTS) else {
        return Err(Fault::Memory);
    };
    match Plan::parse(alloc, "1C", "none") {
        Ok(plan) => {
            let mut setup = Setup::new(plan, texts, options.week);
            setup.gatherer.station = options.station;
            setup.limit = options.limit;
            Ok(setup)
        }
        Err(_) => Err(Fault::Memory),
    }
}
