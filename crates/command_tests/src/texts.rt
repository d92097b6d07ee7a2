//! Streams, files and lines of the tests.
use super::messages::FINE;
use super::texts::ExpectedLine::Valid;
use arrayvec::ArrayVec;
use rtcm_bits::frame_of;
use std::alloc::AllocError;

/// Bytes of a stream or of an output.
#[derive(Clone, Copy)]
pub enum Text<'a> {
    Bytes(&'a [u8]),
    Lines(&'a str),
    /// These pieces, one after the other.
    Stream(&'a [Piece<'a>]),
    /// A file: the lines that replace those of `HEADER`, and the lines after the header.
    File(&'a [Replaced<'a>], &'a [ExpectedLine<'a>]),
}

/// A part of a stream.
#[derive(Clone, Copy)]
pub enum Piece<'a> {
    /// The frame of a message.
    Framed(&'a [u8]),
    /// The frame of `FINE` with other bytes at these places.
    Fine(&'a [(usize, u8)]),
    /// A byte, repeated.
    Repeated(u8, usize),
    /// This number of the first ones of these bytes, without a frame.
    Front(&'a [u8], usize),
}

/// The index of a line of `HEADER`, and the lines that replace it.
pub type Replaced<'a> = (usize, &'a [ExpectedLine<'a>]);

/// A line of a file. Lines of several files have names, so that a proof has each of them once.
#[derive(Clone, Copy)]
pub enum ExpectedLine<'a> {
    Valid(&'a str),
    /// The two lines of the epoch of `FINE`.
    Time,
    Values,
    /// Those of `FINE` a second later, after its epoch: the lock may have been lost.
    NextTime,
    NextValues,
    /// The two lines of the station values.
    Position,
    Above,
    /// The line before an event with these values.
    TwoLines,
}

/// The header lines of a file of the GPS signal 1C, without trailing blanks.
static HEADER: [[ExpectedLine; 1]; 14] = [
    [Valid("     3.05           OBSERVATION DATA    G                   RINEX VERSION / TYPE")],
    [Valid("rtcm2rinex                              20240204 000001 UTC PGM / RUN BY / DATE")],
    [Valid("                                                            MARKER NAME")],
    [Valid("GEODETIC                                                    MARKER TYPE")],
    [Valid("                                                            OBSERVER / AGENCY")],
    [Valid("                                                            REC # / TYPE / VERS")],
    [Valid("                                                            ANT # / TYPE")],
    [Valid("        0.0000        0.0000        0.0000                  APPROX POSITION XYZ")],
    [Valid("        0.0000        0.0000        0.0000                  ANTENNA: DELTA H/E/N")],
    [Valid("G    4 C1C L1C D1C S1C                                      SYS / # / OBS TYPES")],
    [Valid("DBHZ                                                        SIGNAL STRENGTH UNIT")],
    [Valid("  2024     2     4     0     0    1.0000000     GPS         TIME OF FIRST OBS")],
    [Valid("G                                                           SYS / PHASE SHIFT")],
    [Valid("                                                            END OF HEADER")],
];

/// The file of `FINE` alone.
pub const FINE_FILE: Text<'static> = Text::File(&[], &[ExpectedLine::Time, ExpectedLine::Values]);

/// The report of `FINE` alone in its frame.
pub const REPORT: &str =
    "bytes 42 skipped_bytes 0 frames 1 faulty 0 station 0 other 0 ignored 0 late 0 past 0 taken 1 \
     skipped 0 repeated 0 crowded 0 epochs 1\n";

impl<'a> ExpectedLine<'a> {
    fn text(&self) -> &'a str {
        match self {
            Valid(text) => text,
            ExpectedLine::Time => "> 2024 02 04 00 00  1.0000000  0  1",
            ExpectedLine::Values =>
                "G05  20985472.060 7 110279400.000 7      -525.504          45.063",
            ExpectedLine::NextTime => "> 2024 02 04 00 00  2.0000000  0  1",
            ExpectedLine::NextValues => {
                "G05  20985472.060 7 110279400.00017      -525.504          45.063"
            }
            ExpectedLine::TwoLines => ">                              4  2",
            ExpectedLine::Above => {
                "        1.5000        0.0000        0.0000                  ANTENNA: DELTA H/E/N"
            }
            ExpectedLine::Position => {
                "  1114104.5999 -4850729.7108  3975521.4643                  APPROX POSITION XYZ "
            }
        }
    }
}

impl<'a> Text<'a> {
    pub fn add_to(&self, bytes: &mut Vec<u8>) -> Result<(), AllocError> {
        match self {
            Text::Bytes(these) => bytes.extend_from_slice(these),
            Text::Lines(lines) => bytes.extend_from_slice(lines.as_bytes()),
            Text::Stream(pieces) => add_pieces(bytes, pieces),
            Text::File(replaced, lines) => add_file(bytes, replaced, lines),
        }
    }
}

fn add_pieces(stream: &mut Vec<u8>, pieces: &[Piece<'_>]) -> Result<(), AllocError> {
    for piece in pieces {
        match piece {
            Piece::Framed(message) => add_frame(stream, message)?,
            Piece::Fine(changes) => add_frame(stream, &fine(changes))?,
            Piece::Repeated(byte, count) => add_repeated(stream, *byte, *count)?,
            Piece::Front(bytes, length) => stream.extend_from_slice(front(bytes, *length))?,
        }
    }
    Ok(())
}

/// The first `length` bytes, or all.
pub fn front(bytes: &[u8], length: usize) -> &[u8] {
    &bytes[..length.min(bytes.len())]
}

/// `FINE` with other bytes at these places.
fn fine(changes: &[(usize, u8)]) -> [u8; 36] {
    let mut message = FINE;
    for (place, byte) in changes {
        if let Some(old) = message.get_mut(*place) {
            *old = *byte;
        }
    }
    message
}

/// The frame of a message that isn't too long for one.
fn add_frame(stream: &mut Vec<u8>, message: &[u8]) -> Result<(), AllocError> {
    let mut frame = ArrayVec::new();
    if message.len() <= 1023 {
        frame_of(message, &mut frame);
    }
    stream.extend_from_slice(frame.as_slice())
}

/// The header with some lines replaced by these, followed by the other lines.
fn add_file(
    text: &mut Vec<u8>,
    replaced: &[Replaced<'_>],
    lines: &[ExpectedLine<'_>],
) -> Result<(), AllocError> {
    for (place, line) in HEADER.iter().enumerate() {
        add_lines(text, replacement(replaced, place, line), 80)?;
    }
    add_lines(text, lines, 0)
}

/// The lines that replace one of the header, or else that line.
fn replacement<'a>(
    replaced: &[Replaced<'a>],
    place: usize,
    line: &'a [ExpectedLine<'a>],
) -> &'a [ExpectedLine<'a>] {
    for (other, lines) in replaced {
        if *other == place {
            return *lines;
        }
    }
    line
}

/// Lines that are padded to a number of columns, each with its line feed.
fn add_lines(
    text: &mut Vec<u8>,
    lines: &[ExpectedLine<'_>],
    columns: usize,
) -> Result<(), AllocError> {
    for line in lines {
        let line = line.text();
        text.extend_from_slice(line.as_bytes())?;
        add_repeated(text, b' ', columns.saturating_sub(line.len()))?;
        text.push(b'\n')?;
    }
    Ok(())
}

fn add_repeated(bytes: &mut Vec<u8>, byte: u8, count: usize) -> Result<(), AllocError> {
    for _ in 0..count {
        bytes.push(byte)?;
    }
    Ok(())
}
