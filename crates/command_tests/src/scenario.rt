//! The input of a command and its expected outcome.
//!
//! Values with a destructor, such as devices, make proofs slow. So one function makes and drops
//! them, and a test is a setting and a list of cases.
use super::texts::Text;
use devices::Counted;
use devices_for_tests::{PieceReader, ReadEnd, ShortWriter, WriteEnd};
use rtcm_command::command::command;
use std::alloc::{AllocError, Global};
use std::process::Abort;

/// The capacity of a writer: the largest numbers of bytes of a write and of all writes, and what
/// follows.
#[derive(Clone, Copy)]
pub struct Room {
    pub most: usize,
    pub total: usize,
    pub end: WriteEnd,
}

/// The fault of a reader, and that of a writer.
pub const READ: &str = "rtcm2rinex: Read\n";

pub const WRITE: &str = "rtcm2rinex: Write\n";

/// Capacity for every output.
pub const ROOM: Room = Room {
    most: usize::MAX,
    total: usize::MAX,
    end: WriteEnd::TakesNone,
};

/// The first words of the cases, the pieces in which each stream is read, how a stream ends, and
/// the capacity of the writer.
#[derive(Clone, Copy)]
pub struct Setting<'a> {
    pub words: &'a [&'a str],
    pub sizes: &'a [&'a [usize]],
    pub end: ReadEnd,
    pub room: Room,
}

/// Streams in one piece, and devices that don't fail.
pub const FAULTLESS: Setting<'static> = Setting {
    words: &[],
    sizes: &[&[]],
    end: ReadEnd::Ends,
    room: ROOM,
};

/// The words that follow those of the setting, the stream, and the expected outcome.
pub type Case<'a> = (&'a [&'a str], Text<'a>, Expected<'a>);

/// The expected outcome of a command.
#[derive(Clone, Copy)]
pub enum Expected<'a> {
    /// Success: this is written, and this is printed on standard error.
    Good(Text<'a>, &'a str),
    /// This is written, and then a fault is printed.
    Fault(Text<'a>, &'a str),
    /// Nothing is read, nothing written, and this fault is printed.
    Unread(&'a str),
    /// The words are refused with some text: nothing is read, and nothing written.
    Refused,
    /// The same with this fault.
    Invalid(&'a str),
}

/// The outcome of a command.
#[derive(Drop)]
pub struct Outcome {
    pub status: u8,
    pub output: Vec<u8>,
    pub faults: Vec<u8>,
    /// Whether the reader was called.
    pub has_read: bool,
}

impl Outcome {
    /// Whether it is exactly this.
    pub fn is(&self, status: u8, output: &[u8], faults: &[u8]) -> bool {
        let found = (self.status, self.output.as_slice(), self.faults.as_slice());
        ends(found, (status, output, faults))
    }
}

/// Whether a command has this status, this output and these faults.
pub fn ends(found: (u8, &[u8], &[u8]), wanted: (u8, &[u8], &[u8])) -> bool {
    found.0 == wanted.0 && found.1 == wanted.1 && found.2 == wanted.2
}

impl<'a> Expected<'a> {
    /// The expected output.
    pub fn output(&self) -> Text<'a> {
        match self {
            Expected::Good(output, _) | Expected::Fault(output, _) => *output,
            Expected::Unread(_) | Expected::Refused | Expected::Invalid(_) => Text::Lines(""),
        }
    }

    /// Whether it is this outcome, with this output.
    pub fn is(&self, outcome: &Outcome, output: &[u8]) -> bool {
        match self {
            Expected::Good(_, given) => outcome.is(0, output, given.as_bytes()),
            Expected::Fault(_, given) => outcome.is(1, output, given.as_bytes()),
            Expected::Unread(given) => outcome.is(1, &[], given.as_bytes()) && !outcome.has_read,
            Expected::Invalid(given) => outcome.is(2, &[], given.as_bytes()) && !outcome.has_read,
            Expected::Refused => {
                outcome.status == 2
                    && !outcome.has_read
                    && outcome.output.is_empty()
                    && !outcome.faults.is_empty()
            }
        }
    }
}

/// Whether a case has its expected outcome for all sizes of pieces.
fn is_right(alloc: Global, setting: &Setting<'_>, case: &Case<'_>) -> bool {
    let mut words = Vec::new(alloc);
    let mut input = Vec::new(alloc);
    let mut output = Vec::new(alloc);
    add_case(&mut words, &mut input, &mut output, setting.words, case).is_ok()
        && is_right_in_pieces(
            alloc,
            &Setting {
                words: words.as_slice(),
                ..*setting
            },
            input.as_slice(),
            &case.2,
            output.as_slice(),
        )
}

/// Adds the words, the stream and the expected output of a case. It has none of the lists, so that
/// no list is dropped where memory runs out.
fn add_case<'a>(
    words: &mut Vec<&'a str>,
    input: &mut Vec<u8>,
    output: &mut Vec<u8>,
    first: &[&'a str],
    case: &Case<'a>,
) -> Result<(), AllocError> {
    words.extend_from_slice(first)?;
    words.extend_from_slice(case.0)?;
    case.1.add_to(input)?;
    case.2.output().add_to(output)
}

/// Whether a command has its expected outcome in pieces of each of the sizes.
fn is_right_in_pieces(
    alloc: Global,
    setting: &Setting<'_>,
    input: &[u8],
    wanted: &Expected<'_>,
    output: &[u8],
) -> bool {
    for sizes in setting.sizes {
        if !wanted.is(&run(alloc, setting, input, *sizes), output) {
            return false;
        }
    }
    true
}

/// Runs the words of a setting over a stream in pieces of these sizes.
pub fn run(alloc: Global, setting: &Setting<'_>, input: &[u8], sizes: &[usize]) -> Outcome {
    let room = setting.room;
    let mut reader = Counted::new(PieceReader::new(input, sizes, setting.end));
    let mut writer = Counted::new(ShortWriter::new(
        Vec::new(alloc),
        room.most,
        room.total,
        room.end,
    ));
    let mut faults = Counted::new(Vec::new(alloc));
    let status = command(alloc, setting.words, &mut reader, &mut writer, &mut faults);
    Outcome {
        status,
        output: writer.into_inner().into_inner(),
        faults: faults.into_inner(),
        has_read: reader.widest() > 0,
    }
}

/// Asserts that each case has its expected outcome in this setting.
pub fn assert_come(rt: &impl Abort, alloc: Global, setting: &Setting<'_>, cases: &[Case<'_>]) {
    for case in cases {
        assert!(*rt; is_right(alloc, setting, case));
    }
}
