//! The rows of a header in their order, each of one line or none: RINEX 3.05, table A2.
ghost use Rattle.std.specs.Prelude.{◌≡◌, ◌↔◌, ◌<◌, ◌≤◌, IsTrue, is_some, length};
ghost use Rattle.rinex_columns.specs.Limits.{label_columns};
ghost use Rattle.rinex_file.specs.Header.{line_with, row_label};
ghost use Rattle.rinex_file.specs.inner.Header.{row_at, row_count, first_types};

use crate::header::fields::HeaderField::{self, *};
use HeaderRow::*;
use gnss_system::System::{self, *};
use gnss_system::{SYSTEMS, systems};
use rinex_columns::{Line, labelled, read_labelled};

/// The content of the line of a row.
#[derive(Clone, Copy)]
pub enum HeaderRow {
    /// `RINEX VERSION / TYPE`.
    Version,
    /// The row of texts that begins with this one.
    Texts(HeaderField),
    /// `APPROX POSITION XYZ`.
    Position,
    /// `ANTENNA: DELTA H/E/N`.
    Delta,
    /// `SYS / # / OBS TYPES`: a line of a system's types, counted from 0.
    Types(System, usize),
    /// `SIGNAL STRENGTH UNIT`.
    StrengthUnit,
    /// `INTERVAL`.
    Interval,
    /// `TIME OF FIRST OBS`.
    First,
    /// `SYS / PHASE SHIFT`.
    Shift(System),
    /// `GLONASS SLOT / FRQ #`: a line of slots with a channel, counted from 0.
    Slots(usize),
    /// `GLONASS COD/PHS/BIS`.
    Biases,
    /// `END OF HEADER`.
    End,
}

impl HeaderRow {
    /// Returns the label, in columns 61 to 80.
    pub(crate) fn label(self) -> &'static [u8]
        ensures value { result.now ≡ row_label self }
        ensures bound { length result.now ≤ label_columns }
    {
        match self {
            Version => b"RINEX VERSION / TYPE",
            Texts(row) => row.label(),
            Position => b"APPROX POSITION XYZ",
            Delta => b"ANTENNA: DELTA H/E/N",
            Types(_, _) => b"SYS / # / OBS TYPES",
            StrengthUnit => b"SIGNAL STRENGTH UNIT",
            Interval => b"INTERVAL",
            First => b"TIME OF FIRST OBS",
            Shift(_) => b"SYS / PHASE SHIFT",
            Slots(_) => b"GLONASS SLOT / FRQ #",
            Biases => b"GLONASS COD/PHS/BIS",
            End => b"END OF HEADER",
        }
    }

    /// Returns the line with this content.
    pub(crate) fn line(self, content: &[u8]) -> Line
        requires { length content.now ≤ 900 }
        ensures { result.items ≡ line_with self content.now }
    {
        labelled(content, self.label())
    }

    /// Reads the line with this content, or returns None for any other line.
    pub(crate) fn read(self, line: &[u8], content: &[u8]) -> Option<()>
        requires { length content.now ≤ 900 }
        ensures { IsTrue (is_some result) ↔ (line.now ≡ line_with self content.now) }
    {
        read_labelled(line, content, self.label())
    }
}

// The rows of a file of these systems in order. The signals of a system have at most six lines of
// types, and the slots of GLONASS at most four.
macro_rules! rows {
    ([] $($index:literal $system:ident $value:ident $row:ident),*) => {
        [
            Version,
            Texts(RunBy), Texts(Comment), Texts(Marker), Texts(MarkerNumber), Texts(MarkerType),
            Texts(Observer), Texts(RecNumber), Texts(AntNumber),
            Position, Delta,
            $(
                Types($system, 0), Types($system, 1), Types($system, 2),
                Types($system, 3), Types($system, 4), Types($system, 5),
            )*
            StrengthUnit, Interval, First,
            $(Shift($system),)*
            Slots(0), Slots(1), Slots(2), Slots(3),
            Biases, End,
        ]
    };
}

/// The rows in order.
pub(crate) const ROWS: &[HeaderRow] = &systems!(rows);

/// The number of rows.
pub(crate) const ROW_COUNT: usize = ROWS.len();

/// The number of rows of a system's types.
const TYPE_ROWS: usize = 6;

/// The number of rows before those of types: those from there on are of types and phase shifts of
/// each system, four of slots, and five others.
const FIRST_TYPES: usize = ROW_COUNT - (TYPE_ROWS + 1) * SYSTEMS.len() - 9;

/// Returns the row at an index, counted from 0.
pub(crate) fn row_at(place: usize) -> HeaderRow
    requires { place < row_count }
    ensures { result ≡ row_at place }
{
    ROWS[place]
}

/// Returns the index of the first row of a system's types.
pub(crate) fn first_types(system: System) -> usize
    ensures { result ≡ first_types system }
{
    FIRST_TYPES + TYPE_ROWS * system as usize
}
