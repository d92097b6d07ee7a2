//! The texts of a header: their rows, widths and names. RINEX 3.05, table A2.
ghost use Rattle.std.specs.Prelude.{◌≡◌, ◌<◌, ◌≤◌, length};
ghost use Rattle.rinex_file.specs.Texts.{field_name, fields_of, front_of, is_required, label_of, place_of, text_count};
ghost use Rattle.rinex_file.specs.Texts.{width_of};
ghost use Rattle.rinex_columns.specs.Limits.{content_columns, label_columns};

use HeaderField::*;
use std::fmt::{self, Debug, Formatter, Write};

/// A text of the header that the caller passes. `Debug` prints its name.
#[derive(Clone, Copy, PartialEq, Eq)]
pub enum HeaderField {
    /// Who ran the program, 20 columns of `PGM / RUN BY / DATE`.
    RunBy,
    /// When it ran, 20 columns of `PGM / RUN BY / DATE`.
    Date,
    /// A comment, 60 columns of `COMMENT`.
    Comment,
    /// The marker's name, 60 columns of `MARKER NAME`.
    Marker,
    /// The marker's number, 20 columns of `MARKER NUMBER`.
    MarkerNumber,
    /// The marker's type, 20 columns of `MARKER TYPE`.
    MarkerType,
    /// The observer, 20 columns of `OBSERVER / AGENCY`.
    Observer,
    /// The agency, 40 columns of `OBSERVER / AGENCY`.
    Agency,
    /// The receiver's number, 20 columns of `REC # / TYPE / VERS`.
    RecNumber,
    /// The receiver's type, 20 columns of `REC # / TYPE / VERS`.
    RecType,
    /// The receiver's version, 20 columns of `REC # / TYPE / VERS`.
    RecVersion,
    /// The antenna's number, 20 columns of `ANT # / TYPE`.
    AntNumber,
    /// The antenna's type, 20 columns of `ANT # / TYPE`.
    AntType,
}

/// A text: its name in [`Texts`](crate::Texts), its width in columns, and the row that begins with
/// it.
struct Field {
    name: &'static str,
    width: usize,
    row: Row,
}

/// A row of texts, which is there if some text in it isn't empty; or no row, without a label.
struct Row {
    /// The label, in columns 61 to 80.
    label: &'static [u8],
    /// The columns before the texts.
    front: &'static [u8],
    fields: &'static [HeaderField],
    /// Whether each header has it.
    is_required: bool,
}

/// Returns a row, or no row.
macro_rules! row {
    () => {
        row!(b"", b"", [], true)
    };
    ($label:expr, $front:expr, [$($field:ident),*], $is_required:expr) => {
        Row {
            label: $label,
            front: $front,
            fields: &[$($field),*],
            is_required: $is_required,
        }
    };
}

/// Passes the texts to a macro, in the order in which they are validated: what is given in brackets,
/// and then of each text its name here and in [`Texts`](crate::Texts), its width in columns, and the
/// row that begins with it, if there is one.
macro_rules! header_texts {
    ($then:ident $($given:tt)*) => {
        $then! {
            [$($given)*]
            RunBy run_by 20
                (b"PGM / RUN BY / DATE", b"rtcm2rinex          ", [RunBy, Date], true);
            Date date 20 ();
            Comment comment 60 (b"COMMENT", b"", [Comment], false);
            Marker marker 60 (b"MARKER NAME", b"", [Marker], true);
            MarkerNumber marker_number 20 (b"MARKER NUMBER", b"", [MarkerNumber], false);
            MarkerType marker_type 20 (b"MARKER TYPE", b"", [MarkerType], true);
            Observer observer 20 (b"OBSERVER / AGENCY", b"", [Observer, Agency], true);
            Agency agency 40 ();
            RecNumber rec_number 20
                (b"REC # / TYPE / VERS", b"", [RecNumber, RecType, RecVersion], true);
            RecType rec_type 20 ();
            RecVersion rec_version 20 ();
            AntNumber ant_number 20 (b"ANT # / TYPE", b"", [AntNumber, AntType], true);
            AntType ant_type 20 ();
        }
    };
}

pub(crate) use header_texts;

/// Returns the table of the texts.
macro_rules! fields {
    ([] $($field:ident $name:ident $width:literal ($($row:tt)*);)*) => {
        &[$(Field { name: stringify!($name), width: $width, row: row!($($row)*) }),*]
    };
}

const FIELDS: &[Field] = header_texts!(fields);

/// Returns all fields.
macro_rules! all_fields {
    ([] $($field:ident $name:ident $width:literal ($($row:tt)*);)*) => {
        [$($field),*]
    };
}

impl HeaderField {
    /// All fields, in the order in which they are validated.
    pub const ALL: [HeaderField; FIELDS.len()] = header_texts!(all_fields);

    /// Returns the width of the text, in columns: 20, 40 or 60.
    pub fn width(self) -> usize
        ensures value { result ≡ width_of self }
        ensures bound { result ≤ content_columns }
    {
        FIELDS[self.place()].width
    }

    /// Returns the name of the field in [`Texts`](crate::Texts).
    pub fn name(self) -> &'static str
        ensures value { result.now ≡ field_name self }
        ensures short { length result.now ≤ 13 }
    {
        FIELDS[self.place()].name
    }

    /// Returns the index among all fields, counted from 0.
    pub(crate) fn place(self) -> usize
        ensures place { result ≡ place_of self }
        ensures bound { result < text_count }
    {
        self as usize
    }

    /// Returns the label of the row that begins with this text, in columns 61 to 80.
    pub(crate) fn label(self) -> &'static [u8]
        ensures value { result.now ≡ label_of self }
        ensures bound { length result.now ≤ label_columns }
    {
        FIELDS[self.place()].row.label
    }

    /// Returns the columns before the texts of that row.
    pub(crate) fn front(self) -> &'static [u8]
        ensures value { result.now ≡ front_of self }
        ensures bound { length result.now ≤ 20 }
    {
        FIELDS[self.place()].row.front
    }

    /// Returns whether each header has that row.
    pub(crate) fn is_required(self) -> bool
        ensures { result ≡ is_required self }
    {
        FIELDS[self.place()].row.is_required
    }

    /// Returns the texts of that row, in order.
    pub(crate) fn fields(self) -> &'static [HeaderField]
        ensures value { result.now ≡ fields_of self }
        ensures bound { length result.now ≤ 3 }
    {
        FIELDS[self.place()].row.fields
    }
}

impl Debug for HeaderField {
    fn fmt<W: Write>(&self, f: &mut Formatter<W>) -> fmt::Result {
        f.write_str(self.name())
    }
}
