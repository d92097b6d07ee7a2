//! The texts of a header.
ghost use Rattle.std.specs.Prelude.{◌≡◌, ◌≤◌, [], length, set, replicate, IfOk, OnOk};
ghost use Rattle.std.specs.Result.{result_err};
ghost use Rattle.std.specs.List.{list_all};
ghost use Rattle.rinex_file.specs.Blanks.{trimmed};
ghost use Rattle.rinex_file.specs.Texts.{fields, text_of, text_count, place_of, fault_of, first_fault};
ghost use Rattle.rinex_file.specs.Texts.{trimmed_texts, has_row, has_text, is_printable};
ghost use Rattle.rinex_file.specs.inner.TextsOf.{lists_of};
ghost use Rattle.rinex_file.specs.FileValues.{AreTexts};
ghost use Rattle.rinex_columns.specs.Limits.{content_columns};

use crate::header::fault::HeadFault;
use crate::header::fields::{HeaderField, header_texts};
use crate::write::satellite::trimmed_len;
use arrayvec::ArrayVec;
use rinex_columns::{CONTENT_COLUMNS, put};
use std::marker::Model;

/// The texts of a header, as the caller passes them. Trailing blanks are ignored. Each is empty by
/// default.
#[derive(Clone, Copy, Default)]
pub struct Texts<'a> {
    /// Who ran the program, at most 20 bytes.
    pub run_by: &'a str,
    /// When it ran, at most 20 bytes; RINEX's form is `yyyymmdd hhmmss UTC`.
    pub date: &'a str,
    /// A comment, at most 60 bytes. Without one the header has no line for it.
    pub comment: &'a str,
    /// The marker's name, at most 60 bytes.
    pub marker: &'a str,
    /// The marker's number, at most 20 bytes. Without one the header has no line for it.
    pub marker_number: &'a str,
    /// The marker's type, at most 20 bytes, as `GEODETIC`.
    pub marker_type: &'a str,
    /// The observer's name, at most 20 bytes.
    pub observer: &'a str,
    /// The agency's name, at most 40 bytes.
    pub agency: &'a str,
    /// The receiver's serial number, at most 20 bytes.
    pub rec_number: &'a str,
    /// The receiver's type, at most 20 bytes.
    pub rec_type: &'a str,
    /// The version of the receiver's firmware, at most 20 bytes.
    pub rec_version: &'a str,
    /// The antenna's serial number, at most 20 bytes.
    pub ant_number: &'a str,
    /// The antenna's type, at most 20 bytes.
    pub ant_type: &'a str,
}

/// The texts of a header: each printable, within its columns, and without trailing blanks.
#[derive(Drop)]
pub struct HeaderTexts {
    texts: [ArrayVec<u8, CONTENT_COLUMNS>; HeaderField::ALL.len()],
}

impl Model for HeaderTexts {
    ghost use Rattle.std.specs.Prelude.{map};
    ghost use Rattle.rinex_file.specs.Texts.{HeaderLists};
    ghost use Rattle.rinex_file.specs.FileValues.{AreTexts};

    ghost Value = { HeaderLists };

    ghost view = { λ t. map (λ text. text.items) t.texts };

    ghost invariant = { λ t. AreTexts (map (λ text. text.items) t.texts) };
}

/// Returns whether all bytes are printable.
fn is_printable(text: &[u8]) -> bool
    ensures { result ≡ list_all is_printable text.now }
{
    text.iter().all(|b| *b >= 0x20 && *b <= 0x7E)
}

/// Returns the text of a field.
macro_rules! text_in {
    ([$texts:ident, $of:ident] $($field:ident $name:ident $width:literal ($($row:tt)*);)*) => {
        match $of {
            $(HeaderField::$field => $texts.$name,)*
        }
    };
}

impl<'a> Texts<'a> {
    /// Returns the text of a field.
    fn of(&self, field: HeaderField) -> &'a str
        ensures { result.now ≡ text_of (lists_of self.now) field }
    {
        header_texts!(text_in self, field)
    }
}

impl HeaderTexts {
    /// Returns the texts of a header, without trailing blanks.
    ///
    /// # Errors
    ///
    /// The fault of the first field that has one, in the order of [`Texts`]:
    /// [`HeadFault::NotPrintable`] if it has a byte outside 0x20 to 0x7E, otherwise
    /// [`HeadFault::TooLong`] if it has more bytes than columns.
    pub fn new(texts: &Texts) -> Result<HeaderTexts, HeadFault>
        ensures fault { result_err result ≡ first_fault (lists_of texts.now) fields }
        ensures texts { IfOk result (λ t. t ≡ trimmed_texts (lists_of texts.now)) }
    {
        let mut taken = HeaderTexts::blank();
        for field in &HeaderField::ALL {
            taken.set(*field, texts.of(*field).as_bytes())?;
        }
        taken.are_texts();
        Ok(taken)
    }

    /// Returns texts that are all empty.
    pub(crate) fn blank() -> HeaderTexts
        ensures { result ≡ replicate text_count [] }
    {
        let texts = Default::default();
        HeaderTexts { texts }
    }

    /// Sets the text of a field, without trailing blanks, or returns its fault.
    pub(crate) fn set(&mut self, field: HeaderField, text: &[u8]) -> Result<(), HeadFault>
        ensures fault { result_err result ≡ fault_of field text.now }
        ensures value { OnOk result (self.new ≡ set self.old (place_of field) (trimmed text.now)) }
    {
        if !is_printable(text) {
            return Err(HeadFault::NotPrintable(field));
        }
        let cut = &text[..trimmed_len(text)];
        if cut.len() > field.width() {
            return Err(HeadFault::TooLong(field));
        }
        let mut taken = ArrayVec::new();
        put(&mut taken, cut);
        self.texts[field.place()] = taken;
        Ok(())
    }

    /// Returns whether some text of a row isn't empty.
    fn has_text(&self, row: HeaderField) -> bool
        ensures { result ≡ has_text self.now row }
    {
        row.fields().iter().any(|field| self.text(*field).len() > 0)
    }

    /// Returns whether a row has a line.
    pub(crate) fn has_row(&self, row: HeaderField) -> bool
        ensures { result ≡ has_row self.now row }
    {
        row.is_required() || self.has_text(row)
    }

    /// Shows that each text is printable, within its columns, and has no trailing blank.
    pub(crate) fn are_texts(&self)
        ensures { AreTexts self.now }
    {
        // The prover knows the invariant of a type once a field is read.
        let _ = &self.texts;
    }

    /// Returns the bytes of a text, at most 60, without trailing blanks.
    pub fn text(&self, field: HeaderField) -> &[u8]
        ensures value { result.now ≡ text_of self.now field }
        ensures bound { length result.now ≤ content_columns }
    {
        self.texts[field.place()].as_slice()
    }
}
