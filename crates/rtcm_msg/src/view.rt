//! Views of messages, which read the cells of an MSM one by one.
ghost use Rattle.std.specs.Prelude.{[], ◌≡◌, ◌*◌, ◌<◌, ◌≤◌, ◌^◌, ◌∷◌, length, slice_index, count_ones};
ghost use Rattle.std.specs.Prelude.{IfOk, IfSome, IfNone};
ghost use Rattle.rtcm_bits.specs.Bits.{bits_of};
ghost use Rattle.rtcm_msg.specs.Fields.{GivesViewed, cursor_at};
ghost use Rattle.rtcm_msg.specs.Msm.{IsHeader, satellite_mask_bits, most_pairs};
ghost use Rattle.rtcm_msg.specs.Decoding.{body_by, message_at, message_with};
ghost use Rattle.rtcm_msg.specs.inner.MessageBits.{HasBits};
ghost use Rattle.rtcm_msg.specs.inner.Viewed.{viewed_message};
ghost use Rattle.rtcm_msg.specs.Forms as forms;
ghost use Rattle.rtcm_msg.specs.inner.Forms as inner_forms;
ghost use Rattle.rtcm_msg.specs.Forms.{lock_codes, satellite_data, satellite_number, cell_data, cell_number};
ghost use Rattle.rtcm_msg.specs.Forms.{IsMsm, IsSatelliteData, IsCellData};
ghost use Rattle.rtcm_msg.specs.Numbers.{message_number};
ghost use Rattle.rtcm_msg.specs.Entries.{IsEntry, entries, entry_in};
ghost use Rattle.rtcm_msg.specs.Encoding.{IsMessage};
ghost use Rattle.rtcm_msg.specs.Decoding as decoding;
ghost use Rattle.rtcm_msg.specs.declared.message.Message.TheVariants as messages;

use crate::data::{Cell, Satellite};
use crate::entry::Entry;
use crate::fault::MsgFault;
use crate::field::end_of_data;
use crate::header::{Masks, MsmHeader, read_head};
use crate::layout::LastBits;
use crate::message::{Message, read_set};
use crate::msm::msm_of;
use crate::number::{Kind, MsmSet, message_number};
use crate::pairs::{CellsLeft, Pair, split_cells};
use crate::station::{Station, view_station};
use gnss_system::System;
use rtcm_bits::{LONGEST_MESSAGE, number_at};
use std::marker::Model;

/// The layout and precision of an MSM. Its number is the last digit of the message numbers.
#[derive(Clone, Copy, PartialEq)]
pub enum Form {
    /// MSM4, as 1074 of GPS.
    Msm4 = 4,
    /// MSM5, as 1075: the cells of MSM4 with phase range rates.
    Msm5 = 5,
    /// MSM6, as 1076: the cells of MSM7 without phase range rates.
    Msm6 = 6,
    /// MSM7, as 1077.
    Msm7 = 7,
}

impl Form {
    /// Returns whether the cells have the finer units and the wider fields of MSM6 and MSM7.
    #[inline(always)]
    pub fn is_fine(self) -> bool
        ensures { result ≡ forms.is_fine self }
    {
        matches!(self, Form::Msm6 | Form::Msm7)
    }

    /// Returns whether there are phase range rates, and extended satellite information.
    #[inline(always)]
    pub fn has_rates(self) -> bool
        ensures { result ≡ forms.has_rates self }
    {
        matches!(self, Form::Msm5 | Form::Msm7)
    }
}

/// Returns the form whose message numbers end with `F`, MSM7 for any other number. A function with
/// the form as a const parameter is compiled for it.
#[inline(always)]
pub fn form_as<const F: usize>() -> Form
    ensures { result ≡ inner_forms.form_as F }
{
    match F {
        4 => Form::Msm4,
        5 => Form::Msm5,
        6 => Form::Msm6,
        _ => Form::Msm7,
    }
}

/// The data of a message's satellites and cells.
#[derive(Clone, Copy)]
pub(crate) enum Data<'a> {
    /// The bytes of a message, the first bit of the satellites' data, and the cells' last bits.
    Bits(&'a [u8], usize, LastBits),
    /// Packed numbers, one for each satellite and one for each cell.
    Packed(&'a [u128], &'a [u128]),
}

/// A view of an MSM whose header and masks are read. The data of its satellites and cells are read
/// one by one.
#[derive(Drop)]
pub struct MsmView<'a> {
    /// The layout and precision.
    pub(crate) form: Form,
    /// The satellite system.
    pub(crate) system: System,
    /// The header fields.
    pub(crate) header: MsmHeader,
    /// The masks.
    pub(crate) masks: Masks,
    /// The number of satellites.
    pub(crate) satellites: usize,
    /// The number of cells.
    pub(crate) cells: usize,
    /// The data of the satellites and cells.
    pub(crate) rows: Data<'a>,
}

impl<'a> Model for MsmView<'a> {
    ghost use Rattle.rtcm_msg.specs.inner.Views.{AreDataOf, satellite_rows, cell_rows};
    ghost use Rattle.rtcm_msg.specs.Forms.{FormedMsm, IsMsm, msm_of_parts};

    ghost Value = { FormedMsm };

    ghost view = { λ v. msm_of_parts v.form v.system v.header v.masks
        (satellite_rows v.form v.satellites v.rows) (cell_rows v.form v.cells v.rows) };

    ghost invariant = { λ v. IsMsm (msm_of_parts v.form v.system v.header v.masks
        (satellite_rows v.form v.satellites v.rows) (cell_rows v.form v.cells v.rows))
        × AreDataOf v.form v.satellites v.cells v.rows };
}

impl<'a> MsmView<'a> {
    /// Returns the layout and precision.
    pub fn form(&self) -> Form
        ensures form { result ≡ self.now.form }
        ensures value { IsMsm self.now }
    {
        self.form
    }

    /// Returns the satellite system.
    pub fn system(&self) -> System
        ensures { result ≡ self.now.msm.system }
    {
        self.system
    }

    /// Returns the message number, DF002.
    pub fn number(&self) -> u16
        ensures value { result ≡ message_number self.now.form self.now.msm.system }
        ensures bound { result < 2 ^ 12 }
    {
        message_number(self.form, self.system)
    }

    /// Returns the header fields.
    pub fn header(&self) -> MsmHeader
        ensures value { result ≡ self.now.msm.header }
        ensures in_range { IsHeader self.now.msm.system result }
    {
        self.header
    }

    /// Returns the masks: the satellites, the signals, and the pairs of both that have a cell.
    pub fn masks(&self) -> Masks
        ensures { result ≡ self.now.msm.sets }
    {
        self.masks
    }

    /// Returns the number of satellites, at most 64.
    pub fn satellites(&self) -> usize
        ensures count { result ≡ length self.now.msm.satellites }
        ensures set { result ≡ count_ones self.now.msm.sets.satellites }
        ensures few { result ≤ satellite_mask_bits }
    {
        self.satellites
    }

    /// Returns the number of cells, at most 64.
    pub fn cells(&self) -> usize
        ensures count { result ≡ length self.now.msm.cells }
        ensures set { result ≡ count_ones self.now.msm.sets.cells }
        ensures few { result ≤ most_pairs }
    {
        self.cells
    }

    /// Returns the data of satellite `i`, counted from 0 in rising order of the IDs. Code that is
    /// given a constant form is compiled for it.
    #[inline(always)]
    pub(crate) fn satellite(&self, form: Form, i: usize) -> Satellite
        requires there { i < length self.now.msm.satellites }
        requires form { form ≡ self.now.form }
        ensures value { result ≡ satellite_data form (slice_index self.now.msm.satellites i) }
        ensures in_range { IsSatelliteData form result }
        ensures same { satellite_number form result ≡ slice_index self.now.msm.satellites i }
    {
        match &self.rows {
            Data::Bits(bytes, place, _) => form.satellite_in(bytes, self.satellites, *place, i),
            Data::Packed(satellites, _) => form.satellite_of(satellites[i] as u64),
        }
    }

    /// Returns the data of cell `i`, counted from 0 in the order of the cell mask.
    #[inline(always)]
    pub(crate) fn cell(&self, form: Form, i: usize) -> Cell
        requires there { i < length self.now.msm.cells }
        requires form { form ≡ self.now.form }
        ensures value { result ≡ cell_data form (slice_index self.now.msm.cells i) }
        ensures in_range { IsCellData form result }
        ensures same { cell_number form result ≡ slice_index self.now.msm.cells i }
    {
        match &self.rows {
            Data::Bits(bytes, _, cells) => form.cell_in(bytes, cells, i),
            Data::Packed(_, cells) => form.cell_of(cells[i]),
        }
    }

    /// Reads the data of satellite `i`.
    #[inline(never)]
    pub(crate) fn read_satellite(&self, i: usize) -> Satellite
        requires { i < length self.now.msm.satellites }
        ensures { result ≡ satellite_data self.now.form (slice_index self.now.msm.satellites i) }
    {
        self.satellite(self.form(), i)
    }

    /// Reads the data of satellite `i` of a message in the form `F`, for which it is compiled.
    #[inline(never)]
    fn read_satellite_in<const F: usize>(&self, i: usize) -> Satellite
        requires form { inner_forms.form_as F ≡ self.now.form }
        requires there { i < length self.now.msm.satellites }
        ensures { result ≡ satellite_data self.now.form (slice_index self.now.msm.satellites i) }
    {
        self.satellite(form_as::<F>(), i)
    }

    /// Returns the entry of cell `i`, which is of the satellite and the signal of `pair`.
    #[inline(always)]
    #[tactic(auto, using(crate::proofs::FormLaws::satellite_in_range))]
    pub(crate) fn entry(&self, form: Form, pair: Pair, satellite: &Satellite, i: usize) -> Entry
        requires form { form ≡ self.now.form }
        requires satellite { satellite.now ≡ satellite_data self.now.form (slice_index self.now.msm.satellites pair.index) }
        requires cell { i < length self.now.msm.cells }
        ensures value { result ≡ entry_in self.now.form self.now.msm (pair, slice_index self.now.msm.cells i) }
        ensures bounds { IsEntry (lock_codes self.now.form) result }
    {
        form.entry_of(pair, satellite, &self.cell(form, i))
    }

    /// Returns an iterator over the cells, in the order of the cell mask.
    pub fn entries(&self) -> Entries<'_>
        ensures all { result ≡ record { form = self.now.form; left = entries (messages.Msm self.now) } }
        ensures few { length result.left ≤ most_pairs }
    {
        // Brings the number of cells into the proof.
        let _ = self.cells();
        Entries {
            view: self,
            cells: CellsLeft::of(&self.masks()),
            index: self.satellites(),
            cached: Satellite::default(),
        }
    }
}

/// Iterator over the cells of an MSM, read one by one in the order of the cell mask.
#[derive(Drop)]
pub struct Entries<'a> {
    /// The message.
    view: &'a MsmView<'a>,
    /// The cells that are left.
    cells: CellsLeft,
    /// The index of the satellite whose data were read last, or the number of satellites.
    index: usize,
    /// The data of that satellite.
    cached: Satellite,
}

impl<'a> Model for Entries<'a> {
    ghost use Rattle.rtcm_msg.specs.inner.ValueCounts.{AreCells, entries_left};
    ghost use Rattle.rtcm_msg.specs.inner.Viewed.{Unread, IsCached};

    ghost Value = { Unread };

    ghost view = { λ e. record { form = e.view.now.form; left = entries_left e.view.now e.cells } };

    ghost invariant = { λ e. AreCells e.view.now e.cells
        × IsCached e.view.now.form e.view.now.msm.satellites e.index e.cached };
}

impl<'a> Entries<'a> {
    /// Returns the next cell, or `None` after the last one.
    pub fn next(&mut self) -> Option<Entry>
        ensures some { IfSome result (λ e. (self.old.left ≡ e ∷ self.new.left) × IsEntry (lock_codes self.old.form) e) }
        ensures none { IfNone result ((self.old.left ≡ []) × (self.new.left ≡ [])) }
        ensures same { self.new.form ≡ self.old.form }
    {
        match self.view.form() {
            Form::Msm4 => self.next_in::<4>(),
            Form::Msm5 => self.next_in::<5>(),
            Form::Msm6 => self.next_in::<6>(),
            Form::Msm7 => self.next_in::<7>(),
        }
    }

    /// Returns the next cell of a message in the form `F`, as `next` does. A loop over the cells is
    /// faster if it is compiled for a form.
    #[inline(always)]
    pub fn next_in<const F: usize>(&mut self) -> Option<Entry>
        requires form { inner_forms.form_as F ≡ self.old.form }
        ensures some { IfSome result (λ e. (self.old.left ≡ e ∷ self.new.left) × IsEntry (lock_codes self.old.form) e) }
        ensures none { IfNone result ((self.old.left ≡ []) × (self.new.left ≡ [])) }
        ensures same { self.new.form ≡ self.old.form }
    {
        let (view, cells) = (self.view, self.cells);
        let (pair, pairs, left) = split_cells(cells.pairs, view.masks().cells(), cells.left)?;
        // Brings the numbers of satellites and cells into the proof.
        let _ = (view.satellites(), view.cells());
        let satellite = if pair.index == self.index {
            self.cached
        } else {
            view.read_satellite_in::<F>(pair.index)
        };
        let entry = view.entry(form_as::<F>(), pair, &satellite, cells.next);
        self.cells.pairs = pairs;
        self.cells.left = left;
        self.cells.next += 1;
        self.index = pair.index;
        self.cached = satellite;
        Some(entry)
    }
}

/// A view of a message of RTCM 10403.3.
#[derive(Drop)]
pub enum View<'a> {
    /// Message 1005 or 1006.
    Station(Station),
    /// A multiple signal message.
    Msm(MsmView<'a>),
    /// A message of any other number, see `Message::Other`.
    Other {
        number: u16,
        set: Option<(u16, bool)>,
    },
}

impl<'a> View<'a> {
    /// Returns the decoded message.
    pub fn message(self) -> Message
        ensures { result ≡ viewed_message self.entry }
    {
        match self {
            View::Station(station) => Message::Station(station),
            View::Msm(msm) => Message::Msm(msm_of(&msm)),
            View::Other { number, set } => Message::Other { number, set },
        }
    }
}

/// Reads the header and masks of an MSM after its message number.
fn view_msm(bytes: &[u8], form: Form, system: System) -> Result<View<'_>, MsgFault>
    requires { HasBits bytes.now 12 }
    ensures { GivesViewed viewed_message result (decoding.formed_at form system (cursor_at (bits_of bytes.now) 12)) }
{
    let (header, masks, satellites_at) = read_head(system, bytes)?;
    let satellites = masks.satellites().count_ones() as usize;
    let cells = masks.cells().count_ones() as usize;
    let (satellite_widths, cell_widths) = form.widths();
    let (satellite_bits, cell_bits) = form.total_widths();
    let cells_at = end_of_data(
        bytes,
        satellite_widths,
        satellite_bits,
        satellites,
        satellites_at,
    )?;
    end_of_data(bytes, cell_widths, cell_bits, cells, cells_at)?;
    Ok(View::Msm(MsmView {
        form,
        system,
        header,
        masks,
        satellites,
        cells,
        rows: Data::Bits(bytes, satellites_at, form.last_bits(cells, cells_at)),
    }))
}

/// Reads a message of this kind after its message number.
fn view_body(kind: Kind, number: u16, bytes: &[u8]) -> Result<View<'_>, MsgFault>
    requires { HasBits bytes.now 12 }
    ensures { GivesViewed viewed_message result (body_by kind number (cursor_at (bits_of bytes.now) 12)) }
{
    match kind {
        Kind::Station(has_height) => view_station(bytes, has_height),
        Kind::Msm(form, system) => view_msm(bytes, form, system),
        Kind::Other => Ok(View::Other {
            number,
            set: read_set(number, bytes),
        }),
    }
}

/// Reads a message as `decode` does, but reads the data of satellites and cells of an MSM only when
/// the view is used.
///
/// # Errors
///
/// Those of `decode`.
pub fn look(bytes: &[u8]) -> Result<View<'_>, MsgFault>
    ensures exact { GivesViewed viewed_message result (message_at bytes.now) }
    ensures message { IfOk result (λ v. IsMessage (viewed_message v)) }
{
    look_in(&MsmSet::all(), bytes)
}

/// Reads a message as `look` does, but decodes only the MSMs of a set. An MSM that isn't in the set
/// gives `View::Other`, as a message of a number that `decode` does not decode.
///
/// # Errors
///
/// Those of `decode`, and none for an MSM that isn't in the set and has a message number.
pub fn look_in<'a>(set: &MsmSet, bytes: &'a [u8]) -> Result<View<'a>, MsgFault>
    ensures exact { GivesViewed viewed_message result (message_with set.now bytes.now) }
    ensures message { IfOk result (λ v. IsMessage (viewed_message v)) }
{
    // no field ends after the longest message
    let bytes = bytes.get(..LONGEST_MESSAGE).unwrap_or(bytes);
    if bytes.len() < 2 {
        return Err(MsgFault::Short(0));
    }
    let number = number_at(bytes, 0, 12) as u16;
    view_body(set.kind(number), number, bytes)
}
