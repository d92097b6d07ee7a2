//! Values of MSMs, with the fields of each satellite and of each cell packed in one number.
ghost use Rattle.std.specs.Prelude.{◌≡◌, ◌<◌, ◌^◌, ◌++◌, ◌≤◌, All, map, length, slice_index, count_ones};
ghost use Rattle.std.specs.Prelude.{Some, None, IfOk, IfErr};
ghost use Rattle.rtcm_msg.specs.Msm.{IsHeader, most_pairs};
ghost use Rattle.rtcm_msg.specs.inner.Refusals.{data_refusal};
ghost use Rattle.rtcm_msg.specs.Columns.{EachBelow};
ghost use Rattle.rtcm_msg.specs.Forms.{IsMsm, IsSatelliteData, IsCellData, msm_of_parts};
ghost use Rattle.rtcm_msg.specs.Forms.{satellite_number, satellite_data, cell_number, cell_data};
ghost use Rattle.rtcm_msg.specs.inner.Forms.{satellite_fault, cell_fault};
ghost use Rattle.rtcm_msg.specs.Numbers.{message_number};
ghost use Rattle.rtcm_msg.specs.Encoding.{form_bits};

use crate::bounds::HasFields;
use crate::data::{Cell, Satellite};
use crate::fault::ValueFault;
use crate::header::{MOST_PAIRS, Masks, MsmHeader, header_fault, is_time};
use crate::number::message_number;
use crate::view::{Data, Form, MsmView};
use crate::writing::{write_columns, write_head};
use arrayvec::ArrayVec;
use gnss_system::System;
use rtcm_bits::BitWriter;
use std::marker::Model;

/// A multiple signal message: a form, a header, the satellites and signals of the masks, data for
/// each satellite, and a cell for each pair in the cell mask.
#[derive(Drop)]
pub struct Msm {
    /// The layout and precision.
    form: Form,
    /// The satellite system.
    system: System,
    /// The header fields.
    header: MsmHeader,
    /// The masks.
    masks: Masks,
    /// The fields of each satellite, packed into one number.
    satellites: ArrayVec<u128, MOST_PAIRS>,
    /// The fields of each cell, packed into one number.
    cells: ArrayVec<u128, MOST_PAIRS>,
}

impl Model for Msm {
    ghost use Rattle.rtcm_msg.specs.Forms.{FormedMsm, IsMsm, msm_of_parts};

    ghost Value = { FormedMsm };

    ghost view = { λ m. msm_of_parts m.form m.system m.header m.masks m.satellites.items m.cells.items };

    ghost invariant = { λ m. IsMsm (msm_of_parts m.form m.system m.header m.masks m.satellites.items m.cells.items) };
}

impl Msm {
    /// Returns the message with these parts. The satellites are in rising order of their IDs, the
    /// cells in the order of the cell mask.
    ///
    /// # Errors
    ///
    /// In this order: `BadTime` if the epoch time isn't one of the system; `CellCount` if the number
    /// of satellites or cells isn't the number in the masks; `OutOfRange` with the first field, in
    /// the order of the layout, that does not fit its bits.
    pub fn new(
        form: Form,
        system: System,
        header: MsmHeader,
        masks: Masks,
        satellites: &[Satellite],
        cells: &[Cell],
    ) -> Result<Msm, ValueFault>
        ensures refused { IfErr result (λ e. data_refusal system header masks
            (satellite_fault form) satellites.now (cell_fault form) cells.now ≡ Some e) }
        ensures accepted { IfOk result (λ _. data_refusal system header masks
            (satellite_fault form) satellites.now (cell_fault form) cells.now ≡ None) }
        ensures made { IfOk result (λ m. m ≡ msm_of_parts form system header masks
            (map (satellite_number form) satellites.now) (map (cell_number form) cells.now)) }
    {
        if !is_time(system, header.time) {
            return Err(ValueFault::BadTime);
        }
        let counts = (masks.satellites().count_ones(), masks.cells().count_ones());
        if satellites.len() != counts.0 as usize || cells.len() != counts.1 as usize {
            return Err(ValueFault::CellCount);
        }
        let faults = (form.satellite_fault(satellites), form.cell_fault(cells));
        if let Some(field) = header_fault(&header).or(faults.0).or(faults.1) {
            return Err(ValueFault::OutOfRange(field));
        }
        Ok(Msm {
            form,
            system,
            header,
            masks,
            satellites: pack(form, satellites),
            cells: pack(form, cells),
        })
    }

    /// Returns the layout and precision.
    pub fn form(&self) -> Form
        ensures { result ≡ self.now.form }
    {
        self.form
    }

    /// Returns the satellite system.
    pub fn system(&self) -> System
        ensures { result ≡ self.now.msm.system }
    {
        self.system
    }

    /// Returns the message number, DF002.
    pub fn number(&self) -> u16
        ensures value { result ≡ message_number self.now.form self.now.msm.system }
        ensures bound { result < 2 ^ 12 }
    {
        message_number(self.form, self.system)
    }

    /// Returns the header fields.
    pub fn header(&self) -> MsmHeader
        ensures value { result ≡ self.now.msm.header }
        ensures in_range { IsHeader self.now.msm.system result }
    {
        self.header
    }

    /// Returns the masks: the satellites, the signals, and the pairs of both that have a cell.
    pub fn masks(&self) -> Masks
        ensures { result ≡ self.now.msm.sets }
    {
        self.masks
    }

    /// Returns the number of satellites, at most 64.
    pub fn satellites(&self) -> usize
        ensures count { result ≡ length self.now.msm.satellites }
        ensures set { result ≡ count_ones self.now.msm.sets.satellites }
    {
        self.satellites.len()
    }

    /// Returns the number of cells, at most 64.
    pub fn cells(&self) -> usize
        ensures count { result ≡ length self.now.msm.cells }
        ensures set { result ≡ count_ones self.now.msm.sets.cells }
    {
        self.cells.len()
    }

    /// Returns the data of satellite `i`, counted from 0 in rising order of the IDs.
    #[tactic(auto, using(crate::proofs::FormLaws::satellite_in_range))]
    pub fn satellite(&self, i: usize) -> Satellite
        requires { i < length self.now.msm.satellites }
        ensures value { result ≡ satellite_data self.now.form (slice_index self.now.msm.satellites i) }
        ensures in_range { IsSatelliteData self.now.form result }
    {
        self.form.satellite_of(self.satellites[i] as u64)
    }

    /// Returns the data of cell `i`, counted from 0 in the order of the cell mask.
    #[tactic(auto, using(crate::proofs::FormLaws::cell_in_range))]
    pub fn cell(&self, i: usize) -> Cell
        requires { i < length self.now.msm.cells }
        ensures value { result ≡ cell_data self.now.form (slice_index self.now.msm.cells i) }
        ensures in_range { IsCellData self.now.form result }
    {
        self.form.cell_of(self.cells[i])
    }
}

/// Returns a view of the message.
pub(crate) fn view_of(msm: &Msm) -> MsmView<'_>
    ensures { result ≡ msm.now }
{
    MsmView {
        form: msm.form,
        system: msm.system,
        header: msm.header,
        masks: msm.masks,
        satellites: msm.satellites.len(),
        cells: msm.cells.len(),
        rows: Data::Packed(msm.satellites.as_slice(), msm.cells.as_slice()),
    }
}

/// Returns the message of a view.
pub(crate) fn msm_of(view: &MsmView<'_>) -> Msm
    ensures { result ≡ view.now }
{
    Msm {
        form: view.form(),
        system: view.system,
        header: view.header(),
        masks: view.masks(),
        satellites: satellite_numbers(view),
        cells: cell_numbers(view),
    }
}

/// Returns the fields of each satellite of a view in one number.
fn satellite_numbers(view: &MsmView<'_>) -> ArrayVec<u128, MOST_PAIRS>
    ensures { result.items ≡ view.now.msm.satellites }
{
    let form = view.form();
    let mut numbers = ArrayVec::new();
    for i in 0..view.satellites() {
        numbers.push(form.satellite_number(&view.satellite(form, i)) as u128);
    }
    numbers
}

/// Returns the fields of each cell of a view in one number.
fn cell_numbers(view: &MsmView<'_>) -> ArrayVec<u128, MOST_PAIRS>
    ensures { result.items ≡ view.now.msm.cells }
{
    let form = view.form();
    let mut numbers = ArrayVec::new();
    for i in 0..view.cells() {
        numbers.push(form.cell_number(&view.cell(form, i)));
    }
    numbers
}

/// Writes an MSM with its message number, with reserved bits of zero.
pub(crate) fn write_msm(writer: &mut BitWriter, msm: &Msm)
    requires { length writer.old ≡ 0 }
    ensures value { IsMsm msm.now }
    ensures bits { writer.new ≡ writer.old ++ form_bits msm.now.form msm.now.msm 0 }
{
    let (satellite_widths, cell_widths) = msm.form.widths();
    write_head(writer, msm.number(), &msm.header, &msm.masks);
    write_columns(writer, satellite_widths, msm.satellites.as_slice());
    write_columns(writer, cell_widths, msm.cells.as_slice());
}

/// Returns the fields of each item in one number.
fn pack<T: HasFields>(form: Form, items: &[T]) -> ArrayVec<u128, MOST_PAIRS>
    requires few { length items.now ≤ most_pairs }
    requires in_range { All (T.fit form) items.now }
    ensures items { result.items ≡ map (T.number form) items.now }
    ensures fit { EachBelow (T.width form) result.items }
{
    let mut packed = ArrayVec::new();
    for item in items {
        packed.push(item.number(form));
    }
    packed
}
