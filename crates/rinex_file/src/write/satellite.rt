//! Observation lines: RINEX 3.05, table A3, "OBSERVATION DATA RECORD".
ghost use Rattle.std.specs.Prelude.{◌≡◌, ◌≤◌, ◌<◌, ◌++◌, ℕ, [], ◌∷◌, length, take, All, List, IfSome, Some};
ghost use Rattle.std.specs.Prelude.{◌-◌, ◌^◌, drop, flat_map, slice_index, slice_set};
ghost use Rattle.gnss_obs.specs.declared.cell.Cell.{Cell};
ghost use Rattle.gnss_system.specs.Satellites.{letter, number_of};
ghost use Rattle.gnss_system.specs.Signals.{most_signals};
ghost use Rattle.gnss_obs.specs.Values.{AreHeld};
ghost use Rattle.rinex_file.specs.FileValues.{FitsColumns, HaveRoom};
ghost use Rattle.rinex_file.specs.Value.{entries_of, satellite_row, row_among, row_in_epoch};
ghost use Rattle.rinex_columns.specs.Numbers.{padded};
ghost use Rattle.rinex_file.specs.Blanks.{trimmed};
ghost use Rattle.rinex_file.specs.Lines.{field, strength_byte, signal_text, satellite_line};
ghost use Rattle.rinex_file.specs.inner.Rows.{AreApart, IsBlankBut, HasColumns};
ghost use Rattle.rinex_columns.specs.Limits.{most_line, signal_columns, value_columns};

use crate::values::SignalValues;
use crate::write::lanes::{columns_in, columns_in_two, columns_of, columns_of_range};
use gnss_obs::{Cell, Epoch, Plan, Sat, Thousandths, strength_digit};
use gnss_system::System;
use rinex_columns::{Line, MOST_LINE, SIGNAL_COLUMNS, VALUE_COLUMNS, put};
use std::marker::Model;
use std::simd::prelude::*;

/// Writes a value as F14.3 and the LLI and SSI columns after it, or 16 blanks if it is absent. Its
/// whole part may have ten digits, or nine and a minus.
#[inline(always)]
#[tactic(auto, unfolding(crate::specs::Lines::field), using(crate::proofs::Rows::Sizes::sizes))]
fn put_value(columns: &mut [u8], value: &Option<Thousandths>, lost: u8, strength: u8)
    requires fits { IfSome value.now FitsColumns }
    requires room { length columns.old ≡ value_columns }
    ensures { columns.new ≡ field value.now lost strength }
{
    let Some(value) = value else {
        return columns.fill(b' ');
    };
    columns_in(value.value()).copy_to_slice(columns);
    columns[14] = lost;
    columns[15] = strength;
}

/// Writes a pseudorange as [`put_value`] does.
#[inline(always)]
#[tactic(auto, unfolding(crate::specs::Lines::field), using(crate::proofs::Rows::Sizes::sizes))]
fn put_range(columns: &mut [u8], value: &Option<Thousandths>, strength: u8)
    requires fits { IfSome value.now FitsColumns }
    requires room { length columns.old ≡ value_columns }
    ensures { columns.new ≡ field value.now 32 strength }
{
    let Some(value) = value else {
        return columns.fill(b' ');
    };
    columns_of_range(value.value()).copy_to_slice(columns);
    columns[15] = strength;
}

/// Returns the strength (SSI) column of a pseudorange and of a phase.
pub(crate) fn strength_column(strength: &Option<Thousandths>) -> u8
    ensures { result ≡ strength_byte strength.now }
{
    match strength {
        Some(strength) => b'0' + strength_digit(*strength),
        None => b' ',
    }
}

/// Writes a Doppler shift and a strength, the digits of both in the same steps if the sum of their
/// sizes is below 100,000, as most are. A strength alone takes fewer steps if it is from 0 to
/// 99.999.
#[inline(always)]
#[tactic(auto, using(crate::proofs::Rows::Sizes::sizes))]
fn put_doppler_and_strength(columns: &mut [u8], values: &ValueRefs)
    requires fits { HaveRoom values.now }
    requires room { length columns.old ≡ 32 }
    ensures { columns.new ≡ field values.now.d 32 32 ++ field values.now.s 32 32 }
{
    let (front, back) = columns.split_at_mut(VALUE_COLUMNS);
    if let (Some(shift), Some(density)) = (values.d, values.s) {
        let (shift, density) = (shift.value(), density.value());
        if shift.unsigned_abs() + density.unsigned_abs() < 100_000_000 {
            let (shift, density) = columns_in_two(shift, density);
            shift.copy_to_slice(front);
            density.copy_to_slice(back);
            return;
        }
    }
    put_value(front, values.d, b' ', b' ');
    if let Some(density) = values.s {
        let density = density.value();
        if 0 <= density && density < 100_000 {
            back.copy_from_slice(&columns_of(density as u32));
            return;
        }
    }
    put_value(back, values.s, b' ', b' ');
}

/// The values of a signal, borrowed, so that each is read when its columns are written.
#[derive(Drop)]
struct ValueRefs<'a> {
    c: &'a Option<Thousandths>,
    l: &'a Option<Thousandths>,
    d: &'a Option<Thousandths>,
    s: &'a Option<Thousandths>,
    lli: &'a u8,
}

impl<'a> Model for ValueRefs<'a> {
    ghost use Rattle.rinex_file.specs.Value.{SignalValues};

    ghost Value = { SignalValues };

    ghost view = { λ v. record { c = v.c.now; l = v.l.now; d = v.d.now; s = v.s.now; lli = v.lli.now } };
}

/// Writes the columns of a signal.
#[inline(always)]
#[tactic(auto, unfolding(crate::specs::Lines::signal_text))]
fn put_signal(columns: &mut [u8], values: &ValueRefs)
    requires fits { HaveRoom values.now }
    requires room { length columns.old ≡ signal_columns }
    ensures text { columns.new ≡ signal_text values.now }
    ensures size { length columns.new ≡ signal_columns }
{
    let strength = strength_column(values.s);
    let lli = *values.lli;
    let lost = if lli == 0 { b' ' } else { b'0' + lli };
    let (range, others) = columns.split_at_mut(VALUE_COLUMNS);
    put_range(range, values.c, strength);
    let (phase, others) = others.split_at_mut(VALUE_COLUMNS);
    put_value(phase, values.l, lost, strength);
    put_doppler_and_strength(others, values);
}

/// Returns the length of the text without trailing blanks, in bytes.
pub(crate) fn trimmed_len(text: &[u8]) -> usize
    ensures text { take result text.now ≡ trimmed text.now }
    ensures bound { result ≤ length text.now }
    ensures blank { result < length text.now → slice_index text.now result ≡ 32 }
{
    let mut end = text.len();
    while end > 0 && text[end - 1] == b' ' {
        end -= 1;
    }
    end
}

/// Writes the letter and number of a satellite into the first columns of a row.
#[inline(always)]
fn begin_columns(row: &mut [u8; MOST_LINE], system: System, id: u8)
    requires { number_of system id < 100 }
    ensures front { take 3 row.new ≡ letter system ∷ padded 2 (number_of system id) }
    ensures rest { drop 3 row.new ≡ drop 3 row.old }
{
    let number = system.number_of(id);
    row[0] = system.letter();
    row[1] = b'0' + number / 10;
    row[2] = b'0' + number % 10;
}

/// Writes the columns of the signal at this index in the plan into a row.
#[inline(always)]
fn put_columns(row: &mut [u8; MOST_LINE], place: usize, values: &ValueRefs)
    requires fits { HaveRoom values.now }
    requires few { place < most_signals }
    ensures columns { (all : List SignalValues) → All HaveRoom all → place < length all
        → drop 3 row.old ≡ flat_map signal_text all ++ 32 ∷ []
        → drop 3 row.new ≡ flat_map signal_text (slice_set all place values.now) ++ 32 ∷ [] }
    ensures front { take 3 row.new ≡ take 3 row.old }
{
    let start = 3 + SIGNAL_COLUMNS * place;
    put_signal(&mut row[start..start + SIGNAL_COLUMNS], values);
}

/// Writes the columns of the signals of a satellite's cells into a row, and returns the set of their
/// indices in the plan: bit n is index n.
#[inline(always)]
fn put_cells(row: &mut [u8; MOST_LINE], cells: &[Cell], plan: &Plan, system: System, id: u8) -> u64
    requires { AreHeld system cells.now }
    ensures columns { (used : ℕ) → IsBlankBut used row.old
        → HasColumns used result (entries_of plan.now system id cells.now) row.new }
    ensures front { take 3 row.new ≡ take 3 row.old }
    ensures few { result < 2 ^ most_signals }
{
    // By the contract of `list` no signal is planned twice, so each has one index.
    let signals = plan.list(system);
    let mut own = 0;
    // The first cell of a signal is the one that is written, so it is written last.
    let mut at = cells.len();
    while at > 0 {
        at -= 1;
        let cell = &cells[at];
        if cell.satellite.id() == id
            && let Some(place) = signals.place(cell.signal)
        {
            let (c, l, d, s, lli) = (&cell.c, &cell.l, &cell.d, &cell.s, &cell.lli);
            put_columns(row, place, &ValueRefs { c, l, d, s, lli });
            own |= 1 << place;
        }
    }
    own
}

/// Blanks the columns of the signals at these indices.
#[inline(always)]
fn blank_columns(row: &mut [u8; MOST_LINE], places: u64)
    requires { places < 2 ^ most_signals }
    ensures columns { (own : ℕ) (values : List SignalValues) → AreApart places own
        → HasColumns places own values row.old → HasColumns 0 own values row.new }
    ensures front { take 3 row.new ≡ take 3 row.old }
{
    let (none, zero) = (None, 0);
    let mut left = places;
    while left != 0 {
        let place = left.trailing_zeros();
        let (c, l, d, s, lli) = (&none, &none, &none, &none, &zero);
        put_columns(row, place as usize, &ValueRefs { c, l, d, s, lli });
        left &= !(1 << place);
    }
}

/// Ends the first `size` columns of a row: a line feed follows the last that is not blank. Returns
/// the length of the line.
fn end_columns(row: &mut [u8; MOST_LINE], size: usize) -> usize
    requires { size < most_line }
    ensures text { take result row.new ≡ trimmed (take size row.old) ++ 10 ∷ [] }
    ensures bound { (0 < result) × (result ≤ most_line) }
    ensures blank { slice_index row.old size ≡ 32 → slice_set row.new (result - 1) 32 ≡ row.old }
{
    let end = trimmed_len(&row[..size]);
    row[end] = b'\n';
    end + 1
}

/// Writes the line of a satellite with these cells over the first bytes of a row, and returns its
/// length. The row is blank but for its first columns and those of the signals in `used`, so that
/// only these are blanked; so it is again once the line feed is replaced by a blank.
#[inline(always)]
pub(crate) fn put_satellite_line(
    row: &mut [u8; MOST_LINE],
    used: &mut u64,
    cells: &[Cell],
    plan: &Plan,
    system: System,
    id: u8,
) -> usize
    requires held { AreHeld system cells.now }
    requires id { number_of system id < 100 }
    requires blank { IsBlankBut used.old row.old }
    ensures text { take result row.new ≡ satellite_line (row_among plan.now system cells.now id) }
    ensures bound { (0 < result) × (result ≤ most_line) }
    ensures blank { IsBlankBut used.new (slice_set row.new (result - 1) 32) }
{
    begin_columns(row, system, id);
    let own = put_cells(row, cells, plan, system, id);
    blank_columns(row, *used & !own);
    *used = own;
    let places = (64 - own.leading_zeros()) as usize;
    end_columns(row, 3 + SIGNAL_COLUMNS * places)
}

/// Writes the line of a satellite with these values of the planned signals over the first bytes of
/// a row, and returns its length, as [`put_satellite_line`] does.
pub(crate) fn put_values(
    row: &mut [u8; MOST_LINE],
    values: &[SignalValues],
    system: System,
    id: u8,
) -> usize
    requires id { number_of system id < 100 }
    requires room { All HaveRoom values.now }
    requires few { length values.now ≤ most_signals }
    ensures text { take result row.new ≡ satellite_line (satellite_row system id values.now) }
    ensures bound { result ≤ most_line }
{
    begin_columns(row, system, id);
    let mut size = 3;
    for value in values {
        let SignalValues { c, l, d, s, lli } = value;
        let refs = ValueRefs { c, l, d, s, lli };
        put_signal(&mut row[size..size + SIGNAL_COLUMNS], &refs);
        size += SIGNAL_COLUMNS;
    }
    end_columns(row, size)
}

/// Writes the line of a satellite of the epoch, replacing the contents of the buffer: its system's
/// letter and its number in two columns, and for each planned signal pseudorange (m), phase
/// (cycles), Doppler (Hz) and strength (dB-Hz) as F14.3 with the LLI and SSI columns after each.
/// Values that weren't observed are blank. [`write_epoch`](crate::write_epoch) writes this line if
/// it has a value.
pub fn satellite_line(epoch: &Epoch, plan: &Plan, satellite: Sat, line: &mut Line)
    ensures { line.new.items ≡ satellite_line (row_in_epoch plan.now epoch.now.epoch satellite.system satellite.id) }
{
    let cells = epoch.cells(satellite.system());
    let mut row = [b' '; MOST_LINE];
    let mut used = 0;
    let system = satellite.system();
    let size = put_satellite_line(&mut row, &mut used, cells, plan, system, satellite.id());
    line.clear();
    put(line, &row[..size]);
}
