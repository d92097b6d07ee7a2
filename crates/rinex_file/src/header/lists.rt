//! The lists of a header, which have as many lines as they need: RINEX 3.05, table A2,
//! "SYS / # / OBS TYPES" and "GLONASS SLOT / FRQ #".
ghost use Rattle.std.specs.Prelude.{◌≡◌, ◌+◌, ◌*◌, ◌≤◌, ◌<◌, ◌∷◌, length, flat_map, take, drop};
ghost use Rattle.arrayvec.specs.ArrayVec.{array_vec_len};
ghost use Rattle.gnss_system.specs.Satellites.{letter};
ghost use Rattle.gnss_system.specs.Signals.{table, code_of};
ghost use Rattle.gnss_obs.specs.Channels.{most_number, slot_count};
ghost use Rattle.gnss_obs.specs.SignalLists.{indices};
ghost use Rattle.gnss_obs.specs.inner.SignalLists.{IsOf};
ghost use Rattle.rinex_file.specs.Header.{type_front, type_columns, type_rows, types_of};
ghost use Rattle.rinex_file.specs.Header.{codes_of, slots_with, type_of, types_with};
ghost use Rattle.rinex_file.specs.inner.Header.{most_type_rows};
ghost use Rattle.rinex_columns.specs.Numbers.{Adds};
ghost use Rattle.rinex_columns.specs.Limits.{most_line};
ghost use Rattle.rinex_file.specs.Slots.{slot_text, slot_rows, slots_front, slots_in_line, slots_of};

use crate::header::rows::HeaderRow;
use gnss_obs::{Channels, GREATEST_SLOT, Signal};
use gnss_system::System;
use rinex_columns::{Line, put, put_whole};

/// Largest number of types in a line.
pub(crate) const TYPES_IN_LINE: usize = 13;

/// Returns the number of lines that the types of this number of signals need.
pub(crate) fn type_rows(signals: usize) -> usize
    requires { signals ≤ 1000 }
    ensures { result ≡ type_rows signals }
{
    (4 * signals).div_ceil(TYPES_IN_LINE)
}

/// Appends the columns before the types of a line: the system's letter and the number of types on
/// the first line, blanks on the others.
fn put_types_front(content: &mut Line, letter: u8, types: usize, row: usize)
    requires room { array_vec_len content.old ≤ 100 }
    requires types { types ≤ 1000 }
    ensures { Adds content.old.items content.new.items (type_front letter types row) 63 }
{
    if row == 0 {
        content.push(letter);
        put(content, b"  ");
        put_whole(content, 3, types as u64);
    } else {
        put(content, b"      ");
    }
}

/// Appends a blank and a signal's type: 0 is the pseudorange, 1 the phase, 2 the Doppler and 3 the
/// strength.
fn put_type(content: &mut Line, signal: Signal, kind: usize)
    requires kind { kind < 4 }
    requires room { array_vec_len content.old + 4 ≤ most_line }
    ensures { Adds content.old.items content.new.items (32 ∷ type_of kind (code_of signal)) 4 }
{
    content.push(b' ');
    content.push(b"CLDS"[kind]);
    put(content, &signal.code());
}

/// Appends the types of a line, up to the last type of these signals.
fn put_types(content: &mut Line, system: System, signals: &[Signal], row: usize)
    requires of { IsOf system signals.now }
    requires row { row < most_type_rows }
    requires room { array_vec_len content.old ≤ 100 }
    ensures { Adds content.old.items content.new.items
        (type_columns (types_of (codes_of system (indices signals.now))) row) 52 }
{
    let types = 4 * signals.len();
    let first = TYPES_IN_LINE * row;
    let end = types.min(first + TYPES_IN_LINE);
    for i in first..end {
        put_type(content, signals[i / 4], i % 4);
    }
}

/// Returns a line of a system's types. `count` signals are planned, and `signals` are the first of
/// them.
pub(crate) fn types_with(system: System, count: usize, signals: &[Signal], row: usize) -> Line
    requires of { IsOf system signals.now }
    requires count { count ≤ length (table system) }
    requires row { row < type_rows count }
    ensures { result.items ≡ types_with system count (indices signals.now) row }
{
    let mut content = Line::new();
    put_types_front(&mut content, system.letter(), 4 * count, row);
    put_types(&mut content, system, signals, row);
    HeaderRow::Types(system, row).line(content.as_slice())
}

/// Largest number of slots in a line.
pub(crate) const SLOTS_IN_LINE: usize = 8;

/// Returns the number of slots with a channel.
pub(crate) fn slots_in(channels: &Channels) -> usize
    ensures value { result ≡ length (slots_of channels.now) }
    ensures bound { result ≤ slot_count }
{
    channels.count()
}

/// Returns the number of lines that a number of slots needs. It is 0 without a slot; then one line
/// is written too.
pub(crate) fn slot_rows(count: usize) -> usize
    requires { count ≤ 1000 }
    ensures { result ≡ slot_rows count }
{
    count.div_ceil(SLOTS_IN_LINE)
}

/// Appends the columns before the slots of a line: their number on the first line, blanks on the
/// others.
fn put_slots_front(content: &mut Line, count: usize, row: usize)
    requires { array_vec_len content.old ≤ 100 }
    ensures { Adds content.old.items content.new.items (slots_front count row) 61 }
{
    if row == 0 {
        put_whole(content, 3, count as u64);
        content.push(b' ');
    } else {
        put(content, b"    ");
    }
}

/// Appends a slot and the number of its channel.
fn put_slot(content: &mut Line, slot: u8, number: u8)
    requires slot { slot ≤ slot_count }
    requires number { number ≤ most_number }
    requires room { array_vec_len content.old + 7 ≤ most_line }
    ensures { Adds content.old.items content.new.items (slot_text (record { slot = slot; number = number })) 7 }
{
    let tens = b'0' + slot / 10;
    let ones = b'0' + slot % 10;
    let sign = if number < 7 { b'-' } else { b' ' };
    let size = b'0' + number.abs_diff(7);
    put(content, &[b'R', tens, ones, b' ', sign, size, b' ']);
}

/// Appends the slots of a line that have a channel.
fn put_slots(content: &mut Line, channels: &Channels, row: usize)
    requires row { row ≤ 100 }
    requires room { array_vec_len content.old ≤ 100 }
    ensures { Adds content.old.items content.new.items
        (flat_map slot_text (take slots_in_line (drop (slots_in_line * row) (slots_of channels.now)))) 189 }
{
    channels.are_channels();
    let mut before = 0;
    for i in 0..GREATEST_SLOT {
        if let Some(number) = channels.number(i + 1) {
            if before / SLOTS_IN_LINE == row {
                put_slot(content, i + 1, number);
            }
            before += 1;
        }
    }
}

/// Returns a line of the slots with a channel, of which `count` are in the file.
pub(crate) fn slots_with(count: usize, channels: &Channels, row: usize) -> Line
    requires { row ≤ 100 }
    ensures { result.items ≡ slots_with count (slots_of channels.now) row }
{
    let mut content = Line::new();
    put_slots_front(&mut content, count, row);
    put_slots(&mut content, channels, row);
    HeaderRow::Slots(row).line(content.as_slice())
}
