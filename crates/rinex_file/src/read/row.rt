//! The line of a satellite, read back: its columns are judged where they are.
ghost use Rattle.std.specs.Prelude.{◌≡◌, ◌↔◌, ◌+◌, ◌*◌, ◌%◌, ◌≤◌, ◌<◌, [], ◌∷◌, flat_map};
ghost use Rattle.std.specs.Prelude.{length, pos, None, Some, IfSome, IsTrue, is_some, slice_get};
ghost use Rattle.arrayvec.specs.ArrayVec.{array_vec_len};
ghost use Rattle.gnss_system.specs.declared.system.System.{System};
ghost use Rattle.gnss_system.specs.Satellites.{letter};
ghost use Rattle.gnss_system.specs.Signals.{most_signals};
ghost use Rattle.gnss_system.specs.SystemValues.{value_of};
ghost use Rattle.rinex_file.specs.FileValues.{IsFrom, AreSignalValues, IsSatelliteRow};
ghost use Rattle.rinex_file.specs.Blanks.{IsEnded, filled_to};
ghost use Rattle.rinex_file.specs.Lines.{satellite_line, signal_text, lli_byte};
ghost use Rattle.rinex_columns.specs.Numbers.{padded};
ghost use Rattle.rinex_file.specs.Value.{no_signal_values};
ghost use Rattle.rinex_columns.specs.Read.{ReadsExactly, some_if};
ghost use Rattle.rinex_file.specs.inner.Read.Row.{AreEntries, IsRowOf, signal_from, last_signal};
ghost use Rattle.rinex_columns.specs.Limits.{signal_columns};

use crate::read::fields::{field_in, is_blank_at};
use crate::values::{SatelliteRow, SignalValues};
use crate::write::satellite::strength_column;
use arrayvec::ArrayVec;
use gnss_system::{BySystem, MOST_SIGNALS, System};
use rinex_columns::SIGNAL_COLUMNS;

/// Returns the loss-of-lock indicator in the LLI column of a phase, or None if it is no such
/// column.
fn lli_in(column: u8) -> Option<u8>
    ensures { ReadsExactly (λ n. n < 4) (λ n. lli_byte n ∷ []) (column ∷ []) result }
{
    match column {
        b' ' => Some(0),
        b'1'..=b'3' => Some(column - b'0'),
        _ => None,
    }
}

/// Returns whether strength and indicator may be those of a signal: the strength is from 0.001 to
/// 99.999 dB-Hz, or none, and only a phase has a loss-of-lock indicator.
fn is_plausible(entry: &SignalValues) -> bool
    ensures { IsTrue result
        ↔ (IfSome entry.now.s (IsFrom (pos 1) (pos 99_999)) × (entry.now.l ≡ None → entry.now.lli ≡ 0)) }
{
    let is_strength = entry
        .s
        .is_none_or(|v| 1 <= v.value() && v.value() <= 99_999);
    is_strength && (entry.lli == 0 || entry.l.is_some())
}

/// Returns whether the columns of a signal are blank.
#[inline(always)]
fn is_blank(text: &[u8]) -> bool
    requires { length text.now ≡ signal_columns }
    ensures { IsTrue result → text.now ≡ signal_text no_signal_values }
{
    // Each test is a fact of its own in the proof; `&&` would join them in one, to be split again.
    if !is_blank_at(text, 0) || !is_blank_at(text, 16) || !is_blank_at(text, 32) {
        return false;
    }
    is_blank_at(text, 48)
}

/// Returns the values of a signal that wasn't observed.
fn no_values() -> SignalValues
    ensures { result ≡ no_signal_values }
{
    SignalValues::default()
}

/// Returns the values of a signal, or None if the columns are not as these values are written.
#[inline(always)]
fn written_in(text: &[u8]) -> Option<SignalValues>
    requires { length text.now ≡ signal_columns }
    ensures { ReadsExactly AreSignalValues signal_text text.now result }
{
    // Most signals of a plan of many are blank.
    if is_blank(text) {
        return Some(no_values());
    }
    let s = field_in(text, 48, b' ', b' ')?;
    let strength = strength_column(&s);
    let c = field_in(text, 0, b' ', strength)?;
    let l = field_in(text, 16, text[30], strength)?;
    let d = field_in(text, 32, b' ', b' ')?;
    let lli = lli_in(text[30])?;
    let entry = SignalValues { c, l, d, s, lli };
    if is_plausible(&entry) {
        Some(entry)
    } else {
        None
    }
}

/// Returns the columns of a signal that begins in a text with these last columns.
#[inline(always)]
fn columns_at<'a>(text: &'a [u8], last: &'a [u8; SIGNAL_COLUMNS], at: usize) -> &'a [u8]
    requires last { last.now ≡ last_signal text.now }
    requires at { at % signal_columns ≡ 0 }
    requires within { at < length text.now }
    ensures { result.now ≡ signal_from at text.now }
{
    if text.len() - at >= SIGNAL_COLUMNS {
        return &text[at..at + SIGNAL_COLUMNS];
    }
    last
}

/// Returns the values of a signal in a text with these last columns, or None if the columns are not
/// as these values are written.
#[inline(always)]
fn written_at(text: &[u8], last: &[u8; SIGNAL_COLUMNS], at: usize) -> Option<SignalValues>
    requires last { last.now ≡ last_signal text.now }
    requires at { at % signal_columns ≡ 0 }
    ensures { ReadsExactly AreSignalValues signal_text (signal_from at text.now) result }
{
    // The blanks at the end of a line were cut.
    if at >= text.len() {
        return Some(no_values());
    }
    written_in(columns_at(text, last, at))
}

/// Reads the signals in a text with these last columns, one for each of the values. Returns whether
/// the columns are as values are written, of which there are some.
// Inlined, each load of columns would follow a test of where they are: 4 % more for `check_file`.
#[inline(never)]
fn put_each_in(text: &[u8], last: &[u8; SIGNAL_COLUMNS], values: &mut [SignalValues]) -> bool
    requires last { last.now ≡ last_signal text.now }
    requires few { length values.old ≤ most_signals }
    requires room { length text.now ≤ signal_columns * length values.old }
    ensures size { length values.new ≡ length values.old }
    ensures read { ReadsExactly (AreEntries (length values.old)) (flat_map signal_text)
        (filled_to (signal_columns * length values.old) text.now) (some_if result values.new) }
{
    let mut some = false;
    for i in 0..values.len() {
        let Some(entry) = written_at(text, last, SIGNAL_COLUMNS * i) else {
            return false;
        };
        values[i] = entry;
        // After a read of `entry`, its tags are stored byte by byte: 4 % of `check`.
        some |= values[i].has_value();
    }
    some
}

/// Gives the list this length. What is kept isn't cleared.
fn resize(values: &mut ArrayVec<SignalValues, MOST_SIGNALS>, signals: usize)
    requires { signals ≤ most_signals }
    ensures { array_vec_len values.new ≡ signals }
{
    values.truncate(signals);
    for _ in values.len()..signals {
        values.push(SignalValues::default());
    }
}

/// Returns the number in two columns, or None if they are not two digits.
fn two_digits_in(tens: u8, ones: u8) -> Option<u8>
    ensures { ReadsExactly (λ n. n < 100) (padded 2) (tens ∷ ones ∷ []) result }
{
    if !tens.is_ascii_digit() || !ones.is_ascii_digit() {
        return None;
    }
    Some((tens - b'0') * 10 + (ones - b'0'))
}

/// Returns whether a line ends in a line feed that follows another byte than a blank.
fn is_ended(line: &[u8]) -> bool
    ensures { IsTrue result ↔ IsEnded line.now }
{
    let end = line.len();
    end >= 2 && line[end - 1] == b'\n' && line[end - 2] != b' '
}

/// Reads the satellite of the system whose letter is first in a line, or returns None if the line
/// isn't that of one.
fn read_of(line: &[u8], system: System, signals: usize, row: &mut SatelliteRow) -> Option<()>
    requires few { signals ≤ most_signals }
    requires first { slice_get line.now 0 ≡ Some (letter system) }
    ensures { ReadsExactly (IsRowOf system signals) satellite_line line.now (some_if (is_some result) row.new) }
{
    let text = &line[..line.len().saturating_sub(1)];
    if !is_ended(line) || text.len() < 3 || text.len() > 3 + SIGNAL_COLUMNS * signals {
        return None;
    }
    let number = two_digits_in(text[1], text[2])?;
    row.satellite = system.id_of_number(number)?;
    row.system = system;
    resize(&mut row.signal_values, signals);
    let columns = &text[3..];
    // Those of a signal that is not whole in the line, padded with blanks.
    let mut last = [b' '; SIGNAL_COLUMNS];
    let cut = &columns[SIGNAL_COLUMNS * (columns.len() / SIGNAL_COLUMNS)..];
    last[..cut.len()].copy_from_slice(cut);
    put_each_in(columns, &last, row.signal_values.as_mut_slice()).then_some(())
}

/// Reads the satellite in a line, given the number of planned signals of each system, or returns
/// None if the line isn't that of a satellite.
pub(crate) fn read_row(line: &[u8], planned: &BySystem<usize>, row: &mut SatelliteRow) -> Option<()>
    requires few { (s : System) → value_of s planned.now ≤ most_signals }
    ensures { ReadsExactly (IsSatelliteRow (λ s. value_of s planned.now)) satellite_line line.now
        (some_if (is_some result) row.new) }
{
    let system = System::from_letter(*line.first()?)?;
    read_of(line, system, *planned.of(system), row)
}
