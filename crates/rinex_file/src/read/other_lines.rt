//! Lines read back, other than those of satellites, observation types and slots: their fields are
//! read without validation, written again and compared.
ghost use Rattle.std.specs.Prelude.{◌≡◌, ◌≤◌, ◌<◌, ◌^◌, ⊤, ℕ, Some, is_some, take, drop};
ghost use Rattle.gnss_obs.specs.Dates.{civil_of};
ghost use Rattle.gnss_obs.specs.Intervals.{IsInterval};
ghost use Rattle.gnss_obs.specs.GatheredEpochs.{IsCoordinate};
ghost use Rattle.rinex_file.specs.FileValues.{IsTime};
ghost use Rattle.rinex_file.specs.Header.{first_content, height_content, interval_content, line_with};
ghost use Rattle.rinex_file.specs.Header.{position_content, version_content};
ghost use Rattle.rinex_file.specs.Lines.{epoch_line};
ghost use Rattle.rinex_columns.specs.Read.{number_in, ReadsExactly};
ghost use Rattle.rinex_file.specs.inner.Read.HeaderSteps.{ReadsOrRefusesTexts, ReadsHeaderRow};
ghost use Rattle.rinex_file.specs.inner.Read.Progress.{IsPosition};

use crate::header::fields::HeaderField;
use crate::header::lines::{
    first_line, interval_line, position_line, texts_line, three_lengths, version_line,
};
use crate::header::rows::HeaderRow;
use crate::header::texts::HeaderTexts;
use crate::write::line::epoch_line;
use gnss_obs::laws::calendar;
use gnss_obs::{Civil, GREATEST_COORDINATE, GpsTime, Interval, LEAST_COORDINATE, StationValues};
use rinex_columns::{Line, columns, digits_in, is_same, signed};

/// Returns the byte in place of the letter of a file's systems, or None for a line that isn't the
/// first.
pub(crate) fn read_version(line: &[u8]) -> Option<u8>
    ensures { ReadsHeaderRow HeaderRow.Version (λ letter. ⊤) version_content line.now result }
{
    let letter = columns(line, 40, 1).first().copied().unwrap_or(0);
    is_same(line, version_line(letter).as_slice()).then_some(letter)
}

/// Returns the number in the 14 columns of a line that begin at `from`, in 0.0001 m, limited to
/// 38 bits.
fn coordinate_in(line: &[u8], from: usize) -> i64
    ensures fits { IsCoordinate result }
    ensures value { IsCoordinate (number_in (take 14 (drop from line.now)))
        → result ≡ number_in (take 14 (drop from line.now)) }
{
    let text = columns(line, from, 14);
    signed(digits_in(text), text.contains(&b'-')).clamp(LEAST_COORDINATE, GREATEST_COORDINATE)
}

/// Returns the position of the antenna in 0.0001 m, with height zero, by its line, or None for any
/// other line.
pub(crate) fn read_position(line: &[u8]) -> Option<StationValues>
    ensures { ReadsHeaderRow HeaderRow.Position IsPosition position_content line.now result }
{
    let position = StationValues {
        x: coordinate_in(line, 0),
        y: coordinate_in(line, 14),
        z: coordinate_in(line, 28),
        height: 0,
    };
    is_same(line, position_line(&position).as_slice()).then_some(position)
}

/// Returns the height of the antenna above the marker in 0.0001 m by its line, or None for any
/// other line.
pub(crate) fn read_delta(line: &[u8]) -> Option<u16>
    ensures { ReadsHeaderRow HeaderRow.Delta (λ h. h < 2 ^ 16) height_content line.now result }
{
    // A number that doesn't fit differs from the limit, which is written again.
    let height = digits_in(columns(line, 0, 14)).min(65_535) as u16;
    let again = three_lengths(HeaderRow::Delta, height as i64, 0, 0);
    is_same(line, again.as_slice()).then_some(height)
}

/// Returns the interval by its line, or None for any other line.
pub(crate) fn read_interval(line: &[u8]) -> Option<Interval>
    ensures { ReadsHeaderRow HeaderRow.Interval IsInterval interval_content line.now result }
{
    // A number that doesn't fit is limited to one that is no interval.
    let milliseconds = digits_in(columns(line, 0, 10)).min(4_294_967_295) as u32;
    let interval = Interval::new(milliseconds)?;
    is_same(line, interval_line(interval).as_slice()).then_some(interval)
}

/// Reads the texts of a row, or returns None if the line isn't that of these texts.
pub(crate) fn read_texts(texts: &mut HeaderTexts, row: HeaderField, line: &[u8]) -> Option<()>
    ensures { ReadsOrRefusesTexts row line.now texts.old texts.new (is_some result) }
{
    texts.are_texts();
    let mut column = row.front().len();
    for field in row.fields() {
        let width = field.width();
        texts.set(*field, columns(line, column, width)).ok()?;
        column += width;
    }
    if !texts.has_row(row) {
        return None;
    }
    is_same(line, texts_line(texts, row).as_slice()).then_some(())
}

/// Returns the time in a line, or None if there is none: the year ends at column 6, and `width`
/// columns for each other number of date and time of day and `second` columns follow. Each number
/// is limited to the largest value of its type, which no field of a date has.
fn time_in(line: &[u8], width: usize, second: usize) -> Option<GpsTime>
    requires width { width ≤ 6 }
    requires second { second ≤ 13 }
    ensures first { (t : ℕ) → IsTime t → width ≡ 6 → second ≡ 13
        → line.now ≡ line_with HeaderRow.First (first_content (civil_of t)) → result ≡ Some t }
    ensures epoch { (t n : ℕ) → IsTime t → n ≤ 999 → width ≡ 3 → second ≡ 11 → line.now ≡ epoch_line (civil_of t) n
        → result ≡ Some t }
{
    calendar();
    let civil = Civil {
        year: digits_in(columns(line, 0, 6)).min(65_535) as u16,
        month: digits_in(columns(line, 6, width)).min(255) as u8,
        day: digits_in(columns(line, 6 + width, width)).min(255) as u8,
        hour: digits_in(columns(line, 6 + 2 * width, width)).min(255) as u8,
        minute: digits_in(columns(line, 6 + 3 * width, width)).min(255) as u8,
        millisecond: (digits_in(columns(line, 6 + 4 * width, second)) / 10_000).min(65_535) as u16,
    };
    GpsTime::from_civil(&civil)
}

/// Returns the time of the first epoch by its line in the header, or None for any other line.
pub(crate) fn read_first(line: &[u8]) -> Option<GpsTime>
    ensures { ReadsHeaderRow HeaderRow.First IsTime (λ t. first_content (civil_of t)) line.now result }
{
    let time = time_in(line, 6, 13)?;
    is_same(line, first_line(time).as_slice()).then_some(time)
}

/// Returns the time of an epoch and the number of its satellites by its first line, or None for any
/// other line.
pub(crate) fn read_epoch_line(line: &[u8], again: &mut Line) -> Option<(GpsTime, usize)>
    ensures { ReadsExactly (λ (e : ℕ × ℕ). IsTime e.0 × e.1 ≤ 999) (λ (e : ℕ × ℕ). epoch_line (civil_of e.0) e.1)
        line.now result }
{
    calendar();
    let time = time_in(line, 3, 11)?;
    let count = digits_in(columns(line, 32, 3)) as usize;
    epoch_line(time, count, again);
    is_same(line, again.as_slice()).then_some((time, count))
}
