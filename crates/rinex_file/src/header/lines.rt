//! The lines of a header: RINEX 3.05, table A2.
ghost use Rattle.std.specs.Prelude.{◌≡◌};
ghost use Rattle.gnss_obs.specs.Dates.{civil_of};
ghost use Rattle.gnss_system.specs.SystemValues.{value_of};
ghost use Rattle.rinex_file.specs.Header.{first_content, flagged_letter, height_line, interval_content, lengths};
ghost use Rattle.rinex_file.specs.Header.{line_with, position_line, texts_line, version_content};

use crate::header::fields::HeaderField;
use crate::header::rows::HeaderRow;
use crate::header::texts::HeaderTexts;
use gnss_obs::{GpsTime, Interval, StationValues};
use gnss_system::{BySystem, SYSTEMS, System};
use rinex_columns::{Line, put, put_fixed, put_left, put_seconds, put_whole};

/// The unit of the strengths.
pub(crate) const UNIT: &[u8] = b"DBHZ";

/// Returns a row's line with three lengths, which are given in 0.0001 m and written as F14.4.
pub(crate) fn three_lengths(row: HeaderRow, a: i64, b: i64, c: i64) -> Line
    ensures { result.items ≡ line_with row (lengths a b c) }
{
    let mut content = Line::new();
    put_fixed(&mut content, 14, 4, 10_000, a);
    put_fixed(&mut content, 14, 4, 10_000, b);
    put_fixed(&mut content, 14, 4, 10_000, c);
    row.line(content.as_slice())
}

/// Returns the letter of the systems with a flag: that of one, or `M` for several, and 0 for none.
pub(crate) fn flagged_letter(flags: &BySystem<bool>) -> u8
    ensures { result ≡ flagged_letter (λ s. value_of s flags.now) }
{
    let mut letter = 0;
    for i in 0..SYSTEMS.len() {
        let system = System::at(i);
        if *flags.of(system) {
            letter = if letter == 0 { system.letter() } else { b'M' };
        }
    }
    letter
}

/// Returns the line with version 3.05, the file's type and this letter of its systems.
pub(crate) fn version_line(letter: u8) -> Line
    ensures { result.items ≡ line_with HeaderRow.Version (version_content letter) }
{
    let mut content = Line::new();
    put(&mut content, b"     3.05           OBSERVATION DATA    ");
    content.push(letter);
    HeaderRow::Version.line(content.as_slice())
}

/// Returns the line of a row of texts.
pub(crate) fn texts_line(texts: &HeaderTexts, row: HeaderField) -> Line
    ensures { result.items ≡ texts_line texts.now row }
{
    let mut content = Line::new();
    put(&mut content, row.front());
    for field in row.fields() {
        put_left(&mut content, field.width(), texts.text(*field));
    }
    HeaderRow::Texts(row).line(content.as_slice())
}

/// Returns the line with the position of the antenna.
pub(crate) fn position_line(values: &StationValues) -> Line
    ensures { result.items ≡ position_line values.now }
{
    three_lengths(HeaderRow::Position, values.x, values.y, values.z)
}

/// Returns the line with the height of the antenna above the marker.
pub(crate) fn delta_line(values: &StationValues) -> Line
    ensures { result.items ≡ height_line values.now.height }
{
    three_lengths(HeaderRow::Delta, values.height as i64, 0, 0)
}

/// Returns the line with the interval.
pub(crate) fn interval_line(interval: Interval) -> Line
    ensures { result.items ≡ line_with HeaderRow.Interval (interval_content interval) }
{
    let mut content = Line::new();
    put_fixed(&mut content, 10, 3, 1000, interval.milliseconds() as i64);
    HeaderRow::Interval.line(content.as_slice())
}

/// Returns the line with the time of the first epoch.
pub(crate) fn first_line(time: GpsTime) -> Line
    ensures { result.items ≡ line_with HeaderRow.First (first_content (civil_of time)) }
{
    let civil = time.civil();
    let mut content = Line::new();
    put_whole(&mut content, 6, civil.year as u64);
    put_whole(&mut content, 6, civil.month as u64);
    put_whole(&mut content, 6, civil.day as u64);
    put_whole(&mut content, 6, civil.hour as u64);
    put_whole(&mut content, 6, civil.minute as u64);
    put_seconds(&mut content, 13, civil.millisecond);
    put(&mut content, b"     GPS");
    HeaderRow::First.line(content.as_slice())
}
