//! Weeks, dates, times, lengths and intervals, read from text.
ghost use Rattle.std.specs.Prelude.{◌≡◌, ◌≤◌, ◌<◌, ◌^◌, ℕ, MatchOption, None, Some};
ghost use Rattle.line_texts.specs.Dates.{IsHourOf, IsTimeOf, IsWeekNumber, IsWeekOf, civil_in, clock_in};
ghost use Rattle.line_texts.specs.Dates.{fixed_number, moment_in, two_below};
ghost use Rattle.line_texts.specs.Lengths.{coordinate_of, cut, decimals_of, epoch_interval_of, fixed_point};
ghost use Rattle.line_texts.specs.Lengths.{interval_of, length_below, longest_interval, number_of, position_of};
ghost use Rattle.line_texts.specs.Lengths.{tolerance_of};
ghost use Rattle.line_texts.specs.inner.Parsed.{IsParsed};

use gnss_obs::{Civil, GREATEST_COORDINATE, GpsTime, Interval, LEAST_COORDINATE, WEEK, WEEKS};

/// Returns the GPS week of a text: a number from 0 to 99,999, with or without a sign, or a GPS date
/// `yyyy-mm-dd` in it. `None` for any other text.
pub fn week_of(text: &str) -> Option<u32>
    ensures { MatchOption result ((n : ℕ) → ¬ IsWeekOf text.now n) (IsWeekOf text.now) }
{
    match week_number(text) {
        Some(week) => Some(week),
        None => Some((hour_of(text, 0)?.milliseconds() / WEEK) as u32),
    }
}

/// Parses the number of a week as `clap` parses a signed number.
fn week_number(text: &str) -> Option<u32>
    ensures { MatchOption result ((n : ℕ) → ¬ IsWeekNumber text.now n) (IsWeekNumber text.now) }
{
    let week = u32::try_from(text.parse::<i64>().ok()?).ok()?;
    (u64::from(week) < WEEKS).then_some(week)
}

/// Returns this hour of the GPS date `yyyy-mm-dd` in a text, from 1980-01-06 on and before week
/// 100,000. `None` for any other text.
pub fn hour_of(text: &str, hour: u8) -> Option<GpsTime>
    ensures { MatchOption result ((t : ℕ) → ¬ IsHourOf hour text.now t) (IsHourOf hour text.now) }
{
    // The question mark gives the proof the range of the time.
    let time = GpsTime::from_civil(&civil_in(text, hour)?)?;
    Some(time)
}

/// Returns the time in a text of the form `yyyy-mm-dd`, which is 0 h of this GPS date, or
/// `yyyy-mm-ddThh:mm:ss`, from 1980-01-06 on and before week 100,000. `None` for any other text.
pub fn time_of(text: &str) -> Option<GpsTime>
    ensures { MatchOption result ((t : ℕ) → ¬ IsTimeOf text.now t) (IsTimeOf text.now) }
{
    // The question mark gives the proof the range of the time.
    let time = GpsTime::from_civil(&moment_in(text)?)?;
    Some(time)
}

/// Parses a date at 0 h, or followed by a `T` and a time of day.
fn moment_in(text: &str) -> Option<Civil>
    ensures { result ≡ moment_in text.now }
{
    let Some((date, clock)) = cut(text, 'T') else {
        return civil_in(text, 0);
    };
    let midnight = civil_in(date, 0)?;
    let (hour, minute, second) = clock_in(clock)?;
    Some(Civil {
        hour,
        minute,
        millisecond: 1_000 * u16::from(second),
        ..midnight
    })
}

/// Parses an hour, a minute and a second of two digits each, separated by colons.
fn clock_in(text: &str) -> Option<(u8, u8, u8)>
    ensures { IsParsed result (clock_in text.now) (λ t. t.2 < 60) }
{
    let (hour, rest) = cut(text, ':')?;
    let (minute, second) = cut(rest, ':')?;
    Some((
        two_below(hour, 24)?,
        two_below(minute, 60)?,
        two_below(second, 60)?,
    ))
}

/// Parses a number of two digits that is below a bound.
fn two_below(text: &str, bound: u64) -> Option<u8>
    ensures { IsParsed result (two_below bound text.now) (λ n. n < bound) }
{
    let number = fixed_number(text, 2)?;
    (number < bound).then_some(number as u8)
}

/// Parses numbers of four, two and two digits, separated by hyphens.
fn civil_in(text: &str, hour: u8) -> Option<Civil>
    ensures { result ≡ civil_in hour text.now }
{
    let (year, rest) = cut(text, '-')?;
    let (month, day) = cut(rest, '-')?;
    Some(Civil {
        year: fixed_number(year, 4)? as u16,
        month: fixed_number(month, 2)? as u8,
        day: fixed_number(day, 2)? as u8,
        hour,
        minute: 0,
        millisecond: 0,
    })
}

/// Parses a number of exactly `width` digits.
fn fixed_number(text: &str, width: usize) -> Option<u64>
    requires { width ≤ 8 }
    ensures { IsParsed result (fixed_number width text.now) (λ n. n < 10 ^ width) }
{
    if text.len() == width {
        number_of(text, width)
    } else {
        None
    }
}

// ---- lengths in metres, read from text in units of 0.0001 m

/// Returns X, Y and Z of a text in 0.0001 m, each of 38 bits (DF025 to DF027). They are separated
/// by commas, in metres with up to eight digits and four decimals. `None` for any other text.
pub fn position_of(text: &str) -> Option<(i64, i64, i64)>
    ensures { result ≡ position_of text.now }
{
    let (x, rest) = cut(text, ',')?;
    let (y, z) = cut(rest, ',')?;
    Some((coordinate_of(x)?, coordinate_of(y)?, coordinate_of(z)?))
}

/// Parses a length that fits 38 bits, with or without a minus sign, in units of 0.0001 m.
fn coordinate_of(text: &str) -> Option<i64>
    ensures { result ≡ coordinate_of text.now }
{
    match text.strip_prefix('-') {
        Some(size) => Some(-(length_below(size, -LEAST_COORDINATE as u64 + 1)? as i64)),
        None => Some(length_below(text, GREATEST_COORDINATE as u64 + 1)? as i64),
    }
}

/// Returns the length in a text in 0.0001 m, given in metres with up to eight digits and four
/// decimals. `None` for any other text, and for a length that isn't below the bound.
pub fn length_below(text: &str, bound: u64) -> Option<u64>
    ensures { IsParsed result (length_below bound text.now) (λ n. n < bound) }
{
    fixed_point(text, 4).filter(|length| *length < bound)
}

/// Returns the interval in a text in milliseconds, given in seconds with up to three decimals, of
/// 0.001 to 86,400. `None` for any other text.
pub fn interval_of(text: &str) -> Option<u64>
    ensures { IsParsed result (interval_of text.now) (λ n. (0 < n) × (n ≤ longest_interval)) }
{
    fixed_point(text, 3).filter(|interval| 0 < *interval && *interval <= 86_400_000)
}

/// Returns the interval of epochs in a text, given in seconds with up to three decimals. `None` for
/// any other text, below 0.1 s, above a day, and if it isn't a divisor of a day.
pub fn epoch_interval_of(text: &str) -> Option<Interval>
    ensures { result ≡ epoch_interval_of text.now }
{
    Interval::new(interval_of(text)? as u32)
}

/// Returns the tolerance in a text in milliseconds, given in seconds with up to three decimals.
/// `None` for any other text, above 0.5 s, and above half of the interval.
pub fn tolerance_of(text: &str, interval: Option<Interval>) -> Option<u16>
    ensures { result ≡ tolerance_of interval text.now }
{
    let tolerance = fixed_point(text, 3).filter(|tolerance| *tolerance <= 500)? as u16;
    match interval {
        Some(interval) if 2 * u32::from(tolerance) > interval.milliseconds() => None,
        _ => Some(tolerance),
    }
}

/// Parses at most eight digits, a point and `most` decimals, in units of the last decimal.
fn fixed_point(text: &str, most: usize) -> Option<u64>
    requires { most ≤ 4 }
    ensures { result ≡ fixed_point most text.now }
{
    let unit = 10u64.pow(most as u32);
    match cut(text, '.') {
        Some((whole, decimals)) => {
            Some(number_of(whole, 8)? * unit + decimals_of(decimals, most)?)
        }
        None => Some(number_of(text, 8)? * unit),
    }
}

/// Parses one to `most` decimals, in units of the last.
fn decimals_of(text: &str, most: usize) -> Option<u64>
    requires { most ≤ 4 }
    ensures { IsParsed result (decimals_of most text.now) (λ n. n < 10 ^ 12) }
{
    let number = number_of(text, most)?;
    Some(number * 10u64.pow((most - text.len()) as u32))
}

/// Returns the texts before and after the first separator, or `None` if there is none.
pub(crate) fn cut(text: &str, separator: char) -> Option<(&str, &str)>
    requires { separator < 128 }
    ensures { MatchOption result (cut separator text.now ≡ None)
        (λ p. cut separator text.now ≡ Some (p.0.now, p.1.now)) }
{
    text.split_once(separator)
}

/// Parses a number of one to `most` digits.
pub(crate) fn number_of(text: &str, most: usize) -> Option<u64>
    requires { most ≤ 8 }
    ensures { IsParsed result (number_of most text.now) (λ n. n < 10 ^ most) }
{
    // A number may begin with a plus sign for `parse`.
    if text.len() > most || text.starts_with('+') {
        return None;
    }
    text.parse().ok()
}
