//! Leap seconds: GPS time minus UTC.
ghost use Rattle.std.specs.Prelude.{◌≡◌};
ghost use Rattle.line_texts.specs.LeapSeconds.{leap_at, leap_in};

use gnss_obs::{Civil, GpsTime};

/// The months at whose start GPS time minus UTC has grown by one second, counted from year 0 on.
const LEAP_MONTHS: [u32; 18] = [
    12 * 1981 + 7,
    12 * 1982 + 7,
    12 * 1983 + 7,
    12 * 1985 + 7,
    12 * 1988 + 1,
    12 * 1990 + 1,
    12 * 1991 + 1,
    12 * 1992 + 7,
    12 * 1993 + 7,
    12 * 1994 + 7,
    12 * 1996 + 1,
    12 * 1997 + 7,
    12 * 1999 + 1,
    12 * 2006 + 1,
    12 * 2009 + 1,
    12 * 2012 + 7,
    12 * 2015 + 7,
    12 * 2017 + 1,
];

/// Returns GPS time minus UTC in seconds on the date of a time, after its first minute.
pub fn leap_at(time: GpsTime) -> u8
    ensures { result ≡ leap_at time }
{
    leap_in(&time.civil())
}

/// Returns the number of months of the table up to that of a date.
fn leap_in(date: &Civil) -> u8
    ensures { result ≡ leap_in date.now }
{
    let month = 12 * u32::from(date.year) + u32::from(date.month);
    LEAP_MONTHS.iter().filter(|m| **m <= month).count() as u8
}
