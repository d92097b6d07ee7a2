//! Leap seconds by dates.

use line_texts::{hour_of, leap_at};
/// The last day before a change of the leap seconds, the day from which the number is the next one,
/// and that number.
static CHANGES: [(&str, &str, u8); 18] = [
    ("1981-06-30", "1981-07-01", 1),
    ("1982-06-30", "1982-07-01", 2),
    ("1983-06-30", "1983-07-01", 3),
    ("1985-06-30", "1985-07-01", 4),
    ("1987-12-31", "1988-01-01", 5),
    ("1989-12-31", "1990-01-01", 6),
    ("1990-12-31", "1991-01-01", 7),
    ("1992-06-30", "1992-07-01", 8),
    ("1993-06-30", "1993-07-01", 9),
    ("1994-06-30", "1994-07-01", 10),
    ("1995-12-31", "1996-01-01", 11),
    ("1997-06-30", "1997-07-01", 12),
    ("1998-12-31", "1999-01-01", 13),
    ("2005-12-31", "2006-01-01", 14),
    ("2008-12-31", "2009-01-01", 15),
    ("2012-06-30", "2012-07-01", 16),
    ("2015-06-30", "2015-07-01", 17),
    ("2016-12-31", "2017-01-01", 18),
];

/// Whether the noon of a date has this number of leap seconds.
fn has(date: &str, leap: u8) -> bool {
    match hour_of(date, 12) {
        Some(noon) => leap_at(noon) == leap,
        None => false,
    }
}

#[test]
fn leap_seconds_change_on_their_dates(rt: HostRuntime) {
    assert!(rt; has("1980-01-06", 0));
    for (before, from, leap) in &CHANGES {
        assert!(rt; has(before, leap.saturating_sub(1)));
        assert!(rt; has(from, *leap));
    }
    assert!(rt; has("2100-01-01", 18));
}
