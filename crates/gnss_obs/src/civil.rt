//! GPS time as a calendar date and a time of day.
ghost use Rattle.std.specs.Prelude.{◌≡◌, ◌<◌, ◌*◌, ◌+◌, ℕ, IfSome, IfNone, pos, ◌*ℤ◌};
ghost use Rattle.gnss_obs.specs.Weeks.{week, weeks};
ghost use Rattle.gnss_obs.specs.Dates.{IsCivil, IsCivilOf, civil_of, nanoseconds_of};
ghost use Rattle.jiff.specs.Words.{civil_nanos};

use crate::time::GpsTime;
use jiff::SignedDuration;
use jiff::civil::DateTime;

/// A date of the Gregorian calendar and a time of day. GPS time has no leap seconds, so each minute
/// has 60,000 milliseconds.
#[derive(Clone, Copy, PartialEq)]
pub struct Civil {
    /// The year: 1980 to 3896 for the date of a `GpsTime`.
    pub year: u16,
    /// The month, 1 to 12.
    pub month: u8,
    /// The day of the month, 1 to 31.
    pub day: u8,
    /// The hour, 0 to 23.
    pub hour: u8,
    /// The minute, 0 to 59.
    pub minute: u8,
    /// The millisecond of the minute, 0 to 59,999: seconds and milliseconds in one number.
    pub millisecond: u16,
}

// Returns 1980-01-06 00:00:00, the origin of GPS time.
fn beginning() -> DateTime
    ensures { civil_nanos result ≡ pos 3657 *ℤ pos 86_400_000_000_000 }
{
    DateTime::constant(1980, 1, 6, 0, 0, 0, 0)
}

impl GpsTime {
    /// Returns the calendar date and the time of day.
    pub fn civil(self) -> Civil
        ensures relation { IsCivilOf self result }
        ensures walk { result ≡ civil_of self }
    {
        let since = SignedDuration::from_millis(self.milliseconds() as i64);
        let at = beginning().checked_add(since).unwrap();
        Civil {
            year: at.year() as u16,
            month: at.month() as u8,
            day: at.day() as u8,
            hour: at.hour() as u8,
            minute: at.minute() as u8,
            millisecond: at.second() as u16 * 1_000 + at.millisecond() as u16,
        }
    }

    /// Returns the time with this date and time of day. `None` if they are not valid, before
    /// 1980-01-06 00:00:00, and from week 100,000 on.
    pub fn from_civil(civil: &Civil) -> Option<GpsTime>
        ensures some { IfSome result (λ t. IsCivilOf t civil.now) }
        ensures walk { IfSome result (λ t. civil.now ≡ civil_of t) }
        ensures none { IfNone result ((t : ℕ) → t < weeks * week → ¬ IsCivilOf t civil.now) }
    {
        let since = at_of(civil)?.duration_since(beginning()).as_millis();
        if since < 0 {
            return None;
        }
        GpsTime::new(since as u64)
    }
}

// Returns the date and time of day as a `DateTime`, or `None` if they are not valid.
fn at_of(civil: &Civil) -> Option<DateTime>
    ensures some { IfSome result (λ at. IsCivil civil.now × (civil_nanos at ≡ nanoseconds_of civil.now)) }
    ensures none { IfNone result (¬ IsCivil civil.now) }
{
    if civil.hour > 23 || civil.minute > 59 || civil.millisecond > 59_999 {
        return None;
    }
    if civil.year > 9_999 || civil.month > 12 || civil.day > 31 {
        return None;
    }
    DateTime::new(
        civil.year as i16,
        civil.month as i8,
        civil.day as i8,
        civil.hour as i8,
        civil.minute as i8,
        (civil.millisecond / 1_000) as i8,
        (civil.millisecond % 1_000) as i32 * 1_000_000,
    )
    .ok()
}
