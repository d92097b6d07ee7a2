//! GPS time.
ghost use Rattle.std.specs.Prelude.{◌≡◌, ◌<◌, ◌*◌, ◌↔◌, IsSome, IfSome};
ghost use Rattle.gnss_obs.specs.Weeks.{week, weeks};

use std::marker::Model;

/// Number of milliseconds of a week.
pub const WEEK: u64 = 604_800_000;

/// Number of weeks: 0 to 99,999.
pub const WEEKS: u64 = 100_000;

/// A time in milliseconds since 1980-01-06 00:00:00 GPS time, in the weeks 0 to 99,999. GPS time
/// has no leap seconds.
#[derive(Clone, Copy)]
pub struct GpsTime(u64);

impl Model for GpsTime {
    ghost use Rattle.std.specs.Prelude.{ℕ, ◌<◌, ◌*◌};
    ghost use Rattle.gnss_obs.specs.Weeks.{week};
    ghost use Rattle.gnss_obs.specs.Weeks.{weeks};

    ghost Value = { ℕ };

    ghost view = { λ t. t.0 };

    ghost inverse = { λ n. record { 0 = n } };

    ghost invariant = { λ t. t.0 < weeks * week };
}

impl GpsTime {
    /// Returns the time this number of milliseconds after 1980-01-06 00:00:00, or `None` from week
    /// 100,000 on.
    pub fn new(milliseconds: u64) -> Option<GpsTime>
        ensures some { IsSome result ↔ (milliseconds < weeks * week) }
        ensures value { IfSome result (λ t. t ≡ milliseconds) }
    {
        if milliseconds < WEEKS * WEEK {
            Some(GpsTime(milliseconds))
        } else {
            None
        }
    }

    /// Returns the time of a number of milliseconds that is known to be within the weeks.
    pub fn within(milliseconds: u64) -> GpsTime
        requires { milliseconds < weeks * week }
        ensures { result ≡ milliseconds }
    {
        GpsTime(milliseconds)
    }

    /// Returns the number of milliseconds since 1980-01-06 00:00:00.
    pub fn milliseconds(self) -> u64
        ensures value { result ≡ self }
        ensures bound { result < weeks * week }
    {
        self.0
    }
}
