//! The week of the first observations.
ghost use Rattle.std.specs.Prelude.{◌≡◌, ◌<◌};
ghost use Rattle.gnss_obs.specs.Weeks.{weeks};
ghost use Rattle.rtcm_msg.specs.Msm.{week};
ghost use Rattle.obs_epoch.specs.NearWeek.{IsWeekNear, week_near};
ghost use Rattle.obs_epoch.specs.Starts.{first_week, is_no_week};

use gnss_obs::{GpsTime, WEEK, WEEKS};

/// What gives the week of the first observations: those of the first message that is accepted.
#[derive(Clone, Copy)]
pub enum Start {
    /// This GPS week, from 0 to 99,999, without wrapping.
    Week(u32),
    /// The week in which they are nearest to this time, as `week_near` returns it.
    Near(GpsTime),
}

impl Start {
    /// Returns the week of the first observations, which have this time of week in milliseconds.
    #[tactic(auto, unfolding(crate::specs::Starts::first_week))]
    pub fn week(self, tow: u32) -> u32
        ensures { result ≡ first_week self tow }
    {
        match self {
            Start::Week(week) => week,
            Start::Near(noon) => week_near(noon, tow),
        }
    }

    /// Returns whether it is a week greater than 99,999.
    pub(crate) fn is_no_week(self) -> bool
        ensures { result ≡ is_no_week self }
    {
        matches!(self, Start::Week(week) if week as u64 >= WEEKS)
    }
}

/// Returns the week, from 0 to 99,999, in which a time of week in milliseconds is nearest to a
/// time, such as noon of a date. A time that is half a week from it in two weeks is that before it.
/// If the nearest week is before the first or after the last one, that one is returned.
pub fn week_near(noon: GpsTime, tow: u32) -> u32
    ensures value { result ≡ week_near noon tow }
    ensures near { IsWeekNear noon tow result }
    ensures bound { result < weeks }
{
    let before = (noon.milliseconds() + WEEK / 2 - 1).saturating_sub(tow as u64);
    (before / WEEK).min(WEEKS - 1) as u32
}
