//! Times of week in GPS time.
ghost use Rattle.std.specs.Prelude.{◌≡◌, ◌<◌, ◌+◌, ◌-◌, ◌*◌, ◌%◌, IsTrue};
ghost use Rattle.std.specs.Option.{ForSome};
ghost use Rattle.rtcm_msg.specs.Msm.{is_time, week};
ghost use Rattle.gnss_obs.specs.Channels.{ChannelsValue};
ghost use Rattle.rtcm_msg.specs.inner.Viewed.{viewed_message};
ghost use Rattle.obs_epoch.specs.Heard.{heard, heard_summary, tow_of, without_cells};

use gnss_system::{System, TimeScale};
use rtcm_msg::{Summary, View, WEEK, time_of_week};

/// Returns the time of week in GPS time of an epoch time of a system, both in milliseconds. The leap
/// seconds are GPS time minus UTC.
#[inline(always)]
pub fn tow_of(system: System, leap_seconds: u8, time: u32) -> u32
    requires { IsTrue (is_time system time) }
    ensures value { result ≡ tow_of system leap_seconds time }
    ensures bound { result < week }
{
    let time = time_of_week(system, time);
    match system.time_scale() {
        TimeScale::Gps => time,
        TimeScale::Beidou => (time + 14_000) % WEEK,
        TimeScale::Glonass => (time + (WEEK - 10_800_000) + 1_000 * leap_seconds as u32) % WEEK,
    }
}

/// Returns the summary of a message, with its time in GPS time.
#[inline(always)]
pub(crate) fn summary_of(view: &View<'_>, leap_seconds: u8) -> Summary
    ensures value { (channels : ChannelsValue)
        → heard_summary result ≡ without_cells (heard channels leap_seconds (viewed_message view.now)) }
    ensures time { ForSome result.time (λ tow. tow < week) }
{
    let mut said = view.summary();
    if let View::Msm(m) = view {
        said.time = Some(tow_of(m.system(), leap_seconds, m.header().time));
    }
    said
}
