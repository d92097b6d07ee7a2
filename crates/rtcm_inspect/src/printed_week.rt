//! The week of the options: that nearest to a date, or that of the stream's ephemerides.
ghost use Rattle.std.specs.Prelude.{◌≡◌, ◌+◌, ◌*◌, ◌/◌, ◌<◌, ◌≤◌, ◌^◌, ℕ, List, Option, Some, MatchOption};
ghost use Rattle.std.specs.Prelude.{false, true};
ghost use Rattle.std.specs.List.{list_any};
ghost use Rattle.gnss_obs.specs.Weeks.{week};
ghost use Rattle.rtcm_inspect.specs.FaultWords.{week_date};
ghost use Rattle.rtcm_inspect.specs.NearWeek.{IsWeekFor};
ghost use Rattle.rtcm_inspect.specs.SentWeeks.{IsNearestRest, IsOtherTime, first_msm, is_denied, is_in};
ghost use Rattle.rtcm_inspect.specs.SentWeeks.{leap_by, leap_with, rest_of, time_in, week_by, within_weeks};
ghost use Rattle.rtcm_inspect.specs.inner.Counting.{GivesWeek, HoldsForFrames};
ghost use Rattle.rtcm_inspect.specs.inner.SaidWeeks.{AreSaid};

use crate::counting::StreamSignals;
use crate::decoded::set_had;
use crate::fault::{InspectFault, WeekDate};
use crate::first_tows::ahead;
use crate::first_two::FirstTwo;
use crate::said_weeks::{REST_WEEKS, SaidWeeks, WHOLE_WEEKS, WeekSet};
use gnss_obs::{GpsTime, WEEK, WEEKS};
use line_texts::leap_at;
use obs_epoch::week_near;

/// Where the week of the options comes from.
#[derive(Clone, Copy)]
pub enum WeekSource {
    /// The options have no week.
    Unprinted,
    /// It is the one in which the first MSM is nearest to the noon of a date.
    Near(GpsTime),
    /// It is that of the ephemerides.
    Ephemerides,
}

/// The week and the leap seconds of the options.
#[derive(Clone, Copy, Default)]
pub struct PrintedWeek {
    /// The week of the first MSM that is converted.
    pub week: Option<u32>,
    /// GPS time minus UTC on its date, or on the one given.
    pub leap: Option<u8>,
}

/// The first MSM that is converted with the options.
#[derive(Clone, Copy)]
pub struct FirstMsm {
    /// The greatest time at it, counted from week 0.
    pub greatest: GpsTime,
    /// Its time of week.
    pub tow: u32,
}

/// Returns the week of the options that fit a stream, and the leap seconds.
///
/// Near a date it is the week in which the first MSM is nearest to noon. A time that is half a week
/// from noon in two weeks is that before noon; if the nearest week is before the first or after the
/// last one, 99,999, it is that one. By ephemerides it is the week of the first MSM, by the week in
/// each message 1042, 1045 or 1046 whose clock reference time is at most six hours from the greatest
/// time before it.
///
/// # Errors
///
/// By ephemerides `NoWeek` if none has such a clock reference time, and `SeveralWeeks` if they say
/// different ones: by the first of them, and by the first other one. Near a date `OtherWeek` if none
/// of them says that week, or, without one, there are such messages 1019, whose week is modulo
/// 1,024, and none of them says it: the week by the first one.
pub fn printed_week(
    signals: &StreamSignals,
    source: WeekSource,
) -> Result<PrintedWeek, InspectFault>
    ensures { GivesWeek signals.now source result }
{
    match source {
        WeekSource::Unprinted => Ok(PrintedWeek::default()),
        WeekSource::Near(noon) => dated_week(signals, noon),
        WeekSource::Ephemerides => sent_week(signals),
    }
}

/// Returns the week of the first MSM by the ephemerides.
fn sent_week(signals: &StreamSignals) -> Result<PrintedWeek, InspectFault>
    ensures { GivesWeek signals.now WeekSource.Ephemerides result }
{
    match signals.weeks.whole.first {
        FirstTwo::Unknown => Err(InspectFault::NoWeek),
        FirstTwo::One(zero) => Ok(PrintedWeek {
            week: Some(week_by(signals, zero)),
            leap: Some(leap_by(signals, zero)),
        }),
        FirstTwo::Several(zero, other) => {
            let (week, other) = (week_by(signals, zero), week_by(signals, other));
            Err(InspectFault::SeveralWeeks(week, other))
        }
    }
}

/// Returns the leap seconds on the date of the first MSM, if this GPS week was counted as week 0.
fn leap_by(signals: &StreamSignals, zero: u16) -> u8
    ensures { HoldsForFrames signals.now (λ station fs. result ≡ leap_by station fs zero) }
{
    leap_with(signals, zero, leap_with(signals, zero, 0))
}

/// Returns the leap seconds on the date of the first MSM, if its time is that by these leap seconds,
/// which one of GLONASS depends on.
fn leap_with(signals: &StreamSignals, zero: u16, leap: u8) -> u8
    ensures { HoldsForFrames signals.now (λ station fs. result ≡ leap_with station fs zero leap) }
{
    leap_at(within_weeks(time_in(u64::from(zero), &first_msm(signals, leap))))
}

/// Returns the week of the first MSM, if this GPS week was counted as week 0.
fn week_by(signals: &StreamSignals, zero: u16) -> u32
    ensures { HoldsForFrames signals.now (λ station fs. result ≡ week_by station fs zero) }
{
    let first = first_msm(signals, leap_by(signals, zero));
    (within_weeks(time_in(u64::from(zero), &first)).milliseconds() / WEEK) as u32
}

/// Returns the first MSM, with these leap seconds.
fn first_msm(signals: &StreamSignals, leap: u8) -> FirstMsm
    ensures { HoldsForFrames signals.now (λ station fs. result ≡ first_msm leap station fs) }
{
    let set = set_had(signals);
    let greatest = signals.first.tows.greatest_at_first(&set);
    FirstMsm {
        greatest: greatest.unwrap_or(GpsTime::within(0)),
        tow: signals.first.tows.first_tow(&set, leap).unwrap_or(0),
    }
}

/// Returns the time of the first MSM, if this GPS week was counted as week 0; 0 if it is before GPS
/// week 0.
fn time_in(zero: u64, first: &FirstMsm) -> u64
    requires { zero < 2 ^ 17 }
    ensures { result ≡ time_in zero first.now }
{
    let time = zero * WEEK + first.greatest.milliseconds();
    let ahead = ahead(time, first.tow);
    if ahead > WEEK / 2 {
        (time + ahead).saturating_sub(WEEK)
    } else {
        time + ahead
    }
}

/// Returns a time, or the last one that a conversion accepts.
fn within_weeks(time: u64) -> GpsTime
    ensures { result ≡ within_weeks time }
{
    GpsTime::within(time.min(WEEKS * WEEK - 1))
}

/// Returns the week of the first MSM near the noon of a date.
fn dated_week(signals: &StreamSignals, noon: GpsTime) -> Result<PrintedWeek, InspectFault>
    ensures { GivesWeek signals.now (WeekSource.Near noon) result }
{
    let leap = leap_at(noon);
    let week = week_for(noon, signals.first.tows.first_tow(&set_had(signals), leap));
    if let Some(week) = week {
        let first = first_msm(signals, leap);
        if let Some(time) = other_time(&signals.weeks, &first, noon, week) {
            return Err(InspectFault::OtherWeek(week_date(time)));
        }
    }
    Ok(PrintedWeek {
        week,
        leap: Some(leap),
    })
}

/// Returns the week for the noon of a date and the time of week of the first MSM.
fn week_for(noon: GpsTime, tow: Option<u32>) -> Option<u32>
    ensures { IsWeekFor (Some noon) tow result }
{
    Some(week_near(noon, tow?))
}

/// Returns the time of the first MSM by the first ephemeris, if they deny that it is in this week.
fn other_time(said: &SaidWeeks, first: &FirstMsm, noon: GpsTime, week: u32) -> Option<GpsTime>
    ensures { (ds rs : List ℕ) → AreSaid said.now.whole 16_384 ds → AreSaid said.now.rests 1_024 rs
        → MatchOption result (is_denied first.now ds rs week ≡ false)
        (λ t. (is_denied first.now ds rs week ≡ true) × IsOtherTime noon first.now ds rs t) }
{
    match (said.whole.first.first(), said.rests.first.first()) {
        (Some(zero), _) => {
            if has_week(&said.whole, true, first, week) {
                None
            } else {
                Some(within_weeks(time_in(u64::from(zero), first)))
            }
        }
        (None, Some(zero)) => {
            if has_week(&said.rests, false, first, week) {
                None
            } else {
                Some(time_of_rest(noon, first, zero))
            }
        }
        (None, None) => None,
    }
}

/// Returns whether the first MSM is in this week by one of the weeks that was counted as week 0,
/// which are whole or modulo 1,024.
fn has_week(weeks: &WeekSet, is_whole: bool, first: &FirstMsm, week: u32) -> bool
    ensures { (size : ℕ) (ns : List ℕ) → size ≤ 16_384 → AreSaid weeks.now size ns
        → result ≡ list_any (is_in is_whole first.now week) ns }
{
    let mut found = false;
    for zero in 0..weeks.added.len().min(WHOLE_WEEKS) {
        if weeks.added[zero] {
            found = found || is_in(is_whole, first, week, zero as u64);
        }
    }
    found
}

/// Returns whether the first MSM is in this week, if this GPS week, which is whole or modulo 1,024,
/// was counted as week 0.
fn is_in(is_whole: bool, first: &FirstMsm, week: u32, zero: u64) -> bool
    requires { zero < 2 ^ 16 }
    ensures { result ≡ is_in is_whole first.now week zero }
{
    if is_whole {
        time_in(zero, first) / WEEK == u64::from(week)
    } else {
        rest_of(first, zero) == u64::from(week) % REST_WEEKS
    }
}

/// Returns the week of the first MSM modulo 1,024, by that of the week that was counted as week 0.
fn rest_of(first: &FirstMsm, zero: u64) -> u64
    requires { zero < 2 ^ 16 }
    ensures { result ≡ rest_of first.now zero }
{
    time_in(zero + REST_WEEKS, first) / WEEK % REST_WEEKS
}

/// Returns the time of the first MSM in the week nearest to noon of those that are congruent, modulo
/// 1,024, to its week if this one was counted as week 0.
fn time_of_rest(noon: GpsTime, first: &FirstMsm, zero: u16) -> GpsTime
    ensures { (w : ℕ) × IsNearestRest noon first.now.tow (rest_of first.now zero) w
        × (result ≡ within_weeks (w * week + first.now.tow)) }
{
    let week = nearest_rest(noon, first.tow, rest_of(first, u64::from(zero)));
    within_weeks(week * WEEK + u64::from(first.tow))
}

/// Returns the week with this rest modulo 1,024 in which a time of week is nearest to noon; of two
/// the earlier one.
fn nearest_rest(noon: GpsTime, tow: u32, rest: u64) -> u64
    requires { rest < 1_024 }
    ensures { IsNearestRest noon tow rest result }
{
    let span = REST_WEEKS * WEEK;
    let first = rest * WEEK + u64::from(tow);
    let spans = (noon.milliseconds() + span / 2 - 1).saturating_sub(first) / span;
    rest + REST_WEEKS * spans.min((WEEKS - 1 - rest) / REST_WEEKS)
}

/// Returns the week and the date of a time.
fn week_date(time: GpsTime) -> WeekDate
    ensures { result ≡ week_date time }
{
    let civil = time.civil();
    WeekDate {
        week: (time.milliseconds() / WEEK) as u32,
        year: civil.year,
        month: civil.month,
        day: civil.day,
    }
}
