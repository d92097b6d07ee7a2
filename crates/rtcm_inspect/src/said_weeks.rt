//! The week that the ephemerides of a stream contain.
ghost use Rattle.std.specs.Prelude.{◌≡◌, ◌<◌, ◌∷◌, ◌++◌, [], ℕ, List, Option, IfOk, IfSome, option_to_list};
ghost use Rattle.rtcm_scan.specs.Frames.{Framed};
ghost use Rattle.rtcm_inspect.specs.CountedTimes.{greatest_in};
ghost use Rattle.rtcm_inspect.specs.SentWeeks.{is_recent, rest_by, whole_by};
ghost use Rattle.rtcm_inspect.specs.inner.SaidWeeks.{AreSaid, AreSaidIn};

use crate::first_two::FirstTwo;
use gnss_obs::{GpsTime, WEEK};
use rtcm_msg::{SentWeek, sent_week};
use std::alloc::{AllocError, Global};

/// Number of whole weeks of ephemerides, 0 to 16,383.
pub const WHOLE_WEEKS: usize = 1 << 14;

/// The number of weeks modulo which GPS sends its week.
pub const REST_WEEKS: u64 = 1_024;

/// The most milliseconds between the clock reference time of an ephemeris and the time at which it
/// is sent.
const SIX_HOURS: u64 = 21_600_000;

/// A set of weeks, of bounded numbers, the first one that was added, and the first other one.
#[derive(Drop)]
pub struct WeekSet {
    /// Whether a week was added.
    pub added: Vec<bool>,
    /// The first two.
    pub first: FirstTwo,
}

/// What the ephemerides read so far say of the week that was counted as week 0.
#[derive(Drop)]
pub struct SaidWeeks {
    /// By those with whole weeks.
    pub whole: WeekSet,
    /// Modulo 1,024, by the others.
    pub rests: WeekSet,
}

impl WeekSet {
    /// Returns the set of no week, with room for this number of weeks.
    ///
    /// # Errors
    ///
    /// `AllocError` if the allocation failed.
    fn new(alloc: Global, weeks: usize) -> Result<WeekSet, AllocError>
        ensures { IfOk result (λ x. AreSaid x weeks []) }
    {
        Ok(WeekSet {
            added: vec![in alloc; false; weeks]?,
            first: FirstTwo::Unknown,
        })
    }

    /// Adds a week, if there is one.
    fn add(&mut self, week: Option<u16>)
        ensures { (size : ℕ) (ns : List ℕ) → IfSome week (λ n. n < size) → AreSaid self.old size ns
            → AreSaid self.new size (ns ++ option_to_list week) }
    {
        let Some(week) = week else { return };
        // There is room for each week.
        if (week as usize) < self.added.len() {
            self.added[week as usize] = true;
        }
        self.first.add(week);
    }
}

impl SaidWeeks {
    /// Returns what is known before the first message.
    ///
    /// # Errors
    ///
    /// `AllocError` if the allocation failed.
    pub fn new(alloc: Global) -> Result<SaidWeeks, AllocError>
        ensures { IfOk result (λ x. (wanted : Option ℕ) → AreSaidIn x wanted []) }
    {
        let whole = WeekSet::new(alloc, WHOLE_WEEKS)?;
        let rests = WeekSet::new(alloc, REST_WEEKS as usize)?;
        Ok(SaidWeeks { whole, rests })
    }

    /// Adds one more message, with the greatest time so far.
    pub fn add(&mut self, greatest: Option<GpsTime>, message: &[u8])
        ensures { (wanted : Option ℕ) (fs : List Framed) (f : Framed) → f.message ≡ message.now
            → greatest ≡ greatest_in wanted fs → AreSaidIn self.old wanted fs → AreSaidIn self.new wanted (fs ++ f ∷ []) }
    {
        let Some(sent) = sent_week(message) else {
            return
        };
        let Some(greatest) = greatest else { return };
        self.whole.add(whole_by(greatest, &sent));
        self.rests.add(rest_by(greatest, &sent));
    }
}

/// Returns the GPS week that was counted as week 0, if this time is in the week of the ephemeris.
fn whole_by(time: GpsTime, sent: &SentWeek) -> Option<u16>
    ensures { result ≡ whole_by time sent.now }
{
    let week = (time.milliseconds() / WEEK) as u32;
    if sent.is_whole && is_recent(time, sent) && week <= u32::from(sent.week) {
        Some(sent.week - week as u16)
    } else {
        None
    }
}

/// Returns the same modulo 1,024, of an ephemeris whose week is.
fn rest_by(time: GpsTime, sent: &SentWeek) -> Option<u16>
    ensures { result ≡ rest_by time sent.now }
{
    if !sent.is_whole && is_recent(time, sent) {
        let ahead = REST_WEEKS - time.milliseconds() / WEEK % REST_WEEKS;
        Some(((u64::from(sent.week) % REST_WEEKS + ahead) % REST_WEEKS) as u16)
    } else {
        None
    }
}

/// Returns whether the clock reference time of an ephemeris is at most six hours from a time in the
/// same week.
fn is_recent(time: GpsTime, sent: &SentWeek) -> bool
    ensures { result ≡ is_recent time sent.now }
{
    let clock = 1_000 * u64::from(sent.clock);
    let tow = time.milliseconds() % WEEK;
    clock < WEEK && clock <= tow + SIX_HOURS && tow <= clock + SIX_HOURS
}
