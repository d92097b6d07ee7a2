//! The times of messages.
ghost use Rattle.std.specs.Prelude.{◌==◌, ◌≡◌, ◌+◌, ◌<◌, ◌*◌, [], true, false, is_some};
ghost use Rattle.std.specs.Option.{ForSome};
ghost use Rattle.rtcm_msg.specs.Msm.{week};
ghost use Rattle.obs_epoch.specs.Heard.{ends_epoch, heard_summary, is_own};
ghost use Rattle.obs_epoch.specs.Starts.{first_week, is_no_week};

use crate::setup::{Gather, GatherSetup};
use crate::taken::{CellCounts, Kind};
use gnss_obs::{GpsTime, WEEK, WEEKS};
use rtcm_msg::Summary;
use std::marker::Model;

/// The times of a station's messages: the greatest so far, and whether its epoch is pending.
#[derive(Drop)]
pub struct Clock {
    setup: GatherSetup,
    latest: Option<u64>,
    pending: bool,
}

impl Model for Clock {
    ghost use Rattle.std.specs.Prelude.{[]};
    ghost use Rattle.obs_epoch.specs.Clock.{State, IsWithinWeeks};

    ghost Value = { State };

    ghost view = { λ c. record {
      setup = c.setup;
      latest = c.latest;
      pending = c.pending;
    } };

    ghost invariant = { λ c. IsWithinWeeks c.setup.start c.latest c.pending };
}

impl Clock {
    ghost use Rattle.obs_epoch.specs.Clock.{HasHeardMessages};
    ghost use Rattle.obs_epoch.specs.Cells.{no_counts};
    ghost use Rattle.obs_epoch.specs.inner.Step.{KeepsEpoch, kind_by, step_by, kind_now, ended_where, closed_time};
    ghost use Rattle.obs_epoch.specs.inner.Step.{open_at, open_by};
    ghost use Rattle.obs_epoch.specs.GathererAfter.{time_in};

    /// Returns the clock before the first message.
    pub fn new(setup: GatherSetup) -> Clock
        requires { is_no_week setup.start ≡ false }
        ensures { HasHeardMessages result setup [] false }
    {
        Clock {
            setup,
            latest: None,
            pending: false,
        }
    }

    /// Returns the settings.
    pub fn setup(&self) -> &GatherSetup
        ensures { result.now ≡ self.now.setup }
    {
        &self.setup
    }

    /// Returns whether an epoch is pending.
    pub fn is_pending(&self) -> bool
        ensures { result ≡ self.now.pending }
    {
        self.pending
    }

    /// Closes the pending epoch, if there is one.
    pub fn end(&mut self)
        ensures { self.new ≡ record self.old { pending = false } }
    {
        self.pending = false;
    }

    /// Returns the greatest time so far: that of the pending epoch. It is 0 before the first.
    #[inline(always)]
    pub fn time(&self) -> GpsTime
        ensures { result ≡ time_in self.now }
    {
        GpsTime::within(self.latest.unwrap_or(0))
    }

    /// Processes a message, and returns its outcome, with counts of 0, and whether it closes the
    /// pending epoch, which is pending until `end`.
    pub fn step(&mut self, said: &Summary) -> (Kind, bool)
        requires { ForSome said.now.time (λ tow. tow < week) }
        ensures kind { result.0 ≡ kind_by self.old no_counts (heard_summary said.now) }
        ensures closed { result.1 ≡ is_some (closed_time self.old (heard_summary said.now)) }
        ensures step { self.new ≡ open_by self.old (heard_summary said.now) }
        ensures keeps { KeepsEpoch self.old self.new }
        ensures ended { ended_where result.1 self.new ≡ step_by self.old (heard_summary said.now) }
    {
        let ends = self.ends_epoch(said);
        let kind = self.outcome(said);
        (kind, kind.is_close_first() || ends && self.pending)
    }

    /// Returns whether a message is of the wanted station.
    pub fn is_own(&self, said: &Summary) -> bool
        ensures { result ≡ is_own self.now.setup (heard_summary said.now) }
    {
        said.station.is_some()
            && (self.setup.station.is_none() || said.station == self.setup.station)
    }

    // Returns whether a message ends its epoch. A pending epoch has a time.
    fn ends_epoch(&self, said: &Summary) -> bool
        ensures value { result ≡ ends_epoch self.now.setup (heard_summary said.now) }
        ensures known { self.now.pending ≡ true → is_some self.now.latest ≡ true }
    {
        matches!(self.setup.gather, Gather::Bit) && self.is_own(said) && said.more == Some(false)
    }

    // Processes the time of a message, and returns its outcome.
    fn outcome(&mut self, said: &Summary) -> Kind
        requires { ForSome said.now.time (λ tow. tow < week) }
        ensures kind { result ≡ kind_by self.old no_counts (heard_summary said.now) }
        ensures step { self.new ≡ open_by self.old (heard_summary said.now) }
    {
        match said.time {
            None if said.point.is_none() => Kind::Ignored,
            _ if !self.is_own(said) => Kind::OtherStation,
            None => Kind::Station,
            Some(tow) => self.outcome_at(tow),
        }
    }

    // Processes observations of the station with this time of week in milliseconds, and returns
    // their outcome.
    fn outcome_at(&mut self, tow: u32) -> Kind
        requires { tow < week }
        ensures kind { result ≡ kind_now self.old no_counts tow }
        ensures step { self.new ≡ open_at self.old tow }
    {
        let time = match self.latest {
            None => self.first_time(tow),
            Some(latest) => {
                let ahead = (tow as u64 + (WEEK - latest % WEEK)) % WEEK;
                if ahead > WEEK / 2 || ahead == 0 && !self.pending {
                    return Kind::Late;
                }
                let time = latest + ahead;
                if time < WEEKS * WEEK && ahead > 0 && self.pending {
                    return Kind::CloseFirst;
                }
                time
            }
        };
        if time >= WEEKS * WEEK {
            return Kind::PastWeeks;
        }
        self.latest = Some(time);
        self.pending = true;
        Kind::Kept(CellCounts::default())
    }

    // Returns the time of the first observations, which have this time of week in milliseconds.
    #[inline(never)]
    fn first_time(&self, tow: u32) -> u64
        ensures { result ≡ first_week self.now.setup.start tow * week + tow }
    {
        self.setup.start.week(tow) as u64 * WEEK + tow as u64
    }
}
