//! The indexes of epochs at an interval, and the gaps between them.
ghost use Rattle.std.specs.Prelude.{◌≡◌, ◌<◌, option_to_list};
ghost use Rattle.rinex_inspect.specs.CheckOutput.{size_of};
ghost use Rattle.rinex_inspect.specs.Gaps.{IsCompleteness, capped, early, ends_in, is_in_window, origin_in, placed};
ghost use Rattle.rinex_inspect.specs.Gaps.{window_size};
ghost use Rattle.rinex_inspect.specs.inner.Missing.{last_with};

use gnss_obs::GpsTime;
use rinex_file::EpochTimes;
use std::marker::Model;

/// What makes a file complete: an epoch at each interval from its first epoch to its last one, or
/// in each interval of a window.
#[derive(Clone, Copy)]
pub struct Completeness {
    interval: u64,
    window: Option<Window>,
}

impl Model for Completeness {
    ghost use Rattle.rinex_inspect.specs.Gaps.{Completeness, IsCompleteness};

    ghost Value = { Completeness };

    ghost view = { λ g. record { interval = g.interval; window = g.window } };

    ghost inverse = { λ g. record { interval = g.interval; window = g.window } };

    ghost invariant = { λ g. IsCompleteness (record { interval = g.interval; window = g.window }) };
}

/// The times from which on and before which a file has epochs.
#[derive(Clone, Copy)]
pub struct Window {
    /// The begin of the first interval.
    pub from: GpsTime,
    /// The end of the last interval.
    pub until: GpsTime,
}

/// A time, and its place in a file: the index of its epoch plus one. The begin of a window has the
/// place 0, and its end that after the last index.
#[derive(Clone, Copy)]
pub(crate) struct Placed {
    pub(crate) place: u64,
    pub(crate) time: GpsTime,
}

impl Window {
    /// Returns the number of intervals of this length.
    fn size(&self, interval: u64) -> u64
        requires { 0 < interval }
        ensures { result ≡ window_size interval self.now }
    {
        let from = self.from.milliseconds();
        self.until.milliseconds().saturating_sub(from) / interval
    }
}

impl Completeness {
    /// Returns what makes a file complete with epochs at an interval in milliseconds, of at most a
    /// day: in a window of a whole number of intervals, if there is one.
    pub fn new(interval: u64, window: Option<Window>) -> Completeness
        requires { IsCompleteness (record { interval = interval; window = window }) }
        ensures { result ≡ record { interval = interval; window = window } }
    {
        Completeness { interval, window }
    }

    /// Returns the time from which on indexes are counted in a file that begins at this time.
    pub(crate) fn origin(&self, first: GpsTime) -> GpsTime
        ensures time { result ≡ origin_in self.now.window first }
        ensures fits { IsCompleteness self.now }
    {
        self.window.map_or(first, |window| window.from)
    }

    /// Returns whether the window, if there is one, has an epoch at this time.
    pub(crate) fn is_inside(&self, time: GpsTime) -> bool
        ensures { result ≡ is_in_window self.now.window (early self.now) time }
    {
        let Some(window) = &self.window else {
            return true;
        };
        let time = time.milliseconds();
        window.from.milliseconds() <= time + self.early() && time < window.until.milliseconds()
    }

    /// Returns how much before its time an epoch may be, in milliseconds.
    fn early(&self) -> u64
        ensures { result ≡ early self.now }
    {
        (self.interval / 2).min(500)
    }

    /// Returns the place of an epoch at this time.
    pub(crate) fn placed(&self, origin: GpsTime, time: GpsTime) -> Placed
        ensures { result ≡ placed self.now origin time }
    {
        let latest = time.milliseconds() + self.early();
        let since = latest.saturating_sub(origin.milliseconds());
        let index = self.capped(since / self.interval);
        Placed {
            place: index.saturating_add(1),
            time,
        }
    }

    /// Returns the index of an epoch that is this number of intervals after the origin.
    fn capped(&self, intervals: u64) -> u64
        ensures { result ≡ capped self.now.window self.now intervals }
    {
        match &self.window {
            Some(window) => intervals.min(window.size(self.interval).saturating_sub(1)),
            None => intervals,
        }
    }

    /// Returns the end of the window, if there is one.
    pub(crate) fn end(&self) -> Option<Placed>
        ensures { option_to_list result ≡ ends_in self.now.window self.now.interval }
    {
        let window = self.window?;
        Some(Placed {
            place: window.size(self.interval) + 1,
            time: window.until,
        })
    }

    /// Returns the number of epochs of a complete file with these times.
    pub(crate) fn size(&self, times: &EpochTimes) -> u64
        ensures { result ≡ size_of self.now times.now }
    {
        match &self.window {
            Some(window) => window.size(self.interval),
            None => self.placed(times.first, times.last).place,
        }
    }
}

/// Returns the place of the last epoch with these times, or the begin of the file at its origin.
pub(crate) fn last_placed(
    complete: &Completeness,
    origin: GpsTime,
    times: &Option<EpochTimes>,
) -> Placed
    ensures { result ≡ last_with complete.now origin times.now }
{
    match times {
        Some(times) => complete.placed(origin, times.last),
        None => Placed {
            place: 0,
            time: origin,
        },
    }
}
