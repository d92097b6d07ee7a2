//! The choice of epochs by their times.
ghost use Rattle.std.specs.Prelude.{◌≡◌, IfSome, if◌then◌else◌};
ghost use Rattle.gnss_obs.specs.Intervals.{IsInterval};
ghost use Rattle.obs_epoch.specs.Choices.{every_epoch, in_window, on_grid};
ghost use Rattle.obs_epoch.specs.inner.Marks.{counted_epoch};

use gnss_obs::{GpsTime, Interval};

/// Which epochs are returned: those in a window of time, on the grid of an interval. The nominal
/// time of an epoch is its time plus the tolerance.
#[derive(Clone, Copy)]
pub struct Choice {
    /// The first nominal time of the window, in milliseconds since 1980-01-06 00:00:00 GPS time.
    pub from: u64,
    /// The nominal time at which the window has ended.
    pub until: u64,
    /// The interval of the grid, whose times are its multiples since 1980-01-06 00:00:00; with
    /// `None` every epoch is on the grid.
    pub interval: Option<Interval>,
    /// Largest difference between the time of an epoch on the grid and a time of the grid, in
    /// milliseconds.
    pub tolerance: u16,
}

impl Choice {
    /// Returns the interval in milliseconds, if there is one.
    pub fn interval_milliseconds(&self) -> Option<u32>
        ensures value { result ≡ self.now.interval }
        ensures bound { IfSome result IsInterval }
    {
        self.interval.map(|interval| interval.milliseconds())
    }

    /// Returns whether the epoch of this time is in the window.
    pub fn window_includes(&self, time: GpsTime) -> bool
        ensures { result ≡ in_window self.now time }
    {
        let nominal = time.milliseconds() + self.tolerance as u64;
        self.from <= nominal && nominal < self.until
    }

    /// Returns whether the epoch of this time is on the grid.
    pub fn grid_includes(&self, time: GpsTime) -> bool
        ensures { result ≡ on_grid self.now time }
    {
        let tolerance = self.tolerance as u64;
        let nominal = time.milliseconds() + tolerance;
        self.interval.is_none_or(|interval| {
            nominal % interval.milliseconds() as u64 <= 2 * tolerance
        })
    }
}

impl Default for Choice {
    /// Returns the choice of every epoch.
    fn default() -> Choice
        ensures { result ≡ every_epoch }
    {
        Choice {
            from: 0,
            until: u64::MAX,
            interval: None,
            tolerance: 5,
        }
    }
}

/// Numbers of epochs in which a satellite has a value.
#[derive(Clone, Copy, Debug, Default, PartialEq, Eq)]
pub struct EpochCounts {
    /// All of them.
    pub epochs: u64,
    /// Those in the window.
    pub window: u64,
    /// Those on the grid.
    pub grid: u64,
}

impl EpochCounts {
    /// Counts an epoch, if it is one of those that are counted.
    pub(crate) fn count(&mut self, is_counted: bool, in_window: bool, on_grid: bool)
        ensures { self.new ≡ (if is_counted then counted_epoch in_window on_grid self.old else self.old) }
    {
        if !is_counted {
            return;
        }
        self.epochs = self.epochs.saturating_add(1);
        self.window = self.window.saturating_add(in_window as u64);
        self.grid = self.grid.saturating_add(on_grid as u64);
    }
}
