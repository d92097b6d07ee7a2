//! The outcome of a message.
ghost use Rattle.std.specs.Prelude.{◌≡◌, ◌<◌, ◌≤◌};
ghost use Rattle.obs_epoch.specs.Cells.{cells_counted};
ghost use Rattle.obs_epoch.specs.inner.Held.{count_in, outcome_of_added};
ghost use Rattle.obs_epoch.specs.Kinds.{is_close_first};

use gnss_obs::Added;

/// The outcome of a message.
#[derive(Clone, Copy, PartialEq)]
pub enum Kind {
    /// A message of another number than those that are decoded, of any station.
    Ignored,
    /// A station message, 1005 or 1006.
    Station,
    /// A message of another station.
    OtherStation,
    /// Observations older than the current epoch, or of an epoch already closed.
    Late,
    /// Observations of week 100,000 or later.
    PastWeeks,
    /// Observations that were accepted, with the number of cells of each outcome.
    Kept(CellCounts),
    /// Observations of a later epoch: the pending epoch was closed. Pass the message again.
    CloseFirst,
}

/// The number of cells of a message with each outcome.
#[derive(Clone, Copy, Default, PartialEq)]
pub struct CellCounts {
    /// Cells that were kept.
    pub kept: usize,
    /// Those of them of GLONASS satellites without a channel, which have no phase and no Doppler
    /// shift.
    pub without_channel: usize,
    /// Cells of an unlisted satellite or signal, or of a signal that isn't planned.
    pub skipped: usize,
    /// Cells of a satellite and signal of which the epoch has a cell already.
    pub repeated: usize,
    /// Cells of a system of which the epoch has 256 cells already.
    pub crowded: usize,
}

/// The outcome of a message, and whether the call closed an epoch.
#[derive(Clone, Copy, PartialEq)]
pub struct Taken {
    /// The outcome of the message.
    pub kind: Kind,
    /// Whether the call closed an epoch, which `Gatherer::closed` then returns.
    pub closed: bool,
}

impl CellCounts {
    /// Counts the outcome of a cell of a planned signal, which may lack a channel.
    #[inline(always)]
    pub(crate) fn add(&mut self, added: Added, lacks_channel: bool)
        requires few { cells_counted self.old < usize.MAX }
        requires less { self.old.without_channel ≤ self.old.kept }
        ensures { self.new ≡ count_in lacks_channel (outcome_of_added added) self.old }
    {
        match added {
            Added::Kept => {
                self.kept += 1;
                if lacks_channel {
                    self.without_channel += 1;
                }
            }
            Added::Repeated => self.repeated += 1,
            Added::Crowded => self.crowded += 1,
        }
    }
}

impl Kind {
    /// Returns whether the message is to be passed again.
    pub fn is_close_first(self) -> bool
        ensures { result ≡ is_close_first self }
    {
        matches!(self, Kind::CloseFirst)
    }
}
