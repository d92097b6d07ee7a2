//! The report of a conversion.
ghost use Rattle.std.specs.Prelude.{◌≡◌, ◌+◌};
ghost use Rattle.rtcm_convert.specs.Outcomes.{capped};
ghost use Rattle.rtcm_convert.specs.inner.Steps.{CountsFrame};

use obs_epoch::Kind;

/// The counts of a whole stream. Each frame is counted once among `faulty`, `station`, `other`,
/// `ignored`, `late`, `past` and `taken`.
#[derive(Clone, Copy, Default, PartialEq)]
pub struct Report {
    /// Number of bytes of the stream.
    pub bytes: u64,
    /// Number of bytes that are in no frame.
    pub skipped_bytes: u64,
    /// Number of frames.
    pub frames: u64,
    /// Frames whose message was refused.
    pub faulty: u64,
    /// Messages 1005 and 1006 of the station.
    pub station: u64,
    /// Station and observation messages of other stations.
    pub other: u64,
    /// Messages of other types.
    pub ignored: u64,
    /// Messages older than the current epoch, or of an epoch already closed.
    pub late: u64,
    /// Messages of a time after week 99,999.
    pub past: u64,
    /// Messages whose cells were gathered.
    pub taken: u64,
    /// Cells of satellites or signals that aren't in the plan.
    pub skipped: u64,
    /// Cells of a satellite and signal of which the epoch had one already.
    pub repeated: u64,
    /// Cells beyond the 256 cells of a system in an epoch.
    pub crowded: u64,
    /// Cells of GLONASS satellites without a channel, which have no phase and no Doppler shift.
    pub without_channel: u64,
    /// Number of epochs in the file.
    pub epochs: u64,
}

impl Report {
    /// Counts a frame: `None` if its message was refused, else the message's outcome.
    pub(crate) fn count(&mut self, outcome: Option<Kind>)
        ensures { CountsFrame self.old self.new outcome }
    {
        add(&mut self.frames, 1);
        match outcome {
            None => add(&mut self.faulty, 1),
            Some(Kind::Station) => add(&mut self.station, 1),
            Some(Kind::OtherStation) => add(&mut self.other, 1),
            Some(Kind::Ignored) => add(&mut self.ignored, 1),
            Some(Kind::Late) => add(&mut self.late, 1),
            Some(Kind::PastWeeks) => add(&mut self.past, 1),
            Some(Kind::Kept(cells)) => {
                add(&mut self.taken, 1);
                add(&mut self.skipped, cells.skipped);
                add(&mut self.repeated, cells.repeated);
                add(&mut self.crowded, cells.crowded);
                add(&mut self.without_channel, cells.without_channel);
            }
            Some(Kind::CloseFirst) => {}
        }
    }
}

/// Adds a number to a count.
fn add(count: &mut u64, number: usize)
    ensures { count.new ≡ capped (count.old + number) }
{
    *count = count.saturating_add(number as u64);
}
