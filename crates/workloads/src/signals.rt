//! The job of the commands `signals` and `frames`: the frames of a stream, and its signals.
ghost use Rattle.std.specs.Prelude.{⊤};

use crate::digest::Digest;
use gnss_system::{GALILEO_SIGNAL_COUNT, GPS_SIGNAL_COUNT, System};
use obs_epoch::SignalCounts;
use rtcm_msg::look;
use rtcm_scan::{Frame, FrameSink};
use std::convert::Infallible;

/// The frames and signals read so far.
#[derive(Drop)]
pub struct Signals {
    counts: SignalCounts,
    frames: u64,
    sum: u64,
}

impl Signals {
    pub fn new() -> Signals {
        Signals {
            counts: SignalCounts::new(),
            frames: 0,
            sum: 0,
        }
    }

    /// Adds the counts to a digest.
    pub fn add_to(&self, digest: &mut Digest) {
        digest.add(self.frames);
        digest.add(self.sum);
        for index in 0..GPS_SIGNAL_COUNT {
            digest.add(self.counts.count(System::Gps, index));
        }
        for index in 0..GALILEO_SIGNAL_COUNT {
            digest.add(self.counts.count(System::Galileo, index));
        }
    }
}

impl FrameSink<()> for Signals {
    type Fault = Infallible;

    ghost took = { λ _ _ _ _ _ _. ⊤ };

    ghost broke = { λ _ _ _ _ _ _ _. ⊤ };

    fn take(&mut self, frame: &Frame, _out: &mut ()) -> Result<(), Infallible> {
        self.frames = self.frames.wrapping_add(1);
        let last = frame.message.as_slice().last().copied().unwrap_or(0);
        let mixed = frame.offset.wrapping_mul(31).wrapping_add(last as u64);
        self.sum = self.sum.wrapping_mul(33) ^ mixed;
        if let Ok(view) = look(frame.message.as_slice()) {
            self.counts.count_view(None, &view);
        }
        Ok(())
    }

    fn send(&self, _out: &mut ()) -> Result<(), Infallible> {
        Ok(())
    }
}
