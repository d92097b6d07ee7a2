//! The MSMs that a conversion decodes with the options that fit a stream.
ghost use Rattle.std.specs.Prelude.{◌≡◌};
ghost use Rattle.rtcm_inspect.specs.inner.Counting.{HoldsForFrames};
ghost use Rattle.rtcm_inspect.specs.Signals.{set_had};
ghost use Rattle.rtcm_inspect.specs.inner.Counting.{decodes, has_counted};

use crate::counting::StreamSignals;
use gnss_system::{BySystem, System};
use obs_epoch::{SignalCounts, is_always_decoded};
use rtcm_msg::MsmSet;

/// Returns the MSMs that a conversion decodes with the options that fit a stream.
pub fn set_had(signals: &StreamSignals) -> MsmSet
    ensures { HoldsForFrames signals.now (λ station fs. result ≡ set_had station fs) }
{
    MsmSet {
        systems: BySystem::each(|system| decodes(&signals.signal_counts, system)),
        forms: signals.forms,
    }
}

/// Returns whether a conversion decodes the MSMs of a system: those of GPS and Galileo, and of any
/// other of which a signal has a cell with a value.
fn decodes(signal_counts: &SignalCounts, system: System) -> bool
    ensures { result ≡ decodes signal_counts.now system }
{
    is_always_decoded(system) || has_signal(signal_counts, system)
}

/// Returns whether a signal of a system has a cell with a value.
pub fn has_signal(signal_counts: &SignalCounts, system: System) -> bool
    ensures { result ≡ has_counted signal_counts.now system }
{
    let mut found = false;
    for index in 0..system.signals() {
        if signal_counts.count(system, index) > 0 {
            found = true;
        }
    }
    found
}
