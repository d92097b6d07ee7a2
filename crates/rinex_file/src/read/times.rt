//! The times of the epochs of a file.
ghost use Rattle.std.specs.Prelude.{◌<◌, ◌∷◌, ◌++◌, [], ℕ, List, IfSome};
ghost use Rattle.rinex_file.specs.Times.{AreTimes, AreTimesOrNone};

use gnss_obs::GpsTime;

/// The times of the epochs of a file.
#[derive(Clone, Copy)]
pub struct EpochTimes {
    /// Time of the first epoch.
    pub first: GpsTime,
    /// Time of the last epoch.
    pub last: GpsTime,
    /// Smallest time from an epoch to the following one, in milliseconds; None for a single epoch.
    pub step: Option<u64>,
}

/// Returns the times of epochs with one more, which is later; None are those of no epoch.
pub(crate) fn with_later(times: Option<EpochTimes>, time: GpsTime) -> EpochTimes
    requires { IfSome times (λ t. t.last < time) }
    ensures { (all : List ℕ) → AreTimesOrNone all times → AreTimes (all ++ time ∷ []) result }
{
    let Some(times) = times else {
        return EpochTimes {
            first: time,
            last: time,
            step: None,
        };
    };
    let step = time.milliseconds() - times.last.milliseconds();
    EpochTimes {
        first: times.first,
        last: time,
        step: Some(times.step.unwrap_or(step).min(step)),
    }
}
