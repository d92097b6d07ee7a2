//! Intervals of epochs.
ghost use Rattle.std.specs.Prelude.{◌≡◌, ◌↔◌, IsSome, IfSome};
ghost use Rattle.gnss_obs.specs.Intervals.{IsInterval};

use std::marker::Model;

/// Number of milliseconds of a day.
const DAY: u32 = 86_400_000;

/// Number of milliseconds of the shortest interval.
const SHORTEST: u32 = 100;

/// The interval of the nominal times of epochs, in milliseconds: 0.1 s to a day, and a divisor of a
/// day, so that its multiples are the same times of every day.
#[derive(Clone, Copy)]
pub struct Interval(u32);

impl Model for Interval {
    ghost use Rattle.std.specs.Prelude.{ℕ};
    ghost use Rattle.gnss_obs.specs.Intervals.{IsInterval};

    ghost Value = { ℕ };

    ghost view = { λ i. i.0 };

    ghost inverse = { λ n. record { 0 = n } };

    ghost invariant = { λ i. IsInterval i.0 };
}

impl Interval {
    /// Returns the interval of this number of milliseconds, or `None` if it is less than 0.1 s,
    /// more than a day, or no divisor of a day.
    pub fn new(milliseconds: u32) -> Option<Interval>
        ensures some { IsSome result ↔ IsInterval milliseconds }
        ensures value { IfSome result (λ i. i ≡ milliseconds) }
    {
        if milliseconds < SHORTEST || DAY % milliseconds != 0 {
            return None;
        }
        Some(Interval(milliseconds))
    }

    /// Returns the number of milliseconds.
    pub fn milliseconds(self) -> u32
        ensures value { result ≡ self }
        ensures bound { IsInterval result }
    {
        self.0
    }
}
