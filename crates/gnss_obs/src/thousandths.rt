//! Values in thousandths of their unit, as a RINEX file has them.
ghost use Rattle.std.specs.Prelude.{◌≡◌, ℤ};

use std::marker::Model;

/// A value in thousandths of its unit, which is the metre, the cycle, the hertz or the dB-Hz.
#[derive(Clone, Copy, PartialEq, PartialOrd)]
pub struct Thousandths(i64);

impl Model for Thousandths {
    ghost Value = { ℤ };

    ghost view = { λ t. t.0 };

    ghost inverse = { λ z. record { 0 = z } };
}

impl Thousandths {
    /// Returns the value with this number of thousandths.
    pub fn new(value: i64) -> Thousandths
        ensures { result ≡ value }
    {
        Thousandths(value)
    }

    /// Returns the number of thousandths.
    pub fn value(self) -> i64
        ensures { result ≡ self }
    {
        self.0
    }
}
