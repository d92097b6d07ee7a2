//! Signals of a system, found by signal ID, by RINEX code or by index.
ghost use Rattle.std.specs.Prelude.{◌≡◌, ◌<◌, ◌≤◌};
ghost use Rattle.gnss_system.specs.Signals.{SignalAt, IsSignal, signal_at, signal_of_id, signal_of_code, code_of};
ghost use Rattle.gnss_system.specs.Signals.{hertz_of, id_of, greatest_signal_id};

use gnss_system::{NO_ROW, System};
use std::marker::Model;

/// A signal of a system: a row of the table of its signals.
#[derive(Clone, Copy, PartialEq, Eq, Hash)]
pub struct Signal {
    system: System,
    index: u8,
}

impl Model for Signal {
    ghost Value = { SignalAt };

    ghost view = { λ s. record { system = s.system; index = s.index } };

    ghost invariant = { λ s. IsSignal (record { system = s.system; index = s.index }) };

    ghost inverse = { λ s. record { system = s.system; index = s.index } };
}

impl Default for Signal {
    /// Returns the first signal of GPS.
    fn default() -> Signal
        ensures { (result.system ≡ System.Gps) × (result.index ≡ 0) }
    {
        Signal {
            system: System::Gps,
            index: 0,
        }
    }
}

impl Signal {
    /// Returns the signal with this signal ID, the position in the signal mask DF395 of RTCM
    /// 10403.3 counted from 1, or `None` if the system has none.
    pub fn from_id(system: System, id: u8) -> Option<Signal>
        ensures { result ≡ signal_of_id system id }
    {
        let index = system
            .row()
            .rows_by_id
            .get(id as usize)
            .copied()
            .unwrap_or(NO_ROW);
        if index == NO_ROW {
            None
        } else {
            Some(Signal { system, index })
        }
    }

    /// Returns the signal with this RINEX code, such as `1C`, or `None` if the system has none.
    pub fn from_code(system: System, code: &str) -> Option<Signal>
        ensures { result ≡ signal_of_code system code.now }
    {
        let entries = system.row().signals;
        let wanted = code.as_bytes();
        for index in 0..entries.len() {
            if entries[index].code.as_slice() == wanted {
                return Signal::from_index(system, index);
            }
        }
        None
    }

    /// Returns the signal at an index of the system's table, counted from 0, or `None` if the table
    /// has no such index.
    pub fn from_index(system: System, index: usize) -> Option<Signal>
        ensures { result ≡ signal_at system index }
    {
        if index < system.signals() {
            Some(Signal {
                system,
                index: index as u8,
            })
        } else {
            None
        }
    }

    /// Returns the signal ID.
    pub fn id(self) -> u8
        ensures value { result ≡ id_of self }
        ensures bound { result ≤ greatest_signal_id }
    {
        self.system.row().signals[self.index as usize].id
    }

    /// Returns the RINEX code in ASCII: the digit of the band and the letter of the attribute.
    pub fn code(self) -> [u8; 2]
        ensures { result ≡ code_of self }
    {
        self.system.row().signals[self.index as usize].code
    }

    /// Returns the carrier frequency, in hertz: at most 1,602,000,000. For GLONASS it is that of
    /// channel 0.
    pub fn hertz(self) -> u32
        ensures value { result ≡ hertz_of self }
        ensures positive { 0 < result }
        ensures bound { result ≤ 1_602_000_000 }
    {
        self.system.row().signals[self.index as usize].hertz
    }

    /// Returns the system of the signal.
    pub fn system(self) -> System
        ensures { result ≡ self.system }
    {
        self.system
    }

    /// Returns the index in the table of the system, from 0, by rising signal ID: of GPS 0 for `1C`
    /// to 14 for `1X`.
    pub fn index(self) -> usize
        ensures value { result ≡ self.index }
        ensures listed { IsSignal self }
    {
        self.index as usize
    }
}
