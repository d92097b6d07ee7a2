//! The frequency channels of GLONASS satellites.
ghost use Rattle.std.specs.Prelude.{◌≡◌, ◌<◌, ◌≤◌, IfSome, count_by, is_some};
ghost use Rattle.gnss_system.specs.Signals.{band_of, code_of};
ghost use Rattle.gnss_obs.specs.Channels.{channel_hertz, hertz_in, most_number, no_channels, number_at, slot_count};
ghost use Rattle.gnss_obs.specs.Channels.{AreChannels, IsCarrier, with_number};

use crate::satellite::Sat;
use crate::signal::Signal;
use gnss_system::System;
use std::marker::Model;

/// Greatest GLONASS slot: there is one for each satellite, from 1 on.
pub const GREATEST_SLOT: u8 = 27;

/// Greatest number of a GLONASS channel, that of channel 6.
pub const GREATEST_CHANNEL_NUMBER: u8 = 13;

/// The frequency channel of each GLONASS slot, if it is known, as the number that messages contain:
/// the channel plus 7, 0 to 13 (RTCM 10403.3, DF040 and DF419).
#[derive(Clone, Copy)]
pub struct Channels([Option<u8>; GREATEST_SLOT as usize]);

impl Model for Channels {
    ghost use Rattle.gnss_obs.specs.Channels.{AreChannels, ChannelsValue};

    ghost Value = { ChannelsValue };

    ghost view = { λ c. c.0 };

    ghost invariant = { λ c. AreChannels c.0 };

    ghost inverse = { λ c. record { 0 = c } };
}

impl Channels {
    /// Returns channels of which none is known.
    pub fn none() -> Channels
        ensures { result ≡ no_channels }
    {
        Channels([None; GREATEST_SLOT as usize])
    }

    /// Returns the number of the channel of a slot, 1 to 27: the channel plus 7. `None` if it isn't
    /// known.
    #[inline(always)]
    pub fn number(&self, slot: u8) -> Option<u8>
        requires { (1 ≤ slot) × (slot ≤ slot_count) }
        ensures value { result ≡ number_at self.now slot }
        ensures bound { IfSome result (λ n. n ≤ most_number) }
    {
        self.0[slot as usize - 1]
    }

    /// Sets the number of the channel of a slot, 1 to 27: the channel plus 7, at most 13.
    pub fn set(&mut self, slot: u8, number: u8)
        requires slot { (1 ≤ slot) × (slot ≤ slot_count) }
        requires number { number ≤ most_number }
        ensures { self.new ≡ with_number self.old slot number }
    {
        self.0[slot as usize - 1] = Some(number);
    }

    /// Shows that each slot has a number, at most 13, or none.
    pub fn are_channels(&self)
        ensures { AreChannels self.now }
    {
        // The prover knows the invariant of a type once a field is read.
        let _ = &self.0;
    }

    /// Returns the number of slots whose channel is known.
    pub fn count(&self) -> usize
        ensures count { result ≡ count_by is_some self.now }
        ensures bound { result ≤ slot_count }
    {
        self.0.iter().filter(|n| n.is_some()).count()
    }

    /// Returns the carrier frequency of a signal of a satellite, in hertz: at most 1,605,375,000.
    /// `None` for a GLONASS satellite whose channel isn't known.
    #[inline(always)]
    pub fn hertz(&self, satellite: Sat, signal: Signal) -> Option<u32>
        ensures value { result ≡ hertz_in self.now satellite signal }
        ensures bound { IfSome result IsCarrier }
    {
        match satellite.system() {
            System::Glonass => match self.number(satellite.id()) {
                Some(number) => Some(channel_hertz(signal, number)),
                None => None,
            },
            _ => Some(signal.hertz()),
        }
    }
}

// Returns the carrier frequency of a GLONASS signal at the channel of this number, in hertz.
#[inline(always)]
fn channel_hertz(signal: Signal, number: u8) -> u32
    requires { number ≤ most_number }
    ensures value { result ≡ channel_hertz (band_of (code_of signal)) number }
    ensures bound { IsCarrier result }
{
    if signal.code()[0] == b'1' {
        1_598_062_500 + 562_500 * number as u32
    } else {
        1_242_937_500 + 437_500 * number as u32
    }
}
