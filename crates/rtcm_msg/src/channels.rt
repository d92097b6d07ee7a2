//! The frequency channels of GLONASS satellites in messages.
ghost use Rattle.std.specs.Prelude.{[], ◌≡◌, ◌∷◌, ◌<◌, ◌≤◌, ◌^◌, length, IfSome, IfNone};
ghost use Rattle.rtcm_msg.specs.Msm.{satellite_mask_bits};
ghost use Rattle.rtcm_msg.specs.declared.message.Message.TheVariants as messages;
ghost use Rattle.rtcm_msg.specs.Channels as channels;

use crate::field::byte_at;
use crate::header::SATELLITE_MASK_BITS;
use crate::pairs::split_first;
use crate::view::MsmView;
use gnss_system::System;
use rtcm_bits::number_at;
use std::marker::Model;

/// Iterator over the satellites of a GLONASS message with extended satellite information, by rising
/// ID.
#[derive(Drop)]
pub struct SentChannels<'a> {
    /// The message.
    view: &'a MsmView<'a>,
    /// The satellites that are left.
    satellites: u64,
    /// The index of the first of them.
    index: usize,
}

impl<'a> Model for SentChannels<'a> {
    ghost use Rattle.std.specs.Prelude.{ℕ, List, ◌+◌, ◌≤◌, length, drop};
    ghost use Rattle.rtcm_msg.specs.Msm.{satellite_mask_bits};
    ghost use Rattle.rtcm_msg.specs.Entries.{ids};
    ghost use Rattle.rtcm_msg.specs.Channels.{channels_by};

    ghost Value = { List (ℕ × ℕ) };

    ghost view = { λ c. channels_by c.view.now.form (ids satellite_mask_bits c.satellites)
        (drop c.index c.view.now.msm.satellites) };

    ghost invariant = { λ c.
        length (ids satellite_mask_bits c.satellites) + c.index ≤ length c.view.now.msm.satellites };
}

impl<'a> MsmView<'a> {
    /// Returns an iterator over the satellites of a GLONASS message, each with its extended
    /// satellite information, DF419. It returns none if the message is of another system, or in a
    /// form without this information: MSM4 or MSM6.
    pub fn sent_channels(&self) -> SentChannels<'_>
        ensures { result ≡ channels.sent_channels (messages.Msm self.now) }
    {
        // Brings the number of satellites into the proof.
        let _ = (self.satellites(), self.form());
        let satellites = if self.has_channels() {
            self.masks().satellites()
        } else {
            0
        };
        SentChannels {
            view: self,
            satellites,
            index: 0,
        }
    }

    /// Returns whether the extended satellite information of the message has channels.
    fn has_channels(&self) -> bool
        ensures { result ≡ channels.has_channels self.now.form self.now.msm }
    {
        self.form().has_rates() && matches!(self.system(), System::Glonass)
    }
}

impl<'a> SentChannels<'a> {
    /// Returns the slot of the next satellite, which is its ID, and the number of its channel, which
    /// is 7 more than the channel if it is 13 or less. `None` after the last one.
    pub fn next(&mut self) -> Option<(u8, u8)>
        ensures some { IfSome result (λ x. self.old ≡ x ∷ self.new) }
        ensures bounds { IfSome result (λ x. (1 ≤ x.0) × (x.0 ≤ satellite_mask_bits) × (x.1 < 2 ^ 4)) }
        ensures none { IfNone result ((self.old ≡ []) × (self.new ≡ [])) }
    {
        if self.satellites == 0 {
            return None;
        }
        // Brings the number of satellites into the proof.
        let _ = self.view.satellites();
        let (slot, satellites) = split_first(self.satellites, SATELLITE_MASK_BITS);
        let number = self.view.read_satellite(self.index).extended;
        self.satellites = satellites;
        self.index += 1;
        Some((slot, number))
    }
}

/// Number of bytes with the fields of a message 1020 up to DF040.
const CHANNEL_BYTES: usize = 3;

/// Returns the slot, DF038, and the number of the channel, DF040, of a message 1020. `None` for
/// another message, or if it does not contain them.
pub fn channel_of_1020(bytes: &[u8]) -> Option<(u8, u8)>
    ensures value { result ≡ channels.channel_of_1020 bytes.now }
    ensures bounds { IfSome result (λ x. (x.0 < 2 ^ 6) × (x.1 < 2 ^ 5)) }
{
    let bytes = bytes.get(..CHANNEL_BYTES)?;
    if number_at(bytes, 0, 12) != 1020 {
        return None;
    }
    Some((byte_at(bytes, 12, 6), byte_at(bytes, 18, 5)))
}
