//! The channels of GLONASS satellites that a stream has.
ghost use Rattle.std.specs.Prelude.{◌≡◌, option_to_list};
ghost use Rattle.rtcm_msg.specs.Channels.{channel_of_1020, sent_channels};
ghost use Rattle.rtcm_msg.specs.declared.message.Message.TheVariants as messages;
ghost use Rattle.rtcm_inspect.specs.StreamChannels.{with_first, with_sent};

use gnss_obs::{Channels, GREATEST_CHANNEL_NUMBER, GREATEST_SLOT};
use gnss_system::System;
use rtcm_msg::{MsmView, SentChannels, channel_of_1020};

/// Adds the channels that an MSM sends, each if it is the first one of its slot.
pub fn add_channels(known: &mut Channels, msm: &MsmView<'_>)
    ensures { known.new ≡ with_sent known.old (sent_channels (messages.Msm msm.now)) }
{
    // Those of other systems send none.
    if let System::Glonass = msm.system() {
        *known = with_sent(*known, msm.sent_channels());
    }
}

/// Adds the channel that a message sends if it is a 1020, and if it is the first one of its slot.
pub fn add_1020(known: &mut Channels, message: &[u8])
    ensures { known.new ≡ with_sent known.old (option_to_list (channel_of_1020 message.now)) }
{
    if let Some((slot, number)) = channel_of_1020(message) {
        *known = with_first(*known, slot, number);
    }
}

/// Returns the channels with those that are sent, each the first one of its slot.
fn with_sent(mut known: Channels, mut sent: SentChannels<'_>) -> Channels
    ensures { result ≡ with_sent known sent.entry }
{
    while let Some((slot, number)) = sent.next() {
        known = with_first(known, slot, number);
    }
    known
}

/// Returns the channels with a number for a slot, if it is that of a channel, and the first one of a
/// slot from 1 to 27.
fn with_first(mut known: Channels, slot: u8, number: u8) -> Channels
    ensures { result ≡ with_first known (slot, number) }
{
    let is_valid = 1 <= slot && slot <= GREATEST_SLOT && number <= GREATEST_CHANNEL_NUMBER;
    if is_valid && known.number(slot).is_none() {
        known.set(slot, number);
    }
    known
}
