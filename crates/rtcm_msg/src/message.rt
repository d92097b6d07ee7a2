//! Messages, decoded and encoded.
ghost use Rattle.std.specs.Prelude.{◌≡◌, IfOk, IfErr, false, Ok, Err};
ghost use Rattle.rtcm_msg.specs.Fields.{GivesViewed, cursor_at};
ghost use Rattle.rtcm_bits.specs.Bits.{bits_of};
ghost use Rattle.rtcm_msg.specs.Encoding.{is_other, ReadsMessage, IsFault, IsMessage, IsEncoding};
ghost use Rattle.rtcm_msg.specs.declared.message.Message.{Message};
ghost use Rattle.rtcm_msg.specs.declared.fault.MsgFault.{MsgFault};
ghost use Rattle.rtcm_msg.specs.inner.MessageBits.{HasBits};
ghost use Rattle.rtcm_msg.specs.inner.Viewed.{viewed_message};
ghost use Rattle.rtcm_msg.specs.Decoding.{message_at, set_in};

use crate::fault::MsgFault;
use crate::field::flag_at;
use crate::msm::{Msm, view_of, write_msm};
use crate::station::Station;
use crate::view::{View, look};
use crate::writing::write_station;
use arrayvec::ArrayVec;
use gnss_system::System;
use rtcm_bits::{BitWriter, LONGEST_MESSAGE, number_at};

/// A message of RTCM 10403.3.
#[derive(Drop)]
pub enum Message {
    /// Message 1005 or 1006.
    Station(Station),
    /// An MSM of one of the forms MSM4 to MSM7, as 1074 to 1077 of GPS.
    Msm(Msm),
    /// A message of any other number, DF002. For an MSM of any type, MSM1 to MSM7, `set` is its
    /// station, DF003, and its multiple message bit, DF393, if the message contains them.
    Other {
        number: u16,
        set: Option<(u16, bool)>,
    },
}

/// Reads the station, DF003, and the multiple message bit, DF393, of an MSM of any type, MSM1
/// to MSM7, after its message number. `None` for another number, or if the message does not contain
/// them.
pub(crate) fn read_set(number: u16, bytes: &[u8]) -> Option<(u16, bool)>
    requires { HasBits bytes.now 12 }
    ensures { result ≡ set_in number (cursor_at (bits_of bytes.now) 12) }
{
    System::from_msm_tens(number / 10)?;
    if number % 10 < 1 || number % 10 > 7 || bytes.len() < 7 {
        return None;
    }
    Some((number_at(bytes, 12, 12) as u16, flag_at(bytes, 54)))
}

/// Decodes a message. Reserved bits and bits after the last field are ignored. Each number other
/// than 1005, 1006 and those of MSM4 to MSM7 of a system gives `Message::Other`.
///
/// # Errors
///
/// The first fault in the order of the fields: `Short` with the index of the first bit of a field
/// that does not end within the message, `BadTime` for an epoch time that isn't one of the system as
/// soon as it is read, `TooManyCells` for more than 64 pairs of a satellite and a signal as soon as both
/// masks are read.
pub fn decode(bytes: &[u8]) -> Result<Message, MsgFault>
    ensures exact { GivesViewed (λ m. m) result (message_at bytes.now) }
    // An encoding is decoded with any reserved bits, and with any bits after it.
    ensures only { (v : Message) → ReadsMessage (bits_of bytes.now) v → result ≡ Ok v }
    ensures found { IfOk result (λ v. IsMessage v × ReadsMessage (bits_of bytes.now) v) }
    ensures fault { IfErr result (IsFault (bits_of bytes.now)) }
    ensures only_fault { (f : MsgFault) → IsFault (bits_of bytes.now) f → result ≡ Err f }
{
    Ok(look(bytes)?.message())
}

impl Message {
    /// Returns a view of the message.
    pub fn view(&self) -> View<'_>
        ensures { viewed_message result ≡ self.now }
    {
        match self {
            Message::Station(station) => View::Station(*station),
            Message::Msm(msm) => View::Msm(view_of(msm)),
            &Message::Other { number, set } => View::Other { number, set },
        }
    }

    /// Returns whether the message is of a number that isn't decoded.
    pub fn is_other(&self) -> bool
        ensures { result ≡ is_other self.now }
    {
        matches!(self, Message::Other { .. })
    }
}

/// Replaces `bytes` by the encoding of the message, with reserved bits of zero, padded with zero
/// bits to a byte. `decode` returns the same message. It must not be a `Message::Other`.
pub fn encode(message: &Message, bytes: &mut ArrayVec<u8, LONGEST_MESSAGE>)
    requires { is_other message.now ≡ false }
    ensures bits { IsEncoding bytes.new.items message.now }
    ensures value { IsMessage message.now }
{
    let mut writer = BitWriter::new();
    match message {
        Message::Station(station) => write_station(&mut writer, &station.parts()),
        Message::Msm(msm) => write_msm(&mut writer, msm),
        Message::Other { .. } => unreachable!(),
    }
    writer.finish(bytes);
}
