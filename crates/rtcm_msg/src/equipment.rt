//! The antenna and the receiver of a station: messages 1007, 1008 and 1033.
ghost use Rattle.std.specs.Prelude.{◌≡◌, ◌+◌, ◌*◌, ◌≤◌, ◌<◌, ◌++◌, Ok, Err, List, ℕ, IfOk, IfErr, IfSome, OnOk, length, map, option_map};
ghost use Rattle.rtcm_bits.specs.FrameOf.{longest_message};
ghost use Rattle.rtcm_msg.specs.Equipment as equipment;

use crate::fault::EquipmentFault;
use arrayvec::ArrayVec;
use rtcm_bits::number_at;

/// The most bytes of a text.
const LONGEST_TEXT: u8 = 31;

/// The most texts of a message: those of 1033.
const MOST_TEXTS: usize = 5;

/// The antenna and the receiver of a station, as a message 1007, 1008 or 1033 has them.
#[derive(Drop)]
pub struct Equipment<'a> {
    /// Message number, DF002.
    pub number: u16,
    /// Reference station ID, DF003: 12 bits.
    pub station: u16,
    /// Antenna setup ID, DF031.
    pub setup: u8,
    /// The texts, of at most 31 bytes each: the antenna descriptor, DF030; of 1008 and 1033 the
    /// antenna's serial number, DF033; of 1033 the receiver's type, DF228, firmware version, DF230,
    /// and serial number, DF232.
    pub texts: ArrayVec<&'a [u8], MOST_TEXTS>,
}

/// Returns the antenna and the receiver in a message 1007, 1008 or 1033, or why it has none. `None`
/// for another message. Bytes after the last field are ignored.
#[tactic(auto, unfolding(crate::specs::Equipment::equipment_in))]
pub fn equipment_in(bytes: &[u8]) -> Option<Result<Equipment<'_>, EquipmentFault>>
    requires { length bytes.now ≤ longest_message }
    ensures value { option_map equipment.values_of result ≡ equipment.equipment_in bytes.now }
    ensures short { IfSome result (λ r. IfOk r (λ e. equipment.AreShort e.texts.items)) }
{
    if bytes.len() < 2 {
        return None;
    }
    let number = number_at(bytes, 0, 12) as u16;
    let further = further_texts(number)?;
    Some(equipment_of(bytes, number, further))
}

/// Returns the number of texts after the first one of a message of this number.
fn further_texts(number: u16) -> Option<usize>
    ensures { result ≡ equipment.further_texts number }
{
    match number {
        1007 => Some(0),
        1008 => Some(1),
        1033 => Some(4),
        _ => None,
    }
}

/// Returns the content of a message of this number, which has this many texts after the first one.
///
/// # Errors
///
/// `BadCounter` for a counter greater than 31, and `Short` for a field that does not end within the
/// message: the first one of these.
fn equipment_of(bytes: &[u8], number: u16, further: usize) -> Result<Equipment<'_>, EquipmentFault>
    requires few { further ≤ 4 }
    requires small { length bytes.now ≤ longest_message }
    ensures value { equipment.values_of result ≡ equipment.equipment_at bytes.now number further }
    ensures short { IfOk result (λ e. equipment.AreShort e.texts.items) }
{
    if bytes.len() < 3 {
        return Err(EquipmentFault::Short(12));
    }
    let station = number_at(bytes, 12, 12) as u16;
    let antenna = text_at(bytes, 3)?;
    let at = 4 + antenna.len();
    let setup = *bytes.get(at).ok_or(EquipmentFault::Short(8 * at))?;
    let mut texts = ArrayVec::new();
    texts.push(antenna);
    add_texts(bytes, at + 1, further, &mut texts)?;
    Ok(Equipment {
        number,
        station,
        setup,
        texts,
    })
}

/// Adds the texts from a byte on.
///
/// # Errors
///
/// As `text_at`.
fn add_texts<'a>(
    bytes: &'a [u8],
    mut at: usize,
    count: usize,
    texts: &mut ArrayVec<&'a [u8], MOST_TEXTS>,
) -> Result<(), EquipmentFault>
    requires few { length texts.old.items + count ≤ 5 }
    requires near { at ≤ 36 }
    ensures added { OnOk result ((ts : List (List ℕ)) × (equipment.texts_at bytes.now at count ≡ Ok ts)
        × (map (λ t. t.now) texts.new.items ≡ map (λ t. t.now) texts.old.items ++ ts)) }
    ensures short { OnOk result (equipment.AreShort texts.old.items → equipment.AreShort texts.new.items) }
    ensures refused { IfErr result (λ e. equipment.texts_at bytes.now at count ≡ Err e) }
{
    for _ in 0..count {
        let text = text_at(bytes, at)?;
        at += 1 + text.len();
        texts.push(text);
    }
    Ok(())
}

/// Returns the text from a byte on: a counter, and as many bytes.
///
/// # Errors
///
/// `BadCounter` for a counter greater than 31, and `Short` for a counter or a text that does not end
/// within the message.
fn text_at(bytes: &[u8], at: usize) -> Result<&[u8], EquipmentFault>
    requires { at ≤ 164 }
    ensures text { IfOk result (λ t. equipment.text_at bytes.now at ≡ Ok t.now) }
    ensures short { IfOk result (λ t. length t.now ≤ 31) }
    ensures refused { IfErr result (λ e. equipment.text_at bytes.now at ≡ Err e) }
{
    let count = *bytes.get(at).ok_or(EquipmentFault::Short(8 * at))?;
    if count > LONGEST_TEXT {
        return Err(EquipmentFault::BadCounter(8 * at));
    }
    let first = at + 1;
    let text = bytes.get(first..first + usize::from(count));
    text.ok_or(EquipmentFault::Short(8 * first))
}
