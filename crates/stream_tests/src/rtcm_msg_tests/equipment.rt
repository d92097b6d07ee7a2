//! Messages 1007, 1008 and 1033.
use rtcm_bits::LONGEST_MESSAGE;
use rtcm_msg::{EquipmentFault, equipment_in};
use std::test::*;

/// A message 1033 of station 41: antenna `GPP` with setup 7 and the number `1`, receiver `A`, version
/// of no byte, number `23`.
const MESSAGE: &[u8] = b"\x40\x90\x29\x03GPP\x07\x011\x01A\x00\x0223";

/// Returns the fault of a message, if it has one.
fn fault_of(message: &[u8]) -> Option<EquipmentFault> {
    if message.len() > LONGEST_MESSAGE {
        return None;
    }
    match equipment_in(message) {
        Some(Err(fault)) => Some(fault),
        _ => None,
    }
}

#[test]
fn message_1033_has_an_antenna_and_a_receiver(rt: HostRuntime) {
    let Some(Ok(equipment)) = equipment_in(MESSAGE) else {
        panic!(rt; "not read");
    };
    assert!(rt; equipment.number == 1033 && equipment.station == 41 && equipment.setup == 7);
    let texts = equipment.texts.as_slice();
    assert!(rt; texts.len() == 5);
    assert!(rt; texts[0] == b"GPP".as_slice() && texts[1] == b"1".as_slice());
    assert!(rt; texts[2] == b"A".as_slice() && texts[3].is_empty());
    assert!(rt; texts[4] == b"23".as_slice());
}

#[test]
fn equipment_that_is_cut_has_a_fault(rt: HostRuntime) {
    assert!(rt; fault_of(&MESSAGE[..2]) == Some(EquipmentFault::Short(12)));
    assert!(rt; fault_of(&MESSAGE[..7]) == Some(EquipmentFault::Short(56)));
    assert!(rt; fault_of(&MESSAGE[..15]) == Some(EquipmentFault::Short(112)));
    // a counter of 32
    assert!(rt; fault_of(b"\x3E\xF0\x01\x20") == Some(EquipmentFault::BadCounter(24)));
    // messages 1006 and of no byte
    assert!(rt; equipment_in(b"\x3E\xE0\x00\x00").is_none() && equipment_in(b"").is_none());
}
