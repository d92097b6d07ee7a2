//! What no clause states: published vectors, and that a call can succeed.
//!
//! A test is a table of steps, each a call and its expected outcome: one function owns the window
//! or the writer, and one makes each call.

mod checks;
mod windows;

use arrayvec::ArrayVec;
use rtcm_bits::{BitReader, BitWriter, CheckRegister, LONGEST_MESSAGE, crc24q, frame_of};

/// The frame of a message 1005 of station 2003.
pub const STATION_FRAME: &[u8; 25] = &[
    0xD3, 0x00, 0x13, 0x3E, 0xD7, 0xD3, 0x02, 0x02, 0x98, 0x0E, 0xDE, 0xEF, 0x34, 0xB4, 0xBD, 0x62,
    0xAC, 0x09, 0x41, 0x98, 0x6F, 0x33, 0x36, 0x0B, 0x98,
];

/// Its message.
const MESSAGE: &[u8; 19] = &[
    0x3E, 0xD7, 0xD3, 0x02, 0x02, 0x98, 0x0E, 0xDE, 0xEF, 0x34, 0xB4, 0xBD, 0x62, 0xAC, 0x09, 0x41,
    0x98, 0x6F, 0x33,
];

/// The CRC of bytes processed one by one.
fn check_of_each(bytes: &[u8]) -> u32 {
    let mut register = CheckRegister::new();
    for byte in bytes {
        register.take(*byte);
    }
    register.value()
}

/// Whether the CRC of all but the last three bytes of a frame is the known one, and that of all is
/// 0.
fn has_check(frame: &[u8]) -> bool {
    crc24q(frame.get(..22).unwrap_or(&[])) == 0x36_0B98 && crc24q(frame) == 0
}

/// Whether the CRC of the message is that of its frame, in two pieces, for every cut.
fn is_check_of_two() -> bool {
    for cut in 0..23usize {
        let mut register = CheckRegister::new();
        register.take_all(STATION_FRAME.get(..cut).unwrap_or(&[]));
        register.take_all(STATION_FRAME.get(cut..22).unwrap_or(&[]));
        if register.value() != 0x36_0B98 {
            return false;
        }
    }
    true
}

#[test]
fn check_of_a_frame(rt: HostRuntime) {
    assert!(rt; has_check(STATION_FRAME) && is_check_of_two());
    assert!(rt; check_of_each(&[0xD3, 0, 0]) == 0x47_EA4B);
}

/// Whether this is the frame of the message, in a buffer that had another byte.
fn is_framed_as(message: &[u8], want: &[u8]) -> bool {
    if message.len() > LONGEST_MESSAGE {
        return false;
    }
    let mut frame = ArrayVec::new();
    frame.push(0x55);
    frame_of(message, &mut frame);
    frame.as_slice() == want
}

static LONGEST: [u8; LONGEST_MESSAGE] = [0x55; LONGEST_MESSAGE];

/// Whether the frame of the longest message has its size and the CRC 0 of all its bytes.
fn is_longest_framed() -> bool {
    let mut frame = ArrayVec::new();
    frame_of(&LONGEST, &mut frame);
    frame.len() == 1029 && crc24q(frame.as_slice()) == 0
}

#[test]
fn frames_of_messages(rt: HostRuntime) {
    assert!(rt; is_framed_as(MESSAGE, STATION_FRAME) && is_longest_framed());
    assert!(rt; is_framed_as(&[], &[0xD3, 0x00, 0x00, 0x47, 0xEA, 0x4B]));
}

/// A field of some bits, and its value if they are not missing.
enum Bits {
    Unsigned(u32, Option<u64>),
    Signed(u32, Option<i64>),
}

fn is_field(reader: &mut BitReader, field: &Bits) -> bool {
    match field {
        Bits::Unsigned(width, value) => *width <= 64 && reader.unsigned(*width) == *value,
        Bits::Signed(width, value) => {
            *width > 0 && *width <= 64 && reader.signed(*width) == *value
        }
    }
}

/// Whether the bytes have these fields, and this number of bits is read then.
fn has_fields(bytes: &[u8], fields: &[Bits], place: usize) -> bool {
    if bytes.len() > LONGEST_MESSAGE {
        return false;
    }
    let mut reader = BitReader::new(bytes);
    for field in fields {
        if !is_field(&mut reader, field) {
            return false;
        }
    }
    reader.place() == place
}

/// The fields of a byte of three bits, five with a sign, and one more.
static EIGHT_BITS: [Bits; 3] = [
    Bits::Unsigned(3, Some(5)),
    Bits::Signed(5, Some(-11)),
    Bits::Unsigned(1, None),
];

/// Whether 5 in three bits and -11 in five are written as a byte, with the room before and after
/// it, in bits.
fn eight_bits_are_put() -> bool {
    let mut bytes = ArrayVec::<u8, 1023>::new();
    let mut writer = BitWriter::new();
    let before = writer.bits_left();
    writer.put(5, 3);
    writer.put_signed(-11, 5);
    let after = writer.bits_left();
    writer.finish(&mut bytes);
    before == 8184 && after == 8176 && bytes.as_slice() == [0xB5].as_slice()
}

#[test]
fn bits_of_a_byte(rt: HostRuntime) {
    assert!(rt; has_fields(&[0xB5], &EIGHT_BITS, 8) && eight_bits_are_put());
}

/// Whether 1 in four bits, the least number in 64, and 3 in two are written as these bytes.
fn seventy_bits_are_put() -> bool {
    let mut bytes = ArrayVec::<u8, 1023>::new();
    let mut writer = BitWriter::new();
    writer.put(0x1, 4);
    writer.put_signed(i64::MIN, 64);
    writer.put(3, 2);
    writer.finish(&mut bytes);
    bytes.as_slice() == [0x18, 0, 0, 0, 0, 0, 0, 0, 0x0C].as_slice()
}

static SEVENTY_TWO_BITS: [u8; 9] = [0x12, 0x34, 0x56, 0x78, 0x9A, 0xBC, 0xDE, 0xF0, 0x0F];

/// Its fields of 4 and 64 bits, and one of 5 for which bits are missing.
static SEVENTY_TWO: [Bits; 3] = [
    Bits::Unsigned(4, Some(0x1)),
    Bits::Unsigned(64, Some(0x2345_6789_ABCD_EF00)),
    Bits::Signed(5, None),
];

/// The same with a last one of 4.
static WITH_THE_LAST: [Bits; 4] = [
    Bits::Unsigned(4, Some(0x1)),
    Bits::Unsigned(64, Some(0x2345_6789_ABCD_EF00)),
    Bits::Signed(5, None),
    Bits::Signed(4, Some(-1)),
];

#[test]
fn bits_across_bytes(rt: HostRuntime) {
    assert!(rt; has_fields(&SEVENTY_TWO_BITS, &SEVENTY_TWO, 68));
    assert!(rt; has_fields(&SEVENTY_TWO_BITS, &WITH_THE_LAST, 72) && seventy_bits_are_put());
}
