//! The CRC of bytes of each length that a frame can have, as one piece and as two, against a
//! division bit by bit. The code is proved; what is tested is how compilers translate its vectors:
//! `rt test --backend rattle` runs it by the second one.
use super::STATION_FRAME;
use rtcm_bits::{CheckRegister, LONGEST_FRAME, crc24q};

/// The remainder of the division after one more byte, bit by bit.
fn divided(rest: u32, byte: u8) -> u32 {
    let mut after = rest ^ ((byte as u32) << 16);
    for _ in 0..8 {
        after <<= 1;
        if after >= 0x100_0000 {
            after ^= 0x186_4CFB;
        }
    }
    after
}

/// The remainder of the division of these bytes.
fn remainder(bytes: &[u8]) -> u32 {
    let mut rest = 0;
    for byte in bytes {
        rest = divided(rest, *byte);
    }
    rest
}

/// As many bytes as a frame can have, in no order.
fn noise() -> [u8; LONGEST_FRAME] {
    let mut bytes = [0; LONGEST_FRAME];
    let mut state = 1u32;
    for byte in &mut bytes {
        state = state.wrapping_mul(1_664_525).wrapping_add(1_013_904_223);
        *byte = (state >> 24) as u8;
    }
    bytes
}

/// Offsets at which bytes are cut in two: about those at which they are processed sixteen at a time
/// or are folded, and others.
static CUTS: [usize; 9] = [1, 3, 15, 16, 96, 112, 160, 301, 515];

/// The CRC of bytes that are cut in two.
fn check_of_two(bytes: &[u8], cut: usize) -> u32 {
    let mut register = CheckRegister::new();
    register.take_all(bytes.get(..cut).unwrap_or(bytes));
    register.take_all(bytes.get(cut..).unwrap_or(&[]));
    register.value()
}

/// Whether the CRC of bytes is this one, whole and in two pieces.
fn has_check(bytes: &[u8], check: u32) -> bool {
    for cut in &CUTS {
        if check_of_two(bytes, *cut) != check {
            return false;
        }
    }
    crc24q(bytes) == check
}

/// Whether the CRC of each front of these bytes is the remainder of its division.
fn are_remainders(bytes: &[u8]) -> bool {
    let mut rest = 0;
    for (size, byte) in bytes.iter().enumerate() {
        if !has_check(bytes.get(..size).unwrap_or(&[]), rest) {
            return false;
        }
        rest = divided(rest, *byte);
    }
    has_check(bytes, rest)
}

#[test]
fn the_check_of_each_length_is_the_remainder(rt: HostRuntime) {
    assert!(rt; remainder(STATION_FRAME) == 0 && remainder(&[0xD3, 0, 0]) == 0x47_EA4B);
    assert!(rt; are_remainders(&noise()));
}
