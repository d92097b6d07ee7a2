//! Truncated messages.
use super::known::{Known, bytes_of};
use rtcm_msg::{MsgFault, decode};

/// A message, and the widths of its fields.
static FIELDS: [(Known, &[usize]); 6] = [
    (
        Known::Station,
        &[12, 12, 6, 1, 1, 1, 1, 38, 1, 1, 38, 2, 38],
    ),
    (
        Known::Height,
        &[12, 12, 6, 1, 1, 1, 1, 38, 1, 1, 38, 2, 38, 16],
    ),
    (
        Known::Fine,
        &[
            12, 12, 30, 1, 3, 7, 2, 2, 1, 3, 64, 32, 1, 8, 4, 10, 14, 20, 24, 10, 1, 10, 15,
        ],
    ),
    (
        Known::Coarse,
        &[
            12, 12, 30, 1, 3, 7, 2, 2, 1, 3, 64, 32, 1, 8, 10, 15, 22, 4, 1, 6,
        ],
    ),
    (
        Known::Msm5,
        &[
            12, 12, 30, 1, 3, 7, 2, 2, 1, 3, 64, 32, 1, 8, 4, 10, 14, 15, 22, 4, 1, 6, 15,
        ],
    ),
    (
        Known::Msm6,
        &[
            12, 12, 30, 1, 3, 7, 2, 2, 1, 3, 64, 32, 1, 8, 10, 20, 24, 10, 1, 10,
        ],
    ),
];

/// The number of bits before the first field that does not end within `bits` bits.
fn first_unended(widths: &[usize], bits: usize) -> Option<usize> {
    let mut place = 0usize;
    for width in widths {
        let end = place.saturating_add(*width);
        if bits < end {
            return Some(place);
        }
        place = end;
    }
    None
}

/// Whether each prefix of a message is refused at the first field that does not end within it.
fn has_short_prefixes(message: &[u8], widths: &[usize]) -> bool {
    for size in 0..message.len() {
        let Some(place) = first_unended(widths, size.saturating_mul(8)) else {
            return false;
        };
        let prefix = message.get(..size).unwrap_or(&[]);
        if decode(prefix).err() != Some(MsgFault::Short(place)) {
            return false;
        }
    }
    true
}

#[test]
fn each_proper_prefix_is_short(rt: HostRuntime) {
    for (message, widths) in &FIELDS {
        assert!(rt; has_short_prefixes(bytes_of(*message), widths));
    }
}
