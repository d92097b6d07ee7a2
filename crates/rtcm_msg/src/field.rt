//! Fields of a message at known places, and the check that they are within the message.
ghost use Rattle.std.specs.Prelude.{◌≡◌, ◌==◌, ◌+◌, ◌*◌, ◌^◌, ◌<◌, ◌≤◌, ℕ, IfOk, length};
ghost use Rattle.rtcm_bits.specs.Bits.{bits_of, signed, FitsInt};
ghost use Rattle.rtcm_msg.specs.Fields.{field_at};
ghost use Rattle.rtcm_msg.specs.Packed.{total_width};
ghost use Rattle.rtcm_msg.specs.inner.MessageBits.{HasBits};
ghost use Rattle.rtcm_msg.specs.inner.Rows as rows;

use crate::fault::MsgFault;
use rtcm_bits::{bits_in_word, number_at, signed_of, word_at};

/// Returns the bit after fields of these widths that begin at bit `place`, each of them `count`
/// times before the next one: those of `count` satellites or cells, or of a header if it is 1.
///
/// # Errors
///
/// `Short` if a field does not end within the message.
pub(crate) fn end_of_fields(
    bytes: &[u8],
    widths: &[u32],
    count: usize,
    mut place: usize,
) -> Result<usize, MsgFault>
    requires few { count ≤ 64 }
    requires within { HasBits bytes.now place }
    ensures exact { result ≡ rows.end_of_rows widths.now count (8 * length bytes.now) place }
    ensures end { IfOk result (λ end. end ≡ place + count * total_width widths.now) }
    ensures within { IfOk result (HasBits bytes.now) }
{
    let bits = 8 * bytes.len();
    for width in widths {
        let end = place + count * *width as usize;
        if bits < end {
            return Err(MsgFault::Short(bits - (bits - place) % *width as usize));
        }
        place = end;
    }
    Ok(place)
}

/// Returns what `end_of_fields` does, given the sum of the widths.
///
/// # Errors
///
/// Those of `end_of_fields`.
// One comparison in place of one for each width: 100 instructions less a message.
pub(crate) fn end_of_data(
    bytes: &[u8],
    widths: &[u32],
    total: usize,
    count: usize,
    place: usize,
) -> Result<usize, MsgFault>
    requires total { total ≡ total_width widths.now }
    requires narrow { total ≤ 80 }
    requires few { count ≤ 64 }
    requires within { HasBits bytes.now place }
    ensures exact { result ≡ rows.end_of_rows widths.now count (8 * length bytes.now) place }
    ensures end { IfOk result (λ end. end ≡ place + count * total_width widths.now) }
    ensures within { IfOk result (HasBits bytes.now) }
{
    let end = place + count * total;
    if end <= 8 * bytes.len() {
        return Ok(end);
    }
    end_of_fields(bytes, widths, count, place)
}

/// Returns whether the bit at `place` is 1.
pub(crate) fn flag_at(bytes: &[u8], place: usize) -> bool
    requires { HasBits bytes.now (place + 1) }
    ensures { result ≡ (field_at (bits_of bytes.now) place 1 == 1) }
{
    number_at(bytes, place, 1) == 1
}

/// Returns the number in the `width` bits, at most 8, from bit `place` on.
pub(crate) fn byte_at(bytes: &[u8], place: usize, width: u32) -> u8
    requires few { width ≤ 8 }
    requires there { HasBits bytes.now (place + width) }
    ensures value { result ≡ field_at (bits_of bytes.now) place width }
    ensures fits { result < 2 ^ width }
{
    number_at(bytes, place, width) as u8
}

/// Returns the number in the `width` bits, 1 to 57, that end `i` times this width after bit `last`,
/// which is not in the first seven bytes: the field of item `i` if that of item 0 ends with `last`.
/// The eight bytes that end with the last bit's byte contain them all.
#[inline(always)]
pub(crate) fn short_to(bytes: &[u8], last: usize, i: usize, width: u32) -> u64
    requires some { 0 < width }
    requires few { width ≤ 57 }
    requires there { HasBits bytes.now (last + i * width + 1) }
    requires after { 63 ≤ last }
    ensures value { (at : ℕ) → last + 1 ≡ at + width → result ≡ field_at (bits_of bytes.now) (at + i * width) width }
    ensures fits { result < 2 ^ width }
{
    let last = last + i * width as usize;
    let end = last / 8 + 1;
    let skip = 57 - width as usize + last % 8;
    bits_in_word(word_at(bytes, end - 8), skip, width as usize)
}

/// Returns the two's complement number in the bits that `short_to` reads.
#[inline(always)]
pub(crate) fn signed_to(bytes: &[u8], last: usize, i: usize, width: u32) -> i64
    requires some { 0 < width }
    requires few { width ≤ 57 }
    requires there { HasBits bytes.now (last + i * width + 1) }
    requires after { 63 ≤ last }
    ensures value { (at : ℕ) → last + 1 ≡ at + width
        → result ≡ signed width (field_at (bits_of bytes.now) (at + i * width) width) }
    ensures fits { FitsInt width result }
{
    signed_of(short_to(bytes, last, i, width), width)
}
