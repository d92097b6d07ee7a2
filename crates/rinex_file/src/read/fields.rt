//! The value in the columns of a field, judged by lanes: the columns are those in which it is
//! written, or nothing is read.
ghost use Rattle.std.specs.Prelude.{◌≡◌, ◌↔◌, ◌+◌, ◌^◌, ◌≤◌, ◌<◌, if◌then◌else◌};
ghost use Rattle.std.specs.Prelude.{length, take, drop, replicate, slice_index, IfSome, IsTrue, Some};
ghost use Rattle.rinex_file.specs.FileValues.{FitsColumns};
ghost use Rattle.rinex_file.specs.Lines.{field};
ghost use Rattle.rinex_columns.specs.Read.{ReadsExactly};
ghost use Rattle.rinex_file.specs.inner.Words.{AreBelow, AreWithin, digit_columns, blanks, has_minus, twos_of};

use crate::write::lanes::template;
use gnss_obs::Thousandths;
use rinex_columns::signed;
use std::simd::prelude::*;

/// The largest digit in each column of a value. The last two columns have none.
const LIMITS: [u8; 16] = [9, 9, 9, 9, 9, 9, 9, 9, 9, 9, 0, 9, 9, 9, 255, 255];

/// Returns whether no number is more than the largest digit of its column.
#[inline(always)]
fn are_digits(digits: u8x16) -> bool
    ensures { IsTrue result ↔ AreWithin LIMITS digits }
{
    digits.simd_gt(u8x16::from_array(LIMITS)).to_bitmask() == 0
}

/// Returns the numbers of each two digits.
#[inline(always)]
fn twos(digits: u8x16) -> u16x8
    requires { AreBelow 10 digits }
    ensures { result ≡ twos_of 10 digits }
{
    (u16x8::from_le_bytes(digits) * u16x8::splat(2561)) >> u16x8::splat(8)
}

/// Returns the numbers of each two numbers below 100.
#[inline(always)]
fn fours(twos: u16x8) -> u32x4
    requires { AreBelow 100 twos }
    ensures { result ≡ twos_of 100 twos }
{
    (u32x4::from_le_bytes(twos.to_le_bytes()) * u32x4::splat(6_553_601)) >> u32x4::splat(16)
}

/// Returns the numbers of each two numbers below 10,000.
#[inline(always)]
fn eights(fours: u32x4) -> u64x2
    requires { AreBelow 10_000 fours }
    ensures { result ≡ twos_of 10_000 fours }
{
    let both = u64x2::from_le_bytes(fours.to_le_bytes());
    (both & u64x2::splat(0xFFFF_FFFF)) * u64x2::splat(10_000) + (both >> u64x2::splat(32))
}

/// The columns of the digits, in groups of eight; column 16 is a zero.
const DIGITS: [usize; 16] = [16, 16, 16, 0, 1, 2, 3, 4, 5, 6, 7, 8, 9, 11, 12, 13];

/// Returns the size in thousandths that has these digits in its columns.
#[inline(always)]
fn size_of(digits: u8x16) -> u64
    requires { AreWithin LIMITS digits }
    ensures digits { digits ≡ digit_columns result (slice_index digits 14) (slice_index digits 15) }
    ensures bound { result < 10 ^ 13 }
{
    let ordered = digits.shuffle(u8x16::splat(0), DIGITS);
    let [high, low] = eights(fours(twos(ordered))).to_array();
    high * 100_000_000 + low
}

/// Returns the value whose columns these are, with the LLI and SSI columns that they have, or None
/// if they are those of no value. Its first digit is in column `start`, and is `first`.
#[inline(always)]
fn value_in(columns: u8x16, start: usize, first: u8, negative: bool) -> Option<Thousandths>
    requires few { blanks columns ≤ 9 }
    requires sign { negative ≡ has_minus columns }
    requires start { start ≡ (if negative then blanks columns + 1 else blanks columns) }
    requires first { first ≡ slice_index columns start }
    ensures { ReadsExactly FitsColumns (λ v. field (Some v) (slice_index columns 14) (slice_index columns 15))
        columns result }
{
    let digits = columns - template(start, negative);
    if !are_digits(digits) {
        return None;
    }
    let size = size_of(digits);
    // A value begins with a zero only if that is its one whole digit.
    if first == b'0' {
        if start < 9 {
            return None;
        }
        if negative && size == 0 {
            return None;
        }
    }
    Some(Thousandths::new(signed(size, negative)))
}

/// Returns the number of blanks before the first other column.
#[inline(always)]
fn blanks_in(columns: u8x16) -> usize
    ensures count { result ≡ blanks columns }
    ensures most { result ≤ 16 }
{
    let written = columns.simd_ne(u8x16::splat(b' ')).to_bitmask();
    if written == 0 {
        16
    } else {
        written.trailing_zeros() as usize
    }
}

/// Returns whether the sixteen columns from this one are blank.
#[inline(always)]
pub(crate) fn is_blank_at(text: &[u8], at: usize) -> bool
    requires { at + 16 ≤ length text.now }
    ensures { IsTrue result → take 16 (drop at text.now) ≡ replicate 16 32 }
{
    blanks_in(u8x16::from_slice(&text[at..at + 16])) == 16
}

/// Returns the value of the field in these columns, with these LLI and SSI columns if there is a
/// value, or None if they are not as they are written.
#[inline(always)]
pub(crate) fn field_in(
    text: &[u8],
    at: usize,
    lost: u8,
    strength: u8,
) -> Option<Option<Thousandths>>
    requires { at + 16 ≤ length text.now }
    ensures { ReadsExactly (λ v. IfSome v FitsColumns) (λ v. field v lost strength)
        (take 16 (drop at text.now)) result }
{
    let columns = u8x16::from_slice(&text[at..at + 16]);
    let empty = blanks_in(columns);
    // The tenth column has the last whole digit of a value.
    if empty > 9 {
        return if empty == 16 { Some(None) } else { None };
    }
    if text[at + 14] != lost || text[at + 15] != strength {
        return None;
    }
    let negative = text[at + empty] == b'-';
    let start = empty + usize::from(negative);
    match value_in(columns, start, text[at + start], negative) {
        Some(value) => Some(Some(value)),
        None => None,
    }
}
