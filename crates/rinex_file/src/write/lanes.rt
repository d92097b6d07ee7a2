//! The columns of a value, all at once: a lane for each column of its field. Those of a small value
//! are written two digits at a time.
ghost use Rattle.std.specs.Prelude.{◌≡◌, ◌+◌, ◌/◌, ◌%◌, ◌^◌, ◌≤◌, ◌<◌, [], ◌∷◌, length, pos, take};
ghost use Rattle.std.specs.Prelude.{slice_index, true, false, unsigned_abs, Some, ℤ};
ghost use Rattle.std.specs.Int.{is_negative};
ghost use Rattle.rinex_file.specs.FileValues.{FitsColumns};
ghost use Rattle.rinex_file.specs.Lines.{field};
ghost use Rattle.rinex_file.specs.inner.Words.{digit_columns, leading, template};

use std::simd::prelude::*;

/// The columns to which the digits of a value are added, for each number of columns before its
/// first digit: those of a value that isn't negative, then, from row 10 on, those of one that is.
/// The last row is that of no value. A reader reaches it if a minus is in the tenth column, in
/// place of the last whole digit, and then refuses the columns.
static TEMPLATES: [[u8; 16]; 20] = [
    *b"0000000000.000  ",
    *b" 000000000.000  ",
    *b"  00000000.000  ",
    *b"   0000000.000  ",
    *b"    000000.000  ",
    *b"     00000.000  ",
    *b"      0000.000  ",
    *b"       000.000  ",
    *b"        00.000  ",
    *b"         0.000  ",
    *b"-000000000.000  ",
    *b" -00000000.000  ",
    *b"  -0000000.000  ",
    *b"   -000000.000  ",
    *b"    -00000.000  ",
    *b"     -0000.000  ",
    *b"      -000.000  ",
    *b"       -00.000  ",
    *b"        -0.000  ",
    *b"         0.000  ",
];

/// Zero for each digit that may be a leading zero. No digit is equal to the others.
const LEADING: [u8; 16] = [0, 0, 0, 0, 0, 0, 0, 0, 0, 255, 255, 255, 255, 255, 255, 255];

/// Returns the digits of two numbers, four in each two lanes, the last ones of the first number
/// first.
#[inline(always)]
fn fours(low: u32, high: u32) -> u16x8
    requires low { low < 10 ^ 8 }
    requires high { high < 10 ^ 8 }
    ensures { result ≡ low % 10_000 ∷ 0 ∷ low / 10_000 ∷ 0 ∷ high % 10_000 ∷ 0 ∷ high / 10_000 ∷ 0 ∷ [] }
{
    // The upper halves are known to be zero, so each product is one of 32 bits by 32 bits.
    let eights = u64x2::from_array([low as u64, high as u64]);
    // 3,518,437,209 is 2^45 / 10,000, rounded up.
    let upper = (eights * u64x2::splat(3_518_437_209)) >> u64x2::splat(45);
    // 0xFFFF_D8F0 is 2^32 - 10,000, which moves the upper four digits by 32 bits: of 12,345,678,
    // 12,345,678 + 1234 * (2^32 - 10,000) = 5678 + 1234 * 2^32.
    u16x8::from_le_bytes((eights + upper * u64x2::splat(0xFFFF_D8F0)).to_le_bytes())
}

/// Returns the digits of two numbers, two in each lane, the last ones of the first number first.
#[inline(always)]
fn twos(low: u32, high: u32) -> u16x8
    requires low { low < 10 ^ 8 }
    requires high { high < 10 ^ 8 }
    ensures { result ≡ low % 100 ∷ low / 100 % 100 ∷ low / 10_000 % 100 ∷ low / 1_000_000
        ∷ high % 100 ∷ high / 100 % 100 ∷ high / 10_000 % 100 ∷ high / 1_000_000 ∷ [] }
{
    let fours = fours(low, high);
    let hundreds = fours / u16x8::splat(100);
    let rests = fours - hundreds * u16x8::splat(100);
    rests + hundreds.rotate_elements_right::<1>()
}

/// Returns the digits of two numbers, one in each lane, the last one of the first number first.
#[inline(always)]
fn ones(low: u32, high: u32) -> u8x16
    requires low { low < 10 ^ 8 }
    requires high { high < 10 ^ 8 }
    ensures { result ≡ low % 10 ∷ low / 10 % 10 ∷ low / 100 % 10 ∷ low / 1000 % 10
        ∷ low / 10_000 % 10 ∷ low / 100_000 % 10 ∷ low / 1_000_000 % 10 ∷ low / 10_000_000
        ∷ high % 10 ∷ high / 10 % 10 ∷ high / 100 % 10 ∷ high / 1000 % 10
        ∷ high / 10_000 % 10 ∷ high / 100_000 % 10 ∷ high / 1_000_000 % 10 ∷ high / 10_000_000 ∷ [] }
{
    let twos = twos(low, high);
    let tens = twos / u16x8::splat(10);
    // 246 is 2^8 - 10, which moves the tens by 8 bits: of 78, 78 + 7 * 246 = 8 + 7 * 256.
    (twos + tens * u16x8::splat(246)).to_le_bytes()
}

/// The lanes of [`ones`] in their columns: those of a size in thousandths, of a first size, and of
/// a second one. Lane 16 is a zero.
const WHOLE: [usize; 16] = [12, 11, 10, 9, 8, 7, 6, 5, 4, 3, 16, 2, 1, 0, 16, 16];

const FIRST: [usize; 16] = [16, 16, 16, 16, 16, 7, 6, 5, 4, 3, 16, 2, 1, 0, 16, 16];

const SECOND: [usize; 16] = [16, 16, 16, 16, 16, 15, 14, 13, 12, 11, 16, 10, 9, 8, 16, 16];

/// Returns the digits of a size in thousandths in their columns, and zeros in the others.
#[inline(always)]
fn digits(size: u64) -> u8x16
    requires { size < 10 ^ 13 }
    ensures { result ≡ digit_columns size 0 0 }
{
    let low = (size % 100_000_000) as u32;
    ones(low, (size / 100_000_000) as u32).shuffle(u8x16::splat(0), WHOLE)
}

/// Returns the digits of two sizes as [`digits`] does.
#[inline(always)]
fn digits_of_two(first: u32, second: u32) -> (u8x16, u8x16)
    requires first { first < 10 ^ 8 }
    requires second { second < 10 ^ 8 }
    ensures first { result.0 ≡ digit_columns first 0 0 }
    ensures second { result.1 ≡ digit_columns second 0 0 }
{
    let ones = ones(first, second);
    let none = u8x16::splat(0);
    (ones.shuffle(none, FIRST), ones.shuffle(none, SECOND))
}

/// Returns the columns to which the digits of a value are added, of which the first is in column
/// `start`.
#[inline(always)]
pub(crate) fn template(start: usize, negative: bool) -> u8x16
    requires { start ≤ 10 }
    ensures lanes { length result ≡ 16 }
    ensures text { start ≤ 9 → (negative ≡ true → 1 ≤ start) → result ≡ template negative 9 start }
    ensures last { start ≡ 10 → slice_index result 9 ≡ 48 }
{
    u8x16::from_array(TEMPLATES[if negative { start + 9 } else { start }])
}

/// Returns the columns of a value with these digits, of which this number are leading zeros: blanks,
/// a minus if it is negative, its whole part up to the tenth column, a point, thousandths, and two
/// blanks.
#[inline(always)]
fn columns_from(digits: u8x16, zeros: usize, negative: bool) -> u8x16
    requires { zeros ≤ 9 }
    ensures { (v : ℤ) → FitsColumns v → is_negative v ≡ negative → digits ≡ digit_columns (unsigned_abs v) 0 0
        → zeros ≡ leading (take 9 digits) → result ≡ field (Some v) 32 32 }
{
    digits + template(zeros, negative)
}

/// Returns the columns of a value with these digits, whose leading zeros are counted.
#[inline(always)]
fn columns_with(digits: u8x16, negative: bool) -> u8x16
    requires { slice_index digits 9 < 10 }
    ensures { (v : ℤ) → FitsColumns v → is_negative v ≡ negative → digits ≡ digit_columns (unsigned_abs v) 0 0
        → result ≡ field (Some v) 32 32 }
{
    // The number of leading zeros among the first nine digits.
    let zeros = digits
        .simd_ne(u8x16::from_array(LEADING))
        .to_bitmask()
        .trailing_zeros() as usize;
    columns_from(digits, zeros, negative)
}

/// Returns the columns of a value in thousandths, with blanks in the LLI and SSI columns.
#[inline(always)]
pub(crate) fn columns_in(value: i64) -> u8x16
    requires { FitsColumns value }
    ensures { result ≡ field (Some value) 32 32 }
{
    columns_with(digits(value.unsigned_abs()), value < 0)
}

/// Returns the columns of a value as [`columns_in`] does, in fewer steps from 10,000,000.000 to
/// 99,999,999.999, as nearly all pseudoranges are.
#[inline(always)]
pub(crate) fn columns_of_range(value: i64) -> u8x16
    requires { FitsColumns value }
    ensures { result ≡ field (Some value) 32 32 }
{
    if 10_000_000_000 <= value && value < 100_000_000_000 {
        return columns_from(digits(value as u64), 2, false);
    }
    columns_of_other(value)
}

/// Returns the columns of a value as [`columns_in`] does, out of line.
#[cold]
#[inline(never)]
fn columns_of_other(value: i64) -> u8x16
    requires { FitsColumns value }
    ensures { result ≡ field (Some value) 32 32 }
{
    columns_in(value)
}

/// Returns the columns of a strength with these digits, in fewer steps from 10.000 to 99.999.
#[inline(always)]
fn columns_of_strength(digits: u8x16, value: i64) -> u8x16
    requires digits { digits ≡ digit_columns (unsigned_abs value) 0 0 }
    requires fits { FitsColumns value }
    ensures { result ≡ field (Some value) 32 32 }
{
    if 10_000 <= value && value < 100_000 {
        return columns_from(digits, 8, false);
    }
    columns_of_other(value)
}

/// Returns the columns of two values below 100,000 in size, as [`columns_in`] does.
#[inline(always)]
pub(crate) fn columns_in_two(first: i64, second: i64) -> (u8x16, u8x16)
    requires first { unsigned_abs first < 10 ^ 8 }
    requires second { unsigned_abs second < 10 ^ 8 }
    ensures first { result.0 ≡ field (Some first) 32 32 }
    ensures second { result.1 ≡ field (Some second) 32 32 }
{
    let (low, high) = digits_of_two(first.unsigned_abs() as u32, second.unsigned_abs() as u32);
    let shift = columns_with(low, first < 0);
    (shift, columns_of_strength(high, second))
}

/// The two digits of each number below 100.
const PAIRS: [u8; 200] = *b"000102030405060708091011121314151617181920212223242526272829\
    30313233343536373839404142434445464748495051525354555657585960616263646566676869\
    707172737475767778798081828384858687888990919293949596979899";

/// Returns the two digits of a number.
fn pair(number: u32) -> [u8; 2]
    requires { number < 100 }
    ensures { result ≡ (48 + number / 10) ∷ (48 + number % 10) ∷ [] }
{
    let tens = 2 * number as usize;
    [PAIRS[tens], PAIRS[tens + 1]]
}

/// Returns the columns of a value from 0 to 99.999, with blanks in the LLI and SSI columns.
#[inline(always)]
pub(crate) fn columns_of(value: u32) -> [u8; 16]
    requires { value < 100_000 }
    ensures { result ≡ field (Some (pos value)) 32 32 }
{
    let [tens, ones] = pair(value / 1000);
    let part = value % 1000;
    let [hundredths, thousandths] = pair(part % 100);
    let mut columns = *b"          .     ";
    columns[9] = ones;
    columns[11] = b'0' + (part / 100) as u8;
    columns[12] = hundredths;
    columns[13] = thousandths;
    // A zero before the last digit of the whole part is a blank.
    if value < 10_000 {
        return columns;
    }
    columns[8] = tens;
    columns
}
