//! The buffer of a line, and texts and numbers of fixed width that are appended to it.
ghost use Rattle.std.specs.Prelude.{◌≡◌, ◌+◌, ◌^◌, ◌≤◌, ◌*◌, ◌∷◌, pos, replicate, decimal, length};
ghost use Rattle.rinex_columns.specs.Numbers.{Adds, fixed, padded, left, right};
ghost use Rattle.arrayvec.specs.ArrayVec.{array_vec_len};

use arrayvec::ArrayVec;
use gnss_system::MOST_SIGNALS;
use itoa::Buffer;

/// Width of a value field, in columns: F14.3 plus the LLI and SSI columns.
pub const VALUE_COLUMNS: usize = 16;

/// Width of a signal, in columns: pseudorange, phase, Doppler shift and strength.
pub const SIGNAL_COLUMNS: usize = 4 * VALUE_COLUMNS;

/// Largest size of a line with its line feed, in bytes: three columns for a satellite, and
/// those of its signals.
pub const MOST_LINE: usize = 3 + SIGNAL_COLUMNS * MOST_SIGNALS + 1;

/// A line of a file, its line feed included: at most 1,220 bytes.
pub type Line = ArrayVec<u8, MOST_LINE>;

/// Appends the bytes.
pub fn put<const N: usize>(line: &mut ArrayVec<u8, N>, bytes: &[u8])
    requires { array_vec_len line.old + length bytes.now ≤ N }
    ensures { Adds line.old.items line.new.items bytes.now (length bytes.now) }
{
    // Never fails: the contract requires room for the bytes.
    let _ = line.try_extend_from_slice(bytes);
}

/// Appends this number of copies of a byte.
fn put_copies<const N: usize>(line: &mut ArrayVec<u8, N>, byte: u8, count: usize)
    requires { array_vec_len line.old + count ≤ N }
    ensures { Adds line.old.items line.new.items (replicate count byte) count }
{
    for _ in 0..count {
        line.push(byte);
    }
}

/// Appends a number with leading zeros up to `places` digits.
fn put_padded<const N: usize>(line: &mut ArrayVec<u8, N>, places: usize, number: u64)
    requires { array_vec_len line.old + places + 20 ≤ N }
    ensures { Adds line.old.items line.new.items (padded places number) (places + 20) }
{
    let mut buffer = Buffer::new();
    let digits = buffer.format(number).as_bytes();
    put_copies(line, b'0', places.saturating_sub(digits.len()));
    put(line, digits);
}

/// Appends a text, left-aligned in `width` columns.
pub fn put_left<const N: usize>(line: &mut ArrayVec<u8, N>, width: usize, text: &[u8])
    requires room { array_vec_len line.old + width + length text.now ≤ N }
    ensures { Adds line.old.items line.new.items (left width text.now) (width + length text.now) }
{
    put(line, text);
    put_copies(line, b' ', width.saturating_sub(text.len()));
}

/// Appends a text, right-aligned in `width` columns.
fn put_right<const N: usize>(line: &mut ArrayVec<u8, N>, width: usize, text: &[u8])
    requires room { array_vec_len line.old + width + length text.now ≤ N }
    ensures { Adds line.old.items line.new.items (right width text.now) (width + length text.now) }
{
    put_copies(line, b' ', width.saturating_sub(text.len()));
    put(line, text);
}

/// Appends a whole number, right-aligned in `width` columns.
pub fn put_whole<const N: usize>(line: &mut ArrayVec<u8, N>, width: usize, number: u64)
    requires width { width ≤ 20 }
    requires room { array_vec_len line.old + 60 ≤ N }
    ensures { Adds line.old.items line.new.items (right width (decimal number)) 60 }
{
    put_right(line, width, Buffer::new().format(number).as_bytes());
}

/// Appends a number, given in units of 10 to the minus `places`, with a decimal point and
/// right-aligned in `width` columns.
pub fn put_fixed<const N: usize>(
    line: &mut ArrayVec<u8, N>,
    width: usize,
    places: usize,
    scale: u64,
    value: i64,
)
    requires width { width ≤ 20 }
    requires room { array_vec_len line.old + 84 ≤ N }
    requires places { places ≤ 20 }
    requires scale { scale ≡ 10 ^ places }
    ensures { Adds line.old.items line.new.items (right width (fixed places value)) 84 }
{
    let size = value.unsigned_abs();
    let mut text: ArrayVec<u8, 64> = ArrayVec::new();
    if value < 0 {
        text.push(b'-');
    }
    put(&mut text, Buffer::new().format(size / scale).as_bytes());
    text.push(b'.');
    put_padded(&mut text, places, size % scale);
    put_right(line, width, text.as_slice());
}

/// Appends seconds, given in milliseconds, with seven decimals and right-aligned in `width`
/// columns.
pub fn put_seconds<const N: usize>(line: &mut ArrayVec<u8, N>, width: usize, milliseconds: u16)
    requires width { width ≤ 20 }
    requires room { array_vec_len line.old + 84 ≤ N }
    ensures { Adds line.old.items line.new.items (right width (fixed 7 (pos (milliseconds * 10_000)))) 84 }
{
    put_fixed(line, width, 7, 10_000_000, milliseconds as i64 * 10_000);
}

/// Appends a blank and a number with two digits.
pub fn put_two<const N: usize>(line: &mut ArrayVec<u8, N>, number: u8)
    requires { array_vec_len line.old + 23 ≤ N }
    ensures { Adds line.old.items line.new.items (32 ∷ padded 2 number) 23 }
{
    put(line, b" ");
    put_padded(line, 2, number as u64);
}
