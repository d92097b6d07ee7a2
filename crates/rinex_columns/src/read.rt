//! Numbers in the columns of a line, read without validation.
ghost use Rattle.std.specs.Prelude.{◌≡◌, ◌↔◌, ◌≤◌, ◌<◌, ◌^◌, IsTrue, length, take, drop, pos, neg_ℤ, if◌then◌else◌};
ghost use Rattle.rinex_columns.specs.Read.{digits_in};

/// Returns whether two texts are byte-identical.
pub fn is_same(a: &[u8], b: &[u8]) -> bool
    ensures { IsTrue result ↔ (a.now ≡ b.now) }
{
    a == b
}

/// Returns the digits of a text as one number; other bytes are skipped.
pub fn digits_in(text: &[u8]) -> u64
    requires { length text.now ≤ 18 }
    ensures value { result ≡ digits_in text.now }
    ensures bound { result < 10 ^ 18 }
    ensures digits { result < 10 ^ length text.now }
{
    let mut number = 0;
    for b in text {
        if b.is_ascii_digit() {
            number = number * 10 + (*b - b'0') as u64;
        }
    }
    number
}

/// Returns a number with this size.
pub fn signed(size: u64, has_minus: bool) -> i64
    requires { size < 10 ^ 18 }
    ensures { result ≡ (if has_minus then neg_ℤ (pos size) else pos size) }
{
    let number = size as i64;
    if has_minus { -number } else { number }
}

/// Returns up to `width` columns of a line, from column `from` on, counted from 0.
pub fn columns(line: &[u8], from: usize, width: usize) -> &[u8]
    ensures value { result.now ≡ take width (drop from line.now) }
    ensures bound { length result.now ≤ width }
{
    let rest = &line[from.min(line.len())..];
    &rest[..width.min(rest.len())]
}
