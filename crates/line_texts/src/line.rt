//! A line of output.
ghost use Rattle.std.specs.Prelude.{◌≡◌, ◌+◌, ◌<◌, ◌≤◌, [], ◌∷◌, ◌++◌, length, decimal};
ghost use Rattle.line_texts.specs.Digits.{calendar_text, digit, four_digits, three_digits, two_digits};
ghost use Rattle.line_texts.specs.Lines.{AddsWords, IsTextWithin, longest_line, longest_number};
ghost use Rattle.line_texts.specs.Metres.{metres, size_text};

use arrayvec::ArrayVec;
use itoa::Buffer;
use std::marker::Model;

/// Room for a line. The longest is the report of a conversion: 15 names of 105 letters in all, 15
/// numbers of at most 20 digits, 29 blanks and a line feed. The last 2 are spare.
pub const LINE_BYTES: usize = 105 + 15 * 20 + 29 + 1 + 2;

/// A line of output, built word by word with single blanks between the words.
#[derive(Drop)]
pub struct OutputLine {
    text: ArrayVec<u8, LINE_BYTES>,
}

impl Model for OutputLine {
    ghost use Rattle.std.specs.Prelude.{List, ℕ, ◌≤◌, length};
    ghost use Rattle.line_texts.specs.Lines.{longest_line};

    ghost Value = { List ℕ };

    ghost view = { λ l. l.text.items };

    ghost invariant = { λ l. length l.text.items ≤ longest_line };
}

impl OutputLine {
    /// Returns a line without a byte.
    pub fn new() -> OutputLine
        ensures { result ≡ [] }
    {
        OutputLine {
            text: ArrayVec::new(),
        }
    }

    /// Appends these bytes.
    pub fn put(&mut self, bytes: &[u8])
        requires { length self.old + length bytes.now ≤ longest_line }
        ensures { self.new ≡ self.old ++ bytes.now }
    {
        self.text.try_extend_from_slice(bytes).unwrap();
    }

    /// Appends a number.
    pub fn put_number(&mut self, number: u64)
        requires { length self.old + longest_number ≤ longest_line }
        ensures { IsTextWithin self.new (self.old ++ decimal number) (length self.old + longest_number) }
    {
        if number < 10 {
            self.put(&[digit(number)]);
        } else {
            self.put(Buffer::new().format(number).as_bytes());
        }
    }

    /// Appends a blank and a number.
    pub fn add_number(&mut self, number: u64)
        requires { length self.old + 1 + longest_number ≤ longest_line }
        ensures { IsTextWithin self.new (self.old ++ 0x20 ∷ decimal number) (length self.old + 1 + longest_number) }
    {
        self.put(b" ");
        self.put_number(number);
    }

    /// Appends a blank and a word.
    pub fn add_word(&mut self, word: &str)
        requires { length self.old + length word.now + 1 ≤ longest_line }
        ensures { IsTextWithin self.new (self.old ++ 0x20 ∷ word.now) (length self.old + length word.now + 1) }
    {
        self.put(b" ");
        self.put(word.as_bytes());
    }

    /// Appends a blank, a name, a blank and a number.
    pub fn add_count(&mut self, name: &str, number: u64)
        requires { length self.old + length name.now + 2 + longest_number ≤ longest_line }
        ensures { AddsWords self.old self.new (name.now ∷ decimal number ∷ []) (length name.now + 2 + longest_number) }
    {
        self.add_word(name);
        self.add_number(number);
    }

    /// Appends a separator and a text.
    pub fn add_part(&mut self, separator: u8, part: &[u8])
        requires { length self.old + length part.now + 1 ≤ longest_line }
        ensures { IsTextWithin self.new (self.old ++ separator ∷ part.now) (length self.old + length part.now + 1) }
    {
        self.put(&[separator]);
        self.put(part);
    }

    /// Appends a separator and a length, given in units of 0.0001 m, in metres with four decimals.
    pub fn add_metres(&mut self, separator: u8, value: i64)
        requires { length self.old + longest_number + 7 ≤ longest_line }
        ensures { IsTextWithin self.new (self.old ++ separator ∷ metres value) (length self.old + longest_number + 7) }
    {
        self.put(&[separator]);
        self.put(if value < 0 { b"-" } else { b"" });
        self.put_size(value.unsigned_abs());
    }

    /// Appends a length in metres with four decimals.
    fn put_size(&mut self, size: u64)
        requires { length self.old + longest_number + 5 ≤ longest_line }
        ensures { IsTextWithin self.new (self.old ++ size_text size) (length self.old + longest_number + 5) }
    {
        self.put_number(size / 10_000);
        self.add_four(b'.', size);
    }

    /// Appends a separator and the last two digits of a number.
    pub fn add_two(&mut self, separator: u8, number: u64)
        requires { length self.old + 3 ≤ longest_line }
        ensures { IsTextWithin self.new (self.old ++ separator ∷ two_digits number) (length self.old + 3) }
    {
        self.put(&[separator, digit(number / 10), digit(number)]);
    }

    /// Appends a separator and the last three digits of a number.
    pub fn add_three(&mut self, separator: u8, number: u64)
        requires { length self.old + 4 ≤ longest_line }
        ensures { IsTextWithin self.new (self.old ++ separator ∷ three_digits number) (length self.old + 4) }
    {
        self.add_two(separator, number / 10);
        self.put(&[digit(number)]);
    }

    /// Appends a separator and the last four digits of a number.
    fn add_four(&mut self, separator: u8, number: u64)
        requires { length self.old + 5 ≤ longest_line }
        ensures { IsTextWithin self.new (self.old ++ separator ∷ four_digits number) (length self.old + 5) }
    {
        self.add_two(separator, number / 100);
        self.put(&[digit(number / 10), digit(number)]);
    }

    /// Appends a blank and a date.
    pub fn add_date(&mut self, year: u16, month: u8, day: u8)
        requires { length self.old + 11 ≤ longest_line }
        ensures { IsTextWithin self.new (self.old ++ 0x20 ∷ calendar_text year month day) (length self.old + 11) }
    {
        self.add_four(b' ', u64::from(year));
        self.add_two(b'-', u64::from(month));
        self.add_two(b'-', u64::from(day));
    }

    /// Appends the line feed.
    pub fn finish(&mut self)
        requires { length self.old < longest_line }
        ensures { self.new ≡ self.old ++ 0x0A ∷ [] }
    {
        self.put(b"\n");
    }

    /// Returns the line's bytes.
    pub fn as_bytes(&self) -> &[u8]
        ensures { IsTextWithin result.now self.now longest_line }
    {
        self.text.as_slice()
    }
}

/// Returns the last decimal digit of a number, in ASCII.
fn digit(number: u64) -> u8
    ensures { result ≡ digit number }
{
    b'0' + (number % 10) as u8
}
