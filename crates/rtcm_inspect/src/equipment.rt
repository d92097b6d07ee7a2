//! The lines of the antenna and the receiver of a station, messages 1007, 1008 and 1033.
ghost use Rattle.std.specs.Prelude.{◌≡◌, ◌+◌, ◌*◌, ◌<◌, ◌≤◌, ◌∷◌, ◌++◌, [], length, map, decimal};
ghost use Rattle.rtcm_msg.specs.Equipment.{AreShort, equipment_value, longest_text};
ghost use Rattle.line_texts.specs.Lines.{AddsWords, IsTextWithin, line, with_words};
ghost use Rattle.rtcm_inspect.specs.EquipmentLines.{equipment_words, equipment_fault_words};
ghost use Rattle.rtcm_inspect.specs.EquipmentLines.{escaped, hex_digit, quoted};
ghost use Rattle.rtcm_inspect.specs.inner.Lines.{longest_head, longest_quoted};

use arrayvec::ArrayVec;
use line_texts::OutputLine;
use rtcm_msg::{Equipment, EquipmentFault};

/// The most bytes of a text of 31 bytes in quotation marks, after a blank.
const QUOTED_BYTES: usize = 3 + 4 * 31;

/// Room for a line: four numbers, each followed by a blank or the next one, five texts, and a line
/// feed.
const EQUIPMENT_BYTES: usize = 4 * 21 + 5 * QUOTED_BYTES + 1;

/// The line of a message, which is longer than others.
pub type EquipmentText = ArrayVec<u8, EQUIPMENT_BYTES>;

/// Returns the line of a message with an antenna and a receiver: offset, number, station, setup, and
/// the texts in quotation marks.
pub fn equipment_text(offset: u64, equipment: &Equipment<'_>) -> EquipmentText
    requires { AreShort equipment.now.texts.items }
    ensures { result.items ≡ line (decimal offset ∷ equipment_words (equipment_value equipment.now)) }
{
    let mut text = ArrayVec::new();
    let head = head_of(offset, equipment);
    text.try_extend_from_slice(head.as_bytes()).unwrap();
    add_texts(&mut text, equipment.texts.as_slice());
    text.push(b'\n');
    text
}

/// Returns the words before the texts: offset, number, station and setup.
fn head_of(offset: u64, equipment: &Equipment<'_>) -> OutputLine
    ensures { IsTextWithin result (with_words (decimal offset)
        (decimal equipment.now.number ∷ decimal equipment.now.station ∷ decimal equipment.now.setup ∷ []))
        longest_head }
{
    let mut line = OutputLine::new();
    line.put_number(offset);
    line.add_number(u64::from(equipment.number));
    line.add_number(u64::from(equipment.station));
    line.add_number(u64::from(equipment.setup));
    line
}

/// Adds texts in quotation marks, each after a blank.
fn add_texts(text: &mut EquipmentText, texts: &[&[u8]])
    requires few { length texts.now ≤ 5 }
    requires short { AreShort texts.now }
    requires room { length text.old.items ≤ longest_head }
    ensures text { text.new.items ≡ with_words text.old.items (map quoted (map (λ t. t.now) texts.now)) }
    ensures short { length text.new.items ≤ longest_head + 5 * longest_quoted }
{
    for i in 0..texts.len() {
        let part = quoted(texts[i]);
        text.try_extend_from_slice(part.as_bytes()).unwrap();
    }
}

/// Returns a text in quotation marks, after a blank.
fn quoted(text: &[u8]) -> OutputLine
    requires { length text.now ≤ longest_text }
    ensures { IsTextWithin result (0x20 ∷ quoted text.now) longest_quoted }
{
    let mut line = OutputLine::new();
    line.put(b" \"");
    for i in 0..text.len() {
        add_escaped(&mut line, text[i]);
    }
    line.put(b"\"");
    line
}

/// Adds a byte of a text, or `\x` and its two digits if it is a quotation mark, a backslash, or no
/// printable ASCII.
fn add_escaped(line: &mut OutputLine, byte: u8)
    requires { length line.old ≤ longest_quoted }
    ensures { IsTextWithin line.new (line.old ++ escaped byte) (length line.old + 4) }
{
    if byte < 0x20 || byte >= 0x7F || byte == b'"' || byte == b'\\' {
        line.put(&[b'\\', b'x', hex_digit(byte / 16), hex_digit(byte % 16)]);
    } else {
        line.put(&[byte]);
    }
}

/// Returns a digit of the base 16, in ASCII.
fn hex_digit(n: u8) -> u8
    requires { n < 16 }
    ensures { result ≡ hex_digit n }
{
    if n < 10 { b'0' + n } else { b'A' - 10 + n }
}

/// Adds the name of a fault and the index of the first bit of the field.
pub fn add_equipment_fault(line: &mut OutputLine, fault: EquipmentFault)
    requires { length line.old ≤ 200 }
    ensures { AddsWords line.old line.new (equipment_fault_words fault) 40 }
{
    match fault {
        EquipmentFault::Short(bit) => line.add_count("Short", bit as u64),
        EquipmentFault::BadCounter(bit) => line.add_count("BadCounter", bit as u64),
    }
}
