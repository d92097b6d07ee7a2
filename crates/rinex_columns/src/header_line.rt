//! A line of a header, written and read back: its content, and the label after it.
ghost use Rattle.std.specs.Prelude.{◌≡◌, ◌↔◌, ◌+◌, ◌≤◌, IsTrue, is_some, length};
ghost use Rattle.rinex_columns.specs.HeaderLine.{has_label, header_line};
ghost use Rattle.rinex_columns.specs.Limits.{label_columns};

use crate::read::is_same;
use crate::write::{Line, put_left};

/// Width of the content of a line, in columns.
pub const CONTENT_COLUMNS: usize = 60;

/// Width of the label after it, in columns.
const LABEL_COLUMNS: usize = 20;

/// Returns a line: content in columns 1 to 60, the label from column 61 on, and a line feed.
#[tactic(auto, unfolding(crate::specs::HeaderLine::header_line))]
pub fn labelled(content: &[u8], label: &[u8]) -> Line
    requires { length content.now + length label.now ≤ 1000 }
    ensures { result.items ≡ header_line content.now label.now }
{
    let mut line = Line::new();
    put_left(&mut line, CONTENT_COLUMNS, content);
    put_left(&mut line, LABEL_COLUMNS, label);
    line.push(b'\n');
    line
}

/// Reads the line of this content and this label, or returns None for any other line.
pub fn read_labelled(line: &[u8], content: &[u8], label: &[u8]) -> Option<()>
    requires { length content.now + length label.now ≤ 1000 }
    ensures { IsTrue (is_some result) ↔ (line.now ≡ header_line content.now label.now) }
{
    is_same(line, labelled(content, label).as_slice()).then_some(())
}

/// Returns whether a line has this label.
pub fn has_label(line: &[u8], label: &[u8]) -> bool
    requires { length label.now ≤ label_columns }
    ensures { result ≡ has_label label.now line.now }
{
    let mut end = Line::new();
    put_left(&mut end, LABEL_COLUMNS, label);
    end.push(b'\n');
    line.ends_with(end.as_slice())
}
