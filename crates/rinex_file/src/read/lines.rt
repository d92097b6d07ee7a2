//! The lines of a reader, of which blocks are read ahead.
ghost use Rattle.std.specs.Prelude.{◌≡◌, ◌==◌, ◌<◌, ◌≤◌, [], take, drop, length, IfNone, IfSome, Some};
ghost use Rattle.std.specs.Io.KnownBytes.{Consumes, prepend_known};
ghost use Rattle.arrayvec.specs.ArrayVec.{array_vec_len};
ghost use Rattle.rinex_file.specs.Blocks.{MovesBytes, LeavesRest};
ghost use Rattle.rinex_file.specs.Exact.{IsFound, IsLine};
ghost use Rattle.rinex_columns.specs.Limits.{most_line};

use devices::Counted;
use memchr::memchr;
use rinex_columns::{Line, MOST_LINE, put};
use std::io::Read;
use std::marker::Model;

/// Size of a block, in bytes.
const BLOCK_BYTES: usize = 65_536;

/// Bytes that were read ahead: the line that was read last, if it wasn't copied, and those after
/// it.
#[derive(Drop)]
struct Block {
    bytes: [u8; BLOCK_BYTES],
    at: usize,
    end: usize,
}

impl Model for Block {
    ghost use Rattle.std.specs.Prelude.{◌≤◌, ◌-◌, List, ℕ, take, drop};
    ghost use Rattle.rinex_file.specs.Limits.{block_bytes};

    ghost Value = { List ℕ };

    ghost view = { λ b. take (b.end - b.at) (drop b.at b.bytes) };

    ghost invariant = { λ b. (b.at ≤ b.end) × (b.end ≤ block_bytes) };
}

/// What was found when the next line was read.
#[derive(Clone, Copy)]
pub(crate) enum Found {
    /// A line with its line feed.
    Line,
    /// The end of the input, after some bytes of a line or none.
    End,
    /// No line feed in 1,220 bytes.
    Long,
    /// The reader failed.
    Failed,
}

impl Block {
    /// Reads bytes ahead if none is left. Returns what was found in their place, or None if there
    /// are some.
    fn fill<R: Read>(&mut self, reader: &mut Counted<R>) -> Option<Found>
        ensures same { Consumes (prepend_known self.old (R.remaining reader.old.inner))
            (prepend_known self.new (R.remaining reader.new.inner)) [] }
        ensures left { LeavesRest (R.remaining reader.old.inner) (R.remaining reader.new.inner) }
        ensures some { IfNone result ((0 < length self.new) × (reader.new.failures ≡ reader.old.failures)) }
        ensures none { IfSome result (λ found. IsFound found [] (prepend_known self.new (R.remaining reader.new.inner))
            reader.old.failures reader.new.failures) }
        ensures failed { result ≡ Some Found.Failed → self.new ≡ [] }
    {
        if self.at < self.end {
            return None;
        }
        self.at = 0;
        self.end = 0;
        let Ok(count) = reader.read(&mut self.bytes) else {
            return Some(Found::Failed);
        };
        self.end = count;
        (count == 0).then_some(Found::End)
    }

    /// Returns the size of the first line if it is whole in the block, or 0.
    fn line_size(&self) -> usize
        ensures whole { 0 < result → IsLine (take result self.now) }
        ensures fits { (result ≤ length self.now) × (result ≤ most_line) }
    {
        let held = &self.bytes[self.at..self.end];
        let near = &held[..held.len().min(MOST_LINE)];
        match memchr(b'\n', near) {
            Some(feed) => feed + 1,
            None => 0,
        }
    }

    /// Returns the first `count` bytes.
    fn front(&self, count: usize) -> &[u8]
        requires { count ≤ length self.now }
        ensures { result.now ≡ take count self.now }
    {
        &self.bytes[self.at..self.at + count]
    }

    /// Skips the first `count` bytes.
    fn skip(&mut self, count: usize)
        requires { count ≤ length self.old }
        ensures { self.new ≡ drop count self.old }
    {
        self.at += count;
    }

    /// Moves bytes to the end of a line, up to its line feed or as many as are available and fit.
    /// Returns whether the line feed is among them.
    fn move_to(&mut self, line: &mut Line) -> bool
        requires { array_vec_len line.old ≤ most_line }
        ensures { MovesBytes result self.old self.new line.old.items line.new.items }
    {
        let held = &self.bytes[self.at..self.end];
        let room = held.len().min(MOST_LINE - line.len());
        let near = &held[..room];
        let feed = memchr(b'\n', near).unwrap_or(room);
        let count = (feed + 1).min(room);
        put(line, &near[..count]);
        self.at += count;
        feed < room
    }
}

/// Reads the bytes of the next line into the buffer, replacing its contents.
fn next_line<R: Read>(reader: &mut Counted<R>, block: &mut Block, line: &mut Line) -> Found
    ensures taken { (Consumes (prepend_known block.old (R.remaining reader.old.inner))
        (prepend_known block.new (R.remaining reader.new.inner)) line.new.items)
        × LeavesRest (R.remaining reader.old.inner) (R.remaining reader.new.inner) }
    ensures found { IsFound result line.new.items (prepend_known block.new (R.remaining reader.new.inner))
        reader.old.failures reader.new.failures }
    ensures failed { result ≡ Found.Failed → block.new ≡ [] }
{
    line.clear();
    while !line.is_full() {
        if let Some(found) = block.fill(reader) {
            return found;
        }
        if block.move_to(line) {
            return Found::Line;
        }
    }
    Found::Long
}

/// The lines of a reader, and the line that was read last.
#[derive(Drop)]
pub(crate) struct Lines {
    block: Block,
    // The size of the line, which is the front of the block, or 0 if it was copied to the buffer.
    size: usize,
    buffer: Line,
}

impl Model for Lines {
    ghost use Rattle.std.specs.Prelude.{◌≤◌, drop, length};
    ghost use Rattle.rinex_file.specs.Blocks.{LinesRead, last_line};
    ghost use Rattle.rinex_columns.specs.Limits.{most_line};

    ghost Value = { LinesRead };

    ghost view = { λ l. record { line = last_line l.size l.block l.buffer.items; ahead = drop l.size l.block } };

    ghost invariant = { λ l. (l.size ≤ length l.block) × (l.size ≤ most_line) };
}

impl Lines {
    /// Returns the lines of a reader of which nothing was read.
    pub(crate) fn new() -> Lines
        ensures { result.ahead ≡ [] }
    {
        Lines {
            block: Block {
                bytes: [0; BLOCK_BYTES],
                at: 0,
                end: 0,
            },
            size: 0,
            buffer: Line::new(),
        }
    }

    /// Returns the line that was read last.
    pub(crate) fn line(&self) -> &[u8]
        ensures line { result.now ≡ self.now.line }
        ensures short { length result.now ≤ most_line }
    {
        if self.size == 0 {
            return self.buffer.as_slice();
        }
        self.block.front(self.size)
    }

    /// Returns whether no byte of the line was read.
    pub(crate) fn is_empty(&self) -> bool
        ensures { result ≡ (length self.now.line == 0) }
    {
        self.line().is_empty()
    }

    /// Reads the bytes of the next line. They are copied only if they were not read
    /// ahead whole.
    // Three loops call it, and a call for each line costs 14 instructions, 1.8 % of `check`.
    #[inline(always)]
    pub(crate) fn next<R: Read>(&mut self, reader: &mut Counted<R>) -> Found
        ensures taken { (Consumes (prepend_known self.old.ahead (R.remaining reader.old.inner))
            (prepend_known self.new.ahead (R.remaining reader.new.inner)) self.new.line)
            × LeavesRest (R.remaining reader.old.inner) (R.remaining reader.new.inner) }
        ensures found { IsFound result self.new.line (prepend_known self.new.ahead (R.remaining reader.new.inner))
            reader.old.failures reader.new.failures }
        ensures failed { result ≡ Found.Failed → self.new.ahead ≡ [] }
    {
        self.block.skip(self.size);
        self.size = self.block.line_size();
        if self.size > 0 {
            return Found::Line;
        }
        next_line(reader, &mut self.block, &mut self.buffer)
    }
}
