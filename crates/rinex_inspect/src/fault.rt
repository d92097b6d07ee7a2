//! Why a command that reads a file stopped, and the name of the fault, with what it carries, as
//! words of a line.
ghost use Rattle.std.specs.Prelude.{◌≤◌, length};
ghost use Rattle.line_texts.specs.Lines.{AddsWords};
ghost use Rattle.line_texts.specs.inner.Errors.{longest_error, longest_start};
ghost use Rattle.rinex_inspect.specs.Faults.{file_words, read_words};

use line_texts::OutputLine;
use rinex_file::ReadFault;
use std::fmt;
use thiserror::Error;

/// Why a command that reads a file stopped. It is displayed by its name and the fault that it
/// contains.
#[derive(Clone, Copy, Debug, PartialEq, Eq, Error)]
pub enum FileFault {
    /// The file was refused, or its reader failed.
    File(ReadFault),
    /// The writer failed, or accepted none of the bytes of a write.
    Write,
    /// The line of this number is that of an epoch outside of the window.
    OtherDay(u64),
}

impl fmt::Display for FileFault {
    fn fmt<W: fmt::Write>(&self, f: &mut fmt::Formatter<W>) -> fmt::Result {
        fmt::Debug::fmt(self, f)
    }
}

/// Adds the name of a fault, with the number of the line, if any.
pub fn add_file_error(line: &mut OutputLine, fault: FileFault)
    requires { length line.old ≤ longest_start }
    ensures { AddsWords line.old line.new (file_words fault) longest_error }
{
    match fault {
        FileFault::File(fault) => add_read_error(line, fault),
        FileFault::Write => line.add_word("Write"),
        FileFault::OtherDay(k) => line.add_count("OtherDay", k),
    }
}

/// Adds the name of a fault of a file, and the number of the line, if any.
fn add_read_error(line: &mut OutputLine, fault: ReadFault)
    requires { length line.old ≤ longest_start }
    ensures { AddsWords line.old line.new (read_words fault) longest_error }
{
    match fault {
        ReadFault::Memory => line.add_word("Memory"),
        ReadFault::Read => line.add_word("Read"),
        ReadFault::BadHeader(k) => line.add_count("BadHeader", k),
        ReadFault::BadEpoch(k) => line.add_count("BadEpoch", k),
        ReadFault::BadEvent(k) => line.add_count("BadEvent", k),
        ReadFault::BadSatellite(k) => line.add_count("BadSatellite", k),
        ReadFault::CutShort(k) => line.add_count("CutShort", k),
        ReadFault::TooLong => line.add_word("TooLong"),
    }
}
