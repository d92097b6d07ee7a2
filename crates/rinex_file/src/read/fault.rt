//! Why a file wasn't read.
use std::fmt::{self, Debug, Display, Formatter, Write};
use thiserror::Error;

/// Why a file wasn't read. Lines count from 1. It is displayed, and printed by `Debug`, by its name
/// and the line.
#[derive(Clone, Copy, PartialEq, Eq, Error)]
pub enum ReadFault {
    /// Out of memory.
    #[error("Memory")]
    Memory,
    /// The reader failed.
    #[error("Read")]
    Read,
    /// The line isn't a header line that may follow the lines before it.
    #[error("BadHeader {0}")]
    BadHeader(u64),
    /// The line isn't the first line of an epoch or an event that may follow.
    #[error("BadEpoch {0}")]
    BadEpoch(u64),
    /// The line isn't the second or third line of an event, or the event repeats the current
    /// station values.
    #[error("BadEvent {0}")]
    BadEvent(u64),
    /// The line isn't a satellite line that may follow.
    #[error("BadSatellite {0}")]
    BadSatellite(u64),
    /// The input ended before the line feed of this line.
    #[error("CutShort {0}")]
    CutShort(u64),
    /// The file has more than 2^32 lines.
    #[error("TooLong")]
    TooLong,
}

impl Debug for ReadFault {
    fn fmt<W: Write>(&self, f: &mut Formatter<W>) -> fmt::Result {
        Display::fmt(self, f)
    }
}
