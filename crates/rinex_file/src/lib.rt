//! Observation files: RINEX 3.05.
//!
//! A [`Head`] has the contents of a header; its texts are validated by [`HeaderTexts`].
//! [`header_lines`], [`epoch_line`] and [`satellite_line`] format lines; [`write_header`],
//! [`write_event`] and [`write_epoch`] write them. None of these allocates memory. An
//! [`EpochReader`] reads a file back epoch by epoch and row by row, [`check_file`] only counts its
//! contents, [`read_file`] stores it, and [`file_bytes`] returns the text of a file that was read.
//!
//! ```
//! /// The numbers of epochs, satellite lines and events of an observation file.
//! fn counts_of(alloc: Global, file: &[u8]) -> Result<Counts, ReadFault> {
//!     let mut reader = Counted::new(file);
//!     check_file(alloc, &mut reader)
//! }
//! ```
#![tactic(auto)]

mod header;
pub mod laws;
mod read;
mod values;
mod write;

pub use header::fault::HeadFault;
pub use header::fields::HeaderField;
pub use header::head::{Head, HeaderLines, header_lines};
pub use header::texts::{HeaderTexts, Texts};
pub use read::epochs::{EpochReader, NextEpoch};
pub use read::fault::ReadFault;
pub use read::file::{Counts, FileSummary, check_file, read_file};
pub use read::times::EpochTimes;
pub use values::{ObsFile, SatelliteRow, SignalValues};
pub use write::file::file_bytes;
pub use write::line::epoch_line;
pub use write::satellite::satellite_line;
pub use write::{write_epoch, write_event, write_header};
