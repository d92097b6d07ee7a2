//! What is in an observation file, as text: its counts, the times of its epochs and the gaps between
//! them; and what each signal and each satellite has, in the whole file or by periods
//! ([`run_quality`]). Lines, dates and lengths of texts are those of `line_texts`.
//!
//! ```
//! /// The line of the counts of a file.
//! fn counts_of(alloc: Global, file: &[u8]) -> Result<Vec<u8>, FileFault> {
//!     let (mut reader, mut writer) = (Counted::new(file), Counted::new(Vec::new(alloc)));
//!     let checked = run_check(alloc, &mut reader, &mut writer);
//!     let line = writer.into_inner();
//!     checked.map(|_| line)
//! }
//! ```
#![tactic(auto)]

mod check;
mod fault;
mod gaps;
pub mod laws;
mod quality;
mod quality_lines;
mod table;
mod tally;

pub use check::{CheckOptions, run_check, run_check_with};
pub use fault::{FileFault, add_file_error};
pub use gaps::{Completeness, Window};
pub use quality::run_quality;
