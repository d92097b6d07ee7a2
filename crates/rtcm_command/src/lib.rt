//! The whole program, over the words of its command line, a reader, a writer and a writer for
//! faults: the values of its options, and the command `convert`.
//!
//! ```
//! /// Runs the program on a stream, and returns the exit status.
//! fn status_of(alloc: Global, words: &[&str], stream: &[u8]) -> u8 {
//!     let mut reader = Counted::new(stream);
//!     let mut writer = Counted::new(Vec::new(alloc));
//!     let mut faults = Counted::new(Vec::new(alloc));
//!     command(alloc, words, &mut reader, &mut writer, &mut faults)
//! }
//! ```
#![tactic(auto)]

pub mod command;
mod convert;
pub mod laws;
mod options;

pub use convert::{report_line, run_convert};
