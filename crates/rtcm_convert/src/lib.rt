//! Observation files of RTCM 3 streams: the messages of a stream's frames are gathered to epochs,
//! and each epoch is written as soon as it is closed.
//!
//! ```
//! /// Converts two signals of GPS of a stream that begins in week 2300, and returns the file.
//! fn convert(alloc: Global, texts: &Texts, stream: &[u8]) -> Option<(Report, Vec<u8>)> {
//!     let texts = HeaderTexts::new(texts).ok()?;
//!     let plan = Plan::parse(alloc, "1C,2L", "none").ok()?;
//!     let setup = Setup::new(plan, texts, 2300);
//!     let (mut reader, mut writer) = (Counted::new(stream), Counted::new(Vec::new(alloc)));
//!     let report = convert_stream(alloc, setup, &mut reader, &mut writer).ok();
//!     let file = writer.into_inner();
//!     Some((report?, file))
//! }
//! ```
#![tactic(auto)]

mod converter;
mod fault;
mod file_writer;
pub mod laws;
mod report;
mod setup;
mod whole;

pub use converter::{Converter, Kept};
pub use fault::Fault;
pub use report::Report;
pub use setup::Setup;
pub use whole::convert_stream;
