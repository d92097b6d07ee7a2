//! What is in a stream, as text: the frames, messages and signals of an RTCM 3 stream, and the
//! options of a conversion that fit it. Lines, weeks, dates, lengths and GLONASS channels of texts,
//! and leap seconds are those of `line_texts`.
//!
//! ```
//! /// The lines of the frames of a stream.
//! fn lines_of(alloc: Global, stream: &[u8]) -> Result<Vec<u8>, InspectFault> {
//!     let (mut reader, mut writer) = (Counted::new(stream), Counted::new(Vec::new(alloc)));
//!     let listed = run_frames(alloc, &mut reader, &mut writer);
//!     let lines = writer.into_inner();
//!     listed.map(|_| lines)
//! }
//! ```
#![tactic(auto)]

mod counting;
mod decoded;
mod equipment;
mod fault;
mod first_messages;
mod first_tows;
mod first_two;
pub mod laws;
mod listing;
mod options;
mod printed_week;
mod said_weeks;
mod signals;
mod stream_channels;

pub use fault::{
    InspectFault, StreamCounts, WeekDate, add_header_error, add_inspection_error, add_plan_error,
};
pub use listing::{Listing, list, run_frames, run_show};
pub use options::run_options;
pub use printed_week::WeekSource;
pub use signals::run_signals;
