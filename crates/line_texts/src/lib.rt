//! Lines that are put together from words and numbers; weeks, dates, times, lengths, intervals and
//! channels, read from texts of options and written; leap seconds of a date.
//!
//! ```
//! /// The line of the GPS week of a date, as `week 2300`.
//! fn week_line(date: &str) -> Option<OutputLine> {
//!     let week = week_of(date)?;
//!     let mut line = OutputLine::new();
//!     line.put(b"week");
//!     line.add_number(week as u64);
//!     line.finish();
//!     Some(line)
//! }
//! ```
#![tactic(auto)]

mod channel_texts;
mod leap_seconds;
mod line;
mod texts;

pub use channel_texts::{channels_of, channels_text};
pub use leap_seconds::leap_at;
pub use line::{LINE_BYTES, OutputLine};
pub use texts::{
    epoch_interval_of, hour_of, interval_of, length_below, position_of, time_of, tolerance_of,
    week_of,
};
