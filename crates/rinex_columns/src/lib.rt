//! Texts and numbers in the fixed columns of a line of RINEX 3.05, written and read back.
//!
//! ```
//! /// A number of thousandths in 14 columns of a line, as `  20985472.060`.
//! fn in_columns(thousandths: i64) -> Line {
//!     let mut line = Line::new();
//!     put_fixed(&mut line, 14, 3, 1_000, thousandths);
//!     line
//! }
//! ```
#![tactic(auto)]

mod header_line;
mod read;
mod write;

pub use header_line::{CONTENT_COLUMNS, has_label, labelled, read_labelled};
pub use read::{columns, digits_in, is_same, signed};
pub use write::{
    Line, MOST_LINE, SIGNAL_COLUMNS, VALUE_COLUMNS, put, put_fixed, put_left, put_seconds, put_two,
    put_whole,
};
