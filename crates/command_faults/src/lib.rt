//! Why a command stopped: the line of the fault on standard error, and the exit status.
//!
//! ```
//! /// The line on standard error after a read that failed.
//! fn line_of_a_failed_read() -> OutputLine {
//!     error_line(CommandFault::Inspect(InspectFault::Read))
//! }
//! ```
#![tactic(auto)]

mod error_lines;
mod fault;
mod status;

pub use error_lines::error_line;
pub use fault::{CommandFault, DateOption};
pub use status::exit_status;
