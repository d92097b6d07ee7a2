//! Readers and writers whose calls are counted, so that a failure has its cause; a buffer that loses
//! no byte; writers that say what waits in them; and texts that are written and delivered.
//!
//! ```
//! /// The number of bytes that the first read of a stream returns, and of its failed reads.
//! fn first_read(stream: &[u8]) -> (usize, u64) {
//!     let mut reader = Counted::new(stream);
//!     let mut buffer = [0; 8];
//!     let read = reader.read(&mut buffer).unwrap_or(0);
//!     (read, reader.failures())
//! }
//! ```
#![tactic(auto)]

mod buffered;
mod counted;
mod deliver;
pub mod laws;
mod printing;

pub use buffered::Buffered;
pub use counted::{Counted, DeviceFailed};
pub use deliver::{Deliver, Destination};
pub use printing::{deliver_waiting, print_line, print_text};
