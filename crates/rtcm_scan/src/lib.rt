//! The frames of RTCM 3 streams (RTCM 10403.3, transport layer): of a stream that comes in blocks,
//! with exact counts of the reads of each byte, and of a slice.
//!
//! ```
//! /// The number of frames of a recording, and of the bytes of their messages.
//! fn frames_in(recording: &[u8]) -> (usize, usize) {
//!     let (mut frames, mut bytes) = (0usize, 0usize);
//!     for frame in Frames::new(recording) {
//!         frames = frames.saturating_add(1);
//!         bytes = bytes.saturating_add(frame.message.len());
//!     }
//!     (frames, bytes)
//! }
//! ```
#![tactic(auto)]

mod candidate;
mod feed;
mod framer;
mod frames;
mod front;
pub mod laws;
mod sink;

pub use feed::StreamFault;
pub use framer::{Frame, Framer, MOST_BYTES, ScanFault};
pub use frames::{FrameView, Frames};
pub use sink::FrameSink;
