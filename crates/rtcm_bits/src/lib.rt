//! The CRC, the bit fields, the frame of a message and the window of undecided bytes of RTCM 3.
//!
//! ```
//! /// The CRC of the frame of a message, its own CRC included.
//! fn residue(message: &[u8]) -> Option<u32> {
//!     if message.len() > LONGEST_MESSAGE {
//!         return None;
//!     }
//!     let mut frame = ArrayVec::new();
//!     frame_of(message, &mut frame);
//!     Some(crc24q(frame.as_slice()))
//! }
//! ```
#![tactic(auto)]

mod complement;
mod crc;
mod folding;
mod framing;
pub mod laws;
mod looking;
mod reader;
mod tables;
mod window;
mod writer;

pub use complement::{raw_of, signed_of};
pub use crc::{CheckRegister, crc24q};
pub use framing::{
    CRC_BYTES, HEADER_BYTES, LONGEST_FRAME, LONGEST_MESSAGE, PREAMBLE, SHORTEST_FRAME, frame_of,
};
pub use reader::{BitReader, bits_in_word, number_at, word_at};
pub use window::Window;
pub use writer::BitWriter;
