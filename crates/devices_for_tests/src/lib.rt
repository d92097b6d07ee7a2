//! Readers and writers for tests: over memory, with short reads, short writes and failures at
//! stated places.
#![tactic(auto)]

mod reader;
mod writer;

pub use reader::{PieceReader, ReadEnd};
pub use writer::{ShortWriter, WriteEnd};
