//! The command line of the program: its commands and their options, and how `clap` parses words by
//! them.
//!
//! ```
//! /// Whether the words are a command line of the program.
//! fn is_accepted(alloc: Global, words: &[&str]) -> bool {
//!     match parse(alloc, words) {
//!         Ok(found) => {
//!             drop_matches(found);
//!             true
//!         }
//!         Err(_) => false,
//!     }
//! }
//! ```
#![tactic(auto)]

mod cli;
mod commands;
pub mod laws;
mod words;

pub use cli::{VERSION, drop_matches, parse};
pub use words::joined_words;
