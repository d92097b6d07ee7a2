//! The satellite systems: their letters, satellites and signals, and a value for each of them.
//!
//! ```
//! /// The letter of a system in a file, and the number of its satellites.
//! fn letter_and_satellites(system: System) -> (u8, u8) {
//!     (system.letter(), system.satellites())
//! }
//! ```
#![tactic(auto)]

mod by_system;
mod system;
mod tables;

pub use by_system::BySystem;
pub use system::{SYSTEMS, System};
pub use tables::{
    GALILEO_SIGNAL_COUNT, GPS_SIGNAL_COUNT, ID_COUNT, KEY_COUNT, ListedSignal, MOST_SATELLITES,
    MOST_SIGNALS, NO_ROW, SystemRow, TimeScale,
};
