//! Observations of a station, gathered from its messages into epochs.
//!
//! A [`Gatherer`] processes the messages of a station one by one and returns each [`Epoch`] when it
//! is closed. [`SignalCounts`] count cells by signal.
//!
//! ```
//! /// The number of satellites of the epoch that a message of GPS ends, if it ends one.
//! fn satellites_of(alloc: Global, message: &Message) -> Option<usize> {
//!     let plan = Plan::parse(alloc, "all", "none").ok()?;
//!     let mut gatherer = Gatherer::new(alloc, GatherSetup::new(plan, 2300)).ok()?;
//!     gatherer.take(message);
//!     let satellites = gatherer.closed().map(|epoch| epoch.satellites());
//!     drop(gatherer);
//!     satellites
//! }
//! ```
#![tactic(auto)]

mod choice;
mod clock;
mod gather;
pub mod laws;
mod locks;
mod marks;
mod observe;
mod parts;
mod set;
mod setup;
mod signal_counts;
mod taken;
mod tow;
mod week;

pub use choice::{Choice, EpochCounts};
pub use gather::Gatherer;
pub use set::{is_always_decoded, msm_set};
pub use setup::{Gather, GatherSetup, LEAP_SECONDS};
pub use signal_counts::SignalCounts;
pub use taken::{CellCounts, Kind, Taken};
pub use tow::tow_of;
pub use week::{Start, week_near};
