//! The values of a RINEX file: satellites, signals, observables, lock times, times, plans, cells and
//! epochs.
//!
//! A [`Plan`] lists the wanted signals, and has the [`Channels`] of the GLONASS satellites. A
//! [`GpsTime`] counts milliseconds of GPS time and converts to and from a [`Civil`] date. An
//! [`Epoch`] has the [`Cell`]s of one time in order.
//!
//! ```
//! /// The date and time in GPS time at which a GPS week begins.
//! fn first_date(week: u32) -> Option<Civil> {
//!     let time = GpsTime::new(week as u64 * WEEK)?;
//!     Some(time.civil())
//! }
//! ```
#![tactic(auto)]

mod cell;
mod cells;
mod channels;
mod civil;
mod epoch;
mod epoch_cells;
mod fault;
mod interval;
pub mod laws;
mod lock;
mod observables;
mod order;
mod plan;
mod satellite;
mod signal;
mod signals;
mod thousandths;
mod time;

pub use cell::{Cell, GREATEST_COORDINATE, LEAST_COORDINATE, StationValues};
pub use channels::{Channels, GREATEST_CHANNEL_NUMBER, GREATEST_SLOT};
pub use civil::Civil;
pub use epoch::{Epoch, MOST_CELLS, end_of, is_written};
pub use epoch_cells::{Added, EpochCells};
pub use fault::PlanFault;
pub use interval::Interval;
pub use lock::{Lock, is_lost};
pub use observables::{
    doppler, doppler_at, phase, phase_at, pseudorange, strength, strength_digit,
};
pub use plan::Plan;
pub use satellite::Sat;
pub use signal::Signal;
pub use signals::Signals;
pub use thousandths::Thousandths;
pub use time::{GpsTime, WEEK, WEEKS};
