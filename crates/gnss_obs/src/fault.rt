//! The reasons why a plan, a start week or a station is refused.
use gnss_system::System;
use std::fmt::{self, Debug, Display, Formatter, Write};
use thiserror::Error;

/// The reason why a plan, a start week or a station is refused. It is displayed, and printed by
/// `Debug`, by its name and values, the system by its letter in RINEX.
#[derive(Clone, Copy, PartialEq, Eq, Error)]
pub enum PlanFault {
    /// The code or signal of this system at this index, from 0 on, isn't in the system's table.
    #[error("UnknownCode {} {}", char::from(.0.letter()), .1)]
    UnknownCode(System, usize),
    /// The code or signal of this system at this index, from 0 on, is repeated.
    #[error("RepeatedCode {} {}", char::from(.0.letter()), .1)]
    RepeatedCode(System, usize),
    /// No signal of any system is wanted.
    #[error("NothingPlanned")]
    NothingPlanned,
    /// The start week is greater than 99,999.
    #[error("BadWeek")]
    BadWeek,
    /// The station's number is greater than 4,095.
    #[error("BadStation")]
    BadStation,
    /// Memory allocation failed.
    #[error("Memory")]
    Memory,
}

impl Debug for PlanFault {
    fn fmt<W: Write>(&self, f: &mut Formatter<W>) -> fmt::Result {
        Display::fmt(self, f)
    }
}
