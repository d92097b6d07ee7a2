//! The settings of a gatherer.
ghost use Rattle.std.specs.Prelude.{◌≡◌};
ghost use Rattle.obs_epoch.specs.Kinds.{default_setup};

use crate::choice::Choice;
use crate::week::Start;
use gnss_obs::{Plan, StationValues};

/// How the epochs of a station are closed.
#[derive(Clone, Copy)]
pub enum Gather {
    /// By observations of a later time, and by the multiple message bit: a message of the station
    /// with DF393 = 0.
    Bit,
    /// By observations of a later time alone.
    Time,
}

/// GPS time minus UTC from 2017-01-01 on, in seconds.
pub const LEAP_SECONDS: u8 = 18;

/// The settings of a gatherer.
#[derive(Drop)]
pub struct GatherSetup {
    /// The wanted signals.
    pub plan: Plan,
    /// What gives the week of the first observations.
    pub start: Start,
    /// The reference station (DF003, 0 to 4,095) whose messages are used; `None` uses those of
    /// every station as if they were one.
    pub station: Option<u16>,
    /// What closes an epoch.
    pub gather: Gather,
    /// The station values until a station message contains others.
    pub initial: StationValues,
    /// GPS time minus UTC, in seconds. GLONASS time is 3 h ahead of UTC.
    pub leap_seconds: u8,
    /// The epochs that are returned.
    pub choice: Choice,
}

impl GatherSetup {
    /// Returns the default settings with this plan and start week: the messages of every station,
    /// epochs closed by the bit, station values of 0, the leap seconds from 2017 on, and every
    /// epoch.
    pub fn new(plan: Plan, start_week: u32) -> GatherSetup
        ensures { result ≡ default_setup plan start_week }
    {
        GatherSetup {
            plan,
            start: Start::Week(start_week),
            station: None,
            gather: Gather::Bit,
            initial: StationValues::zero(),
            leap_seconds: LEAP_SECONDS,
            choice: Choice::default(),
        }
    }
}
