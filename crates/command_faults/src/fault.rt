//! Why a command stopped.

use gnss_obs::PlanFault;
use rinex_file::HeadFault;
use rinex_inspect::FileFault;
use rtcm_convert::Fault;
use rtcm_inspect::InspectFault;

/// Why a command stopped.
#[derive(Clone, Copy)]
pub enum CommandFault {
    /// Out of memory while reading the words.
    Memory,
    /// Neither `--week` nor `--near` is given, or both are.
    OneOf,
    /// The text of this option isn't a date, nor a week or a time where one is accepted.
    BadDate(DateOption),
    /// The text of `--position` isn't a position.
    BadPosition,
    /// The text of `--antenna-height` isn't a height.
    BadHeight,
    /// The text of `--glonass-channels` isn't a list of channels.
    BadChannels,
    /// The time of `--until` isn't later than that of `--from`.
    BadWindow,
    /// The text of `--interval` isn't an interval of epochs.
    BadInterval,
    /// The text of `--tolerance` isn't a tolerance at this interval.
    BadTolerance,
    /// The text of `--gaps` isn't an interval.
    BadGaps,
    /// The text of `--every` isn't the length of a period.
    BadEvery,
    /// Of the options `--gaps`, `--from` and `--until` of `check` some are given, but not all.
    AllOf,
    /// The time of `--until` isn't a whole number of intervals of `--gaps` after that of `--from`.
    BadGapsWindow,
    /// A text of the header was refused.
    Header(HeadFault),
    /// The plan of signals was refused.
    Plan(PlanFault),
    /// The conversion stopped.
    Convert(Fault),
    /// A command that reads a stream stopped, or the output of the version.
    Inspect(InspectFault),
    /// A command that reads a file stopped.
    File(FileFault),
}

/// An option whose value is a date.
#[derive(Clone, Copy)]
pub enum DateOption {
    /// `--week`, whose value may also be the number of a week.
    Week,
    /// `--near`.
    Near,
    /// `--from`, whose value may also have a time of day.
    From,
    /// `--until`, whose value may also have a time of day.
    Until,
}
