//! Laws of the definitions that the contracts cite.
ghost use Rattle.gnss_obs.specs.Values.{no_values};
ghost use Rattle.obs_epoch.specs.Laws.{AllClosed, ClosedStay, ClosedComeFirst, NoneClosed, NeverFirst};
ghost use Rattle.obs_epoch.specs.Laws.{IsThinnedByChoice, IsWholeByEvery, NoneReturned, ReturnsEvery, WindowsAreApart};
ghost use Rattle.obs_epoch.specs.Laws.{IsOnGridNearMultiples, WindowsJoin};
ghost use Rattle.obs_epoch.specs.Reach.{MessagesAreHeard, EpochsAreGathered};
ghost use Rattle.obs_epoch.specs.Starts.{IsGivenWeek, IsNearestFirst, IsWeekOfWeeks};
ghost use Rattle.obs_epoch.specs.TimeLaws.{IsGlonassTime, IsNextTime};
ghost use Rattle.obs_epoch.specs.TwoSystems.{AreReadPlainly};
ghost use Rattle.gnss_obs.specs.GatheredEpochs.{AreStationValues};

/// Later messages don't change the epochs that are closed.
pub fn closed_stay()
    ensures stay { ClosedStay }
    ensures first { ClosedComeFirst }
    ensures all { AllClosed }
    ensures none { NoneClosed }
{}

/// No message of a list has the outcome `CloseFirst`: such a message is passed again at once.
pub fn kinds()
    ensures { NeverFirst }
{}

/// The epochs of decoded messages: their times rise and are within the weeks, their cells are of
/// planned signals with values within their bounds, and no two cells of a system are of the same
/// satellite and signal.
pub fn gathered()
    ensures heard { MessagesAreHeard }
    ensures epochs { EpochsAreGathered }
    ensures zero { AreStationValues no_values }
{
    gnss_obs::laws::sizes();
    rtcm_msg::laws::measures();
}

/// The chosen epochs. Without an interval, a window that has all times leaves no epoch out and
/// marks none. The epochs of two windows that meet are those of the whole window, and no time is in
/// both. The epochs of a choice are the thinned list of those of every epoch. If none of them has
/// a value, the epochs with a value are those that are left out. An epoch is on the grid of an
/// interval exactly if its time is at most the tolerance before or after a multiple of it.
pub fn choices()
    ensures every { ReturnsEvery }
    ensures windows { WindowsJoin }
    ensures apart { WindowsAreApart }
    ensures whole { IsWholeByEvery }
    ensures thinned { IsThinnedByChoice }
    ensures none { NoneReturned }
    ensures grid { IsOnGridNearMultiples }
{}

/// With a plan of GPS and Galileo alone and MSM4 and MSM7, exactly the messages 1005, 1006, 1074,
/// 1077, 1094 and 1097 are decoded, regardless of channels and leap seconds. The time of an MSM is
/// its epoch time, and its phases and rates are those at the carriers of the signals.
pub fn two_systems()
    ensures { AreReadPlainly }
{
    rtcm_msg::laws::message_sets();
    rtcm_msg::laws::default_messages();
}

/// The week of the first observations is the given one, or the one in which their time of week is
/// nearest to the given time. It is one from 0 to 99,999.
pub fn first_week()
    ensures given { IsGivenWeek }
    ensures near { IsNearestFirst }
    ensures weeks { IsWeekOfWeeks }
{}

/// GLONASS time is UTC plus 3 h, and GPS time is UTC plus the leap seconds.
#[tactic(auto, using(crate::proofs::TimeLawLemmas::glonass_time))]
pub fn glonass_time()
    ensures { IsGlonassTime }
{}

/// The milliseconds from a time to the next one with a time of week, by which messages after the
/// first one are dated, are less than a week, and the sum has this time of week.
#[tactic(auto, using(crate::proofs::TimeLawLemmas::next_time))]
pub fn next_time()
    ensures { IsNextTime }
{}
