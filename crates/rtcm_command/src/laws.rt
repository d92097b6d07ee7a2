//! Laws over the options that `options` prints.
ghost use Rattle.rtcm_command.specs.NearOption.{IsDatedByNear};
ghost use Rattle.rtcm_command.specs.PrintedPlan.{ArePrintedWords, IsDatedAsPrinted, IsDatedAsSent, IsStartedAsFound};
ghost use Rattle.rtcm_command.specs.StationLaws.{AreChannelsSet, AreLeapSecondsRead, AreReadAsStation};
ghost use Rattle.rtcm_command.specs.StationLaws.{AreZeroByDefault, IsStationRead, IsWeekRead};
ghost use Rattle.rtcm_command.specs.WindowLaws.{AreChosenInside};

/// The position and the height that `options` prints for a station message are read as the station
/// values of that message, for every message in range. Without them the values are 0.
pub fn station()
    ensures read { AreReadAsStation }
    ensures zero { AreZeroByDefault }
{
    rtcm_inspect::laws::lengths();
}

/// The numbers of the week, of the leap seconds and of the station that `options` prints are read as
/// this week, these leap seconds and this station, and as no other. With a week there is no
/// `--near`.
pub fn numbers()
    ensures week { IsWeekRead }
    ensures leap { AreLeapSecondsRead }
    ensures station { IsStationRead }
{
    rtcm_inspect::laws::near();
}

/// With `--near` the first MSM that a conversion decodes, of the station or of any, is accepted, in
/// the week in which it is nearest to noon of the date. Without `--leap-seconds` the leap seconds
/// are those of the date.
pub fn near()
    ensures { IsDatedByNear }
{
    rtcm_inspect::laws::near();
    obs_epoch::laws::first_week();
}

/// The channels that `options` prints for a stream are read as these, and as no others.
pub fn channels()
    ensures { AreChannelsSet }
{
    rtcm_inspect::laws::channels();
}

/// For every stream: if options have the value of each word that `options` prints, and else their
/// defaults, a conversion starts with what was found in the stream: plan, channels, forms, station,
/// week, leap seconds and the values of the first station message. Its first accepted message is in
/// the week that is printed: near a date in the one that is nearest to the noon of the date, by the
/// ephemerides in the one that they say, also before 2017, when a conversion without GLONASS has
/// other leap seconds than the date.
pub fn printed_plan()
    ensures words { ArePrintedWords }
    ensures found { IsStartedAsFound }
    ensures dated { IsDatedAsPrinted }
    ensures sent { IsDatedAsSent }
{
    numbers();
    station();
    channels();
    rtcm_inspect::laws::signals();
    rtcm_inspect::laws::near();
    rtcm_inspect::laws::lengths();
    rtcm_inspect::laws::channels();
}

/// Each epoch that a conversion chooses by a window is inside of this window for `check`, at
/// intervals of 1 s or more.
pub fn windows()
    ensures { AreChosenInside }
{}
