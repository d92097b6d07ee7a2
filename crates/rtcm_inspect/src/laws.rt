//! Laws of the streams that are inspected.
ghost use Rattle.std.specs.Prelude.{List, ℕ};
ghost use Rattle.rtcm_msg.specs.declared.message.Message.{Message};
ghost use Rattle.rtcm_inspect.specs.ReadBack.{AreKnown, AreEncoded, ReadsBack};
ghost use Rattle.rtcm_inspect.specs.SignalLaws.{AreReadAsPlan, LeavesNoneOut, LosesNone, LosesUnknownCarriers};
ghost use Rattle.rtcm_inspect.specs.SignalLaws.{HasFirstMsm, SkipsNoValue};
ghost use Rattle.rtcm_inspect.specs.WeekLaws.{AreWeeksRead, HasOneWeek, IsBelowWeek, IsDatedByStart, IsLeapFree};
ghost use Rattle.rtcm_inspect.specs.WeekLaws.{IsNearestPrinted};
ghost use Rattle.rtcm_inspect.specs.SentWeekLaws.{AreWeeksSaid, HasGreatest, IsCountedFromStart, IsInSentWeek};
ghost use Rattle.rtcm_inspect.specs.SentWeekLaws.{IsNearestTime};
ghost use Rattle.rtcm_inspect.specs.ChannelLaws.{AreChannelsRead, AreFirstChannels, HasChannels};
ghost use Rattle.rtcm_inspect.specs.LengthLaws.{AreHeightsRead, ArePositionsRead, IsFirstInRange};

/// Every list of messages of known layouts has encodings. For every choice of these, their frames,
/// joined, are a stream with exactly these frames, which is read back as that list.
pub fn read_back()
    ensures encoded { (vs : List Message) → AreKnown vs → (es : List (List ℕ)) × AreEncoded es vs }
    ensures back { (es : List (List ℕ)) (vs : List Message) → AreEncoded es vs → ReadsBack es vs }
{
    rtcm_scan::laws::frames();
    rtcm_scan::laws::joined();
}

/// The lists that `run_options` prints are read as the plan of the signals that they name. A
/// conversion with this plan has a column for each value of a listed satellite and signal, and
/// counts as `skipped` only unlisted cells and cells without a value, in any forms. In the printed
/// forms it reads every cell with a value: pseudorange and strength always, phase and Doppler shift
/// if the carrier of the satellite is known, which of GLONASS needs its channel. A stream with a
/// signal has an MSM that such a conversion decodes, so that a date gives it a week.
pub fn signals()
    ensures columns { LeavesNoneOut }
    ensures read { AreReadAsPlan }
    ensures skips { SkipsNoValue }
    ensures all { LosesNone }
    ensures carriers { LosesUnknownCarriers }
    ensures first { HasFirstMsm }
{
    gnss_obs::laws::signal_tables();
}

/// The week that `run_options` prints for a date. From 1980-01-09 on exactly one week puts a time
/// of week at most half a week before noon, or less than half a week after it, and it is printed if
/// it is one from 0 to 99,999. The printed number is read as this week, and a conversion gives
/// the first MSM that it decodes, of the station or of any, its time in the week of its start.
/// Its time of week is below a week, and depends on the leap seconds only if GLONASS is decoded.
pub fn near()
    ensures one { HasOneWeek }
    ensures printed { IsNearestPrinted }
    ensures read { AreWeeksRead }
    ensures dated { IsDatedByStart }
    ensures leap { IsLeapFree }
    ensures small { IsBelowWeek }
{}

/// Times that are counted from week 0 along a stream are those of a conversion: its greatest time is
/// the counted one, after the begin of its start week. So if an ephemeris says which GPS week was
/// counted as week 0, a conversion that starts in it is in the week of the ephemeris, when this comes.
///
/// The week counted as week 0 plus the weeks counted is the week of the ephemeris, or congruent to
/// it modulo 1,024. From half a week after the begin of week 0 on, the time of the first MSM is the
/// one with its time of week that is nearest to the greatest time at it; this exists if an ephemeris
/// says a week.
pub fn week()
    ensures counted { IsCountedFromStart }
    ensures sent { IsInSentWeek }
    ensures said { AreWeeksSaid }
    ensures near { IsNearestTime }
    ensures some { HasGreatest }
{}

/// The position and the antenna height that `run_options` prints for a station message are read as
/// those of the message, for every message in range, as is the first one of every stream.
pub fn lengths()
    ensures positions { ArePositionsRead }
    ensures heights { AreHeightsRead }
    ensures first { IsFirstInRange }
{}

/// The channels that `run_options` prints for a stream are read as these, for every stream. That of
/// a slot is the first valid one in the stream.
pub fn channels()
    ensures read { AreChannelsRead }
    ensures some { HasChannels }
    ensures first { AreFirstChannels }
{}
