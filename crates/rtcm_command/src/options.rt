//! The values of the options of the commands.
ghost use Rattle.std.specs.Prelude.{◌≡◌, ◌+◌, ◌<◌, ◌≤◌, IfOk, IfSome, MatchResult, Ok, codes, not};
ghost use Rattle.std.specs.Fn.{FnOnceReturnsAt};
ghost use Rattle.clap.specs.Walk.{first_of, one_of};
ghost use Rattle.std.specs.Str.{bytes_eq};
ghost use Rattle.gnss_obs.specs.Plans.{HasSignal};
ghost use Rattle.gnss_obs.specs.inner.SignalLists.{IsDefined};
ghost use Rattle.obs_epoch.specs.Heard.{is_by_bit};
ghost use Rattle.rinex_file.specs.inner.TextsOf.{lists_of};
ghost use Rattle.line_texts.specs.Dates.{IsHourOf, IsTimeOf};
ghost use Rattle.line_texts.specs.Lengths.{longest_interval};
ghost use Rattle.rtcm_command.specs.SetupOptions.{IsChoiceSet, IsEverySet, IsGapsSet, IsGiven, IsSetupOf};
ghost use Rattle.rtcm_command.specs.SetupOptions.{IsIntervalSet, IsNearSet, IsNumberOf, IsNumberOr, IsTimeSet};
ghost use Rattle.rtcm_command.specs.SetupOptions.{IsSetupRefused, IsSourceRefused, IsSourceSet, IsStartRefused, IsStartSet};
ghost use Rattle.rtcm_command.specs.SetupOptions.{IsTimeBy, IsWindowSet, channels_set, forms_set, has_flag, options_of};
ghost use Rattle.rtcm_command.specs.SetupOptions.{period_length_of, plan_set, plan_texts, text_set, texts_set};
ghost use Rattle.rtcm_command.specs.SetupOptions.{tolerance_set, usual_leap, values_set};
ghost use Rattle.rtcm_command.specs.CompleteOptions.{IsCompleteSet, IsWindowOf, is_given, lacks_one, whole_window};

use clap::ArgMatches;
use command_faults::{CommandFault, DateOption};
use gnss_obs::{Channels, GpsTime, Interval, Plan, PlanFault, StationValues};
use gnss_system::BySystem;
use line_texts::{
    epoch_interval_of, hour_of, interval_of, leap_at, length_below, position_of, week_of,
};
use obs_epoch::{Choice, Gather, GatherSetup, LEAP_SECONDS, Start};
use rinex_file::{HeaderTexts, Texts};
use rinex_inspect::{Completeness, Window};
use rtcm_convert::Setup;
use rtcm_inspect::WeekSource;
use rtcm_msg::Forms;
use rtcm_scan::MOST_BYTES;
use std::alloc::Global;

/// Returns what gives the week of the first observations.
///
/// # Errors
///
/// `OneOf` if not exactly one of the options is given, and `BadDate` if its text isn't a week or a
/// date.
fn start_of(options: &ArgMatches) -> Result<Start, CommandFault>
    ensures { MatchResult result (IsStartSet (options_of options.now)) (IsStartRefused (options_of options.now)) }
{
    match (options.get_str("week"), options.get_str("near")) {
        (Some(text), None) => match week_of(text) {
            Some(week) => Ok(Start::Week(week)),
            None => Err(CommandFault::BadDate(DateOption::Week)),
        },
        (None, Some(text)) => match hour_of(text, 12) {
            Some(noon) => Ok(Start::Near(noon)),
            None => Err(CommandFault::BadDate(DateOption::Near)),
        },
        (None, None) => Err(CommandFault::OneOf),
        (Some(_), Some(_)) => Err(CommandFault::OneOf),
    }
}

/// Returns noon of the date of `options` near the first observations, or `None` if the option isn't
/// given.
///
/// # Errors
///
/// `BadDate` if the text isn't a date.
fn near_of(options: &ArgMatches) -> Result<Option<GpsTime>, CommandFault>
    ensures { IsNearSet (options_of options.now) result }
{
    let fault = CommandFault::BadDate(DateOption::Near);
    if_given(options, "near", noon_of, fault)
}

/// Returns noon of the date in a text.
fn noon_of(text: &str) -> Option<GpsTime>
    ensures { IsTimeBy (IsHourOf 12) text.now result }
{
    hour_of(text, 12)
}

/// Returns what `read` finds in the text of the option of this name, or `None` if the option isn't
/// given.
///
/// # Errors
///
/// `fault` if nothing is found in the text.
fn if_given<T, F: FnOnce(&str) -> Option<T>>(
    options: &ArgMatches,
    name: &str,
    read: F,
    fault: CommandFault,
) -> Result<Option<T>, CommandFault>
    requires { F.IsAlwaysCallable read }
    ensures { IsGiven (FnOnceReturnsAt F.FnOnce read) fault (first_of name.now (options_of options.now)) result }
{
    match options.get_str(name) {
        Some(text) => match read(text) {
            Some(found) => Ok(Some(found)),
            None => Err(fault),
        },
        None => Ok(None),
    }
}

/// Returns where the week of the command `options` comes from.
///
/// # Errors
///
/// `OneOf` if both the ephemerides and a date are asked for, and `BadDate` if the text isn't a date.
pub fn source_of(options: &ArgMatches) -> Result<WeekSource, CommandFault>
    ensures { MatchResult result (IsSourceSet (options_of options.now)) (IsSourceRefused (options_of options.now)) }
{
    match (has_flag(options, "week"), options.get_str("near")) {
        (true, Some(_)) => Err(CommandFault::OneOf),
        (true, None) => Ok(WeekSource::Ephemerides),
        (false, _) => Ok(near_of(options)?.map_or(WeekSource::Unprinted, WeekSource::Near)),
    }
}

/// Returns the interval of `--gaps` in milliseconds, or `None` if the option isn't given.
///
/// # Errors
///
/// `BadGaps` if the text isn't an interval.
fn gaps_of(options: &ArgMatches) -> Result<Option<u64>, CommandFault>
    ensures set { IsGapsSet (options_of options.now) result }
    ensures fits { IfOk result (λ gap. IfSome gap (λ n. (0 < n) × (n ≤ longest_interval))) }
{
    let fault = CommandFault::BadGaps;
    if_given(options, "gaps", |text| interval_of(text), fault)
}

/// Returns what makes the file complete that `check` reads, or `None` if no interval is given.
///
/// # Errors
///
/// `AllOf` if one of `--gaps`, `--from` and `--until` lacks, `BadGaps`, `BadDate` or
/// `BadGapsWindow` of the first of them that isn't valid.
pub fn complete_of(options: &ArgMatches) -> Result<Option<Completeness>, CommandFault>
    ensures { IsCompleteSet (options_of options.now) result }
{
    let gaps = gaps_of(options);
    if lacks_one(options) {
        return Err(CommandFault::AllOf);
    }
    let Some(interval) = gaps? else {
        return Ok(None);
    };
    let window = whole_window_of(options, interval)?;
    Ok(Some(Completeness::new(interval, window)))
}

/// Returns whether the begin or the end of a window is given, but not both with the interval.
fn lacks_one(options: &ArgMatches) -> bool
    ensures { result ≡ lacks_one (options_of options.now) }
{
    let (from, until) = (is_given(options, "from"), is_given(options, "until"));
    (from || until) && !(from && until && is_given(options, "gaps"))
}

/// Returns whether the option of this name is given.
fn is_given(options: &ArgMatches, name: &str) -> bool
    ensures { result ≡ is_given name.now (options_of options.now) }
{
    options.get_str(name).is_some()
}

/// Returns the window of whole intervals that the options give, if they give one.
fn whole_window_of(options: &ArgMatches, interval: u64) -> Result<Option<Window>, CommandFault>
    requires { 0 < interval }
    ensures set { IsWindowOf interval (options_of options.now) result }
    ensures fits { IfOk result (λ window. IfSome window (λ w. w.from + interval ≤ w.until)) }
{
    let from = moment_of(options, "from", DateOption::From);
    let until = moment_of(options, "until", DateOption::Until);
    match (from?, until?) {
        (Some(from), Some(until)) => whole_window(interval, from, until),
        _ => Ok(None),
    }
}

/// Returns the time of the option of this name, or `None` if it isn't given.
fn moment_of(
    options: &ArgMatches,
    name: &str,
    option: DateOption,
) -> Result<Option<GpsTime>, CommandFault>
    ensures { IsTimeSet option name.now (options_of options.now) result }
{
    if_given(options, name, time_of, CommandFault::BadDate(option))
}

/// Returns the time in a text.
fn time_of(text: &str) -> Option<GpsTime>
    ensures { IsTimeBy IsTimeOf text.now result }
{
    line_texts::time_of(text)
}

/// Returns the window of these times, which are to be a whole number of intervals apart.
fn whole_window(
    interval: u64,
    from: GpsTime,
    until: GpsTime,
) -> Result<Option<Window>, CommandFault>
    requires { 0 < interval }
    ensures set { result ≡ whole_window interval from until }
    ensures fits { IfOk result (λ window. IfSome window (λ w. w.from + interval ≤ w.until)) }
{
    let (begin, end) = (from.milliseconds(), until.milliseconds());
    if begin < end && (end - begin) % interval == 0 {
        Ok(Some(Window { from, until }))
    } else {
        Err(CommandFault::BadGapsWindow)
    }
}

/// Returns the length of the periods of `--every`, or `None` if the option isn't given.
///
/// # Errors
///
/// `BadEvery` if the text isn't the length of a period.
pub fn every_of(options: &ArgMatches) -> Result<Option<Interval>, CommandFault>
    ensures { IsEverySet (options_of options.now) result }
{
    if_given(options, "every", period_length_of, CommandFault::BadEvery)
}

/// Returns the interval of epochs in a text if it is 1 s or more.
fn period_length_of(text: &str) -> Option<Interval>
    ensures { result ≡ period_length_of text.now }
{
    epoch_interval_of(text).filter(|every| every.milliseconds() >= 1_000)
}

/// Returns the choice of the epochs that are written.
///
/// # Errors
///
/// `BadDate`, `BadWindow`, `BadInterval` or `BadTolerance` of the first option that isn't valid.
fn choice_of(options: &ArgMatches) -> Result<Choice, CommandFault>
    ensures { IsChoiceSet (options_of options.now) result }
{
    let (window, interval) = (window_of(options), epochs_of(options));
    let ((from, until), interval) = (window?, interval?);
    let tolerance = tolerance_of(options, &interval)?;
    Ok(Choice {
        from,
        until,
        interval,
        tolerance,
    })
}

/// Returns the times from which on and before which epochs are written.
fn window_of(options: &ArgMatches) -> Result<(u64, u64), CommandFault>
    ensures { IsWindowSet (options_of options.now) result }
{
    let from = moment_of(options, "from", DateOption::From);
    let until = moment_of(options, "until", DateOption::Until);
    let from = from?.map_or(0, |time| time.milliseconds());
    let until = until?.map_or(u64::MAX, |time| time.milliseconds());
    if from < until {
        Ok((from, until))
    } else {
        Err(CommandFault::BadWindow)
    }
}

/// Returns the interval of the epochs that are written, or `None` if the option isn't given.
fn epochs_of(options: &ArgMatches) -> Result<Option<Interval>, CommandFault>
    ensures { IsIntervalSet (options_of options.now) result }
{
    let fault = CommandFault::BadInterval;
    if_given(options, "interval", |text| epoch_interval_of(text), fault)
}

/// Returns the tolerance of the times of epochs in milliseconds, at this interval.
fn tolerance_of(options: &ArgMatches, interval: &Option<Interval>) -> Result<u16, CommandFault>
    ensures { result ≡ tolerance_set (options_of options.now) interval.now }
{
    let tolerance = line_texts::tolerance_of(text(options, "tolerance"), *interval);
    tolerance.ok_or(CommandFault::BadTolerance)
}

/// Returns whether the flag of this name is given.
pub fn has_flag(options: &ArgMatches, name: &str) -> bool
    ensures { result ≡ has_flag name.now (options_of options.now) }
{
    text(options, name) == "true"
}

/// Returns the settings of a conversion. The options are checked in the order of these calls.
///
/// # Errors
///
/// Those of `start_of`, `values_of`, `channels_of` and `choice_of`, then `Header` if a text of the
/// header is refused, and `Plan` if the plan is.
pub fn setup_of(alloc: Global, options: &ArgMatches) -> Result<Setup, CommandFault>
    ensures { MatchResult result (IsSetupOf (options_of options.now)) (IsSetupRefused (options_of options.now)) }
{
    let start = start_of(options)?;
    let initial = values_of(options)?;
    let channels = channels_of(options)?;
    let choice = choice_of(options)?;
    let texts = HeaderTexts::new(&texts_of(options)).map_err(CommandFault::Header)?;
    let plan = plan_of(alloc, options).map_err(CommandFault::Plan)?;
    let leap_seconds = leap_seconds_of(options, &start);
    let gatherer = GatherSetup {
        plan: plan.with_channels(channels),
        start,
        station: station_of(options),
        gather: gather_of(text(options, "gather")),
        initial,
        leap_seconds,
        choice,
    };
    Ok(Setup {
        gatherer,
        texts,
        forms: forms_of(options),
        limit: options.get_one::<u64>("limit").unwrap_or(MOST_BYTES),
    })
}

/// Returns the plan of the options of each system, without channels.
fn plan_of(alloc: Global, options: &ArgMatches) -> Result<Plan, PlanFault>
    ensures { IsDefined (HasSignal (plan_texts (options_of options.now))) (plan_set (options_of options.now)) result }
{
    let lists = BySystem::each(|system| text(options, system.name()));
    Plan::parse_all(alloc, &lists)
}

/// Returns the texts of the header.
fn texts_of<'a>(options: &ArgMatches<'a>) -> Texts<'a>
    ensures { lists_of result ≡ texts_set (options_of options.now) }
{
    Texts {
        run_by: text(options, "run-by"),
        date: text(options, "date"),
        comment: text(options, "comment"),
        marker: text(options, "marker"),
        marker_number: text(options, "marker-number"),
        marker_type: text(options, "marker-type"),
        observer: text(options, "observer"),
        agency: text(options, "agency"),
        rec_number: text(options, "rec-number"),
        rec_type: text(options, "rec-type"),
        rec_version: text(options, "rec-version"),
        ant_number: text(options, "ant-number"),
        ant_type: text(options, "ant-type"),
    }
}

/// Returns the rule of gathering of this name.
fn gather_of(name: &str) -> Gather
    ensures { is_by_bit result ≡ not (bytes_eq name.now (codes "time")) }
{
    match name {
        "time" => Gather::Time,
        _ => Gather::Bit,
    }
}

/// Returns the forms of MSM that are read.
fn forms_of(options: &ArgMatches) -> Forms
    ensures { result ≡ forms_set (options_of options.now) }
{
    match text(options, "msm") {
        "all" => Forms::All,
        _ => Forms::FourAndSeven,
    }
}

/// Returns GPS time minus UTC in seconds.
fn leap_seconds_of(options: &ArgMatches, start: &Start) -> u8
    ensures { IsNumberOr 8 (usual_leap start.now) (one_of (codes "leap-seconds") (options_of options.now)) result }
{
    options
        .get_one("leap-seconds")
        .unwrap_or(usual_leap_seconds(start))
}

/// Returns the leap seconds without their option: those of the date that gives the week, or else
/// those from 2017 on.
fn usual_leap_seconds(start: &Start) -> u8
    ensures { result ≡ usual_leap start.now }
{
    match start {
        Start::Week(_) => LEAP_SECONDS,
        Start::Near(noon) => leap_at(*noon),
    }
}

/// Returns the value of an option that is required or has a default.
fn text<'a>(options: &ArgMatches<'a>, name: &str) -> &'a str
    ensures { result.now ≡ text_set (options_of options.now) name.now }
{
    options.get_str(name).unwrap_or("")
}

/// Returns the station whose messages count, or `None` if the option isn't given.
pub fn station_of(options: &ArgMatches) -> Option<u16>
    ensures { IsNumberOf 16 (one_of (codes "station") (options_of options.now)) result }
{
    options.get_one::<u16>("station")
}

/// Returns the station values of the options.
///
/// # Errors
///
/// `BadPosition` or `BadHeight` if a text has another form, or a length that no message can have.
fn values_of(options: &ArgMatches) -> Result<StationValues, CommandFault>
    ensures { result ≡ values_set (options_of options.now) }
{
    let position = position_of(text(options, "position"));
    let (x, y, z) = position.ok_or(CommandFault::BadPosition)?;
    let height = length_below(text(options, "antenna-height"), 1 << 16);
    let height = height.ok_or(CommandFault::BadHeight)? as u16;
    Ok(StationValues { x, y, z, height })
}

/// Returns the channels of the options.
///
/// # Errors
///
/// `BadChannels` if the text has another form.
fn channels_of(options: &ArgMatches) -> Result<Channels, CommandFault>
    ensures { result ≡ channels_set (options_of options.now) }
{
    let channels = line_texts::channels_of(text(options, "glonass-channels"));
    channels.ok_or(CommandFault::BadChannels)
}
