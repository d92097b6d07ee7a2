//! The command `options`: the options of `convert` that fit a stream.
ghost use Rattle.std.specs.Prelude.{◌≡◌, ◌+◌, ◌*◌, ◌<◌, ◌≤◌, ◌∷◌, ◌++◌, [], flat_map, List, Option, IfOk, IfErr};
ghost use Rattle.std.specs.Prelude.{ℕ, IfSome, Some, length};
ghost use Rattle.gnss_obs.specs.Channels.{slot_count};
ghost use Rattle.gnss_system.specs.Systems.{systems};
ghost use Rattle.devices.specs.Devices.{Changes};
ghost use Rattle.rtcm_msg.specs.Station.{InRange};
ghost use Rattle.rtcm_scan.specs.Frames.{frames_of};
ghost use Rattle.line_texts.specs.ChannelTexts.{channels_text};
ghost use Rattle.line_texts.specs.Lines.{AddsWords, IsTextWithin, longest_line, longest_number, with_words};
ghost use Rattle.rtcm_inspect.specs.inner.Counting.{AreSignals, HoldsForCells, HoldsForFrames};
ghost use Rattle.rtcm_inspect.specs.Fitting.{channel_words, forms_words, further_words};
ghost use Rattle.rtcm_inspect.specs.inner.Lines.{first_words, number_start};
ghost use Rattle.rtcm_inspect.specs.Fitting.{options_text, other_words, station_words};
ghost use Rattle.rtcm_inspect.specs.inner.Lines.{longest_codes, longest_options, longest_plan};
ghost use Rattle.rtcm_inspect.specs.OptionOutput.{AreOptionsOf, AreOptionsRefused};
ghost use Rattle.rtcm_inspect.specs.StreamCounts.{stream_counts};
ghost use Rattle.rtcm_inspect.specs.StreamOutput.{EndsStream};
ghost use Rattle.rtcm_inspect.specs.Signals.{codes_word, had, plan_had, plan_in};

use crate::counting::{StreamSignals, read_signals};
use crate::decoded::has_signal;
use crate::fault::InspectFault;
use crate::printed_week::{WeekSource, printed_week};
use crate::signals::code_at;
use arrayvec::ArrayVec;
use devices::{Counted, Deliver, deliver_waiting, print_text};
use gnss_obs::Channels;
use gnss_system::{SYSTEMS, System};
use line_texts::{LINE_BYTES, OutputLine, channels_text};
use obs_epoch::{SignalCounts, is_always_decoded};
use rtcm_msg::{Forms, StationParts};
use std::alloc::Global;
use std::io::Read;

/// The most bytes of the options of a system, after a blank.
const PLAN_BYTES: usize = 300;

/// Room for the line of the options: a line of first words, a line of last ones, and the options of
/// each system.
const OPTIONS_BYTES: usize = 2 * LINE_BYTES + PLAN_BYTES * SYSTEMS.len();

/// The line of the options, which is longer than others.
type OptionsText = ArrayVec<u8, OPTIONS_BYTES>;

/// Delivers what waits in the writer, reads a stream, and writes a line of the options of `convert`
/// that fit it: the week of its first MSM, if it is asked for, the station, the signals of the cells
/// that have a value, of GLONASS the first channel of each slot and, with a week, the leap seconds,
/// the forms of the MSMs, and the values of the first station message. If no station is given, the
/// line has none, and the stream may have no messages of another one than the first.
///
/// # Errors
///
/// `SeveralStations` with the first two if no station is given and the MSMs and station messages
/// are of several, `NoSignal` if no cell has a value, then those of `printed_week`; `Write` if the
/// writer failed, and those of `read_signals`.
pub fn run_options<R: Read, W: Deliver>(
    alloc: Global,
    station: Option<u16>,
    source: WeekSource,
    reader: &mut Counted<R>,
    writer: &mut Counted<W>,
) -> Result<(), InspectFault>
    ensures { Changes R.remaining reader.old reader.new W.contents W.waiting writer.old writer.new
        (EndsStream result (AreOptionsOf source station) (AreOptionsRefused source station)) }
{
    deliver_waiting(writer, InspectFault::Write)?;
    let signals = read_signals(alloc, station, reader)?;
    let text = options_of(&signals, source)?;
    print_text(text.as_slice(), writer, InspectFault::Write)
}

/// Returns the line of the options that fit a stream.
///
/// # Errors
///
/// `SeveralStations`, `NoSignal`, and those of `printed_week`.
fn options_of(signals: &StreamSignals, source: WeekSource) -> Result<OptionsText, InspectFault>
    requires { IfSome signals.now.first.point InRange }
    ensures line { HoldsForFrames signals.now (λ station fs.
        IfOk result (λ text. AreOptionsOf source station fs text.items)) }
    ensures refused { (b : List ℕ) → AreSignals signals.now signals.now.station (frames_of b)
        → signals.now.counts ≡ stream_counts b → IfErr result (AreOptionsRefused source signals.now.station b) }
{
    match signals.first.mixed_stations(signals.station) {
        Some((first, other)) => Err(InspectFault::SeveralStations(first, other)),
        None if !signals.signal_counts.has_any() => Err(InspectFault::NoSignal(signals.counts)),
        None => {
            let printed = printed_week(signals, source)?;
            Ok(options_line(signals, printed.week, printed.leap))
        }
    }
}

/// Returns the line of the options that fit a stream of signals, with this week and these leap
/// seconds.
fn options_line(signals: &StreamSignals, week: Option<u32>, leap: Option<u8>) -> OptionsText
    requires { IfSome signals.now.first.point InRange }
    ensures { HoldsForFrames signals.now (λ station fs. result.items ≡ options_text week leap station fs) }
{
    let mut text = ArrayVec::new();
    put_line(&mut text, &first_words(signals, week));
    add_others(&mut text, signals, leap);
    put_line(&mut text, &last_words(signals));
    text
}

/// Returns the first words of the options, up to the signals of Galileo.
fn first_words(signals: &StreamSignals, week: Option<u32>) -> OutputLine
    ensures { HoldsForFrames signals.now (λ station fs. result ≡ first_words week station (plan_in station fs)) }
{
    let mut line = OutputLine::new();
    add_number(&mut line, "--week", week);
    add_number(&mut line, "--station", signals.station.map(u32::from));
    line.put(b"--gps");
    add_codes(&mut line, &signals.signal_counts, System::Gps);
    line.add_word("--galileo");
    add_codes(&mut line, &signals.signal_counts, System::Galileo);
    line
}

/// Returns the last words of the options, each after a blank, and the line feed.
fn last_words(signals: &StreamSignals) -> OutputLine
    requires { IfSome signals.now.first.point InRange }
    ensures { result
        ≡ with_words [] (forms_words signals.now.forms ++ station_words signals.now.first.point) ++ 0x0A ∷ [] }
{
    let mut line = OutputLine::new();
    add_forms(&mut line, signals.forms);
    add_station(&mut line, signals.first.point);
    line.finish();
    line
}

/// Adds the options of the systems other than GPS and Galileo that have a signal.
fn add_others(text: &mut OptionsText, signals: &StreamSignals, leap: Option<u8>)
    requires { length text.old.items ≤ longest_line }
    ensures text { HoldsForCells signals.now.signal_counts (λ cells. text.new.items
        ≡ with_words text.old.items (flat_map (other_words leap (plan_had cells signals.now.channels)) systems)) }
    ensures short { length text.new.items + longest_line ≤ longest_options }
{
    for i in 0..SYSTEMS.len() {
        add_other(text, signals, leap, System::at(i));
    }
}

/// Adds the options of a system, if it is another than GPS and Galileo and has a signal.
fn add_other(text: &mut OptionsText, signals: &StreamSignals, leap: Option<u8>, system: System)
    requires { length text.old.items + longest_plan ≤ longest_options }
    ensures text { HoldsForCells signals.now.signal_counts (λ cells. text.new.items
        ≡ with_words text.old.items (other_words leap (plan_had cells signals.now.channels) system)) }
    ensures short { length text.new.items ≤ length text.old.items + longest_plan }
{
    if is_always_decoded(system) {
        return;
    }
    if !has_signal(&signals.signal_counts, system) {
        return;
    }
    let mut line = OutputLine::new();
    line.put(b" --");
    line.put(system.name().as_bytes());
    add_codes(&mut line, &signals.signal_counts, system);
    add_further(&mut line, &signals.channels, leap, system);
    put_line(text, &line);
}

/// Adds the further options of GLONASS: the channels and the leap seconds, if they are known.
fn add_further(line: &mut OutputLine, channels: &Channels, leap: Option<u8>, system: System)
    requires { length line.old ≤ longest_codes }
    ensures { IsTextWithin line.new (with_words line.old (further_words leap channels.now system)) longest_plan }
{
    if let System::Glonass = system {
        add_channels(line, channels);
        if let Some(leap) = leap {
            line.add_count("--leap-seconds", u64::from(leap));
        }
    }
}

/// Adds the option of the channels, if one is known.
fn add_channels(line: &mut OutputLine, channels: &Channels)
    requires { length line.old ≤ longest_codes }
    ensures { AddsWords line.old line.new (channel_words (channels_text channels.now)) (20 + 6 * slot_count) }
{
    let text = channels_text(channels);
    if !text.as_bytes().is_empty() {
        line.add_word("--glonass-channels");
        line.add_part(b' ', text.as_bytes());
    }
}

/// Appends a line.
fn put_line(text: &mut OptionsText, line: &OutputLine)
    requires { length text.old.items + length line.now ≤ longest_options }
    ensures { text.new.items ≡ text.old.items ++ line.now }
{
    text.try_extend_from_slice(line.as_bytes()).unwrap();
}

/// Adds an option with a number, if there is one, and a blank.
fn add_number(line: &mut OutputLine, option: &str, number: Option<u32>)
    requires { length line.old + length option.now + 2 + longest_number ≤ longest_line }
    ensures { IsTextWithin line.new
        (line.old ++ number_start option.now number) (length line.old + length option.now + 2 + longest_number) }
{
    if let Some(number) = number {
        line.put(option.as_bytes());
        line.add_number(u64::from(number));
        line.put(b" ");
    }
}

/// Adds a word, the codes of the signals of a system that have a cell, separated by commas, or
/// `none`.
fn add_codes(line: &mut OutputLine, signal_counts: &SignalCounts, system: System)
    requires { length line.old ≤ 150 }
    ensures text { HoldsForCells signal_counts.now (λ cells.
        line.new ≡ line.old ++ 0x20 ∷ codes_word system (had cells system)) }
    ensures short { length line.new ≤ length line.old + 62 }
{
    let mut separator = b' ';
    for index in 0..system.signals() {
        if signal_counts.count(system, index) > 0 {
            line.add_part(separator, code_at(system, index).as_slice());
            separator = b',';
        }
    }
    if separator == b' ' {
        line.add_word("none");
    }
}

/// Adds the option of the forms, if they aren't the default.
fn add_forms(line: &mut OutputLine, forms: Forms)
    requires { length line.old ≤ 210 }
    ensures { AddsWords line.old line.new (forms_words forms) 10 }
{
    if let Forms::All = forms {
        line.add_word("--msm");
        line.add_word("all");
    }
}

/// Adds the options of a station message, if there is one: the position, and the antenna height of
/// a 1006.
fn add_station(line: &mut OutputLine, station: Option<StationParts>)
    requires room { length line.old ≤ 220 }
    requires in_range { IfSome station InRange }
    ensures { AddsWords line.old line.new (station_words station) 160 }
{
    if let Some(station) = station {
        line.add_word("--position");
        line.add_metres(b'=', station.x);
        line.add_metres(b',', station.y);
        line.add_metres(b',', station.z);
        if let Some(height) = station.height {
            line.add_word("--antenna-height");
            line.add_metres(b' ', i64::from(height));
        }
    }
}
