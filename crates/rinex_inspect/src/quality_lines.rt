//! The lines of `quality`.
ghost use Rattle.std.specs.Prelude.{◌≡◌, ◌<◌, ◌≤◌, ◌+◌, ◌++◌, ◌∷◌, length, ℕ, get_or, ◌^◌};
ghost use Rattle.std.specs.List.{count_by, sum_by};
ghost use Rattle.devices.specs.Devices.{Writes};
ghost use Rattle.gnss_obs.specs.Plans.{below};
ghost use Rattle.gnss_system.specs.Satellites.{satellites};
ghost use Rattle.gnss_system.specs.Signals.{most_signals};
ghost use Rattle.line_texts.specs.Lines.{AddsWords, IsTextWithin};
ghost use Rattle.rinex_file.specs.FileValues.{planned_in};
ghost use Rattle.rinex_file.specs.inner.Read.EpochSteps.{plan_of};
ghost use Rattle.rinex_inspect.specs.QualityOutput.{code_at, mean_text, period_line, satellite_line, satellite_word};
ghost use Rattle.rinex_inspect.specs.QualityOutput.{presence_words, signal_line, tally_words, time_word};
ghost use Rattle.rinex_inspect.specs.Tallies.{has_values, no_tally, total};
ghost use Rattle.rinex_inspect.specs.inner.QualityLines.{AreSmallTallies, IsPrintable, IsSmallTally, all_lines};
ghost use Rattle.rinex_inspect.specs.inner.QualityLines.{line_at, line_count, longest_tally, system_lines};
ghost use Rattle.rinex_inspect.specs.inner.Reading.{PrintsIfSent};
ghost use Rattle.rinex_inspect.specs.inner.Tables.{contents_in, no_record, tally_at};

use crate::check::add_instant;
use crate::fault::FileFault;
use crate::table::{SatelliteRecord, Table};
use crate::tally::{Presence, Tally};
use devices::{Counted, Deliver, print_text};
use gnss_obs::GpsTime;
use gnss_system::{SYSTEMS, System};
use line_texts::OutputLine;
use rinex_file::EpochReader;

/// The lines that are printed of a table.
#[derive(Clone, Copy)]
pub(crate) enum Lines {
    /// A line for each planned signal.
    Signals,
    /// A line for each satellite that has one.
    Satellites,
    /// A line for each satellite and signal with a value, in the period that begins at this time.
    Period(GpsTime),
}

/// A table of a file, and the reader that has the file's planned signals.
#[derive(Drop)]
pub(crate) struct Rated<'a> {
    pub(crate) table: &'a Table,
    pub(crate) file: &'a EpochReader,
    ghost fits: { IsPrintable table.now (plan_of file.now) },
}

/// Writes the lines of a table.
pub(crate) fn print_lines<W: Deliver>(
    lines: &Lines,
    rated: &Rated,
    writer: &mut Counted<W>,
) -> Result<(), FileFault>
    ensures { Writes W.contents W.waiting writer.old writer.new
        (PrintsIfSent result (all_lines lines.now (plan_of rated.now.file.now) (contents_in rated.now.table.now))) }
{
    for i in 0..SYSTEMS.len() {
        print_system(lines, rated, System::at(i), writer)?;
    }
    Ok(())
}

/// Writes the lines of a system.
fn print_system<W: Deliver>(
    lines: &Lines,
    rated: &Rated,
    system: System,
    writer: &mut Counted<W>,
) -> Result<(), FileFault>
    ensures { Writes W.contents W.waiting writer.old writer.new
        (PrintsIfSent result
        (system_lines lines.now (plan_of rated.now.file.now) (contents_in rated.now.table.now) system)) }
{
    for index in 0..line_count(lines, rated, system) {
        print_if(&line_at(lines, rated, system, index), writer)?;
    }
    Ok(())
}

/// Writes a line, unless it is empty.
fn print_if<W: Deliver>(text: &OutputLine, writer: &mut Counted<W>) -> Result<(), FileFault>
    ensures { Writes W.contents W.waiting writer.old writer.new (PrintsIfSent result text.now) }
{
    let bytes = text.as_bytes();
    if bytes.is_empty() {
        return Ok(());
    }
    print_text(bytes, writer, FileFault::Write)
}

/// Returns how many lines a system has at most.
fn line_count(lines: &Lines, rated: &Rated, system: System) -> usize
    ensures { result ≡ line_count lines.now (plan_of rated.now.file.now) system }
{
    let planned = rated.file.signals(system).len();
    match lines {
        Lines::Signals => planned,
        Lines::Satellites => system.satellites() as usize,
        Lines::Period(_) => system.satellites() as usize * planned,
    }
}

/// Returns the line of a system at this index, or an empty text.
fn line_at(lines: &Lines, rated: &Rated, system: System, index: usize) -> OutputLine
    requires place { index < line_count lines.now (plan_of rated.now.file.now) system }
    ensures { result ≡ line_at lines.now (plan_of rated.now.file.now) (contents_in rated.now.table.now) system index }
{
    match lines {
        Lines::Signals => signal_line(rated, system, index),
        Lines::Satellites => satellite_line(rated, system, index),
        Lines::Period(start) => {
            let planned = rated.file.signals(system).len();
            period_line(rated, system, index / planned, index % planned, *start)
        }
    }
}

/// Returns the line of a planned signal.
fn signal_line(rated: &Rated, system: System, k: usize) -> OutputLine
    requires place { k < planned_in (plan_of rated.now.file.now) system }
    ensures { result ≡ signal_line (plan_of rated.now.file.now) (contents_in rated.now.table.now) system k }
{
    let (satellites, total) = total_of(rated.table.records.of(system).as_slice(), k);
    let mut line = OutputLine::new();
    line.put(b"signal");
    line.add_part(b' ', &[system.letter()]);
    add_code(&mut line, rated, system, k);
    line.add_count("satellites", satellites);
    add_tally(&mut line, &total);
    line.finish();
    line
}

/// Returns the number of satellites with a value of a signal, and the sum of their tallies.
fn total_of(records: &[SatelliteRecord], k: usize) -> (u64, Tally)
    requires few { length records.now ≤ 63 }
    requires place { k < most_signals }
    requires each { (i : ℕ) → i < length records.now → length (get_or records.now i no_record).signals ≡ most_signals }
    requires fits { IsSmallTally (total (tally_at records.now k) (length records.now)) }
    ensures satellites { result.0 ≡ count_by (λ i. has_values (tally_at records.now k i)) (below (length records.now)) }
    ensures total { result.1 ≡ total (tally_at records.now k) (length records.now) }
{
    let mut satellites = 0u64;
    let mut total = Tally::new();
    for i in 0..records.len() {
        let tally = tally_at(records, i, k);
        satellites += u64::from(tally.has_values());
        total = total.plus(tally);
    }
    (satellites, total)
}

/// Returns the tally of a signal in the record at an index.
fn tally_at(records: &[SatelliteRecord], i: usize, k: usize) -> Tally
    requires place { i < length records.now }
    requires signal { k < most_signals }
    ensures { result ≡ tally_at records.now k i }
{
    records[i].signals[k]
}

/// Returns the line of a satellite, or an empty text if it has no line.
fn satellite_line(rated: &Rated, system: System, i: usize) -> OutputLine
    requires place { i < satellites system }
    ensures { result ≡ satellite_line (plan_of rated.now.file.now) (contents_in rated.now.table.now) system i }
{
    let record = rated.table.records.of(system)[i];
    let mut line = OutputLine::new();
    if record.presence.epochs > 0 {
        let lost = lost_of(&record.signals, rated.file.signals(system).len());
        line.put(b"satellite");
        add_satellite(&mut line, system, i);
        add_presence(&mut line, &record.presence);
        line.add_count("lost", lost);
        line.finish();
    }
    line
}

/// Adds the epochs of a satellite.
fn add_presence(line: &mut OutputLine, presence: &Presence)
    requires { length line.old ≤ 100 }
    ensures { AddsWords line.old line.new (presence_words presence.now) 130 }
{
    line.add_count("epochs", presence.epochs);
    line.add_count("of", presence.span);
    line.put(b" first");
    line.put(time_word(presence.first).as_bytes());
    line.put(b" last");
    line.put(time_word(presence.last).as_bytes());
}

/// Returns the number of phases at which lock was lost, of the planned signals.
fn lost_of(signals: &[Tally], planned: usize) -> u64
    requires small { AreSmallTallies signals.now }
    requires few { planned ≤ most_signals }
    ensures { result ≡ sum_by (λ k. (get_or signals.now k no_tally).lost) (below planned) }
{
    let mut lost = 0u64;
    for k in 0..planned {
        lost += u64::from(signals[k].lost);
    }
    lost
}

/// Returns the line of a satellite and signal in a period, or an empty text without a value.
fn period_line(rated: &Rated, system: System, i: usize, k: usize, start: GpsTime) -> OutputLine
    requires place { i < satellites system }
    requires signal { k < planned_in (plan_of rated.now.file.now) system }
    ensures { result ≡ period_line (plan_of rated.now.file.now) start (contents_in rated.now.table.now) system i k }
{
    let tally = tally_at(rated.table.records.of(system).as_slice(), i, k);
    let mut line = OutputLine::new();
    if tally.has_values() {
        line.put(&time_word(start).as_bytes()[1..]);
        add_satellite(&mut line, system, i);
        add_code(&mut line, rated, system, k);
        add_tally(&mut line, &tally);
        line.finish();
    }
    line
}

/// Adds the code of a planned signal after a blank.
fn add_code(line: &mut OutputLine, rated: &Rated, system: System, k: usize)
    requires room { length line.old ≤ 100 }
    requires place { k < planned_in (plan_of rated.now.file.now) system }
    ensures { IsTextWithin line.new
        (line.old ++ 0x20 ∷ code_at (plan_of rated.now.file.now) system k) (length line.old + 3) }
{
    line.put(b" ");
    line.put(&rated.file.signals(system)[k].code());
}

/// Adds the letter of a system and the number of the satellite at this index, after a blank.
fn add_satellite(line: &mut OutputLine, system: System, i: usize)
    requires room { length line.old ≤ 100 }
    requires place { i < satellites system }
    ensures { IsTextWithin line.new (line.old ++ 0x20 ∷ satellite_word system i) (length line.old + 4) }
{
    let number = system.number_of(i as u8 + 1);
    line.put(b" ");
    line.add_two(system.letter(), u64::from(number));
}

/// Returns a blank, and a time in one word.
fn time_word(time: GpsTime) -> OutputLine
    ensures { IsTextWithin result (0x20 ∷ time_word time) 24 }
{
    let mut word = OutputLine::new();
    add_instant(&mut word, b'T', time);
    word
}

/// Adds the counts of a tally, and its mean strength.
fn add_tally(line: &mut OutputLine, tally: &Tally)
    requires room { length line.old ≤ 200 }
    requires small { tally.now.strength < 2 ^ 56 }
    ensures { AddsWords line.old line.new (tally_words tally.now) longest_tally }
{
    line.add_count("c", u64::from(tally.c));
    line.add_count("l", u64::from(tally.l));
    line.add_count("d", u64::from(tally.d));
    line.add_count("s", u64::from(tally.s));
    line.add_count("lost", u64::from(tally.lost));
    line.add_count("half", u64::from(tally.half));
    line.put(b" mean");
    add_mean(line, tally);
}

/// Adds the mean of the strengths in dB-Hz, rounded to the nearest thousandth, ties up; or a hyphen
/// without a strength.
fn add_mean(line: &mut OutputLine, tally: &Tally)
    requires room { length line.old ≤ 400 }
    requires small { tally.now.strength < 2 ^ 56 }
    ensures { IsTextWithin line.new (line.old ++ 0x20 ∷ mean_text tally.now) (length line.old + 25) }
{
    if tally.s == 0 {
        line.put(b" -");
        return;
    }
    let count = u64::from(tally.s);
    let mean = (2 * tally.strength + count) / (2 * count);
    line.add_number(mean / 1_000);
    line.add_three(b'.', mean);
}
