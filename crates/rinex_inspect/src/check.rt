//! The command `check`: whether the input is a file as `convert` writes it, its counts, the times
//! of its epochs, and the gaps between them.
ghost use Rattle.std.specs.Prelude.{◌≡◌, ◌+◌, ◌<◌, ◌≤◌, ◌++◌, ◌∷◌, [], List, Option, ℕ, IfSome, MatchResult};
ghost use Rattle.std.specs.Prelude.{is_some, true, length};
ghost use Rattle.line_texts.specs.Lines.{IsTextWithin};
ghost use Rattle.rinex_file.specs.Blocks.{LeavesRest};
ghost use Rattle.rinex_file.specs.Counting.{AreCounts, IsSummary};
ghost use Rattle.rinex_file.specs.FileValues.{IsFileValue};
ghost use Rattle.rinex_file.specs.Value.{FileValue};
ghost use Rattle.devices.specs.Devices.{Changes, Writes};
ghost use Rattle.rinex_inspect.specs.CheckOutput.{check_line, counts_alone, times_if, times_in};
ghost use Rattle.rinex_inspect.specs.Checking.{AcceptsFiles, EndsCheck, ReadsFile};
ghost use Rattle.rinex_file.specs.inner.Read.EpochSteps.{HasReadEpochs};
ghost use Rattle.gnss_obs.specs.Dates.{civil_of};
ghost use Rattle.rinex_inspect.specs.DateTexts.{clock_text, date_text, longest_times, moment_bytes};
ghost use Rattle.rinex_inspect.specs.DateTexts.{step_line, time_line};
ghost use Rattle.rinex_inspect.specs.Gaps.{IsCompleteness, gap_between, is_inside};
ghost use Rattle.rinex_inspect.specs.inner.Missing.{complete_but, end_gap_if, end_missing_if, first_with, gap_with};
ghost use Rattle.rinex_inspect.specs.inner.Missing.{longest_gap, missing_between, missing_with};
ghost use Rattle.rinex_inspect.specs.inner.Reading.{CountsMissing, IsEndOutput, PrintsIfSent, ReadsGaps};

use crate::fault::FileFault;
use crate::gaps::{Completeness, Placed, last_placed};
use devices::{Counted, Deliver, deliver_waiting, print_text};
use gnss_obs::GpsTime;
use line_texts::OutputLine;
use rinex_file::{Counts, EpochReader, EpochTimes, FileSummary, NextEpoch};
use std::alloc::Global;
use std::io::Read;

/// What `check` writes besides the counts.
#[derive(Clone, Copy)]
pub struct CheckOptions {
    /// What makes the file complete: its gaps and the number of its epochs are written.
    pub complete: Option<Completeness>,
    /// Whether the times are written.
    pub times: bool,
}

/// Reads a file as [`run_check_with`] does, and writes its counts alone.
///
/// # Errors
///
/// Those of [`run_check_with`].
pub fn run_check<R: Read, W: Deliver>(
    alloc: Global,
    reader: &mut Counted<R>,
    writer: &mut Counted<W>,
) -> Result<(), FileFault>
    ensures { Changes R.remaining reader.old reader.new W.contents W.waiting writer.old writer.new
        (ReadsFile (EndsCheck counts_alone result) (AcceptsFiles counts_alone result)) }
{
    let counts_alone = CheckOptions {
        complete: None,
        times: false,
    };
    run_check_with(alloc, counts_alone, reader, writer)
}

/// Delivers what waits in the writer, reads a file to its end and writes its numbers of epochs,
/// satellite lines and events. It is accepted exactly if it is encoded as `convert` encodes files.
///
/// If it is asked whether the file is complete, it also writes, while the file is read, a line for
/// each two consecutive epochs whose indexes differ by 2 or more, and at the end the number of
/// different indexes with that of a complete file. The index of an epoch is the number of intervals
/// to it from the first epoch, or from the begin of the window; the epoch may be early by half a
/// second, or by half of the interval if that is less. With times it also writes those of the first
/// and the last epoch, and the smallest step between two epochs, if it has two.
///
/// # Errors
///
/// `File` with the fault of [`EpochReader::begin`], `OtherDay` with the number of the line of the
/// first epoch that is outside of the window, judged before the lines of its satellites, and
/// `Write` if the writer failed.
// Not inlined, so that the parser's block of bytes isn't in the stack frame of every command.
#[inline(never)]
pub fn run_check_with<R: Read, W: Deliver>(
    alloc: Global,
    options: CheckOptions,
    reader: &mut Counted<R>,
    writer: &mut Counted<W>,
) -> Result<(), FileFault>
    ensures { Changes R.remaining reader.old reader.new W.contents W.waiting writer.old writer.new
        (ReadsFile (EndsCheck options result) (AcceptsFiles options result)) }
{
    deliver_waiting(writer, FileFault::Write)?;
    let mut file = EpochReader::new(alloc);
    let read = print_gaps(&options.complete, &mut file, reader, writer);
    drop(file);
    let (summary, missing) = read?;
    let text = summary_text(&options, &summary, missing);
    print_text(text.as_bytes(), writer, FileFault::Write)
}

/// Returns what is written at the end of a file with this number of missing epochs before its last
/// one.
fn summary_text(options: &CheckOptions, summary: &FileSummary, missing: u64) -> OutputLine
    ensures { (v : FileValue) → IsFileValue v → IsSummary summary.now v
        → CountsMissing options.now.complete (times_in v.epochs) missing
        → IsEndOutput options.now v summary.now.times result }
{
    let mut text = OutputLine::new();
    let after = add_last_gap(&mut text, &options.complete, &summary.times);
    add_counts(&mut text, &summary.counts);
    add_times(&mut text, options.times, &summary.times);
    add_complete(&mut text, &options.complete, &summary.times, missing, after);
    text
}

/// Reads a file to its end, and writes a line for each gap before and between its epochs, if it is
/// asked whether it is complete. Returns the summary and the number of missing epochs.
///
/// # Errors
///
/// `OtherDay` with the number of the line of an epoch outside of the window, whose satellites aren't
/// read, `File`, and `Write`.
fn print_gaps<R: Read, W: Deliver>(
    complete: &Option<Completeness>,
    file: &mut EpochReader,
    reader: &mut Counted<R>,
    writer: &mut Counted<W>,
) -> Result<(FileSummary, u64), FileFault>
    requires start { (input : Option (List ℕ)) → HasReadEpochs file.old [] input input }
    requires sent { W.waiting writer.old.inner ≡ [] }
    ensures { Changes R.remaining reader.old reader.new W.contents W.waiting writer.old writer.new
        (λ d d'. ReadsGaps file.new result complete.now d d' × LeavesRest d.reader.unread d'.reader.unread) }
{
    let mut missing = 0u64;
    loop {
        match file.begin(reader) {
            Ok(NextEpoch::Epoch { before, time }) => {
                if !is_inside(complete, time) {
                    return Err(FileFault::OtherDay(file.line()));
                }
                match file.finish(reader) {
                    Ok(()) => {}
                    Err(fault) => return Err(FileFault::File(fault)),
                }
                missing = missing.saturating_add(print_gap(complete, before, time, writer)?);
            }
            Ok(NextEpoch::End(summary)) => return Ok((summary, missing)),
            Err(fault) => return Err(FileFault::File(fault)),
        }
    }
}

/// Returns whether the window, if there is one, has an epoch at this time.
fn is_inside(complete: &Option<Completeness>, time: GpsTime) -> bool
    ensures { result ≡ is_inside complete.now time }
{
    complete
        .as_ref()
        .is_none_or(|complete| complete.is_inside(time))
}

/// Writes the line of the gap before an epoch, if there is one and it is asked for. Returns the
/// number of missing epochs.
fn print_gap<W: Deliver>(
    complete: &Option<Completeness>,
    before: Option<EpochTimes>,
    time: GpsTime,
    writer: &mut Counted<W>,
) -> Result<u64, FileFault>
    ensures fits { IfSome complete.now IsCompleteness }
    ensures line { Writes W.contents W.waiting writer.old writer.new
        (PrintsIfSent result (gap_with complete.now before time)) }
    ensures ends { MatchResult result
        (λ n. n ≡ missing_with complete.now before time) (λ _. is_some complete.now ≡ true) }
{
    let Some(complete) = complete else {
        return Ok(0);
    };
    let origin = complete.origin(first_with(&before, time));
    let last = last_placed(complete, origin, &before);
    let mut line = OutputLine::new();
    let missing = add_gap(&mut line, last, complete.placed(origin, time));
    if missing == 0 {
        return Ok(0);
    }
    print_text(line.as_bytes(), writer, FileFault::Write)?;
    Ok(missing)
}

/// Returns the time of the first epoch: that of an epoch, or of those before it.
fn first_with(before: &Option<EpochTimes>, time: GpsTime) -> GpsTime
    ensures { result ≡ first_with before.now time }
{
    before.as_ref().map_or(time, |times| times.first)
}

/// Adds the line of the gap between two epochs, if there is one, and returns the number of missing
/// epochs.
fn add_gap(text: &mut OutputLine, last: Placed, next: Placed) -> u64
    requires { length text.old ≤ 100 }
    ensures text { IsTextWithin text.new (text.old ++ gap_between last next) (length text.old + longest_gap) }
    ensures missing { result ≡ missing_between last next }
{
    let missing = next.place.saturating_sub(last.place).saturating_sub(1);
    if missing > 0 {
        text.put(b"gap");
        add_instant(text, b' ', last.time);
        add_instant(text, b' ', next.time);
        text.finish();
    }
    missing
}

/// Adds the line of the gap after the last epoch, if there is one and it is asked for, and returns
/// the number of missing epochs.
fn add_last_gap(text: &mut OutputLine, complete: &Option<Completeness>, times: &EpochTimes) -> u64
    requires { text.old ≡ [] }
    ensures fits { IfSome complete.now IsCompleteness }
    ensures text { IsTextWithin text.new (end_gap_if complete.now times.now) longest_gap }
    ensures missing { result ≡ end_missing_if complete.now times.now }
{
    let Some(complete) = complete else {
        return 0;
    };
    let origin = complete.origin(times.first);
    let Some(end) = complete.end() else {
        return 0;
    };
    add_gap(text, complete.placed(origin, times.last), end)
}

/// Adds the line of the number of epochs and that of a complete file, if it is asked for: those of
/// a complete file but for these numbers of missing ones, before its last epoch and after it.
fn add_complete(
    text: &mut OutputLine,
    complete: &Option<Completeness>,
    times: &EpochTimes,
    missing: u64,
    after: u64,
)
    requires { length text.old ≤ 300 }
    ensures { text.new ≡ text.old ++ complete_but complete.now times.now missing after }
{
    if let Some(complete) = complete {
        let size = complete.size(times);
        text.put(b"complete");
        text.add_number(size.saturating_sub(missing).saturating_sub(after));
        text.add_count("of", size);
        text.finish();
    }
}

/// Adds the line of the counts of a file.
pub(crate) fn add_counts(text: &mut OutputLine, counts: &Counts)
    requires { length text.old ≤ 100 }
    ensures text { (v : FileValue) → AreCounts counts.now v → text.new ≡ text.old ++ check_line v }
    ensures short { length text.new ≤ length text.old + 100 }
{
    text.put(b"epochs");
    text.add_number(counts.epochs);
    text.add_count("satellites", counts.satellites);
    text.add_count("events", counts.events);
    text.finish();
}

/// Adds the lines of the times of a file's epochs, if they are asked for.
fn add_times(text: &mut OutputLine, with_times: bool, times: &EpochTimes)
    requires { length text.old ≤ 200 }
    ensures { IsTextWithin text.new (text.old ++ times_if with_times times.now) (length text.old + longest_times) }
{
    if !with_times {
        return;
    }
    add_time(text, "first", times.first);
    add_time(text, "last", times.last);
    add_step(text, times.step);
}

/// Adds the line of a time: a name, the date and the time of day.
fn add_time(text: &mut OutputLine, name: &str, time: GpsTime)
    requires room { length text.old ≤ 250 }
    requires short { length name.now ≤ 10 }
    ensures { IsTextWithin text.new (text.old ++ time_line name.now time) (length text.old + 40) }
{
    text.put(name.as_bytes());
    add_instant(text, b' ', time);
    text.finish();
}

/// Adds the date of a time after a blank, and its time of day after a separator.
pub(crate) fn add_instant(text: &mut OutputLine, separator: u8, time: GpsTime)
    requires { length text.old ≤ 300 }
    ensures { IsTextWithin text.new
        ((text.old ++ 0x20 ∷ date_text (civil_of time)) ++ separator ∷ clock_text (civil_of time))
        (length text.old + moment_bytes) }
{
    let civil = time.civil();
    let millisecond = u64::from(civil.millisecond);
    text.add_date(civil.year, civil.month, civil.day);
    text.add_two(separator, u64::from(civil.hour));
    text.add_two(b':', u64::from(civil.minute));
    text.add_two(b':', millisecond / 1_000);
    text.add_three(b'.', millisecond);
}

/// Adds the line of the step in seconds, if there is one.
fn add_step(text: &mut OutputLine, step: Option<u64>)
    requires { length text.old ≤ 300 }
    ensures { IsTextWithin text.new (text.old ++ step_line step) (length text.old + 30) }
{
    if let Some(step) = step {
        text.put(b"step");
        text.add_number(step / 1_000);
        text.add_three(b'.', step);
        text.finish();
    }
}
