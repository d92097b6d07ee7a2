//! The command `quality`: what each signal and each satellite of a file has.
ghost use Rattle.std.specs.Prelude.{◌≡◌, ◌≤◌, ◌<◌, ◌*◌, ◌+◌, ◌-◌, [], List, Option, ℕ, IfOk, IfSome, length, min};
ghost use Rattle.devices.specs.Devices.{Changes, Writes};
ghost use Rattle.gnss_obs.specs.Weeks.{week, weeks};
ghost use Rattle.rinex_file.specs.Blocks.{LeavesRest, ReadsPrefix};
ghost use Rattle.rinex_file.specs.Counting.{AreCounts};
ghost use Rattle.rinex_file.specs.Value.{FileValue, Stamped};
ghost use Rattle.rinex_file.specs.inner.Read.EpochSteps.{HasReadEpochs, HasReadRows, plan_of};
ghost use Rattle.rinex_inspect.specs.Checking.{ReadsFile};
ghost use Rattle.rinex_inspect.specs.Quality.{EndsQuality, RatesFiles};
ghost use Rattle.rinex_inspect.specs.QualityOutput.{period_of};
ghost use Rattle.rinex_inspect.specs.inner.QualityLines.{IsPrintable};
ghost use Rattle.rinex_inspect.specs.inner.Rating.{AreTables, IsStart, RatesEpoch, RatesNext, RatesPeriods, ReadsRows, end_text};
ghost use Rattle.rinex_inspect.specs.inner.Rating.{period_text};
ghost use Rattle.rinex_inspect.specs.inner.Reading.{PrintsIfSent};
ghost use Rattle.gnss_obs.specs.Intervals.{IsInterval};
ghost use Rattle.rinex_inspect.specs.inner.Tables.{IsTableOf};

use crate::check::add_counts;
use crate::fault::FileFault;
use crate::quality_lines::{Lines, Rated, print_lines};
use crate::table::Table;
use devices::{Counted, Deliver, deliver_waiting, print_text};
use gnss_obs::{GpsTime, Interval, WEEK, WEEKS};
use line_texts::OutputLine;
use rinex_file::{Counts, EpochReader, NextEpoch, ReadFault};
use std::alloc::{AllocError, Global};
use std::io::Read;
use std::mem;

/// The tables of a file that is read: that of the epochs of a period, and one for an epoch of a
/// later period until it is whole.
#[derive(Drop)]
pub(crate) struct Tables {
    period: u64,
    current: Table,
    next: Table,
}

/// Delivers what waits in the writer, reads a file to its end, and writes its counts, a line for
/// each planned signal and a line for each satellite. With `every`, it writes a line for each
/// satellite and signal with a value in each period of that length, while the file is read.
///
/// # Errors
///
/// `File` with the fault of [`EpochReader::begin`], also `Memory` before anything is read, and
/// `Write` if the writer failed.
// Not inlined, so that the parser's block of bytes isn't in the stack frame of every command.
#[inline(never)]
pub fn run_quality<R: Read, W: Deliver>(
    alloc: Global,
    every: Option<Interval>,
    reader: &mut Counted<R>,
    writer: &mut Counted<W>,
) -> Result<(), FileFault>
    ensures { Changes R.remaining reader.old reader.new W.contents W.waiting writer.old writer.new
        (ReadsFile (EndsQuality every result) (RatesFiles every result)) }
{
    deliver_waiting(writer, FileFault::Write)?;
    let Ok(mut tables) = Tables::new(alloc, &every) else {
        return Err(FileFault::File(ReadFault::Memory));
    };
    let mut file = EpochReader::new(alloc);
    let ended = rate(&every, &mut tables, &mut file, reader, writer);
    drop(file);
    drop(tables);
    ended
}

/// Reads a file to its end with these tables, which have no epoch.
fn rate<R: Read, W: Deliver>(
    every: &Option<Interval>,
    tables: &mut Tables,
    file: &mut EpochReader,
    reader: &mut Counted<R>,
    writer: &mut Counted<W>,
) -> Result<(), FileFault>
    requires sent { W.waiting writer.old.inner ≡ [] }
    requires start { (input : Option (List ℕ)) → HasReadEpochs file.old [] input input }
    requires tables { AreTables every.now tables.old [] }
    ensures { Changes R.remaining reader.old reader.new W.contents W.waiting writer.old writer.new
        (ReadsFile (EndsQuality every.now result) (RatesFiles every.now result)) }
{
    let counts = print_periods(every, tables, file, reader, writer)?;
    print_end(every, tables, file, &counts, writer)
}

impl Tables {
    /// Returns tables without epochs, of periods of this length.
    ///
    /// # Errors
    ///
    /// `AllocError` if an allocation failed.
    fn new(alloc: Global, every: &Option<Interval>) -> Result<Tables, AllocError>
        ensures { IfOk result (λ t. AreTables every.now t []) }
    {
        let current = Table::new(alloc)?;
        let next = Table::new(alloc)?;
        Ok(Tables {
            period: period_of(every, GpsTime::within(0)),
            current,
            next,
        })
    }
}

/// Reads a file to its end, and writes the lines of each period but the last one. Returns the
/// counts of the file.
fn print_periods<R: Read, W: Deliver>(
    every: &Option<Interval>,
    tables: &mut Tables,
    file: &mut EpochReader,
    reader: &mut Counted<R>,
    writer: &mut Counted<W>,
) -> Result<Counts, FileFault>
    requires start { (input : Option (List ℕ)) → HasReadEpochs file.old [] input input }
    requires tables { AreTables every.now tables.old [] }
    requires sent { W.waiting writer.old.inner ≡ [] }
    ensures { Changes R.remaining reader.old reader.new W.contents W.waiting writer.old writer.new
        (λ d d'. RatesPeriods every.now file.new tables.new result d d' × LeavesRest d.reader.unread d'.reader.unread) }
{
    loop {
        if let Some(counts) = rate_next(every, tables, file, reader, writer)? {
            return Ok(counts);
        }
    }
}

/// Reads the next epoch, and writes the lines of the period before it if it is the first one of a
/// later period; or reads the end of the file, and returns its counts.
fn rate_next<R: Read, W: Deliver>(
    every: &Option<Interval>,
    tables: &mut Tables,
    file: &mut EpochReader,
    reader: &mut Counted<R>,
    writer: &mut Counted<W>,
) -> Result<Option<Counts>, FileFault>
    requires sent { W.waiting writer.old.inner ≡ [] }
    requires read { (es : List Stamped) × (input : Option (List ℕ))
        × HasReadEpochs file.old es input (R.remaining reader.old.inner) × AreTables every.now tables.old es }
    ensures rates { (es : List Stamped) → (input : Option (List ℕ))
        → HasReadEpochs file.old es input (R.remaining reader.old.inner) → AreTables every.now tables.old es
        → Changes R.remaining reader.old reader.new W.contents W.waiting writer.old writer.new
        (RatesNext every.now file.old file.new tables.old tables.new es input result) }
    ensures reads { ReadsPrefix (FileFault.File ReadFault.Read) result R.remaining reader.old reader.new }
{
    match file.begin(reader) {
        Ok(NextEpoch::Epoch { before, time }) => {
            // The proof of this arm needs the name of each field.
            let _ = before.is_some();
            take_epoch(every, time, tables, file, reader, writer)?;
            Ok(None)
        }
        Ok(NextEpoch::End(summary)) => Ok(Some(summary.counts)),
        Err(fault) => Err(FileFault::File(fault)),
    }
}

/// Reads the lines of an epoch that was begun, and writes the lines of the period before it if it
/// is the first one of a later period.
fn take_epoch<R: Read, W: Deliver>(
    every: &Option<Interval>,
    time: GpsTime,
    tables: &mut Tables,
    file: &mut EpochReader,
    reader: &mut Counted<R>,
    writer: &mut Counted<W>,
) -> Result<(), FileFault>
    requires sent { W.waiting writer.old.inner ≡ [] }
    requires begun { (es : List Stamped) × (e : Stamped) × (input : Option (List ℕ)) × IsStart time e
        × HasReadRows file.old es e input (R.remaining reader.old.inner) × AreTables every.now tables.old es }
    ensures rates { (es : List Stamped) → (e : Stamped) → (input : Option (List ℕ)) → IsStart time e
        → HasReadRows file.old es e input (R.remaining reader.old.inner) → AreTables every.now tables.old es
        → Changes R.remaining reader.old reader.new W.contents W.waiting writer.old writer.new
        (RatesEpoch every.now file.old file.new tables.new es time input result) }
    ensures reads { ReadsPrefix (FileFault.File ReadFault.Read) result R.remaining reader.old reader.new }
{
    let period = period_of(every, time);
    if period == tables.period {
        return read_rows(time, &mut tables.current, file, reader);
    }
    read_rows(time, &mut tables.next, file, reader)?;
    print_period(every, &tables.current, tables.period, file, writer)?;
    tables.current.clear();
    mem::swap(&mut tables.current, &mut tables.next);
    tables.period = period;
    Ok(())
}

/// Reads the lines of an epoch that was begun at this time into a table.
fn read_rows<R: Read>(
    time: GpsTime,
    table: &mut Table,
    file: &mut EpochReader,
    reader: &mut Counted<R>,
) -> Result<(), FileFault>
    requires { (es : List Stamped) × (e : Stamped) × (input : Option (List ℕ)) × (xs : List Stamped) × IsStart time e
        × HasReadRows file.old es e input (R.remaining reader.old.inner) × IsTableOf table.old xs
        × (length xs ≤ length es) }
    ensures rows { (es : List Stamped) → (e : Stamped) → (input : Option (List ℕ)) → IsStart time e
        → HasReadRows file.old es e input (R.remaining reader.old.inner)
        → ReadsRows file.old file.new table.old table.new es time input (R.remaining reader.new.inner) result }
    ensures reads { ReadsPrefix (FileFault.File ReadFault.Read) result R.remaining reader.old reader.new }
{
    table.begin(time);
    loop {
        match file.next_row(reader) {
            Ok(true) => table.add(file.row()),
            Ok(false) => return Ok(()),
            Err(fault) => return Err(FileFault::File(fault)),
        }
    }
}

/// Returns the number of the period of an epoch at this time, counted from 0.
fn period_of(every: &Option<Interval>, time: GpsTime) -> u64
    ensures number { result ≡ period_of every.now time }
    ensures interval { IfSome every.now IsInterval }
{
    match every {
        Some(every) => nominal(time) / u64::from(every.milliseconds()),
        None => 0,
    }
}

/// Returns the time 50 ms after this one, within the weeks.
fn nominal(time: GpsTime) -> u64
    ensures { result ≡ min (time + 50) (weeks * week - 1) }
{
    (time.milliseconds() + 50).min(WEEKS * WEEK - 1)
}

/// Writes the lines of a period, if they are asked for.
fn print_period<W: Deliver>(
    every: &Option<Interval>,
    table: &Table,
    period: u64,
    file: &EpochReader,
    writer: &mut Counted<W>,
) -> Result<(), FileFault>
    requires fits { IsPrintable table.now (plan_of file.now) }
    requires within { IfSome every.now (λ n. period * n < weeks * week) }
    ensures { Writes W.contents W.waiting writer.old writer.new
        (PrintsIfSent result (period_text every.now (plan_of file.now) table.now period)) }
{
    match every {
        Some(every) => {
            let start = GpsTime::within(period * u64::from(every.milliseconds()));
            print_lines(&Lines::Period(start), &Rated { table, file }, writer)
        }
        None => Ok(()),
    }
}

/// Writes what is written at the end of a file: the lines of its last period, or its counts and the
/// lines of its signals and satellites.
fn print_end<W: Deliver>(
    every: &Option<Interval>,
    tables: &Tables,
    file: &EpochReader,
    counts: &Counts,
    writer: &mut Counted<W>,
) -> Result<(), FileFault>
    requires fits { IsPrintable tables.now.current (plan_of file.now) }
    requires within { IfSome every.now (λ n. tables.now.period * n < weeks * week) }
    ensures { (v : FileValue) → AreCounts counts.now v → Writes W.contents W.waiting writer.old writer.new
        (PrintsIfSent result (end_text every.now (plan_of file.now) tables.now v)) }
{
    match every {
        Some(_) => print_period(every, &tables.current, tables.period, file, writer),
        None => {
            let mut line = OutputLine::new();
            add_counts(&mut line, counts);
            print_text(line.as_bytes(), writer, FileFault::Write)?;
            let table = &tables.current;
            let rated = Rated { table, file };
            print_lines(&Lines::Signals, &rated, writer)?;
            print_lines(&Lines::Satellites, &rated, writer)
        }
    }
}
