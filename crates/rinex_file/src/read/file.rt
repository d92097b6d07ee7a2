//! Reading a file whole, and storing its epochs while it is read.
ghost use Rattle.std.specs.Prelude.{◌≡◌, ◌++◌, ◌∷◌, [], IfErr, IfOk, IfSome, List, OnOk, Option, ℕ};
ghost use Rattle.rinex_file.specs.Blocks.{ReadsPrefix};
ghost use Rattle.rinex_file.specs.Counting.{AreCounts, HoldsOr, IsTextWith};
ghost use Rattle.rinex_file.specs.Exact.{ExplainsFault, ExplainsStored, IfTextOfFile, IsReadOr, IsTextOf};
ghost use Rattle.rinex_file.specs.FileValues.{IsFileValue};
ghost use Rattle.rinex_file.specs.Value.{Stamped};
ghost use Rattle.rinex_file.specs.inner.Read.EpochSteps.{HasReadEpochs, HasReadRows, StoresEpochs, StoresRows};
ghost use Rattle.rinex_file.specs.inner.Read.EpochSteps.{begun_in, file_of};

use crate::read::epochs::{EpochReader, NextEpoch};
use crate::read::fault::ReadFault;
use crate::read::times::EpochTimes;
use crate::values::{ObsFile, SatelliteRow, StoredEpoch, StoredRow};
use devices::Counted;
use gnss_obs::Plan;
use gnss_system::BySystem;
use std::alloc::{AllocError, Global};
use std::io::Read;

/// Counts of a file.
#[derive(Clone, Copy, Debug, Default, PartialEq, Eq)]
pub struct Counts {
    /// Number of epochs.
    pub epochs: u64,
    /// Number of satellite lines in all epochs.
    pub satellites: u64,
    /// Number of events, each of which changes the station values.
    pub events: u64,
}

/// Counts of a file, and the times of its epochs.
#[derive(Clone, Copy)]
pub struct FileSummary {
    /// The counts.
    pub counts: Counts,
    /// The times.
    pub times: EpochTimes,
}

/// Adds a row to those that are stored.
fn store_row(alloc: Global, row: &SatelliteRow, rows: &mut Vec<StoredRow>) -> Result<(), AllocError>
    ensures { OnOk result (rows.new.items ≡ rows.old.items ++ row.now ∷ []) }
{
    let signal_values = Vec::from_slice(alloc, row.signal_values.as_slice())?;
    rows.push(StoredRow {
        system: row.system,
        satellite: row.satellite,
        signal_values,
    })?;
    Ok(())
}

/// Reads the lines of the satellites of an epoch that was begun, and stores them.
fn read_rows<R: Read>(
    alloc: Global,
    file: &mut EpochReader,
    reader: &mut Counted<R>,
) -> Result<Vec<StoredRow>, ReadFault>
    requires { (es : List Stamped) × (input : Option (List ℕ))
        × HasReadRows file.old es (begun_in file.old) input (R.remaining reader.old.inner) }
    ensures rows { (es : List Stamped) → (input : Option (List ℕ))
        → HasReadRows file.old es (begun_in file.old) input (R.remaining reader.old.inner)
        → StoresRows file.old file.new es input (R.remaining reader.new.inner) result }
    ensures reads { ReadsPrefix ReadFault.Read result R.remaining reader.old reader.new }
{
    let mut rows = Vec::new(alloc);
    while file.next_row(reader)? {
        if store_row(alloc, file.row(), &mut rows).is_err() {
            return Err(ReadFault::Memory);
        }
    }
    Ok(rows)
}

/// Reads a file to its end, and stores its epochs.
fn read_epochs<R: Read>(
    alloc: Global,
    epochs: &mut Vec<StoredEpoch>,
    file: &mut EpochReader,
    reader: &mut Counted<R>,
) -> Result<FileSummary, ReadFault>
    requires start { (input : Option (List ℕ)) → HasReadEpochs file.old [] input input }
    requires none { epochs.old.items ≡ [] }
    ensures epochs { StoresEpochs file.new epochs.new.items (R.remaining reader.old.inner) result }
    ensures reads { ReadsPrefix ReadFault.Read result R.remaining reader.old reader.new }
{
    loop {
        match file.begin(reader)? {
            NextEpoch::Epoch { .. } => {}
            NextEpoch::End(summary) => return Ok(summary),
        }
        let (change, time) = (file.parser_state.change, file.parser_state.time);
        let rows = read_rows(alloc, file, reader)?;
        let epoch = StoredEpoch { change, time, rows };
        if epochs.push(epoch).is_err() {
            return Err(ReadFault::Memory);
        }
    }
}

/// Returns the file with these epochs and the header that was read, or None if memory for its plan
/// runs out.
fn file_of(
    alloc: Global,
    file: EpochReader,
    epochs: Vec<StoredEpoch>,
    counts: Counts,
) -> Option<ObsFile>
    requires value { IsFileValue (file_of file epochs.items) }
    requires counts { AreCounts counts (file_of file epochs.items) }
    ensures { IfSome result (λ f. f ≡ file_of file epochs.items) }
{
    let head = file.parser_state.head;
    let lists = BySystem::each(|system| head.types.of(system).signals.as_slice());
    let plan = Plan::from_lists(alloc, &lists);
    // Calls drop them with less proof than each exit.
    drop(file.parser_state.last_read);
    drop(head.types);
    let Ok(plan) = plan else {
        drop(epochs);
        return None;
    };
    Some(ObsFile {
        texts: head.texts,
        interval: head.interval,
        plan: plan.with_channels(head.slots.channels),
        values: head.values,
        epochs,
        counts,
    })
}

/// Reads a file to its end and returns its counts. A file is accepted if and only if it is exactly
/// what [`write_header`](crate::write_header), [`write_event`](crate::write_event) and
/// [`write_epoch`](crate::write_epoch) write. Memory doesn't grow with the file.
///
/// # Errors
///
/// [`ReadFault::Memory`] if memory runs out, which it may only at a line of observation types in the
/// header, and [`ReadFault::Read`] if the reader fails. Otherwise the fault of the file, with the
/// number of the first line that can't follow; [`ReadFault::TooLong`] has no number.
pub fn check_file<R: Read>(alloc: Global, reader: &mut Counted<R>) -> Result<Counts, ReadFault>
    // The counts are those of the file whose text is the whole input.
    ensures found { IfOk result (λ n. IsTextWith (AreCounts n) (R.remaining reader.old.inner)) }
    // The fault explains why nothing was counted.
    ensures fault { IfErr result (λ e. IfSome (R.remaining reader.old.inner) (λ input. ExplainsFault input e)) }
    // The text of each file value is accepted.
    ensures only { IfTextOfFile (R.remaining reader.old.inner) (λ v. HoldsOr (λ n. AreCounts n v) result) }
    // A prefix of the input was read. It fails with its reader: nothing is read again after a failed read.
    ensures reads { ReadsPrefix ReadFault.Read result R.remaining reader.old reader.new }
{
    let mut file = EpochReader::new(alloc);
    while file.next_line(reader)? {}
    Ok(file.parser_state.counts)
}

/// Reads a file to its end and returns it. A file is accepted if and only if it is exactly what
/// [`write_header`](crate::write_header), [`write_event`](crate::write_event) and
/// [`write_epoch`](crate::write_epoch) write.
///
/// # Errors
///
/// [`ReadFault::Memory`] if memory runs out, and [`ReadFault::Read`] if the reader fails. Otherwise
/// the fault of the file, with the number of the first line that can't follow;
/// [`ReadFault::TooLong`] has no number.
pub fn read_file<R: Read>(alloc: Global, reader: &mut Counted<R>) -> Result<ObsFile, ReadFault>
    // The result is the file whose text is the whole input.
    ensures found { IfOk result (λ f. IsTextOf f (R.remaining reader.old.inner)) }
    // The fault explains why no file was read.
    ensures fault { IfErr result (λ e. IfSome (R.remaining reader.old.inner) (λ input. ExplainsStored input e)) }
    // The text of each file value is read.
    ensures only { IfTextOfFile (R.remaining reader.old.inner) (λ v. IsReadOr v result) }
    // A prefix of the input was read. It fails with its reader: nothing is read again after a failed read.
    ensures reads { ReadsPrefix ReadFault.Read result R.remaining reader.old reader.new }
{
    let mut file = EpochReader::new(alloc);
    let mut epochs = Vec::new(alloc);
    match read_epochs(alloc, &mut epochs, &mut file, reader) {
        Ok(summary) => file_of(alloc, file, epochs, summary.counts).ok_or(ReadFault::Memory),
        Err(fault) => {
            drop(file);
            drop(epochs);
            Err(fault)
        }
    }
}
