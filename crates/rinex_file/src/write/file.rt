//! The text of a file that was read.
ghost use Rattle.std.specs.Prelude.{◌≡◌, ◌++◌, OnOk, IfOk};
ghost use Rattle.rinex_columns.specs.Numbers.{joined};
ghost use Rattle.rinex_file.specs.File.{change_lines, file_text};
ghost use Rattle.rinex_file.specs.inner.Stored.{HaveRowsRoom, stamped_text};

use crate::header::fault::HeadFault;
use crate::header::head::Head;
use crate::values::{ObsFile, StoredEpoch};
use crate::write::line::epoch_line;
use crate::write::satellite::put_values;
use crate::write::{write_event, write_header};
use devices::Counted;
use gnss_obs::StationValues;
use rinex_columns::{Line, MOST_LINE};
use std::alloc::{AllocError, Global};

/// A file in memory; a write fails if memory runs out.
type Text = Counted<Vec<u8>>;

/// Writes the event of an epoch that has a change of station values.
#[tactic(auto, unfolding(crate::specs::File::event_text))]
fn write_change(change: Option<StationValues>, text: &mut Text) -> Result<(), HeadFault>
    ensures { OnOk result (text.new.inner.items ≡ text.old.inner.items ++ joined (change_lines change)) }
{
    match change {
        None => Ok(()),
        Some(values) => write_event(values, text),
    }
}

/// Writes the lines of an epoch, each in the buffer or over the first bytes of the row before.
#[tactic(auto, using(crate::proofs::Writing::Sent::failures))]
fn write_stored(
    epoch: &StoredEpoch,
    line: &mut Line,
    row: &mut [u8; MOST_LINE],
    text: &mut Text,
) -> Result<(), HeadFault>
    requires { HaveRowsRoom epoch.now }
    ensures { OnOk result (text.new.inner.items ≡ text.old.inner.items ++ stamped_text epoch.now) }
{
    write_change(epoch.change, text)?;
    let rows = epoch.rows.as_slice();
    epoch_line(epoch.time, rows.len(), line);
    text.write_whole(line.as_slice())?;
    for stored in rows {
        let values = stored.signal_values.as_slice();
        let size = put_values(row, values, stored.system, stored.satellite);
        text.write_whole(&row[..size])?;
    }
    Ok(())
}

/// Writes the lines of a file.
#[tactic(auto, using(crate::proofs::Writing::Sent::failures))]
fn write_file(file: &ObsFile, text: &mut Text) -> Result<(), HeadFault>
    ensures { OnOk result (text.new.inner.items ≡ text.old.inner.items ++ file_text file.now) }
{
    let mut line = Line::new();
    let mut row = [b' '; MOST_LINE];
    let epochs = file.epochs.as_slice();
    let first = &epochs[0];
    let head = Head {
        texts: &file.texts,
        interval: file.interval,
        plan: &file.plan,
        values: file.values,
        first: first.time,
    };
    write_header(&head, text)?;
    for epoch in epochs {
        write_stored(epoch, &mut line, &mut row, text)?;
    }
    Ok(())
}

/// Returns the text of a file.
///
/// # Errors
///
/// [`AllocError`] if memory runs out.
pub fn file_bytes(alloc: Global, file: &ObsFile) -> Result<Vec<u8>, AllocError>
    ensures { IfOk result (λ text. text.items ≡ file_text file.now) }
{
    let mut text = Counted::new(Vec::new(alloc));
    write_file(file, &mut text).map_err(|_| AllocError)?;
    Ok(text.into_inner())
}
