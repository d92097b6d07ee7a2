//! Writing a file, one line at a time.
ghost use Rattle.std.specs.Prelude.{◌≡◌, ◌<◌, OnOk, IfErr};
ghost use Rattle.devices.specs.Device.{WritesText};
ghost use Rattle.gnss_system.specs.Satellites.{satellites};
ghost use Rattle.gnss_system.specs.Systems.{systems};
ghost use Rattle.rinex_file.specs.File.{event_text, epoch_text, lines_of_systems, lines_up_to};
ghost use Rattle.rinex_file.specs.inner.Heads.{head_text};
ghost use Rattle.rinex_file.specs.inner.Rows.{IsBlankBut};

pub(crate) mod file;
pub(crate) mod lanes;
pub(crate) mod line;
pub(crate) mod satellite;

use crate::header::fault::HeadFault;
use crate::header::head::{Head, header_lines};
use crate::header::lines::{delta_line, position_line};
use crate::write::line::{EPOCH_ROOM, event_line, put_epoch};
use crate::write::satellite::put_satellite_line;
use arrayvec::ArrayVec;
use devices::{Counted, DeviceFailed};
use gnss_obs::{Epoch, Plan, StationValues, end_of, is_written};
use gnss_system::{SYSTEMS, System};
use rinex_columns::MOST_LINE;
use std::io::Write;

/// Writes a header, line by line.
///
/// # Errors
///
/// [`HeadFault::Write`] if the writer fails; the bytes written are then a prefix of the header.
// Not inlined into the loop over epochs, which is compiled better without it: 0.3 % of the
// instructions of `convert`.
#[inline(never)]
#[tactic(auto, using(crate::proofs::Writing::Sent::failures))]
pub fn write_header<W: Write>(head: &Head, writer: &mut Counted<W>) -> Result<(), HeadFault>
    ensures written { WritesText result W.contents writer.old writer.new (head_text head.now) }
    ensures only { IfErr result (λ fault. fault ≡ HeadFault.Write) }
{
    for line in header_lines(head) {
        writer.write_whole(line.as_slice())?;
    }
    Ok(())
}

/// Writes an event with station values: its line, and position and height as in a header.
///
/// # Errors
///
/// [`HeadFault::Write`] if the writer fails; the bytes written are then a prefix of these lines.
// Not inlined, as `write_header`.
#[inline(never)]
#[tactic(auto, using(crate::proofs::Writing::Sent::failures))]
pub fn write_event<W: Write>(
    values: StationValues,
    writer: &mut Counted<W>,
) -> Result<(), HeadFault>
    ensures written { WritesText result W.contents writer.old writer.new (event_text values) }
    ensures only { IfErr result (λ fault. fault ≡ HeadFault.Write) }
{
    writer.write_whole(event_line())?;
    writer.write_whole(position_line(&values).as_slice())?;
    writer.write_whole(delta_line(&values).as_slice())?;
    Ok(())
}

/// Writes the line of each satellite of a system that has a value.
#[tactic(auto, using(crate::proofs::Writing::Sent::failures))]
fn write_system<W: Write>(
    epoch: &Epoch,
    plan: &Plan,
    system: System,
    row: &mut [u8; MOST_LINE],
    used: &mut u64,
    writer: &mut Counted<W>,
) -> Result<(), DeviceFailed>
    requires { IsBlankBut used.old row.old }
    ensures written { WritesText result W.contents writer.old writer.new
        (lines_up_to plan.now epoch.now.epoch system (satellites system)) }
    ensures blank { OnOk result (IsBlankBut used.new row.new) }
{
    let cells = epoch.cells(system);
    let mut from = 0;
    while from < cells.len() {
        let id = cells[from].satellite.id();
        let to = end_of(cells, from, id);
        let own = &cells[from..to];
        if is_written(own, id) {
            let size = put_satellite_line(row, used, own, plan, system, id);
            writer.write_whole(&row[..size])?;
            row[size - 1] = b' ';
        }
        from = to;
    }
    Ok(())
}

/// Writes the lines of each system, one system after the other.
#[tactic(auto, using(crate::proofs::Writing::Sent::failures))]
fn write_systems<W: Write>(
    epoch: &Epoch,
    plan: &Plan,
    writer: &mut Counted<W>,
) -> Result<(), DeviceFailed>
    ensures { WritesText result W.contents writer.old writer.new (lines_of_systems plan.now epoch.now.epoch systems) }
{
    let mut row = [b' '; MOST_LINE];
    let mut used = 0;
    for i in 0..SYSTEMS.len() {
        write_system(epoch, plan, System::at(i), &mut row, &mut used, writer)?;
    }
    Ok(())
}

/// Writes an epoch: its line, and a line for each satellite that has a value, in the order of
/// the systems and of the satellites' numbers.
///
/// # Errors
///
/// [`HeadFault::Write`] if the writer fails; the bytes written are then a prefix of these lines.
#[tactic(auto, using(crate::proofs::Writing::Sent::failures))]
pub fn write_epoch<W: Write>(
    epoch: &Epoch,
    plan: &Plan,
    writer: &mut Counted<W>,
) -> Result<(), HeadFault>
    ensures written { WritesText result W.contents writer.old writer.new (epoch_text plan.now epoch.now.epoch) }
    ensures only { IfErr result (λ fault. fault ≡ HeadFault.Write) }
{
    let mut line: ArrayVec<u8, EPOCH_ROOM> = ArrayVec::new();
    put_epoch(epoch.time(), epoch.satellites(), &mut line);
    writer.write_whole(line.as_slice())?;
    write_systems(epoch, plan, writer)?;
    Ok(())
}
