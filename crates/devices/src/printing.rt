//! Texts and lines that are written in one call and delivered.
ghost use Rattle.devices.specs.Devices.{Writes};
ghost use Rattle.devices.specs.Printing.{EndsDelivery, EndsPrinting, PrintsLine};

use crate::counted::{Counted, DeviceFailed};
use crate::deliver::Deliver;

/// Delivers the bytes that wait in the writer, if any. A command that writes only at its end does
/// so before it reads, so that none of them waits if the reader fails.
///
/// # Errors
///
/// The given fault if the writer failed.
pub fn deliver_waiting<W: Deliver, F: Copy>(writer: &mut Counted<W>, fault: F) -> Result<(), F>
    ensures { Writes W.contents W.waiting writer.old writer.new (EndsDelivery fault result) }
{
    writer.flush_whole().map_err(|_| fault)
}

/// Writes a text, and delivers it.
///
/// # Errors
///
/// The given fault if the writer failed.
pub fn print_text<W: Deliver, F: Copy>(
    text: &[u8],
    writer: &mut Counted<W>,
    fault: F,
) -> Result<(), F>
    ensures { Writes W.contents W.waiting writer.old writer.new (EndsPrinting fault result text.now) }
{
    writer.write_whole(text).map_err(|_| fault)?;
    deliver_waiting(writer, fault)
}

/// Writes a line to standard error, and delivers it. A failure of the writer is ignored.
pub fn print_line<E: Deliver>(text: &[u8], faults: &mut Counted<E>)
    ensures { Writes E.contents E.waiting faults.old faults.new (PrintsLine text.now) }
{
    let _ = print_text(text, faults, DeviceFailed);
}
