//! The exit status.
ghost use Rattle.std.specs.Prelude.{◌≡◌, ◌≤◌};
ghost use Rattle.devices.specs.Devices.{Writes};
ghost use Rattle.command_faults.specs.inner.Printing.{PrintsFault};
ghost use Rattle.command_faults.specs.Status.{status_of};

use crate::error_lines::error_line;
use crate::fault::CommandFault;
use devices::{Counted, Deliver, print_line};

/// Prints the fault of a command, if any, on one line, and returns the exit status: 0 after
/// success, 2 if an option is missing, excludes another one, or has an invalid value other than a
/// text of the header or a list of signals, else 1. A failure of this writer is ignored.
pub fn exit_status<E: Deliver>(ended: Result<(), CommandFault>, faults: &mut Counted<E>) -> u8
    ensures value { result ≡ status_of ended }
    ensures range { result ≤ 2 }
    ensures line { Writes E.contents E.waiting faults.old faults.new (PrintsFault ended) }
{
    let Err(fault) = ended else { return 0 };
    print_line(error_line(fault).as_bytes(), faults);
    match fault {
        CommandFault::Memory
        | CommandFault::Header(_)
        | CommandFault::Plan(_)
        | CommandFault::Convert(_)
        | CommandFault::Inspect(_)
        | CommandFault::File(_) => 1,
        _ => 2,
    }
}
