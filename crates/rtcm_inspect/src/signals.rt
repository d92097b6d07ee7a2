//! The command `signals`: the signals of a stream as a table.
ghost use Rattle.std.specs.Prelude.{◌≡◌, ◌+◌, ◌*◌, ◌<◌, ◌≤◌, ◌++◌, flat_map, length};
ghost use Rattle.gnss_system.specs.Signals.{table, code_of};
ghost use Rattle.gnss_system.specs.Systems.{systems};
ghost use Rattle.obs_epoch.specs.SignalCounts.{signal_in};
ghost use Rattle.devices.specs.Devices.{Changes};
ghost use Rattle.line_texts.specs.Lines.{IsTextWithin};
ghost use Rattle.rtcm_inspect.specs.inner.Counting.{HoldsForCells};
ghost use Rattle.rtcm_inspect.specs.inner.Lines.{longest_signal, longest_signals};
ghost use Rattle.rtcm_inspect.specs.StreamOutput.{EndsStream};
ghost use Rattle.rtcm_inspect.specs.Signals.{AreSignalsOf, AreSignalsRefused, count_line, count_lines};

use crate::counting::read_signals;
use crate::fault::InspectFault;
use arrayvec::ArrayVec;
use devices::{Counted, Deliver, deliver_waiting, print_text};
use gnss_obs::Signal;
use gnss_system::{MOST_SIGNALS, SYSTEMS, System};
use line_texts::OutputLine;
use obs_epoch::SignalCounts;
use std::alloc::Global;
use std::io::Read;

/// The most bytes of the line of a signal.
const SIGNAL_BYTES: usize = 26;

/// Room for the lines of as many signals of each system as any has.
const TEXT_BYTES: usize = SIGNAL_BYTES * MOST_SIGNALS * SYSTEMS.len();

/// Delivers what waits in the writer, reads a stream, and writes the table of its signals that have
/// a cell with a value, of one station or of all.
///
/// # Errors
///
/// `NoSignal` if no cell has a value, `Write` if the writer failed, and those of `read_signals`.
pub fn run_signals<R: Read, W: Deliver>(
    alloc: Global,
    station: Option<u16>,
    reader: &mut Counted<R>,
    writer: &mut Counted<W>,
) -> Result<(), InspectFault>
    ensures { Changes R.remaining reader.old reader.new W.contents W.waiting writer.old writer.new
        (EndsStream result (AreSignalsOf station) (AreSignalsRefused station)) }
{
    deliver_waiting(writer, InspectFault::Write)?;
    let signals = read_signals(alloc, station, reader)?;
    if !signals.signal_counts.has_any() {
        return Err(InspectFault::NoSignal(signals.counts));
    }
    let text = system_lines(&signals.signal_counts);
    print_text(text.as_slice(), writer, InspectFault::Write)
}

/// Returns the lines of all systems.
fn system_lines(signal_counts: &SignalCounts) -> ArrayVec<u8, TEXT_BYTES>
    ensures { HoldsForCells signal_counts.now (λ cells. result.items ≡ flat_map (count_lines cells) systems) }
{
    let mut text = ArrayVec::new();
    for i in 0..SYSTEMS.len() {
        add_lines(&mut text, signal_counts, System::at(i));
    }
    text
}

/// Adds a line for each signal of a system that has a cell.
fn add_lines(text: &mut ArrayVec<u8, TEXT_BYTES>, signal_counts: &SignalCounts, system: System)
    requires { length text.old.items + longest_signal * length (table system) ≤ longest_signals }
    ensures text { HoldsForCells signal_counts.now (λ cells.
        text.new.items ≡ text.old.items ++ count_lines cells system) }
    ensures short { length text.new.items ≤ length text.old.items + longest_signal * length (table system) }
{
    for index in 0..system.signals() {
        let count = signal_counts.count(system, index);
        if count > 0 {
            let line = count_line(system, index, count);
            text.try_extend_from_slice(line.as_bytes()).unwrap();
        }
    }
}

/// Returns the line of a signal: the letter of its system, its code, and the number of its cells.
fn count_line(system: System, index: usize, count: u64) -> OutputLine
    requires { index < length (table system) }
    ensures { IsTextWithin result (count_line (signal_in system index) count) longest_signal }
{
    let mut line = OutputLine::new();
    line.put(&[system.letter()]);
    line.add_part(b' ', code_at(system, index).as_slice());
    line.add_number(count);
    line.finish();
    line
}

/// Returns the RINEX code of the signal at an index of a system's table, in ASCII.
pub fn code_at(system: System, index: usize) -> [u8; 2]
    requires { index < length (table system) }
    ensures { result ≡ code_of (signal_in system index) }
{
    Signal::from_index(system, index).unwrap().code()
}
