//! The command `convert`: the observation file of a stream.
ghost use Rattle.std.specs.Prelude.{◌≡◌, ◌+◌, ◌≤◌, ◌↔◌, Err, length, max};
ghost use Rattle.devices.specs.Devices.{Changes};
ghost use Rattle.rtcm_bits.specs.FrameOf.{longest_frame};
ghost use Rattle.rtcm_convert.specs.SetupValues.{IsBad};
ghost use Rattle.rtcm_command.specs.Converting.{EndsConversion};
ghost use Rattle.line_texts.specs.Lines.{AddsWords, longest_number};
ghost use Rattle.rtcm_command.specs.Reports.{channel_count, report_line};

use command_faults::CommandFault;
use devices::{Counted, Deliver};
use line_texts::OutputLine;
use rtcm_convert::{Fault, Report, Setup, convert_stream};
use std::alloc::Global;
use std::io::Read;

/// Writes the observation file of a stream that is read to its end. For every stream, regardless of
/// the sizes of the reads, and for every starting week or date and plan, the file written is
/// exactly the one defined from the stream's valid frames in order, and has an epoch.
///
/// # Errors
///
/// `Convert` with the faults of `convert_stream`: at `NoEpoch` and `NoneChosen` the file has no
/// epoch.
pub fn run_convert<R: Read, W: Deliver>(
    alloc: Global,
    setup: Setup,
    reader: &mut Counted<R>,
    writer: &mut Counted<W>,
) -> Result<Report, CommandFault>
    ensures ends { Changes R.remaining reader.old reader.new W.contents W.waiting writer.old writer.new
        (EndsConversion result setup) }
    ensures bad_setup { result ≡ Err (CommandFault.Convert Fault.BadSetup) ↔ IsBad setup }
    ensures widest { reader.new.widest ≤ max reader.old.widest longest_frame }
{
    match convert_stream(alloc, setup, reader, writer) {
        Ok(report) => Ok(report),
        Err(fault) => Err(CommandFault::Convert(fault)),
    }
}

/// Returns the line of a report: each count after its name. Only if a signal of GLONASS is planned,
/// the line has the number of its cells without a channel.
pub fn report_line(report: &Report, has_glonass: bool) -> OutputLine
    ensures { result ≡ report_line has_glonass report.now }
{
    let mut line = OutputLine::new();
    line.put(b"bytes");
    line.add_number(report.bytes);
    line.add_count("skipped_bytes", report.skipped_bytes);
    line.add_count("frames", report.frames);
    line.add_count("faulty", report.faulty);
    line.add_count("station", report.station);
    line.add_count("other", report.other);
    line.add_count("ignored", report.ignored);
    line.add_count("late", report.late);
    line.add_count("past", report.past);
    line.add_count("taken", report.taken);
    line.add_count("skipped", report.skipped);
    line.add_count("repeated", report.repeated);
    line.add_count("crowded", report.crowded);
    add_channel_count(&mut line, report, has_glonass);
    line.add_count("epochs", report.epochs);
    line.finish();
    line
}

/// Adds the number of cells of GLONASS without a channel, if a signal of it is planned.
fn add_channel_count(line: &mut OutputLine, report: &Report, has_glonass: bool)
    requires { length line.old ≤ 376 }
    ensures { AddsWords line.old line.new (channel_count has_glonass report.now) (17 + longest_number) }
{
    if has_glonass {
        line.add_count("without_channel", report.without_channel);
    }
}
