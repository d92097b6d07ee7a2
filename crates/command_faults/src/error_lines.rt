//! The lines of errors, on standard error.
ghost use Rattle.std.specs.Prelude.{◌≡◌, ◌≤◌, ◌∷◌, codes, length};
ghost use Rattle.command_faults.specs.ErrorLines.{conversion_counts, conversion_word, date_words, error_line};
ghost use Rattle.command_faults.specs.ErrorLines.{error_words};
ghost use Rattle.line_texts.specs.Lines.{AddsWords, IsTextWithin};
ghost use Rattle.line_texts.specs.inner.Errors.{longest_error, longest_fault_name, longest_start};

use crate::fault::{CommandFault, DateOption};
use line_texts::OutputLine;
use rinex_inspect::add_file_error;
use rtcm_convert::Fault;
use rtcm_inspect::{add_header_error, add_inspection_error, add_plan_error};

/// Returns the line of a fault: the program's name, the fault's name, and the values that it
/// carries or the form that is accepted.
pub fn error_line(fault: CommandFault) -> OutputLine
    ensures { result ≡ error_line fault }
{
    let mut line = OutputLine::new();
    line.put(b"rtcm2rinex:");
    add_error(&mut line, fault);
    line.finish();
    line
}

/// Adds the name of a fault and what follows it.
fn add_error(line: &mut OutputLine, fault: CommandFault)
    requires { length line.old ≤ longest_start }
    ensures { AddsWords line.old line.new (error_words fault) longest_error }
{
    match fault {
        CommandFault::Memory => line.add_word("Memory"),
        CommandFault::OneOf => line.add_word("OneOf --week WEEK, --near DATE: one of them"),
        CommandFault::BadDate(option) => add_date_error(line, option),
        CommandFault::BadPosition => line.add_word(
            "BadPosition --position X,Y,Z: metres, up to 8 digits and 4 decimals each, \
             -13743895.3472 to 13743895.3471",
        ),
        CommandFault::BadHeight => line.add_word(
            "BadHeight --antenna-height HEIGHT: metres, up to 4 decimals, 0 to 6.5535",
        ),
        CommandFault::BadChannels => line.add_word(
            "BadChannels --glonass-channels SLOT:CHANNEL,..: slots 1 to 27, each once, \
             channels -7 to 6",
        ),
        CommandFault::BadWindow => line.add_word("BadWindow --until TIME: later than --from"),
        CommandFault::BadInterval => line.add_word(
            "BadInterval --interval SECONDS: up to 3 decimals, 0.1 to 86400, a divisor of a day",
        ),
        CommandFault::BadTolerance => line.add_word(
            "BadTolerance --tolerance SECONDS: up to 3 decimals, 0 to 0.5, \
             at most half of --interval",
        ),
        CommandFault::BadGaps => line.add_word(
            "BadGaps --gaps SECONDS: up to 3 decimals, 0.001 to 86400",
        ),
        CommandFault::BadEvery => line.add_word(
            "BadInterval --every SECONDS: up to 3 decimals, 1 to 86400, a divisor of a day",
        ),
        CommandFault::AllOf => line.add_word(
            "AllOf --gaps SECONDS, --from TIME, --until TIME: all of them",
        ),
        CommandFault::BadGapsWindow => line.add_word(
            "BadWindow --until TIME: whole intervals after --from",
        ),
        CommandFault::Header(fault) => add_header_error(line, fault),
        CommandFault::Plan(fault) => add_plan_error(line, fault),
        CommandFault::Convert(fault) => add_conversion_error(line, fault),
        CommandFault::Inspect(fault) => add_inspection_error(line, fault),
        CommandFault::File(fault) => add_file_error(line, fault),
    }
}

/// Adds the name of the fault of a date, its option, and the form that this accepts.
fn add_date_error(line: &mut OutputLine, option: DateOption)
    requires { length line.old ≤ longest_start }
    ensures { AddsWords line.old line.new (codes "BadDate" ∷ date_words option) longest_error }
{
    match option {
        DateOption::Week => line.add_word(
            "BadDate --week WEEK: a GPS week, 0 to 99999, \
             or a date yyyy-mm-dd, 1980-01-06 to 3896-07-18",
        ),
        DateOption::Near => line.add_word(
            "BadDate --near DATE: a date yyyy-mm-dd, 1980-01-06 to 3896-07-18",
        ),
        DateOption::From => line.add_word(
            "BadDate --from TIME: a date yyyy-mm-dd or a time yyyy-mm-ddThh:mm:ss, \
             1980-01-06 to 3896-07-18",
        ),
        DateOption::Until => line.add_word(
            "BadDate --until TIME: a date yyyy-mm-dd or a time yyyy-mm-ddThh:mm:ss, \
             1980-01-06 to 3896-07-18",
        ),
    }
}

/// Adds the name of a fault of a conversion, and its numbers, each after its name.
fn add_conversion_error(line: &mut OutputLine, fault: Fault)
    requires { length line.old ≤ longest_start }
    ensures { AddsWords line.old line.new (conversion_word fault ∷ conversion_counts fault) longest_error }
{
    line.add_word(conversion_name(fault));
    if let Fault::NoneChosen(counts) = fault {
        line.add_count("epochs", counts.epochs);
        line.add_count("window", counts.window);
        line.add_count("grid", counts.grid);
    }
}

/// Returns the name of a fault of a conversion.
fn conversion_name(fault: Fault) -> &'static str
    ensures { IsTextWithin result.now (conversion_word fault) longest_fault_name }
{
    match fault {
        Fault::Memory => "Memory",
        Fault::BadSetup => "BadSetup",
        Fault::TooLong => "TooLong",
        Fault::Read => "Read",
        Fault::Write => "Write",
        Fault::Failed => "Failed",
        Fault::Finished => "Finished",
        Fault::NoEpoch => "NoEpoch",
        Fault::NoneChosen(_) => "NoneChosen",
    }
}
