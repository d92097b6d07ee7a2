//! The whole program, over a reader, a writer and a writer for faults.
ghost use Rattle.std.specs.Prelude.{◌≡◌, ◌≢◌, ◌<◌, ◌≤◌, IfSome, length, option_map, string_bytes};
ghost use Rattle.std.specs.IoError.{error_kind};
ghost use Rattle.std.specs.declared.io.ErrorKind.TheVariants as kinds;
ghost use Rattle.clap.specs.Simple.{subcommand_rows_of};
ghost use Rattle.clap.specs.Walk.{texts};
ghost use Rattle.devices.specs.Device.{IsUntouched};
ghost use Rattle.devices.specs.Devices.{Writes};
ghost use Rattle.clap.specs.Values.{kind_of};
ghost use Rattle.clap.specs.declared.error.kind.ErrorKind.TheVariants.{DisplayVersion, OutOfMemory};
ghost use Rattle.rtcm_command.specs.Commands.{AreRefused, EndsFound, HasCommand};
ghost use Rattle.rtcm_command.specs.Commands.{HasStoppedEarly, HasCompleted, StopsPrinting, refusal_line};
ghost use Rattle.rtcm_command.specs.Devices.{Runs, of_file, of_inspection};
ghost use Rattle.command_faults.specs.ErrorLines.{error_line, not_text_line};
ghost use Rattle.devices.specs.Printing.{PrintsLine, PrintsSome, PrintsText};
ghost use Rattle.command_line.specs.CommandLine.{version_line};
ghost use Rattle.rtcm_command.specs.Converting.{EndsConverting};
ghost use Rattle.rtcm_command.specs.SetupOptions.{options_of};

use crate::convert::{report_line, run_convert};
use crate::options::{complete_of, every_of, has_flag, setup_of, source_of, station_of};
use clap::ArgMatches;
use clap::error::ErrorKind;
use command_faults::{CommandFault, error_line, exit_status};
use command_line::{VERSION, drop_matches, parse};
use devices::{Counted, Deliver, print_line, print_text};
use gnss_system::System;
use rinex_inspect::{CheckOptions, FileFault, run_check_with, run_quality};
use rtcm_inspect::{InspectFault, Listing, list, run_frames, run_options, run_show, run_signals};
use rtcm_scan::MOST_BYTES;
use std::alloc::Global;
use std::io::{self, Read};

/// Runs the command that the words ask for, the first of which is the program's name, and returns
/// the exit status: 0 after success, 1 after a fault, and 2 if the words aren't accepted or ask for
/// help, or if an option is missing, excludes another one, or has an invalid value other than a text
/// of the header or a list of signals.
pub fn command<R: Read, W: Deliver, E: Deliver>(
    alloc: Global,
    words: &[&str],
    reader: &mut Counted<R>,
    writer: &mut Counted<W>,
    faults: &mut Counted<E>,
) -> u8
    ensures status { result ≤ 2 }

    // By clap's definitions under the program's options, the words ask for a command, which
    // completed with these options; or they ask for the version, which was written. Only the report
    // of `convert` was written to `faults`.
    ensures good { result ≡ 0 → Runs R.remaining reader.old reader.new W.contents W.waiting writer.old writer.new
        E.contents E.waiting faults.old faults.new (HasCompleted (texts words.now)) }

    // They ask for a command that was stopped by a fault, whose line was written to `faults`; or
    // memory ran out before anything was read or written.
    ensures stopped { result ≡ 1 → Runs R.remaining reader.old reader.new W.contents W.waiting writer.old writer.new
        E.contents E.waiting faults.old faults.new (HasStoppedEarly (texts words.now)) }

    // They aren't accepted or ask for help, or an option is missing, excludes another one, or has an
    // invalid value, and a text was written to `faults`. Nothing was read, and nothing was written
    // to the output.
    ensures refused { result ≡ 2 → Writes E.contents E.waiting faults.old faults.new (AreRefused (texts words.now))
        × IsUntouched reader.old reader.new writer.old writer.new }
{
    match parse(alloc, words) {
        Ok(matches) => {
            let status = exit_status(run(alloc, &matches, reader, writer, faults), faults);
            drop_matches(matches);
            status
        }
        Err(error) => answer(alloc, &error, writer, faults),
    }
}

/// Runs the command that was found in the words.
fn run<R: Read, W: Deliver, E: Deliver>(
    alloc: Global,
    matches: &ArgMatches,
    reader: &mut Counted<R>,
    writer: &mut Counted<W>,
    faults: &mut Counted<E>,
) -> Result<(), CommandFault>
    requires { HasCommand matches.now }
    ensures { Runs R.remaining reader.old reader.new W.contents W.waiting writer.old writer.new
        E.contents E.waiting faults.old faults.new (EndsFound result (subcommand_rows_of matches.now)) }
{
    let Some((name, options)) = matches.subcommand() else {
        unreachable!()
    };
    match name {
        "frames" => of_inspection(run_frames(alloc, reader, writer)),
        "show" if has_flag(options, "all") => {
            let listed = list(alloc, Listing::AllMessages, MOST_BYTES, reader, writer);
            of_inspection(listed)
        }
        "show" => of_inspection(run_show(alloc, reader, writer)),
        "signals" => of_inspection(run_signals(alloc, station_of(options), reader, writer)),
        "options" => {
            let source = source_of(options)?;
            of_inspection(run_options(alloc, station_of(options), source, reader, writer))
        }
        "convert" => convert(alloc, options, reader, writer, faults),
        "check" => {
            let complete = complete_of(options)?;
            let times = has_flag(options, "times");
            let asked = CheckOptions { complete, times };
            of_file(run_check_with(alloc, asked, reader, writer))
        }
        "quality" => {
            let every = every_of(options)?;
            of_file(run_quality(alloc, every, reader, writer))
        }
        _ => unreachable!(),
    }
}

/// Returns the result of a command that reads a stream and doesn't convert it.
fn of_inspection(ended: Result<(), InspectFault>) -> Result<(), CommandFault>
    ensures { result ≡ of_inspection ended }
{
    ended.map_err(CommandFault::Inspect)
}

/// Returns the result of a command that reads a file.
fn of_file(ended: Result<(), FileFault>) -> Result<(), CommandFault>
    ensures { result ≡ of_file ended }
{
    ended.map_err(CommandFault::File)
}

/// Converts the stream as the options ask, and prints the report. A failure of its writer is
/// ignored, since the file is already written.
fn convert<R: Read, W: Deliver, E: Deliver>(
    alloc: Global,
    options: &ArgMatches,
    reader: &mut Counted<R>,
    writer: &mut Counted<W>,
    faults: &mut Counted<E>,
) -> Result<(), CommandFault>
    ensures { Runs R.remaining reader.old reader.new W.contents W.waiting writer.old writer.new
        E.contents E.waiting faults.old faults.new (EndsConverting result (options_of options.now)) }
{
    let setup = setup_of(alloc, options)?;
    let has_glonass = setup.gatherer.plan.signals(System::Glonass) > 0;
    let report = run_convert(alloc, setup, reader, writer)?;
    print_line(report_line(&report, has_glonass).as_bytes(), faults);
    Ok(())
}

/// Prints the version if the words ask for it, else clap's error. Returns the exit status.
fn answer<W: Deliver, E: Deliver>(
    alloc: Global,
    error: &clap::Error,
    writer: &mut Counted<W>,
    faults: &mut Counted<E>,
) -> u8
    ensures status { result ≤ 2 }
    ensures good { result ≡ 0 → (kind_of error.now ≡ DisplayVersion)
        × Writes W.contents W.waiting writer.old writer.new (PrintsText version_line) × (faults.new ≡ faults.old) }
    ensures stopped { result ≡ 1 → Writes E.contents E.waiting faults.old faults.new (λ e e'.
        Writes W.contents W.waiting writer.old writer.new (StopsPrinting (kind_of error.now) e e')) }
    ensures refused { result ≡ 2 → (kind_of error.now ≢ DisplayVersion) × (kind_of error.now ≢ OutOfMemory)
        × (writer.new ≡ writer.old) × Writes E.contents E.waiting faults.old faults.new PrintsSome }
{
    match error.kind() {
        ErrorKind::DisplayVersion => {
            command_line::laws::version();
            let ended = print_text(VERSION.as_bytes(), writer, InspectFault::Write);
            exit_status(of_inspection(ended), faults)
        }
        ErrorKind::OutOfMemory => exit_status(Err(CommandFault::Memory), faults),
        _ => {
            print_refusal(refusal_text(alloc, error), faults);
            2
        }
    }
}

/// Returns clap's text of an error; `None` if there is no memory for it, or if it is empty.
fn refusal_text(alloc: Global, error: &clap::Error) -> Option<String>
    ensures { IfSome result (λ text. 0 < length (string_bytes text)) }
{
    match format!(in alloc; "{error}") {
        Ok(text) if !text.is_empty() => Some(text),
        _ => None,
    }
}

/// Prints the text of a refusal, or the line of `Memory` if there is no text.
fn print_refusal<E: Deliver>(text: Option<String>, faults: &mut Counted<E>)
    ensures { Writes E.contents E.waiting faults.old faults.new
        (PrintsLine (refusal_line (option_map string_bytes text))) }
{
    match &text {
        Some(text) => print_line(text.as_bytes(), faults),
        None => print_line(error_line(CommandFault::Memory).as_bytes(), faults),
    }
}

/// Prints why the words of the command line can't be read, and returns the exit status: memory ran
/// out, or a word isn't UTF-8.
pub fn refuse_words<E: Deliver>(error: &io::Error, faults: &mut Counted<E>) -> u8
    ensures memory { error_kind error.now ≡ kinds.OutOfMemory
        → (result ≡ 1) × Writes E.contents E.waiting faults.old faults.new (PrintsLine (error_line CommandFault.Memory)) }
    ensures words { error_kind error.now ≢ kinds.OutOfMemory
        → (result ≡ 2) × Writes E.contents E.waiting faults.old faults.new (PrintsLine not_text_line) }
{
    if error.kind() == io::ErrorKind::OutOfMemory {
        return exit_status(Err(CommandFault::Memory), faults);
    }
    print_line(b"error: a word of the command line isn't UTF-8\n", faults);
    2
}
