//! The command line.
ghost use Rattle.std.specs.Prelude.{◌≡◌, true, Some, IfOk, IfErr, IfSome, map, option_map, slice_get};
ghost use Rattle.clap.specs.Walk.{rule_of, texts};
ghost use Rattle.clap.specs.Simple.{app_of, new_app};
ghost use Rattle.command_line.specs.inner.CommandLine.{IsFoundIn, RefusesWords};
ghost use Rattle.command_line.specs.inner.CommandLine.{has_row, is_needed, needed_set, option_set};
ghost use Rattle.command_line.specs.CommandLine as line;
ghost use Rattle.command_line.specs.inner.CommandLine as inner_line;

use crate::commands::{CommandRow, OptionRow, program_rows};
use clap::{Arg, ArgMatches, Command, Error};
use std::alloc::{AllocError, Global};

/// The name, the version, and the toolchain that proves and builds it, as `rt version` prints it.
pub const VERSION: &str = "rtcm2rinex 1.4.0 (rattle-kit-13f logic dac8208d650f15bf)\n";

/// Parses the words of the command line, the first of which is the program's name.
///
/// # Errors
///
/// The error of clap if the words aren't accepted, ask for help or the version, or memory ran out.
pub fn parse<'a>(alloc: Global, words: &'a [&'a str]) -> Result<ArgMatches<'a>, Error>
    ensures asked { IfOk result (IsFoundIn (texts words.now)) }
    ensures refused { IfErr result (RefusesWords (texts words.now)) }
{
    let (program, rows) = program_rows();
    let start = described(alloc, &program)
        .version(VERSION)
        .subcommand_required(true);
    let program = with_commands(alloc, start, &rows, asked(words, &rows))?;
    program.try_get_matches_from(words)
}

/// Drops what was found in the words.
// Here, so that the drop is proved early, with this crate.
pub fn drop_matches(matches: ArgMatches) {
    drop(matches);
}

/// Returns the first word after the program's name, if it is the name of one of these commands.
fn asked<'a>(words: &[&'a str], rows: &[CommandRow]) -> Option<&'a str>
    ensures { IfSome result (λ name. (slice_get (texts words.now) 1 ≡ Some name.now)
        × (has_row rows.now name.now ≡ true)) }
{
    let name = *words.get(1)?;
    for row in rows {
        if row.name == name {
            return Some(name);
        }
    }
    None
}

/// Returns the program with a command for each of these rows, which has its options if it is asked
/// for, or none is.
fn with_commands<'a>(
    alloc: Global,
    mut program: Command<'a>,
    rows: &[CommandRow<'a>],
    asked: Option<&str>,
) -> Result<Command<'a>, AllocError>
    ensures { inner_line.Makes result (line.with_commands (app_of program.entry)
        (map (needed_set (option_map (λ a. a.now) asked.entry)) rows.now)) }
{
    for row in rows {
        program = program.subcommand(command(alloc, row, asked)?)?;
    }
    Ok(program)
}

/// Returns the command of a row, without its options if another one is asked for.
// With the options of all commands a start of `frames` takes twice as many instructions.
fn command<'a>(
    alloc: Global,
    row: &CommandRow<'a>,
    asked: Option<&str>,
) -> Result<Command<'a>, AllocError>
    ensures { inner_line.Makes result (needed_set (option_map (λ a. a.now) asked.entry) row.now) }
{
    let command = described(alloc, row);
    if needs_options(asked, row.name) {
        with_options(alloc, command, row.options)
    } else {
        Ok(command)
    }
}

/// Returns whether this command is asked for, or none is.
fn needs_options(asked: Option<&str>, name: &str) -> bool
    ensures { result ≡ is_needed (option_map (λ a. a.now) asked.entry) name.now }
{
    asked.is_none_or(|asked| asked == name)
}

/// Returns the command with an option for each of these rows.
fn with_options<'a>(
    alloc: Global,
    mut command: Command<'a>,
    rows: &[OptionRow<'a>],
) -> Result<Command<'a>, AllocError>
    ensures { inner_line.Makes result (line.with_options (app_of command.entry) (map option_set rows.now)) }
{
    for row in rows {
        command = command.arg(option(alloc, row))?;
    }
    Ok(command)
}

/// Returns a command with its help texts.
fn described<'a>(alloc: Global, row: &CommandRow<'a>) -> Command<'a>
    ensures { app_of result ≡ new_app row.now.name.now }
{
    Command::new(alloc, row.name)
        .about(row.about)
        .after_help(row.examples)
}

/// Returns an option with its help and its heading, its default and the parser of its value, or a
/// flag.
fn option<'a>(alloc: Global, row: &OptionRow<'a>) -> Arg<'a>
    ensures { rule_of result ≡ option_set row.now }
{
    let arg = Arg::new(alloc, row.name)
        .long(row.name)
        .help(row.help)
        .value_name(row.value)
        .required(row.required)
        .default_values(row.defaults)
        .value_parser(row.parser)
        .action(row.action);
    match row.heading {
        Some(heading) => arg.help_heading(heading),
        None => arg,
    }
}
