//! Reads an RTCM 3 stream from standard input, and writes its content to standard output: its
//! frames, its messages, its signals, or the RINEX 3.05 observation file of its observations. The
//! command `check` reads such a file back and reports whether it is accepted, and `quality` counts
//! its values.
#![tactic(auto)]

use command_line::joined_words;
use devices::{Buffered, Counted};
use rtcm_command::command::{command, refuse_words};
use std::alloc::Global;
use std::io::{self, BufReader};
use std::process::ExitCode;

/// Size of the buffer of standard input, in bytes: the capacity of a pipe.
const INPUT_BYTES: usize = 65_536;

fn main(rt: HostRuntime) -> ExitCode {
    let refuse = |error| refuse_words(&error, &mut Counted::new(rt.stderr()));
    ExitCode::from(run(&rt).unwrap_or_else(refuse))
}

/// Runs the command of the command line over the standard streams, and returns the exit status, or
/// an error if the words of the command line can't be read or memory ran out.
fn run(rt: &HostRuntime) -> io::Result<u8> {
    let alloc: Global = rt.alloc();
    let given: Vec<String> = std::env::args(rt)?.collect(alloc)?;
    let owned = joined_words(alloc, given.as_slice())?;
    let mut words: Vec<&str> = Vec::new(alloc);
    for word in &owned {
        words.push(word.as_str())?;
    }
    run_words(rt, words.as_slice())
}

/// Runs the command that the words ask for over the standard streams, and returns the exit status.
// A function of its own: if the exits of these calls also dropped the words, the proof of each would
// be longer.
fn run_words(rt: &HostRuntime, words: &[&str]) -> io::Result<u8> {
    let alloc: Global = rt.alloc();
    // `convert` reads a stream in small pieces, and lines are written one by one. The buffers avoid
    // a system call for each. The commands deliver what they wrote before they read more.
    let input = BufReader::with_capacity(alloc, INPUT_BYTES, rt.stdin())?;
    let mut reader = Counted::new(input);
    let mut writer = Counted::new(Buffered::new(alloc, rt.stdout())?);
    let mut faults = Counted::new(rt.stderr());
    Ok(command(alloc, words, &mut reader, &mut writer, &mut faults))
}
