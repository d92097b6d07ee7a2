//! The examples on the first pages of the crates of the program, as they are printed there.
use command_faults::{CommandFault, error_line};
use command_line::{drop_matches, parse};
use devices::Counted;
use line_texts::{OutputLine, week_of};
use rinex_file::ReadFault;
use rinex_inspect::{FileFault, run_check};
use rtcm_command::command::command;
use rtcm_inspect::{InspectFault, run_frames};
use std::alloc::Global;

/// The line of the GPS week of a date, as `week 2300`.
fn week_line(date: &str) -> Option<OutputLine> {
    let week = week_of(date)?;
    let mut line = OutputLine::new();
    line.put(b"week");
    line.add_number(week as u64);
    line.finish();
    Some(line)
}

/// The lines of the frames of a stream.
fn lines_of(alloc: Global, stream: &[u8]) -> Result<Vec<u8>, InspectFault> {
    let (mut reader, mut writer) = (Counted::new(stream), Counted::new(Vec::new(alloc)));
    let listed = run_frames(alloc, &mut reader, &mut writer);
    let lines = writer.into_inner();
    listed.map(|_| lines)
}

/// The line of the counts of a file.
fn counts_of(alloc: Global, file: &[u8]) -> Result<Vec<u8>, FileFault> {
    let (mut reader, mut writer) = (Counted::new(file), Counted::new(Vec::new(alloc)));
    let checked = run_check(alloc, &mut reader, &mut writer);
    let line = writer.into_inner();
    checked.map(|_| line)
}

/// Whether the words are a command line of the program.
fn is_accepted(alloc: Global, words: &[&str]) -> bool {
    match parse(alloc, words) {
        Ok(found) => {
            drop_matches(found);
            true
        }
        Err(_) => false,
    }
}

/// The line on standard error after a read that failed.
fn line_of_a_failed_read() -> OutputLine {
    error_line(CommandFault::Inspect(InspectFault::Read))
}

/// Runs the program on a stream, and returns the exit status.
fn status_of(alloc: Global, words: &[&str], stream: &[u8]) -> u8 {
    let mut reader = Counted::new(stream);
    let mut writer = Counted::new(Vec::new(alloc));
    let mut faults = Counted::new(Vec::new(alloc));
    command(alloc, words, &mut reader, &mut writer, &mut faults)
}

/// The frame of a message without a bit.
const FRAME: &[u8; 6] = &[0xD3, 0, 0, 0x47, 0xEA, 0x4B];

fn is_listed(alloc: Global) -> bool {
    match lines_of(alloc, FRAME) {
        Ok(lines) => {
            let is_listed = lines.as_slice() == b"0 0 -\n".as_slice();
            drop(lines);
            is_listed
        }
        Err(_) => false,
    }
}

/// Whether a file without a line is refused in line 1.
fn is_refused(alloc: Global) -> bool {
    match counts_of(alloc, &[]) {
        Ok(line) => {
            drop(line);
            false
        }
        Err(fault) => fault == FileFault::File(ReadFault::CutShort(1)),
    }
}

#[test]
fn examples_have_their_results(rt: HostRuntime) {
    let words = ["rtcm2rinex", "frames"];
    assert!(rt;
        week_line("2024-02-04").is_some_and(|line| line.as_bytes() == b"week 2300\n".as_slice())
    );
    assert!(rt; is_listed(rt.alloc()) && is_accepted(rt.alloc(), &words));
    assert!(rt; is_refused(rt.alloc()));
    assert!(rt; line_of_a_failed_read().as_bytes() == b"rtcm2rinex: Read\n".as_slice());
    assert!(rt; status_of(rt.alloc(), &words, FRAME) == 0);
}
