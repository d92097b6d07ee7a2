//! Why a call stopped, and the names of faults, with what they carry, as words of a line.
ghost use Rattle.std.specs.Prelude.{◌≡◌, ◌+◌, ◌≤◌, [], ◌∷◌, decimal, length};
ghost use Rattle.gnss_system.specs.Satellites.{letter};
ghost use Rattle.rinex_file.specs.Texts.{field_name};
ghost use Rattle.rtcm_inspect.specs.Devices.{stream_fault};
ghost use Rattle.rtcm_inspect.specs.FaultWords.{header_words, inspection_words, plan_words};
ghost use Rattle.line_texts.specs.Lines.{AddsWords};
ghost use Rattle.line_texts.specs.inner.Errors.{longest_error, longest_fault_name, longest_fault_place, longest_start};

use devices::DeviceFailed;
use gnss_obs::PlanFault;
use gnss_system::System;
use line_texts::OutputLine;
use rinex_file::{HeadFault, HeaderField};
use rtcm_scan::StreamFault;
use std::fmt;
use thiserror::Error;

/// Why a call stopped. It is displayed by its name and the values that it contains.
#[derive(Clone, Copy, Debug, PartialEq, Eq, Error)]
pub enum InspectFault {
    /// The reader failed.
    Read,
    /// The writer failed, or accepted none of the bytes of a write.
    Write,
    /// Out of memory.
    Memory,
    /// The stream is longer than the limit.
    TooLong,
    /// The MSMs and station messages of the stream are of these two stations, or more, and none was
    /// given.
    SeveralStations(u16, u16),
    /// No cell of the stream, which has these numbers, has a value.
    NoSignal(StreamCounts),
    /// No ephemeris of the stream says the week.
    NoWeek,
    /// The ephemerides of the stream say these two weeks, or more.
    SeveralWeeks(u32, u32),
    /// The ephemerides of the stream say this week, and not the one near the date.
    OtherWeek(WeekDate),
}

/// The numbers of a stream: an empty one, another format and a stream without MSMs differ in them.
#[derive(Clone, Copy, Debug, PartialEq, Eq)]
pub struct StreamCounts {
    /// Number of bytes.
    pub bytes: u64,
    /// Number of frames.
    pub frames: u64,
    /// Number of MSM4 to MSM7 that are decoded, of every system and station.
    pub msm: u64,
}

/// A GPS week and a date in it.
#[derive(Clone, Copy, Debug, PartialEq, Eq)]
pub struct WeekDate {
    /// The week, 0 to 99,999.
    pub week: u32,
    /// The year.
    pub year: u16,
    /// The month, 1 to 12.
    pub month: u8,
    /// The day of the month, 1 to 31.
    pub day: u8,
}

impl fmt::Display for InspectFault {
    fn fmt<W: fmt::Write>(&self, f: &mut fmt::Formatter<W>) -> fmt::Result {
        fmt::Debug::fmt(self, f)
    }
}

impl From<StreamFault<DeviceFailed>> for InspectFault {
    ghost from_gives = { λ stream fault. fault ≡ stream_fault stream };

    fn from(stream: StreamFault<DeviceFailed>) -> InspectFault {
        match stream {
            StreamFault::Read => InspectFault::Read,
            StreamFault::TooLong => InspectFault::TooLong,
            StreamFault::Sink(_) => InspectFault::Write,
        }
    }
}

/// Adds the name of a fault of a stream, with the numbers of the stations, weeks or stream, or the week
/// and the date, if any.
pub fn add_inspection_error(line: &mut OutputLine, fault: InspectFault)
    requires { length line.old ≤ longest_start }
    ensures { AddsWords line.old line.new (inspection_words fault) longest_error }
{
    match fault {
        InspectFault::Read => line.add_word("Read"),
        InspectFault::Write => line.add_word("Write"),
        InspectFault::Memory => line.add_word("Memory"),
        InspectFault::TooLong => line.add_word("TooLong"),
        InspectFault::SeveralStations(first, other) => {
            line.add_count("SeveralStations", u64::from(first));
            line.add_number(u64::from(other));
        }
        InspectFault::NoSignal(counts) => {
            line.add_word("NoSignal");
            line.add_count("bytes", counts.bytes);
            line.add_count("frames", counts.frames);
            line.add_count("msm", counts.msm);
        }
        InspectFault::NoWeek => line.add_word("NoWeek"),
        InspectFault::SeveralWeeks(first, other) => {
            line.add_count("SeveralWeeks", u64::from(first));
            line.add_number(u64::from(other));
        }
        InspectFault::OtherWeek(date) => {
            line.add_count("OtherWeek", u64::from(date.week));
            line.add_date(date.year, date.month, date.day);
        }
    }
}

/// Adds the name of a fault of the texts of the header, and that of the text.
pub fn add_header_error(line: &mut OutputLine, fault: HeadFault)
    requires { length line.old ≤ longest_start }
    ensures { AddsWords line.old line.new (header_words fault) longest_error }
{
    match fault {
        HeadFault::TooLong(field) => add_field(line, "TooLong", field),
        HeadFault::NotPrintable(field) => add_field(line, "NotPrintable", field),
        HeadFault::Write => line.add_word("Write"),
    }
}

/// Adds the name of a fault of the plan, with the letter of the system and the place of the code,
/// counted from 0.
pub fn add_plan_error(line: &mut OutputLine, fault: PlanFault)
    requires { length line.old ≤ longest_start }
    ensures { AddsWords line.old line.new (plan_words fault) longest_error }
{
    match fault {
        PlanFault::UnknownCode(system, place) => add_code(line, "UnknownCode", system, place),
        PlanFault::RepeatedCode(system, place) => add_code(line, "RepeatedCode", system, place),
        PlanFault::NothingPlanned => line.add_word("NothingPlanned"),
        PlanFault::BadWeek => line.add_word("BadWeek"),
        PlanFault::BadStation => line.add_word("BadStation"),
        PlanFault::Memory => line.add_word("Memory"),
    }
}

/// Adds a name and that of a text of the header.
fn add_field(line: &mut OutputLine, name: &str, field: HeaderField)
    requires { length line.old + length name.now ≤ longest_start + longest_fault_name }
    ensures { AddsWords line.old line.new (name.now ∷ field_name field ∷ []) (length name.now + longest_fault_place) }
{
    line.add_word(name);
    line.add_word(field.name());
}

/// Adds a name, the letter of a system and a place.
fn add_code(line: &mut OutputLine, name: &str, system: System, place: usize)
    requires { length line.old + length name.now ≤ longest_start + longest_fault_name }
    ensures { AddsWords line.old line.new (name.now ∷ (letter system ∷ []) ∷ decimal place ∷ [])
        (length name.now + longest_fault_place) }
{
    line.add_word(name);
    line.add_part(b' ', &[system.letter()]);
    line.add_number(place as u64);
}
