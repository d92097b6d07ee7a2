//! Devices that fail.
use super::broken::Failing::{Device, Faults, Flush, Reader, Sent, Stop, Writer};
use super::broken::{Failure, assert_reported};
use super::check::CHECK;
use super::convert::OPTIONS;
use super::frames::{FRAMES, SHOW, SHOWN};
use super::messages::{FINE, FRAMED_STATION, HEIGHT, LATE_FRAME};
use super::quality::{EVERY, FIRST_PERIOD, PERIODS, QUALITY, RATED, TWO_EPOCHS};
use super::scenario::Expected::{Fault, Good};
use super::scenario::{Case, FAULTLESS, READ, Room, Setting, WRITE, assert_come};
use super::signals::SIGNALS;
use super::texts::ExpectedLine::{Above, NextTime, NextValues, Position, Time, TwoLines, Values};
use super::texts::Piece::{Fine, Framed, Front};
use super::texts::Text::{Bytes, File, Lines, Stream};
use super::texts::{FINE_FILE, REPORT, Text};
use devices_for_tests::{ReadEnd, WriteEnd};
use std::io::ErrorKind;

/// The frame of `FINE`.
const ONE_FRAME: Text = Stream(&[Fine(&[])]);

/// The first preamble can still begin a frame, so that nothing is decided.
static CUT_OFF: [Case; 2] = [
    (
        &FRAMES,
        Stream(&[Front(&LATE_FRAME, 3)]),
        Fault(Lines(""), READ),
    ),
    (
        &SHOW,
        Stream(&[Front(&LATE_FRAME, 3)]),
        Fault(Lines(""), READ),
    ),
];

/// A stream in pieces of five bytes, after which the reader fails.
static CUT: Setting = Setting {
    sizes: &[&[5]],
    end: ReadEnd::Fails(ErrorKind::Other),
    ..FAULTLESS
};

#[test]
fn a_failed_read_is_reported(rt: HostRuntime) {
    assert_come(&rt, rt.alloc(), &CUT, &CUT_OFF);
}

static TWO_BYTES_WRITTEN: [Case; 2] = [
    (&FRAMES, Bytes(&FRAMED_STATION), Fault(Lines("0 "), WRITE)),
    (&SHOW, Bytes(&FRAMED_STATION), Fault(Lines("0 "), WRITE)),
];

#[test]
fn a_failed_write_is_reported(rt: HostRuntime) {
    for end in [
        WriteEnd::Fails(ErrorKind::Interrupted),
        WriteEnd::TakesNone,
        WriteEnd::FailsOnce(ErrorKind::Other),
    ] {
        let setting = Setting {
            room: Room {
                most: 1,
                total: 2,
                end,
            },
            ..FAULTLESS
        };
        assert_come(&rt, rt.alloc(), &setting, &TWO_BYTES_WRITTEN);
    }
}

/// A stream with an event, and its file.
const WITH_EVENT: Text = Stream(&[Fine(&[]), Framed(&HEIGHT), Fine(&[(5, 0x1F), (6, 0x40)])]);

const EVENT_FILE: Text = File(
    &[],
    &[
        Time, Values, TwoLines, Position, Above, NextTime, NextValues,
    ],
);

static WRITTEN: [Failure; 4] = [
    (&OPTIONS, ONE_FRAME, FINE_FILE, Writer(50)),
    (&OPTIONS, WITH_EVENT, EVENT_FILE, Writer(1000)),
    (&SIGNALS, ONE_FRAME, Lines("G 1C 1\n"), Writer(3)),
    (&CHECK, FINE_FILE, COUNTS, Writer(4)),
];

/// The line of `FINE_FILE`.
const COUNTS: Text = Lines("epochs 1 satellites 1 events 0\n");

// The bytes that a device accepted before it failed are a prefix of the whole output.
#[test]
fn a_writer_may_fail_after_each_byte(rt: HostRuntime) {
    assert_reported(&rt, rt.alloc(), &WRITTEN);
}

/// The largest numbers of bytes of a write and of all writes, and a case with such an output.
static FILLED: [(usize, usize, Case); 2] = [
    (1, 1236, (&OPTIONS, ONE_FRAME, Good(FINE_FILE, REPORT))),
    (3, 7, (&SIGNALS, ONE_FRAME, Good(Lines("G 1C 1\n"), ""))),
];

// The device would fail after the last byte of the output.
#[test]
fn a_writer_may_take_few_bytes(rt: HostRuntime) {
    for (most, total, case) in &FILLED {
        let setting = Setting {
            room: Room {
                most: *most,
                total: *total,
                end: WriteEnd::Fails(ErrorKind::Other),
            },
            ..FAULTLESS
        };
        assert_come(&rt, rt.alloc(), &setting, &[*case]);
    }
}

static READS: [Failure; 3] = [
    (&OPTIONS, ONE_FRAME, FINE_FILE, Reader),
    (&SIGNALS, ONE_FRAME, Lines(""), Reader),
    (&CHECK, FINE_FILE, Lines(""), Reader),
];

// The file of the epochs that the bytes before close is written: of one message after its last
// byte.
#[test]
fn a_reader_may_fail_after_each_byte(rt: HostRuntime) {
    assert_reported(&rt, rt.alloc(), &READS);
}

static FLUSHED: [Failure; 7] = [
    (&FRAMES, ONE_FRAME, Lines("0 "), Device),
    (&SHOW, ONE_FRAME, Lines("0 "), Device),
    (&OPTIONS, ONE_FRAME, Lines("  "), Device),
    (&SIGNALS, ONE_FRAME, Lines("G "), Device),
    (&CHECK, FINE_FILE, Lines("ep"), Device),
    (&QUALITY, FINE_FILE, Lines("ep"), Device),
    (&EVERY, TWO_EPOCHS, Lines("20"), Device),
];

// A buffer accepts every line, and its device fails when they are written.
#[test]
fn a_failed_flush_is_reported(rt: HostRuntime) {
    assert_reported(&rt, rt.alloc(), &FLUSHED);
}

static UNFLUSHED: [Failure; 6] = [
    (&FRAMES, ONE_FRAME, LISTED_FINE, Flush),
    (&SHOW, ONE_FRAME, SHOWN_FINE, Flush),
    (&OPTIONS, ONE_FRAME, FINE_FILE, Flush),
    (&SIGNALS, ONE_FRAME, Lines("G 1C 1\n"), Flush),
    (&CHECK, FINE_FILE, COUNTS, Flush),
    (&EVERY, FINE_FILE, FIRST_PERIOD, Flush),
];

// A writer accepts the output, and fails when it is flushed.
#[test]
fn a_failed_flush_after_the_output_is_reported(rt: HostRuntime) {
    assert_reported(&rt, rt.alloc(), &UNFLUSHED);
}

static SENT: [Failure; 3] = [
    (&FRAMES, Bytes(&FRAMED_STATION), Lines("0 19 1005\n"), Sent),
    (&SHOW, Bytes(&FRAMED_STATION), SHOWN, Sent),
    (&OPTIONS, ONE_FRAME, FINE_FILE, Sent),
];

// Decided output is flushed before the next read.
#[test]
fn decided_output_is_flushed(rt: HostRuntime) {
    assert_reported(&rt, rt.alloc(), &SENT);
}

const FAILS: ReadEnd = ReadEnd::Fails(ErrorKind::Interrupted);

static STOPPED: [Failure; 14] = [
    (&FRAMES, ONE_FRAME, LISTED_FINE, Stop(FAILS, 1, READ)),
    (&FRAMES, ONE_FRAME, LISTED_FINE, Stop(ReadEnd::Ends, 0, "")),
    (&SHOW, ONE_FRAME, SHOWN_FINE, Stop(FAILS, 1, READ)),
    (&SHOW, ONE_FRAME, SHOWN_FINE, Stop(ReadEnd::Ends, 0, "")),
    (&SIGNALS, ONE_FRAME, Lines(""), Stop(FAILS, 1, READ)),
    (
        &SIGNALS,
        ONE_FRAME,
        Lines("G 1C 1\n"),
        Stop(ReadEnd::Ends, 0, ""),
    ),
    (&OPTIONS, ONE_FRAME, FINE_FILE, Stop(FAILS, 1, READ)),
    (
        &OPTIONS,
        ONE_FRAME,
        FINE_FILE,
        Stop(ReadEnd::Ends, 0, REPORT),
    ),
    (&CHECK, FINE_FILE, Lines(""), Stop(FAILS, 1, READ)),
    (&CHECK, FINE_FILE, COUNTS, Stop(ReadEnd::Ends, 0, "")),
    (&QUALITY, FINE_FILE, Lines(""), Stop(FAILS, 1, READ)),
    (&QUALITY, FINE_FILE, RATED, Stop(ReadEnd::Ends, 0, "")),
    (&EVERY, TWO_EPOCHS, FIRST_PERIOD, Stop(FAILS, 1, READ)),
    (&EVERY, TWO_EPOCHS, PERIODS, Stop(ReadEnd::Ends, 0, "")),
];

/// The lines of `FINE`.
const LISTED_FINE: Text = Lines("0 36 1077\n");

const SHOWN_FINE: Text = Lines("0 1077 2003 1000 0 1 1 1\n");

// The reader has the same piece again after it failed once, and after it ended.
#[test]
fn nothing_is_read_after_a_failure_or_the_end(rt: HostRuntime) {
    assert_reported(&rt, rt.alloc(), &STOPPED);
}

static UNREPORTED: [Failure; 3] = [
    (
        &FRAMES,
        Bytes(&[]),
        Lines(""),
        Faults(ReadEnd::Fails(ErrorKind::Other), 1),
    ),
    (
        &["rtcm2rinex", "fames"],
        Bytes(&[]),
        Lines(""),
        Faults(ReadEnd::Ends, 2),
    ),
    (&OPTIONS, ONE_FRAME, FINE_FILE, Faults(ReadEnd::Ends, 0)),
];

// A failure of the writer for faults changes no status.
#[test]
fn a_fault_writer_may_fail(rt: HostRuntime) {
    assert_reported(&rt, rt.alloc(), &UNREPORTED);
}
