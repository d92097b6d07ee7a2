//! What no clause states: a worked stream and its file, that each call can succeed, and the output
//! if a device fails.
mod by_definition;
mod faults;
mod forms;
mod hostile;
mod script;
mod waiting;

use rtcm_convert::{Fault, Report};
use script::{Call, IDLE, Script, Way, all_hold};

/// The frame of message 1077 of station 2003, one second into the week, the last of its time:
/// satellite 5, signal 1C.
const FULL: &[u8; 42] = &[
    0xD3, 0x00, 0x24, 0x43, 0x57, 0xD3, 0x00, 0x00, 0x0F, 0xA0, 0x00, 0x00, 0x04, 0x00, 0x00, 0x00,
    0x00, 0x00, 0x00, 0x00, 0x20, 0x00, 0x00, 0x00, 0x51, 0x80, 0x00, 0x01, 0x90, 0x00, 0x00, 0x00,
    0x00, 0x00, 0x00, 0x05, 0xA2, 0x00, 0x00, 0x04, 0x96, 0xD0,
];

/// The same one second later.
const NEXT: &[u8; 42] = &[
    0xD3, 0x00, 0x24, 0x43, 0x57, 0xD3, 0x00, 0x00, 0x1F, 0x40, 0x00, 0x00, 0x04, 0x00, 0x00, 0x00,
    0x00, 0x00, 0x00, 0x00, 0x20, 0x00, 0x00, 0x00, 0x51, 0x80, 0x00, 0x01, 0x90, 0x00, 0x00, 0x00,
    0x00, 0x00, 0x00, 0x05, 0xA2, 0x00, 0x00, 0x8A, 0xA9, 0x07,
];

/// The frame of message 1005 of that station.
const POINT: &[u8; 25] = &[
    0xD3, 0x00, 0x13, 0x3E, 0xD7, 0xD3, 0x02, 0x02, 0x98, 0x0E, 0xDE, 0xEF, 0x34, 0xB4, 0xBD, 0x62,
    0xAC, 0x09, 0x41, 0x98, 0x6F, 0x33, 0x36, 0x0B, 0x98,
];

/// The start of a frame that claims 1,029 bytes.
const CLAIM: &[u8; 3] = &[0xD3, 0x03, 0xFF];

/// A frame of a stream.
#[derive(Clone, Copy)]
enum Frame {
    Full,
    Next,
    Point,
    Claim,
}

// Bytes are named in one place, since each that names them carries them.

fn bytes_of(frame: Frame) -> &'static [u8] {
    match frame {
        Frame::Full => FULL,
        Frame::Next => NEXT,
        Frame::Point => POINT,
        Frame::Claim => CLAIM,
    }
}

/// The file of the two full messages, of signal 1C alone.
fn file() -> &'static [u8] {
    FILE.as_bytes()
}

static FILE: &str =
    "\x20    3.05           OBSERVATION DATA    G                   RINEX VERSION / TYPE\n\
rtcm2rinex                              20240204 000001 UTC PGM / RUN BY / DATE \n\
\x20                                                           MARKER NAME         \n\
GEODETIC                                                    MARKER TYPE         \n\
\x20                                                           OBSERVER / AGENCY   \n\
\x20                                                           REC # / TYPE / VERS \n\
\x20                                                           ANT # / TYPE        \n\
\x20       0.0000        0.0000        0.0000                  APPROX POSITION XYZ \n\
\x20       0.0000        0.0000        0.0000                  ANTENNA: DELTA H/E/N\n\
G    4 C1C L1C D1C S1C                                      SYS / # / OBS TYPES \n\
DBHZ                                                        SIGNAL STRENGTH UNIT\n\
\x20 2024     2     4     0     0    1.0000000     GPS         TIME OF FIRST OBS   \n\
G                                                           SYS / PHASE SHIFT   \n\
\x20                                                           END OF HEADER       \n\
> 2024 02 04 00 00  1.0000000  0  1\n\
G05  20985472.060 7 110279400.000 7      -525.504          45.063\n\
> 2024 02 04 00 00  2.0000000  0  1\n\
G05  20985472.060 7 110279400.00017      -525.504          45.063\n";

/// The report of the first message.
const ONE: Report = Report {
    bytes: 42,
    skipped_bytes: 0,
    frames: 1,
    faulty: 0,
    station: 0,
    other: 0,
    ignored: 0,
    late: 0,
    past: 0,
    taken: 1,
    skipped: 0,
    repeated: 0,
    crowded: 0,
    without_channel: 0,
    epochs: 1,
};

/// The report of both.
const TWO: Report = Report {
    bytes: 84,
    frames: 2,
    taken: 2,
    epochs: 2,
    ..ONE
};

/// The report of the first message and of 24 bytes in no frame.
const AFTER_24_BYTES: Report = Report {
    bytes: 66,
    skipped_bytes: 24,
    ..ONE
};

static FILES: [Script; 7] = [
    Script {
        frames: &[Frame::Full, Frame::Next],
        way: Way::Calls(&[
            Call::Feed(0, 84, Ok(())),
            Call::Finish(Ok(TWO)),
            Call::Looks(0, 156, 2),
        ]),
        sent: 1_338,
        ..IDLE
    },
    Script {
        frames: &[Frame::Full, Frame::Next],
        given: 84,
        way: Way::Calls(&[Call::Run(Ok(TWO)), Call::Looks(0, 156, 2)]),
        asked: (1_029, 1_029),
        sent: 1_338,
        ..IDLE
    },
    Script {
        given: 42,
        way: Way::Stream(Ok(ONE)),
        asked: (1_029, 1_029),
        sent: 1_236,
        ..IDLE
    },
    Script {
        given: 42,
        way: Way::Pieces(Ok(ONE)),
        sent: 1_236,
        ..IDLE
    },
    // An epoch is written when it is closed.
    Script {
        way: Way::Calls(&[
            Call::Feed(0, 41, Ok(())),
            Call::Looks(41, 41, 1),
            Call::Kept(0, 0, 0),
            Call::Feed(41, 42, Ok(())),
            Call::Looks(0, 78, 2),
            Call::Kept(1, 0, 1),
        ]),
        sent: 1_236,
        ..IDLE
    },
    // A truncated frame after the first one changes nothing of the file.
    Script {
        frames: &[Frame::Full, Frame::Point],
        way: Way::Calls(&[
            Call::Feed(0, 66, Ok(())),
            Call::Finish(Ok(AFTER_24_BYTES)),
            Call::Looks(0, 143, 3),
        ]),
        sent: 1_236,
        ..IDLE
    },
    // Of a frame that claims 1,029 bytes, no more is read than there is room for.
    Script {
        frames: &[Frame::Claim],
        given: 1_000,
        way: Way::Calls(&[Call::Run(Err(Fault::NoEpoch))]),
        asked: (29, 1_029),
        ..IDLE
    },
];

#[test]
fn files_in_any_pieces(rt: HostRuntime) {
    assert!(rt; all_hold(rt.alloc(), &FILES));
}
