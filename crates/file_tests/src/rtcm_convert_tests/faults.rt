//! The faults of a converter: setups, limits, writers and readers that fail.
use super::Frame;
use super::script::{Call, IDLE, OPTIONS, Options, Script, Way, all_hold};
use devices_for_tests::{ReadEnd, WriteEnd};
use obs_epoch::EpochCounts;
use rtcm_convert::Fault;
use rtcm_scan::MOST_BYTES;
use std::io::ErrorKind;
use streams_for_tests::have_texts;

/// A stream without an epoch, here an empty one.
const EMPTY: Script = Script {
    way: Way::Calls(&[
        Call::Feed(0, 0, Ok(())),
        Call::Finish(Err(Fault::NoEpoch)),
        Call::Finish(Err(Fault::Finished)),
        Call::Feed(0, 0, Err(Fault::Finished)),
    ]),
    ..IDLE
};

/// A limit, and at least one byte more.
const LIMITED: Script = Script {
    way: Way::Calls(&[
        Call::Feed(0, 43, Err(Fault::TooLong)),
        Call::Feed(0, 0, Err(Fault::Failed)),
        Call::Finish(Err(Fault::Failed)),
    ]),
    ..IDLE
};

/// A setup that is out of range.
const BAD: Script = Script {
    options: Options {
        limit: MOST_BYTES + 1,
        ..OPTIONS
    },
    fault: Some(Fault::BadSetup),
    ..IDLE
};

static STREAMS: [Script; 12] = [
    EMPTY,
    // Of a station message alone.
    Script {
        frames: &[Frame::Point],
        way: Way::Calls(&[
            Call::Feed(0, 25, Ok(())),
            Call::Finish(Err(Fault::NoEpoch)),
            Call::Looks(0, 44, 2),
            Call::Finish(Err(Fault::Finished)),
            Call::Feed(0, 25, Err(Fault::Finished)),
        ]),
        ..EMPTY
    },
    // Of a truncated frame.
    Script {
        way: Way::Calls(&[
            Call::Feed(0, 39, Ok(())),
            Call::Finish(Err(Fault::NoEpoch)),
            Call::Looks(0, 82, 3),
        ]),
        ..EMPTY
    },
    Script {
        way: Way::Calls(&[
            Call::Feed(0, 41, Ok(())),
            Call::Finish(Err(Fault::NoEpoch)),
            Call::Finish(Err(Fault::Finished)),
            Call::Run(Err(Fault::Finished)),
        ]),
        ..IDLE
    },
    Script {
        options: Options {
            limit: 10,
            ..OPTIONS
        },
        frames: &[],
        way: Way::Calls(&[
            Call::Feed(0, 11, Err(Fault::TooLong)),
            Call::Feed(0, 0, Err(Fault::Failed)),
            Call::Finish(Err(Fault::Failed)),
        ]),
        ..LIMITED
    },
    Script {
        options: Options {
            limit: 41,
            ..OPTIONS
        },
        ..LIMITED
    },
    Script {
        options: Options {
            limit: 42,
            ..OPTIONS
        },
        sent: 1_236,
        ..LIMITED
    },
    BAD,
    Script {
        options: Options {
            week: 100_000,
            ..OPTIONS
        },
        ..BAD
    },
    Script {
        options: Options {
            station: Some(4_096),
            ..OPTIONS
        },
        ..BAD
    },
    Script {
        way: Way::Stream(Err(Fault::BadSetup)),
        fault: None,
        ..BAD
    },
    Script {
        way: Way::Pieces(Err(Fault::BadSetup)),
        fault: None,
        ..BAD
    },
];

#[test]
fn streams_and_setups_that_are_refused(rt: HostRuntime) {
    assert!(rt; all_hold(rt.alloc(), &STREAMS));
}

/// A writer that fails within the file of the first message.
const WRITER: Script = Script {
    full: WriteEnd::Fails(ErrorKind::Interrupted),
    way: Way::Calls(&[
        Call::Feed(0, 42, Err(Fault::Write)),
        Call::Feed(0, 42, Err(Fault::Failed)),
    ]),
    failures: (0, 1),
    room: 0,
    ..IDLE
};

/// A reader that fails within the first message or after it.
const READER: Script = Script {
    then: ReadEnd::Fails(ErrorKind::Other),
    way: Way::Calls(&[
        Call::Run(Err(Fault::Read)),
        Call::Run(Err(Fault::Failed)),
        Call::Feed(0, 42, Err(Fault::Failed)),
    ]),
    failures: (1, 0),
    asked: (1_029, 1_029),
    ..IDLE
};

static DEVICES: [Script; 10] = [
    WRITER,
    Script {
        room: 100,
        sent: 100,
        ..WRITER
    },
    Script {
        room: 1_235,
        sent: 1_235,
        ..WRITER
    },
    Script {
        full: WriteEnd::TakesNone,
        ..WRITER
    },
    Script {
        room: 100,
        full: WriteEnd::TakesNone,
        sent: 100,
        ..WRITER
    },
    Script {
        room: 1_235,
        full: WriteEnd::TakesNone,
        sent: 1_235,
        ..WRITER
    },
    READER,
    Script {
        given: 20,
        asked: (1_009, 1_029),
        ..READER
    },
    Script {
        given: 41,
        asked: (988, 1_029),
        ..READER
    },
    Script {
        given: 42,
        sent: 1_236,
        ..READER
    },
];

#[test]
fn devices_that_fail(rt: HostRuntime) {
    assert!(rt; all_hold(rt.alloc(), &DEVICES));
}

/// The numbers of no epochs.
const NONE: EpochCounts = EpochCounts {
    epochs: 0,
    window: 0,
    grid: 0,
};

static TEXTS: [(Fault, &str); 9] = [
    (Fault::Memory, "Memory"),
    (Fault::BadSetup, "BadSetup"),
    (Fault::TooLong, "TooLong"),
    (Fault::Read, "Read"),
    (Fault::Write, "Write"),
    (Fault::Failed, "Failed"),
    (Fault::Finished, "Finished"),
    (Fault::NoEpoch, "NoEpoch"),
    (Fault::NoneChosen(NONE), "NoneChosen"),
];

#[test]
fn texts_of_faults(rt: HostRuntime) {
    assert!(rt; have_texts(rt.alloc(), &TEXTS));
}
