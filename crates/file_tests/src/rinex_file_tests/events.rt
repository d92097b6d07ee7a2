//! Events: written, read back, and refused in another place or with other values.
use super::parts::Part;
use super::reading::{Content, SMALL, have_faults, is_counted, is_read_back};
use super::{ALL, Takes, VALUES, has_written, is_outcome, length, writer};
use devices_for_tests::WriteEnd;
use rinex_file::{ReadFault, write_event};
use std::io::ErrorKind;

static FILE: [Part; 4] = [Part::Header, Part::Epoch, Part::Event, Part::Second];

static CONTENT: Content = Content {
    epochs: 2,
    satellites: 2,
    events: 1,
    ..SMALL
};

#[test]
fn a_file_with_an_event_is_read_and_written_back(rt: HostRuntime) {
    let alloc = rt.alloc();
    let is_read_back = is_read_back(alloc, &FILE, &CONTENT);
    assert!(rt; length(&FILE) == 1536 && is_read_back && is_counted(alloc, &FILE, &CONTENT));
}

/// The parts of files, and the fault of each file.
static CASES: [(&[Part], Option<ReadFault>); 9] = [
    (
        &[Part::Header, Part::Event, Part::Epoch, Part::Second],
        Some(ReadFault::BadEpoch(15)),
    ),
    (
        &[Part::Header, Part::Epoch, Part::Spaced, Part::Second],
        Some(ReadFault::BadEvent(18)),
    ),
    (
        &[Part::Header, Part::Epoch, Part::Same, Part::Second],
        Some(ReadFault::BadEvent(19)),
    ),
    (
        &[Part::Header, Part::Epoch, Part::Moved, Part::Second],
        None,
    ),
    (
        &[Part::Header, Part::Epoch, Part::Event],
        Some(ReadFault::CutShort(20)),
    ),
    (
        &[
            Part::Header,
            Part::Epoch,
            Part::Event,
            Part::Event,
            Part::Second,
        ],
        Some(ReadFault::BadEpoch(20)),
    ),
    (
        &[Part::Header, Part::Epoch, Part::Event, Part::Epoch],
        Some(ReadFault::BadEpoch(20)),
    ),
    (
        &[Part::Header, Part::Epoch, Part::EventLine, Part::Second],
        Some(ReadFault::BadEvent(18)),
    ),
    (
        &[Part::Header, Part::EpochLine, Part::Event],
        Some(ReadFault::BadSatellite(16)),
    ),
];

#[test]
fn an_event_in_the_wrong_place_or_of_the_same_values_is_refused(rt: HostRuntime) {
    assert!(rt; have_faults(rt.alloc(), &CASES));
}

/// Writers that accept a line in a write, and whether the event is written.
static SENDS: [(Takes, bool); 4] = [
    (ALL, true),
    (
        Takes {
            each: 81,
            all: 100,
            end: WriteEnd::Fails(ErrorKind::Other),
        },
        false,
    ),
    (
        Takes {
            each: 81,
            all: 36,
            end: WriteEnd::TakesNone,
        },
        false,
    ),
    (
        Takes {
            each: 81,
            all: 0,
            end: WriteEnd::TakesNone,
        },
        false,
    ),
];

/// Whether writing the event has this outcome, and the bytes are its first ones.
fn is_sent(takes: &Takes, is_good: bool) -> bool {
    let mut writer = writer(takes);
    let is_outcome = is_outcome(write_event(VALUES, &mut writer), is_good);
    let is_written = has_written(writer, &[Part::Event], takes);
    is_outcome && is_written
}

#[test]
fn an_event_is_written(rt: HostRuntime) {
    for (takes, is_good) in &SENDS {
        assert!(rt; is_sent(takes, *is_good));
    }
}
