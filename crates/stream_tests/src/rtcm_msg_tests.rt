//! What no clause states: encoded messages from outside, and that each call can succeed.

mod equipment;
mod forms;
mod glonass;
mod known;
mod prefixes;
mod texts;
mod values;
mod weeks;

use arrayvec::ArrayVec;
use gnss_system::System;
use known::{Known, bytes_of};
use rtcm_msg::{
    Cell, Entry, Form, Message, MsgFault, Msm, MsmHeader, MsmView, Satellite, StationParts, View,
    decode, encode, look,
};
use std::test::*;

/// The values of the message 1005.
pub const STATION_PARTS: StationParts = StationParts {
    station: 2003,
    realization: 0,
    gps: true,
    glonass: false,
    galileo: false,
    reference: false,
    x: 11_141_045_999,
    oscillator: false,
    y: -48_507_297_108,
    quarter: 0,
    z: 39_755_214_643,
    height: None,
};

/// The head of the messages 1074 and 1077.
pub const HEADER: MsmHeader = MsmHeader {
    station: 2003,
    time: 1000,
    more: false,
    iods: 0,
    steering: 0,
    clock: 0,
    smoothing: false,
    interval: 0,
};

static HEAD: MsmHeader = HEADER;

pub const SATELLITE: Satellite = Satellite {
    whole: 70,
    extended: 0,
    fraction: 0,
    rate: 100,
};

pub const CELL: Cell = Cell {
    range: 0,
    phase: 0,
    lock: 0,
    half_cycle: false,
    strength: 721,
    rate: 0,
};

/// The first bytes of a message, with some of them replaced.
struct Sent(Known, usize, &'static [(usize, u8)]);

const ALL: usize = 36;

impl Sent {
    fn bytes(&self) -> ArrayVec<u8, ALL> {
        let mut bytes = ArrayVec::new();
        let _ = bytes.try_extend_from_slice(bytes_of(self.0).get(..self.1).unwrap_or(&[]));
        for (place, byte) in self.2 {
            if let Some(room) = bytes.as_mut_slice().get_mut(*place) {
                *room = *byte;
            }
        }
        bytes
    }
}

/// Whether the message decoded from bytes is encoded as these bytes; false if it is of a number
/// that is not read.
fn is_written_as(bytes: &[u8], want: &[u8]) -> bool {
    let Ok(message) = decode(bytes) else {
        return false;
    };
    let mut out = ArrayVec::new();
    if !message.is_other() {
        encode(&message, &mut out);
    }
    out.as_slice() == want
}

pub fn is_written_back(bytes: &[u8]) -> bool {
    is_written_as(bytes, bytes)
}

static MESSAGES: [Known; 8] = [
    Known::Station,
    Known::Height,
    Known::Fine,
    Known::Coarse,
    Known::Galileo,
    Known::Msm5,
    Known::Msm6,
    Known::Empty,
];

#[test]
fn messages_are_written_back(rt: HostRuntime) {
    for message in &MESSAGES {
        assert!(rt; is_written_back(bytes_of(*message)));
    }
}

/// Whether a station message has these parts.
fn has_parts(bytes: &[u8], parts: &StationParts) -> bool {
    match &look(bytes) {
        Ok(View::Station(station)) => station.parts() == *parts,
        _ => false,
    }
}

static STATIONS: [(Sent, StationParts); 3] = [
    (Sent(Known::Station, 19, &[]), STATION_PARTS),
    (
        Sent(Known::Height, 21, &[]),
        StationParts {
            height: Some(15_000),
            ..STATION_PARTS
        },
    ),
    (Sent(Known::Station, 19, RESERVED), STATION_PARTS),
];

/// The reserved bit of message 1005 set.
const RESERVED: &[(usize, u8)] = &[(9, 0x74)];

fn have_parts() -> bool {
    for (sent, parts) in &STATIONS {
        if !has_parts(sent.bytes().as_slice(), parts) {
            return false;
        }
    }
    true
}

/// Whether the reserved bit is not written back.
fn is_written_without_reserved() -> bool {
    let sent = Sent(Known::Station, 19, RESERVED).bytes();
    is_written_as(sent.as_slice(), bytes_of(Known::Station))
}

#[test]
fn stations_are_read(rt: HostRuntime) {
    assert!(rt; have_parts() && is_written_without_reserved());
}

/// Whether the header and the masks are those of the known messages: satellite 5 and signal 2.
fn has_known_head(msm: &MsmView<'_>) -> bool {
    let masks = msm.masks();
    msm.header() == HEAD
        && masks.satellites() == 1 << 59
        && masks.signals() == 1 << 30
        && masks.cells() == 1
        && msm.satellites() == 1
        && msm.cells() == 1
}

/// Whether a multiple signal message has this form, this number and a known head, and is of this
/// system.
fn has_head(bytes: &[u8], form: Form, number: u16, system: System) -> bool {
    match look(bytes) {
        Ok(View::Msm(msm)) => {
            msm.form() == form
                && msm.number() == number
                && msm.system() == system
                && has_known_head(&msm)
        }
        _ => false,
    }
}

static HEADS: [(Sent, Form, u16, System); 5] = [
    (Sent(Known::Fine, 36, &[]), Form::Msm7, 1077, System::Gps),
    (
        Sent(Known::Fine, 36, &[(0, 0x44), (1, 0x97)]),
        Form::Msm7,
        1097,
        System::Galileo,
    ),
    (
        Sent(Known::Galileo, 30, &[]),
        Form::Msm4,
        1094,
        System::Galileo,
    ),
    (Sent(Known::Msm5, 34, &[]), Form::Msm5, 1075, System::Gps),
    (
        Sent(Known::Msm6, 32, &[]),
        Form::Msm6,
        1096,
        System::Galileo,
    ),
];

/// Whether a message is an MSM7 that has this number, the known header, and the known data of its
/// first satellite and cell, and is of this system.
fn is_known(msm: &Msm, number: u16, system: System) -> bool {
    msm.form() == Form::Msm7
        && msm.number() == number
        && msm.system() == system
        && msm.header() == HEAD
        && msm.satellites() > 0
        && msm.satellite(0) == SATELLITE
        && msm.cells() > 0
        && msm.cell(0) == CELL
}

fn have_data() -> bool {
    for (sent, _, number, system) in &HEADS[..2] {
        match &decode(sent.bytes().as_slice()) {
            Ok(Message::Msm(msm)) if is_known(msm, *number, *system) => {}
            _ => return false,
        }
    }
    true
}

#[test]
fn data_are_read(rt: HostRuntime) {
    assert!(rt; have_data());
}

fn have_heads() -> bool {
    for (sent, form, number, system) in &HEADS {
        if !has_head(sent.bytes().as_slice(), *form, *number, *system) {
            return false;
        }
    }
    true
}

/// Whether the field at bit 271 doesn't end within these bytes.
fn is_cut_short(sent: &Sent) -> bool {
    matches!(look(sent.bytes().as_slice()), Err(MsgFault::Short(271)))
}

#[test]
fn heads_are_read(rt: HostRuntime) {
    assert!(rt; have_heads() && is_cut_short(&Sent(Known::Fine, 35, &[])));
}

/// Whether a multiple signal message has this number, and this is its first cell.
fn has_first(bytes: &[u8], number: u16, entry: &Entry) -> bool {
    match look(bytes) {
        Ok(View::Msm(msm)) => msm.number() == number && msm.entries().next() == Some(*entry),
        _ => false,
    }
}

const FINE_ENTRY: Entry = Entry {
    satellite: 5,
    signal: 2,
    range: Some(150_323_855_360),
    phase: Some(150_323_855_360),
    rate: Some(1_000_000),
    strength: Some(721),
    lock: 0,
    half_cycle: false,
};

const COARSE_ENTRY: Entry = Entry {
    satellite: 5,
    signal: 2,
    range: Some(150_323_855_232),
    phase: Some(150_323_855_364),
    rate: None,
    strength: Some(720),
    lock: 15,
    half_cycle: true,
};

/// Messages with their numbers and cells.
static ENTRIES: [(Sent, u16, Entry); 8] = [
    (
        Sent(Known::Msm5, 34, &[]),
        1075,
        Entry {
            range: Some(152_469_241_728),
            phase: Some(152_469_241_860),
            rate: Some(-81_926_383),
            ..COARSE_ENTRY
        },
    ),
    (
        Sent(Known::Msm6, 32, &[]),
        1096,
        Entry {
            range: Some(150_323_855_364),
            phase: Some(150_323_855_359),
            rate: None,
            lock: 1023,
            ..FINE_ENTRY
        },
    ),
    (Sent(Known::Coarse, 30, &[]), 1074, COARSE_ENTRY),
    (Sent(Known::Galileo, 30, &[]), 1094, COARSE_ENTRY),
    (Sent(Known::Fine, 36, &[]), 1077, FINE_ENTRY),
    // DF405 = 1
    (
        Sent(Known::Fine, 36, &[(28, 0x40)]),
        1077,
        Entry {
            range: Some(150_323_855_364),
            ..FINE_ENTRY
        },
    ),
    // DF406 = 1
    (
        Sent(Known::Fine, 36, &[(31, 0x40)]),
        1077,
        Entry {
            phase: Some(150_323_855_361),
            ..FINE_ENTRY
        },
    ),
    // DF397 = 255
    (
        Sent(Known::Fine, 36, &[(21, 0x7F), (22, 0xC0)]),
        1077,
        Entry {
            range: None,
            phase: None,
            ..FINE_ENTRY
        },
    ),
];

fn have_first() -> bool {
    for (sent, number, entry) in &ENTRIES {
        if !has_first(sent.bytes().as_slice(), *number, entry) {
            return false;
        }
    }
    true
}

#[test]
fn cells_are_read(rt: HostRuntime) {
    assert!(rt; have_first());
}

static FAULTS: [(Sent, Option<MsgFault>); 11] = [
    (Sent(Known::Station, 18, &[]), Some(MsgFault::Short(114))),
    (Sent(Known::Fine, 35, &[]), Some(MsgFault::Short(271))),
    (Sent(Known::Station, 1, &[]), Some(MsgFault::Short(0))),
    // The time is validated when its field is complete, and not before.
    (Sent(Known::Late, 7, &[]), Some(MsgFault::BadTime)),
    (Sent(Known::Late, 6, &[]), Some(MsgFault::Short(24))),
    // 604,800,000 ms, and the last millisecond of the week
    (
        Sent(
            Known::Fine,
            36,
            &[(3, 0x90), (4, 0x32), (5, 0x10), (6, 0x00)],
        ),
        Some(MsgFault::BadTime),
    ),
    (
        Sent(
            Known::Fine,
            36,
            &[(3, 0x90), (4, 0x32), (5, 0x0F), (6, 0xFC)],
        ),
        None,
    ),
    // So are the pairs.
    (Sent(Known::Many, 22, &[]), Some(MsgFault::TooManyCells)),
    (Sent(Known::Many, 21, &[]), Some(MsgFault::Short(137))),
    (
        Sent(
            Known::Many,
            22,
            &[(3, 0x90), (4, 0x32), (5, 0x10), (6, 0x00)],
        ),
        Some(MsgFault::BadTime),
    ),
    // 8 satellites and 8 signals, with a truncated cell mask
    (
        Sent(Known::Many, 22, &[(10, 0x80)]),
        Some(MsgFault::Short(169)),
    ),
];

fn have_faults() -> bool {
    for (sent, fault) in &FAULTS {
        if decode(sent.bytes().as_slice()).err() != *fault {
            return false;
        }
    }
    true
}

#[test]
fn the_first_fault_counts(rt: HostRuntime) {
    assert!(rt; have_faults());
}

/// Whether this is a message that is not read, with this number, station and DF393.
fn is_other(bytes: &[u8], wanted: u16, of: Option<(u16, bool)>) -> bool {
    match decode(bytes) {
        Ok(Message::Other { number, set }) => number == wanted && set == of,
        _ => false,
    }
}

static OTHERS: [(&[u8], u16, Option<(u16, bool)>); 7] = [
    // 1123 of station 2003 with DF393 = 0, whole up to bit 55, and one byte less
    (
        &[0x46, 0x37, 0xD3, 0x00, 0x00, 0x0F, 0xA0],
        1123,
        Some((2003, false)),
    ),
    (&[0x46, 0x37, 0xD3, 0x00, 0x00, 0x0F], 1123, None),
    // 1073 with DF393 = 1; 1070, 1078 and 1230 are no MSMs, 1131 is one of a later system
    (
        &[0x43, 0x17, 0xD3, 0x00, 0x00, 0x0F, 0xA2],
        1073,
        Some((2003, true)),
    ),
    (&[0x42, 0xE7, 0xD3, 0x00, 0x00, 0x0F, 0xA0], 1070, None),
    (&[0x43, 0x67, 0xD3, 0x00, 0x00, 0x0F, 0xA0], 1078, None),
    (&[0x46, 0xB7, 0xD3, 0x00, 0x00, 0x0F, 0xA0], 1131, None),
    (&[0x4C, 0xE7, 0xD3, 0x00, 0x00, 0x0F, 0xA0], 1230, None),
];

#[test]
fn other_messages_keep_their_number(rt: HostRuntime) {
    for (message, number, set) in &OTHERS {
        assert!(rt; is_other(message, *number, *set));
    }
}
