//! Parts of messages: their faults, a known message, and the cells of a view in order.
use super::forms::write;
use super::known::{Known, bytes_of};
use super::{CELL, HEADER, SATELLITE, STATION_PARTS};
use arrayvec::ArrayVec;
use gnss_system::System;
use rtcm_msg::{
    Cell, Field, Form, INVALID_FINE_RATE, INVALID_ROUGH_RATE, Masks, Msm, MsmHeader, Satellite,
    Station, StationParts, ValueFault, View, look,
};
use std::test::*;

static PARTS: [(StationParts, Option<ValueFault>); 4] = [
    (STATION_PARTS, None),
    (
        StationParts {
            station: 4096,
            x: 1 << 37,
            ..STATION_PARTS
        },
        Some(ValueFault::OutOfRange(Field::Station)),
    ),
    (
        StationParts {
            x: 1 << 37,
            ..STATION_PARTS
        },
        Some(ValueFault::OutOfRange(Field::X)),
    ),
    (
        StationParts {
            x: -(1 << 37),
            ..STATION_PARTS
        },
        None,
    ),
];

#[test]
fn stations_are_judged(rt: HostRuntime) {
    for (parts, fault) in &PARTS {
        assert!(rt; Station::new(*parts).err() == *fault);
    }
}

static MASKS: [(u64, u32, u64, Option<ValueFault>); 4] = [
    // satellite 5 and signal 2
    (
        1 << 59,
        1 << 30,
        2,
        Some(ValueFault::OutOfRange(Field::Cells)),
    ),
    (0x1FF, 0xFF, 0, Some(ValueFault::TooManyCells)),
    (0xFF, 0xFF, u64::MAX, None),
    (1 << 59, 1 << 30, 1, None),
];

#[test]
fn masks_are_judged(rt: HostRuntime) {
    for (satellites, signals, cells, fault) in &MASKS {
        assert!(rt; Masks::new(*satellites, *signals, *cells).err() == *fault);
    }
}

/// The fault of these parts of a message whose masks have one satellite and one cell.
pub fn msm_fault(
    form: Form,
    time: u32,
    satellites: &[Satellite],
    cells: &[Cell],
) -> Option<ValueFault> {
    let header = MsmHeader { time, ..HEADER };
    // satellite 5 and signal 2
    match Masks::new(1 << 59, 1 << 30, 1) {
        Ok(masks) => Msm::new(form, System::Gps, header, masks, satellites, cells).err(),
        Err(_) => None,
    }
}

static WIDE: Cell = Cell {
    range: 0,
    phase: 1 << 23,
    lock: 0,
    half_cycle: false,
    strength: 721,
    rate: 0,
};

/// Data of MSM4, which all forms have.
pub const COARSE_SATELLITE: Satellite = Satellite {
    whole: 70,
    extended: 0,
    fraction: 1023,
    rate: INVALID_ROUGH_RATE,
};

pub const COARSE_CELL: Cell = Cell {
    range: -1,
    phase: 1,
    lock: 15,
    half_cycle: true,
    strength: 45,
    rate: INVALID_FINE_RATE,
};

/// Whether the fault is this one, of an MSM7 with the data of one satellite.
fn has_fault(time: u32, cells: &[Cell], fault: ValueFault) -> bool {
    msm_fault(Form::Msm7, time, &[SATELLITE], cells) == Some(fault)
}

#[test]
fn parts_are_judged(rt: HostRuntime) {
    let far = Satellite {
        fraction: 1024,
        ..COARSE_SATELLITE
    };
    let long = Cell {
        lock: 16,
        ..COARSE_CELL
    };
    let coarse = msm_fault(Form::Msm4, 1000, &[far], &[long]);
    assert!(rt;
        has_fault(604_800_000, &[], ValueFault::BadTime)
            && has_fault(1000, &[], ValueFault::CellCount)
            && has_fault(1000, &[WIDE], ValueFault::OutOfRange(Field::FinePhase))
            && coarse == Some(ValueFault::OutOfRange(Field::RangeFraction))
    );
}

/// Writes the message 1077 of these masks, and of up to three satellites and cells.
fn write_1077(
    masks: (u64, u32, u64),
    satellites: usize,
    cells: usize,
    bytes: &mut ArrayVec<u8, 1023>,
) {
    let (satellites, cells) = (&SATELLITES[..satellites.min(3)], &CELL_DATA[..cells.min(3)]);
    write(System::Gps, Form::Msm7, masks, satellites, cells, bytes);
}

static SATELLITES: [Satellite; 3] = [SATELLITE; 3];

static CELL_DATA: [Cell; 3] = [CELL; 3];

/// Whether the message of satellite 5 and signal 2 is written as known.
fn is_known() -> bool {
    let mut bytes = ArrayVec::new();
    let masks = (1 << 59, 1 << 30, 1);
    write_1077(masks, 1, 1, &mut bytes);
    bytes.as_slice() == bytes_of(Known::Fine)
}

#[test]
fn values_are_written(rt: HostRuntime) {
    assert!(rt; is_known());
}

/// Whether the cells of a message 1077 that is read are of these satellites and signals.
fn has_cells(bytes: &[u8], cells: &[(u8, u8)]) -> bool {
    let Ok(View::Msm(msm)) = look(bytes) else {
        return false;
    };
    let mut entries = msm.entries();
    for (satellite, signal) in cells {
        match entries.next() {
            Some(entry) if entry.satellite == *satellite && entry.signal == *signal => {}
            _ => return false,
        }
    }
    msm.number() == 1077 && entries.next().is_none()
}

/// Satellites 1 and 64, signals 2 and 32: the first with 32, the second with both.
static CELLS: [(u8, u8); 3] = [(1, 32), (64, 2), (64, 32)];

fn are_in_order() -> bool {
    let mut bytes = ArrayVec::new();
    let masks = (1 << 63 | 1, 1 << 30 | 1, 0b0111);
    write_1077(masks, 2, 3, &mut bytes);
    has_cells(bytes.as_slice(), &CELLS)
}

#[test]
fn cells_are_in_order(rt: HostRuntime) {
    assert!(rt; are_in_order());
}
