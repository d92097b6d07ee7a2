//! The four forms of MSMs: their fields, the limits of these, the largest messages, and sets of MSMs.
use super::known::{Known, bytes_of};
use super::values::{COARSE_CELL, COARSE_SATELLITE, msm_fault};
use super::{HEADER, is_written_back};
use arrayvec::ArrayVec;
use gnss_system::System;
use rtcm_msg::{
    Cell, Entry, Field, Form, Forms, INVALID_FINE_RATE, INVALID_ROUGH_RATE, Masks, Message, Msm,
    MsmSet, Satellite, ValueFault, View, decode, encode, look, look_in,
};
use std::test::*;

/// Whether a form refuses the field of one satellite and one cell, if it does.
fn refuses(form: Form, satellite: Satellite, cell: Cell, field: Field, refused: bool) -> bool {
    let want = if refused {
        Some(ValueFault::OutOfRange(field))
    } else {
        None
    };
    msm_fault(form, 1000, &[satellite], &[cell]) == want
}

/// Whether a form refuses exactly the fields that it lacks, or that are wider in another one.
fn has_fields(form: Form, fine: bool, rates: bool) -> bool {
    let (satellite, cell) = (COARSE_SATELLITE, COARSE_CELL);
    let range = Cell {
        range: 1 << 14,
        ..cell
    };
    let phase = Cell {
        phase: 1 << 21,
        ..cell
    };
    let lock = Cell { lock: 16, ..cell };
    let strength = Cell {
        strength: 64,
        ..cell
    };
    let rate = Cell { rate: 0, ..cell };
    let extended = Satellite {
        extended: 1,
        ..satellite
    };
    let rough = Satellite {
        rate: 0,
        ..satellite
    };
    refuses(form, satellite, cell, Field::Lock, false)
        && refuses(form, satellite, range, Field::FineRange, !fine)
        && refuses(form, satellite, phase, Field::FinePhase, !fine)
        && refuses(form, satellite, lock, Field::Lock, !fine)
        && refuses(form, satellite, strength, Field::Strength, !fine)
        && refuses(form, satellite, rate, Field::FineRate, !rates)
        && refuses(form, extended, cell, Field::Extended, !rates)
        && refuses(form, rough, cell, Field::RoughRate, !rates)
}

#[test]
fn a_form_has_its_fields(rt: HostRuntime) {
    assert!(rt; has_fields(Form::Msm4, false, false) && has_fields(Form::Msm5, false, true));
    assert!(rt; has_fields(Form::Msm6, true, false) && has_fields(Form::Msm7, true, true));
}

/// Writes a message of a system and a form of these masks and data.
pub fn write(
    system: System,
    form: Form,
    masks: (u64, u32, u64),
    satellites: &[Satellite],
    cells: &[Cell],
    bytes: &mut ArrayVec<u8, 1023>,
) {
    let Ok(masks) = Masks::new(masks.0, masks.1, masks.2) else {
        return;
    };
    if let Ok(msm) = Msm::new(form, system, HEADER, masks, satellites, cells) {
        encode(&Message::Msm(msm), bytes);
    }
}

/// The sizes of the messages of 64 satellites with one signal.
static LARGEST: [(Form, usize); 4] = [
    (Form::Msm4, 558),
    (Form::Msm5, 822),
    (Form::Msm6, 694),
    (Form::Msm7, 958),
];

/// Whether the message of 64 satellites and this number of cells has its size, and is written back.
fn has_size(form: Form, cells: usize, size: usize) -> bool {
    let mask = if cells > 0 { u64::MAX } else { 0 };
    let data = [COARSE_CELL; 64];
    let mut bytes = ArrayVec::new();
    let masks = (u64::MAX, 1 << 30, mask);
    write(
        System::Galileo,
        form,
        masks,
        &[COARSE_SATELLITE; 64],
        &data[..cells % 65],
        &mut bytes,
    );
    bytes.len() == size && is_written_back(bytes.as_slice())
}

/// The same without satellites.
fn is_empty(form: Form) -> bool {
    let mut bytes = ArrayVec::new();
    write(System::Galileo, form, (0, 0, 0), &[], &[], &mut bytes);
    bytes.len() == 22 && is_written_back(bytes.as_slice())
}

#[test]
fn messages_have_up_to_64_cells(rt: HostRuntime) {
    for (form, size) in &LARGEST {
        assert!(rt; has_size(*form, 64, *size) && is_empty(*form));
        // 30 bytes of head, with the cell mask, and the satellites
        let satellites = if form.has_rates() { 36 * 8 } else { 18 * 8 };
        assert!(rt; has_size(*form, 0, 30 + satellites));
    }
}

// The data of satellites and cells with rates: the greatest values, the least valid ones, and the
// invalid ones.
static SATELLITES: [Satellite; 3] = [
    Satellite {
        whole: 254,
        extended: 15,
        fraction: 1023,
        rate: 8191,
    },
    Satellite {
        whole: 0,
        extended: 0,
        fraction: 0,
        rate: -8191,
    },
    Satellite {
        whole: 70,
        extended: 0,
        fraction: 0,
        rate: INVALID_ROUGH_RATE,
    },
];

static COARSE_CELLS: [Cell; 3] = [
    Cell {
        range: 16_383,
        phase: 2_097_151,
        lock: 15,
        half_cycle: true,
        strength: 63,
        rate: 16_383,
    },
    Cell {
        range: -16_383,
        phase: -2_097_151,
        lock: 0,
        half_cycle: false,
        strength: 1,
        rate: -16_383,
    },
    Cell {
        range: -16_384,
        phase: -2_097_152,
        lock: 0,
        half_cycle: false,
        strength: 0,
        rate: INVALID_FINE_RATE,
    },
];

static FINE_CELLS: [Cell; 3] = [
    Cell {
        range: 524_287,
        phase: 8_388_607,
        lock: 1023,
        half_cycle: true,
        strength: 1023,
        rate: 16_383,
    },
    Cell {
        range: -524_287,
        phase: -8_388_607,
        lock: 0,
        half_cycle: false,
        strength: 1,
        rate: -16_383,
    },
    Cell {
        range: -524_288,
        phase: -8_388_608,
        lock: 0,
        half_cycle: false,
        strength: 0,
        rate: INVALID_FINE_RATE,
    },
];

/// The data of a satellite and a cell in a form, which may lack the rates and the extended
/// information.
fn of_form(form: Form, satellite: Satellite, cell: Cell) -> (Satellite, Cell) {
    if form.has_rates() {
        return (satellite, cell);
    }
    let satellite = Satellite {
        extended: 0,
        rate: INVALID_ROUGH_RATE,
        ..satellite
    };
    let cell = Cell {
        rate: INVALID_FINE_RATE,
        ..cell
    };
    (satellite, cell)
}

/// The greatest values of a form, the least valid ones, and the invalid ones.
fn limits(form: Form) -> [(Satellite, Cell); 3] {
    let cells = if form.is_fine() {
        &FINE_CELLS
    } else {
        &COARSE_CELLS
    };
    [
        of_form(form, SATELLITES[0], cells[0]),
        of_form(form, SATELLITES[1], cells[1]),
        of_form(form, SATELLITES[2], cells[2]),
    ]
}

/// Whether the message of satellite 5 and signal 2 with these data is read as this entry.
fn is_read(form: Form, data: &(Satellite, Cell), want: &Entry) -> bool {
    let mut bytes = ArrayVec::new();
    write(
        System::Galileo,
        form,
        (1 << 59, 1 << 30, 1),
        &[data.0],
        &[data.1],
        &mut bytes,
    );
    let first = match look(bytes.as_slice()) {
        Ok(View::Msm(msm)) if msm.form() == form => msm.entries().next(),
        _ => None,
    };
    first == Some(*want) && is_written_back(bytes.as_slice())
}

const NOTHING: Entry = Entry {
    satellite: 5,
    signal: 2,
    range: None,
    phase: None,
    rate: None,
    strength: None,
    lock: 0,
    half_cycle: false,
};

// In 2^-31 ms: 254 and 1023/1024 ms, and the greatest fine range and phase of MSM4 and of MSM6.
const MOST: i64 = 255 * (1 << 31) - (1 << 21);

static COARSE: [Entry; 2] = [
    Entry {
        range: Some(MOST + 16_383 * 128),
        phase: Some(MOST + 2_097_151 * 4),
        strength: Some(63 * 16),
        lock: 15,
        half_cycle: true,
        ..NOTHING
    },
    Entry {
        range: Some(-16_383 * 128),
        phase: Some(-2_097_151 * 4),
        strength: Some(16),
        ..NOTHING
    },
];

static FINE: [Entry; 2] = [
    Entry {
        range: Some(MOST + 524_287 * 4),
        phase: Some(MOST + 8_388_607),
        strength: Some(1023),
        lock: 1023,
        half_cycle: true,
        ..NOTHING
    },
    Entry {
        range: Some(-524_287 * 4),
        phase: Some(-8_388_607),
        strength: Some(1),
        ..NOTHING
    },
];

fn are_limits_read(form: Form) -> bool {
    let want = if form.is_fine() { &FINE } else { &COARSE };
    let rate = |rate: i32| if form.has_rates() { Some(rate) } else { None };
    let [most, least, invalid] = limits(form);
    let greatest = Entry {
        rate: rate(81_926_383),
        ..want[0]
    };
    let smallest = Entry {
        rate: rate(-81_926_383),
        ..want[1]
    };
    is_read(form, &most, &greatest)
        && is_read(form, &least, &smallest)
        && is_read(form, &invalid, &NOTHING)
}

#[test]
fn limits_are_read(rt: HostRuntime) {
    for (form, _) in &LARGEST {
        assert!(rt; are_limits_read(*form));
    }
}

/// Whether a message is read with this extended information, which no value depends on.
fn is_extended(message: Known, extended: u8) -> bool {
    let mut bytes = ArrayVec::<u8, 36>::new();
    let _ = bytes.try_extend_from_slice(bytes_of(message));
    let before = match look(bytes_of(message)) {
        Ok(View::Msm(msm)) => msm.entries().next(),
        _ => None,
    };
    if let Some(byte) = bytes.as_mut_slice().get_mut(22) {
        *byte = *byte & 0xC3 | extended << 2;
    }
    let after = match look(bytes.as_slice()) {
        Ok(View::Msm(msm)) => msm.entries().next(),
        _ => None,
    };
    let read = match decode(bytes.as_slice()) {
        Ok(Message::Msm(msm)) if msm.satellites() > 0 => msm.satellite(0).extended,
        _ => 255,
    };
    read == extended && before.is_some() && before == after && is_written_back(bytes.as_slice())
}

#[test]
fn extended_information_is_ignored(rt: HostRuntime) {
    for extended in 0..16u8 {
        assert!(rt; is_extended(Known::Msm5, extended) && is_extended(Known::Fine, extended));
    }
}

/// Whether a message is an MSM that is decoded if those of a set are; the others are of station
/// 2003 and the last of their time.
fn is_decoded(set: &MsmSet, bytes: &[u8]) -> Option<bool> {
    match look_in(set, bytes) {
        Ok(View::Msm(_)) => Some(true),
        Ok(View::Other { set, .. }) if set == Some((2003, false)) => Some(false),
        _ => None,
    }
}

/// Whether of the four known MSMs these are decoded: 1077, 1094, 1075 and 1096.
fn are_decoded(set: &MsmSet, want: [bool; 4]) -> bool {
    is_decoded(set, bytes_of(Known::Fine)) == Some(want[0])
        && is_decoded(set, bytes_of(Known::Galileo)) == Some(want[1])
        && is_decoded(set, bytes_of(Known::Msm5)) == Some(want[2])
        && is_decoded(set, bytes_of(Known::Msm6)) == Some(want[3])
}

#[test]
fn msms_of_a_set_are_decoded(rt: HostRuntime) {
    let mut set = MsmSet::default();
    assert!(rt; are_decoded(&set, [true, true, false, false]));
    // A truncated message that isn't in the set is not refused.
    assert!(rt; is_decoded(&set, bytes_of(Known::Msm5).get(..20).unwrap_or(&[])) == Some(false));
    set.systems.galileo = false;
    assert!(rt; are_decoded(&set, [true, false, false, false]));
    set.forms = Forms::All;
    assert!(rt; are_decoded(&set, [true, false, true, false]));
    assert!(rt; are_decoded(&MsmSet::all(), [true; 4]));
}
