//! The messages of the tests of a gatherer.
use gnss_system::System;
use rtcm_msg::{
    Cell, Form, INVALID_FINE_RATE, INVALID_ROUGH_RATE, Masks, Message, Msm, MsmHeader, Satellite,
    Station, StationParts,
};

/// A message of station 7, with its time in milliseconds of the week and its multiple message bit.
#[derive(Clone, Copy)]
pub enum Heard {
    /// The long form of GPS 5 with the signal 1C, and the lock time indicator.
    Long(u32, bool, u16),
    /// The same of a Galileo satellite.
    Galileo(u32, bool, u16),
    /// The short form of GPS 5, with or without a phase, and the lock time indicator.
    Short(u32, bool, bool, u16),
    /// The short form of GPS 5 with a phase that may be off by half a cycle, and the lock time
    /// indicator.
    Half(u32, bool, u16),
    /// The long form of several GPS satellites and signals, by their masks, at 1,000.
    Wide(bool, u64, u32),
    /// The long form of all listed satellites of GPS or of Galileo, with the signals of a mask, a
    /// time and the multiple message bit.
    All(bool, u32, bool, u32),
    /// The long form of the last satellite of Galileo with its last signal, and the lock time
    /// indicator.
    Last(u32, u16),
    /// A message of a number that isn't read, of which only station (here any) and bit are.
    Unread(u16, bool),
    /// The position of the station.
    Station,
}

pub fn message(heard: Heard) -> Message {
    match heard {
        Heard::Long(time, more, lock) => {
            long(System::Gps, header(time, more), 1 << 59, 1 << 30, lock)
        }
        Heard::Galileo(time, more, lock) => {
            long(System::Galileo, header(time, more), 1 << 59, 1 << 30, lock)
        }
        Heard::Short(time, more, has_phase, lock) => {
            short(header(time, more), has_phase, lock, false)
        }
        Heard::Half(time, more, lock) => short(header(time, more), true, lock, true),
        Heard::Wide(more, satellites, signals) => {
            long(System::Gps, header(1_000, more), satellites, signals, 64)
        }
        Heard::All(is_galileo, time, more, signals) => {
            let (system, others) = if is_galileo {
                (System::Galileo, 28)
            } else {
                (System::Gps, 32)
            };
            long(system, header(time, more), u64::MAX << others, signals, 64)
        }
        Heard::Last(time, lock) => {
            long(System::Galileo, header(time, false), 1 << 28, 1 << 8, lock)
        }
        Heard::Unread(station, more) => Message::Other {
            number: 1127,
            set: Some((station, more)),
        },
        Heard::Station => station(),
    }
}

fn nothing() -> Message {
    Message::Other {
        number: 0,
        set: None,
    }
}

fn header(time: u32, more: bool) -> MsmHeader {
    MsmHeader {
        station: 7,
        time,
        more,
        iods: 0,
        steering: 0,
        clock: 0,
        smoothing: false,
        interval: 0,
    }
}

/// A message of the long form: each of the satellites with each of the signals, by their masks.
fn long(system: System, header: MsmHeader, satellites: u64, signals: u32, lock: u16) -> Message {
    let count = satellites.count_ones() as usize;
    let cells = count * signals.count_ones() as usize;
    if count > 36 || cells > 64 || cells == 0 {
        return nothing();
    }
    let Ok(masks) = Masks::new(satellites, signals, u64::MAX >> (64 - cells)) else {
        return nothing();
    };
    let satellites = SATELLITES.get(..count).unwrap_or(&[]);
    let data = [Cell {
        range: 0,
        phase: 0,
        lock,
        half_cycle: false,
        strength: 721,
        rate: 0,
    }; 64];
    match Msm::new(
        Form::Msm7,
        system,
        header,
        masks,
        satellites,
        &data[..cells],
    ) {
        Ok(msm) => Message::Msm(msm),
        Err(_) => nothing(),
    }
}

static SATELLITES: [Satellite; 36] = [Satellite {
    whole: 70,
    extended: 0,
    fraction: 0,
    rate: 100,
}; 36];

/// A message of the short form: GPS 5 with the signal 1C.
fn short(header: MsmHeader, has_phase: bool, lock: u16, half_cycle: bool) -> Message {
    let cell = Cell {
        range: 0,
        phase: if has_phase { 0 } else { -2_097_152 },
        lock,
        half_cycle,
        strength: 45,
        rate: INVALID_FINE_RATE,
    };
    let Ok(masks) = Masks::new(1 << 59, 1 << 30, 1) else {
        return nothing();
    };
    match Msm::new(Form::Msm4, System::Gps, header, masks, &COARSE, &[cell]) {
        Ok(msm) => Message::Msm(msm),
        Err(_) => nothing(),
    }
}

static COARSE: [Satellite; 1] = [Satellite {
    whole: 70,
    extended: 0,
    fraction: 0,
    rate: INVALID_ROUGH_RATE,
}];

static PARTS: StationParts = StationParts {
    station: 7,
    realization: 0,
    gps: true,
    glonass: false,
    galileo: true,
    reference: false,
    x: 1,
    oscillator: false,
    y: -2,
    quarter: 0,
    z: 3,
    height: Some(15_000),
};

fn station() -> Message {
    match Station::new(PARTS) {
        Ok(station) => Message::Station(station),
        Err(_) => nothing(),
    }
}
