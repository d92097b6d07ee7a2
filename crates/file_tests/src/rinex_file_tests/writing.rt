//! The output of a gathered message, and the end of writing at a failure.
use super::parts::Part;
use super::{ALL, OWN_TEXTS, Takes, Writer, has_written, is_outcome, length, writer};
use devices_for_tests::WriteEnd;
use gnss_obs::{Epoch, GpsTime, Plan, Sat};
use gnss_system::System;
use obs_epoch::{GatherSetup, Gatherer};
use rinex_columns::Line;
use rinex_file::{
    Head, HeadFault, HeaderTexts, epoch_line, satellite_line, write_epoch, write_header,
};
use rtcm_msg::{Message, decode};
use std::alloc::Global;
use std::io::ErrorKind;

/// A part of a file that is written.
#[derive(Clone, Copy)]
enum Sent {
    Header,
    Epoch,
    Both,
    /// The line of the epoch and that of GPS 5, twice, each replacing the one before in its buffer.
    Lines,
}

/// A message of week 2300, the last of its epoch, the codes of the planned signals, a part of their
/// file, a writer, and the part's text and whether it is written.
struct Row {
    message: &'static [u8],
    gps: &'static str,
    galileo: &'static str,
    part: Sent,
    takes: Takes,
    lines: &'static [Part],
    is_good: bool,
}

/// A message 1077 of GPS 5, 1C: 70 ms, 100 m/s, 45.0625 dB-Hz.
const OBSERVED: Row = Row {
    message: &[
        0x43, 0x57, 0xD3, 0x00, 0x00, 0x0F, 0xA0, 0x00, 0x00, 0x04, 0x00, 0x00, 0x00, 0x00, 0x00,
        0x00, 0x00, 0x20, 0x00, 0x00, 0x00, 0x51, 0x80, 0x00, 0x01, 0x90, 0x00, 0x00, 0x00, 0x00,
        0x00, 0x00, 0x05, 0xA2, 0x00, 0x00,
    ],
    gps: "1C",
    galileo: "none",
    part: Sent::Epoch,
    takes: ALL,
    lines: &[Part::Epoch],
    is_good: true,
};

/// Messages with the line of their satellite.
static ROWS: [Row; 8] = [
    // finer range
    Row {
        message: &[
            0x43, 0x57, 0xD3, 0x00, 0x00, 0x0F, 0xA0, 0x00, 0x00, 0x04, 0x00, 0x00, 0x00, 0x00,
            0x00, 0x00, 0x00, 0x20, 0x00, 0x00, 0x00, 0x51, 0x80, 0x00, 0x01, 0x90, 0x00, 0x00,
            0x40, 0x00, 0x00, 0x00, 0x05, 0xA2, 0x00, 0x00,
        ],
        lines: &[
            Part::EpochLine,
            Part::Own("G05  20985472.061 7 110279400.000 7      -525.504          45.063\n"),
        ],
        ..OBSERVED
    },
    // finer range below
    Row {
        message: &[
            0x43, 0x57, 0xD3, 0x00, 0x00, 0x0F, 0xA0, 0x00, 0x00, 0x04, 0x00, 0x00, 0x00, 0x00,
            0x00, 0x00, 0x00, 0x20, 0x00, 0x00, 0x00, 0x51, 0x80, 0x00, 0x01, 0x93, 0xFF, 0xFF,
            0xC0, 0x00, 0x00, 0x00, 0x05, 0xA2, 0x00, 0x00,
        ],
        lines: &[
            Part::EpochLine,
            Part::Own("G05  20985472.059 7 110279400.000 7      -525.504          45.063\n"),
        ],
        ..OBSERVED
    },
    // no range
    Row {
        message: &[
            0x43, 0x57, 0xD3, 0x00, 0x00, 0x0F, 0xA0, 0x00, 0x00, 0x04, 0x00, 0x00, 0x00, 0x00,
            0x00, 0x00, 0x00, 0x20, 0x00, 0x00, 0x00, 0x51, 0x80, 0x00, 0x01, 0x92, 0x00, 0x00,
            0x00, 0x00, 0x00, 0x00, 0x05, 0xA2, 0x00, 0x00,
        ],
        lines: &[
            Part::EpochLine,
            Part::Own("G05                 110279400.000 7      -525.504          45.063\n"),
        ],
        ..OBSERVED
    },
    // finer phase
    Row {
        message: &[
            0x43, 0x57, 0xD3, 0x00, 0x00, 0x0F, 0xA0, 0x00, 0x00, 0x04, 0x00, 0x00, 0x00, 0x00,
            0x00, 0x00, 0x00, 0x20, 0x00, 0x00, 0x00, 0x51, 0x80, 0x00, 0x01, 0x90, 0x00, 0x00,
            0x00, 0x00, 0x00, 0x40, 0x05, 0xA2, 0x00, 0x00,
        ],
        lines: &[
            Part::EpochLine,
            Part::Own("G05  20985472.060 7 110279400.001 7      -525.504          45.063\n"),
        ],
        ..OBSERVED
    },
    // slow
    Row {
        message: &[
            0x43, 0x57, 0xD3, 0x00, 0x00, 0x0F, 0xA0, 0x00, 0x00, 0x04, 0x00, 0x00, 0x00, 0x00,
            0x00, 0x00, 0x00, 0x20, 0x00, 0x00, 0x00, 0x51, 0x80, 0x00, 0x00, 0x00, 0x00, 0x00,
            0x00, 0x00, 0x00, 0x00, 0x05, 0xA2, 0x00, 0x04,
        ],
        lines: &[
            Part::EpochLine,
            Part::Own("G05  20985472.060 7 110279400.000 7        -0.001          45.063\n"),
        ],
        ..OBSERVED
    },
    // slow on 5X
    Row {
        message: &[
            0x43, 0x57, 0xD3, 0x00, 0x00, 0x0F, 0xA0, 0x00, 0x00, 0x04, 0x00, 0x00, 0x00, 0x00,
            0x00, 0x00, 0x00, 0x00, 0x00, 0x00, 0x80, 0x51, 0x80, 0x00, 0x00, 0x00, 0x00, 0x00,
            0x00, 0x00, 0x00, 0x00, 0x05, 0xA2, 0x00, 0x04,
        ],
        gps: "1C,5X",
        lines: &[
            Part::EpochLine,
            Part::Own(
                "G05                                                                  20985472.060 \
         7  82351500.000 7         0.000          45.063\n",
            ),
        ],
        ..OBSERVED
    },
    // short form
    Row {
        message: &[
            0x43, 0x27, 0xD3, 0x00, 0x00, 0x0F, 0xA0, 0x00, 0x00, 0x04, 0x00, 0x00, 0x00, 0x00,
            0x00, 0x00, 0x00, 0x20, 0x00, 0x00, 0x00, 0x51, 0x80, 0x0F, 0xFF, 0xE0, 0x00, 0x00,
            0xFE, 0xD0,
        ],
        lines: &[
            Part::EpochLine,
            Part::Own("G05  20985472.042 7 110279400.00327                        45.000\n"),
        ],
        ..OBSERVED
    },
    // Galileo
    Row {
        message: &[
            0x44, 0x97, 0xD3, 0x00, 0x00, 0x0F, 0xA0, 0x00, 0x00, 0x00, 0x00, 0x00, 0x00, 0x08,
            0x00, 0x00, 0x00, 0x20, 0x00, 0x00, 0x00, 0x51, 0x80, 0x00, 0x01, 0x90, 0x00, 0x00,
            0x00, 0x00, 0x00, 0x00, 0x05, 0xA2, 0x00, 0x00,
        ],
        gps: "none",
        galileo: "1C",
        lines: &[
            Part::EpochLine,
            Part::Own("E36  20985472.060 7 110279400.000 7      -525.504          45.063\n"),
        ],
        ..OBSERVED
    },
];

fn send_header(gatherer: &Gatherer, first: GpsTime, writer: &mut Writer) -> Result<(), HeadFault> {
    match HeaderTexts::new(&OWN_TEXTS) {
        Ok(texts) => {
            let head = Head {
                interval: None,
                texts: &texts,
                plan: gatherer.plan(),
                values: gatherer.station_values(),
                first,
            };
            let sent = write_header(&head, writer);
            drop(texts);
            sent
        }
        Err(fault) => Err(fault),
    }
}

fn send_line(line: &Line, writer: &mut Writer) -> Result<(), HeadFault> {
    writer.write_whole(line.as_slice())?;
    Ok(())
}

fn send_pair(
    gatherer: &Gatherer,
    epoch: &Epoch,
    line: &mut Line,
    writer: &mut Writer,
) -> Result<(), HeadFault> {
    epoch_line(epoch.time(), 1, line);
    send_line(line, writer)?;
    if let Some(satellite) = Sat::new(System::Gps, 5) {
        satellite_line(epoch, gatherer.plan(), satellite, line);
    }
    send_line(line, writer)
}

fn send_lines(gatherer: &Gatherer, epoch: &Epoch, writer: &mut Writer) -> Result<(), HeadFault> {
    let mut line = Line::new();
    let first = send_pair(gatherer, epoch, &mut line, writer);
    let second = send_pair(gatherer, epoch, &mut line, writer);
    drop(line);
    first.and(second)
}

fn send(
    gatherer: &Gatherer,
    epoch: &Epoch,
    part: Sent,
    writer: &mut Writer,
) -> Result<(), HeadFault> {
    match part {
        Sent::Header => send_header(gatherer, epoch.time(), writer),
        Sent::Epoch => write_epoch(epoch, gatherer.plan(), writer),
        Sent::Both => {
            send_header(gatherer, epoch.time(), writer)?;
            write_epoch(epoch, gatherer.plan(), writer)
        }
        Sent::Lines => send_lines(gatherer, epoch, writer),
    }
}

/// Whether writing the part of a row, of the closed epoch, has its outcome.
fn is_sent(gatherer: &Gatherer, row: &Row) -> bool {
    let Some(epoch) = gatherer.closed() else {
        return false;
    };
    let mut writer = writer(&row.takes);
    let is_outcome = is_outcome(send(gatherer, epoch, row.part, &mut writer), row.is_good);
    let is_written = has_written(writer, row.lines, &row.takes);
    is_outcome && is_written
}

fn is_sent_under(alloc: Global, plan: Plan, message: &Message, row: &Row) -> bool {
    match Gatherer::new(alloc, GatherSetup::new(plan, 2300)) {
        Ok(mut gatherer) => {
            if !gatherer.ended() {
                gatherer.take(message);
            }
            let is_sent = is_sent(&gatherer, row);
            drop(gatherer);
            is_sent
        }
        Err(_) => false,
    }
}

fn is_written(alloc: Global, row: &Row) -> bool {
    let Ok(message) = decode(row.message) else {
        return false;
    };
    match Plan::parse(alloc, row.gps, row.galileo) {
        Ok(plan) => is_sent_under(alloc, plan, &message, row),
        Err(_) => false,
    }
}

fn are_written(alloc: Global, rows: &[Row]) -> bool {
    for row in rows {
        if !is_written(alloc, row) {
            return false;
        }
    }
    true
}

static WHOLE: Row = Row {
    part: Sent::Both,
    lines: &[Part::Header, Part::Epoch],
    ..OBSERVED
};

#[test]
fn a_file_is_written(rt: HostRuntime) {
    assert!(rt; length(WHOLE.lines) == 1236 && is_written(rt.alloc(), &WHOLE));
}

#[test]
fn satellites_have_lines(rt: HostRuntime) {
    assert!(rt; are_written(rt.alloc(), &ROWS));
}

static LINES: Row = Row {
    part: Sent::Lines,
    lines: &[Part::Epoch, Part::Epoch],
    ..OBSERVED
};

#[test]
fn lines_take_the_place_of_others(rt: HostRuntime) {
    assert!(rt; is_written(rt.alloc(), &LINES));
}

static STOPPED: [Row; 3] = [
    Row {
        part: Sent::Header,
        takes: Takes {
            each: 81,
            all: 100,
            end: WriteEnd::Fails(ErrorKind::Other),
        },
        lines: &[Part::Header],
        is_good: false,
        ..OBSERVED
    },
    Row {
        part: Sent::Header,
        takes: Takes {
            each: 81,
            all: 0,
            end: WriteEnd::TakesNone,
        },
        lines: &[Part::Header],
        is_good: false,
        ..OBSERVED
    },
    Row {
        takes: Takes {
            each: 7,
            all: 50,
            end: WriteEnd::Fails(ErrorKind::Other),
        },
        is_good: false,
        ..OBSERVED
    },
];

#[test]
fn writing_stops_at_a_failure(rt: HostRuntime) {
    assert!(rt; are_written(rt.alloc(), &STOPPED));
}
