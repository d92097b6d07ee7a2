//! The examples on the first pages of the crates up to `obs_epoch`, as they are printed there.
use arrayvec::ArrayVec;
use devices::Counted;
use gnss_obs::{Civil, GpsTime, Plan, WEEK};
use gnss_system::System;
use obs_epoch::{GatherSetup, Gatherer};
use rtcm_bits::{LONGEST_MESSAGE, crc24q, frame_of};
use rtcm_msg::{Message, MsgFault, decode};
use rtcm_scan::Frames;
use std::alloc::Global;
use std::io::Read;

/// The CRC of the frame of a message, its own CRC included.
fn residue(message: &[u8]) -> Option<u32> {
    if message.len() > LONGEST_MESSAGE {
        return None;
    }
    let mut frame = ArrayVec::new();
    frame_of(message, &mut frame);
    Some(crc24q(frame.as_slice()))
}

/// The number of bytes that the first read of a stream returns, and of its failed reads.
fn first_read(stream: &[u8]) -> (usize, u64) {
    let mut reader = Counted::new(stream);
    let mut buffer = [0; 8];
    let read = reader.read(&mut buffer).unwrap_or(0);
    (read, reader.failures())
}

/// The letter of a system in a file, and the number of its satellites.
fn letter_and_satellites(system: System) -> (u8, u8) {
    (system.letter(), system.satellites())
}

/// The number of frames of a recording, and of the bytes of their messages.
fn frames_in(recording: &[u8]) -> (usize, usize) {
    let (mut frames, mut bytes) = (0usize, 0usize);
    for frame in Frames::new(recording) {
        frames = frames.saturating_add(1);
        bytes = bytes.saturating_add(frame.message.len());
    }
    (frames, bytes)
}

/// The station of a message 1005 or 1006.
fn station_of(message: &[u8]) -> Result<Option<u16>, MsgFault> {
    match decode(message)? {
        Message::Station(station) => Ok(Some(station.parts().station)),
        _ => Ok(None),
    }
}

/// The date and time in GPS time at which a GPS week begins.
fn first_date(week: u32) -> Option<Civil> {
    let time = GpsTime::new(week as u64 * WEEK)?;
    Some(time.civil())
}

/// The number of satellites of the epoch that a message of GPS ends, if it ends one.
fn satellites_of(alloc: Global, message: &Message) -> Option<usize> {
    let plan = Plan::parse(alloc, "all", "none").ok()?;
    let mut gatherer = Gatherer::new(alloc, GatherSetup::new(plan, 2300)).ok()?;
    gatherer.take(message);
    let satellites = gatherer.closed().map(|epoch| epoch.satellites());
    drop(gatherer);
    satellites
}

/// Message 1077 of one satellite, the last of its time.
const LAST: &[u8; 36] = &[
    0x43, 0x57, 0xD3, 0x00, 0x00, 0x0F, 0xA0, 0x00, 0x00, 0x04, 0x00, 0x00, 0x00, 0x00, 0x00, 0x00,
    0x00, 0x20, 0x00, 0x00, 0x00, 0x51, 0x80, 0x00, 0x01, 0x90, 0x00, 0x00, 0x00, 0x00, 0x00, 0x00,
    0x05, 0xA2, 0x00, 0x00,
];

fn has_one_satellite(alloc: Global) -> bool {
    match decode(LAST) {
        Ok(message) => satellites_of(alloc, &message) == Some(1),
        Err(_) => false,
    }
}

#[test]
fn examples_have_their_results(rt: HostRuntime) {
    assert!(rt; residue(&[0x3E, 0xD0]) == Some(0));
    assert!(rt; first_read(&[1, 2, 3]) == (3, 0));
    assert!(rt; letter_and_satellites(System::Sbas) == (b'S', 39));
    assert!(rt; frames_in(&[0xD3, 0, 0, 0x47, 0xEA, 0x4B]) == (1, 0));
    assert!(rt; station_of(&[0x3E]) == Err(MsgFault::Short(0)));
    assert!(rt; has_one_satellite(rt.alloc()));
    assert!(rt; first_date(2300).is_some_and(|date| (date.month, date.day) == (2, 4)));
}
