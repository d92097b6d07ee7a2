//! Messages of GLONASS: their times, and the channels that they contain.
use super::forms::write;
use super::known::{Known, bytes_of};
use super::{CELL, HEADER, SATELLITE, is_written_back};
use arrayvec::ArrayVec;
use gnss_system::System;
use rtcm_msg::{
    Form, INVALID_ROUGH_RATE, Masks, Message, MsgFault, Msm, MsmHeader, Satellite, ValueFault,
    View, channel_of_1020, decode, look,
};
use std::test::*;

/// Days of the week, DF416, with milliseconds of the day, DF034, and whether they are accepted.
static TIMES: [(u32, u32, bool); 11] = [
    (0, 0, true),
    (0, 86_400_999, true),
    (0, 86_401_000, false),
    (0, 134_217_727, false),
    (4, 86_399_999, true),
    // more than 604,799,999 as a number of 30 bits
    (5, 0, true),
    (6, 0, true),
    (6, 86_400_999, true),
    (6, 86_401_000, false),
    // an unknown day
    (7, 0, false),
    (7, 86_399_999, false),
];

/// The known MSM7 as a message 1087 of this time.
fn fine_at(time: u32) -> ArrayVec<u8, 36> {
    let mut bytes = ArrayVec::new();
    let _ = bytes.try_extend_from_slice(&[0x43, 0xF7, 0xD3]);
    let _ = bytes.try_extend_from_slice(&(time << 2).to_be_bytes());
    let _ = bytes.try_extend_from_slice(bytes_of(Known::Fine).get(7..).unwrap_or(&[]));
    bytes
}

/// Whether bytes are a message 1087 of this time.
fn is_read(bytes: &[u8], time: u32) -> bool {
    let Ok(view) = look(bytes) else {
        return false;
    };
    if view.summary().time != Some(time) {
        return false;
    }
    match view.message() {
        Message::Msm(msm) => msm.number() == 1087 && is_written_back(bytes),
        _ => false,
    }
}

/// Whether bytes are refused for their time.
fn is_refused(bytes: &[u8]) -> bool {
    decode(bytes).err() == Some(MsgFault::BadTime)
}

/// The fault of a message of a system with this time.
fn fault_of(system: System, time: u32) -> Option<ValueFault> {
    let header = MsmHeader { time, ..HEADER };
    match Masks::new(1 << 59, 1 << 30, 1) {
        Ok(masks) => Msm::new(Form::Msm7, system, header, masks, &[SATELLITE], &[CELL]).err(),
        Err(_) => None,
    }
}

fn is_judged(time: u32, accepted: bool) -> bool {
    let bytes = fine_at(time);
    if accepted {
        is_read(bytes.as_slice(), time) && fault_of(System::Glonass, time).is_none()
    } else {
        is_refused(bytes.as_slice()) && fault_of(System::Glonass, time) == Some(ValueFault::BadTime)
    }
}

#[test]
fn times_are_days_and_times_of_day(rt: HostRuntime) {
    for (day, milliseconds, accepted) in &TIMES {
        assert!(rt; is_judged(*day << 27 | *milliseconds, *accepted));
    }
    assert!(rt;
        fault_of(System::Beidou, 604_799_999).is_none()
            && fault_of(System::Beidou, 604_800_000) == Some(ValueFault::BadTime)
    );
}

/// Whether an MSM has these slots and numbers of channels.
fn are_sent(bytes: &[u8], want: &[(u8, u8)]) -> bool {
    let Ok(View::Msm(msm)) = look(bytes) else {
        return false;
    };
    let mut channels = msm.sent_channels();
    for channel in want {
        if channels.next() != Some(*channel) {
            return false;
        }
    }
    channels.next().is_none() && channels.next().is_none()
}

/// Whether a message of a system and a form, of the satellites 1 and 27 without cells, has the
/// channels of these, or none.
fn has_channels(system: System, form: Form, some: bool) -> bool {
    let (numbers, rate) = if form.has_rates() {
        ([6, 15], 0)
    } else {
        ([0, 0], INVALID_ROUGH_RATE)
    };
    let satellite = |extended: u8| Satellite {
        extended,
        rate,
        ..SATELLITE
    };
    let satellites = [satellite(numbers[0]), satellite(numbers[1])];
    let mut bytes = ArrayVec::new();
    let masks = (1 << 63 | 1 << 37, 1 << 30, 0);
    write(system, form, masks, &satellites, &[], &mut bytes);
    let want: &[(u8, u8)] = if some { &[(1, 6), (27, 15)] } else { &[] };
    is_written_back(bytes.as_slice()) && are_sent(bytes.as_slice(), want)
}

static FORMS: [Form; 4] = [Form::Msm4, Form::Msm5, Form::Msm6, Form::Msm7];

#[test]
fn msm5_and_msm7_of_glonass_have_channels(rt: HostRuntime) {
    for form in &FORMS {
        assert!(rt; has_channels(System::Glonass, *form, form.has_rates()));
        assert!(rt; has_channels(System::Gps, *form, false));
    }
    assert!(rt; are_sent(fine_at(0).as_slice(), &[(5, 0)]));
}

#[test]
fn message_1020_has_a_channel(rt: HostRuntime) {
    // slot 5 with the number 8, and slot 63 with the number 31
    assert!(rt; channel_of_1020(&[0x3F, 0xC1, 0x50]) == Some((5, 8)));
    assert!(rt; channel_of_1020(&[0x3F, 0xCF, 0xFE, 0xFF]) == Some((63, 31)));
    assert!(rt; channel_of_1020(&[0x3F, 0xC1]).is_none() && channel_of_1020(&[]).is_none());
    // messages 1019 and 1021
    assert!(rt; channel_of_1020(&[0x3F, 0xB1, 0x50]).is_none());
    assert!(rt; channel_of_1020(&[0x3F, 0xD1, 0x50]).is_none());
}
