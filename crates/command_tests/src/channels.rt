//! Channels of GLONASS satellites, read from text.
use gnss_obs::Channels;
use line_texts::channels_of;

/// Texts with their slots and channels, at most two.
static ACCEPTED: [(&str, &[(u8, i8)]); 8] = [
    ("", &[]),
    ("1:0", &[(1, 0)]),
    ("1:-7", &[(1, -7)]),
    ("27:6", &[(27, 6)]),
    ("9:-1", &[(9, -1)]),
    ("10:1,20:-6", &[(10, 1), (20, -6)]),
    // in any order, and a channel of two slots
    ("27:6,1:-7", &[(1, -7), (27, 6)]),
    ("2:-4,6:-4", &[(2, -4), (6, -4)]),
];

static REFUSED: [&str; 36] = [
    // slots and channels out of their ranges
    "0:1",
    "28:1",
    "99:1",
    "100:1",
    "257:1",
    "1:7",
    "1:8",
    "1:10",
    "1:-8",
    "1:-10",
    // signs and leading zeros
    "1:-0",
    "1:+1",
    "+1:1",
    "-1:1",
    "1:--1",
    "01:1",
    "001:1",
    "1:00",
    "1:01",
    "1:-01",
    // a slot twice, with another channel or with the same
    "1:1,1:2",
    "2:1,1:0,2:1",
    // texts of another form
    "1",
    "1:",
    ":1",
    ":",
    ",",
    "1:1,",
    ",1:1",
    "1:1,,2:1",
    "1:1:1",
    "1:1;2:1",
    // blanks and letters
    "1: 1",
    "1:1, 2:1",
    "R1:1",
    "1:1.0",
];

/// Whether these slots alone have channels, and those.
fn are_only(channels: &Channels, want: &[(u8, i8)]) -> bool {
    for (slot, channel) in want {
        if *slot < 1 || *slot > 27 {
            return false;
        }
        let number = channels.number(*slot);
        if number.map(i16::from) != Some(i16::from(*channel) + 7) {
            return false;
        }
    }
    channels.count() == want.len()
}

#[test]
fn channels_are_read(rt: HostRuntime) {
    for (text, want) in &ACCEPTED {
        match channels_of(text) {
            Some(channels) => assert!(rt; are_only(&channels, want)),
            None => assert!(rt; false),
        }
    }
}

#[test]
fn other_texts_are_refused(rt: HostRuntime) {
    for text in &REFUSED {
        assert!(rt; channels_of(text).is_none());
    }
}
