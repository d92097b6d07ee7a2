//! Words of a command line that are not accepted.
use super::messages::FRAMED_STATION;
use super::scenario::Expected::Refused;
use super::scenario::{Case, FAULTLESS, Setting, assert_come};
use super::texts::Text::Bytes;
use command_line::joined_words;
use devices::Counted;
use rtcm_command::command::refuse_words;
use std::alloc::{AllocError, Global};
use std::io;
use std::io::ErrorKind;

/// No word at all, no command, an unknown one, and an option whose value isn't accepted.
static NOT_ACCEPTED: [Case; 4] = [
    (&[], Bytes(&FRAMED_STATION), Refused),
    (&["rtcm2rinex"], Bytes(&FRAMED_STATION), Refused),
    (&["rtcm2rinex", "fames"], Bytes(&FRAMED_STATION), Refused),
    (
        &["rtcm2rinex", "convert", "--date=", "--week", "100000"],
        Bytes(&FRAMED_STATION),
        Refused,
    ),
];

/// All of the words are those of the case.
static ANY_WORDS: Setting = FAULTLESS;

#[test]
fn words_that_are_not_accepted_do_nothing(rt: HostRuntime) {
    assert_come(&rt, rt.alloc(), &ANY_WORDS, &NOT_ACCEPTED);
}

/// Whether words that are refused for this reason have this status and text.
fn are_refused(alloc: Global, kind: ErrorKind, status: u8, text: &[u8]) -> bool {
    let mut faults = Counted::new(Vec::new(alloc));
    let found = refuse_words(&io::Error::from(kind), &mut faults);
    found == status && faults.into_inner().as_slice() == text
}

#[test]
fn words_that_cannot_be_read_are_reported(rt: HostRuntime) {
    let invalid_text = b"error: a word of the command line isn't UTF-8\n";
    assert!(rt;
        are_refused(
            rt.alloc(),
            ErrorKind::OutOfMemory,
            1,
            b"rtcm2rinex: Memory\n"
        )
    );
    assert!(rt; are_refused(rt.alloc(), ErrorKind::InvalidData, 2, invalid_text));
}

/// Whether these words are read as those.
fn are_joined(alloc: Global, given: &[&str], expected: &[&str]) -> Result<bool, AllocError> {
    let mut words = Vec::new(alloc);
    for word in given {
        words.push(String::from_str(alloc, word)?)?;
    }
    let joined = joined_words(alloc, words.as_slice())?;
    let mut same = joined.len() == expected.len();
    for i in 0..expected.len().min(joined.len()) {
        same &= joined[i].as_str() == expected[i];
    }
    Ok(same)
}

#[test]
fn a_position_and_its_negative_value_are_one_word(rt: HostRuntime) {
    let (given, one) = (["--position", "-1,2,3", "-1"], ["--position=-1,2,3", "-1"]);
    assert!(rt; are_joined(rt.alloc(), &given, &one) == Ok(true));
    for others in [
        ["--position", "--gps", "1C"],
        ["--marker", "-1", "--position"],
    ] {
        assert!(rt; are_joined(rt.alloc(), &others, &others) == Ok(true));
    }
}
