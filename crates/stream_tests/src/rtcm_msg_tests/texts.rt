//! The texts of the faults of messages.
use rtcm_msg::{Field, MsgFault, ValueFault};
use std::test::*;
use streams_for_tests::have_texts;

static MESSAGE_TEXTS: [(MsgFault, &str); 3] = [
    (
        MsgFault::Short(114),
        "the field at bit 114 does not end within the message",
    ),
    (
        MsgFault::TooManyCells,
        "more than 64 pairs of a satellite and a signal",
    ),
    (MsgFault::BadTime, "an epoch time out of range"),
];

static VALUE_TEXTS: [(ValueFault, &str); 4] = [
    (
        ValueFault::OutOfRange(Field::FineRange),
        "the field FineRange is out of range",
    ),
    (
        ValueFault::TooManyCells,
        "more than 64 pairs of a satellite and a signal",
    ),
    (
        ValueFault::CellCount,
        "another number of satellites or cells than in the masks",
    ),
    (ValueFault::BadTime, "an epoch time out of range"),
];

#[test]
fn faults_have_texts(rt: HostRuntime) {
    let alloc = rt.alloc();
    assert!(rt; have_texts(alloc, &MESSAGE_TEXTS) && have_texts(alloc, &VALUE_TEXTS));
}
