//! The texts of faults.
use rinex_file::{HeadFault, HeaderField, ReadFault};
use streams_for_tests::have_texts;

static HEAD_FAULTS: [(HeadFault, &str); 3] = [
    (HeadFault::TooLong(HeaderField::Agency), "TooLong agency"),
    (
        HeadFault::NotPrintable(HeaderField::RunBy),
        "NotPrintable run_by",
    ),
    (HeadFault::Write, "Write"),
];

static READ_FAULTS: [(ReadFault, &str); 8] = [
    (ReadFault::Memory, "Memory"),
    (ReadFault::Read, "Read"),
    (ReadFault::BadHeader(2), "BadHeader 2"),
    (ReadFault::BadEpoch(15), "BadEpoch 15"),
    (ReadFault::BadEvent(18), "BadEvent 18"),
    (ReadFault::BadSatellite(16), "BadSatellite 16"),
    (ReadFault::CutShort(1), "CutShort 1"),
    (ReadFault::TooLong, "TooLong"),
];

static FIELD_NAMES: [(HeaderField, &str); 13] = [
    (HeaderField::RunBy, "run_by"),
    (HeaderField::Date, "date"),
    (HeaderField::Comment, "comment"),
    (HeaderField::Marker, "marker"),
    (HeaderField::MarkerNumber, "marker_number"),
    (HeaderField::MarkerType, "marker_type"),
    (HeaderField::Observer, "observer"),
    (HeaderField::Agency, "agency"),
    (HeaderField::RecNumber, "rec_number"),
    (HeaderField::RecType, "rec_type"),
    (HeaderField::RecVersion, "rec_version"),
    (HeaderField::AntNumber, "ant_number"),
    (HeaderField::AntType, "ant_type"),
];

#[test]
fn faults_have_texts(rt: HostRuntime) {
    let alloc = rt.alloc();
    assert!(rt; have_texts(alloc, &HEAD_FAULTS) && have_texts(alloc, &READ_FAULTS));
}

#[test]
fn fields_have_names(rt: HostRuntime) {
    for (field, name) in &FIELD_NAMES {
        assert!(rt; field.name() == *name);
    }
}
