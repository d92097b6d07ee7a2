//! Files that are read back, and files that are refused.
use super::parts::{Part, text_of};
use super::{Text, VALUES, joined, put};
use devices::Counted;
use devices_for_tests::{PieceReader, ReadEnd};
use gnss_obs::StationValues;
use gnss_system::System;
use rinex_file::{Counts, HeaderField, ObsFile, ReadFault, check_file, file_bytes, read_file};
use std::alloc::Global;
use std::io::ErrorKind;

/// The content of a file that is read.
pub struct Content {
    pub epochs: usize,
    pub satellites: usize,
    pub events: usize,
    pub values: StationValues,
    /// The numbers of planned signals of GPS and of Galileo.
    pub signals: (usize, usize),
    /// Whether the marker is that of `TWO_SYSTEMS`.
    pub is_roof: bool,
}

static THREE: [usize; 1] = [3];

/// Reads a file from bytes, three at a time.
fn read(alloc: Global, text: &[u8]) -> Result<ObsFile, ReadFault> {
    let mut reader = Counted::new(PieceReader::new(text, &THREE, ReadEnd::Ends));
    read_file(alloc, &mut reader)
}

/// Checks a file of bytes, three at a time.
fn check(alloc: Global, text: &[u8]) -> Result<Counts, ReadFault> {
    let mut reader = Counted::new(PieceReader::new(text, &THREE, ReadEnd::Ends));
    check_file(alloc, &mut reader)
}

/// Whether a file of bytes is valid.
pub fn is_valid(alloc: Global, text: &[u8]) -> bool {
    check(alloc, text).is_ok()
}

/// The fault of a file of bytes.
fn fault_of(alloc: Global, text: &[u8]) -> Option<ReadFault> {
    read(alloc, text).err()
}

/// Whether the bytes of a file are these.
fn is_written_as(alloc: Global, file: &ObsFile, text: &[u8]) -> bool {
    match file_bytes(alloc, file) {
        Ok(bytes) => {
            let are_same = bytes.as_slice() == text;
            drop(bytes);
            are_same
        }
        Err(_) => false,
    }
}

/// Whether a file has this content.
fn has(file: &ObsFile, content: &Content) -> bool {
    let plan = file.plan();
    let is_roof = file.texts().text(HeaderField::Marker) == b"ROOF".as_slice();
    file.epochs() == content.epochs
        && file.satellites() == content.satellites
        && file.events() == content.events
        && file.station_values().is_same(content.values)
        && plan.signals(System::Gps) == content.signals.0
        && plan.signals(System::Galileo) == content.signals.1
        && is_roof == content.is_roof
}

/// Whether a file with this content is read from the bytes and written back.
pub fn is_read(alloc: Global, text: &[u8], content: &Content) -> bool {
    match read(alloc, text) {
        Ok(file) => {
            let is_read = has(&file, content) && is_written_as(alloc, &file, text);
            drop(file);
            is_read
        }
        Err(_) => false,
    }
}

/// Whether a file of these parts is read and written back.
pub fn is_read_back(alloc: Global, parts: &[Part], content: &Content) -> bool {
    let text = joined(parts);
    let is_read = is_read(alloc, text.as_slice(), content);
    drop(text);
    is_read
}

/// Whether a file of these parts has the counts of this content.
pub fn is_counted(alloc: Global, parts: &[Part], content: &Content) -> bool {
    let text = joined(parts);
    let counts = check(alloc, text.as_slice());
    drop(text);
    match counts {
        Ok(counts) => {
            counts.epochs == content.epochs as u64
                && counts.satellites == content.satellites as u64
                && counts.events == content.events as u64
        }
        Err(_) => false,
    }
}

/// Whether a file of these parts has this fault, or none.
pub fn has_fault(alloc: Global, parts: &[Part], fault: Option<ReadFault>) -> bool {
    let text = joined(parts);
    let found = fault_of(alloc, text.as_slice());
    drop(text);
    found == fault
}

/// Whether each file of these parts has its fault.
pub fn have_faults(alloc: Global, cases: &[(&[Part], Option<ReadFault>)]) -> bool {
    for (parts, fault) in cases {
        if !has_fault(alloc, parts, *fault) {
            return false;
        }
    }
    true
}

/// The small file, of one epoch.
pub const SMALL: Content = Content {
    epochs: 1,
    satellites: 1,
    events: 0,
    values: StationValues {
        x: 0,
        y: 0,
        z: 0,
        height: 0,
    },
    signals: (1, 0),
    is_roof: false,
};

static SMALL_CONTENT: Content = SMALL;

static WITH_STATION: Content = Content {
    values: VALUES,
    ..SMALL
};

/// The files of these parts, with one epoch and with two.
static FILES: [(&[Part], Content); 2] = [
    (&[Part::Header, Part::Epoch], SMALL),
    (
        &[Part::Header, Part::Epoch, Part::Second],
        Content {
            epochs: 2,
            satellites: 2,
            ..SMALL
        },
    ),
];

/// The content of the file of two systems.
static OF_TWO_SYSTEMS: Content = Content {
    epochs: 2,
    satellites: 3,
    events: 0,
    values: VALUES,
    signals: (4, 1),
    is_roof: true,
};

/// The lines of the header with station values.
const STATION: &str = "\
\x20 1114104.5999 -4850729.7108  3975521.4643                  APPROX POSITION XYZ \n\
\x20       1.5000        0.0000        0.0000                  ANTENNA: DELTA H/E/N";

/// Puts the small file, with a line in place of what is between two offsets.
fn put_with(text: &mut Text, from: usize, to: usize, line: &str) {
    let small = joined(&[Part::Header, Part::Epoch]);
    put(text, small.as_slice().get(..from).unwrap_or(&[]));
    put(text, line.as_bytes());
    put(text, b"\n");
    put(text, small.as_slice().get(to..).unwrap_or(&[]));
    drop(small);
}

/// Whether the small file with station values is read and written back.
fn is_read_with_station(alloc: Global) -> bool {
    let mut text = Text::new();
    put_with(&mut text, 567, 729, STATION);
    let is_read = is_read(alloc, text.as_slice(), &WITH_STATION);
    drop(text);
    is_read
}

fn are_read_back(alloc: Global, files: &[(&[Part], Content)]) -> bool {
    for (parts, content) in files {
        if !is_read_back(alloc, parts, content) {
            return false;
        }
    }
    true
}

#[test]
fn a_file_is_read_and_written_back(rt: HostRuntime) {
    let alloc = rt.alloc();
    assert!(rt; are_read_back(alloc, &FILES) && is_read_with_station(alloc));
}

#[test]
fn a_file_is_counted(rt: HostRuntime) {
    let alloc = rt.alloc();
    let is_small = is_counted(alloc, &[Part::Header, Part::Epoch], &SMALL_CONTENT);
    assert!(rt; is_small && is_counted(alloc, &[Part::TwoSystems], &OF_TWO_SYSTEMS));
}

#[test]
fn a_file_gives_its_parts(rt: HostRuntime) {
    assert!(rt; is_read_back(rt.alloc(), &[Part::TwoSystems], &OF_TWO_SYSTEMS));
}

/// Lines of the satellite of the small file: the sizes of Doppler shift and strength sum to less
/// than 100,000, to 100,000 and to more.
static LINES: [&str; 9] = [
    "G05  20985472.060 1 110279400.000 1     99999.998           0.001",
    "G05  20985472.060 1 110279400.000 1     99999.999           0.001",
    "G05  20985472.060 7 110279400.000 7    -99954.936          45.063",
    "G05  20985472.060 7 110279400.000 7    -99954.937          45.063",
    "G05  20985472.060 9 110279400.000 9         0.000          99.999",
    "G05  20985472.060 1 110279400.000 1        -0.001           6.000",
    "G05  20985472.060 7 110279400.000 7   -100000.000          45.063",
    "G05  20985472.060 9 110279400.000 99999999999.999          99.999",
    "G05  20985472.060 1 110279400.000 1-999999999.999           0.001",
];

#[test]
fn lines_are_read_and_written_back(rt: HostRuntime) {
    let alloc = rt.alloc();
    for line in &LINES {
        let mut text = Text::new();
        put_with(&mut text, 1_170, 1_236, line);
        assert!(rt; is_read(alloc, text.as_slice(), &SMALL_CONTENT));
        drop(text);
    }
}

/// The fault of the small file with a line in place of what is between two offsets.
fn fault_with(alloc: Global, from: usize, to: usize, line: &str) -> Option<ReadFault> {
    let mut text = Text::new();
    put_with(&mut text, from, to, line);
    let fault = fault_of(alloc, text.as_slice());
    drop(text);
    fault
}

/// Lines in place of those between two offsets of the small file.
static IN_ANOTHER_FORM: [(usize, usize, &str, ReadFault); 11] = [
    (
        81,
        162,
        "rtcm2rinex                              20240204 000001 UTC PGM / RUN BY / DATE",
        ReadFault::BadHeader(2),
    ),
    (
        0,
        81,
        "     3.04           OBSERVATION DATA    G                   RINEX VERSION / TYPE",
        ReadFault::BadHeader(1),
    ),
    (
        729,
        810,
        "G    4 C1C L1C D1C S2C                                      SYS / # / OBS TYPES ",
        ReadFault::BadHeader(10),
    ),
    (
        1_134,
        1_170,
        "> 2024 02 04 00 00  1.0000000  0  0",
        ReadFault::BadEpoch(15),
    ),
    (
        1_134,
        1_170,
        "> 2024 02 04 00 00  1.0000000  0 33",
        ReadFault::BadEpoch(15),
    ),
    (
        1_134,
        1_170,
        "> 2024 02 04 00 00  2.0000000  0  1",
        ReadFault::BadEpoch(15),
    ),
    (
        1_134,
        1_170,
        "> 2024 02 30 00 00  1.0000000  0  1",
        ReadFault::BadEpoch(15),
    ),
    (
        1_170,
        1_236,
        "G05  20985472.060 8 110279400.000 7      -525.504          45.063",
        ReadFault::BadSatellite(16),
    ),
    (
        1_170,
        1_236,
        "G33  20985472.060 7 110279400.000 7      -525.504          45.063",
        ReadFault::BadSatellite(16),
    ),
    (
        1_170,
        1_236,
        "E05  20985472.060 7 110279400.000 7      -525.504          45.063",
        ReadFault::BadSatellite(16),
    ),
    (1_170, 1_236, "G05", ReadFault::BadSatellite(16)),
];

#[test]
fn a_line_in_another_form_is_refused(rt: HostRuntime) {
    let alloc = rt.alloc();
    for (from, to, line, fault) in &IN_ANOTHER_FORM {
        assert!(rt; fault_with(alloc, *from, *to, line) == Some(*fault));
    }
}

static IN_THE_WRONG_PLACE: [(&[Part], Option<ReadFault>); 2] = [
    (
        &[Part::Header, Part::EpochLine, Part::Epoch],
        Some(ReadFault::BadSatellite(16)),
    ),
    (
        &[Part::Header, Part::Epoch, Part::Epoch],
        Some(ReadFault::BadEpoch(17)),
    ),
];

#[test]
fn an_epoch_in_the_wrong_place_is_refused(rt: HostRuntime) {
    assert!(rt; have_faults(rt.alloc(), &IN_THE_WRONG_PLACE));
}

static TOO_SHORT: [(&[Part], Option<ReadFault>); 4] = [
    (&[Part::Header, Part::Cut], Some(ReadFault::CutShort(16))),
    (
        &[Part::Header, Part::TwoSatellites],
        Some(ReadFault::CutShort(17)),
    ),
    (&[Part::Header], Some(ReadFault::CutShort(15))),
    (&[], Some(ReadFault::CutShort(1))),
];

#[test]
fn a_file_that_ends_too_soon_is_refused(rt: HostRuntime) {
    assert!(rt; have_faults(rt.alloc(), &TOO_SHORT));
}

static SEVEN: [usize; 1] = [7];

/// A reader that fails after these bytes, which it has seven at a time.
fn failing(text: &[u8]) -> Counted<PieceReader<'_>> {
    Counted::new(PieceReader::new(text, &SEVEN, ReadEnd::Fails(ErrorKind::Other)))
}

/// Whether reading and checking fail if the reader does, which is counted once.
fn are_failing(alloc: Global, text: &[u8]) -> bool {
    let mut reader = failing(text);
    let fault = read_file(alloc, &mut reader).err();
    let failures = reader.failures();
    drop(reader);
    let mut checked = failing(text);
    let check_fault = check_file(alloc, &mut checked).err();
    drop(checked);
    fault == Some(ReadFault::Read) && failures == 1 && check_fault == Some(ReadFault::Read)
}

#[test]
fn a_failed_read_is_reported(rt: HostRuntime) {
    assert!(rt; are_failing(rt.alloc(), text_of(Part::Header).as_bytes()));
}
