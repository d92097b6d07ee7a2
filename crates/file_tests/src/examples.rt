//! The examples on the first pages of the crates of files, as they are printed there.
use devices::Counted;
use gnss_obs::Plan;
use rinex_columns::{Line, put_fixed};
use rinex_file::{Counts, HeaderTexts, ReadFault, Texts, check_file};
use rtcm_convert::{Report, Setup, convert_stream};
use std::alloc::Global;

/// A number of thousandths in 14 columns of a line, as `  20985472.060`.
fn in_columns(thousandths: i64) -> Line {
    let mut line = Line::new();
    put_fixed(&mut line, 14, 3, 1_000, thousandths);
    line
}

/// The numbers of epochs, satellite lines and events of an observation file.
fn counts_of(alloc: Global, file: &[u8]) -> Result<Counts, ReadFault> {
    let mut reader = Counted::new(file);
    check_file(alloc, &mut reader)
}

/// Converts two signals of GPS of a stream that begins in week 2300, and returns the file.
fn convert(alloc: Global, texts: &Texts, stream: &[u8]) -> Option<(Report, Vec<u8>)> {
    let texts = HeaderTexts::new(texts).ok()?;
    let plan = Plan::parse(alloc, "1C,2L", "none").ok()?;
    let setup = Setup::new(plan, texts, 2300);
    let (mut reader, mut writer) = (Counted::new(stream), Counted::new(Vec::new(alloc)));
    let report = convert_stream(alloc, setup, &mut reader, &mut writer).ok();
    let file = writer.into_inner();
    Some((report?, file))
}

/// A frame of message 1077 of one satellite, the last of its time.
const FRAME: &[u8; 42] = &[
    0xD3, 0x00, 0x24, 0x43, 0x57, 0xD3, 0x00, 0x00, 0x0F, 0xA0, 0x00, 0x00, 0x04, 0x00, 0x00, 0x00,
    0x00, 0x00, 0x00, 0x00, 0x20, 0x00, 0x00, 0x00, 0x51, 0x80, 0x00, 0x01, 0x90, 0x00, 0x00, 0x00,
    0x00, 0x00, 0x00, 0x05, 0xA2, 0x00, 0x00, 0x04, 0x96, 0xD0,
];

fn is_converted_and_read_back(alloc: Global) -> bool {
    let texts = Texts {
        date: "20240204 000001 UTC",
        marker_type: "GEODETIC",
        ..Texts::default()
    };
    let Some((report, file)) = convert(alloc, &texts, FRAME) else {
        return false;
    };
    let counts = counts_of(alloc, file.as_slice());
    drop(file);
    report.epochs == 1 && counts.is_ok_and(|counts| counts.epochs == 1)
}

#[test]
fn examples_have_their_results(rt: HostRuntime) {
    assert!(rt; in_columns(20_985_472_060).as_slice() == b"  20985472.060".as_slice());
    assert!(rt; is_converted_and_read_back(rt.alloc()));
}
