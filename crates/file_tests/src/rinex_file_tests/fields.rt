//! The columns of a value: those in which a value is written are read, and no others.
use super::parts::Part;
use super::reading::is_valid;
use super::{joined, put};
use std::alloc::Global;

/// Columns of a Doppler in which a value is written, or none: each number of digits, with and
/// without a minus.
static WRITTEN: [&[u8]; 22] = [
    b"                ",
    b"         0.000  ",
    b"         0.001  ",
    b"         9.999  ",
    b"        10.000  ",
    b"       123.456  ",
    b"      9999.999  ",
    b"     12345.678  ",
    b"    100000.000  ",
    b"   9999999.999  ",
    b"  12345678.901  ",
    b" 100000000.000  ",
    b"9999999999.999  ",
    b"        -0.001  ",
    b"        -9.999  ",
    b"       -10.000  ",
    b"      -525.504  ",
    b"     -1000.000  ",
    b"    -98765.432  ",
    b"   -100000.000  ",
    b" -99999999.999  ",
    b"-999999999.999  ",
];

/// Columns in which no value is written.
static OTHERS: [&[u8]; 28] = [
    b"        -0.000  ",
    b"          .500  ",
    b"         -.500  ",
    b"        00.500  ",
    b"       -00.500  ",
    b"0000000000.000  ",
    b"0123456789.000  ",
    b"-012345678.000  ",
    b" 0999999.999    ",
    b"     1 234.567  ",
    b"    -  234.567  ",
    b"     12-34.567  ",
    b"     --234.567  ",
    b"    -1234-.567  ",
    b"     +1234.567  ",
    b"      1234,567  ",
    b"      12345567  ",
    b"      1234.5 7  ",
    b"      1234.-67  ",
    b"      12/4.567  ",
    b"      12:4.567  ",
    b"      12\xB44.567  ",
    b"      \xA0234.567  ",
    b"     \xAD1234.567  ",
    b"      1234.5671 ",
    b"      1234.567 7",
    b"               7",
    b"              1 ",
];

/// Whether a file is valid if and only if it shall be, with each of these columns of a Doppler.
fn are_valid(alloc: Global, columns: &[&[u8]], shall_be: bool) -> bool {
    for doppler in columns {
        let mut text = joined(&[Part::Header, Part::EpochLine]);
        put(&mut text, b"G05  20985472.060 7 110279400.000 7");
        put(&mut text, doppler);
        put(&mut text, b"        45.063\n");
        let is_as_it_shall = is_valid(alloc, text.as_slice()) == shall_be;
        drop(text);
        if !is_as_it_shall {
            return false;
        }
    }
    true
}

#[test]
fn columns_as_they_are_written_are_read(rt: HostRuntime) {
    let alloc = rt.alloc();
    assert!(rt; are_valid(alloc, &WRITTEN, true) && are_valid(alloc, &OTHERS, false));
}
