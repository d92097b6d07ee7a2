//! The channels of GLONASS in a header: read and written back, and refused.
use super::parts::Part;
use super::reading::{Content, SMALL, has_fault, is_read_back};
use rinex_file::ReadFault;
use std::alloc::Global;

/// The lines of a header of GLONASS before those of slots.
const FRONT: &str = "\
\x20    3.05           OBSERVATION DATA    R                   RINEX VERSION / TYPE\n\
rtcm2rinex                              20240204 000001 UTC PGM / RUN BY / DATE \n\
\x20                                                           MARKER NAME         \n\
GEODETIC                                                    MARKER TYPE         \n\
\x20                                                           OBSERVER / AGENCY   \n\
\x20                                                           REC # / TYPE / VERS \n\
\x20                                                           ANT # / TYPE        \n\
\x20       0.0000        0.0000        0.0000                  APPROX POSITION XYZ \n\
\x20       0.0000        0.0000        0.0000                  ANTENNA: DELTA H/E/N\n\
R    4 C1C L1C D1C S1C                                      SYS / # / OBS TYPES \n\
DBHZ                                                        SIGNAL STRENGTH UNIT\n\
\x20 2024     2     4     0     0    1.0000000     GPS         TIME OF FIRST OBS   \n\
R                                                           SYS / PHASE SHIFT   \n";

/// The lines after them, and an epoch.
const REST: &str = "\
\x20                                                           GLONASS COD/PHS/BIS \n\
\x20                                                           END OF HEADER       \n\
> 2024 02 04 00 00  1.0000000  0  1\n\
R05  20985472.060 7                                        45.063\n";

/// The content of the file.
static CONTENT: Content = Content {
    signals: (0, 0),
    ..SMALL
};

/// Lines of slots: none, one, 8, 9, 24 and 27 with a channel.
static SLOTS: [&str; 6] = [
    "\
\x20 0                                                         GLONASS SLOT / FRQ #\n",
    "\
\x20 1 R27  6                                                  GLONASS SLOT / FRQ #\n",
    "\
\x20 8 R02 -7 R03 -6 R04 -5 R05 -4 R06 -3 R07 -2 R08 -1 R09  0 GLONASS SLOT / FRQ #\n",
    "\
\x20 9 R02 -7 R03 -6 R04 -5 R05 -4 R06 -3 R07 -2 R08 -1 R09  0 GLONASS SLOT / FRQ #\n\
\x20   R27  6                                                  GLONASS SLOT / FRQ #\n",
    "\
\x2024 R01  1 R02 -4 R03  5 R04  6 R05  1 R06 -4 R07  5 R08  6 GLONASS SLOT / FRQ #\n\
\x20   R09 -2 R10 -7 R11  0 R12 -1 R13 -2 R14 -7 R15  0 R16 -1 GLONASS SLOT / FRQ #\n\
\x20   R17  4 R18 -3 R19  3 R20  2 R21  4 R22 -3 R23  3 R24  2 GLONASS SLOT / FRQ #\n",
    "\
\x2027 R01 -7 R02 -6 R03 -5 R04 -4 R05 -3 R06 -2 R07 -1 R08  0 GLONASS SLOT / FRQ #\n\
\x20   R09  1 R10  2 R11  3 R12  4 R13  5 R14  6 R15 -7 R16 -6 GLONASS SLOT / FRQ #\n\
\x20   R17 -5 R18 -4 R19 -3 R20 -2 R21 -1 R22  0 R23  1 R24  2 GLONASS SLOT / FRQ #\n\
\x20   R25  3 R26  4 R27  5                                    GLONASS SLOT / FRQ #\n",
];

/// Lines of slots that are refused, each with the number of the refused line.
static REFUSED: [(&str, u64); 22] = [
    // a slot twice
    (
        "\
\x20 2 R05  1 R05  2                                           GLONASS SLOT / FRQ #\n",
        14,
    ),
    // a lower slot
    (
        "\
\x20 2 R05  1 R04  2                                           GLONASS SLOT / FRQ #\n",
        14,
    ),
    // slot 0
    (
        "\
\x20 1 R00  1                                                  GLONASS SLOT / FRQ #\n",
        14,
    ),
    // slot 28
    (
        "\
\x20 1 R28  1                                                  GLONASS SLOT / FRQ #\n",
        14,
    ),
    // channel 7
    (
        "\
\x20 1 R05  7                                                  GLONASS SLOT / FRQ #\n",
        14,
    ),
    // channel -8
    (
        "\
\x20 1 R05 -8                                                  GLONASS SLOT / FRQ #\n",
        14,
    ),
    // a plus
    (
        "\
\x20 1 R05 +1                                                  GLONASS SLOT / FRQ #\n",
        14,
    ),
    // a zero with a minus
    (
        "\
\x20 1 R05 -0                                                  GLONASS SLOT / FRQ #\n",
        14,
    ),
    // a leading zero
    (
        "\
\x20 1 R05 01                                                  GLONASS SLOT / FRQ #\n",
        14,
    ),
    // a slot without leading zero
    (
        "\
\x20 1 R 5  1                                                  GLONASS SLOT / FRQ #\n",
        14,
    ),
    // another letter
    (
        "\
\x20 1 G05  1                                                  GLONASS SLOT / FRQ #\n",
        14,
    ),
    // more than the count says
    (
        "\
\x20 1 R05  1 R06  1                                           GLONASS SLOT / FRQ #\n",
        14,
    ),
    // fewer
    (
        "\
\x20 2 R05  1                                                  GLONASS SLOT / FRQ #\n",
        14,
    ),
    // 28 slots
    (
        "\
\x2028 R01  0 R02  0 R03  0 R04  0 R05  0 R06  0 R07  0 R08  0 GLONASS SLOT / FRQ #\n",
        14,
    ),
    // no line
    ("", 14),
    // a slot after which those left don't fit
    (
        "\
\x20 9 R01  1 R02  1 R03  1 R04  1 R05  1 R06  1 R07  1 R27  1 GLONASS SLOT / FRQ #\n",
        14,
    ),
    // one less
    (
        "\
\x2010 R01  1 R02  1 R03  1 R04  1 R05  1 R06  1 R07  1 R26  1 GLONASS SLOT / FRQ #\n",
        14,
    ),
    // a second line that is missing
    (
        "\
\x20 9 R02 -7 R03 -6 R04 -5 R05 -4 R06 -3 R07 -2 R08 -1 R09  0 GLONASS SLOT / FRQ #\n",
        15,
    ),
    // a second line too many
    (
        "\
\x20 8 R02 -7 R03 -6 R04 -5 R05 -4 R06 -3 R07 -2 R08 -1 R09  0 GLONASS SLOT / FRQ #\n\
\x20   R10  1                                                  GLONASS SLOT / FRQ #\n",
        15,
    ),
    // a second line with a lower slot
    (
        "\
\x20 9 R02 -7 R03 -6 R04 -5 R05 -4 R06 -3 R07 -2 R08 -1 R09  0 GLONASS SLOT / FRQ #\n\
\x20   R09  1                                                  GLONASS SLOT / FRQ #\n",
        15,
    ),
    // a second line with a number
    (
        "\
\x20 9 R02 -7 R03 -6 R04 -5 R05 -4 R06 -3 R07 -2 R08 -1 R09  0 GLONASS SLOT / FRQ #\n\
\x20 1 R27  1                                                  GLONASS SLOT / FRQ #\n",
        15,
    ),
    // a third line whose slot leaves no room
    (
        "\
\x2027 R01 -7 R02 -6 R03 -5 R04 -4 R05 -3 R06 -2 R07 -1 R08  0 GLONASS SLOT / FRQ #\n\
\x20   R09  1 R10  2 R11  3 R12  4 R13  5 R14  6 R15 -7 R16 -6 GLONASS SLOT / FRQ #\n\
\x20   R17 -5 R18 -4 R19 -3 R20 -2 R21 -1 R22  0 R23  1 R25  2 GLONASS SLOT / FRQ #\n",
        16,
    ),
];

fn are_read_back(alloc: Global) -> bool {
    for slots in &SLOTS {
        let parts = [Part::Own(FRONT), Part::Own(*slots), Part::Own(REST)];
        if !is_read_back(alloc, &parts, &CONTENT) {
            return false;
        }
    }
    true
}

fn are_refused(alloc: Global) -> bool {
    for (slots, number) in &REFUSED {
        let parts = [Part::Own(FRONT), Part::Own(*slots), Part::Own(REST)];
        if !has_fault(alloc, &parts, Some(ReadFault::BadHeader(*number))) {
            return false;
        }
    }
    true
}

#[test]
fn channels_are_read_and_written_back(rt: HostRuntime) {
    assert!(rt; are_read_back(rt.alloc()));
}

#[test]
fn other_lines_of_slots_are_refused(rt: HostRuntime) {
    assert!(rt; are_refused(rt.alloc()));
}
