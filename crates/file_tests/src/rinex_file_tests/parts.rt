//! The texts of small files, by their parts.

/// A part of a file.
#[derive(Clone, Copy)]
pub enum Part {
    /// The header of a file of GPS 1C alone.
    Header,
    /// The first line of the epoch of that file.
    EpochLine,
    /// The epoch.
    Epoch,
    /// The epoch one second later.
    Second,
    /// The epoch with one satellite more than it has.
    TwoSatellites,
    /// The epoch without its last byte.
    Cut,
    /// A whole file of two epochs and both systems, with a signal on two lines, an indicator and
    /// blank values.
    TwoSystems,
    /// The event of a station.
    Event,
    /// The event with its position in other columns.
    Spaced,
    /// An event with the values of the header.
    Same,
    /// An event with the height of the header and another position.
    Moved,
    /// The first line of an event.
    EventLine,
    /// A text that no other file has.
    Own(&'static str),
}

// A text is named in one place, since each that names it carries its bytes.

const HEADER: &str = "\
\x20    3.05           OBSERVATION DATA    G                   RINEX VERSION / TYPE\n\
rtcm2rinex                              20240204 000001 UTC PGM / RUN BY / DATE \n\
\x20                                                           MARKER NAME         \n\
GEODETIC                                                    MARKER TYPE         \n\
\x20                                                           OBSERVER / AGENCY   \n\
\x20                                                           REC # / TYPE / VERS \n\
\x20                                                           ANT # / TYPE        \n\
\x20       0.0000        0.0000        0.0000                  APPROX POSITION XYZ \n\
\x20       0.0000        0.0000        0.0000                  ANTENNA: DELTA H/E/N\n\
G    4 C1C L1C D1C S1C                                      SYS / # / OBS TYPES \n\
DBHZ                                                        SIGNAL STRENGTH UNIT\n\
\x20 2024     2     4     0     0    1.0000000     GPS         TIME OF FIRST OBS   \n\
G                                                           SYS / PHASE SHIFT   \n\
\x20                                                           END OF HEADER       \n";

const EPOCH_LINE: &str = "\
> 2024 02 04 00 00  1.0000000  0  1\n";

const EPOCH: &str = "\
> 2024 02 04 00 00  1.0000000  0  1\n\
G05  20985472.060 7 110279400.000 7      -525.504          45.063\n";

const SECOND: &str = "\
> 2024 02 04 00 00  2.0000000  0  1\n\
G05  20985472.060 7 110279400.00017      -525.504          45.063\n";

const OF_TWO_SATELLITES: &str = "\
> 2024 02 04 00 00  1.0000000  0  2\n\
G05  20985472.060 7 110279400.000 7      -525.504          45.063\n";

const CUT: &str = "\
> 2024 02 04 00 00  1.0000000  0  1\n\
G05  20985472.060 7 110279400.000 7      -525.504          45.063";

const TWO_SYSTEMS: &str = "\
\x20    3.05           OBSERVATION DATA    M                   RINEX VERSION / TYPE\n\
rtcm2rinex          us                  20240204 000001 UTC PGM / RUN BY / DATE \n\
ROOF                                                        MARKER NAME         \n\
GEODETIC                                                    MARKER TYPE         \n\
someone             an agency with more than twenty         OBSERVER / AGENCY   \n\
17                  receiver            1.0                 REC # / TYPE / VERS \n\
18                  antenna                                 ANT # / TYPE        \n\
\x20 1114104.5999 -4850729.7108  3975521.4643                  APPROX POSITION XYZ \n\
\x20       1.5000        0.0000        0.0000                  ANTENNA: DELTA H/E/N\n\
G   16 C1C L1C D1C S1C C2W L2W D2W S2W C2L L2L D2L S2L C5Q  SYS / # / OBS TYPES \n\
\x20      L5Q D5Q S5Q                                          SYS / # / OBS TYPES \n\
E    4 C7Q L7Q D7Q S7Q                                      SYS / # / OBS TYPES \n\
DBHZ                                                        SIGNAL STRENGTH UNIT\n\
\x20 2024     2     4     0     0    1.0000000     GPS         TIME OF FIRST OBS   \n\
G                                                           SYS / PHASE SHIFT   \n\
E                                                           SYS / PHASE SHIFT   \n\
\x20                                                           END OF HEADER       \n\
> 2024 02 04 00 00  1.0000000  0  2\n\
G05  20985472.060 7 110279400.00037      -525.504          45.063\n\
E36                                        -0.001\n\
> 2024 02 04 00 00 59.0010000  0  1\n\
G329999999999.999  -999999999.999\n";

const EVENT: &str = "\
>                              4  2\n\
\x20 1114104.5999 -4850729.7108  3975521.4643                  APPROX POSITION XYZ \n\
\x20       1.5000        0.0000        0.0000                  ANTENNA: DELTA H/E/N\n";

const SPACED: &str = "\
>                              4  2\n\
\x20 1114104.5999 -4850729.7108  3975521.4643                 APPROX POSITION XYZ \n\
\x20       1.5000        0.0000        0.0000                  ANTENNA: DELTA H/E/N\n";

const SAME: &str = "\
>                              4  2\n\
\x20       0.0000        0.0000        0.0000                  APPROX POSITION XYZ \n\
\x20       0.0000        0.0000        0.0000                  ANTENNA: DELTA H/E/N\n";

const MOVED: &str = "\
>                              4  2\n\
\x20 1114104.5999 -4850729.7108  3975521.4643                  APPROX POSITION XYZ \n\
\x20       0.0000        0.0000        0.0000                  ANTENNA: DELTA H/E/N\n";

const EVENT_LINE: &str = "\
>                              4  2\n";

pub fn text_of(part: Part) -> &'static str {
    match part {
        Part::Header => HEADER,
        Part::EpochLine => EPOCH_LINE,
        Part::Epoch => EPOCH,
        Part::Second => SECOND,
        Part::TwoSatellites => OF_TWO_SATELLITES,
        Part::Cut => CUT,
        Part::TwoSystems => TWO_SYSTEMS,
        Part::Event => EVENT,
        Part::Spaced => SPACED,
        Part::Same => SAME,
        Part::Moved => MOVED,
        Part::EventLine => EVENT_LINE,
        Part::Own(text) => text,
    }
}
