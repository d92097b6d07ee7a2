//! The commands and their options, one row each, as listed in the manual page.
ghost use Rattle.command_line.specs.inner.CommandLine.{AreRows};

use clap::ArgAction::{self, Set, SetTrue};
use clap::builder::ValueParser;
use rtcm_scan::MOST_BYTES;

/// A command, or the program itself.
#[derive(Clone, Copy)]
pub struct CommandRow<'a> {
    /// The word that selects it.
    pub name: &'a str,
    /// What it does.
    pub about: &'a str,
    /// The meaning of the lines that it prints, and how it is called.
    pub examples: &'a str,
    /// The options that it has.
    pub options: &'a [OptionRow<'a>],
}

/// An option of a command.
#[derive(Clone, Copy)]
pub struct OptionRow<'a> {
    /// Its name, without the two hyphens.
    pub name: &'a str,
    /// The name of its value in the help text.
    pub value: &'a str,
    /// Whether the command is refused without it.
    pub required: bool,
    /// Its value if it isn't given, if there is one.
    pub defaults: &'a [&'a str],
    /// What its value has to be.
    pub parser: ValueParser<'a>,
    /// Whether it has a value or is a flag.
    pub action: ArgAction,
    /// Its help text.
    pub help: &'a str,
    /// The heading of the options among which it is listed, or `None` for the first ones.
    pub heading: Option<&'a str>,
}

/// A table of options: their heading, and the fields of each in their order. A flag has the value
/// `""`, `ValueParser::Bool` and `SetTrue`.
macro_rules! option_rows {
    ($($heading:expr => { $($name:expr, $value:expr, $required:expr, $defaults:expr, $parser:expr,
        $action:expr, $help:expr;)* })*) => {
        &[$($(OptionRow {
            name: $name,
            value: $value,
            required: $required,
            defaults: $defaults,
            parser: $parser,
            action: $action,
            help: $help,
            heading: $heading,
        }),*),*]
    };
}

/// Any text.
const TEXT: ValueParser<'static> = ValueParser::String;

/// A reference station (DF003).
const STATION: ValueParser<'static> = ValueParser::Signed(0, 4_095);

/// The help text of the option of the only station that counts.
const STATION_HELP: &str = "Reference station (DF003), 0 to 4095: no other counts";

/// The program itself. The lines of all help texts have at most 80 columns.
const PROGRAM: CommandRow<'static> = CommandRow {
    name: "rtcm2rinex",
    about: "Reads an RTCM 3 stream from standard input and prints its content",
    examples: "Example:\n  \
               plan=$(rtcm2rinex options --near 2024-02-04 < stream.rtcm3) &&\n  \
               rtcm2rinex convert --date \"20240204 000001 UTC\" --gather time $plan \\\n    \
               < stream.rtcm3 > station.obs",
    options: &[],
};

/// The command `frames`.
const FRAMES: CommandRow<'static> = CommandRow {
    name: "frames",
    about: "Lists the frames: the place, length and number of each message",
    examples: "A line as '0 19 1005' is a frame at byte 0 with a message of 19 bytes, which\n\
               is message 1005.\n\
               Example: rtcm2rinex frames < stream.rtcm3 > frames.txt",
    options: &[],
};

/// The command `show`.
const SHOW: CommandRow<'static> = CommandRow {
    name: "show",
    about: "Shows the messages: stations, heads of MSMs, and refused messages",
    examples: "A line as '0 1005 2003 1114104.5999 -4850729.7108 3975521.4643' is a station:\n\
               the place of its frame, the message's number, the station, and X, Y and Z in\n\
               metres.\n\
               A line as '52 1077 2003 1000 0 1 1 1' is an MSM: place, number, station, time\n\
               in milliseconds of the week, DF393, and how many satellites, signals and cells\n\
               it has.\n\
               Example: rtcm2rinex show < stream.rtcm3 > messages.txt",
    options: option_rows! {
        None => {
            "all", "", false, &[], ValueParser::Bool, SetTrue,
                "Shows MSM4 to MSM7 of every system, and the\n\
                 antenna and the receiver";
        }
    },
};

/// The command `signals`.
const SIGNALS: CommandRow<'static> = CommandRow {
    name: "signals",
    about: "Prints a table of the signals of the stream",
    examples: "A line as 'G 1C 3042' is a signal: its system, its code, and the number of its\n\
               cells with a pseudorange, a phase, a Doppler shift or a strength.\n\
               Example: rtcm2rinex signals < stream.rtcm3 > signals.txt",
    options: option_rows! {
        None => {
            "station", "NUMBER", false, &[], STATION, Set, STATION_HELP;
        }
    },
};

/// The command `options`.
const OPTIONS: CommandRow<'static> = CommandRow {
    name: "options",
    about: "Prints the options of convert that fit the stream",
    examples: "A line as '--gps 1C,2W --galileo none --position=1.0000,-2.0000,3.0000' has\n\
               every signal with a pseudorange, a phase, a Doppler shift or a strength, and\n\
               the position of the first message 1005 or 1006. With --week or --near it\n\
               begins with the week, as '--week 2300', and has the leap seconds for GLONASS;\n\
               with --station it has the station. Without --station a stream of several\n\
               stations is refused.\n\
               Example:\n  \
               plan=$(rtcm2rinex options --near 2024-02-04 < stream.rtcm3) &&\n  \
               rtcm2rinex convert --date \"20240204 000001 UTC\" --gather time $plan \\\n    \
               < stream.rtcm3 > station.obs",
    options: option_rows! {
        None => {
            "station", "NUMBER", false, &[], STATION, Set, STATION_HELP;
            "week", "", false, &[], ValueParser::Bool, SetTrue,
                "Prints --week, by the ephemerides of the stream";
            "near", "DATE", false, &[], TEXT, Set,
                "GPS date within half a week of the first\n\
                 observations, as 2024-02-04: prints --week by it";
        }
    },
};

/// The command `convert`.
const CONVERT: CommandRow<'static> = CommandRow {
    name: "convert",
    about: "Converts the observations to a RINEX 3.05 observation file",
    examples: "The command options prints the week and the signals of a stream.\n\
               At the end one line on standard error counts the bytes, frames, messages,\n\
               cells and epochs.\n\
               Example:\n  \
               rtcm2rinex convert --week 2300 --date \"20240204 000001 UTC\" \\\n    \
               --gps 1C,2W --galileo none < stream.rtcm3 > station.obs",
    options: option_rows! {
        None => {
            "week", "WEEK", false, &[], TEXT, Set,
                "GPS week of the first observations, 0 to 99999\n\
                 without rollover, or a date in it: 2024-02-04";
            "near", "DATE", false, &[], TEXT, Set,
                "In place of --week: GPS date within half a week\n\
                 of the first observations, as 2024-02-04";
            "date", "TEXT", true, &[], TEXT, Set, "Date of the run: 'yyyymmdd hhmmss UTC'";
        }
        Some("Epochs") => {
            "from", "TIME", false, &[], TEXT, Set,
                "Writes epochs from this GPS time on, as\n\
                 2024-02-04 or 2024-02-04T13:30:00";
            "until", "TIME", false, &[], TEXT, Set, "Writes epochs before this GPS time";
            "interval", "SECONDS", false, &[], TEXT, Set,
                "Writes epochs at multiples of this, 0.1 to\n\
                 86400, a divisor of a day: 30";
            "tolerance", "SECONDS", false, &["0.005"], TEXT, Set,
                "How far an epoch may be from these times, 0 to\n\
                 0.5, at most half of the interval";
        }
        Some("Signals") => {
            "gps", "SIGNALS", false, &["all"], TEXT, Set,
                "GPS signals in the file's order: all, none,\n\
                 or codes as 1C,2W";
            "galileo", "SIGNALS", false, &["all"], TEXT, Set,
                "Galileo signals in the file's order: all,\n\
                 none, or codes as 1C,5Q";
            "glonass", "SIGNALS", false, &["none"], TEXT, Set,
                "GLONASS signals in the file's order: all,\n\
                 none, or codes as 1C,2P";
            "glonass-channels", "CHANNELS", false, &[""], TEXT, Set,
                "Channels of GLONASS slots, as 1:1,2:-4:\n\
                 without one a satellite has no phase and\n\
                 no Doppler shift";
            "leap-seconds", "SECONDS", false, &[], ValueParser::Unsigned(0, 255), Set,
                "GPS time minus UTC, 0 to 255, for the\n\
                 times of GLONASS; without it 18, or with\n\
                 --near that of the date";
            "beidou", "SIGNALS", false, &["none"], TEXT, Set,
                "BeiDou signals in the file's order: all,\n\
                 none, or codes as 2I,6I";
            "qzss", "SIGNALS", false, &["none"], TEXT, Set,
                "QZSS signals in the file's order: all,\n\
                 none, or codes as 1C,2X";
            "sbas", "SIGNALS", false, &["none"], TEXT, Set,
                "SBAS signals in the file's order: all,\n\
                 none, or codes as 1C,5I";
            "msm", "FORMS", false, &["4,7"], ValueParser::Names(&["4,7", "all"]), Set,
                "Forms of MSM that are read: 4,7, or all, which\n\
                 is MSM4 to MSM7";
        }
        Some("Station") => {
            "station", "NUMBER", false, &[], STATION, Set,
                "Reference station (DF003), 0 to 4095; without\n\
                 it the messages of every station count";
            "position", "X,Y,Z", false, &["0,0,0"], TEXT, Set,
                "Position in metres until a message 1005 or\n\
                 1006";
            "antenna-height", "HEIGHT", false, &["0"], TEXT, Set,
                "Antenna height in metres until a message 1006,\n\
                 0 to 6.5535";
        }
        Some("Stream") => {
            "gather", "RULE", false, &["bit"], ValueParser::Names(&["bit", "time"]), Set,
                "What closes an epoch: a later time (time), or\n\
                 also the last message of a set by its DF393\n\
                 bit";
            "limit", "BYTES", false, &["281474976710656"],
                ValueParser::Unsigned(0, MOST_BYTES), Set,
                "Most bytes of the stream; a longer one is a\n\
                 fault";
        }
        Some("Header") => {
            // The texts of the header, other than the date: printable ASCII.
            "run-by", "TEXT", false, &[""], TEXT, Set, "Who runs the program, 20 columns";
            "comment", "TEXT", false, &[""], TEXT, Set, "A comment, 60 columns";
            "marker", "TEXT", false, &[""], TEXT, Set, "Name of the marker, 60 columns";
            "marker-number", "TEXT", false, &[""], TEXT, Set, "Its number, 20 columns";
            "marker-type", "TEXT", false, &["GEODETIC"], TEXT, Set, "Its type, 20 columns";
            "observer", "TEXT", false, &[""], TEXT, Set, "Name of the observer, 20 columns";
            "agency", "TEXT", false, &[""], TEXT, Set, "Observer's agency, 40 columns";
            "rec-number", "TEXT", false, &[""], TEXT, Set, "Receiver's number, 20 columns";
            "rec-type", "TEXT", false, &[""], TEXT, Set, "Type of the receiver, 20 columns";
            "rec-version", "TEXT", false, &[""], TEXT, Set, "Receiver's version, 20 columns";
            "ant-number", "TEXT", false, &[""], TEXT, Set, "Antenna's number, 20 columns";
            "ant-type", "TEXT", false, &[""], TEXT, Set, "Type of the antenna, 20 columns";
        }
    },
};

/// The command `check`.
const CHECK: CommandRow<'static> = CommandRow {
    name: "check",
    about: "Checks that standard input is a file just as convert writes it",
    examples: "A line as 'epochs 2 satellites 17 events 0' counts the epochs, the lines of\n\
               satellites, and the events with other station values. Of any other file the\n\
               first line that is wrong is given on standard error, as\n\
               'rtcm2rinex: BadHeader 2'.\n\
               Example: rtcm2rinex check < station.obs > epochs.txt",
    options: option_rows! {
        None => {
            "times", "", false, &[], ValueParser::Bool, SetTrue,
                "Also prints the first and the last epoch and the\n\
                 smallest step between epochs";
            "gaps", "SECONDS", false, &[], TEXT, Set,
                "Also prints the gaps between epochs at this\n\
                 interval, 0.001 to 86400, and how many of a\n\
                 complete file's epochs the file has";
            "from", "TIME", false, &[], TEXT, Set,
                "The complete file begins at this GPS time, as\n\
                 2024-02-04 or 2024-02-04T13:30:00; an epoch\n\
                 before it is a fault";
            "until", "TIME", false, &[], TEXT, Set,
                "It ends before this GPS time, whole intervals\n\
                 later";
        }
    },
};

/// The command `quality`.
const QUALITY: CommandRow<'static> = CommandRow {
    name: "quality",
    about: "Prints what each signal and each satellite of a file has",
    examples: "A line as 'signal G 1C satellites 9 c 9 l 9 d 0 s 9 lost 1 half 0 mean 41.250'\n\
               counts the satellites with a signal, its values C, L, D and S, its phases with\n\
               a loss of lock and with a half cycle, and gives the mean strength in dB-Hz. A\n\
               line of a satellite counts the epochs in which it has a line, of those of the\n\
               file from its first to its last. With --every a line is of a satellite and\n\
               signal in a period, and begins with the period's start.\n\
               Example: rtcm2rinex quality < station.obs > quality.txt",
    options: option_rows! {
        None => {
            "every", "SECONDS", false, &[], TEXT, Set,
                "Prints each satellite and signal in periods of\n\
                 this length, 1 to 86400, a divisor of a day";
        }
    },
};

/// Returns the row of the program, and those of its commands, in the order of the help text.
pub fn program_rows() -> (CommandRow<'static>, [CommandRow<'static>; 7])
    ensures { AreRows result.0 result.1 }
{
    (
        PROGRAM,
        [FRAMES, SHOW, SIGNALS, OPTIONS, CONVERT, CHECK, QUALITY],
    )
}
