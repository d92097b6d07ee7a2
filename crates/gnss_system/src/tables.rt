//! A row for each system: what differs between the systems in RINEX 3.05 and RTCM 10403.3.

/// A signal of a system.
#[derive(Clone, Copy)]
pub struct ListedSignal {
    /// The position in the signal mask DF395, 1 to 32 (RTCM 10403.3, the table of signal IDs of the
    /// system).
    pub id: u8,
    /// The RINEX code in ASCII: the digit of the band and the letter of the attribute (RINEX 3.05,
    /// the observation codes of the system).
    pub code: [u8; 2],
    /// The carrier frequency in hertz, for GLONASS that of channel 0.
    pub hertz: u32,
}

/// The time scale of the epoch times of a system's MSMs, in milliseconds.
#[derive(Clone, Copy)]
pub enum TimeScale {
    /// The time of week in GPS time.
    Gps,
    /// The time of week in BeiDou time, which is 14 s less than GPS time.
    Beidou,
    /// The day of the week, DF416, and the time of day, DF034, of UTC plus 3 h.
    Glonass,
}

/// What differs between the systems.
#[derive(Clone, Copy)]
pub struct SystemRow {
    /// The name in small letters.
    pub(crate) name: &'static str,
    /// The letter in RINEX, in ASCII.
    pub(crate) letter: u8,
    /// The number of satellites.
    pub(crate) satellites: u8,
    /// The number of the first satellite in RINEX.
    pub(crate) first_number: u8,
    /// The satellites as a satellite mask, DF394, whose most significant bit is ID 1.
    pub(crate) satellite_mask: u64,
    /// The message numbers of the MSMs, DF002, without their last digit.
    pub(crate) msm_tens: u16,
    /// The time scale of their epoch times.
    pub(crate) time_scale: TimeScale,
    /// The signals, by rising signal ID.
    pub signals: &'static [ListedSignal],
    /// For each signal ID from 0 to 32, its index in `signals`, or `NO_ROW`.
    pub rows_by_id: &'static [u8],
}

/// Returns the number of keys of a system.
macro_rules! keys {
    ($row:ident) => {
        $row.satellites as usize * $row.signals.len()
    };
}

/// Largest number of satellites of a system.
pub const MOST_SATELLITES: u8 = BEIDOU.satellites;

/// Number of GPS signals.
pub const GPS_SIGNAL_COUNT: usize = GPS.signals.len();

/// Number of Galileo signals.
pub const GALILEO_SIGNAL_COUNT: usize = GALILEO.signals.len();

/// Largest number of signals of a system.
pub const MOST_SIGNALS: usize = GALILEO_SIGNAL_COUNT;

// The number of keys of the systems before each but GPS.
pub(crate) const GALILEO_FIRST: usize = keys!(GPS);

pub(crate) const GLONASS_FIRST: usize = GALILEO_FIRST + keys!(GALILEO);

pub(crate) const BEIDOU_FIRST: usize = GLONASS_FIRST + keys!(GLONASS);

pub(crate) const QZSS_FIRST: usize = BEIDOU_FIRST + keys!(BEIDOU);

pub(crate) const SBAS_FIRST: usize = QZSS_FIRST + keys!(QZSS);

/// Number of keys of all systems: one for each satellite of a system with each of its signals.
pub const KEY_COUNT: usize = SBAS_FIRST + keys!(SBAS);

/// The index of a signal ID that no signal has.
pub const NO_ROW: u8 = 255;

/// Number of signal IDs from 0 on: the bits of the signal mask DF395, and 0.
pub const ID_COUNT: usize = 33;

/// Returns, for each signal ID from 0 to 32, its index among the signals of this signal mask, DF395:
/// the number of those with a smaller ID, or `NO_ROW` if it isn't in the mask.
macro_rules! rows {
    ($mask:literal) => {
        rows![$mask; 0 1 2 3 4 5 6 7 8 9 10 11 12 13 14 15 16 17 18 19 20 21 22 23 24 25 26 27 28 29
            30 31 32]
    };
    ($mask:literal; $($id:literal)*) => {
        [$(if $mask as u64 >> (32 - $id) & 1 == 1 {
            u64::count_ones($mask as u64 >> (33 - $id)) as u8
        } else {
            NO_ROW
        }),*]
    };
}

// Carrier frequencies in hertz. E5 is E5a and E5b together. G1 and G2 are those of channel 0.
const L1: u32 = 1_575_420_000;

const L2: u32 = 1_227_600_000;

const L5: u32 = 1_176_450_000;

const E1: u32 = 1_575_420_000;

const E5A: u32 = 1_176_450_000;

const E5B: u32 = 1_207_140_000;

const E5: u32 = 1_191_795_000;

const E6: u32 = 1_278_750_000;

const G1: u32 = 1_602_000_000;

const G2: u32 = 1_246_000_000;

const B1: u32 = 1_561_098_000;

const B3: u32 = 1_268_520_000;

/// A list of signals by rising ID: the carrier frequency of some consecutive ones, and the ID and
/// the code of each.
macro_rules! signals {
    ($($carrier:expr => $($id:literal $code:literal),*;)*) => {
        &[$($(ListedSignal { id: $id, code: *$code, hertz: $carrier }),*),*]
    };
}

pub(crate) const GPS: SystemRow = SystemRow {
    name: "gps",
    letter: b'G',
    satellites: 32,
    first_number: 1,
    satellite_mask: 0xFFFF_FFFF_0000_0000,
    msm_tens: 107,
    time_scale: TimeScale::Gps,
    signals: signals! {
        L1 => 2 b"1C", 3 b"1P", 4 b"1W";
        L2 => 8 b"2C", 9 b"2P", 10 b"2W", 15 b"2S", 16 b"2L", 17 b"2X";
        L5 => 22 b"5I", 23 b"5Q", 24 b"5X";
        L1 => 30 b"1S", 31 b"1L", 32 b"1X";
    },
    rows_by_id: &rows![0x71C3_8707],
};

pub(crate) const GALILEO: SystemRow = SystemRow {
    name: "galileo",
    letter: b'E',
    satellites: 36,
    first_number: 1,
    satellite_mask: 0xFFFF_FFFF_F000_0000,
    msm_tens: 109,
    time_scale: TimeScale::Gps,
    signals: signals! {
        E1 => 2 b"1C", 3 b"1A", 4 b"1B", 5 b"1X", 6 b"1Z";
        E6 => 8 b"6C", 9 b"6A", 10 b"6B", 11 b"6X", 12 b"6Z";
        E5B => 14 b"7I", 15 b"7Q", 16 b"7X";
        E5 => 18 b"8I", 19 b"8Q", 20 b"8X";
        E5A => 22 b"5I", 23 b"5Q", 24 b"5X";
    },
    rows_by_id: &rows![0x7DF7_7700],
};

pub(crate) const GLONASS: SystemRow = SystemRow {
    name: "glonass",
    letter: b'R',
    satellites: 27,
    first_number: 1,
    satellite_mask: 0xFFFF_FFE0_0000_0000,
    msm_tens: 108,
    time_scale: TimeScale::Glonass,
    signals: signals! {
        G1 => 2 b"1C", 3 b"1P";
        G2 => 8 b"2C", 9 b"2P";
    },
    rows_by_id: &rows![0x6180_0000],
};

pub(crate) const BEIDOU: SystemRow = SystemRow {
    name: "beidou",
    letter: b'C',
    satellites: 63,
    first_number: 1,
    satellite_mask: 0xFFFF_FFFF_FFFF_FFFE,
    msm_tens: 112,
    time_scale: TimeScale::Beidou,
    signals: signals! {
        B1 => 2 b"2I", 3 b"2Q", 4 b"2X";
        B3 => 8 b"6I", 9 b"6Q", 10 b"6X";
        E5B => 14 b"7I", 15 b"7Q", 16 b"7X";
        L5 => 22 b"5D", 23 b"5P", 24 b"5X";
        E5B => 25 b"7D";
        L1 => 30 b"1D", 31 b"1P", 32 b"1X";
    },
    rows_by_id: &rows![0x71C7_0787],
};

pub(crate) const QZSS: SystemRow = SystemRow {
    name: "qzss",
    letter: b'J',
    satellites: 10,
    first_number: 1,
    satellite_mask: 0xFFC0_0000_0000_0000,
    msm_tens: 111,
    time_scale: TimeScale::Gps,
    signals: signals! {
        L1 => 2 b"1C";
        E6 => 9 b"6S", 10 b"6L", 11 b"6X";
        L2 => 15 b"2S", 16 b"2L", 17 b"2X";
        L5 => 22 b"5I", 23 b"5Q", 24 b"5X";
        L1 => 30 b"1S", 31 b"1L", 32 b"1X";
    },
    rows_by_id: &rows![0x40E3_8707],
};

pub(crate) const SBAS: SystemRow = SystemRow {
    name: "sbas",
    letter: b'S',
    satellites: 39,
    first_number: 20,
    satellite_mask: 0xFFFF_FFFF_FE00_0000,
    msm_tens: 110,
    time_scale: TimeScale::Gps,
    signals: signals! {
        L1 => 2 b"1C";
        L5 => 22 b"5I", 23 b"5Q", 24 b"5X";
    },
    rows_by_id: &rows![0x4000_0700],
};
