//! The satellite systems.
ghost use Rattle.std.specs.Prelude.{ℕ, ◌≡◌, ◌<◌, ◌≤◌, length, IfSome, IfNone};

use crate::systems;
use crate::tables::{
    BEIDOU, BEIDOU_FIRST, GALILEO, GALILEO_FIRST, GLONASS, GLONASS_FIRST, GPS, QZSS, QZSS_FIRST,
    SBAS, SBAS_FIRST, SystemRow, TimeScale,
};

/// A satellite system.
#[derive(Clone, Copy, PartialEq, Eq, Hash)]
pub enum System {
    /// GPS, `G` in RINEX.
    Gps,
    /// Galileo, `E` in RINEX.
    Galileo,
    /// GLONASS, `R` in RINEX.
    Glonass,
    /// BeiDou, `C` in RINEX.
    Beidou,
    /// QZSS, `J` in RINEX.
    Qzss,
    /// SBAS, `S` in RINEX.
    Sbas,
}

/// Passes all systems to a macro, in the order of a file: what is given in brackets, and then of
/// each system its index, its name in `System`, that of its value in `BySystem`, and its row.
#[macro_export]
macro_rules! systems {
    ($then:ident $($given:tt)*) => {
        $then! {
            [$($given)*]
            0 Gps gps GPS,
            1 Galileo galileo GALILEO,
            2 Glonass glonass GLONASS,
            3 Beidou beidou BEIDOU,
            4 Qzss qzss QZSS,
            5 Sbas sbas SBAS
        }
    };
}

/// Returns all systems.
macro_rules! list {
    ([] $($index:literal $system:ident $value:ident $row:ident),*) => {
        [$(System::$system),*]
    };
}

/// All systems, in the order of a file.
pub const SYSTEMS: [System; 6] = systems!(list);

/// Returns the system at an index.
macro_rules! system_at {
    ([$of:ident] $($index:literal $system:ident $value:ident $row:ident),*) => {
        match $of {
            $($index => System::$system,)*
            _ => unreachable!(),
        }
    };
}

/// Returns the row of a system, or a field of it. A field by a match of its own costs less than one
/// of the result of `row`, by 3 % of the instructions of `convert` for `satellites`.
macro_rules! row_of {
    ([$of:ident] $($index:literal $system:ident $value:ident $row:ident),*) => {
        match $of {
            $(System::$system => $row,)*
        }
    };
    ([$of:ident $field:ident] $($index:literal $system:ident $value:ident $row:ident),*) => {
        match $of {
            $(System::$system => $row.$field,)*
        }
    };
}

impl System {
    ghost use Rattle.gnss_system.specs.Systems.{systems, index_of};

    /// Returns the system at an index of `SYSTEMS`.
    pub fn at(index: usize) -> System
        requires { index < length systems }
        ensures { index_of result ≡ index }
    {
        // Indexing `SYSTEMS` makes each loop over the systems copy the array to the stack.
        systems!(system_at index)
    }

    ghost use Rattle.gnss_system.specs.Satellites.{satellites, most_satellites, first_number, number_of, satellite_set};
    ghost use Rattle.gnss_system.specs.Satellites.{IsSatellite};
    ghost use Rattle.gnss_system.specs.Satellites.{name_of, letter, system_of_letter};
    ghost use Rattle.gnss_system.specs.Satellites.{msm_tens, system_of_tens, time_scale};
    ghost use Rattle.gnss_system.specs.Signals.{table, most_signals, rows, first_key};

    /// Returns the row of the system.
    #[inline(always)]
    pub fn row(self) -> SystemRow
        ensures name { result.name.now ≡ name_of self }
        ensures letter { result.letter ≡ letter self }
        ensures first { result.first_number ≡ first_number self }
        ensures mask { result.satellite_mask ≡ satellite_set self }
        ensures signals { result.signals.now ≡ table self }
        ensures bound { length result.signals.now ≤ most_signals }
        ensures rows { result.rows_by_id.now ≡ rows self }
    {
        systems!(row_of self)
    }

    /// Returns the name of the system in small letters.
    pub fn name(self) -> &'static str
        ensures text { result.now ≡ name_of self }
        ensures short { length result.now ≤ 7 }
    {
        self.row().name
    }

    /// Returns the letter of the system in RINEX, in ASCII.
    pub fn letter(self) -> u8
        ensures { result ≡ letter self }
    {
        self.row().letter
    }

    /// Returns the system with this letter, or `None` if there is none.
    pub fn from_letter(letter: u8) -> Option<System>
        ensures { result ≡ system_of_letter letter }
    {
        // Unrolled and compiled to a switch on the letter, as a match on it is.
        SYSTEMS
            .iter()
            .copied()
            .find(|system| system.letter() == letter)
    }

    /// Returns the system whose MSMs have these numbers without their last digit, or `None` if there
    /// is none.
    pub fn from_msm_tens(tens: u16) -> Option<System>
        ensures { result ≡ system_of_tens tens }
    {
        // As in `from_letter`, no more instructions than a match.
        SYSTEMS
            .iter()
            .copied()
            .find(|system| system.msm_tens() == tens)
    }

    /// Returns the numbers of the system's MSMs, DF002, without their last digit.
    pub fn msm_tens(self) -> u16
        ensures value { result ≡ msm_tens self }
        ensures bound { result < 400 }
    {
        systems!(row_of self msm_tens)
    }

    /// Returns the time scale of the epoch times of the system's MSMs.
    pub fn time_scale(self) -> TimeScale
        ensures { result ≡ time_scale self }
    {
        systems!(row_of self time_scale)
    }

    /// Returns the number of keys of the systems before this one. A system has a key for each of
    /// its satellites with each of its signals.
    pub fn first_key(self) -> usize
        ensures { result ≡ first_key self }
    {
        match self {
            System::Gps => 0,
            System::Galileo => GALILEO_FIRST,
            System::Glonass => GLONASS_FIRST,
            System::Beidou => BEIDOU_FIRST,
            System::Qzss => QZSS_FIRST,
            System::Sbas => SBAS_FIRST,
        }
    }

    /// Returns the number of satellites of the system, which are numbered from 1.
    pub fn satellites(self) -> u8
        ensures value { result ≡ satellites self }
        ensures bound { result ≤ most_satellites }
    {
        systems!(row_of self satellites)
    }

    /// Returns the number of the first satellite of the system in RINEX.
    pub fn first_number(self) -> u8
        ensures value { result ≡ first_number self }
        ensures bound { (1 ≤ result) × (result ≤ 20) }
    {
        self.row().first_number
    }

    /// Returns the number in RINEX of the satellite with this ID.
    pub fn number_of(self, id: u8) -> u8
        requires { number_of self id < 100 }
        ensures { result ≡ number_of self id }
    {
        id + (self.first_number() - 1)
    }

    /// Returns the ID of the satellite with this number in RINEX, or `None` if the system has none.
    pub fn id_of_number(self, number: u8) -> Option<u8>
        ensures found { IfSome result
            (λ id. IsSatellite (record { system = self; id = id }) × (number_of self id ≡ number)) }
        ensures none { IfNone result
            ((id : ℕ) → IsSatellite (record { system = self; id = id }) → number_of self id ≡ number → ⊥) }
    {
        let before = self.first_number() - 1;
        if number <= before || number - before > self.satellites() {
            return None;
        }
        Some(number - before)
    }

    /// Returns the satellites of the system as a satellite mask, DF394 of RTCM 10403.3, whose most
    /// significant bit is ID 1.
    pub fn satellite_mask(self) -> u64
        ensures { result ≡ satellite_set self }
    {
        self.row().satellite_mask
    }

    /// Returns the number of signals of the system, whose indices count from 0.
    pub fn signals(self) -> usize
        ensures value { result ≡ length (table self) }
        ensures bound { result ≤ most_signals }
    {
        self.row().signals.len()
    }
}
