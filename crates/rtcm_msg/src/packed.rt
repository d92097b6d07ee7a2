//! The data of a satellite or of a cell as one number.
ghost use Rattle.std.specs.Prelude.{◌≡◌, ◌^◌, ◌<◌};
ghost use Rattle.rtcm_msg.specs.Packed.{total_width};
ghost use Rattle.rtcm_msg.specs.Forms as forms;
ghost use Rattle.rtcm_msg.specs.Forms.{IsSatelliteData, IsCellData, satellite_number, satellite_data};
ghost use Rattle.rtcm_msg.specs.Forms.{cell_number, cell_data};
ghost use Rattle.rtcm_msg.specs.inner.Forms.{rateless, rateless_number};

use crate::data::{Cell, INVALID_FINE_RATE, INVALID_ROUGH_RATE, Satellite};
use crate::layout::{
    DF397, DF398, DF399, DF400, DF401, DF402, DF403, DF404, DF405, DF406, DF407, DF408, DF419,
    DF420,
};
use crate::view::Form;
use rtcm_bits::{raw_of, signed_of};

impl Form {
    /// Returns a satellite's fields in one number, the first field in the most significant bits.
    pub fn satellite_number(self, satellite: &Satellite) -> u64
        requires { IsSatelliteData self satellite.now }
        ensures { result ≡ satellite_number self satellite.now }
    {
        let whole = satellite.whole as u64;
        if self.has_rates() {
            let number = whole * (1 << DF419) + satellite.extended as u64;
            let number = number * (1 << DF398) + satellite.fraction as u64;
            number * (1 << DF399) + raw_of(satellite.rate as i64, DF399)
        } else {
            whole * (1 << DF398) + satellite.fraction as u64
        }
    }

    /// Returns the satellite whose fields are packed in the number.
    pub fn satellite_of(self, number: u64) -> Satellite
        requires { number < 2 ^ total_width (forms.satellite_widths self) }
        ensures { result ≡ satellite_data self number }
    {
        if self.has_rates() {
            Satellite {
                whole: (number / (1 << (DF419 + DF398 + DF399)) % (1 << DF397)) as u8,
                extended: (number / (1 << (DF398 + DF399)) % (1 << DF419)) as u8,
                fraction: (number / (1 << DF399) % (1 << DF398)) as u16,
                rate: signed_of(number % (1 << DF399), DF399) as i16,
            }
        } else {
            Satellite {
                whole: (number / (1 << DF398) % (1 << DF397)) as u8,
                extended: 0,
                fraction: (number % (1 << DF398)) as u16,
                rate: INVALID_ROUGH_RATE,
            }
        }
    }

    /// Returns a cell's fields in one number, the first field in the most significant bits.
    pub fn cell_number(self, cell: &Cell) -> u128
        requires { IsCellData self cell.now }
        ensures { result ≡ cell_number self cell.now }
    {
        let number = self.rateless_number(cell);
        if self.has_rates() {
            number * (1 << DF404) + raw_of(cell.rate as i64, DF404) as u128
        } else {
            number
        }
    }

    /// Returns the fields before the rate in one number.
    fn rateless_number(self, cell: &Cell) -> u128
        requires { IsCellData self cell.now }
        ensures value { result ≡ rateless_number (forms.is_fine self) cell.now }
        ensures bound { result < 2 ^ 65 }
    {
        if self.is_fine() {
            let range = raw_of(cell.range as i64, DF405);
            let first = range * (1 << DF406) + raw_of(cell.phase as i64, DF406);
            let number = first as u128 * (1 << DF407) + cell.lock as u128;
            (number * 2 + cell.half_cycle as u128) * (1 << DF408) + cell.strength as u128
        } else {
            let range = raw_of(cell.range as i64, DF400);
            let first = range * (1 << DF401) + raw_of(cell.phase as i64, DF401);
            let number = first as u128 * (1 << DF402) + cell.lock as u128;
            (number * 2 + cell.half_cycle as u128) * (1 << DF403) + cell.strength as u128
        }
    }

    /// Returns the cell whose fields are packed in the number.
    pub fn cell_of(self, number: u128) -> Cell
        requires { number < 2 ^ total_width (forms.cell_widths self) }
        ensures { result ≡ cell_data self number }
    {
        if self.has_rates() {
            Cell {
                rate: signed_of((number % (1 << DF404)) as u64, DF404) as i16,
                ..self.rateless(number / (1 << DF404))
            }
        } else {
            self.rateless(number)
        }
    }

    /// Returns the cell without a rate whose other fields are packed in the number.
    fn rateless(self, number: u128) -> Cell
        ensures { result ≡ rateless (forms.is_fine self) number }
    {
        if self.is_fine() {
            let lock = DF420 + DF408;
            let phase = DF407 + lock;
            let range = DF406 + phase;
            Cell {
                range: signed_of((number / (1 << range) % (1 << DF405)) as u64, DF405) as i32,
                phase: signed_of((number / (1 << phase) % (1 << DF406)) as u64, DF406) as i32,
                lock: (number / (1 << lock) % (1 << DF407)) as u16,
                half_cycle: number / (1 << DF408) % 2 == 1,
                strength: (number % (1 << DF408)) as u16,
                rate: INVALID_FINE_RATE,
            }
        } else {
            let lock = DF420 + DF403;
            let phase = DF402 + lock;
            let range = DF401 + phase;
            Cell {
                range: signed_of((number / (1 << range) % (1 << DF400)) as u64, DF400) as i32,
                phase: signed_of((number / (1 << phase) % (1 << DF401)) as u64, DF401) as i32,
                lock: (number / (1 << lock) % (1 << DF402)) as u16,
                half_cycle: number / (1 << DF403) % 2 == 1,
                strength: (number % (1 << DF403)) as u16,
                rate: INVALID_FINE_RATE,
            }
        }
    }
}
