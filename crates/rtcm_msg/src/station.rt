//! The station messages 1005 and 1006.
ghost use Rattle.std.specs.Prelude.{◌≡◌, ◌+◌, ◌*◌, ◌≤◌, IfNone, Ok, length};
ghost use Rattle.rtcm_bits.specs.Bits.{bits_of, signed, FitsInt};
ghost use Rattle.rtcm_msg.specs.inner.Ranges.{fits_int};
ghost use Rattle.rtcm_msg.specs.Fields.{GivesViewed, cursor_at, field_at};
ghost use Rattle.rtcm_msg.specs.Packed.{total_width};
ghost use Rattle.rtcm_msg.specs.Station.{InRange, parts_in, field_widths};
ghost use Rattle.rtcm_msg.specs.inner.Refusals.{station_made, station_fault};
ghost use Rattle.rtcm_msg.specs.inner.MessageBits.{HasBits};
ghost use Rattle.rtcm_msg.specs.inner.Viewed.{viewed_message};
ghost use Rattle.rtcm_msg.specs.Decoding.{station_message_at};

use crate::fault::{Field, MsgFault, ValueFault, first_of};
use crate::field::{byte_at, end_of_fields, flag_at};
use crate::view::View;
use rtcm_bits::{number_at, signed_of};
use std::marker::Model;

/// The fields of a station message: message 1006 with a height, message 1005 without one.
#[derive(Clone, Copy, PartialEq)]
pub struct StationParts {
    /// Reference station ID, DF003: 12 bits.
    pub station: u16,
    /// ITRF realization year, DF021: 6 bits.
    pub realization: u8,
    /// GPS indicator, DF022.
    pub gps: bool,
    /// GLONASS indicator, DF023.
    pub glonass: bool,
    /// Galileo indicator, DF024.
    pub galileo: bool,
    /// Reference station indicator, DF141: whether the station is non-physical or computed.
    pub reference: bool,
    /// Antenna reference point ECEF-X, DF025: 38 bits with a sign, in 0.0001 m.
    pub x: i64,
    /// Single receiver oscillator indicator, DF142.
    pub oscillator: bool,
    /// Antenna reference point ECEF-Y, DF026: 38 bits with a sign, in 0.0001 m.
    pub y: i64,
    /// Quarter cycle indicator, DF364: 2 bits.
    pub quarter: u8,
    /// Antenna reference point ECEF-Z, DF027: 38 bits with a sign, in 0.0001 m.
    pub z: i64,
    /// Antenna height, DF028: 16 bits, in 0.0001 m. Only message 1006 has it.
    pub height: Option<u16>,
}

/// A station message, 1005 or 1006, whose fields are all in range.
#[derive(Clone, Copy)]
pub struct Station {
    /// The fields.
    parts: StationParts,
}

impl Model for Station {
    ghost use Rattle.rtcm_msg.specs.declared.station.StationParts.{StationParts};

    ghost Value = { StationParts };

    ghost use Rattle.rtcm_msg.specs.Station.{InRange};

    ghost view = { λ s. s.parts };

    ghost invariant = { λ s. InRange s.parts };

    ghost inverse = { λ s. record { parts = s } };
}

impl Station {
    /// Returns the station message with these fields.
    ///
    /// # Errors
    ///
    /// `OutOfRange` with the first field, in the order of the message, that does not fit its bits.
    pub fn new(parts: StationParts) -> Result<Station, ValueFault>
        ensures exact { result ≡ station_made (station_fault parts) parts }
        ensures accepted { InRange parts → result ≡ Ok parts }
    {
        match station_fault(parts) {
            Some(field) => Err(ValueFault::OutOfRange(field)),
            None => Ok(Station { parts }),
        }
    }

    /// Returns the fields of the message.
    pub fn parts(&self) -> StationParts
        ensures value { result ≡ self.now }
        ensures in_range { InRange result }
    {
        self.parts
    }
}

/// Returns whether a coordinate fits its 38 bits.
fn is_coordinate(number: i64) -> bool
    ensures { result ≡ fits_int 38 number }
{
    -(1 << 37) <= number && number < 1 << 37
}

/// Returns the first field, in the order of the message, that does not fit its bits.
fn station_fault(parts: StationParts) -> Option<Field>
    ensures first { result ≡ station_fault parts }
    ensures none { IfNone result (InRange parts) }
{
    first_of(&[
        (parts.station >= 1 << 12, Field::Station),
        (parts.realization >= 1 << 6, Field::Realization),
        (!is_coordinate(parts.x), Field::X),
        (!is_coordinate(parts.y), Field::Y),
        (parts.quarter >= 1 << 2, Field::Quarter),
        (!is_coordinate(parts.z), Field::Z),
    ])
}

/// Widths in bits of the fields of message 1006 after the message number: DF003, DF021 to DF024,
/// DF141, DF025, DF142, a reserved bit, DF026, DF364, DF027 and DF028. Message 1005 has all but the
/// last.
const STATION_WIDTHS: &[u32] = &[12, 6, 1, 1, 1, 1, 38, 1, 1, 38, 2, 38, 16];

/// Returns a coordinate of the antenna reference point, DF025 to DF027: 38 bits with a sign.
fn coordinate_at(bytes: &[u8], place: usize) -> i64
    requires { HasBits bytes.now (place + 38) }
    ensures value { result ≡ signed 38 (field_at (bits_of bytes.now) place 38) }
    ensures fits { FitsInt 38 result }
{
    signed_of(number_at(bytes, place, 38), 38)
}

/// Returns the fields of a station message.
fn parts_in(bytes: &[u8], has_height: bool) -> StationParts
    requires there { HasBits bytes.now (12 + total_width (field_widths has_height)) }
    requires common { 152 ≤ 8 * length bytes.now }
    ensures value { result ≡ parts_in has_height (bits_of bytes.now) }
    ensures in_range { InRange result }
{
    StationParts {
        station: number_at(bytes, 12, 12) as u16,
        realization: byte_at(bytes, 24, 6),
        gps: flag_at(bytes, 30),
        glonass: flag_at(bytes, 31),
        galileo: flag_at(bytes, 32),
        reference: flag_at(bytes, 33),
        x: coordinate_at(bytes, 34),
        oscillator: flag_at(bytes, 72),
        y: coordinate_at(bytes, 74),
        quarter: byte_at(bytes, 112, 2),
        z: coordinate_at(bytes, 114),
        height: if has_height {
            Some(number_at(bytes, 152, 16) as u16)
        } else {
            None
        },
    }
}

/// Reads a station message after its message number.
///
/// # Errors
///
/// `Short` if a field does not end within the message.
pub(crate) fn view_station(bytes: &[u8], has_height: bool) -> Result<View<'_>, MsgFault>
    requires { HasBits bytes.now 12 }
    ensures { GivesViewed viewed_message result (station_message_at has_height (cursor_at (bits_of bytes.now) 12)) }
{
    end_of_fields(bytes, &STATION_WIDTHS[..12 + has_height as usize], 1, 12)?;
    let parts = parts_in(bytes, has_height);
    Ok(View::Station(Station { parts }))
}
