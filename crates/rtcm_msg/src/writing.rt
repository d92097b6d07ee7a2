//! The fields of a message, written in order.
ghost use Rattle.std.specs.Prelude.{◌≡◌, ◌+◌, ◌*◌, ◌/◌, ◌^◌, ◌<◌, ◌≤◌, ◌++◌, length, IsTrue, nat_le, All};
ghost use Rattle.std.specs.List.{list_all, flat_map};
ghost use Rattle.rtcm_bits.specs.Bits.{uint};
ghost use Rattle.rtcm_bits.specs.FrameOf.{longest_message_bits};
ghost use Rattle.rtcm_msg.specs.Fields.{field_bits, fields_width};
ghost use Rattle.rtcm_msg.specs.Station.{InRange, station_fields};
ghost use Rattle.rtcm_msg.specs.Msm.{header_fields, mask_fields};
ghost use Rattle.rtcm_msg.specs.Packed.{columns, total_width};

use crate::header::{Masks, MsmHeader, SATELLITE_MASK_BITS, SIGNAL_MASK_BITS};
use crate::station::StationParts;
use rtcm_bits::{BitWriter, raw_of};

/// Writes fields in order, each given by its width in bits and its number.
fn write_fields(writer: &mut BitWriter, fields: &[(u32, u64)])
    requires few { IsTrue (list_all (λ f. nat_le f.0 64) fields.now) }
    requires room { length writer.old + fields_width fields.now ≤ longest_message_bits }
    ensures bits { writer.new ≡ writer.old ++ field_bits fields.now }
    ensures len { length writer.new ≡ length writer.old + fields_width fields.now }
{
    for (width, number) in fields {
        writer.put(*number, *width);
    }
}

/// Writes a station message with its message number.
pub(crate) fn write_station(writer: &mut BitWriter, parts: &StationParts)
    requires room { length writer.old + 168 ≤ longest_message_bits }
    requires in_range { InRange parts.now }
    ensures { writer.new ≡ writer.old ++ field_bits (station_fields parts.now 0) }
{
    let fields = [
        (12, 1005 + parts.height.is_some() as u64),
        (12, parts.station as u64),
        (6, parts.realization as u64),
        (1, parts.gps as u64),
        (1, parts.glonass as u64),
        (1, parts.galileo as u64),
        (1, parts.reference as u64),
        (38, raw_of(parts.x, 38)),
        (1, parts.oscillator as u64),
        (1, 0),
        (38, raw_of(parts.y, 38)),
        (2, parts.quarter as u64),
        (38, raw_of(parts.z, 38)),
    ];
    write_fields(writer, &fields);
    if let Some(height) = parts.height {
        writer.put(height as u64, 16);
    }
}

/// Writes the header of an MSM with its message number, and the masks, DF394 to DF396.
pub(crate) fn write_head(writer: &mut BitWriter, number: u16, header: &MsmHeader, masks: &Masks)
    requires { length writer.old + 233 ≤ longest_message_bits }
    ensures bits { writer.new ≡ writer.old ++ field_bits (header_fields number header.now 0 ++ mask_fields masks.now) }
    ensures len { length writer.new ≤ length writer.old + 233 }
{
    // Brings the bound on the number of pairs into the proof.
    let _ = masks.cells();
    let pairs = masks.satellites().count_ones() * masks.signals().count_ones();
    let fields = [
        (12, number as u64),
        (12, header.station as u64),
        (30, header.time as u64),
        (1, header.more as u64),
        (3, header.iods as u64),
        (7, 0),
        (2, header.steering as u64),
        (2, header.clock as u64),
        (1, header.smoothing as u64),
        (3, header.interval as u64),
        (SATELLITE_MASK_BITS, masks.satellites()),
        (SIGNAL_MASK_BITS, masks.signals() as u64),
        (pairs, masks.cells()),
    ];
    write_fields(writer, &fields);
}

/// Writes one field of each satellite or cell: `width` bits above the low `shift` bits of its
/// number.
fn write_column(writer: &mut BitWriter, shift: u32, width: u32, numbers: &[u128])
    requires few { width ≤ 64 }
    requires shift { shift < 128 }
    requires room { length writer.old + width * length numbers.now ≤ longest_message_bits }
    ensures bits { writer.new ≡ writer.old ++ flat_map (λ p. uint width (p / 2 ^ shift)) numbers.now }
    ensures len { length writer.new ≡ length writer.old + width * length numbers.now }
{
    for number in numbers {
        writer.put((*number / (1 << shift) % (1 << width)) as u64, width);
    }
}

/// Writes the fields of all satellites or cells, field by field.
pub(crate) fn write_columns(writer: &mut BitWriter, widths: &[u32], numbers: &[u128])
    requires few { All (λ w. w ≤ 64) widths.now }
    requires wide { total_width widths.now < 128 }
    requires room { length writer.old + total_width widths.now * length numbers.now ≤ longest_message_bits }
    ensures bits { writer.new ≡ writer.old ++ columns widths.now numbers.now }
    ensures len { length writer.new ≡ length writer.old + total_width widths.now * length numbers.now }
{
    let mut shift = total_width(widths);
    for width in widths {
        shift -= *width;
        write_column(writer, shift, *width, numbers);
    }
}

/// Returns the sum of the widths.
fn total_width(widths: &[u32]) -> u32
    requires { total_width widths.now ≤ 128 }
    ensures { result ≡ total_width widths.now }
{
    let mut sum = 0;
    for width in widths {
        sum += *width;
    }
    sum
}
