//! The GPS weeks in ephemerides.
ghost use Rattle.std.specs.Prelude.{◌≡◌, ◌+◌, ◌*◌, ◌<◌, ◌≤◌, ◌^◌, IfSome};
ghost use Rattle.rtcm_msg.specs.Weeks as weeks;

use rtcm_bits::number_at;

/// The week in an ephemeris, and the time of week near which its clock parameters hold.
#[derive(Clone, Copy)]
pub struct SentWeek {
    /// The GPS week, of GPS (DF076) modulo 1,024, of BeiDou (DF489) and Galileo (DF289) counted
    /// from that in which their own weeks begin.
    pub week: u16,
    /// Whether the week is not modulo 1,024. It has no rollover for 78 years or more.
    pub is_whole: bool,
    /// The clock reference time toc (DF081, DF493, DF293), in seconds of the week of the system. It
    /// may be past the end of a week.
    pub clock: u32,
}

/// The fields of an ephemeris with its week and its clock reference time.
#[derive(Clone, Copy)]
pub struct WeekFields {
    /// The least number of bytes of the message.
    pub bytes: usize,
    /// The number of bits of the week.
    pub week_bits: u32,
    /// The GPS week in which the weeks of the system begin.
    pub added: u16,
    /// Whether the week is not modulo 1,024.
    pub is_whole: bool,
    /// The first bit of the clock reference time.
    pub clock_place: usize,
    /// Its number of bits.
    pub clock_bits: u32,
    /// Its unit in seconds.
    pub clock_unit: u32,
}

/// First bit of the week.
const WEEK_PLACE: usize = 18;

/// Least number of bytes of all ephemerides.
const LEAST_BYTES: usize = 61;

/// The fields of message 1045. Message 1046 has them at the same bits, and ends a byte later.
const GALILEO: WeekFields = WeekFields {
    bytes: 62,
    week_bits: 12,
    added: 1_024,
    is_whole: true,
    clock_place: 62,
    clock_bits: 14,
    clock_unit: 60,
};

/// Returns the week and the clock reference time of an ephemeris: a message 1019, 1042, 1045 or
/// 1046. `None` for another message, if it has not all of its fields, or if its week field is 0.
pub fn sent_week(bytes: &[u8]) -> Option<SentWeek>
    ensures value { result ≡ weeks.sent_week bytes.now }
    ensures bounds { IfSome result (λ x. (x.week < 2 ^ 14) × (x.clock < 2 ^ 23)) }
{
    let fields = week_fields(number_at(bytes.get(..LEAST_BYTES)?, 0, 12))?;
    read_week(bytes, &fields)
}

/// Returns the fields of an ephemeris of this number.
fn week_fields(number: u64) -> Option<WeekFields>
    ensures value { result ≡ weeks.week_fields number }
    ensures bounds { IfSome result (λ f. (61 ≤ f.bytes) × (f.bytes ≤ 64) × (f.week_bits ≤ 13) × (f.added ≤ 1_356)
        × (f.clock_place + f.clock_bits ≤ 76) × (f.clock_bits ≤ 17) × (f.clock_unit ≤ 60)) }
{
    match number {
        1019 => Some(WeekFields {
            bytes: 61,
            week_bits: 10,
            added: 0,
            is_whole: false,
            clock_place: 56,
            clock_bits: 16,
            clock_unit: 16,
        }),
        1042 => Some(WeekFields {
            bytes: 64,
            week_bits: 13,
            added: 1_356,
            is_whole: true,
            clock_place: 54,
            clock_bits: 17,
            clock_unit: 8,
        }),
        1045 => Some(GALILEO),
        1046 => Some(WeekFields {
            bytes: 63,
            ..GALILEO
        }),
        _ => None,
    }
}

/// Returns the week and the clock reference time in these fields.
#[inline(never)]
fn read_week(bytes: &[u8], fields: &WeekFields) -> Option<SentWeek>
    requires bytes { (61 ≤ fields.now.bytes) × (fields.now.bytes ≤ 64) }
    requires week { (fields.now.week_bits ≤ 13) × (fields.now.added ≤ 1_356) }
    requires clock { (fields.now.clock_place + fields.now.clock_bits ≤ 76) × (fields.now.clock_bits ≤ 17) }
    requires unit { fields.now.clock_unit ≤ 60 }
    ensures value { result ≡ weeks.week_by bytes.now fields.now }
    ensures bounds { IfSome result (λ x. (x.week < 2 ^ 14) × (x.clock < 2 ^ 23)) }
{
    let bytes = bytes.get(..fields.bytes)?;
    let week = number_at(bytes, WEEK_PLACE, fields.week_bits) as u16;
    if week == 0 {
        return None;
    }
    let clock = number_at(bytes, fields.clock_place, fields.clock_bits) as u32;
    Some(SentWeek {
        week: week + fields.added,
        is_whole: fields.is_whole,
        clock: clock * fields.clock_unit,
    })
}
