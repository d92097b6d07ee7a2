//! The header of an MSM and its masks: its satellites, its signals and its cells.
ghost use Rattle.std.specs.Prelude.{◌≡◌, ◌*◌, ◌<◌, ◌≤◌, Ok, Err, IfOk, IfErr, IfNone, IsTrue, length};
ghost use Rattle.gnss_system.specs.declared.system.System.{System};
ghost use Rattle.rtcm_bits.specs.Bits.{bits_of};
ghost use Rattle.rtcm_msg.specs.Fields.{cursor_at};
ghost use Rattle.rtcm_msg.specs.Msm.{header_at, header_in, masks_at, AreMasks, is_time, time_of_week, IsHeader};
ghost use Rattle.rtcm_msg.specs.Decoding.{formed_at};
ghost use Rattle.rtcm_msg.specs.declared.view.Form.{Form};
ghost use Rattle.rtcm_msg.specs.inner.Refusals.{header_fault, masks_of};
ghost use Rattle.rtcm_msg.specs.inner.MessageBits.{HasBits};

use crate::fault::{Field, MsgFault, ValueFault, first_of};
use crate::field::{byte_at, end_of_fields, flag_at};
use gnss_system::{System, TimeScale};
use rtcm_bits::number_at;
use std::marker::Model;

/// Number of milliseconds of a week.
pub const WEEK: u32 = 604_800_000;

/// The header fields of a multiple signal message (MSM) after its message number.
#[derive(Clone, Copy, PartialEq)]
pub struct MsmHeader {
    /// Reference station ID, DF003: 12 bits.
    pub station: u16,
    /// Epoch time, 30 bits, in milliseconds of the week, below 604,800,000: DF004 for GPS and SBAS,
    /// DF248 for Galileo, DF427 for BeiDou, DF428 for QZSS. For GLONASS the day of the week, DF416,
    /// 0 to 6, in the high 3 bits, and milliseconds of the day, DF034, to 86,400,999, in the others.
    pub time: u32,
    /// Multiple message bit, DF393: whether more MSMs of this station and time follow.
    pub more: bool,
    /// Issue of data station, DF409: 3 bits.
    pub iods: u8,
    /// Clock steering indicator, DF411: 2 bits.
    pub steering: u8,
    /// External clock indicator, DF412: 2 bits.
    pub clock: u8,
    /// Divergence-free smoothing indicator, DF417.
    pub smoothing: bool,
    /// Smoothing interval, DF418: 3 bits.
    pub interval: u8,
}

/// Number of bits of DF034, the time of day of GLONASS.
const DAY_BITS: u32 = 27;

/// Number of milliseconds of a day with a leap second.
const LONGEST_DAY: u32 = 86_401_000;

/// Returns whether an epoch time is one of a system: a time of week, or of GLONASS a known day of
/// the week, DF416, and a time of day, DF034.
#[inline(always)]
pub(crate) fn is_time(system: System, time: u32) -> bool
    ensures { result ≡ is_time system time }
{
    match system.time_scale() {
        TimeScale::Glonass => time >> DAY_BITS < 7 && time % (1 << DAY_BITS) < LONGEST_DAY,
        _ => time < WEEK,
    }
}

/// Returns an epoch time of a system in milliseconds of the week in its time scale: of GLONASS the
/// day of the week, DF416, and the time of day, DF034, are apart.
#[inline(always)]
pub fn time_of_week(system: System, time: u32) -> u32
    ensures value { result ≡ time_of_week system time }
    ensures bound { IsTrue (is_time system time) → result < 604801000 }
{
    match system.time_scale() {
        TimeScale::Glonass => 86_400_000 * (time >> DAY_BITS) + time % (1 << DAY_BITS),
        _ => time,
    }
}

/// Returns the header of an MSM with this epoch time.
pub(crate) fn header_in(bytes: &[u8], time: u32) -> MsmHeader
    requires { HasBits bytes.now 73 }
    ensures value { result ≡ header_in (bits_of bytes.now) time }
    ensures is_header { (system : System) → IsTrue (is_time system time) → IsHeader system result }
{
    MsmHeader {
        station: number_at(bytes, 12, 12) as u16,
        time,
        more: flag_at(bytes, 54),
        iods: byte_at(bytes, 55, 3),
        steering: byte_at(bytes, 65, 2),
        clock: byte_at(bytes, 67, 2),
        smoothing: flag_at(bytes, 69),
        interval: byte_at(bytes, 70, 3),
    }
}

/// Returns the first field, in the order of the layout, that does not fit its bits. The epoch time
/// was checked before.
pub(crate) fn header_fault(header: &MsmHeader) -> Option<Field>
    ensures first { result ≡ header_fault header.now }
    ensures none { (system : System) → IsTrue (is_time system header.now.time)
        → IfNone result (IsHeader system header.now) }
{
    first_of(&[
        (header.station >= 1 << 12, Field::Station),
        (header.iods >= 1 << 3, Field::Iods),
        (header.steering >= 1 << 2, Field::Steering),
        (header.clock >= 1 << 2, Field::Clock),
        (header.interval >= 1 << 3, Field::Interval),
    ])
}

/// Number of bits of the satellite mask, DF394.
pub(crate) const SATELLITE_MASK_BITS: u32 = 64;

/// Number of bits of the signal mask, DF395.
pub(crate) const SIGNAL_MASK_BITS: u32 = 32;

/// Largest number of bits of the cell mask, DF396.
const MOST_CELL_MASK_BITS: u32 = 64;

/// Largest number of pairs of a satellite and a signal, and so of cells in a message.
pub(crate) const MOST_PAIRS: usize = MOST_CELL_MASK_BITS as usize;

/// The masks of an MSM: its satellites, its signals, and the pairs of both that have a cell. There
/// are at most 64 pairs.
#[derive(Clone, Copy)]
pub struct Masks {
    /// The satellite mask, DF394: the most significant bit is ID 1.
    satellites: u64,
    /// The signal mask, DF395: the most significant bit is ID 1.
    signals: u32,
    /// The cell mask, DF396, with the last pair in the least significant bit.
    cells: u64,
}

impl Model for Masks {
    ghost use Rattle.rtcm_msg.specs.Msm.{MasksValue, AreMasks};

    ghost Value = { MasksValue };

    ghost view = { λ m. record { satellites = m.satellites; signals = m.signals; cells = m.cells } };

    ghost invariant = { λ m. AreMasks (record { satellites = m.satellites; signals = m.signals; cells = m.cells }) };

    ghost inverse = { λ s. record { satellites = s.satellites; signals = s.signals; cells = s.cells } };
}

impl Masks {
    /// Returns the masks of an MSM: satellites DF394, signals DF395, cells DF396. The most
    /// significant bit of the first two is ID 1. The cell mask has one bit for each pair, ordered
    /// by satellite and then by signal; it is a number with the first pair in its most significant
    /// bit.
    ///
    /// # Errors
    ///
    /// `TooManyCells` if there are more than 64 pairs of a satellite and a signal, else
    /// `OutOfRange(Field::Cells)` if the cell mask has more bits than there are pairs.
    pub fn new(satellites: u64, signals: u32, cells: u64) -> Result<Masks, ValueFault>
        ensures { result ≡ masks_of satellites signals cells }
    {
        let pairs = satellites.count_ones() * signals.count_ones();
        if pairs > MOST_CELL_MASK_BITS {
            return Err(ValueFault::TooManyCells);
        }
        if pairs < MOST_CELL_MASK_BITS && cells >= 1 << pairs {
            return Err(ValueFault::OutOfRange(Field::Cells));
        }
        Ok(Masks {
            satellites,
            signals,
            cells,
        })
    }

    /// Returns the satellite mask, DF394.
    pub fn satellites(&self) -> u64
        ensures { result ≡ self.now.satellites }
    {
        self.satellites
    }

    /// Returns the signal mask, DF395.
    pub fn signals(&self) -> u32
        ensures { result ≡ self.now.signals }
    {
        self.signals
    }

    /// Returns the cell mask, DF396, as a number with the last pair in the least significant bit.
    pub fn cells(&self) -> u64
        ensures value { result ≡ self.now.cells }
        ensures sets { AreMasks self.now }
    {
        self.cells
    }
}

/// Widths in bits of the first fields after the message number: DF003, and the epoch time.
const TIME_WIDTHS: &[u32] = &[12, 30];

/// Widths of the fields after the epoch time: DF393, DF409, 7 reserved bits, DF411, DF412, DF417
/// and DF418 of the header, and the first two masks, DF394 and DF395.
const HEAD_WIDTHS: &[u32] = &[1, 3, 7, 2, 2, 1, 3, SATELLITE_MASK_BITS, SIGNAL_MASK_BITS];

/// Reads the header and the masks of an MSM after its message number, and returns them with the bit
/// after them. An epoch time that isn't one of the system is refused before the fields after it are
/// read, and more than 64 pairs before the third mask is read.
///
/// # Errors
///
/// `Short` if a field does not end within the message, `BadTime` for a time that isn't one of the
/// system, `TooManyCells` for more than 64 pairs.
pub(crate) fn read_head(system: System, bytes: &[u8]) -> Result<(MsmHeader, Masks, usize), MsgFault>
    requires { HasBits bytes.now 12 }
    ensures read { IfOk result (λ x.
        (header_at system (cursor_at (bits_of bytes.now) 12) ≡ Ok (x.0, cursor_at (bits_of bytes.now) 73))
        × (masks_at (cursor_at (bits_of bytes.now) 73) ≡ Ok (x.1, cursor_at (bits_of bytes.now) x.2))) }
    ensures is_header { IfOk result (λ x. IsHeader system x.0) }
    ensures within { IfOk result (λ x. (169 ≤ x.2) × (x.2 ≤ 8 * length bytes.now)) }
    ensures fault { IfErr result (λ e. (form : Form)
        → formed_at form system (cursor_at (bits_of bytes.now) 12) ≡ Err e) }
{
    end_of_fields(bytes, TIME_WIDTHS, 1, 12)?;
    let time = number_at(bytes, 24, 30) as u32;
    if !is_time(system, time) {
        return Err(MsgFault::BadTime);
    }
    end_of_fields(bytes, HEAD_WIDTHS, 1, 54)?;
    let satellites = number_at(bytes, 73, SATELLITE_MASK_BITS);
    let signals = number_at(bytes, 137, SIGNAL_MASK_BITS) as u32;
    let pairs = satellites.count_ones() * signals.count_ones();
    if pairs > MOST_CELL_MASK_BITS {
        return Err(MsgFault::TooManyCells);
    }
    let end = end_of_fields(bytes, &[pairs], 1, 169)?;
    let masks = Masks {
        satellites,
        signals,
        cells: number_at(bytes, 169, pairs),
    };
    Ok((header_in(bytes, time), masks, end))
}
