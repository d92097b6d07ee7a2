//! The commands `frames` and `show`: a line for each frame, or for each message, of a stream.
ghost use Rattle.std.specs.Prelude.{◌≡◌, ◌+◌, ◌≤◌, ◌∷◌, ◌++◌, IfOk, true, false, length};
ghost use Rattle.devices.specs.Device.{WritesText};
ghost use Rattle.devices.specs.Devices.{Changes};
ghost use Rattle.rtcm_bits.specs.FrameOf.{longest_message};
ghost use Rattle.rtcm_scan.specs.inner.Results.{framed};
ghost use Rattle.rtcm_scan.specs.Scan.{most_bytes};
ghost use Rattle.rtcm_msg.specs.Equipment.{AreShort, values_of};
ghost use Rattle.rtcm_msg.specs.Station.{InRange};
ghost use Rattle.rtcm_msg.specs.Numbers.{message_number};
ghost use Rattle.rtcm_inspect.specs.FrameLines.{frame_line, frame_lines, number_word};
ghost use Rattle.line_texts.specs.Lines.{AddsWords, IsTextWithin};
ghost use Rattle.rtcm_inspect.specs.inner.Lines.{longest_prefix};
ghost use Rattle.rtcm_inspect.specs.ShowLines.{fault_words, read_for, message_line, msm_line, show_line, show_lines};
ghost use Rattle.rtcm_inspect.specs.ShowLines.{station_line};
ghost use Rattle.rtcm_msg.specs.Fields.{GivesViewed};
ghost use Rattle.rtcm_msg.specs.inner.Viewed.{viewed_message};
ghost use Rattle.rtcm_inspect.specs.EquipmentLines.{equipment_line};
ghost use Rattle.rtcm_inspect.specs.Listing.{EndsListing, listing_lines};

use crate::equipment::{add_equipment_fault, equipment_text};
use crate::fault::InspectFault;
use devices::{Counted, Deliver, DeviceFailed};
use line_texts::OutputLine;
use rtcm_bits::BitReader;
use rtcm_msg::{
    Equipment, EquipmentFault, MsgFault, MsmSet, MsmView, StationParts, View, equipment_in, look,
    look_in, time_of_week,
};
use rtcm_scan::{Frame, FrameSink, Framer, MOST_BYTES, laws};
use std::alloc::Global;
use std::io::Read;

/// Largest number of bytes read at a time.
pub const PIECE_BYTES: usize = 65_536;

/// The lines that are written for a stream.
#[derive(Clone, Copy)]
pub enum Listing {
    /// A line for each frame.
    Frames,
    /// A line for each message that `convert` reads or refuses by default: of MSMs, MSM4 and MSM7 of
    /// GPS and Galileo.
    Messages,
    /// A line for each message that is read or refused.
    AllMessages,
}

impl<W: Deliver> FrameSink<Counted<W>> for Listing {
    ghost use Rattle.std.specs.Prelude.{◌≡◌, []};
    ghost use Rattle.rtcm_inspect.specs.Listing.{Lists, ListsUpTo};

    type Fault = DeviceFailed;

    ghost is_sent = { λ o. W.waiting o.inner ≡ [] };

    ghost took = { Lists W.contents };

    ghost broke = { ListsUpTo W.contents };

    fn take(&mut self, frame: &Frame, out: &mut Counted<W>) -> Result<(), DeviceFailed> {
        match self {
            Listing::Frames => write_frame(frame, out),
            // One call, as two would make the loop over the lines of `frames` slower by 3 %.
            Listing::Messages | Listing::AllMessages => {
                write_any(matches!(self, Listing::AllMessages), frame, out)
            }
        }
    }

    fn send(&self, out: &mut Counted<W>) -> Result<(), DeviceFailed> {
        out.flush_whole()
    }
}

/// Writes the line of a frame.
fn write_frame<W: Deliver>(frame: &Frame, out: &mut Counted<W>) -> Result<(), DeviceFailed>
    ensures { WritesText result W.contents out.old out.new (frame_line (framed frame.now)) }
{
    let mut line = OutputLine::new();
    add_frame(&mut line, frame);
    out.write_whole(line.as_bytes())
}

/// Writes the line of a frame's message, if it is read or refused.
// Inlined into the loop of `frames`, its buffers would be cleared for every frame.
#[inline(never)]
fn write_message<W: Deliver>(
    all: bool,
    frame: &Frame,
    out: &mut Counted<W>,
) -> Result<(), DeviceFailed>
    ensures { WritesText result W.contents out.old out.new (message_line all (framed frame.now)) }
{
    let mut line = OutputLine::new();
    add_message(&mut line, all, frame);
    out.write_whole(line.as_bytes())
}

/// Writes the line of a frame's message, if it is read or refused, or, with `all`, if it is an
/// antenna or a receiver.
#[inline(never)]
fn write_any<W: Deliver>(all: bool, frame: &Frame, out: &mut Counted<W>) -> Result<(), DeviceFailed>
    ensures { WritesText result W.contents out.old out.new (show_line all (framed frame.now)) }
{
    if !all {
        return write_message(false, frame, out);
    }
    match equipment_in(frame.message.as_slice()) {
        Some(read) => write_equipment(&read, frame, out),
        None => write_message(true, frame, out),
    }
}

/// Writes the line of an antenna and a receiver. If they aren't read it is their offset, number and
/// fault.
fn write_equipment<W: Deliver>(
    read: &Result<Equipment<'_>, EquipmentFault>,
    frame: &Frame,
    out: &mut Counted<W>,
) -> Result<(), DeviceFailed>
    requires { IfOk read.now (λ e. AreShort e.texts.items) }
    ensures { WritesText result W.contents out.old out.new (equipment_line (framed frame.now) (values_of read.now)) }
{
    match read {
        Ok(equipment) => out.write_whole(equipment_text(frame.offset, equipment).as_slice()),
        Err(fault) => {
            let mut line = OutputLine::new();
            line.put_number(frame.offset);
            add_message_number(&mut line, frame.message.as_slice());
            add_equipment_fault(&mut line, *fault);
            line.finish();
            out.write_whole(line.as_bytes())
        }
    }
}

/// Writes a line for each frame of the stream: its offset and the length of its message in bytes,
/// and the message number (DF002).
///
/// # Errors
///
/// Those of `list`.
pub fn run_frames<R: Read, W: Deliver>(
    alloc: Global,
    reader: &mut Counted<R>,
    writer: &mut Counted<W>,
) -> Result<(), InspectFault>
    ensures { Changes R.remaining reader.old reader.new W.contents W.waiting writer.old writer.new
        (EndsListing result most_bytes frame_lines) }
{
    list(alloc, Listing::Frames, MOST_BYTES, reader, writer)
}

/// Writes a line for each message of the stream that `convert` reads or refuses by default: a
/// station, the head of an MSM, or the fault.
///
/// # Errors
///
/// Those of `list`.
pub fn run_show<R: Read, W: Deliver>(
    alloc: Global,
    reader: &mut Counted<R>,
    writer: &mut Counted<W>,
) -> Result<(), InspectFault>
    ensures { Changes R.remaining reader.old reader.new W.contents W.waiting writer.old writer.new
        (EndsListing result most_bytes (show_lines false)) }
{
    list(alloc, Listing::Messages, MOST_BYTES, reader, writer)
}

/// Writes the lines of a stream of at most `limit` bytes, and delivers them after each piece that
/// is read.
///
/// # Errors
///
/// `Read` if the reader failed, `Write` if the writer failed, `TooLong` if the stream is longer than
/// the limit, and `Memory`.
pub fn list<R: Read, W: Deliver>(
    alloc: Global,
    mut listing: Listing,
    limit: u64,
    reader: &mut Counted<R>,
    writer: &mut Counted<W>,
) -> Result<(), InspectFault>
    requires { limit ≤ most_bytes }
    ensures { Changes R.remaining reader.old reader.new W.contents W.waiting writer.old writer.new
        (EndsListing result limit (listing_lines listing)) }
{
    // The limit is valid, so a framer is refused only when out of memory.
    let Ok(mut framer) = Framer::new(alloc, limit) else {
        return Err(InspectFault::Memory);
    };
    let mut buffer = [0; PIECE_BYTES];
    laws::prefix();
    let read = framer.read_frames(reader, &mut buffer, &mut listing, writer);
    drop(framer);
    match read {
        Ok(()) => Ok(()),
        Err(fault) => Err(InspectFault::from(fault)),
    }
}

/// Adds the line of a frame: its offset and the length of its message in bytes, and the message
/// number (DF002).
fn add_frame(line: &mut OutputLine, frame: &Frame)
    requires { length line.old ≤ longest_prefix }
    ensures { line.new ≡ line.old ++ frame_line (framed frame.now) }
{
    line.put_number(frame.offset);
    line.add_number(frame.message.len() as u64);
    add_message_number(line, frame.message.as_slice());
    line.finish();
}

/// Adds the line of a frame's message, if it is read or refused. That of a refused message is its
/// offset, number and fault.
fn add_message(line: &mut OutputLine, all: bool, frame: &Frame)
    requires { length line.old ≤ longest_prefix }
    ensures { line.new ≡ line.old ++ message_line all (framed frame.now) }
{
    let message = frame.message.as_slice();
    match read_for(all, message) {
        Ok(view) => match &view {
            View::Station(station) => add_station(line, frame.offset, station.parts()),
            View::Msm(msm) => add_msm(line, frame.offset, msm),
            View::Other { .. } => {}
        },
        Err(fault) => {
            line.put_number(frame.offset);
            add_message_number(line, message);
            add_fault(line, fault);
            line.finish();
        }
    }
}

/// Reads a message: one of all, or one that `convert` reads by default.
fn read_for(all: bool, message: &[u8]) -> Result<View<'_>, MsgFault>
    ensures { GivesViewed viewed_message result (read_for all message.now) }
{
    if all {
        look(message)
    } else {
        look_in(&MsmSet::default(), message)
    }
}

/// Adds the number of a message, or a dash if it has fewer than 12 bits.
fn add_message_number(line: &mut OutputLine, message: &[u8])
    requires room { length line.old ≤ 235 }
    requires short { length message.now ≤ longest_message }
    ensures { IsTextWithin line.new (line.old ++ 0x20 ∷ number_word message.now) (length line.old + 21) }
{
    match BitReader::new(message).unsigned(12) {
        Some(number) => line.add_number(number),
        None => line.add_word("-"),
    }
}

/// Adds the line of a station message: offset, number, station, X, Y and Z in metres, and the
/// height of a 1006 in metres.
fn add_station(line: &mut OutputLine, offset: u64, station: StationParts)
    requires room { length line.old ≤ longest_prefix }
    requires in_range { InRange station }
    ensures { line.new ≡ line.old ++ station_line offset station }
{
    line.put_number(offset);
    line.add_number(if station.height.is_some() { 1006 } else { 1005 });
    line.add_number(station.station as u64);
    line.add_metres(b' ', station.x);
    line.add_metres(b' ', station.y);
    line.add_metres(b' ', station.z);
    if let Some(height) = station.height {
        line.add_metres(b' ', i64::from(height));
    }
    line.finish();
}

/// Adds the line of an MSM: offset, number, station, epoch time, DF393, and the numbers of
/// satellites, signals and cells.
fn add_msm(line: &mut OutputLine, offset: u64, msm: &MsmView<'_>)
    requires { length line.old ≤ longest_prefix }
    ensures { line.new ≡ line.old ++ msm_line offset (message_number msm.now.form msm.now.msm.system) msm.now.msm }
{
    let header = msm.header();
    line.put_number(offset);
    line.add_number(msm.number() as u64);
    line.add_number(header.station as u64);
    line.add_number(time_of_week(msm.system(), header.time) as u64);
    line.add_number(u64::from(header.more));
    line.add_number(msm.satellites() as u64);
    line.add_number(msm.masks().signals().count_ones() as u64);
    line.add_number(msm.cells() as u64);
    line.finish();
}

/// Adds the name of a fault and, for `Short`, the index of the first bit of the field.
fn add_fault(line: &mut OutputLine, fault: MsgFault)
    requires { length line.old ≤ 200 }
    ensures { AddsWords line.old line.new (fault_words fault) 40 }
{
    match fault {
        MsgFault::Short(bits) => line.add_count("Short", bits as u64),
        MsgFault::TooManyCells => line.add_word("TooManyCells"),
        MsgFault::BadTime => line.add_word("BadTime"),
    }
}
