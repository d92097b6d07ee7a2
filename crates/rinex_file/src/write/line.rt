//! The lines of epochs and events: RINEX 3.05, table A3, "EPOCH record" and event flag 4. An event
//! precedes each epoch whose station values differ from those before.
ghost use Rattle.std.specs.Prelude.{◌≡◌, ◌≤◌};
ghost use Rattle.gnss_obs.specs.Dates.{civil_of};
ghost use Rattle.rinex_file.specs.File.{event_line};
ghost use Rattle.rinex_file.specs.Lines.{epoch_line};

use arrayvec::ArrayVec;
use gnss_obs::GpsTime;
use rinex_columns::{Line, put, put_seconds, put_two, put_whole};

/// Size of a buffer that has room for the line of an epoch, in bytes.
// A buffer is cleared when it is made: one of `MOST_LINE` bytes for each epoch would be 0.3 % of
// the instructions of `convert`, and 4 % with epochs of one cell.
pub(crate) const EPOCH_ROOM: usize = 320;

/// Writes the first line of an epoch, replacing the contents of the buffer: date and time of day,
/// the flag 0 and the number of its satellites, which fits its three columns up to 999.
pub fn epoch_line(time: GpsTime, satellites: usize, line: &mut Line)
    ensures { line.new.items ≡ epoch_line (civil_of time) satellites }
{
    put_epoch(time, satellites, line);
}

/// Writes the line of an epoch as [`epoch_line`] does, into a buffer of any size that has room.
// Not inlined into the loop over satellites, which is compiled better without it.
#[inline(never)]
pub(crate) fn put_epoch<const N: usize>(
    time: GpsTime,
    satellites: usize,
    line: &mut ArrayVec<u8, N>,
)
    requires { 320 ≤ N }
    ensures { line.new.items ≡ epoch_line (civil_of time) satellites }
{
    let civil = time.civil();
    line.clear();
    put(line, b"> ");
    put_whole(line, 4, civil.year as u64);
    put_two(line, civil.month);
    put_two(line, civil.day);
    put_two(line, civil.hour);
    put_two(line, civil.minute);
    put_seconds(line, 11, civil.millisecond);
    put(line, b"  0");
    put_whole(line, 3, satellites as u64);
    put(line, b"\n");
}

/// Returns the first line of an event: flag 4 without a time, and the number of header lines that
/// follow.
#[tactic(auto, unfolding(crate::specs::File::event_line))]
pub(crate) fn event_line() -> &'static [u8]
    ensures { result.now ≡ event_line }
{
    b">                              4  2\n"
}
