//! The channels of GLONASS in a header, read back.
ghost use Rattle.std.specs.Prelude.{◌≡◌, ◌≤◌, ◌<◌, ◌+◌, ◌*◌, ℕ, List, None, Some, IfSome, drop, is_some, length, take};
ghost use Rattle.gnss_obs.specs.Channels.{most_number, no_channels, slot_count};
ghost use Rattle.rinex_columns.specs.Read.{digits_in};
ghost use Rattle.rinex_file.specs.inner.Read.HeaderSteps.{IsLineOfSlots, TakesOrRefusesSlots};
ghost use Rattle.rinex_file.specs.Slots.{SlotNumber, channel_text, last_slot, slots_in_line, slots_of};

use crate::header::lists::{SLOTS_IN_LINE, slots_with};
use gnss_obs::{Channels, GREATEST_CHANNEL_NUMBER, GREATEST_SLOT};
use rinex_columns::{columns, digits_in, is_same};

/// What was read of the channels.
#[derive(Drop)]
pub(crate) struct SlotsSoFar {
    /// The number of slots with a channel, by the first line of slots; zero before it is read.
    pub(crate) count: u8,
    /// The channels of the slots in the lines that were read.
    pub(crate) channels: Channels,
}

/// Returns the number of the channel in its two columns, or any number for other columns.
fn number_in(text: &[u8]) -> Option<u8>
    ensures bound { IfSome result (λ n. n ≤ most_number) }
    ensures read { (n : ℕ) → n ≤ most_number → text.now ≡ channel_text n → result ≡ Some n }
{
    let size = text.get(1)?.saturating_sub(b'0');
    let number = if text[0] == b'-' {
        7u8.saturating_sub(size)
    } else {
        size.saturating_add(7)
    };
    (number <= GREATEST_CHANNEL_NUMBER).then_some(number)
}

/// Returns the last slot with a channel, or 0 without one.
fn last_slot(channels: &Channels) -> u64
    ensures { result ≡ last_slot 0 (slots_of channels.now) }
{
    channels.are_channels();
    let mut last = 0;
    for i in 0..GREATEST_SLOT {
        if channels.number(i + 1).is_some() {
            last = i as u64 + 1;
        }
    }
    last
}

/// Adds the channels of the slots in a line, up to a number of slots in all. Returns the last slot,
/// or None if they don't follow one another.
fn take_slots(channels: &mut Channels, row: usize, end: usize, line: &[u8]) -> Option<u64>
    requires row { row < 4 }
    requires begun { length (slots_of channels.old) ≡ slots_in_line * row }
    requires end { (slots_in_line * row ≤ end) × (end ≤ slots_in_line * row + slots_in_line) }
    ensures last { IfSome result (λ last. last ≡ last_slot 0 (slots_of channels.new)) }
    ensures bound { IfSome result (λ last. last ≤ slot_count) }
    ensures size { IfSome result (λ last. length (slots_of channels.new) ≡ end) }
    ensures grows { IfSome result (λ last. take (slots_in_line * row) (slots_of channels.new) ≡ slots_of channels.old) }
    ensures taken { IfSome result (λ last. (count : ℕ) (all : List SlotNumber)
        → IsLineOfSlots row line.now count (slots_of channels.old) all → end ≤ length all
        → slots_of channels.new ≡ take end all) }
    ensures none { result ≡ None → (count : ℕ) (all : List SlotNumber)
        → IsLineOfSlots row line.now count (slots_of channels.old) all → end ≤ length all → ⊥ }
{
    channels.are_channels();
    let first = SLOTS_IN_LINE * row;
    let mut last = last_slot(channels);
    for index in first..end {
        // After four columns, each slot has seven, as `R01 -7 `.
        let column = 4 + 7 * (index - first);
        let slot = digits_in(columns(line, column + 1, 2));
        let number = number_in(columns(line, column + 4, 2))?;
        if slot <= last || slot > GREATEST_SLOT as u64 {
            return None;
        }
        channels.set(slot as u8, number);
        last = slot;
    }
    Some(last)
}

impl SlotsSoFar {
    /// Returns the slots of a header of which nothing was read.
    pub(crate) fn new() -> SlotsSoFar
        ensures count { result.count ≡ 0 }
        ensures channels { result.channels ≡ no_channels }
    {
        SlotsSoFar {
            count: 0,
            channels: Channels::none(),
        }
    }

    /// Returns the number of slots with a channel if this line is that of a row.
    fn read_count(&self, row: usize, line: &[u8]) -> u64
        ensures later { 0 < row → self.now.count ≡ result }
        ensures first { row ≡ 0 → result ≡ digits_in (take 3 (drop 0 line.now)) }
    {
        if row > 0 {
            return self.count as u64;
        }
        digits_in(columns(line, 0, 3))
    }

    /// Processes a line of slots, or returns None if it isn't one after those that were read, with
    /// which some file continues.
    pub(crate) fn take(&mut self, row: usize, line: &[u8]) -> Option<()>
        requires row { row < 4 }
        requires begun { length (slots_of self.old.channels) ≡ slots_in_line * row }
        requires few { 0 < row → slots_in_line * row < self.old.count }
        ensures { TakesOrRefusesSlots row line.now self.old.count (slots_of self.old.channels)
            self.new.count (slots_of self.new.channels) (is_some result) }
    {
        let count = self.read_count(row, line);
        if count > GREATEST_SLOT as u64 {
            return None;
        }
        let end = (count as usize).min(SLOTS_IN_LINE * row + SLOTS_IN_LINE);
        let last = take_slots(&mut self.channels, row, end, line)?;
        // Each slot that is left has a number above the last.
        let most = count - end as u64 + last;
        if most > GREATEST_SLOT as u64 {
            return None;
        }
        self.count = count as u8;
        let again = slots_with(count as usize, &self.channels, row);
        is_same(line, again.as_slice()).then_some(())
    }
}
