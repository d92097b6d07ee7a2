//! GLONASS channels as text.
ghost use Rattle.std.specs.Prelude.{◌≡◌, ◌+◌, ◌*◌, ◌≤◌, length};
ghost use Rattle.gnss_obs.specs.Channels.{most_number, slot_count};
ghost use Rattle.line_texts.specs.ChannelTexts.{after_comma, channel_of, channels_of, channels_text};
ghost use Rattle.line_texts.specs.ChannelTexts.{slot_channel_of, slot_of, slot_text, with_entry, within};
ghost use Rattle.line_texts.specs.Lengths.{number_of};
ghost use Rattle.line_texts.specs.Lines.{IsTextWithin};
ghost use Rattle.line_texts.specs.inner.Parsed.{IsParsed};

use crate::line::OutputLine;
use crate::texts::{cut, number_of};
use gnss_obs::{Channels, GREATEST_SLOT};

/// Returns the channels of a text: slots from 1 to 27 with their channels from -7 to 6, as
/// `1:1,2:-4`, each slot once and in any order. An empty text has none. `None` for any other text.
pub fn channels_of(text: &str) -> Option<Channels>
    ensures { result ≡ channels_of text.now }
{
    if text.is_empty() {
        return Some(Channels::none());
    }
    let mut channels = Channels::none();
    let mut rest = text;
    while let Some((entry, after)) = rest.split_once(',') {
        channels = with_entry(channels, entry)?;
        rest = after;
    }
    with_entry(channels, rest)
}

/// Returns the channels with that of one more slot. `None` for a text of another form, and for a
/// slot that has a channel.
fn with_entry(mut known: Channels, text: &str) -> Option<Channels>
    ensures { result ≡ with_entry known text.now }
{
    let (slot, number) = slot_channel_of(text)?;
    if known.number(slot).is_some() {
        return None;
    }
    known.set(slot, number);
    Some(known)
}

/// Parses a slot and the number of its channel, separated by a colon.
fn slot_channel_of(text: &str) -> Option<(u8, u8)>
    ensures { IsParsed result (slot_channel_of text.now) (λ p. (1 ≤ p.0) × (p.0 ≤ slot_count) × (p.1 ≤ most_number)) }
{
    let (slot, channel) = cut(text, ':')?;
    Some((slot_of(slot)?, channel_of(channel)?))
}

/// Parses a slot from 1 to 27 without a leading zero.
fn slot_of(text: &str) -> Option<u8>
    ensures { IsParsed result (slot_of text.now) (λ n. (1 ≤ n) × (n ≤ slot_count)) }
{
    if text.starts_with('0') {
        return None;
    }
    within(text, 2, 1, GREATEST_SLOT)
}

/// Parses a channel from -7 to 6, and returns its number: the channel plus 7.
fn channel_of(text: &str) -> Option<u8>
    ensures { IsParsed result (channel_of text.now) (λ n. n ≤ most_number) }
{
    match text.strip_prefix('-') {
        Some(size) => Some(7 - within(size, 1, 1, 7)?),
        None => Some(7 + within(text, 1, 0, 6)?),
    }
}

/// Parses a number of at most this number of digits, within these bounds.
fn within(text: &str, digits: usize, least: u8, most: u8) -> Option<u8>
    requires { digits ≤ 2 }
    ensures { IsParsed result (within least most (number_of digits text.now)) (λ n. (least ≤ n) × (n ≤ most)) }
{
    let number = u8::try_from(number_of(text, digits)?).ok()?;
    (least <= number && number <= most).then_some(number)
}

/// Returns the text of channels, by rising slots.
pub fn channels_text(channels: &Channels) -> OutputLine
    ensures { IsTextWithin result (channels_text channels.now) (6 * slot_count) }
{
    channels.are_channels();
    let mut line = OutputLine::new();
    for i in 0..GREATEST_SLOT {
        if let Some(number) = channels.number(i + 1) {
            add_slot(&mut line, i + 1, number);
        }
    }
    line
}

/// Adds a slot and its channel, after a comma if another one is before it.
fn add_slot(line: &mut OutputLine, slot: u8, number: u8)
    requires slot { slot ≤ slot_count }
    requires number { number ≤ most_number }
    requires room { length line.old ≤ 6 * slot_count }
    ensures { line.new ≡ after_comma line.old (slot_text slot number) }
{
    if !line.as_bytes().is_empty() {
        line.put(b",");
    }
    line.put_number(u64::from(slot));
    line.put(if number < 7 { b":-" } else { b":" });
    line.put_number(u64::from(number.abs_diff(7)));
}
