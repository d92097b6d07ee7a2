//! The streams of the four frames that are cut or damaged at each byte.
use crate::frames::{PLACES, SIZE, four_frames};

/// Returns whether `agrees` returns true of each of these streams: the four frames and those of the
/// last ones, with each end, and the four frames with each byte damaged, with their third frame
/// alone.
pub fn agrees_on_each<F: Fn(&[u8]) -> bool>(agrees: F) -> bool
    requires { F.IsAlwaysCallable agrees }
{
    for (from, _) in &PLACES {
        if !agrees_on_cut(&agrees, *from) {
            return false;
        }
    }
    agrees_on_damaged(&agrees)
}

/// Returns whether `agrees` returns true of the streams that begin there, with each end.
fn agrees_on_cut<F: Fn(&[u8]) -> bool>(agrees: &F, from: usize) -> bool
    requires { F.IsAlwaysCallable agrees.now }
{
    for end in from..=SIZE {
        if !agrees(four_frames().get(from..end).unwrap_or(&[])) {
            return false;
        }
    }
    true
}

/// Returns whether `agrees` returns true of the streams with one byte damaged.
fn agrees_on_damaged<F: Fn(&[u8]) -> bool>(agrees: &F) -> bool
    requires { F.IsAlwaysCallable agrees.now }
{
    for place in 0..SIZE {
        let damaged = damaged_at(place);
        if !agrees(&damaged) || !agrees(third_of(&damaged)) {
            return false;
        }
    }
    true
}

/// Returns the four frames with this byte damaged.
fn damaged_at(place: usize) -> [u8; SIZE] {
    let mut damaged = *four_frames();
    if place < SIZE {
        damaged[place] = !damaged[place];
    }
    damaged
}

/// Returns the third of four frames.
fn third_of(frames: &[u8; SIZE]) -> &[u8] {
    let (from, to) = PLACES[2];
    frames.get(from..to).unwrap_or(&[])
}
