//! Looks at the bytes of a window.
ghost use Rattle.std.specs.Prelude.{◌≡◌, ◌≢◌, ◌+◌, ◌-◌, ◌*◌, ◌<◌, ◌≤◌, ◌++◌, ℕ, length, drop, slice_index, slice_range, max};
ghost use Rattle.std.specs.Vec.{vec_capacity};
ghost use Rattle.rtcm_bits.specs.FrameOf.{longest_frame};
ghost use Rattle.rtcm_bits.specs.Window.{IsFirstOf, looked_through, counts_alone, filled_up};

use crate::framing::LONGEST_FRAME;

/// Capacity of a window's memory, in bytes and in counts. It is larger than the longest frame, so
/// that the bytes seldom wrap round and the counts are seldom moved to the front.
pub(crate) const CAPACITY: usize = 8 * LONGEST_FRAME;

/// Adds one look, up to 65,535, to each of the `n` counts from index `start` on, and returns the
/// greatest of them and of `greatest`.
pub(crate) fn look_at_each(counts: &mut [u16], start: usize, n: usize, greatest: u16) -> u16
    requires { start + n ≤ length counts.old }
    ensures counts { counts.new ≡ (looked_through (counts_alone counts.old greatest) start n).looks }
    ensures greatest { result ≡ (looked_through (counts_alone counts.old greatest) start n).most }
{
    let mut most = greatest;
    for i in 0..n {
        let looks = counts[start + i].saturating_add(1);
        counts[start + i] = looks;
        most = most.max(looks);
    }
    most
}

/// Returns the greatest of `greatest` and of the `n` counts from index `start` on, with one look
/// more, up to 65,535, each.
pub(crate) fn most_after(counts: &[u16], start: usize, n: usize, greatest: u16) -> u16
    requires { start + n ≤ length counts.now }
    ensures { result ≡ (looked_through (counts_alone counts.now greatest) start n).most }
{
    let mut most = greatest;
    for i in 0..n {
        most = most.max(counts[start + i].saturating_add(1));
    }
    most
}

/// Makes room for `n` more counts after those of the bytes in the window, which are the ones from
/// index `first` on, and returns their first index then.
#[inline(always)]
fn make_room(counts: &mut Vec<u16>, first: usize, n: usize) -> usize
    requires within { (first ≤ length counts.old.items) × (length counts.old.items ≤ 8 * longest_frame) }
    requires few { length counts.old.items + n ≤ first + longest_frame }
    ensures counts { drop result counts.new.items ≡ drop first counts.old.items }
    ensures room { length counts.new.items + n ≤ 8 * longest_frame }
    ensures within { result ≤ length counts.new.items }
    ensures capacity { vec_capacity counts.new ≡ vec_capacity counts.old }
{
    if n <= CAPACITY - counts.len() {
        return first;
    }
    remove_front(counts, first);
    0
}

/// Removes the first `n` counts.
#[inline(never)]
fn remove_front(counts: &mut Vec<u16>, n: usize)
    requires { n ≤ length counts.old.items }
    ensures counts { counts.new.items ≡ drop n counts.old.items }
    ensures capacity { vec_capacity counts.new ≡ vec_capacity counts.old }
{
    let len = counts.len();
    counts.as_mut_slice().copy_within(n..len, 0);
    counts.truncate(len - n);
}

/// Appends the counts of the bytes looked at once, and of more bytes up to `end` after index
/// `first`, and returns the index of the first count then.
#[inline(never)]
pub(crate) fn spell_out(counts: &mut Vec<u16>, first: usize, once: usize, end: usize) -> usize
    requires within { (first ≤ length counts.old.items) × (length counts.old.items ≤ 8 * longest_frame) }
    requires few { (length counts.old.items + once ≤ first + longest_frame) × (end ≤ longest_frame) }
    requires capacity { 8 * longest_frame ≤ vec_capacity counts.old }
    ensures counts { drop result counts.new.items ≡ filled_up (drop first counts.old.items) once
        (max end (length counts.old.items - first + once)) }
    ensures room { length counts.new.items ≤ 8 * longest_frame }
    ensures size { length counts.new.items ≡ result + max end (length counts.old.items - first + once) }
    ensures capacity { 8 * longest_frame ≤ vec_capacity counts.new }
{
    let rest = end.saturating_sub(counts.len() - first + once);
    let place = make_room(counts, first, once + rest);
    counts.resize(counts.len() + once, 1).unwrap();
    counts.resize(counts.len() + rest, 0).unwrap();
    place
}

/// Raises the greatest count if this one is above it. It stores nothing otherwise, so that a look
/// doesn't wait for the look before it.
pub(crate) fn raise(greatest: &mut u16, looks: u16)
    ensures { greatest.new ≡ max greatest.old looks }
{
    if *greatest < looks {
        *greatest = looks;
    }
}

/// Returns the `n` bytes from index `start` on of two consecutive slices.
#[inline(always)]
pub(crate) fn part_of<'a>(
    front: &'a [u8],
    back: &'a [u8],
    start: usize,
    n: usize,
) -> (&'a [u8], &'a [u8])
    requires { start + n ≤ length front.now + length back.now }
    ensures bytes { result.0.now ++ result.1.now ≡ slice_range (front.now ++ back.now) start (start + n) }
    ensures size { length result.0.now + length result.1.now ≡ n }
{
    if start + n <= front.len() {
        return (&front[start..start + n], &[]);
    }
    let from = start.min(front.len());
    (&front[from..], &back[start - from..start + n - front.len()])
}

/// Returns the number of bytes of two consecutive slices before the first one equal to `byte`.
pub(crate) fn others_in(front: &[u8], back: &[u8], byte: u8) -> usize
    ensures { IsFirstOf byte (front.now ++ back.now) result }
{
    let n = others_before(front, byte);
    if n < front.len() {
        n
    } else {
        n + others_before(back, byte)
    }
}

/// Returns the number of bytes before the first one equal to `byte`. A byte is compared only if
/// those before it are others.
// Four bytes a turn take 2.8 instructions a byte, one a turn takes 5.
fn others_before(bytes: &[u8], byte: u8) -> usize
    ensures { IsFirstOf byte bytes.now result }
{
    let turns = bytes.len() / 4;
    for turn in 0..turns {
        let i = 4 * turn;
        if bytes[i] == byte {
            return i;
        }
        if bytes[i + 1] == byte {
            return i + 1;
        }
        if bytes[i + 2] == byte {
            return i + 2;
        }
        if bytes[i + 3] == byte {
            return i + 3;
        }
    }
    others_from(bytes, 4 * turns, byte)
}

/// Returns the number of bytes before the first one equal to `byte`, which is none of the first
/// `start` bytes.
fn others_from(bytes: &[u8], start: usize, byte: u8) -> usize
    requires within { start ≤ length bytes.now }
    requires others { (i : ℕ) → i < start → slice_index bytes.now i ≢ byte }
    ensures { IsFirstOf byte bytes.now result }
{
    for i in start..bytes.len() {
        if bytes[i] == byte {
            return i;
        }
    }
    bytes.len()
}
