//! The pairs of a satellite and a signal that have a cell, one by one.
ghost use Rattle.std.specs.Prelude.{[], ◌≡◌, ◌<◌, ◌≤◌, ◌^◌, length, IfSome, IfNone, ◌∷◌, ℕ};
ghost use Rattle.rtcm_bits.specs.Bits.{uint};
ghost use Rattle.rtcm_msg.specs.Msm.{most_pairs, satellite_mask_bits, signal_mask_bits};
ghost use Rattle.rtcm_msg.specs.Entries.{ids, chosen};
ghost use Rattle.rtcm_msg.specs.inner.Pairs.{pairs_left, ArePairs, AreAll, HasFirst, IndicesAreBelow, SplitsCells};

use crate::header::{Masks, SATELLITE_MASK_BITS, SIGNAL_MASK_BITS};

/// The satellite and the signal of a cell.
#[derive(Clone, Copy)]
pub(crate) struct Pair {
    /// The index of the satellite among the message's satellites.
    pub index: usize,
    /// The satellite's ID, from 1 to 64.
    pub satellite: u8,
    /// The signal's ID, from 1 to 32.
    pub signal: u8,
}

/// Returns the first ID of a set of IDs from 1 to `width`, and the set without it.
pub(crate) fn split_first(mask: u64, width: u32) -> (u8, u64)
    requires some { 0 < mask }
    requires within { mask < 2 ^ width }
    requires few { width ≤ 64 }
    ensures first { ids width mask ≡ result.0 ∷ ids width result.1 }
    ensures fits { result.1 < 2 ^ width }
{
    let top = 63 - mask.leading_zeros();
    ((width - top) as u8, mask ^ (1 << (top % 64)))
}

/// The pairs of a satellite and a signal that are left: those of the first satellite with the
/// signals that are left, and those of the other satellites with all signals. In a set of IDs, the
/// highest bit is the first ID.
#[derive(Clone, Copy)]
pub(crate) struct Pairs {
    /// The index of the first satellite in the message.
    pub index: usize,
    /// The satellites that are left.
    pub satellites: u64,
    /// The signals that are left of the first satellite.
    pub signals: u64,
    /// All signals of the message.
    pub all: u64,
}

/// The cells of a message that are left.
#[derive(Clone, Copy)]
pub(crate) struct CellsLeft {
    /// The satellites and signals of the pairs that are left.
    pub pairs: Pairs,
    /// The number of these pairs.
    pub left: u32,
    /// The number of cells before those that are left.
    pub next: usize,
}

impl CellsLeft {
    /// Returns all cells of a message.
    pub fn of(masks: &Masks) -> CellsLeft
        ensures all { AreAll masks.now result.left result.pairs }
        ensures none { result.next ≡ 0 }
    {
        // Brings the bounds of the masks into the proof.
        let _ = masks.cells();
        let (satellites, all) = (masks.satellites(), masks.signals() as u64);
        CellsLeft {
            pairs: Pairs {
                index: 0,
                satellites,
                signals: all,
                all,
            },
            left: satellites.count_ones() * all.count_ones(),
            next: 0,
        }
    }
}

/// Returns the same pairs, beginning with a satellite that has a signal left.
pub(crate) fn with_signals(mut pairs: Pairs) -> Pairs
    requires some { 0 < length (pairs_left pairs) }
    requires in_range { ArePairs pairs }
    ensures same { pairs_left result ≡ pairs_left pairs }
    ensures in_range { ArePairs result }
    ensures first { HasFirst result }
{
    if pairs.signals == 0 {
        pairs.index += 1;
        pairs.satellites = split_first(pairs.satellites, SATELLITE_MASK_BITS).1;
        pairs.signals = pairs.all;
    }
    pairs
}

/// Returns the first pair, whose satellite has a signal left, and the other pairs.
#[inline(always)]
#[tactic(auto, using(crate::proofs::ValueLaws::id_within))]
pub(crate) fn split_signal(pairs: Pairs) -> (Pair, Pairs)
    requires first { HasFirst pairs }
    requires in_range { ArePairs pairs }
    ensures first { pairs_left pairs ≡ result.0 ∷ pairs_left result.1 }
    ensures in_range { ArePairs result.1 }
    ensures signal { (1 ≤ result.0.signal) × (result.0.signal ≤ signal_mask_bits) }
    ensures satellite { (1 ≤ result.0.satellite) × (result.0.satellite ≤ satellite_mask_bits) }
    ensures index { result.0.index ≡ pairs.index }
    ensures same { (result.1.index ≡ pairs.index) × (result.1.satellites ≡ pairs.satellites) }
{
    let (signal, signals) = split_first(pairs.signals, SIGNAL_MASK_BITS);
    let pair = Pair {
        index: pairs.index,
        satellite: split_first(pairs.satellites, SATELLITE_MASK_BITS).0,
        signal,
    };
    (pair, Pairs { signals, ..pairs })
}

/// Returns the first remaining pair with a cell, the pairs after it, and their number. `None` if no
/// remaining pair has a cell. The low `left` bits of the cell mask are those of the remaining
/// pairs.
pub(crate) fn split_cells(mut pairs: Pairs, cells: u64, mut left: u32) -> Option<(Pair, Pairs, u32)>
    requires few { left ≤ most_pairs }
    requires count { length (pairs_left pairs) ≡ left }
    requires in_range { ArePairs pairs }
    ensures some { IfSome result (λ x. SplitsCells left cells pairs x.0 x.1 x.2) }
    ensures indices { IfSome result (λ x. (n : ℕ) → IndicesAreBelow n (pairs_left pairs)
        → (x.0.index < n) × IndicesAreBelow n (pairs_left x.1)) }
    ensures none { IfNone result (chosen (uint left cells) (pairs_left pairs) ≡ []) }
{
    while left > 0 {
        left -= 1;
        let (pair, after) = split_signal(with_signals(pairs));
        pairs = after;
        if (cells >> left) % 2 == 1 {
            return Some((pair, pairs, left));
        }
    }
    None
}
