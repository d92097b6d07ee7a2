//! The number of cells of an MSM that have a value, by signal.
ghost use Rattle.std.specs.Prelude.{[], ◌∷◌, ◌≡◌, ℕ, ◌+◌, ◌-◌, ◌%◌, ◌^◌, ◌<◌, ◌≤◌, false, length};
ghost use Rattle.std.specs.Prelude.{slice_index, IfSome, IfNone};
ghost use Rattle.rtcm_msg.specs.Msm.{satellite_mask_bits, signal_mask_bits, most_pairs};
ghost use Rattle.rtcm_msg.specs.Entries.{entries, entry_in, ids};
ghost use Rattle.rtcm_msg.specs.inner.Pairs.{HasFirst};
ghost use Rattle.rtcm_msg.specs.declared.message.Message.TheVariants as messages;
ghost use Rattle.rtcm_msg.specs.Forms.{satellite_data};
ghost use Rattle.rtcm_msg.specs.inner.Forms.{form_as};
ghost use Rattle.rtcm_msg.specs.inner.Presences.{has_rest};
ghost use Rattle.rtcm_msg.specs.declared.pairs.Pair.{Pair};
ghost use Rattle.rtcm_msg.specs.inner.ValueCounts.{has_listed_value, value_count, has_id};
ghost use Rattle.rtcm_msg.specs.inner.ValueCounts.{entries_left, AreCells, AreAtMost, AddsCounts};

use crate::data::INVALID_ROUGH_RANGE;
use crate::header::SIGNAL_MASK_BITS;
use crate::pairs::{CellsLeft, Pair, split_first, split_signal, with_signals};
use crate::view::{Form, MsmView, form_as};
use std::marker::Model;

/// Number of signal IDs, one for each bit of the signal mask, as the length of an array.
const SIGNALS: usize = SIGNAL_MASK_BITS as usize;

impl<'a> MsmView<'a> {
    /// Returns whether cell `i`, which is of the satellite at `index`, has a value other than a
    /// pseudorange.
    // A pair as a parameter would be stored for each cell: 9 instructions.
    #[inline(never)]
    fn has_rest(&self, index: usize, i: usize) -> bool
        requires satellite { index < length self.now.msm.satellites }
        requires cell { i < length self.now.msm.cells }
        ensures { (pair : Pair) → pair.index ≡ index
            → result ≡ has_rest (entry_in self.now.form self.now.msm (pair, slice_index self.now.msm.cells i)) }
    {
        // No value depends on the numbers of the satellite and the signal.
        let pair = Pair {
            satellite: 1,
            signal: 1,
            index,
        };
        let entry = self.entry(self.form(), pair, &self.read_satellite(index), i);
        entry.phase.is_some() || entry.rate.is_some() || entry.strength.is_some()
    }

    /// Returns whether cell `i`, which is of the satellite and the signal of `pair`, has a value
    /// and its satellite is in a set. Most cells have a pseudorange: no other field is read then.
    #[inline(always)]
    fn has_listed_value<const F: usize>(&self, listed: u64, pair: Pair, whole: u8, i: usize) -> bool
        requires form { form_as F ≡ self.now.form }
        requires satellite { pair.index < length self.now.msm.satellites }
        requires whole { whole ≡ (satellite_data self.now.form (slice_index self.now.msm.satellites pair.index)).whole }
        requires cell { i < length self.now.msm.cells }
        requires id { (1 ≤ pair.satellite) × (pair.satellite ≤ satellite_mask_bits) }
        ensures { result ≡ has_listed_value listed
            (entry_in self.now.form self.now.msm (pair, slice_index self.now.msm.cells i)) }
    {
        (listed >> (64 - pair.satellite)) % 2 == 1
            && ((whole != INVALID_ROUGH_RANGE
                && form_as::<F>().has_fine_range(&self.cell(form_as::<F>(), i)))
                || self.has_rest(pair.index, i))
    }

    /// Counts the cell of the first pair, if it has one, and returns the cells that are left.
    #[inline(always)]
    fn count_pair<const F: usize>(
        &self,
        listed: u64,
        whole: u8,
        cells: CellsLeft,
        counts: &mut [u8; SIGNALS],
    ) -> CellsLeft
        requires form { form_as F ≡ self.now.form }
        requires cells { AreCells self.now cells }
        requires first { HasFirst cells.pairs }
        requires whole { whole ≡ (satellite_data self.now.form (slice_index self.now.msm.satellites cells.pairs.index)).whole }
        requires small { AreAtMost cells.next counts.old }
        ensures counts { AddsCounts listed counts.old counts.new (entries_left self.now cells)
            (entries_left self.now result) }
        ensures cells { AreCells self.now result }
        ensures small { AreAtMost result.next counts.new }
        ensures same { (result.pairs.index ≡ cells.pairs.index) × (result.pairs.satellites ≡ cells.pairs.satellites) }
        ensures fewer { result.left < cells.left }
    {
        let (pair, pairs) = split_signal(cells.pairs);
        let left = cells.left - 1;
        let mut next = cells.next;
        // Brings the numbers of satellites and cells into the proof.
        let _ = (self.satellites(), self.cells());
        if (self.masks().cells() >> left) % 2 == 1 {
            if self.has_listed_value::<F>(listed, pair, whole, next) {
                counts[pair.signal as usize - 1] += 1;
            }
            next += 1;
        }
        CellsLeft { pairs, left, next }
    }

    /// Counts the cells of the first satellite, and returns the cells that are left.
    #[inline(always)]
    fn count_row<const F: usize>(
        &self,
        listed: u64,
        mut cells: CellsLeft,
        counts: &mut [u8; SIGNALS],
    ) -> CellsLeft
        requires form { form_as F ≡ self.now.form }
        requires cells { AreCells self.now cells }
        requires first { HasFirst cells.pairs }
        requires small { AreAtMost cells.next counts.old }
        ensures counts { AddsCounts listed counts.old counts.new (entries_left self.now cells)
            (entries_left self.now result) }
        ensures cells { AreCells self.now result }
        ensures small { AreAtMost result.next counts.new }
        ensures fewer { result.left < cells.left }
    {
        // Brings the number of satellites into the proof.
        let _ = self.satellites();
        let whole = self.satellite(form_as::<F>(), cells.pairs.index).whole;
        cells = self.count_pair::<F>(listed, whole, cells, counts);
        while cells.pairs.signals > 0 {
            cells = self.count_pair::<F>(listed, whole, cells, counts);
        }
        cells
    }

    /// Returns what `value_counts` does, by the loop that is compiled for the form.
    #[inline(always)]
    fn count_all<const F: usize>(&self, listed: u64) -> ValueCounts
        requires form { form_as F ≡ self.now.form }
        ensures signals { result.left ≡ ids signal_mask_bits self.now.msm.sets.signals }
        ensures counts { (i : ℕ) → i < signal_mask_bits
            → slice_index result.counts i ≡ value_count listed (i + 1) (entries (messages.Msm self.now)) }
        ensures few { AreAtMost most_pairs result.counts }
    {
        // Brings the number of cells into the proof.
        let _ = self.cells();
        let masks = self.masks();
        let mask = masks.cells();
        let mut counts = [0; SIGNALS];
        let mut cells = CellsLeft::of(&masks);
        while cells.left > 0 {
            cells.pairs = with_signals(cells.pairs);
            if (mask >> (cells.left - 1)) % 2 == 1 {
                cells = self.count_row::<F>(listed, cells, &mut counts);
            } else {
                // The first pair has no cell.
                cells.pairs = split_signal(cells.pairs).1;
                cells.left -= 1;
            }
        }
        ValueCounts {
            signals: masks.signals() as u64,
            counts,
        }
    }

    /// Returns, for each signal of the message, the number of its cells that have a value and whose
    /// satellite is in the set `listed`, in which the most significant bit is satellite ID 1.
    #[inline(always)]
    #[tactic(auto, using(crate::proofs::ValueLaws::no_cells, crate::proofs::ValueLaws::few_entries))]
    pub fn value_counts(&self, listed: u64) -> ValueCounts
        ensures signals { result.left ≡ ids signal_mask_bits self.now.msm.sets.signals }
        ensures counts { (i : ℕ) → i < signal_mask_bits
            → slice_index result.counts i ≡ value_count listed (i + 1) (entries (messages.Msm self.now)) }
        ensures few { AreAtMost most_pairs result.counts }
        ensures others { (id : ℕ) → has_id id (ids signal_mask_bits self.now.msm.sets.signals) ≡ false
            → value_count listed id (entries (messages.Msm self.now)) ≡ 0 }
        ensures cells { length (entries (messages.Msm self.now)) ≤ most_pairs }
    {
        // Brings the number of cells into the proof.
        let _ = self.cells();
        match self.form() {
            Form::Msm4 => self.count_all::<4>(listed),
            Form::Msm5 => self.count_all::<5>(listed),
            Form::Msm6 => self.count_all::<6>(listed),
            Form::Msm7 => self.count_all::<7>(listed),
        }
    }
}

/// The number of counted cells of each signal of a message, by rising signal ID.
#[derive(Drop)]
pub struct ValueCounts {
    /// The signals that are left.
    signals: u64,
    /// For each signal ID from 1 on, the number of its cells.
    counts: [u8; SIGNALS],
}

impl Model for ValueCounts {
    ghost use Rattle.std.specs.Prelude.{◌<◌, ◌^◌};
    ghost use Rattle.rtcm_msg.specs.Msm.{signal_mask_bits};
    ghost use Rattle.rtcm_msg.specs.Entries.{ids};
    ghost use Rattle.rtcm_msg.specs.inner.ValueCounts.{SignalCounts};

    ghost Value = { SignalCounts };

    ghost view = { λ c. record { left = ids signal_mask_bits c.signals; counts = c.counts } };

    ghost invariant = { λ c. c.signals < 2 ^ signal_mask_bits };
}

impl ValueCounts {
    /// Returns the next signal ID and the number of its cells, or `None` after the last one.
    #[inline(always)]
    #[tactic(auto, using(crate::proofs::ValueLaws::id_within, crate::proofs::ValueLaws::id_once, crate::proofs::PairLaws::ids_none))]
    pub fn next(&mut self) -> Option<(u8, u8)>
        ensures some { IfSome result (λ x. (self.old.left ≡ x.0 ∷ self.new.left)
            × (x.1 ≡ slice_index self.old.counts (x.0 - 1))) }
        ensures once { IfSome result (λ x. has_id x.0 self.new.left ≡ false) }
        ensures none { IfNone result (self.old.left ≡ []) }
        ensures same { self.new.counts ≡ self.old.counts }
    {
        if self.signals == 0 {
            return None;
        }
        let (id, signals) = split_first(self.signals, SIGNAL_MASK_BITS);
        let count = self.counts[id as usize - 1];
        self.signals = signals;
        Some((id, count))
    }
}
