//! The cells of one system of an epoch.
ghost use Rattle.std.specs.Prelude.{◌≡◌, ◌<◌, ◌≤◌, ◌++◌, ◌∷◌, [], true, length, map, get_or, is_some, IfSome, IfOk};
ghost use Rattle.gnss_obs.specs.declared.cell.Cell.{Cell};
ghost use Rattle.gnss_obs.specs.inner.Arriving.{has_slot, slot, most_slots};
ghost use Rattle.gnss_obs.specs.Marked.{marked_at};
ghost use Rattle.gnss_obs.specs.Order.{Rise};
ghost use Rattle.gnss_obs.specs.Values.{most_cells};

use crate::cell::Cell;
use crate::epoch::MOST_CELLS;
use crate::order::{UNSORTED, least_next_after};
use gnss_system::MOST_SATELLITES;
use std::alloc::{AllocError, Global};
use std::marker::Model;

/// Number of entries for each satellite in the table that finds a cell by its satellite and signal:
/// more than a system has signals.
pub(crate) const SATELLITE_SLOTS: usize = 32;

/// Number of entries of the table: those of each number of a satellite, and of 0, which no
/// satellite has.
const SLOTS: usize = SATELLITE_SLOTS * (MOST_SATELLITES as usize + 1);

/// A list of at most `MOST_CELLS` cells of one system, and a table that finds a cell by its key:
/// its satellite and signal.
#[derive(Drop)]
pub struct Cells {
    // With memory for `MOST_CELLS`, of which only what was once kept is ever written.
    list: Vec<Cell>,
    // The index of the last cell of each key. An entry of a key without a cell may be any number:
    // so no entry has to be cleared.
    table: [u8; SLOTS],
    // The least index in the table that may follow if the cells' indices rise, or `UNSORTED`.
    least_next: usize,
}

impl Model for Cells {
    ghost use Rattle.std.specs.Prelude.{List, ◌≡◌, ◌≤◌, length, map, vec_capacity};
    ghost use Rattle.gnss_obs.specs.Values.{most_cells};
    ghost use Rattle.gnss_obs.specs.inner.Arriving.{AreFound, most_slots, slot};
    ghost use Rattle.gnss_obs.specs.Order.{IsLeastNext};
    ghost use Rattle.gnss_obs.specs.declared.cell.Cell.{Cell};

    ghost Value = { List Cell };

    ghost view = { λ c. c.list.items };

    ghost invariant = { λ c.
        (length c.list.items ≤ most_cells) × (most_cells ≤ vec_capacity c.list) × (length c.table ≡ most_slots)
        × AreFound c.table c.list.items × IsLeastNext c.least_next (map slot c.list.items) };
}

impl Cells {
    /// Returns an empty list.
    ///
    /// # Errors
    ///
    /// `AllocError` if an allocation failed.
    pub fn new(alloc: Global) -> Result<Cells, AllocError>
        ensures { IfOk result (λ c. c ≡ []) }
    {
        Ok(Cells {
            list: Vec::with_capacity(alloc, MOST_CELLS)?,
            // Most epochs have fewer cells, so that an entry of a key never kept is past the last.
            table: [u8::MAX; SLOTS],
            least_next: 0,
        })
    }

    /// Removes all cells.
    pub fn clear(&mut self)
        ensures { self.new ≡ [] }
    {
        self.list.clear();
        self.least_next = 0;
    }

    /// Returns the cells.
    #[inline(always)]
    pub fn as_slice(&self) -> &[Cell]
        ensures cells { result.now ≡ self.now }
        ensures bound { length result.now ≤ most_cells }
    {
        self.list.as_slice()
    }

    /// Returns whether there is a cell of the key of another one.
    #[inline(always)]
    pub fn has_key_of(&self, x: &Cell) -> bool
        ensures { result ≡ has_slot (slot x.now) (map slot self.now) }
    {
        self.find(slot(x)).is_some()
    }

    /// Returns the index of a cell of the key of this entry, or `None` if there is none.
    #[inline(always)]
    pub fn find(&self, entry: usize) -> Option<usize>
        requires { entry < most_slots }
        ensures found { IfSome result
            (λ at. (at < length self.now) × ((d : Cell) → slot (get_or self.now at d) ≡ entry)) }
        ensures any { is_some result ≡ has_slot entry (map slot self.now) }
    {
        let at = self.table[entry] as usize;
        if at >= self.list.len() {
            return None;
        }
        (slot(&self.list[at]) == entry).then_some(at)
    }

    /// Appends a cell.
    #[inline(always)]
    pub fn push(&mut self, x: Cell)
        requires { length self.old < most_cells }
        ensures { self.new ≡ self.old ++ x ∷ [] }
    {
        let entry = slot(&x);
        self.table[entry] = self.list.len() as u8;
        // The prover has to meet the type of a cell's values before it lends the list. A read of a
        // value's tag would split the copy of the cell into more stores.
        let _ = &x.c;
        self.list.push_reserved(x);
        self.least_next = least_next_after(self.least_next, entry);
    }

    /// Sets bit 0 of the loss of lock indicator of the cell at this index.
    pub fn mark(&mut self, at: usize)
        requires { at < length self.old }
        ensures { self.new ≡ marked_at at self.old }
    {
        let mut x = self.list[at];
        x.lli = x.lli / 2 * 2 + 1;
        self.list[at] = x;
    }

    /// Returns `true` only if the cells are in the order of their satellites, and then of the
    /// table of signals.
    pub fn is_in_table_order(&self) -> bool
        ensures { result ≡ true → Rise (map slot self.now) }
    {
        self.least_next < UNSORTED
    }
}

// Returns the index of the entry of the key of a cell.
#[inline(always)]
fn slot(x: &Cell) -> usize
    ensures entry { result ≡ slot x.now }
    ensures bound { result < most_slots }
{
    SATELLITE_SLOTS * x.satellite.id() as usize + x.signal.index()
}
