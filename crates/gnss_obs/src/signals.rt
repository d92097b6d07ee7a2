//! Lists of distinct signals of one system.
ghost use Rattle.std.specs.Prelude.{◌≡◌, ◌↔◌, ◌==◌, [], IsTrue, length, true, false, Ok, OnErr};
ghost use Rattle.std.specs.List.{list_any};
ghost use Rattle.gnss_system.specs.declared.system.System.{System};
ghost use Rattle.gnss_system.specs.Signals.{SignalAt, signal_at};
ghost use Rattle.gnss_obs.specs.Order.{Rise};
ghost use Rattle.gnss_obs.specs.Plans.{place_in, planned_signal};
ghost use Rattle.gnss_obs.specs.SignalLists.{indices};
ghost use Rattle.gnss_obs.specs.inner.SignalLists.{IsAppended, IsOf};

use crate::order::{UNSORTED, least_next_after};
use crate::signal::Signal;
use gnss_system::{ID_COUNT, MOST_SIGNALS, NO_ROW};
use indexmap::IndexSet;
use std::alloc::{AllocError, Global};
use std::marker::Model;

/// Distinct signals of one system, in the order in which they were added.
#[derive(Drop)]
pub struct Signals {
    order: IndexSet<Signal>,
    // The index of each signal in `order`, by its index in the table of its system, so that no
    // search asks the set.
    places: [Option<usize>; MOST_SIGNALS],
    // The index of each signal in the table of its system, by its ID, or `NO_ROW`.
    rows_by_id: [u8; ID_COUNT],
    // The least index in the table that may follow if the signals' indices rise, or `UNSORTED`.
    least_next: usize,
}

impl Model for Signals {
    ghost use Rattle.std.specs.Prelude.{List, ◌≡◌, ◌+◌, length};
    ghost use Rattle.gnss_system.specs.Signals.{SignalAt, greatest_signal_id};
    ghost use Rattle.gnss_obs.specs.Order.{IsLeastNext};
    ghost use Rattle.gnss_obs.specs.SignalLists.{indices};
    ghost use Rattle.gnss_obs.specs.inner.SignalLists.{AreFound, AreRows};

    ghost Value = { List SignalAt };

    ghost view = { λ s. s.order.keys };

    ghost invariant = { λ s. AreFound s.places (indices s.order.keys) × IsLeastNext s.least_next (indices s.order.keys)
        × (length s.rows_by_id ≡ greatest_signal_id + 1) × AreRows s.rows_by_id s.order.keys };
}

impl Signals {
    /// Returns an empty list.
    pub fn new(alloc: Global) -> Signals
        ensures { result ≡ [] }
    {
        Signals {
            order: IndexSet::new(alloc),
            places: [None; MOST_SIGNALS],
            rows_by_id: [NO_ROW; ID_COUNT],
            least_next: 0,
        }
    }

    /// Appends a signal of the same system as the others, and returns whether it is new. A signal
    /// that is in the list already leaves the list unchanged, and so does an error.
    ///
    /// # Errors
    ///
    /// `AllocError` if an allocation failed, which there is only for a new signal.
    pub fn add(&mut self, signal: Signal) -> Result<bool, AllocError>
        requires { IsOf signal.system self.old }
        ensures new { result ≡ Ok true → IsAppended self.old signal self.new }
        ensures old { result ≡ Ok false
            → (self.new ≡ self.old) × (list_any (λ s. signal.index == s.index) self.old ≡ true) }
        ensures failed { OnErr result (self.new ≡ self.old) }
        ensures absent { OnErr result (list_any (λ s. signal.index == s.index) self.old ≡ false) }
    {
        let index = signal.index();
        let Ok((place, is_new)) = self.order.insert_full(signal) else {
            return Err(AllocError);
        };
        if is_new {
            self.places[index] = Some(place);
            self.rows_by_id[signal.id() as usize] = index as u8;
            self.least_next = least_next_after(self.least_next, index);
        }
        Ok(is_new)
    }

    /// Returns the number of signals.
    pub fn len(&self) -> usize
        ensures { result ≡ length self.now }
    {
        self.as_slice().len()
    }

    /// Returns whether there is no signal.
    pub fn is_empty(&self) -> bool
        ensures { IsTrue result ↔ (self.now ≡ []) }
    {
        self.as_slice().is_empty()
    }

    /// Returns the signals in the order in which they were added.
    pub fn as_slice(&self) -> &[Signal]
        ensures { result.now ≡ self.now }
    {
        self.order.as_slice()
    }

    /// Returns the index of a signal of the same system, or `None` if the list does not contain it.
    pub fn place(&self, signal: Signal) -> Option<usize>
        ensures { result ≡ place_in signal (indices self.now) }
    {
        self.places[signal.index()]
    }

    /// Returns the index in the table of the signal with this ID, or an index that the table does
    /// not have if the list does not contain it.
    #[inline(always)]
    pub(crate) fn row_of(&self, id: u8) -> usize
        ensures { (system : System) → IsOf system self.now
            → signal_at system result ≡ planned_signal system (indices self.now) id }
    {
        if (id as usize) < ID_COUNT {
            self.rows_by_id[id as usize] as usize
        } else {
            NO_ROW as usize
        }
    }

    /// Returns `true` only if the signals are in the order of the table.
    pub(crate) fn is_in_table_order(&self) -> bool
        ensures { result ≡ true → Rise (indices self.now) }
    {
        self.least_next < UNSORTED
    }
}
