//! Lock records: for each satellite and signal, the latest known lock in a closed epoch. The loss
//! of lock indicators of the next epoch are computed from them.
ghost use Rattle.std.specs.Prelude.{◌≡◌, ◌+◌, ◌<◌, ◌≤◌, ◌%◌, ◌==◌, is_some, length, IfOk};
ghost use Rattle.obs_epoch.specs.inner.Held.{AreKeysOf, no_locks, note, note_all, note_systems};
ghost use Rattle.obs_epoch.specs.GathererAfter.{lock_place, lookup, most_locks, recorded};
ghost use Rattle.gnss_obs.specs.HeardCells.{IsKey, heard_cell};
ghost use Rattle.obs_epoch.specs.Loss.{lli_with};
ghost use Rattle.gnss_obs.specs.Values.{AreHeld};
ghost use Rattle.gnss_system.specs.Systems.{systems};
ghost use Rattle.std.specs.List.{list_any};
ghost use Rattle.obs_epoch.specs.inner.Marks.{any_loss, has_loss};

use gnss_obs::{Cell, Epoch, Lock, is_lost};
use gnss_system::{KEY_COUNT, SYSTEMS, System};
use std::alloc::{AllocError, Global};
use std::marker::Model;

/// A known lock, and the time of its epoch in milliseconds since 1980-01-06 00:00:00.
#[derive(Clone, Copy)]
pub struct KnownLock {
    /// The time of the epoch.
    pub time: u64,
    /// The lock of the phase.
    pub lock: Lock,
}

/// The lock records: an entry for each key, and the number of keys that have a record.
#[derive(Drop)]
pub struct Locks {
    records: Vec<Option<KnownLock>>,
    count: usize,
}

impl Model for Locks {
    ghost use Rattle.std.specs.Prelude.{List, Option, ◌≡◌, length};
    ghost use Rattle.obs_epoch.specs.declared.locks.KnownLock.{KnownLock};
    ghost use Rattle.obs_epoch.specs.GathererAfter.{most_locks, recorded};

    ghost Value = { List (Option KnownLock) };

    ghost view = { λ a. a.records.items };

    ghost invariant = { λ a. (length a.records.items ≡ most_locks) × (a.count ≡ recorded a.records.items) };
}

impl Locks {
    /// Returns an empty set of lock records, with room for one of each key.
    ///
    /// # Errors
    ///
    /// `AllocError` if the allocation failed.
    pub fn new(alloc: Global) -> Result<Locks, AllocError>
        ensures { IfOk result (λ l. l ≡ no_locks) }
    {
        let records = vec![in alloc; None; KEY_COUNT]?;
        Ok(Locks { records, count: 0 })
    }

    /// Returns the number of lock records.
    pub fn len(&self) -> usize
        ensures count { result ≡ recorded self.now }
        ensures bound { result ≤ most_locks }
    {
        self.count
    }

    /// Returns the record of the key of a cell of this system: its satellite and signal.
    #[inline(always)]
    pub fn latest(&self, system: System, x: &Cell) -> Option<KnownLock>
        requires key { IsKey (heard_cell x.now) }
        requires system { x.now.satellite.system ≡ system }
        ensures { result ≡ lookup self.now (heard_cell x.now) }
    {
        self.records[lock_place(keys_of(system), x)]
    }

    /// Records the lock of a kept cell of the system of these keys, if it is known, when its epoch
    /// of this time is closed.
    #[inline(always)]
    pub fn note(&mut self, keys: Keys, time: u64, x: &Cell)
        requires key { IsKey (heard_cell x.now) }
        requires system { AreKeysOf x.now.satellite.system keys }
        ensures { self.new ≡ note time self.old (heard_cell x.now) }
    {
        if x.l.is_some() && x.lock.least().is_some() {
            let entry = lock_place(keys, x);
            let is_new = self.records[entry].is_none();
            self.records[entry] = Some(KnownLock { time, lock: x.lock });
            if is_new {
                self.count += 1;
            }
        }
    }
}

/// Records the locks of the cells of a system when their epoch of this time is closed, and returns
/// whether bit 0 of a loss of lock indicator is set.
// Both in one loop: a loop of its own over the cells would cost more than it spares.
pub fn note_cells(locks: &mut Locks, time: u64, system: System, cells: &[Cell]) -> bool
    requires held { AreHeld system cells.now }
    ensures locks { locks.new ≡ note_all time locks.old cells.now }
    ensures loss { result ≡ list_any has_loss cells.now }
{
    let keys = keys_of(system);
    let mut has_loss = false;
    for i in 0..cells.len() {
        locks.note(keys, time, &cells[i]);
        has_loss |= cells[i].lli % 2 == 1;
    }
    has_loss
}

/// The entries of the keys of a system: the index of the first one, and the number of entries of
/// each satellite. They are found once for all cells of a message.
#[derive(Clone, Copy)]
pub struct Keys {
    first: usize,
    signals: usize,
}

/// Returns the entries of the keys of a system.
#[inline(always)]
pub fn keys_of(system: System) -> Keys
    ensures { AreKeysOf system result }
{
    Keys {
        first: system.first_key(),
        signals: system.signals(),
    }
}

/// Records the locks of the cells of an epoch, one system after the other, and returns whether bit
/// 0 of a loss of lock indicator is set.
pub fn note_systems(locks: &mut Locks, time: u64, epoch: &Epoch) -> bool
    requires { time ≡ epoch.now.epoch.time }
    ensures locks { locks.new ≡ note_systems epoch.now.epoch locks.old systems }
    ensures loss { result ≡ any_loss epoch.now.epoch systems }
{
    let mut has_loss = false;
    for i in 0..SYSTEMS.len() {
        let system = System::at(i);
        has_loss |= note_cells(locks, time, system, epoch.cells(system));
    }
    has_loss
}

/// Returns the index of the entry of the key of a cell.
#[inline(always)]
pub fn lock_place(keys: Keys, x: &Cell) -> usize
    requires key { IsKey (heard_cell x.now) }
    requires system { AreKeysOf x.now.satellite.system keys }
    ensures entry { result ≡ lock_place (heard_cell x.now) }
    ensures bound { result < most_locks }
{
    keys.first + keys.signals * (x.satellite.id() as usize - 1) + x.signal.index()
}

/// Returns the loss of lock indicator (LLI) of RINEX for a cell: bit 0 if lock was lost since
/// `before`, the latest known lock of its key; bit 1 if the phase may be off by half a cycle; 0
/// without a phase.
// Whether there is a phase is a parameter: read from a cell that isn't kept yet, it would make the
// phase one of more parts to store, 1.2 % of the instructions of `convert`.
pub fn lli(has_phase: bool, x: &Cell, time: u64, before: Option<KnownLock>) -> u8
    requires phase { has_phase ≡ is_some x.now.l }
    ensures value { result ≡ lli_with time (heard_cell x.now) before }
    ensures bound { result < 4 }
{
    if !has_phase {
        return 0;
    }
    let lost = before.is_some_and(|was| is_lost(was.lock, x.lock, time.saturating_sub(was.time)));
    let half = if x.half_cycle { 2 } else { 0 };
    if lost { 1 + half } else { half }
}
