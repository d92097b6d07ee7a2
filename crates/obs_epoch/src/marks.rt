//! Loss of lock in epochs off the grid: for each satellite and signal, whether its phase in the next
//! epoch on the grid is to be marked.
ghost use Rattle.std.specs.Prelude.{◌≡◌, ◌<◌, if◌then◌else◌, length, IfOk};
ghost use Rattle.obs_epoch.specs.inner.Held.{AreKeysOf};
ghost use Rattle.obs_epoch.specs.inner.Marks.{any_loss, carried_from, carried_to, no_marks, note_lost, note_losses};
ghost use Rattle.obs_epoch.specs.GathererHistory.{is_lost_in};
ghost use Rattle.obs_epoch.specs.inner.Marks.{note_systems_lost, with_mark_in, with_marks_of};
ghost use Rattle.obs_epoch.specs.Thinning.{marked_epoch};
ghost use Rattle.gnss_obs.specs.HeardCells.{IsKey, heard_cell};
ghost use Rattle.gnss_obs.specs.Values.{AreHeld, cells_of};
ghost use Rattle.gnss_system.specs.Systems.{systems};

use crate::locks::{Keys, keys_of, lock_place};
use gnss_obs::{Cell, Epoch};
use gnss_system::{KEY_COUNT, SYSTEMS, System};
use std::alloc::{AllocError, Global};
use std::marker::Model;

/// For each satellite and signal, whether lock was lost in an epoch off the grid since the latest
/// epoch on the grid in which it has a phase.
#[derive(Drop)]
pub struct Marks {
    lost: Vec<bool>,
}

impl Model for Marks {
    ghost use Rattle.std.specs.Prelude.{Bool, List, ◌≡◌, length};
    ghost use Rattle.obs_epoch.specs.GathererAfter.{most_locks};

    ghost Value = { List Bool };

    ghost view = { λ a. a.lost.items };

    ghost invariant = { λ a. length a.lost.items ≡ most_locks };
}

impl Marks {
    /// Returns no loss of lock, with room for each satellite and signal.
    ///
    /// # Errors
    ///
    /// `AllocError` if the allocation failed.
    pub fn new(alloc: Global) -> Result<Marks, AllocError>
        ensures { IfOk result (λ l. l ≡ no_marks) }
    {
        let lost = vec![in alloc; false; KEY_COUNT]?;
        Ok(Marks { lost })
    }

    // Returns whether lock was lost at the satellite and signal of a cell of the system of these
    // keys.
    fn is_lost(&self, keys: Keys, x: &Cell) -> bool
        requires key { IsKey (heard_cell x.now) }
        requires system { AreKeysOf x.now.satellite.system keys }
        ensures { result ≡ is_lost_in self.now x.now }
    {
        self.lost[lock_place(keys, x)]
    }

    // Notes the loss of lock at a cell of the system of these keys: on the grid, a phase carries
    // the mark, and lock is no longer lost; off the grid, it is lost at a marked phase.
    fn note(&mut self, on_grid: bool, keys: Keys, x: &Cell)
        requires key { IsKey (heard_cell x.now) }
        requires system { AreKeysOf x.now.satellite.system keys }
        ensures { self.new ≡ note_lost on_grid self.old x.now }
    {
        if x.l.is_some() && (on_grid || x.lli % 2 == 1) {
            self.lost[lock_place(keys, x)] = !on_grid;
        }
    }
}

/// If there is an interval, marks the phases of an epoch on the grid at which lock was lost before,
/// and notes the loss of lock in it, of which there is some or not.
pub fn carry(
    has_interval: bool,
    marks: &mut Marks,
    on_grid: bool,
    has_loss: bool,
    epoch: &mut Epoch,
)
    requires { has_loss ≡ any_loss epoch.old.epoch systems }
    ensures epoch { epoch.new ≡ record epoch.old {
      epoch = if has_interval then carried_to on_grid marks.old epoch.old.epoch else epoch.old.epoch;
    } }
    ensures marks { marks.new ≡ (if has_interval then carried_from on_grid marks.old epoch.old.epoch else marks.old) }
{
    if !has_interval {
        return;
    }
    if on_grid {
        mark_systems(marks, epoch);
    }
    // Without one, nothing of an epoch off the grid is carried.
    if on_grid || has_loss {
        note_systems(marks, on_grid, epoch);
    }
}

// Marks the phases of an epoch on the grid at which lock was lost before. It isn't
// inlined, as nothing of it is done without an interval.
#[inline(never)]
fn mark_systems(marks: &Marks, epoch: &mut Epoch)
    ensures { epoch.new ≡ record epoch.old { epoch = marked_epoch (is_lost_in marks.now) epoch.old.epoch } }
{
    for i in 0..SYSTEMS.len() {
        mark_cells(marks, epoch, System::at(i));
    }
}

// Marks the phases of a system.
fn mark_cells(marks: &Marks, epoch: &mut Epoch, system: System)
    ensures { epoch.new ≡ record epoch.old { epoch = with_marks_of marks.now system epoch.old.epoch } }
{
    let keys = keys_of(system);
    for i in 0..epoch.cells(system).len() {
        mark_cell(marks, keys, epoch, system, i);
    }
}

// Marks the phase of a cell of the system of these keys if lock was lost before.
fn mark_cell(marks: &Marks, keys: Keys, epoch: &mut Epoch, system: System, at: usize)
    requires keys { AreKeysOf system keys }
    requires at { at < length (cells_of system epoch.old.epoch) }
    ensures { epoch.new ≡ record epoch.old { epoch = with_mark_in marks.now system at epoch.old.epoch } }
{
    let x = epoch.cells(system)[at];
    if x.l.is_some() {
        if marks.is_lost(keys, &x) {
            epoch.mark(system, at);
        }
    }
}

// Notes the loss of lock in an epoch, one system after the other. It isn't inlined,
// as nothing of it is done without an interval.
#[inline(never)]
fn note_systems(marks: &mut Marks, on_grid: bool, epoch: &Epoch)
    ensures { marks.new ≡ note_systems_lost on_grid epoch.now.epoch marks.old systems }
{
    for i in 0..SYSTEMS.len() {
        let system = System::at(i);
        note_cells(marks, on_grid, system, epoch.cells(system));
    }
}

// Notes the loss of lock at the cells of a system.
fn note_cells(marks: &mut Marks, on_grid: bool, system: System, cells: &[Cell])
    requires held { AreHeld system cells.now }
    ensures { marks.new ≡ note_losses on_grid marks.old cells.now }
{
    let keys = keys_of(system);
    for i in 0..cells.len() {
        marks.note(on_grid, keys, &cells[i]);
    }
}
