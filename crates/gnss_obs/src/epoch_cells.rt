//! The kept cells of an epoch.
ghost use Rattle.std.specs.Prelude.{◌≡◌, ◌+◌, ◌*◌, ◌<◌, ◌≤◌, [], All, IfOk, length, true};
ghost use Rattle.gnss_obs.specs.HeardCells.{heard_cell, IsObserved};
ghost use Rattle.gnss_obs.specs.Arriving.{sorted_cells, sorted_lists};
ghost use Rattle.gnss_obs.specs.inner.Arriving.{IsAdded, AddsCell, AreBelow, AreKept, HasSatellites};
ghost use Rattle.gnss_obs.specs.Marked.{marked_at};
ghost use Rattle.gnss_obs.specs.inner.PlanOrder.{IsPlanned, HasPlannedCells};
ghost use Rattle.gnss_obs.specs.Order.{AreOrderedBy};
ghost use Rattle.gnss_obs.specs.SignalLists.{indices};
ghost use Rattle.gnss_obs.specs.inner.SignalLists.{IsOf};
ghost use Rattle.gnss_system.specs.Satellites.{satellites};
ghost use Rattle.gnss_system.specs.declared.system.System.{System};
ghost use Rattle.gnss_system.specs.SystemValues.{value_of, with_value_of};
ghost use Rattle.gnss_obs.specs.Values.{AreHeld, no_cells, planned_of};

use crate::cell::Cell;
use crate::cells::{Cells, SATELLITE_SLOTS};
use crate::epoch::MOST_CELLS;
use crate::plan::Plan;
use crate::signal::Signal;
use gnss_system::{BySystem, SYSTEMS, System};
use std::alloc::{AllocError, Global};
use std::boxed::Box;
use std::marker::Model;
use std::mem;

/// The outcome of a cell.
#[derive(Clone, Copy)]
pub enum Added {
    /// The cell was kept.
    Kept,
    /// A cell of its satellite and signal is kept.
    Repeated,
    /// 256 cells of its system are kept.
    Crowded,
}

/// The kept cells of an epoch, a list for each system: while it is pending in the order in which
/// they arrive.
// On the heap, so that a move is short.
#[derive(Drop)]
pub struct EpochCells(BySystem<Box<Cells>>);

impl Model for EpochCells {
    ghost use Rattle.gnss_system.specs.declared.system.System.{System};
    ghost use Rattle.gnss_system.specs.SystemValues.{value_of, map_by};
    ghost use Rattle.gnss_obs.specs.inner.Arriving.{AreKept};
    ghost use Rattle.gnss_obs.specs.Values.{CellLists};

    ghost Value = { CellLists };

    ghost view = { λ e. map_by (λ c. c.value) e.0 };

    ghost invariant = { λ e. (s : System) → AreKept s (value_of s e.0).value };
}

impl EpochCells {
    /// Returns empty lists.
    ///
    /// # Errors
    ///
    /// `AllocError` if an allocation failed.
    pub fn new(alloc: Global) -> Result<EpochCells, AllocError>
        ensures { IfOk result (λ e. e ≡ no_cells) }
    {
        Ok(EpochCells(BySystem::try_each(|_| no_list(alloc))?))
    }

    /// Returns the cells of a system.
    pub fn of(&self, system: System) -> &[Cell]
        ensures cells { result.now ≡ value_of system self.now }
        ensures held { AreHeld system result.now }
    {
        self.0.of(system).as_slice()
    }

    /// Appends a cell, unless one of its satellite and signal is kept, or 256 of its system.
    #[inline(always)]
    pub fn add(&mut self, x: Cell) -> Added
        requires observed { IsObserved (heard_cell x) }
        requires indicator { x.lli < 4 }
        ensures { IsAdded self.old x result self.new }
    {
        add_to(&mut self.0, x.satellite.system(), x)
    }

    /// Removes all cells.
    pub(crate) fn clear(&mut self)
        ensures { self.new ≡ no_cells }
    {
        clear_all(&mut self.0);
    }

    /// Sets bit 0 of the loss of lock indicator of a cell of a system.
    pub(crate) fn mark(&mut self, system: System, at: usize)
        requires { at < length (value_of system self.old) }
        ensures { self.new ≡ with_value_of system self.old (marked_at at (value_of system self.old)) }
    {
        mark_in(&mut self.0, system, at);
    }

    /// Moves the cells of each system to `sorted`, in the order of satellites and then of a plan.
    pub(crate) fn move_sorted(&mut self, plan: &Plan, sorted: &mut EpochCells)
        requires { HasPlannedCells plan.now self.old }
        ensures sorted { sorted.new ≡ sorted_lists plan.now self.old }
        ensures order { (s : System) → AreOrderedBy (planned_of s plan.now) (value_of s sorted.new) }
        ensures none { self.new ≡ no_cells }
    {
        move_all(&mut self.0, plan, &mut sorted.0);
    }
}

// Removes the cells of each system.
fn clear_all(cells: &mut BySystem<Box<Cells>>)
    ensures { (s : System) → (value_of s cells.new).value ≡ [] }
{
    for i in 0..SYSTEMS.len() {
        cells.of_mut(System::at(i)).clear();
    }
}

// Marks a cell of a system.
fn mark_in(cells: &mut BySystem<Box<Cells>>, system: System, at: usize)
    requires { at < length (value_of system cells.old).value }
    ensures own { (value_of system cells.new).value ≡ marked_at at (value_of system cells.old).value }
    ensures others { cells.new ≡ with_value_of system cells.old (value_of system cells.new) }
{
    cells.of_mut(system).mark(at);
}

// Moves the cells of each system, sorted.
fn move_all(cells: &mut BySystem<Box<Cells>>, plan: &Plan, sorted: &mut BySystem<Box<Cells>>)
    requires kept { (s : System) → AreKept s (value_of s cells.old).value }
    requires planned { (s : System) → All (IsPlanned (planned_of s plan.now)) (value_of s cells.old).value }
    ensures sorted { (s : System) → (value_of s sorted.new).value
        ≡ sorted_cells (planned_of s plan.now) (value_of s cells.old).value }
    ensures none { (s : System) → (value_of s cells.new).value ≡ [] }
{
    for i in 0..SYSTEMS.len() {
        let system = System::at(i);
        move_list(cells.of_mut(system), plan, system, sorted.of_mut(system));
    }
}

// Returns an empty list of cells. It isn't inlined, so that the stack has room for one at most.
#[inline(never)]
fn no_list(alloc: Global) -> Result<Box<Cells>, AllocError>
    ensures { IfOk result (λ cells. cells.value ≡ []) }
{
    Box::new(alloc, Cells::new(alloc)?).map_err(|_| AllocError)
}

// Appends a cell to those of a system.
#[inline(always)]
fn add_to(cells: &mut BySystem<Box<Cells>>, system: System, x: Cell) -> Added
    ensures own { AddsCell (value_of system cells.old).value x result (value_of system cells.new).value }
    ensures others { cells.new ≡ with_value_of system cells.old (value_of system cells.new) }
{
    // A match of its own: through `of_mut`, `convert` executes 3 % more instructions.
    match system {
        System::Gps => add(&mut cells.gps, x),
        System::Galileo => add(&mut cells.galileo, x),
        _ => add(cells.of_mut(system), x),
    }
}

// Appends a cell, unless one of its key is kept or there is no room.
#[inline(always)]
fn add(cells: &mut Cells, x: Cell) -> Added
    ensures { AddsCell cells.old x result cells.new }
{
    if cells.has_key_of(&x) {
        return Added::Repeated;
    }
    if cells.as_slice().len() >= MOST_CELLS {
        return Added::Crowded;
    }
    cells.push(x);
    Added::Kept
}

// Moves the cells of a system, sorted. They are copied only if they or the planned signals aren't
// in the order of the table of signals.
fn move_list(cells: &mut Box<Cells>, plan: &Plan, system: System, sorted: &mut Box<Cells>)
    requires kept { AreKept system cells.old.value }
    requires planned { All (IsPlanned (planned_of system plan.now)) cells.old.value }
    ensures sorted { sorted.new.value ≡ sorted_cells (planned_of system plan.now) cells.old.value }
    ensures none { cells.new.value ≡ [] }
{
    if is_sorted(cells, plan, system) {
        mem::swap(cells, sorted);
    } else {
        sort_into(sorted, cells, plan, system);
    }
    cells.clear();
}

// Returns `true` only if the cells of a system are sorted: if there is one at most, or they and the
// planned signals are in the order of the table of signals.
fn is_sorted(cells: &Cells, plan: &Plan, system: System) -> bool
    requires kept { AreKept system cells.now }
    requires planned { All (IsPlanned (planned_of system plan.now)) cells.now }
    ensures { result ≡ true → cells.now ≡ sorted_cells (planned_of system plan.now) cells.now }
{
    let is_short = cells.as_slice().len() < 2;
    is_short || cells.is_in_table_order() && plan.is_in_table_order(system)
}

// Copies cells in the order of their satellites and then of the plan.
#[inline(never)]
fn sort_into(sorted: &mut Cells, cells: &Cells, plan: &Plan, system: System)
    requires kept { AreKept system cells.now }
    requires planned { All (IsPlanned (planned_of system plan.now)) cells.now }
    ensures { sorted.new ≡ sorted_cells (planned_of system plan.now) cells.now }
{
    let signals = plan.of(system);
    sorted.clear();
    let mut left = satellites_of(cells.as_slice(), system);
    while left != 0 {
        let id = left.trailing_zeros();
        copy_satellite(sorted, cells, signals, system, id as u8);
        left &= !(1 << id);
    }
}

// Returns the set of the satellites that have a cell: bit n is satellite n.
fn satellites_of(cells: &[Cell], system: System) -> u64
    requires held { AreHeld system cells.now }
    ensures { HasSatellites (satellites system) cells.now result }
{
    let mut set = 0;
    for i in 0..cells.len() {
        set |= 1 << cells[i].satellite.id();
    }
    set
}

// Copies the cells of a satellite in the order of the plan, after those of the satellites before.
fn copy_satellite(sorted: &mut Cells, cells: &Cells, signals: &[Signal], system: System, id: u8)
    requires id { id ≤ satellites system }
    requires signals { IsOf system signals.now }
    requires kept { AreKept system cells.now }
    requires planned { All (IsPlanned (indices signals.now)) cells.now }
    requires before { AreBelow (indices signals.now) (64 * id) cells.now sorted.old }
    ensures { AreBelow (indices signals.now) (64 * (id + 1)) cells.now sorted.new }
{
    for i in 0..signals.len() {
        if let Some(at) = cells.find(SATELLITE_SLOTS * id as usize + signals[i].index()) {
            sorted.push(cells.as_slice()[at]);
        }
    }
}
