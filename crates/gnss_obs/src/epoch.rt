//! Epochs: the observations of one time.
ghost use Rattle.std.specs.Prelude.{◌≡◌, ◌+◌, ◌<◌, ◌≤◌, length, drop, IfOk, nat_lt};
ghost use Rattle.std.specs.List.{list_any};
ghost use Rattle.gnss_obs.specs.Values.{AreHeld, cells_of, has_value, satellites_written, is_written, written_among};
ghost use Rattle.gnss_obs.specs.Values.{most_written, run, cleared, empty_epoch, no_cells, no_values};
ghost use Rattle.gnss_obs.specs.Arriving.{sorted_lists};
ghost use Rattle.gnss_obs.specs.Marked.{closed_marked_in};
ghost use Rattle.gnss_obs.specs.Order.{AreSorted, AreSortedByPlan};
ghost use Rattle.gnss_obs.specs.inner.PlanOrder.{HasPlannedCells};
ghost use Rattle.gnss_system.specs.declared.system.System.{System};
ghost use Rattle.gnss_system.specs.Satellites.{satellites as satellites_in};

use crate::cell::{Cell, StationValues};
use crate::epoch_cells::EpochCells;
use crate::plan::Plan;
use crate::time::GpsTime;
use gnss_system::{SYSTEMS, System};
use std::alloc::{AllocError, Global};
use std::marker::Model;

/// Largest number of cells of one system that an epoch keeps.
pub const MOST_CELLS: usize = 256;

/// A closed epoch: its time, the kept cells of each system, and the station values that were known
/// when it was closed.
#[derive(Drop)]
pub struct Epoch {
    time: GpsTime,
    cells: EpochCells,
    values: StationValues,
}

impl Model for Epoch {
    ghost use Rattle.gnss_system.specs.declared.system.System.{System};
    ghost use Rattle.gnss_system.specs.SystemValues.{value_of};
    ghost use Rattle.gnss_obs.specs.Values.{Closed};
    ghost use Rattle.gnss_obs.specs.Order.{AreSorted};

    ghost Value = { Closed };

    ghost view = { λ e. record { epoch = record { time = e.time; cells = e.cells }; values = e.values } };

    ghost invariant = { λ e. (s : System) → AreSorted (value_of s e.cells) };
}

impl Epoch {
    /// Returns an epoch of time 0 without cells, to which `close` moves those of another one.
    ///
    /// # Errors
    ///
    /// `AllocError` if an allocation failed.
    pub fn new(alloc: Global) -> Result<Epoch, AllocError>
        ensures { IfOk result (λ e. e ≡ record { epoch = empty_epoch 0; values = no_values }) }
    {
        Ok(Epoch {
            time: GpsTime::within(0),
            cells: EpochCells::new(alloc)?,
            values: StationValues::zero(),
        })
    }

    /// Closes a pending epoch: moves its cells to this one, sorted by satellite and then by the
    /// order of a plan.
    pub fn close(
        &mut self,
        pending: &mut EpochCells,
        plan: &Plan,
        time: GpsTime,
        values: StationValues,
    )
        requires { HasPlannedCells plan.now pending.old }
        ensures closed { self.new ≡ record {
          epoch = record { time = time; cells = sorted_lists plan.now pending.old };
          values = values;
        } }
        ensures order { AreSortedByPlan plan.now self.new.epoch }
        ensures none { pending.new ≡ no_cells }
    {
        pending.move_sorted(plan, &mut self.cells);
        self.time = time;
        self.values = values;
    }

    /// Removes its cells, as another epoch begins.
    pub fn clear(&mut self)
        ensures { self.new ≡ cleared self.old }
    {
        self.cells.clear();
    }

    /// Marks a cell of a system: sets bit 0 of its loss of lock indicator.
    pub fn mark(&mut self, system: System, at: usize)
        requires { at < length (cells_of system self.old.epoch) }
        ensures { self.new ≡ closed_marked_in system at self.old }
    {
        self.cells.mark(system, at);
    }

    /// Returns the time of the epoch.
    pub fn time(&self) -> GpsTime
        ensures { result ≡ self.now.epoch.time }
    {
        self.time
    }

    /// Returns the station values that were known when it was closed.
    pub fn station_values(&self) -> StationValues
        ensures { result ≡ self.now.values }
    {
        self.values
    }

    /// Returns the kept cells of a system, at most 256, sorted by satellite and then by the order
    /// of the plan. Each is of a listed satellite and signal of the system, and no two are of the
    /// same satellite and signal.
    pub fn cells(&self, system: System) -> &[Cell]
        ensures cells { result.now ≡ cells_of system self.now.epoch }
        ensures held { AreHeld system result.now }
        ensures order { AreSorted result.now }
    {
        self.cells.of(system)
    }

    /// Returns the number of satellites to write: those with a cell that has a pseudorange, a
    /// phase, a Doppler shift or a strength.
    pub fn satellites(&self) -> usize
        ensures count { result ≡ satellites_written self.now.epoch }
        ensures bound { result ≤ most_written }
    {
        let mut count = 0;
        for i in 0..SYSTEMS.len() {
            let system = System::at(i);
            count += written(self.cells(system), system);
        }
        count
    }

    /// Returns whether there is a satellite to write.
    pub fn has_satellites(&self) -> bool
        ensures { result ≡ nat_lt 0 (satellites_written self.now.epoch) }
    {
        for i in 0..SYSTEMS.len() {
            if has_value(self.cells(System::at(i))) {
                return true;
            }
        }
        false
    }
}

// Returns whether one of the cells has a value.
fn has_value(cells: &[Cell]) -> bool
    ensures { result ≡ list_any has_value cells.now }
{
    cells.iter().any(|x| x.has_value())
}

/// Returns the end of the run of cells of a satellite that begins at this index.
pub fn end_of(cells: &[Cell], from: usize, id: u8) -> usize
    requires { from ≤ length cells.now }
    ensures end { result ≡ from + run id (drop from cells.now) }
    ensures bound { result ≤ length cells.now }
{
    for at in from..cells.len() {
        if cells[at].satellite.id() != id {
            return at;
        }
    }
    cells.len()
}

/// Returns whether satellite `id` is to be written: whether one of its cells has a value.
pub fn is_written(cells: &[Cell], id: u8) -> bool
    ensures { result ≡ is_written cells.now id }
{
    cells
        .iter()
        .any(|x| x.satellite.id() == id && x.has_value())
}

// Returns the number of satellites of a system that have a cell with a value.
fn written(cells: &[Cell], system: System) -> usize
    requires held { AreHeld system cells.now }
    requires order { AreSorted cells.now }
    ensures count { result ≡ written_among cells.now (satellites_in system) }
    ensures bound { result ≤ satellites_in system }
{
    let mut count = 0;
    let mut last = 0;
    for i in 0..cells.len() {
        let id = cells[i].satellite.id();
        if id != last && cells[i].has_value() {
            count += 1;
            last = id;
        }
    }
    count
}
