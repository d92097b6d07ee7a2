//! What a gatherer starts with.
ghost use Rattle.std.specs.Prelude.{◌≡◌, ◌↔◌, ◌⊎◌, true, false, IfOk, IfErr, IsOk, Err};
ghost use Rattle.gnss_obs.specs.declared.fault.PlanFault.{PlanFault};
ghost use Rattle.obs_epoch.specs.inner.GathererSteps.{AreNew};
ghost use Rattle.obs_epoch.specs.Kinds.{is_no_station};
ghost use Rattle.obs_epoch.specs.Starts.{is_no_week};

use crate::locks::Locks;
use crate::marks::Marks;
use crate::week::Start;
use gnss_obs::{Epoch, EpochCells, PlanFault};
use std::alloc::{AllocError, Global};

/// What a gatherer allocates.
#[derive(Drop)]
pub struct Parts {
    /// The cells of the pending epoch.
    pub pending: EpochCells,
    /// The epoch closed last.
    pub closed: Epoch,
    /// The lock records.
    pub locks: Locks,
    /// The loss of lock in epochs off the grid.
    pub marks: Marks,
}

/// Returns no cells, an epoch without cells, empty lock records and no loss of lock, if the start
/// week and the station are valid.
///
/// # Errors
///
/// `BadWeek` for a week greater than 99,999, else `BadStation` for a station greater than 4,095,
/// else `Memory` if an allocation failed.
pub fn new_parts(alloc: Global, start: Start, station: Option<u16>) -> Result<Parts, PlanFault>
    ensures new { IfOk result AreNew }
    ensures accepted { IsOk result → (is_no_week start ≡ false) × (is_no_station station ≡ false) }
    ensures week { (result ≡ Err PlanFault.BadWeek) ↔ (is_no_week start ≡ true) }
    ensures station { (result ≡ Err PlanFault.BadStation)
        ↔ ((is_no_week start ≡ false) × (is_no_station station ≡ true)) }
    ensures only { IfErr result (λ e. (e ≡ PlanFault.BadWeek) ⊎ ((e ≡ PlanFault.BadStation) ⊎ (e ≡ PlanFault.Memory))) }
{
    if start.is_no_week() {
        return Err(PlanFault::BadWeek);
    }
    if station.unwrap_or(0) > 4_095 {
        return Err(PlanFault::BadStation);
    }
    empty_parts(alloc).map_err(|_| PlanFault::Memory)
}

// Returns no cells, an epoch without cells, empty lock records and no loss of lock.
fn empty_parts(alloc: Global) -> Result<Parts, AllocError>
    ensures { IfOk result AreNew }
{
    let locks = Locks::new(alloc)?;
    let marks = Marks::new(alloc)?;
    let pending = EpochCells::new(alloc)?;
    let closed = Epoch::new(alloc)?;
    Ok(Parts {
        pending,
        closed,
        locks,
        marks,
    })
}
