//! Reads the cells of a message in thousandths.
ghost use Rattle.std.specs.Prelude.{◌≡◌, IfSome, option_and_then};
ghost use Rattle.rtcm_msg.specs.Entries.{IsEntry};
ghost use Rattle.rtcm_msg.specs.Forms.{lock_codes};
ghost use Rattle.obs_epoch.specs.Heard.{seen_in};
ghost use Rattle.gnss_obs.specs.HeardCells.{heard_cell, IsObserved};
ghost use Rattle.obs_epoch.specs.inner.GathererSteps.{planned_cell};

use gnss_obs::{Cell, Lock, Plan, Sat, doppler_at, phase_at, pseudorange, strength};
use gnss_system::System;
use rtcm_msg::{Entry, Form};

/// Returns the cell of an entry if its satellite is listed and its signal is planned, else `None`.
/// Values are computed only for such an entry, phase and Doppler shift only at a known carrier.
#[inline(always)]
pub fn observe(plan: &Plan, form: Form, system: System, entry: &Entry) -> Option<Cell>
    requires { IsEntry (lock_codes form) entry.now }
    ensures value { result ≡ option_and_then (planned_cell plan.now) (seen_in plan.now.channels form system entry.now) }
    ensures observed { IfSome result (λ x. IsObserved (heard_cell x)) }
    ensures system { IfSome result (λ x. x.satellite.system ≡ system) }
{
    let (Some(satellite), Some(signal)) = (
        Sat::new(system, entry.satellite),
        plan.wanted(system, entry.signal),
    ) else {
        return None;
    };
    let carrier = plan.channels().hertz(satellite, signal);
    Some(Cell {
        satellite,
        signal,
        c: pseudorange(entry.range),
        l: phase_at(entry.phase, carrier),
        d: doppler_at(entry.rate, carrier),
        s: strength(entry.strength),
        lli: 0,
        lock: if form.is_fine() {
            Lock::from_df407(entry.lock)
        } else {
            Lock::from_df402(entry.lock as u8)
        },
        half_cycle: entry.half_cycle,
    })
}
