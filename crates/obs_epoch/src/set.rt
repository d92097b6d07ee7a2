//! The MSMs that a conversion decodes.
ghost use Rattle.std.specs.Prelude.{◌≡◌};
ghost use Rattle.obs_epoch.specs.Sets.{is_always_decoded, is_decoded, set_of};

use gnss_obs::Plan;
use gnss_system::{BySystem, System};
use rtcm_msg::{Forms, MsmSet};

/// Returns the MSMs that a conversion with this plan decodes, in these forms: those of GPS and
/// Galileo, and those of each other system of which a signal is planned.
pub fn msm_set(plan: &Plan, forms: Forms) -> MsmSet
    ensures { result ≡ set_of plan.now forms }
{
    MsmSet {
        systems: BySystem::each(|system| is_decoded(plan, system)),
        forms,
    }
}

/// Returns whether the MSMs of a system are decoded under every plan: those of GPS and Galileo.
pub fn is_always_decoded(system: System) -> bool
    ensures { result ≡ is_always_decoded system }
{
    matches!(system, System::Gps | System::Galileo)
}

/// Returns whether the MSMs of a system are decoded.
fn is_decoded(plan: &Plan, system: System) -> bool
    ensures { result ≡ is_decoded plan.now system }
{
    is_always_decoded(system) || plan.signals(system) > 0
}
