//! The settings of a conversion.
ghost use Rattle.std.specs.Prelude.{◌≡◌};
ghost use Rattle.rtcm_convert.specs.SetupValues.{default_setup};

use gnss_obs::Plan;
use obs_epoch::GatherSetup;
use rinex_file::HeaderTexts;
use rtcm_msg::Forms;
use rtcm_scan::MOST_BYTES;

/// The settings of a conversion.
#[derive(Drop)]
pub struct Setup {
    /// The settings of its gatherer: the signals to be written, the station, and the epochs.
    pub gatherer: GatherSetup,
    /// The texts of the header.
    pub texts: HeaderTexts,
    /// The forms of the MSMs that are decoded.
    pub forms: Forms,
    /// Largest number of bytes accepted, up to 2^48.
    pub limit: u64,
}

impl Setup {
    /// Returns the default settings with this plan, these texts and this start week: those of
    /// [`GatherSetup::new`], MSM4 and MSM7, and the largest limit.
    pub fn new(plan: Plan, texts: HeaderTexts, start_week: u32) -> Setup
        ensures { result ≡ default_setup plan texts start_week }
    {
        Setup {
            gatherer: GatherSetup::new(plan, start_week),
            texts,
            forms: Forms::FourAndSeven,
            limit: MOST_BYTES,
        }
    }
}
