//! What the first messages of a stream contain.
ghost use Rattle.std.specs.Prelude.{◌≡◌, [], ℕ, Option};
ghost use Rattle.rtcm_inspect.specs.FirstMessages.{mixed_of};
ghost use Rattle.rtcm_inspect.specs.inner.Counting.{AreFirst};

use crate::first_tows::FirstTows;
use crate::first_two::FirstTwo;
use rtcm_msg::StationParts;

/// What the first messages of a stream contain.
#[derive(Clone, Copy)]
pub struct FirstMessages {
    /// The content of the first station message of the wanted station.
    pub point: Option<StationParts>,
    /// The times of week of its first MSMs.
    pub tows: FirstTows,
    /// The first two stations of all MSMs and station messages.
    pub stations: FirstTwo,
}

impl FirstMessages {
    /// Returns what is known before the first message.
    pub fn new() -> FirstMessages
        ensures { (wanted : Option ℕ) → AreFirst result wanted [] }
    {
        FirstMessages {
            point: None,
            tows: FirstTows::new(),
            stations: FirstTwo::Unknown,
        }
    }

    /// Returns the first two stations, if the messages of several stations count: of all stations,
    /// if none is given.
    pub fn mixed_stations(&self, wanted: Option<u16>) -> Option<(u16, u16)>
        ensures { result ≡ mixed_of wanted self.now.stations }
    {
        match (wanted, self.stations) {
            (None, FirstTwo::Several(first, other)) => Some((first, other)),
            _ => None,
        }
    }
}
