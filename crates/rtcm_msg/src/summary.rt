//! The contents of a message other than its satellites and cells.
ghost use Rattle.std.specs.Prelude.{◌≡◌, IsTrue};
ghost use Rattle.std.specs.Option.{ForSome};
ghost use Rattle.rtcm_msg.specs.Msm.{is_time};
ghost use Rattle.rtcm_msg.specs.inner.Summaries.{summary, system_of};
ghost use Rattle.rtcm_msg.specs.inner.Viewed.{viewed_message};

use crate::station::StationParts;
use crate::view::View;

/// The contents of a message other than the data of satellites and cells. A field is `None` if the
/// message does not contain it or it isn't decoded.
#[derive(Clone, Copy, Default)]
pub struct Summary {
    /// Reference station ID, DF003.
    pub station: Option<u16>,
    /// Epoch time of the system, see `MsmHeader::time`: only decoded MSMs have one.
    pub time: Option<u32>,
    /// Multiple message bit, DF393.
    pub more: Option<bool>,
    /// Antenna reference point of message 1005 or 1006.
    pub point: Option<StationParts>,
}

impl<'a> View<'a> {
    /// Returns the contents of the message other than the data of satellites and cells.
    pub fn summary(&self) -> Summary
        ensures value { result ≡ summary (viewed_message self.now) }
        ensures time { ForSome result.time (λ time.
            ForSome (system_of (viewed_message self.now)) (λ system. IsTrue (is_time system time))) }
    {
        match self {
            View::Station(station) => Summary {
                station: Some(station.parts().station),
                point: Some(station.parts()),
                ..Summary::default()
            },
            View::Msm(msm) => {
                let h = msm.header();
                Summary {
                    station: Some(h.station),
                    time: Some(h.time),
                    more: Some(h.more),
                    ..Summary::default()
                }
            }
            View::Other { set, .. } => Summary {
                station: set.map(|parts| parts.0),
                more: set.map(|parts| parts.1),
                ..Summary::default()
            },
        }
    }
}
