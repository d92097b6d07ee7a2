//! Reads and writes the messages of RTCM 10403.3 that the converter uses: station messages 1005 and
//! 1006, and the multiple signal messages (MSM) of the forms MSM4 to MSM7: 1074 to 1077 of GPS, 1084
//! to 1087 of GLONASS, 1094 to 1097 of Galileo, 1104 to 1107 of SBAS, 1114 to 1117 of QZSS and 1124
//! to 1127 of BeiDou.
//!
//! [`decode`] reads a message and [`encode`] writes one. [`look`] returns a [`View`] that reads the
//! cells of an MSM one by one from its bytes, each as an [`Entry`], and [`look_in`] decodes the
//! MSMs of a set alone.
//!
//! ```
//! /// The station of a message 1005 or 1006.
//! fn station_of(message: &[u8]) -> Result<Option<u16>, MsgFault> {
//!     match decode(message)? {
//!         Message::Station(station) => Ok(Some(station.parts().station)),
//!         _ => Ok(None),
//!     }
//! }
//! ```
#![tactic(auto)]

mod bounds;
mod channels;
mod data;
mod entry;
mod equipment;
mod fault;
mod field;
mod header;
pub mod laws;
mod layout;
mod meaning;
mod message;
mod msm;
mod number;
mod packed;
mod pairs;
mod station;
mod summary;
mod value_counts;
mod view;
mod weeks;
mod writing;

pub use channels::{SentChannels, channel_of_1020};
pub use data::{Cell, INVALID_FINE_RATE, INVALID_ROUGH_RATE, Satellite};
pub use entry::Entry;
pub use equipment::{Equipment, equipment_in};
pub use fault::{EquipmentFault, Field, MsgFault, ValueFault};
pub use header::{Masks, MsmHeader, WEEK, time_of_week};
pub use message::{Message, decode, encode};
pub use msm::Msm;
pub use number::{Forms, MsmSet};
pub use station::{Station, StationParts};
pub use summary::Summary;
pub use value_counts::ValueCounts;
pub use view::{Entries, Form, MsmView, View, form_as, look, look_in};
pub use weeks::{SentWeek, sent_week};
