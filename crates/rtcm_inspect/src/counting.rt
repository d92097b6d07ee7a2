//! The signals of a stream, counted while it is read.
ghost use Rattle.std.specs.Prelude.{◌≡◌, Some, Ok, IfOk, IfErr};
ghost use Rattle.rtcm_msg.specs.Decoding.{message_at};
ghost use Rattle.rtcm_msg.specs.Fields.{GivesViewed};
ghost use Rattle.rtcm_msg.specs.inner.Viewed.{viewed_message};
ghost use Rattle.rtcm_scan.specs.Frames.{Framed};
ghost use Rattle.obs_epoch.specs.Heard.{Heard};
ghost use Rattle.obs_epoch.specs.SignalCounts.{is_of_station};
ghost use Rattle.rtcm_inspect.specs.inner.Counting.{HasCounted, StopsCounting, Takes};
ghost use Rattle.rtcm_inspect.specs.Devices.{CountsReader};

use crate::fault::{InspectFault, StreamCounts};
use crate::first_messages::FirstMessages;
use crate::listing::PIECE_BYTES;
use crate::said_weeks::SaidWeeks;
use crate::stream_channels::{add_1020, add_channels};
use devices::{Counted, DeviceFailed};
use gnss_obs::Channels;
use obs_epoch::SignalCounts;
use rtcm_msg::{Forms, MsgFault, MsmSet, MsmView, Station, View, look_in};
use rtcm_scan::{Frame, FrameSink, Framer, MOST_BYTES, laws};
use std::alloc::Global;
use std::io::Read;

/// The signals of the messages read so far, and what the first ones contain.
#[derive(Drop)]
pub struct StreamSignals {
    /// The station whose messages count; `None` counts those of every station.
    pub station: Option<u16>,
    /// The number of cells of each signal that have a value.
    pub signal_counts: SignalCounts,
    /// The forms of the MSMs of these cells: all, if one is an MSM5 or MSM6.
    pub forms: Forms,
    /// The channels of GLONASS satellites: the first ones that the messages have.
    pub channels: Channels,
    /// What the first messages contain.
    pub first: FirstMessages,
    /// What the ephemerides say of the week.
    pub weeks: SaidWeeks,
    /// The numbers of frames and MSMs; that of bytes is known at the end.
    pub counts: StreamCounts,
}

impl FrameSink<()> for StreamSignals {
    ghost use Rattle.rtcm_inspect.specs.inner.Counting.{Counts, NeverFails};

    type Fault = DeviceFailed;

    ghost took = { Counts };

    ghost broke = { NeverFails };

    /// Counts the cells of the frame's message, and keeps what it contains if it is a first one.
    fn take(&mut self, frame: &Frame, _out: &mut ()) -> Result<(), DeviceFailed> {
        let message = frame.message.as_slice();
        self.weeks.add(self.first.tows.greatest, message);
        // No stream has 2^64 frames.
        self.counts.frames = self.counts.frames.wrapping_add(1);
        // Not `look`, which would copy the view for each message.
        self.take_message(message, &look_in(&MsmSet::all(), message));
        Ok(())
    }

    fn send(&self, _out: &mut ()) -> Result<(), DeviceFailed> {
        Ok(())
    }
}

impl StreamSignals {
    /// Adds a message. A refused one adds nothing.
    fn take_message(&mut self, message: &[u8], view: &Result<View<'_>, MsgFault>)
        ensures { (f : Framed) → f.message ≡ message.now → GivesViewed viewed_message view.now (message_at message.now)
            → Takes self.old self.new f (message_at f.message) }
    {
        match view {
            Ok(View::Msm(msm)) => self.take_msm(msm),
            Ok(View::Station(station)) => self.take_station(station),
            Ok(View::Other { .. }) => add_1020(&mut self.channels, message),
            Err(_) => {}
        }
    }

    /// Adds an MSM. One of another station is counted, and only its station kept.
    fn take_msm(&mut self, msm: &MsmView<'_>)
        ensures { (f : Framed) → message_at f.message ≡ Ok (viewed_message (View.Msm msm.now))
            → Takes self.old self.new f (message_at f.message) }
    {
        let station = msm.header().station;
        self.counts.msm = self.counts.msm.wrapping_add(1);
        self.first.stations.add(station);
        if self.is_wanted(station) {
            add_channels(&mut self.channels, msm);
            self.first.tows.add(msm);
            if self.signal_counts.count_msm(msm) && !self.forms.have(msm.form()) {
                self.forms = Forms::All;
            }
        }
    }

    /// Adds a station message. Of that of another station, only the station is kept.
    fn take_station(&mut self, message: &Station)
        ensures { (f : Framed) → message_at f.message ≡ Ok (viewed_message (View.Station message.now))
            → Takes self.old self.new f (message_at f.message) }
    {
        let parts = message.parts();
        self.first.stations.add(parts.station);
        if self.is_wanted(parts.station) && self.first.point.is_none() {
            self.first.point = Some(parts);
        }
    }

    /// Returns whether the messages of a station count.
    fn is_wanted(&self, station: u16) -> bool
        ensures { (m : Heard) → m.station ≡ Some station → result ≡ is_of_station self.now.station m }
    {
        self.station.unwrap_or(station) == station
    }
}

/// Counts the signals of a stream of at most 2^48 bytes that have a cell with a value, for one
/// station or for all.
///
/// # Errors
///
/// `Read` if the reader failed, `TooLong` if the stream is longer than the limit, and `Memory`.
pub fn read_signals<R: Read>(
    alloc: Global,
    station: Option<u16>,
    reader: &mut Counted<R>,
) -> Result<StreamSignals, InspectFault>
    ensures whole { IfOk result
        (λ s. HasCounted s station (R.remaining reader.old.inner) (R.remaining reader.new.inner)) }
    ensures fault { IfErr result (StopsCounting R.remaining reader.old reader.new) }
    ensures reader { CountsReader result reader.old reader.new }
{
    // The limit is valid, so a framer is refused only when out of memory.
    let Ok(mut framer) = Framer::new(alloc, MOST_BYTES) else {
        return Err(InspectFault::Memory);
    };
    let Ok(weeks) = SaidWeeks::new(alloc) else {
        return Err(InspectFault::Memory);
    };
    let mut signals = StreamSignals {
        station,
        signal_counts: SignalCounts::new(),
        forms: Forms::FourAndSeven,
        channels: Channels::none(),
        first: FirstMessages::new(),
        weeks,
        counts: StreamCounts {
            bytes: 0,
            frames: 0,
            msm: 0,
        },
    };
    let mut buffer = [0; PIECE_BYTES];
    laws::prefix();
    let read = framer.read_frames(reader, &mut buffer, &mut signals, &mut ());
    // At most the limit's number of bytes was read, so no count reaches its largest number.
    signals.counts.bytes = framer.taken();
    drop(framer);
    match read {
        Ok(()) => Ok(signals),
        Err(fault) => Err(InspectFault::from(fault)),
    }
}
