//! From frames to the bytes of a file, and the end of a stream.
ghost use Rattle.std.specs.Prelude.{◌≡◌, ◌↔◌, [], false, true, Err, OnOk, OnErr, IfOk, IfErr};
ghost use Rattle.devices.specs.Device.{FailsWith, WritesBytes, WritesText};
ghost use Rattle.rtcm_msg.specs.inner.Viewed.{viewed_message};
ghost use Rattle.rtcm_convert.specs.Faults.{IsSetupFault};
ghost use Rattle.rtcm_convert.specs.SetupValues.{setup_value, IsBadStart};
ghost use Rattle.rtcm_convert.specs.Filed.{HasFiledFrames, opening_of, added_by, HasCountedClosed};
ghost use Rattle.rtcm_convert.specs.inner.Steps.{IsCloseFirst, IsFinalKind, WritesFirst, TakesMessage, IsTakenAgain};
ghost use Rattle.rtcm_convert.specs.inner.Steps.{IsKindOf, BreaksInMessage, TakesNext, IsKindOfNext, BreaksInNext};
ghost use Rattle.rtcm_convert.specs.inner.Steps.{EndsFile, BreaksInRest};
ghost use Rattle.rtcm_scan.specs.Examined.{HasExaminedSome};
ghost use Rattle.rtcm_convert.specs.inner.Stream.{Files, BreaksFiling, HasDrainedSome, EndsBytes, BreaksAtEndOf};

use crate::fault::Fault;
use crate::laws;
use crate::report::Report;
use crate::setup::Setup;
use devices::{Counted, Deliver, DeviceFailed};
use gnss_obs::{Epoch, PlanFault, StationValues};
use obs_epoch::{Gatherer, Kind, msm_set};
use rinex_file::{Head, HeadFault, HeaderTexts, write_epoch, write_event, write_header};
use rtcm_msg::{MsmSet, View, look_in};
use rtcm_scan::{Frame, FrameSink, Framer};
use std::alloc::Global;
use std::io::Write;

/// Gathers the messages of frames in order, and writes the epochs that they close.
#[derive(Drop)]
pub(crate) struct FileWriter {
    /// Gathers the cells of the messages into epochs.
    pub(crate) gatherer: Gatherer,
    /// The MSMs that are decoded: also those of GPS and Galileo of which no signal is planned.
    pub(crate) set: MsmSet,
    /// The texts of the header.
    pub(crate) texts: HeaderTexts,
    /// The station values that were written last: in the header, or in an event.
    pub(crate) values: Option<StationValues>,
    /// Number of epochs in the file.
    pub(crate) epochs: u64,
    /// The report of the frames so far, with counts of 0 for bytes and epochs.
    pub(crate) tally: Report,
}

impl FileWriter {
    /// Returns a file writer that has processed no frame. A week or a station out of range is
    /// `BadSetup`.
    pub(crate) fn new(alloc: Global, setup: Setup) -> Result<Self, Fault>
        ensures history { IfOk result (λ file_writer. HasFiledFrames file_writer (setup_value setup) []) }
        ensures going { IfOk result (λ file_writer. file_writer.gatherer.has_ended ≡ false) }
        ensures bad { result ≡ Err Fault.BadSetup ↔ IsBadStart setup }
        ensures only { IfErr result IsSetupFault }
    {
        let set = msm_set(&setup.gatherer.plan, setup.forms);
        let texts = setup.texts;
        match Gatherer::new(alloc, setup.gatherer) {
            Ok(gatherer) => Ok(FileWriter {
                gatherer,
                set,
                texts,
                values: None,
                epochs: 0,
                tally: Report::default(),
            }),
            Err(fault) => {
                drop(texts);
                drop(set);
                match fault {
                    PlanFault::BadWeek | PlanFault::BadStation => Err(Fault::BadSetup),
                    _ => Err(Fault::Memory),
                }
            }
        }
    }

    /// Writes the header if the file has no epoch, or else an event if the epoch's station values
    /// differ from those written last.
    fn open<W: Write>(&self, epoch: &Epoch, writer: &mut Counted<W>) -> Result<(), HeadFault>
        ensures { WritesText result W.contents writer.old writer.new (opening_of self.now epoch.now) }
    {
        let values = epoch.station_values();
        match self.values {
            None => {
                let head = Head {
                    interval: self.gatherer.choice().interval,
                    texts: &self.texts,
                    plan: self.gatherer.plan(),
                    values,
                    first: epoch.time(),
                };
                write_header(&head, writer)
            }
            Some(before) if before.is_same(values) => Ok(()),
            Some(_) => write_event(values, writer),
        }
    }

    /// Writes the epoch that the gatherer closed last, if a satellite in it has a value, after the
    /// header or the event that it needs.
    fn write_closed<W: Write>(&mut self, writer: &mut Counted<W>) -> Result<(), HeadFault>
        ensures written { WritesText result W.contents writer.old writer.new (added_by self.old) }
        ensures now { OnOk result (HasCountedClosed self.old self.new) }
        ensures same { (self.new.gatherer ≡ self.old.gatherer) × (self.new.texts ≡ self.old.texts)
            × (self.new.set ≡ self.old.set) × (self.new.tally ≡ self.old.tally) }
    {
        let Some(epoch) = self.gatherer.closed() else {
            return Ok(());
        };
        if !epoch.has_satellites() {
            return Ok(());
        }
        self.open(epoch, writer)?;
        let values = epoch.station_values();
        write_epoch(epoch, self.gatherer.plan(), writer)?;
        self.values = Some(values);
        self.epochs = self.epochs.saturating_add(1);
        Ok(())
    }

    /// Passes a message to the gatherer, and writes the epoch that this closes.
    fn step<W: Write>(
        &mut self,
        message: &View<'_>,
        writer: &mut Counted<W>,
    ) -> Result<Kind, DeviceFailed>
        requires { self.old.gatherer.has_ended ≡ false }
        // The message is to be passed again.
        ensures first { IfOk result (λ kind. IsCloseFirst kind → WritesBytes W.contents writer.old writer.new
            (WritesFirst self.old self.new (viewed_message message.now))) }
        // It was accepted.
        ensures taken { IfOk result (λ kind. IsFinalKind kind → WritesBytes W.contents writer.old writer.new
            (TakesMessage self.old self.new (viewed_message message.now))) }
        ensures again { IfOk result (λ kind. IsTakenAgain self.old (viewed_message message.now) kind) }
        ensures kind { IfOk result (λ kind. IsFinalKind kind → IsKindOf self.old (viewed_message message.now) kind) }
        ensures same { self.new.tally ≡ self.old.tally }
        ensures part { OnErr result (WritesBytes W.contents writer.old writer.new
            (BreaksInMessage self.old (viewed_message message.now))) }
        ensures device { FailsWith result writer.old writer.new }
        ensures ended { self.new.gatherer.has_ended ≡ false }
    {
        let taken = self.gatherer.take_view(message);
        match self.write_closed(writer) {
            Ok(()) => Ok(taken.kind),
            Err(_) => Err(DeviceFailed),
        }
    }

    /// Gathers a message: if the gatherer closes an epoch first, it is passed again.
    pub(crate) fn take_message<W: Write>(
        &mut self,
        message: &View<'_>,
        writer: &mut Counted<W>,
    ) -> Result<Kind, DeviceFailed>
        requires { self.old.gatherer.has_ended ≡ false }
        ensures whole { OnOk result (WritesBytes W.contents writer.old writer.new
            (TakesNext self.old self.new (viewed_message message.now))) }
        ensures kind { IfOk result (λ kind. IsKindOfNext self.old (viewed_message message.now) kind) }
        ensures same { self.new.tally ≡ self.old.tally }
        ensures part { OnErr result (WritesBytes W.contents writer.old writer.new
            (BreaksInNext self.old (viewed_message message.now))) }
        ensures device { FailsWith result writer.old writer.new }
        ensures ended { self.new.gatherer.has_ended ≡ false }
    {
        let kind = self.step(message, writer)?;
        if !kind.is_close_first() {
            return Ok(kind);
        }
        self.step(message, writer)
    }

    /// Writes the rest of the file, and delivers it.
    pub(crate) fn end<W: Deliver>(&mut self, writer: &mut Counted<W>) -> Result<(), DeviceFailed>
        requires { self.old.gatherer.has_ended ≡ false }
        ensures whole { OnOk result (WritesBytes W.contents writer.old writer.new (EndsFile self.old self.new)) }
        ensures same { self.new.tally ≡ self.old.tally }
        ensures part { OnErr result (WritesBytes W.contents writer.old writer.new (BreaksInRest self.old)) }
        ensures device { FailsWith result writer.old writer.new }
        ensures sent { OnOk result (W.waiting writer.new.inner ≡ []) }
        ensures ended { self.new.gatherer.has_ended ≡ true }
    {
        obs_epoch::laws::closed_stay();
        obs_epoch::laws::choices();
        self.gatherer.end();
        if let Err(_) = self.write_closed(writer) {
            return Err(DeviceFailed);
        }
        writer.flush_whole()
    }
}

impl<W: Deliver> FrameSink<Counted<W>> for FileWriter {
    // It is returned for each frame, and a `Fault` with its numbers would be copied each time.
    type Fault = DeviceFailed;

    ghost can_take = { λ v. v.gatherer.has_ended ≡ false };

    ghost is_sent = { λ o. W.waiting o.inner ≡ [] };

    ghost took = { Files W.contents };

    ghost broke = { BreaksFiling W.contents };

    fn take(&mut self, frame: &Frame, out: &mut Counted<W>) -> Result<(), DeviceFailed> {
        match look_in(&self.set, &frame.message) {
            Err(_) => {
                self.tally.count(None);
                Ok(())
            }
            Ok(message) => {
                let kind = self.take_message(&message, out)?;
                self.tally.count(Some(kind));
                Ok(())
            }
        }
    }

    fn send(&self, out: &mut Counted<W>) -> Result<(), DeviceFailed> {
        out.flush_whole()
    }
}

/// Ends the stream: processes the remaining frames, writes the rest of the file, and delivers it.
pub(crate) fn end_stream<W: Deliver>(
    framer: &mut Framer,
    file_writer: &mut FileWriter,
    writer: &mut Counted<W>,
) -> Result<(), DeviceFailed>
    requires going { file_writer.old.gatherer.has_ended ≡ false }
    requires listening { framer.old.has_ended ≡ false }
    requires some { HasDrainedSome framer.old }
    ensures whole { OnOk result (WritesBytes W.contents writer.old writer.new
        (EndsBytes framer.old file_writer.old framer.new file_writer.new)) }
    ensures part { OnErr result (WritesBytes W.contents writer.old writer.new
        (BreaksAtEndOf framer.old file_writer.old)) }
    ensures device { FailsWith result writer.old writer.new }
    ensures sent { OnOk result (W.waiting writer.new.inner ≡ []) }
    ensures some { HasExaminedSome framer.new }
    ensures same { (framer.new.limit ≡ framer.old.limit) × (framer.new.taken ≡ framer.old.taken) }
{
    laws::filed();
    rtcm_scan::laws::prefix();
    framer.finish(file_writer, writer)?;
    file_writer.end(writer)
}
