//! Whole streams.
ghost use Rattle.std.specs.Prelude.{◌≡◌, ◌≢◌, ◌↔◌, Err, IsErrOf, IfOk, IfErr, IfSome};
ghost use Rattle.devices.specs.Device.{IsUntouched, Moves};
ghost use Rattle.rtcm_convert.specs.Faults.{FailsWithDevices, IfEmpty, IsSentAfter, IsSetupFault};
ghost use Rattle.rtcm_convert.specs.Made.{IsMadeWith, IsMadeEmpty, IsMadeToLimit, IsMadeSoFar, IsMadeInPart};
ghost use Rattle.rtcm_convert.specs.SetupValues.{IsBad};

use crate::converter::Converter;
use crate::fault::Fault;
use crate::laws;
use crate::report::Report;
use crate::setup::Setup;
use devices::{Counted, Deliver};
use std::alloc::Global;
use std::io::Read;

/// Reads a stream to its end, and writes its observation file: [`Converter::run`] of a new
/// converter.
///
/// # Errors
///
/// `BadSetup` and `Memory` of [`Converter::new`], before anything is read or written; `Read`,
/// `Write`, `TooLong`, `NoEpoch` and `NoneChosen` of [`Converter::run`].
// Not inlined, so that the converter isn't in the stack frame of every command.
#[inline(never)]
pub fn convert_stream<R: Read, W: Deliver>(
    alloc: Global,
    setup: Setup,
    reader: &mut Counted<R>,
    writer: &mut Counted<W>,
) -> Result<Report, Fault>
    // The file that was written is the one of the stream's frames in order, has an epoch, and is
    // the text of a file value; and that is its report.
    ensures made { IfOk result (λ report. IfSome (R.remaining reader.old.inner)
        (IsMadeWith setup report (W.contents writer.old.inner) (W.contents writer.new.inner))) }
    // The file has no epoch and is empty, as no epoch of the stream has a value, or none that has
    // one is chosen.
    ensures empty { IfEmpty result (λ fault. IfSome (R.remaining reader.old.inner)
        (IsMadeEmpty setup fault (W.contents writer.old.inner) (W.contents writer.new.inner))) }
    // The stream is longer than the limit; the bytes up to it were accepted, and the file of the
    // epochs that they close was written.
    ensures long { IsErrOf result Fault.TooLong
        → Moves R.remaining reader.old reader.new W.contents writer.old writer.new (IsMadeToLimit setup) }
    // The file of the epochs that the bytes read close was written.
    ensures read { IsErrOf result Fault.Read → Moves R.remaining reader.old reader.new W.contents writer.old writer.new
        (IsMadeSoFar setup) }
    // The writer failed at one of the pieces read, or when all was read.
    ensures write { IsErrOf result Fault.Write
        → Moves R.remaining reader.old reader.new W.contents writer.old writer.new (IsMadeInPart setup) }
    // Nothing waits in the writer, unless it failed.
    ensures sent { IsSentAfter result (W.waiting writer.old.inner) (W.waiting writer.new.inner) }
    ensures devices { FailsWithDevices result reader.old reader.new writer.old writer.new }
    ensures bad_setup { result ≡ Err Fault.BadSetup ↔ IsBad setup }
    ensures untouched { IfErr result (λ fault. IsSetupFault fault
        → IsUntouched reader.old reader.new writer.old writer.new) }
    ensures only { (result ≢ Err Fault.Failed) × (result ≢ Err Fault.Finished) }
{
    laws::prefix();
    laws::read_back(&setup);
    let mut converter = Converter::new(alloc, setup)?;
    let answer = converter.run(reader, writer);
    drop(converter);
    answer
}
