//! Laws of what waits in a writer.
ghost use Rattle.std.specs.Prelude.{◌≡◌, ℕ, List, ◌++◌, Some};
ghost use Rattle.std.specs.Io.Buffered.{writer_inner};
ghost use Rattle.std.specs.Io.KnownBytes.{append_known};
ghost use Rattle.devices.specs.Buffering.{Buffering};

use crate::buffered::Buffered;
use crate::deliver::Deliver;
use std::alloc::Global;
use std::io::{BufWriter, Write};

/// The contents of a writer are those of its destination, followed by the bytes that wait. Of a
/// buffer, of this crate or of std, these are those of its device, followed by its own.
pub fn waiting<W: Deliver + Drop>()
    ensures each { (w : W) → W.contents w ≡ append_known (W.Target.contents (W.target w)) (W.waiting w) }
    ensures buffer { (b : Buffering W) (passed : List ℕ) → W.contents b.device ≡ Some (passed ++ W.waiting b.device)
        → ⟦<Buffered<W> as Write>⟧.contents b ≡ Some (passed ++ ⟦<Buffered<W> as Deliver>⟧.waiting b) }
    ensures std { (b : BufWriter W Global) (passed : List ℕ)
        → W.contents (writer_inner b) ≡ Some (passed ++ W.waiting (writer_inner b))
        → ⟦<BufWriter<W> as Write>⟧.contents b ≡ Some (passed ++ ⟦<BufWriter<W> as Deliver>⟧.waiting b) }
{}
