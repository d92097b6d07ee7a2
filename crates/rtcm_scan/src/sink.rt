//! Consumers of frames.
ghost use Rattle.std.specs.Prelude.{◌++◌, ◌∷◌, [], List, ⊤, OnOk, OnErr};
ghost use Rattle.rtcm_scan.specs.Frames.{Framed};
ghost use Rattle.rtcm_scan.specs.inner.Results.{framed};

use crate::framer::Frame;

/// A consumer of the frames of a stream, in order. It may write to an output.
pub trait FrameSink<O> {
    /// Why a frame was not processed.
    type Fault;

    // A frame may be passed to the sink.
    ghost can_take: { Self → Type 0 } = { λ _. ⊤ };

    // Nothing waits in the output.
    ghost is_sent: { O → Type 0 } = { λ _. ⊤ };

    // The first sink and output, which processed the first frames, become the second sink and
    // output, which processed the second frames.
    ghost took: { Self → O → List Framed → Self → O → List Framed → Type 0 };

    // The same for a sink that failed: it processed the second frames, and at most a part of the
    // third.
    ghost broke: { Self → O → List Framed → Self → O → List Framed → List Framed → Type 0 };

    /// Processes the next frame.
    ///
    /// # Errors
    ///
    /// `Self::Fault` if the frame was not processed, or its output not written.
    fn take(&mut self, frame: &Frame, out: &mut O) -> Result<(), Self::Fault>
        requires { can_take self.old }
        ensures goes { can_take self.new }
        ensures whole { OnOk result ((s : Self) (o : O) (ps fs : List Framed) → took s o ps self.old out.old fs
            → took s o ps self.new out.new (fs ++ framed frame.now ∷ [])) }
        ensures part { OnErr result ((s : Self) (o : O) (ps fs : List Framed) → took s o ps self.old out.old fs
            → broke s o ps self.new out.new fs (fs ++ framed frame.now ∷ [])) };

    /// Has the output pass on what waits in it.
    ///
    /// # Errors
    ///
    /// `Self::Fault` if the output could not be passed on.
    fn send(&self, out: &mut O) -> Result<(), Self::Fault>
        ensures sent { OnOk result (is_sent out.new) }
        ensures whole { OnOk result ((s : Self) (o : O) (ps fs : List Framed) → took s o ps self.now out.old fs
            → took s o ps self.now out.new fs) }
        ensures part { OnErr result ((s : Self) (o : O) (ps fs : List Framed) → took s o ps self.now out.old fs
            → broke s o ps self.now out.new fs fs) };
}
