//! The candidate at the front of the held bytes: its held bytes are read, and then it is decided.
ghost use Rattle.std.specs.Prelude.{◌≡◌, ◌+◌, ◌-◌, ◌<◌, ◌≤◌, ℕ, [], min, length, slice_index, take};
ghost use Rattle.rtcm_scan.specs.inner.Candidate.{HasReadMore, HasTaken, wanted_by};
ghost use Rattle.rtcm_bits.specs.FrameOf.{preamble};
ghost use Rattle.rtcm_bits.specs.Window.{IsFirstOf, looked_through, without_front};
ghost use Rattle.rtcm_scan.specs.inner.Results.{ComesTo};

use crate::candidate::Candidate;
use rtcm_bits::{HEADER_BYTES, PREAMBLE, Window, laws};

/// What begins at the front of the held bytes.
#[derive(Clone, Copy)]
pub(crate) enum Decision {
    /// Undecided: bytes are missing.
    Open,
    /// No frame.
    Passed,
    /// A frame, with its size in bytes.
    Found(usize),
}

/// Reads the unread bytes of the candidate at the front that are held.
pub(crate) fn examine(window: &mut Window, candidate: &mut Candidate)
    requires taken { HasTaken candidate.old (take candidate.old.count window.old.bytes) }
    requires within { candidate.old.count ≤ length window.old.bytes }
    requires some { 0 < length window.old.bytes }
    ensures read { HasReadMore window.old candidate.old window.new candidate.new }
    ensures all { candidate.new.count ≡ min (wanted_by window.old.bytes) (length window.old.bytes) }
    ensures numbers { (i : ℕ) → slice_index window.old.bytes i < 256 }
{
    examine_header(window, candidate);
    // The bytes after the header are read all at once.
    let end = candidate.wanted.min(window.held());
    if candidate.count < end {
        let more = end - candidate.count;
        window.check_range(candidate.count, more, &mut candidate.register);
        candidate.count = end;
    }
}

/// Reads the candidate's header byte by byte, since each of its bytes may change the frame's size,
/// and a single byte that follows.
fn examine_header(window: &mut Window, candidate: &mut Candidate)
    requires taken { HasTaken candidate.old (take candidate.old.count window.old.bytes) }
    requires within { candidate.old.count ≤ length window.old.bytes }
    ensures read { HasReadMore window.old candidate.old window.new candidate.new }
    ensures all { candidate.new.count < candidate.new.wanted → min (length window.old.bytes) 3 ≤ candidate.new.count }
{
    let held = window.held();
    let end = if held - candidate.count == 1 {
        held
    } else {
        held.min(HEADER_BYTES)
    };
    while candidate.count < candidate.wanted && candidate.count < end {
        let byte = window.look(candidate.count);
        candidate.take(byte);
    }
}

/// Drops the bytes before the next preamble, and returns their number. Each of them is read once,
/// and so is the preamble, which begins the candidate.
pub(crate) fn pass_others(window: &mut Window, candidate: &mut Candidate) -> usize
    requires { HasTaken candidate.old [] }
    ensures first { IsFirstOf preamble window.old.bytes result }
    ensures taken { HasTaken candidate.new (take candidate.new.count window.new.bytes) }
    ensures count { candidate.new.count ≡ min 1 (length window.old.bytes - result) }
    ensures window { window.new ≡ without_front (looked_through window.old 0 (result + candidate.new.count)) result }
{
    let n = window.drop_others(PREAMBLE);
    if window.held() > 0 {
        // Made here, so that its register is computed when this is compiled.
        let mut begun = Candidate::new();
        begun.take(PREAMBLE);
        *candidate = begun;
    }
    n
}

/// Returns the decision about a candidate whose held bytes were all read.
pub(crate) fn judge(candidate: &Candidate, has_ended: bool) -> Decision
    ensures { ComesTo candidate.now has_ended result }
{
    if candidate.count < candidate.wanted {
        return if has_ended {
            Decision::Passed
        } else {
            Decision::Open
        };
    }
    laws::residue();
    if candidate.wanted > 1 && candidate.register.value() == 0 {
        Decision::Found(candidate.count)
    } else {
        Decision::Passed
    }
}
