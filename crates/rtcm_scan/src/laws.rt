//! Laws of frames.
ghost use Rattle.std.specs.Prelude.{◌≡◌, ◌+◌, ◌*◌, ◌≤◌, ◌++◌, List, ℕ, [], length};
ghost use Rattle.rtcm_scan.specs.Decided.{decided, decided_frames, most_undecided};
ghost use Rattle.rtcm_bits.specs.Prefix.{IsPrefix};
ghost use Rattle.rtcm_scan.specs.Known.{known_frames};
ghost use Rattle.rtcm_scan.specs.Scan.{FramerValue, HasFramed};
ghost use Rattle.std.specs.List.{flat_map};
ghost use Rattle.rtcm_bits.specs.FrameOf.{frame_bytes};
ghost use Rattle.rtcm_scan.specs.Local.{FitFrames, StaysLocal, placed};
ghost use Rattle.rtcm_scan.specs.Looks.{most_looks, most, examined, most_now, examined_now};
ghost use Rattle.rtcm_scan.specs.Frames.{Framed, AreFrames, frames_of};

/// `frames_of` gives the frames of each list of bytes, and no other list of frames is theirs.
pub fn frames()
    ensures are { (b : List ℕ) → AreFrames b (frames_of b) }
    ensures only { (b : List ℕ) (fs : List Framed) → AreFrames b fs → fs ≡ frames_of b }
{}

/// No byte of a stream is read more than 1,030 times, at its end or before.
#[tactic(auto, using(crate::proofs::BoundLemmas::most_bound, crate::proofs::BoundLemmas::examined_bound, crate::proofs::BoundLemmas::most_now_bound, crate::proofs::BoundLemmas::examined_now_bound))]
pub fn looks()
    ensures most { (b : List ℕ) → most b ≤ most_looks }
    ensures examined { (b : List ℕ) → examined b ≤ most_looks * length b }
    ensures most_now { (b : List ℕ) → most_now b ≤ most_looks }
    ensures examined_now { (b : List ℕ) → examined_now b ≤ most_looks * length b }
{}

/// Damage stays local: frames that begin far enough after it are found, for every content of their
/// messages.
pub fn local()
    ensures { (junk : List ℕ) (messages : List (List ℕ)) (k : ℕ) → StaysLocal junk messages k }
{}

/// In a stream of frames without other bytes, each frame is found at its offset.
#[tactic(auto, using(crate::proofs::LocalLemmas::joined))]
pub fn joined()
    ensures { (messages : List (List ℕ)) → FitFrames messages
        → frames_of (flat_map frame_bytes messages) ≡ placed 0 messages }
{}

/// Decisions are final: the decided frames are a prefix of the frames of every longer stream,
/// decided or not. A stream has at most one frame for each six bytes.
#[tactic(auto, using(crate::proofs::PrefixLemmas::stays_decided, crate::proofs::PrefixLemmas::decided_nothing, crate::proofs::PrefixLemmas::six_each))]
pub fn prefix()
    ensures decided { (b t : List ℕ) → IsPrefix (decided_frames b) (decided_frames (b ++ t)) }
    ensures frames { (b t : List ℕ) → IsPrefix (decided_frames b) (frames_of (b ++ t)) }
    ensures place { (b t : List ℕ) → decided b ≤ decided (b ++ t) }
    ensures empty { decided_frames [] ≡ [] }
    ensures few { (b : List ℕ) → 6 * length (frames_of b) ≤ length b }
{}

/// At most 1,028 bytes are undecided, one fewer than the longest frame has.
#[tactic(auto, using(crate::proofs::PrefixLemmas::decided_near))]
pub fn undecided()
    ensures within { (b : List ℕ) → decided b ≤ length b }
    ensures near { (b : List ℕ) → length b ≤ decided b + most_undecided }
{}

/// The frames that a framer has returned are a prefix of the known frames.
pub fn handed()
    ensures { (v : FramerValue) (b : List ℕ) (fs : List Framed) → HasFramed v b fs
        → IsPrefix fs (known_frames v.has_ended b) }
{}
