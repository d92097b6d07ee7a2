//! Laws of the definitions, each the contract of a function without a body.
ghost use Rattle.rtcm_msg.specs.Entries.{ids, Rising};
ghost use Rattle.std.specs.Prelude.{◌≤◌, length, ◌<◌, ◌^◌, ◌≡◌, List, Bool, ℕ, Ok, Err, true, false, map, ◌⊎◌};
ghost use Rattle.rtcm_bits.specs.Bits.{filled, bits_of};
ghost use Rattle.rtcm_bits.specs.FrameOf.{longest_message_bits};
ghost use Rattle.rtcm_msg.specs.declared.message.Message.{Message};
ghost use Rattle.rtcm_msg.specs.Encoding.{message_bits, is_other, ReadsMessage, IsMessage, IsEncoding, other_of};
ghost use Rattle.rtcm_msg.specs.Decoding.{message_at, message_with};
ghost use Rattle.rtcm_msg.specs.Numbers.{default_set, kind_with, whole_set};
ghost use Rattle.rtcm_msg.specs.Sets.{is_in_set, kind_in, kind_table, message_by_table};
ghost use Rattle.rtcm_msg.specs.declared.number.MsmSet.{MsmSet};
ghost use Rattle.rtcm_msg.specs.declared.fault.MsgFault.{MsgFault};
ghost use Rattle.rtcm_msg.specs.Bounds.{EntriesAreMeasured, PointsAreInRange};
ghost use Rattle.rtcm_msg.specs.Msm.{MsmValue, MasksValue, IsValue, satellite_mask_bits};
ghost use Rattle.rtcm_msg.specs.Meaning.{Meaning, IsMeaning, meaning, keys};
ghost use Rattle.rtcm_msg.specs.Meaning.{pair_number, cell_ids, first_pair, last_pair};

/// The encoding of a message, with reserved bits of zero and padded with zero bits to a byte, is
/// decoded to the same message.
pub fn read_back()
    ensures encoded { (v : Message) → IsMessage v → is_other v ≡ false → ReadsMessage (filled (message_bits v 0)) v }
    ensures read { (v : Message) (bytes : List ℕ) → IsMessage v → is_other v ≡ false
        → IsEncoding bytes v → message_at bytes ≡ Ok v }
    // so its bytes fit a frame
    ensures short { (v : Message) → IsMessage v → length (message_bits v 0) ≤ longest_message_bits }
{}

/// Bits are read as at most one value.
pub fn one_value()
    ensures { (bits : List Bool) (v w : Message) → ReadsMessage bits v → ReadsMessage bits w → v ≡ w }
{}

/// A mask of w bits is a set of IDs: a rising list of numbers from 1 to w, and each such list
/// belongs to one mask.
#[tactic(auto, using(crate::proofs::IdLaws::ids_rising, crate::proofs::IdLaws::ids_one, crate::proofs::IdLaws::ids_all))]
pub fn masks_are_sets()
    ensures rising { (w m : ℕ) → Rising 1 w (ids w m) }
    ensures one { (w m n : ℕ) → m < 2 ^ w → n < 2 ^ w → ids w m ≡ ids w n → m ≡ n }
    ensures all { (w : ℕ) (xs : List ℕ) → Rising 1 w xs → (m : ℕ) × (m < 2 ^ w) × (ids w m ≡ xs) }
{}

/// A value corresponds to its meaning: a header, the satellites and the signals, a map from
/// satellites to data, and a map from pairs of a satellite and a signal, in rising order, to cells.
pub fn values_are_maps()
    ensures satellites { (sw cw : List ℕ) (v : MsmValue) → IsValue sw cw v
        → keys (meaning v).satellites ≡ ids satellite_mask_bits v.sets.satellites }
    ensures cells { (sw cw : List ℕ) (v : MsmValue) → IsValue sw cw v → keys (meaning v).cells ≡ cell_ids v.sets }
    ensures rising { (s : MasksValue) → Rising first_pair last_pair (map pair_number (cell_ids s)) }
    ensures one { (sw cw : List ℕ) (v w : MsmValue) → IsValue sw cw v → IsValue sw cw w
        → meaning v ≡ meaning w → v ≡ w }
    ensures all { (sw cw : List ℕ) (m : Meaning) → IsMeaning sw cw m
        → (v : MsmValue) × IsValue sw cw v × (meaning v ≡ m) }
{}

/// Bounds of the values of a message.
#[tactic(auto, using(crate::proofs::BoundsLaws::entries_measured, crate::proofs::MessageLaws::message_value))]
pub fn measures()
    // A decoded message is a value: each field fits its bits.
    ensures value { (bytes : List ℕ) (m : Message) → message_at bytes ≡ Ok m → IsMessage m }
    // The fractions of a cell are within their bounds.
    ensures cells { EntriesAreMeasured }
    ensures points { PointsAreInRange }
{}

/// What is decoded if of the MSMs only those of a set are.
#[tactic(auto, using(crate::proofs::SetLaws::value_with, crate::proofs::SetLaws::whole_is, crate::proofs::SetLaws::inside, crate::proofs::SetLaws::outside, crate::proofs::SetLaws::refused))]
pub fn message_sets()
    ensures value { (set : MsmSet) (bytes : List ℕ) (m : Message) → message_with set bytes ≡ Ok m → IsMessage m }
    ensures whole { (bytes : List ℕ) → message_with whole_set bytes ≡ message_at bytes }
    ensures inside { (set : MsmSet) (bytes : List ℕ) (m : Message) → message_at bytes ≡ Ok m
        → is_in_set set m ≡ true → message_with set bytes ≡ Ok m }
    ensures outside { (set : MsmSet) (bytes : List ℕ) (m : Message) → message_at bytes ≡ Ok m
        → is_in_set set m ≡ false → message_with set bytes ≡ Ok (other_of (bits_of bytes)) }
    ensures refused { (set : MsmSet) (bytes : List ℕ) (e : MsgFault) → message_at bytes ≡ Err e
        → (message_with set bytes ≡ Err e) ⊎ (message_with set bytes ≡ Ok (other_of (bits_of bytes))) }
{}

/// With the default set the numbers that are decoded are those of a table: 1005, 1006, 1074, 1077,
/// 1094 and 1097.
pub fn default_messages()
    ensures numbers { (n : ℕ) → kind_with default_set n ≡ kind_in kind_table n }
    ensures messages { (bytes : List ℕ) → message_with default_set bytes ≡ message_by_table bytes }
{}
