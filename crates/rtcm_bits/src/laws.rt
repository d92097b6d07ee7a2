//! Laws of the definitions that contracts cite: bits and the numbers that they encode, two's
//! complement, CRC-24Q. Each is the contract of a function without a body.
ghost use Rattle.std.specs.Prelude.{◌≡◌, ◌+◌, ◌*◌, ◌%◌, ◌^◌, ◌<◌, ◌↔◌, ℕ, ℤ, Bool, List, [], ◌∷◌, ◌++◌, length};
ghost use Rattle.rtcm_bits.specs.Bits.{uint, number, bits_of, signed, raw, FitsInt};
ghost use Rattle.rtcm_bits.specs.Crc.{crc};

/// Bits, most significant first, and the number that they encode determine each other.
pub fn numbers()
    ensures width { (w n : ℕ) → length (uint w n) ≡ w }
    ensures number { (w n : ℕ) → number (uint w n) ≡ n % 2 ^ w }
    ensures bits { (bits : List Bool) → uint (length bits) (number bits) ≡ bits }
    ensures below { (bits : List Bool) → number bits < 2 ^ length bits }
    ensures joined { (high low : List Bool) → number (high ++ low) ≡ number high * 2 ^ length low + number low }
{}

/// The bits of bytes, eight for each.
pub fn bytes()
    ensures length { (bytes : List ℕ) → length (bits_of bytes) ≡ 8 * length bytes }
    ensures joined { (front back : List ℕ) → bits_of (front ++ back) ≡ bits_of front ++ bits_of back }
{}

/// A number and its two's complement in w bits determine each other.
pub fn complement()
    ensures number { (w : ℕ) (z : ℤ) → 0 < w → FitsInt w z → signed w (raw w z) ≡ z }
    ensures bits { (w n : ℕ) → 0 < w → n < 2 ^ w → raw w (signed w n) ≡ n }
    ensures below { (w : ℕ) (z : ℤ) → 0 < w → FitsInt w z → raw w z < 2 ^ w }
    ensures fits { (w n : ℕ) → 0 < w → n < 2 ^ w → FitsInt w (signed w n) }
{}

/// Bytes followed by three more have the CRC 0 exactly if the three are the CRC of the bytes before
/// them.
pub fn residue()
    ensures { (bytes : List ℕ) (x y z : ℕ) → x < 256 → y < 256 → z < 256
        → ((crc (bytes ++ x ∷ y ∷ z ∷ []) ≡ 0) ↔ (x * 65536 + y * 256 + z ≡ crc bytes)) }
{}
