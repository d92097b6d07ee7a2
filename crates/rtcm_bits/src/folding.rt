//! The last bytes of a long message that were folded: taken away and added to bytes further on, so
//! that the CRC stays the same.
ghost use Rattle.std.specs.Prelude.{◌≡◌, ℕ, List, ◌/◌, ◌%◌, ◌∷◌, ◌++◌, drop, length, take, replicate};
ghost use Rattle.rtcm_bits.specs.inner.Folding.{fold_into, Sixes};

use std::marker::Model;
use std::simd::prelude::*;

/// The lanes of two vectors from the second on, sixteen of them.
const FROM_ONE: [usize; 16] = [1, 2, 3, 4, 5, 6, 7, 8, 9, 10, 11, 12, 13, 14, 15, 16];

/// Those from the tenth on.
const FROM_NINE: [usize; 16] = [
    9, 10, 11, 12, 13, 14, 15, 16, 17, 18, 19, 20, 21, 22, 23, 24,
];

/// Those from the twelfth on.
const FROM_ELEVEN: [usize; 16] = [
    11, 12, 13, 14, 15, 16, 17, 18, 19, 20, 21, 22, 23, 24, 25, 26,
];

/// The last 96 bytes that were folded, the earliest first.
#[derive(Drop)]
pub(crate) struct Folded(u8x16, u8x16, u8x16, u8x16, u8x16, u8x16);

impl Model for Folded {
    ghost Value = { List ℕ };

    ghost view = { λ f. f.0 ++ (f.1 ++ (f.2 ++ (f.3 ++ (f.4 ++ f.5)))) };

    ghost invariant = { λ f. Sixes f.0 f.1 f.2 f.3 f.4 f.5 };
}

impl Folded {
    /// Returns the three bytes of a register, which are added to the first bytes of the message.
    pub fn new(register: u32) -> Folded
        ensures { result ≡ register / 65536 % 256 ∷ register / 256 % 256 ∷ register % 256 ∷ replicate 93 0 }
    {
        let none = u8x16::splat(0);
        let mut bytes = [0u8; 16];
        bytes[0] = (register / 65536 % 256) as u8;
        bytes[1] = (register / 256 % 256) as u8;
        bytes[2] = (register % 256) as u8;
        Folded(u8x16::from_array(bytes), none, none, none, none, none)
    }

    /// Returns the next sixteen bytes with all that was folded to them.
    #[inline(always)]
    pub fn next(&self, bytes: &[u8]) -> u8x16
        requires { length bytes.now ≡ 16 }
        ensures long { length result ≡ 16 }
        ensures added { result ≡ take 16 (fold_into self.now bytes.now) }
    {
        let farthest = self.0 ^ u8x16::from_slice(bytes);
        self.1.shuffle(self.2, FROM_ELEVEN)
            ^ (self.1.shuffle(self.2, FROM_NINE)
                ^ (self.1.shuffle(self.2, FROM_ONE)
                    ^ (self.0.shuffle(self.1, FROM_ELEVEN) ^ farthest)))
    }

    /// Returns these bytes after sixteen more, which take the place of the earliest.
    #[inline(always)]
    pub fn moved(self, next: u8x16) -> Folded
        requires { length next ≡ 16 }
        ensures { result ≡ drop 16 self ++ next }
    {
        Folded(self.1, self.2, self.3, self.4, self.5, next)
    }
}
