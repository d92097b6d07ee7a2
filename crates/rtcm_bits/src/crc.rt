//! The CRC of a frame, CRC-24Q (RTCM 10403.3, transport layer): generator 0x1864CFB, initial value
//! 0, most significant bit first, no final exclusive or.
ghost use Rattle.std.specs.Prelude.{◌≡◌, ◌+◌, ◌*◌, ◌^◌, ◌<◌, ◌≤◌, List, ℕ, [], ◌∷◌, ◌++◌, length, drop};
ghost use Rattle.rtcm_bits.specs.Bits.{uint, bits_of};
ghost use Rattle.rtcm_bits.specs.Crc.{crc};
ghost use Rattle.rtcm_bits.specs.inner.Folding.{fold_into};
ghost use Rattle.rtcm_bits.specs.inner.Register.{ProcessesBits};

use crate::folding::Folded;
use crate::tables::entry;
use std::marker::Model;
use std::simd::prelude::*;

/// Shorter messages gain nothing from folding.
const SHORTEST_FOLDED: usize = 160;

/// The CRC-24Q of the bytes processed.
#[derive(Drop)]
pub struct CheckRegister {
    register: u32,
}

impl Model for CheckRegister {
    ghost Value = { ℕ };

    ghost view = { λ r. r.register };

    ghost invariant = { λ r. r.register < 2 ^ 24 };
}

impl CheckRegister {
    /// Returns the register after no bytes.
    pub fn new() -> CheckRegister
        ensures { result ≡ crc [] }
    {
        CheckRegister { register: 0 }
    }

    /// Processes one more byte.
    pub fn take(&mut self, byte: u8)
        ensures { (bytes : List ℕ) → self.old ≡ crc bytes → self.new ≡ crc (bytes ++ byte ∷ []) }
    {
        self.register = by_table(self.register, byte);
    }

    /// Processes these bytes, one after the other.
    pub fn take_all(&mut self, bytes: &[u8])
        ensures { (front : List ℕ) → self.old ≡ crc front → self.new ≡ crc (front ++ bytes.now) }
    {
        self.register = after_all(self.register, bytes);
    }

    /// Returns the CRC-24Q of the bytes processed, 24 bits.
    pub fn value(&self) -> u32
        ensures value { result ≡ self.now }
        ensures bound { result < 2 ^ 24 }
    {
        self.register
    }
}

/// Returns the CRC-24Q of these bytes, 24 bits.
pub fn crc24q(bytes: &[u8]) -> u32
    ensures value { result ≡ crc bytes.now }
    ensures bound { result < 2 ^ 24 }
{
    after_all(0, bytes)
}

/// Returns the register after these bytes. A long message is folded first.
fn after_all(register: u32, bytes: &[u8]) -> u32
    requires { register < 2 ^ 24 }
    ensures { ProcessesBits (bits_of bytes.now) register result }
{
    if bytes.len() < SHORTEST_FOLDED {
        return after_short(register, bytes);
    }
    after_long(register, bytes)
}

/// Returns the register after these bytes, processed sixteen at a time, then eight, and the rest
/// one by one.
fn after_short(register: u32, bytes: &[u8]) -> u32
    requires { register < 2 ^ 24 }
    ensures { ProcessesBits (bits_of bytes.now) register result }
{
    let mut after = register;
    let mut taken = 0;
    while bytes.len() - taken >= 16 {
        after = after_some(after, &bytes[taken..taken + 16]);
        taken += 16;
    }
    after_fewer(after, &bytes[taken..])
}

/// Returns the register after these bytes, of which all but the last 96 to 111 are folded.
fn after_long(register: u32, bytes: &[u8]) -> u32
    requires below { register < 2 ^ 24 }
    requires long { 96 ≤ length bytes.now }
    ensures { ProcessesBits (bits_of bytes.now) register result }
{
    let mut folded = Folded::new(register);
    let mut taken = 0;
    while bytes.len() - taken >= 192 {
        // After six steps each part is in its place again, so that no register is copied.
        folded = after_steps(folded, bytes, taken, 6);
        taken += 96;
    }
    let n = (bytes.len() - taken - 96) / 16;
    folded = after_steps(folded, bytes, taken, n);
    after_folded(folded, &bytes[taken + 16 * n..])
}

/// Returns the folded bytes after `n` times sixteen more, from index `start` on.
#[inline(always)]
fn after_steps(first: Folded, bytes: &[u8], start: usize, n: usize) -> Folded
    requires whole { length first ≡ 96 }
    requires within { start + 16 * n + 96 ≤ length bytes.now }
    ensures whole { length result ≡ 96 }
    ensures same { crc (fold_into first (drop start bytes.now))
        ≡ crc (fold_into result (drop (start + 16 * n) bytes.now)) }
{
    let mut folded = first;
    for i in 0..n {
        let at = start + 16 * i;
        let next = folded.next(&bytes[at..at + 16]);
        folded = folded.moved(next);
    }
    folded
}

/// Returns the CRC of these bytes with all that was folded to them.
fn after_folded(start: Folded, bytes: &[u8]) -> u32
    requires whole { length start ≡ 96 }
    requires long { 96 ≤ length bytes.now }
    ensures bound { result < 2 ^ 24 }
    ensures value { result ≡ crc (fold_into start bytes.now) }
{
    let mut folded = start;
    let mut after = 0;
    let mut taken = 0;
    while taken < 96 {
        let next = folded.next(&bytes[taken..taken + 16]);
        after = after_some(after, &next.to_array());
        folded = folded.moved(u8x16::splat(0));
        taken += 16;
    }
    after_fewer(after, &bytes[96..])
}

/// Returns the register after these few bytes, processed eight at once if there are as many, and
/// the rest one by one.
fn after_fewer(register: u32, bytes: &[u8]) -> u32
    requires { register < 2 ^ 24 }
    ensures { ProcessesBits (bits_of bytes.now) register result }
{
    if bytes.len() < 8 {
        return after_each(register, bytes);
    }
    after_each(after_some(register, &bytes[..8]), &bytes[8..])
}

/// Returns the register after these bytes, processed one by one.
fn after_each(register: u32, bytes: &[u8]) -> u32
    requires { register < 2 ^ 24 }
    ensures { ProcessesBits (bits_of bytes.now) register result }
{
    let mut after = register;
    for byte in bytes {
        after = by_table(after, *byte);
    }
    after
}

/// Returns the register after these bytes. The register is added to the first three of them, and
/// then the table entries of all are added, each from its own table.
// Inlined, the number of bytes is known, and the loop is unrolled.
#[inline(always)]
fn after_some(register: u32, bytes: &[u8]) -> u32
    requires below { register < 2 ^ 24 }
    requires some { (3 ≤ length bytes.now) × (length bytes.now ≤ 16) }
    ensures { ProcessesBits (bits_of bytes.now) register result }
{
    let first = (register / 65536) as u8 ^ bytes[0];
    let second = (register / 256 % 256) as u8 ^ bytes[1];
    let third = (register % 256) as u8 ^ bytes[2];
    let n = bytes.len();
    let mut sum = 0;
    for k in 0..n - 3 {
        sum ^= entry(k, bytes[n - 1 - k]);
    }
    sum ^ entry(n - 3, third) ^ entry(n - 2, second) ^ entry(n - 1, first)
}

/// Returns the register after the eight bits of a byte, by the first table.
fn by_table(register: u32, byte: u8) -> u32
    requires { register < 2 ^ 24 }
    ensures { ProcessesBits (uint 8 byte) register result }
{
    let index = (register >> 16) as u8 ^ byte;
    ((register & 0xFFFF) << 8) ^ entry(0, index)
}
