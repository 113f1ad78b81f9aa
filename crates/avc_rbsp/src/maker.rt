//! Bits and codes, written one after another (7.2, 9.1).

ghost use Rattle.std.specs.Prelude.{◌≡◌, ◌-◌, ◌/◌, ◌%◌, ◌*◌, ◌^◌, ◌<◌, ◌≤◌, ◌<ℤ◌, ℕ, Bool, List};
ghost use Rattle.std.specs.Prelude.{pos, neg_ℤ};
ghost use Rattle.std.specs.Prelude.{true, false, [], ◌∷◌, ◌++◌, ◌==◌, length, replicate, IfOk};
ghost use Rattle.std.specs.Prelude.{OnErr, OnOk};
ghost use Rattle.avc_bits.specs.Bits.{bits_of};
ghost use Rattle.avc_rbsp.specs.Made.{nothing, IsFilled, Puts};
ghost use Rattle.avc_rbsp.specs.Words.{bits_after_one, se_word, signed_index, te_word, ue_word};

use avc_types::{OutOfMemory, WantOfMemory};
use smallvec::SmallVec;
use std::alloc::Global;
use std::marker::Model;

/// Puts bits and codes one after another (7.2, 9.1). Short runs of bits take no memory. Once memory
/// was refused, each further call answers so.
#[derive(Drop)]
pub struct BitMaker {
    // the last byte filled up with 0 bits
    bytes: SmallVec<u8, 32>,
    // how many bits of the last byte are still to come
    free: u8,
    failed: WantOfMemory,
}

impl Model for BitMaker {
    ghost use Rattle.avc_rbsp.specs.Made.{Made};

    ghost Value = { Made };

    ghost use Rattle.avc_rbsp.specs.Making.{made_by, IsMakerState};

    ghost view = { made_by };

    ghost invariant = { IsMakerState };
}

impl BitMaker {
    /// A maker with no bits.
    pub fn new(alloc: Global) -> Self
        ensures { result ≡ nothing }
    {
        BitMaker {
            bytes: SmallVec::new(alloc),
            free: 0,
            failed: WantOfMemory::none(),
        }
    }

    /// One bit.
    pub fn flag(&mut self, bit: bool) -> Result<(), OutOfMemory>
        ensures { Puts result (bit ∷ []) self.old self.new }
    {
        self.failed.check()?;
        let added = add_bit(&mut self.bytes, self.free, bit);
        self.free = self.failed.keep(added)?;
        Ok(())
    }

    /// The last bits of a number, the most significant first: u(n).
    pub fn put(&mut self, count: u32, value: u32) -> Result<(), OutOfMemory>
        requires { count ≤ 32 }
        ensures { Puts result (bits_of count value) self.old self.new }
    {
        self.check()?;
        let mut left = count;
        while left > 0 {
            left -= 1;
            self.flag(bit_at(value, left))?;
        }
        Ok(())
    }

    /// ue(v).
    pub fn ue(&mut self, value: u32) -> Result<(), OutOfMemory>
        requires { value < 4294967295 }
        ensures { Puts result (ue_word value) self.old self.new }
    {
        let next = value + 1;
        let count = after_one(next);
        self.put(count, 0)?;
        self.flag(true)?;
        self.put(count, next)?;
        Ok(())
    }

    /// se(v).
    pub fn se(&mut self, value: i32) -> Result<(), OutOfMemory>
        requires { neg_ℤ (pos 2147483648) <ℤ value }
        ensures { Puts result (se_word value) self.old self.new }
    {
        self.ue(index_of(value))?;
        Ok(())
    }

    /// te(v) of a value in 0..=range.
    pub fn te(&mut self, range: u32, value: u32) -> Result<(), OutOfMemory>
        requires some { 1 ≤ range }
        requires within { value ≤ range }
        requires short { value < 4294967295 }
        ensures { Puts result (te_word range value) self.old self.new }
    {
        if range == 1 {
            self.flag(value == 0)
        } else {
            self.ue(value)
        }
    }

    /// The bytes of the bits, the last one filled up with 0 bits.
    pub fn bytes(&self) -> &[u8]
        requires { self.now.failed ≡ false }
        ensures { (padding : ℕ) × IsFilled result.now self.now.bits padding }
    {
        self.bytes.as_slice()
    }

    /// How many bits were put.
    pub fn len(&self) -> u128
        requires { self.now.failed ≡ false }
        ensures { result ≡ length self.now.bits }
    {
        8 * self.bytes.len() as u128 - self.free as u128
    }

    /// An `Err` where memory was refused.
    fn check(&self) -> Result<(), OutOfMemory>
        ensures going { OnOk result (self.now.failed ≡ false) }
        ensures refused { OnErr result (self.now.failed ≡ true) }
    {
        self.failed.check()
    }
}

// a bit more, and how many bits of the last byte are then still to come
fn add_bit(bytes: &mut SmallVec<u8, 32>, free: u8, bit: bool) -> Result<u8, OutOfMemory>
    requires { free < 8 }
    ensures { IfOk result (λ left. (bits : List Bool) → IsFilled bytes.old.items bits free →
        IsFilled bytes.new.items (bits ++ bit ∷ []) left) }
{
    if free == 0 {
        bytes.push(with_bit(0, 7, bit))?;
        return Ok(7);
    }
    match bytes.pop() {
        None => Ok(0),
        Some(last) => {
            bytes.push(with_bit(last, free - 1, bit))?;
            Ok(free - 1)
        }
    }
}

// a byte whose last bits are 0, with the first of these
fn with_bit(byte: u8, place: u8, bit: bool) -> u8
    requires { place < 8 }
    ensures { (front : List Bool) → bits_of 8 byte ≡ front ++ false ∷ replicate place false →
        bits_of 8 result ≡ front ++ bit ∷ replicate place false }
{
    if bit { byte | 1 << place } else { byte }
}

// one bit of a number
fn bit_at(value: u32, place: u32) -> bool
    requires { place < 32 }
    ensures { result ≡ (value / 2 ^ place % 2 == 1) }
{
    (value >> place) % 2 == 1
}

// how many bits stand after the first 1
fn after_one(value: u32) -> u32
    requires { 0 < value }
    ensures value { result ≡ bits_after_one value }
    ensures few { result ≤ 31 }
{
    31 - value.leading_zeros()
}

// where a value stands in 0, 1, -1, 2, -2, .. (9.1.1)
fn index_of(value: i32) -> u32
    requires { neg_ℤ (pos 2147483648) <ℤ value }
    ensures value { result ≡ signed_index value }
    ensures bound { result < 4294967295 }
{
    if value > 0 {
        2 * value as u32 - 1
    } else {
        2 * value.unsigned_abs()
    }
}
