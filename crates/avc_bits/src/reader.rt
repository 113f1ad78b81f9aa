//! The bits of an RBSP, and the codes ue(v), se(v) and te(v) in them (7.2, 9.1).

ghost use Rattle.std.specs.Prelude.{◌≡◌, ◌+◌, ◌-◌, ◌*◌, ◌%◌, ◌^◌, ◌<◌, ◌≤◌, ◌≤ℤ◌, ◌<ℤ◌, pos, neg_ℤ};
ghost use Rattle.std.specs.Prelude.{length};
ghost use Rattle.std.specs.Prelude.{IsTrue, drop, min, take, replicate, ◌++◌, false, IfOk, Err};
ghost use Rattle.std.specs.Prelude.{IfSome, MatchOption, MatchResult, Ok, OnErr};
ghost use Rattle.avc_bits.specs.Bits.{Bits, at, bits_before_stop, bits_of, byte_bits, more_data};
ghost use Rattle.avc_bits.specs.Bits.{number_of, passed, start, times};
ghost use Rattle.avc_bits.specs.Codes.{align, flag, se, se_within, signed_value, skip, te, te_to};
ghost use Rattle.avc_bits.specs.Codes.{u, u_to, ue, ue_to, zeros_before_one};

use crate::bytes::{bits_at, bytes_at, eight_bytes, field_of_eight, stop_bit};
use avc_types::Fault;

/// Reads the bits of an RBSP up to its stop bit (7.2).
#[derive(Clone, Copy)]
pub struct BitReader<'a> {
    bytes: &'a [u8],
    // the byte of the next bit, and how many bits of that byte were passed
    byte: usize,
    bit: usize,
    // the stop bit is far from each byte before this one, and so many bits after the start of it
    near: usize,
    stop: usize,
    // how many bits past the stop bit were passed
    beyond: u128,
    ghost stops: { 8 * near + stop ≡ length (bits_before_stop bytes.now) },
    ghost inside: { 8 * near + stop ≤ 8 * length bytes.now },
    ghost before: { 8 * byte + bit ≤ 8 * near + stop },
    ghost narrow: { bit < 8 },
    ghost few: { stop < 8 * 33 },
    ghost far: { 0 < near → 8 * 32 ≤ stop },
    ghost past: { 0 < beyond → 8 * byte + bit ≡ 8 * near + stop },
    ghost fits: { 8 * byte + bit + beyond < 2 ^ 128 },
}

/// The 57 bits that a reader had ahead when it was asked, so that several elements can be looked at
/// before the reader passes them.
#[derive(Clone, Copy)]
pub struct Window {
    // the bits, the first one the most significant; those behind the 57 have any value
    bits: u64,
}

impl Window {
    ghost use Rattle.avc_bits.specs.Reader.{IsWindow};

    /// The bits of the window from the one behind the first `first` on, `count` of them (at most
    /// 32), as a number, the most significant first.
    #[inline(always)]
    pub fn bits(self, first: u32, count: u32) -> u32
        requires few { count ≤ 32 }
        requires within { first + count ≤ 57 }
        ensures bits { (b : Bits) → IsWindow self b → bits_of count result
            ≡ take count (passed b first).ahead }
        ensures below { result < 2 ^ count }
    {
        field_of_eight(self.bits, first, count)
    }
}

// some of the bits ahead as a number, and how many zeros stand before the first 1 of them
#[derive(Clone, Copy)]
struct Front {
    count: u32,
    bits: u32,
    zeros: u32,
}

// a codeword of ue(v): its number and how many bits it has
#[derive(Clone, Copy)]
struct UeWord {
    number: u32,
    length: u32,
}

impl<'a> BitReader<'a> {
    ghost use Rattle.avc_bits.specs.Reader.{IsUeWord, IsWindow, IsZerosAndBits, Reads, leading};
    ghost use Rattle.avc_bits.specs.Reader.{left_of, position_of, reader_bits, reader_bytes};

    /// A reader at the first bit of an RBSP.
    pub fn new(bytes: &'a [u8]) -> Self
        ensures bits { reader_bits result ≡ start bytes.now }
        ensures bytes { reader_bytes result ≡ bytes.now }
    {
        BitReader::at(bytes, 0)
    }

    /// A reader that has passed this many bits of an RBSP; past its stop bit no bit stands ahead.
    #[tactic(auto, unfolding(crate::specs::Reader::reader_bits, crate::specs::Reader::reader_bytes))]
    pub fn at(bytes: &'a [u8], position: u128) -> Self
        ensures bits { reader_bits result ≡ at bytes.now position }
        ensures bytes { reader_bytes result ≡ bytes.now }
    {
        let stop = stop_bit(bytes);
        let here = position.min(stop);
        let near = ((stop / 8) as usize).saturating_sub(32);
        BitReader {
            bytes,
            byte: (here / 8) as usize,
            bit: (here % 8) as usize,
            near,
            stop: (stop - 8 * near as u128) as usize,
            beyond: position - here,
        }
    }

    /// How many bits were passed.
    #[tactic(auto, unfolding(crate::specs::Reader::reader_bits, crate::specs::Reader::reader_bytes))]
    pub fn position(&self) -> u128
        ensures { result ≡ (reader_bits self.now).position }
    {
        self.place()
    }

    /// Whether a bit stands ahead before the stop bit (more_rbsp_data, 7.2).
    #[inline]
    pub fn more_data(&self) -> bool
        ensures { result ≡ more_data (reader_bits self.now) }
    {
        self.left() > 0
    }

    /// Whether surely 256 bits or more stand ahead: it is where 264 do. Where they do, a caller
    /// that asks first has each look and skip without a test of its own.
    #[tactic(auto, using(crate::proofs::Reading::reading))]
    #[inline(always)]
    pub fn has_many(&self) -> bool
        ensures ahead { IsTrue result → 256 ≤ length (reader_bits self.now).ahead }
        ensures found { 264 ≤ length (reader_bits self.now).ahead → IsTrue result }
    {
        self.is_far()
    }

    /// Whether surely so many bytes stand ahead: it is where one more does. A caller that asks once
    /// for several elements has them without a test of each.
    #[tactic(auto, using(crate::proofs::Reading::reading))]
    #[inline(always)]
    pub fn has_bytes(&self, count: usize) -> bool
        ensures ahead { IsTrue result → 8 * count ≤ length (reader_bits self.now).ahead }
        ensures found { 8 * (count + 1) ≤ length (reader_bits self.now).ahead → IsTrue result }
    {
        self.has_more(count)
    }

    /// The next bits, at most 32, as a number, the most significant first; zeros from the stop bit
    /// on. Nothing is passed.
    #[inline(always)]
    pub fn peek(&self, count: u32) -> u32
        requires { count ≤ 32 }
        ensures bits { bits_of count result
            ≡ take count ((reader_bits self.now).ahead ++ replicate count false) }
        ensures below { result < 2 ^ count }
    {
        if self.is_far() {
            self.next_bits(count)
        } else {
            self.peek_near_end(count)
        }
    }

    // the next bits as a number, where the stop bit may be near
    #[cold]
    #[inline(never)]
    fn peek_near_end(self, count: u32) -> u32
        requires { count ≤ 32 }
        ensures bits { bits_of count result
            ≡ take count ((reader_bits self.entry).ahead ++ replicate count false) }
        ensures below { result < 2 ^ count }
    {
        let there = self.left_near(count);
        let value = u64::from(bits_at(self.bytes, self.place(), there));
        (value << (count - there)) as u32
    }

    /// The next 57 bits. Nothing is passed.
    #[tactic(auto, using(crate::proofs::Reading::reading))]
    #[inline(always)]
    pub fn window(&self) -> Window
        requires { 64 ≤ length (reader_bits self.now).ahead }
        ensures { IsWindow result (reader_bits self.now) }
    {
        Window {
            bits: eight_bytes(self.bytes, self.byte) << self.bit,
        }
    }

    /// Passes this many bits, or `Truncated`.
    #[tactic(auto, using(crate::proofs::Reading::reading))]
    #[inline(always)]
    pub fn skip(&mut self, count: u32) -> Result<(), Fault>
        ensures read { Reads result (skip count) self.old self.new }
        ensures stays { OnErr result (self.new ≡ self.old) }
    {
        if self.left_at_most(count) < count {
            return Err(Fault::Truncated);
        }
        *self = self.after(count);
        Ok(())
    }

    /// Passes this many bits where they stand ahead, which is not tested.
    #[tactic(auto, using(crate::proofs::Reading::reading))]
    #[inline(always)]
    pub fn skip_ahead(&mut self, count: u32)
        requires { count ≤ length (reader_bits self.old).ahead }
        ensures bits { reader_bits self.new ≡ passed (reader_bits self.old) count }
        ensures bytes { reader_bytes self.new ≡ reader_bytes self.old }
    {
        *self = self.after(count);
    }

    /// u(n): the next `count` bits, at most 32, as a number, or `Truncated`.
    #[tactic(auto, using(crate::proofs::Reading::reading))]
    #[inline]
    pub fn u(&mut self, count: u32) -> Result<u32, Fault>
        requires { count ≤ 32 }
        ensures read { Reads result (u count) self.old self.new }
        ensures below { IfOk result (λ value. value < 2 ^ count) }
        ensures stays { OnErr result (self.new ≡ self.old) }
    {
        if self.left_within(count) < count {
            return Err(Fault::Truncated);
        }
        let value = self.next_bits(count);
        *self = self.after(count);
        Ok(value)
    }

    /// u(n) of at most `top`, or `OutOfRange`.
    pub fn u_to(&mut self, count: u32, top: u32) -> Result<u32, Fault>
        requires { count ≤ 32 }
        ensures read { Reads result (u_to count top) self.old self.new }
        ensures most { IfOk result (λ value. value ≤ top) }
        ensures stays { OnErr result (self.new ≡ self.old) }
    {
        let mut reader = *self;
        let value = reader.u(count)?;
        if value > top {
            return Err(Fault::OutOfRange);
        }
        *self = reader;
        Ok(value)
    }

    /// u(1): one bit.
    #[inline]
    pub fn flag(&mut self) -> Result<bool, Fault>
        ensures read { Reads result flag self.old self.new }
        ensures stays { OnErr result (self.new ≡ self.old) }
    {
        Ok(self.u(1)? == 1)
    }

    /// How many zeros stand before the next 1, which is passed too: at most `limit`, else `fault`.
    #[tactic(auto, using(crate::proofs::Reading::reading))]
    #[inline]
    pub fn zeros_before_one(&mut self, limit: u32, fault: Fault) -> Result<u32, Fault>
        requires { limit ≤ 31 }
        ensures read { Reads result (zeros_before_one limit fault) self.old self.new }
        ensures most { IfOk result (λ value. value ≤ limit) }
        ensures stays { OnErr result (self.new ≡ self.old) }
    {
        let zeros = self.front().zeros;
        if zeros > limit {
            return Err(fault);
        }
        if self.left_within(zeros + 1) <= zeros {
            return Err(Fault::Truncated);
        }
        *self = self.after(zeros + 1);
        Ok(zeros)
    }

    /// How many zeros stand before the next 1, at most `most`, and u(count) behind that 1, both
    /// passed; `None` where they are more, or where the stop bit may be near. Nothing is then
    /// passed.
    #[tactic(auto, using(crate::proofs::Reading::reading))]
    #[inline]
    pub fn zeros_and_bits(&mut self, most: u32, count: u32) -> Option<(u32, u32)>
        requires few { most ≤ 15 }
        requires narrow { count ≤ 16 }
        ensures read { MatchOption result (self.new ≡ self.old)
            (λ p. IsZerosAndBits most count p.0 p.1 self.old self.new) }
    {
        if !self.is_far() {
            return None;
        }
        self.zeros_and_bits_ahead(most, count)
    }

    /// The number of zeros in front and the bits behind them where 64 bits stand ahead, which is
    /// not tested: `None` where the zeros are more.
    #[tactic(auto, using(crate::proofs::Reading::reading))]
    #[inline(always)]
    pub fn zeros_and_bits_ahead(&mut self, most: u32, count: u32) -> Option<(u32, u32)>
        requires few { most ≤ 15 }
        requires narrow { count ≤ 16 }
        requires ahead { 64 ≤ length (reader_bits self.old).ahead }
        ensures read { MatchOption result (self.new ≡ self.old)
            (λ p. IsZerosAndBits most count p.0 p.1 self.old self.new) }
    {
        let bits = self.bits_of_eight(32);
        let zeros = bits.leading_zeros();
        if zeros > most {
            return None;
        }
        let value = (u64::from(bits) << (33 + zeros)) >> 1 >> (63 - count);
        *self = self.after(zeros + 1 + count);
        Some((zeros, value as u32))
    }

    /// ue(v) (9.1): n zeros, a 1 and n bits, which is a number up to 2^32 - 2; `CodeTooLong` where
    /// n is above 31.
    #[inline]
    pub fn ue(&mut self) -> Result<u32, Fault>
        ensures read { Reads result ue self.old self.new }
        ensures below { IfOk result (λ value. value < 2 ^ 32 - 1) }
        ensures stays { OnErr result (self.new ≡ self.old) }
    {
        match self.short_ue() {
            Some(word) => {
                self.skip_ahead(word.length);
                Ok(word.number)
            }
            None => self.any_ue(),
        }
    }

    // the codeword of ue(v) ahead, where it is short and the stop bit is not near
    #[inline(always)]
    fn short_ue(&self) -> Option<UeWord>
        ensures read { IfSome result (λ word. IsUeWord word (reader_bits self.now)) }
    {
        if !self.is_far() {
            return None;
        }
        let front = self.front();
        let length = 2 * front.zeros + 1;
        if length > front.count {
            return None;
        }
        Some(UeWord {
            number: (front.bits >> (front.count - length)) - 1,
            length,
        })
    }

    // a codeword of ue(v) of any length, also near the stop bit
    #[tactic(auto, using(crate::proofs::Reading::reading))]
    #[cold]
    #[inline(never)]
    fn any_ue(&mut self) -> Result<u32, Fault>
        ensures read { Reads result ue self.old self.new }
        ensures below { IfOk result (λ value. value < 2 ^ 32 - 1) }
        ensures stays { OnErr result (self.new ≡ self.old) }
    {
        let front = self.front();
        let length = 2 * front.zeros + 1;
        if length <= front.count {
            *self = self.after(length);
            return Ok((front.bits >> (front.count - length)) - 1);
        }
        self.ue_after(front.zeros)
    }

    // a codeword of ue(v) that begins with so many zeros
    #[tactic(auto, using(crate::proofs::Reading::reading))]
    fn ue_after(&mut self, zeros: u32) -> Result<u32, Fault>
        requires { zeros ≡ min (leading (reader_bits self.old).ahead) 32 }
        ensures read { Reads result ue self.old self.new }
        ensures below { IfOk result (λ value. value < 2 ^ 32 - 1) }
        ensures stays { OnErr result (self.new ≡ self.old) }
    {
        if zeros > 31 {
            return Err(Fault::CodeTooLong);
        }
        let length = 2 * zeros + 1;
        if self.left_near(length) < length {
            return Err(Fault::Truncated);
        }
        let tail = bits_at(self.bytes, self.place() + u128::from(zeros + 1), zeros);
        *self = self.after(length);
        Ok((1 << zeros) - 1 + tail)
    }

    /// ue(v) of at most `top`, or `OutOfRange`.
    pub fn ue_to(&mut self, top: u32) -> Result<u32, Fault>
        ensures read { Reads result (ue_to top) self.old self.new }
        ensures most { IfOk result (λ value. value ≤ top) }
        ensures stays { OnErr result (self.new ≡ self.old) }
    {
        match self.short_ue() {
            Some(word) => {
                if word.number > top {
                    return Err(Fault::OutOfRange);
                }
                self.skip_ahead(word.length);
                Ok(word.number)
            }
            None => self.any_ue_to(top),
        }
    }

    // a codeword of ue(v) of any length whose number is at most `top`, also near the stop bit
    #[cold]
    #[inline(never)]
    fn any_ue_to(&mut self, top: u32) -> Result<u32, Fault>
        ensures read { Reads result (ue_to top) self.old self.new }
        ensures most { IfOk result (λ value. value ≤ top) }
        ensures stays { OnErr result (self.new ≡ self.old) }
    {
        let before = *self;
        let value = self.any_ue()?;
        if value > top {
            *self = before;
            return Err(Fault::OutOfRange);
        }
        Ok(value)
    }

    /// se(v) (9.1.1): 0, 1, -1, 2, -2 and so on for the numbers of ue(v).
    pub fn se(&mut self) -> Result<i32, Fault>
        ensures read { Reads result se self.old self.new }
        ensures low { IfOk result (λ value. neg_ℤ (pos (2 ^ 31)) <ℤ value) }
        ensures stays { OnErr result (self.new ≡ self.old) }
    {
        let k = self.ue()?;
        Ok(signed_value(k))
    }

    /// se(v) from `low` to `high`, or `OutOfRange`.
    pub fn se_within(&mut self, low: i32, high: i32) -> Result<i32, Fault>
        ensures read { Reads result (se_within low high) self.old self.new }
        ensures low { IfOk result (λ value. low ≤ℤ value) }
        ensures high { IfOk result (λ value. value ≤ℤ high) }
        ensures stays { OnErr result (self.new ≡ self.old) }
    {
        match self.short_ue() {
            Some(word) => {
                let value = signed_value(word.number);
                if value < low || value > high {
                    return Err(Fault::OutOfRange);
                }
                self.skip_ahead(word.length);
                Ok(value)
            }
            None => {
                let before = *self;
                let value = self.se()?;
                if value < low || value > high {
                    *self = before;
                    return Err(Fault::OutOfRange);
                }
                Ok(value)
            }
        }
    }

    /// te(v) (9.1): ue(v), but where the range is 1 one bit, inverted.
    pub fn te(&mut self, range: u32) -> Result<u32, Fault>
        requires { 1 ≤ range }
        ensures read { Reads result (te range) self.old self.new }
        ensures below { IfOk result (λ value. value < 2 ^ 32 - 1) }
        ensures stays { OnErr result (self.new ≡ self.old) }
    {
        if range == 1 {
            let one = self.flag()?;
            Ok(if one { 0 } else { 1 })
        } else {
            self.ue()
        }
    }

    /// te(v) of at most its range, or `OutOfRange`.
    pub fn te_to(&mut self, range: u32) -> Result<u32, Fault>
        requires { 1 ≤ range }
        ensures read { Reads result (te_to range) self.old self.new }
        ensures most { IfOk result (λ value. value ≤ range) }
        ensures stays { OnErr result (self.new ≡ self.old) }
    {
        let before = *self;
        let value = self.te(range)?;
        if value > range {
            *self = before;
            return Err(Fault::OutOfRange);
        }
        Ok(value)
    }

    /// Goes to the start of the next byte, or stays where that is here.
    pub fn align(&mut self) -> Result<(), Fault>
        ensures read { Reads result align self.old self.new }
        ensures aligned { IfOk result (λ _. (reader_bits self.new).position % 8 ≡ 0) }
        ensures stays { OnErr result (self.new ≡ self.old) }
    {
        let count = self.to_next_byte();
        self.skip(count)
    }

    /// The next `count` bytes, at least one, from the start of a byte on: u(8) so many times, or
    /// `Truncated`.
    #[tactic(auto, using(crate::proofs::Reading::reading))]
    #[inline]
    pub fn take_bytes(&mut self, count: usize) -> Result<&'a [u8], Fault>
        requires some { 0 < count }
        requires aligned { (reader_bits self.old).position % 8 ≡ 0 }
        ensures read { MatchResult result
            (λ taken. (times count (u 8) (reader_bits self.old)
            ≡ Ok (taken.now, reader_bits self.new)) × (reader_bytes self.new
            ≡ reader_bytes self.old))
            (λ fault. times count (u 8) (reader_bits self.old) ≡ Err fault) }
        ensures long { IfOk result (λ taken. length taken.now ≡ count) }
        ensures aligned { IfOk result (λ _. (reader_bits self.new).position % 8 ≡ 0) }
        ensures stays { OnErr result (self.new ≡ self.old) }
    {
        if self.left() < 8 * count as u128 {
            return Err(Fault::Truncated);
        }
        let first = self.byte;
        let bytes = self.bytes;
        *self = self.after_bytes(count);
        Ok(bytes_at(bytes, first, count))
    }

    // the reader after so many of the bits ahead
    #[tactic(auto, unfolding(crate::specs::Reader::reader_bits, crate::specs::Reader::reader_bytes))]
    #[inline(always)]
    fn after(&self, count: u32) -> Self
        requires { count ≤ left_of self.now }
        ensures bits { reader_bits result ≡ passed (reader_bits self.now) count }
        ensures bytes { reader_bytes result ≡ reader_bytes self.now }
    {
        let bits = self.bit + count as usize;
        BitReader {
            bytes: self.bytes,
            byte: self.byte + bits / 8,
            bit: bits % 8,
            near: self.near,
            stop: self.stop,
            beyond: self.beyond,
        }
    }

    // the reader after so many bytes of the bits ahead
    #[tactic(auto, unfolding(crate::specs::Reader::reader_bits, crate::specs::Reader::reader_bytes))]
    #[inline]
    fn after_bytes(&self, count: usize) -> Self
        requires { 8 * count ≤ left_of self.now }
        ensures bits { reader_bits result ≡ passed (reader_bits self.now) (8 * count) }
        ensures bytes { reader_bytes result ≡ reader_bytes self.now }
    {
        BitReader {
            bytes: self.bytes,
            byte: self.byte + count,
            bit: self.bit,
            near: self.near,
            stop: self.stop,
            beyond: self.beyond,
        }
    }

    // whether the stop bit is so far ahead that no test against it is needed
    #[inline(always)]
    fn is_far(&self) -> bool
        ensures far { IsTrue result → 8 * 33 ≤ left_of self.now + self.now.bit }
        ensures found { 8 * 33 ≤ left_of self.now + self.now.bit → IsTrue result }
    {
        self.byte < self.near
    }

    // whether the byte with the stop bit is more than so many bytes ahead
    #[inline(always)]
    fn has_more(&self, count: usize) -> bool
        ensures more { IsTrue result → 8 * (count + 1) ≤ left_of self.now + self.now.bit }
        ensures found { 8 * (count + 1) ≤ left_of self.now + self.now.bit → IsTrue result }
    {
        self.near + self.stop / 8 - self.byte > count
    }

    // how many bits were passed
    #[inline]
    fn place(&self) -> u128
        ensures { result ≡ position_of self.now }
    {
        8 * self.byte as u128 + self.bit as u128 + self.beyond
    }

    // how many bits stand before the start of the next byte, 0 where that is here
    #[tactic(auto, unfolding(crate::specs::Reader::reader_bits))]
    fn to_next_byte(&self) -> u32
        ensures { result ≡ (8 - (reader_bits self.now).position % 8) % 8 }
    {
        ((8 - self.place() % 8) % 8) as u32
    }

    // how many bits stand ahead
    #[inline]
    fn left(&self) -> u128
        ensures { result ≡ left_of self.now }
    {
        8 * self.near as u128 + self.stop as u128 - 8 * self.byte as u128 - self.bit as u128
    }

    // how many bits stand ahead, at most so many, where the stop bit may be near
    #[cold]
    #[inline(never)]
    fn left_near(self, most: u32) -> u32
        ensures { result ≡ min (left_of self.entry) most }
    {
        self.left().min(u128::from(most)) as u32
    }

    // how many bits stand ahead, at most so many
    #[inline(always)]
    fn left_within(&self, most: u32) -> u32
        requires { most ≤ 255 }
        ensures { result ≡ min (left_of self.now) most }
    {
        if self.is_far() {
            most
        } else {
            self.left_near(most)
        }
    }

    // how many bits stand ahead, at most so many, of which there is no bound
    #[inline(always)]
    fn left_at_most(&self, most: u32) -> u32
        ensures { result ≡ min (left_of self.now) most }
    {
        if most <= 255 {
            self.left_within(most)
        } else {
            self.left_near(most)
        }
    }

    // the next bits as a number
    #[inline(always)]
    fn next_bits(&self, count: u32) -> u32
        requires few { count ≤ 32 }
        requires there { count ≤ left_of self.now }
        ensures value { result
            ≡ number_of (take count (drop (position_of self.now) (byte_bits self.now.bytes.now))) }
        ensures bound { result < 2 ^ count }
    {
        if self.is_far() {
            self.bits_of_eight(count)
        } else {
            bits_at(self.bytes, self.place(), count)
        }
    }

    // the next bits as a number, where eight bytes stand ahead
    #[inline(always)]
    fn bits_of_eight(&self, count: u32) -> u32
        requires few { count ≤ 32 }
        requires there { 64 ≤ left_of self.now }
        ensures value { result
            ≡ number_of (take count (drop (position_of self.now) (byte_bits self.now.bytes.now))) }
        ensures bound { result < 2 ^ count }
    {
        field_of_eight(eight_bytes(self.bytes, self.byte), self.bit as u32, count)
    }

    // the next 32 bits, or as many as there are
    #[inline]
    fn front(&self) -> Front
        ensures count { result.count ≡ min (length (reader_bits self.now).ahead) 32 }
        ensures bits { result.bits ≡ number_of (take result.count (reader_bits self.now).ahead) }
        ensures zeros { result.zeros ≡ min (leading (reader_bits self.now).ahead) 32 }
        ensures within { result.zeros ≤ result.count }
    {
        let count = self.left_within(32);
        let bits = self.next_bits(count);
        let zeros = bits.leading_zeros() - (32 - count);
        Front { count, bits, zeros }
    }
}

// the k-th of 0, 1, -1, 2, -2, ..
fn signed_value(k: u32) -> i32
    requires { k < 2 ^ 32 - 1 }
    ensures value { result ≡ signed_value k }
    ensures low { neg_ℤ (pos (2 ^ 31)) <ℤ result }
{
    if k % 2 == 1 {
        (k / 2 + 1) as i32
    } else {
        0 - (k / 2) as i32
    }
}
