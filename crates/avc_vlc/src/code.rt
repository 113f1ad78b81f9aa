//! The next bits of a reader, to be looked up in a table.

ghost use Rattle.std.specs.Prelude.{◌≡◌, ◌≤◌, ◌<◌, ◌^◌, ◌↔◌, List, Bool, take, length, IsTrue};
ghost use Rattle.avc_bits.specs.Bits.{Bits, number_of};
ghost use Rattle.avc_bits.specs.Reader.{IsWindow, reader_bits};

use avc_bits::{BitReader, Window};

/// The next bits of a reader, at most N of them (N at most 16), and how many they are.
#[derive(Clone, Copy)]
pub struct Code<const N: usize> {
    // the next 32 bits, zeros from the stop bit on
    word: u32,
    // how many of the first N stand before the stop bit
    count: u32,
    ghost few: { count ≤ N },
    ghost narrow: { N ≤ 16 },
}

impl<const N: usize> Code<N> {
    ghost use Rattle.avc_vlc.specs.Indexing.{IsFrontOf, IsPlaceOf, Shows, code_bits};

    /// The bits that a reader has ahead. Nothing is read.
    #[inline(always)]
    pub fn next(reader: &BitReader) -> Self
        requires { N ≤ 16 }
        ensures bits { code_bits result ≡ take N (reader_bits reader.now).ahead }
        ensures ahead { Shows result (reader_bits reader.now).ahead }
    {
        let mut count = N as u32;
        'count: while count > 0 && !has(reader, count) {
            count -= 1;
        }
        Code {
            word: reader.peek(32),
            count,
        }
    }

    // The bits that a reader has ahead, of which none are counted. Nothing is read.
    #[inline(always)]
    pub(crate) fn look(reader: &BitReader) -> Self
        requires { N ≤ 16 }
        ensures { Shows result (reader_bits reader.now).ahead }
    {
        Code {
            word: reader.peek(32),
            count: 0,
        }
    }

    // The bits of a window, of which none are counted.
    #[inline(always)]
    pub(crate) fn of(window: Window) -> Self
        requires { N ≤ 16 }
        ensures { (b : Bits) → IsWindow window b → Shows result b.ahead }
    {
        Code {
            word: window.bits(0, 32),
            count: 0,
        }
    }

    /// How many bits there are.
    pub fn count(self) -> u32
        ensures { result ≡ length (code_bits self.entry) }
    {
        self.count
    }

    /// The bits as a number, the most significant first.
    pub fn number(self) -> u32
        ensures { result ≡ number_of (code_bits self.entry) }
    {
        if self.count == 0 {
            return 0;
        }
        self.word >> (32 - self.count)
    }

    // The zeros in front of the first 1, at most `last`, and the value of the `tail` bits behind
    // that 1.
    #[inline(always)]
    pub(crate) fn place(self, last: usize, tail: u32) -> (usize, usize)
        requires few { last ≤ 15 }
        requires narrow { tail ≤ 8 }
        ensures row { result.0 ≤ last }
        ensures column { result.1 < 2 ^ tail }
        ensures agrees { (ahead : List Bool) → Shows self.entry ahead →
            IsPlaceOf ahead last tail result.0 result.1 }
    {
        let zeros = self.word.leading_zeros().min(last as u32);
        let column = self.word >> (31 - tail - zeros) & ((1 << tail) - 1);
        (zeros as usize, column as usize)
    }

    // the first n bits as a number
    #[inline(always)]
    pub(crate) fn front(self, n: u32) -> u32
        requires some { 1 ≤ n }
        requires few { n ≤ 16 }
        ensures below { result < 2 ^ n }
        ensures agrees { (ahead : List Bool) → Shows self.entry ahead → IsFrontOf ahead n result }
    {
        self.word >> (32 - n)
    }
}

// whether so many bits stand ahead
fn has(reader: &BitReader, count: u32) -> bool
    ensures { IsTrue result ↔ (count ≤ length (reader_bits reader.now).ahead) }
{
    let mut after = *reader;
    match after.skip(count) {
        Ok(()) => true,
        Err(_) => false,
    }
}
