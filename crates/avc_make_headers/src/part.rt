//! Parts of the syntax that are written.

ghost use Rattle.std.specs.Prelude.{◌≡◌, ◌++◌, Bool, List, false, IfSome};
ghost use Rattle.std.specs.List.{flat_map};
ghost use Rattle.avc_bits.specs.Bits.{bits_of};
ghost use Rattle.avc_rbsp.specs.Made.{Puts};
ghost use Rattle.avc_rbsp.specs.Words.{se_word, ue_word};
ghost use Rattle.avc_make_headers.specs.SpsWriting.{IsSeValue};
ghost use Rattle.avc_make_headers.specs.VuiWriting.{Each, IsUeValue, flag_bits, optional_bits};
ghost use Rattle.avc_make_headers.specs.VuiWriting.{where_bits};

use avc_rbsp::BitMaker;
use avc_types::OutOfMemory;

/// A part of the syntax: its bits, and when it can be written.
pub trait Part {
    ghost bits: { Self → List Bool };

    ghost fits: { Self → Type 0 };

    fn put(&self, maker: &mut BitMaker) -> Result<(), OutOfMemory>
        requires going { maker.old.failed ≡ false }
        requires fits { fits self.now }
        ensures { Puts result (bits self.now) maker.old maker.new };
}

/// A flag and, where it is 1, the part.
pub(crate) fn put_optional<T: Part>(
    maker: &mut BitMaker,
    part: &Option<T>,
) -> Result<(), OutOfMemory>
    requires { IfSome part.now T.fits }
    ensures { Puts result (optional_bits T.bits part.now) maker.old maker.new }
{
    match part {
        None => {
            maker.flag(false)?;
            Ok(())
        }
        Some(part) => {
            maker.flag(true)?;
            part.put(maker)?;
            Ok(())
        }
    }
}

/// The part, where it is there.
pub(crate) fn put_where<T: Part>(maker: &mut BitMaker, part: &Option<T>) -> Result<(), OutOfMemory>
    requires going { maker.old.failed ≡ false }
    requires fits { IfSome part.now T.fits }
    ensures { Puts result (where_bits T.bits part.now) maker.old maker.new }
{
    match part {
        None => Ok(()),
        Some(part) => {
            part.put(maker)?;
            Ok(())
        }
    }
}

/// The parts one after another.
pub fn put_each<T: Part>(maker: &mut BitMaker, parts: &[T]) -> Result<(), OutOfMemory>
    requires going { maker.old.failed ≡ false }
    requires fits { Each T.fits parts.now }
    ensures { Puts result (flat_map T.bits parts.now) maker.old maker.new }
{
    for part in parts {
        part.put(maker)?;
    }
    Ok(())
}

/// Two of ue(v).
pub(crate) fn put_two(maker: &mut BitMaker, first: u32, second: u32) -> Result<(), OutOfMemory>
    requires first { IsUeValue first }
    requires second { IsUeValue second }
    ensures { Puts result (ue_word first ++ ue_word second) maker.old maker.new }
{
    maker.ue(first)?;
    maker.ue(second)?;
    Ok(())
}

// u(1)
impl Part for bool {
    ghost bits = { flag_bits };

    ghost fits = { λ _. Unit {0} };

    fn put(&self, maker: &mut BitMaker) -> Result<(), OutOfMemory> {
        maker.flag(*self)
    }
}

// u(8)
impl Part for u8 {
    ghost bits = { bits_of 8 };

    ghost fits = { λ _. Unit {0} };

    fn put(&self, maker: &mut BitMaker) -> Result<(), OutOfMemory> {
        maker.put(8, *self as u32)
    }
}

// ue(v)
impl Part for u32 {
    ghost bits = { ue_word };

    ghost fits = { IsUeValue };

    fn put(&self, maker: &mut BitMaker) -> Result<(), OutOfMemory> {
        maker.ue(*self)
    }
}

// se(v)
impl Part for i32 {
    ghost bits = { se_word };

    ghost fits = { IsSeValue };

    fn put(&self, maker: &mut BitMaker) -> Result<(), OutOfMemory> {
        maker.se(*self)
    }
}
