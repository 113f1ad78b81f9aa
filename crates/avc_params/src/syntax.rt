//! Parts of the syntax that are read from bits.

ghost use Rattle.std.specs.Prelude.{◌≡◌, ◌≤◌};
ghost use Rattle.avc_bits.specs.Bits.{Read, times, where_set};
ghost use Rattle.avc_bits.specs.Codes.{flag, se};
ghost use Rattle.avc_bits.specs.Reader.{Reads};
ghost use Rattle.avc_params.specs.Parsing.{optional};

use avc_bits::BitReader;
use avc_types::{Fault, UpTo};

/// A part of the syntax that is read from bits.
pub trait Syntax: Sized {
    ghost syntax: { Read Self };

    fn read(reader: &mut BitReader) -> Result<Self, Fault>
        ensures read { Reads result syntax reader.old reader.new };
}

/// One bit.
impl Syntax for bool {
    ghost syntax = { flag };

    fn read(reader: &mut BitReader) -> Result<bool, Fault> {
        reader.flag()
    }
}

/// The part, where `present`.
pub fn read_where<T: Syntax>(reader: &mut BitReader, present: bool) -> Result<Option<T>, Fault>
    ensures read { Reads result (where_set present T.syntax) reader.old reader.new }
{
    if present {
        Ok(Some(T::read(reader)?))
    } else {
        Ok(None)
    }
}

/// A flag and, where it is 1, the part.
pub fn read_optional<T: Syntax>(reader: &mut BitReader) -> Result<Option<T>, Fault>
    ensures read { Reads result (optional T.syntax) reader.old reader.new }
{
    let present = reader.flag()?;
    read_where(reader, present)
}

/// se(v).
impl Syntax for i32 {
    ghost syntax = { se };

    fn read(reader: &mut BitReader) -> Result<i32, Fault> {
        reader.se()
    }
}

/// The part, `count` times.
pub fn read_times<T: Syntax + Default + Drop, const MAX: usize>(
    reader: &mut BitReader,
    count: u32,
) -> Result<UpTo<T, MAX>, Fault>
    requires { count ≤ MAX }
    ensures read { Reads result (times count T.syntax) reader.old reader.new }
{
    let mut items = UpTo::new();
    for _ in 0..count {
        items.push(T::read(reader)?);
    }
    Ok(items)
}
