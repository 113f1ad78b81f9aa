//! Lists of the syntax that a code ends.

ghost use Rattle.std.specs.Prelude.{◌≡◌, ◌≤◌, ◌^◌, ℕ};
ghost use Rattle.avc_bits.specs.Bits.{Read};
ghost use Rattle.avc_bits.specs.Codes.{ue_to};
ghost use Rattle.avc_bits.specs.Reader.{Reads};
ghost use Rattle.avc_slice.specs.Reading.{up_to};

use avc_bits::BitReader;
use avc_types::{Fault, UpTo};

/// What stands behind its code in a list that a code ends.
pub(crate) trait Coded: Sized {
    // By the most that its number may be, where that is limited, and by the code.
    ghost item: { ℕ → ℕ → Read Self };

    fn read_item(reader: &mut BitReader, most: u32, code: u32) -> Result<Self, Fault>
        ensures read { Reads result (item most code) reader.old reader.new };
}

/// The code that ends a list, the greatest code that may stand in it, and the fault of one that is
/// too long.
#[derive(Clone, Copy)]
pub(crate) struct Ending {
    pub top: u32,
    pub stop: u32,
    pub fault: Fault,
}

/// A list of at most `room` items.
pub(crate) fn read_up_to<T: Coded + Default + Drop, const MAX: usize>(
    reader: &mut BitReader,
    ending: Ending,
    most: u32,
    room: u32,
) -> Result<UpTo<T, MAX>, Fault>
    requires { room ≤ MAX }
    ensures { Reads result (up_to (ue_to ending.top) ending.stop (T.item most) ending.fault room)
        reader.old reader.new }
{
    let mut items = UpTo::new();
    for _ in 0..room {
        let code = reader.ue_to(ending.top)?;
        if code == ending.stop {
            return Ok(items);
        }
        items.push(T::read_item(reader, most, code)?);
    }
    let code = reader.ue_to(ending.top)?;
    if code == ending.stop {
        Ok(items)
    } else {
        Err(ending.fault)
    }
}
