//! The lines that explain refusals, and count what came and what was lost.

ghost use Rattle.std.specs.Prelude.{◌≡◌, length};
ghost use Rattle.avc_explain.specs.Explanations.{counts_line, explained_line, waits_line};

use crate::meaning::meaning_of;
use arrayvec::ArrayString;
use avc_types::Fault;
use itoa::Buffer;

/// The line that says what a refusal means: the place of a unit among the stream's units, from 0,
/// its fault, and when that is there. It asks for no memory.
pub fn explained_line(unit: u64, fault: Fault) -> ArrayString<256>
    ensures { result.bytes ≡ explained_line (unit, fault) }
{
    let mut digits = Buffer::new();
    let mut line = ArrayString::new();
    line.push_str("unit ");
    line.push_str(digits.format(unit));
    line.push_str(": ");
    line.push_str(digits.format(fault.number()));
    line.push_str(" ");
    line.push_str(fault.name());
    line.push_str(": ");
    line.push_str(meaning_of(fault));
    line.push_str("\n");
    line
}

/// The line that says that decoding waits, behind the refusal of the unit at this place with its
/// picture. It asks for no memory.
pub fn waits_line(unit: u64) -> ArrayString<64>
    ensures { result.bytes ≡ waits_line unit }
{
    let mut digits = Buffer::new();
    let mut line = ArrayString::new();
    line.push_str("waits for an IDR picture from unit ");
    line.push_str(digits.format(unit));
    line.push_str(" on\n");
    line
}

/// The line that says how many pictures went out, how many refusals there were, and how many slices
/// were passed over while decoding waited, where that is known. It asks for no memory.
pub fn counts_line(pictures: u64, refused: u64, passed: Option<u64>) -> ArrayString<128>
    ensures { result.bytes ≡ counts_line pictures refused passed }
{
    let mut digits = Buffer::new();
    let mut line = ArrayString::new();
    line.push_str(digits.format(pictures));
    line.push_str(" pictures, ");
    line.push_str(digits.format(refused));
    match passed {
        Some(passed) => {
            line.push_str(" refusals, ");
            line.push_str(digits.format(passed));
            line.push_str(" slices passed over\n");
            line
        }
        None => {
            line.push_str(" refusals\n");
            line
        }
    }
}
