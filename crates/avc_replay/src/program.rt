//! What is told of the macroblock at which a difference may begin.

ghost use Rattle.std.specs.Prelude.{◌≡◌, true, IfOk};
ghost use Rattle.avc_replay.specs.Program.{TellsMacroblock};

use crate::replay::explain_macroblock;
use avc_console::{RunFault, write_text};
use avc_difference::SamplePair;
use avc_macroblocks::run_macroblocks_at;
use avc_selection::AtMacroblock;
use avc_stages::add_explained;
use std::alloc::Global;
use std::io::{Read, Write};

/// Writes the lines of a macroblock and of its neighbours, and what is told of it: how its samples
/// differ, at which stage, where it is predicted from, and how its edges are filtered. These are
/// its samples as they are shown, with the other's, and it is of the picture whose first slice
/// comes with this unit. Both readers read the stream from its beginning. Answers whether it was
/// told: it is not where there are no samples, or the macroblock does not come.
pub fn tell_macroblock<L: Read, R: Read, W: Write>(
    alloc: Global,
    unit: u64,
    pairs: &[SamplePair],
    lines: &mut L,
    stream: &mut R,
    writer: &mut W,
) -> Result<bool, RunFault>
    ensures { IfOk result (λ told. told ≡ true →
        TellsMacroblock unit pairs.now (L.remaining lines.old) (L.remaining lines.new)
        (R.remaining stream.old) (R.remaining stream.new) (W.contents writer.old)
        (W.contents writer.new)) }
{
    let [first, ..] = pairs else {
        return Ok(false);
    };
    let Ok(address) = u32::try_from(first.place.address) else {
        return Ok(false);
    };
    let macroblock = AtMacroblock { unit, address };
    let Some(at) = run_macroblocks_at(alloc, macroblock, lines, writer)? else {
        return Ok(false);
    };
    // no run is so long
    if at.run == Some(u32::MAX) {
        return Ok(false);
    }
    let Some(explained) = explain_macroblock(alloc, at, address as usize, pairs, stream)? else {
        return Ok(false);
    };
    let mut text = String::new(alloc);
    add_explained(&mut text, &explained)?;
    write_text(&text, writer)?;
    Ok(true)
}
