//! The command `decode`.

ghost use Rattle.avc_formats.specs.Formats.{plain};
ghost use Rattle.avc_run.specs.Program.{EndsDecodingAs};

use crate::decoding::run_watched;
use crate::reporting::Reporting;
use avc_console::{Console, Ending, Tally, Watch, tell};
use avc_decoder::Output;
use avc_formats::{I420, PictureFormat};
use std::alloc::Global;
use std::io::{Read, Write};

/// The command `decode`: writes the pictures of a byte stream (Annex B) as I420, and tells on the
/// console of each refusal when it comes, and of the fault that ended the run. Where that takes
/// nothing, the status alone tells.
pub fn decode<R: Read, W: Write, E: Write, V: Watch>(
    alloc: Global,
    output: Output,
    reader: &mut R,
    writer: &mut W,
    console: &mut Console<'_, E, V>,
) -> Ending
    ensures { EndsDecodingAs console.old.names console.old.is_explained
        plain output (R.remaining reader.old) (R.remaining reader.new)
        (W.contents writer.old) (W.contents writer.new) (E.contents console.old.errors)
        (E.contents console.new.errors) result }
{
    decode_as(alloc, output, &I420, reader, writer, console)
}

/// The command `decode` in a format: writes the pictures of a byte stream (Annex B), and tells on
/// the console of each refusal when it comes, and of the fault that ended the run. Where that takes
/// nothing, the status alone tells.
pub fn decode_as<F: PictureFormat, R: Read, W: Write, E: Write, V: Watch>(
    alloc: Global,
    output: Output,
    format: &F,
    reader: &mut R,
    writer: &mut W,
    console: &mut Console<'_, E, V>,
) -> Ending
    ensures { EndsDecodingAs console.old.names console.old.is_explained
        (F.format format.now) output (R.remaining reader.old) (R.remaining reader.new)
        (W.contents writer.old) (W.contents writer.new) (E.contents console.old.errors)
        (E.contents console.new.errors) result }
{
    let mut tally = Tally::new(console.is_explained);
    let mut reporting = Reporting {
        report: &mut tally,
        errors: &mut console.errors,
        watch: &mut console.watch,
    };
    let run = run_watched(alloc, output, format, &mut reporting, reader, writer);
    tell(run, &tally, &console.names, &mut console.errors)
}
