//! The command `info`.

ghost use Rattle.avc_console.specs.Listing.{Lists};
ghost use Rattle.avc_console.specs.Program.{EndsListing};
ghost use Rattle.avc_info.specs.Info.{info_so_far};

use crate::form::InfoForm;
use crate::info_lines::InfoLines;
use avc_console::{Console, Ending, RunFault, end_listing, write_stream};
use std::alloc::Global;
use std::io::{Read, Write};

/// The command `info`: reads a byte stream (Annex B) to its end, writes what its parameter sets and
/// slice headers say of it, in this form, and tells of a fault on the console. No picture is
/// decoded.
pub fn info<F: InfoForm + Drop, R: Read, W: Write, E: Write, V>(
    alloc: Global,
    form: F,
    reader: &mut R,
    writer: &mut W,
    console: &mut Console<'_, E, V>,
) -> Ending
    ensures { EndsListing console.old.names (info_so_far F.text) (R.remaining reader.old)
        (R.remaining reader.new) (W.contents writer.old) (W.contents writer.new)
        (E.contents console.old.errors) (E.contents console.new.errors) result }
{
    let run = run_info(alloc, form, reader, writer);
    end_listing(run, &console.names, &mut console.errors)
}

/// Reads a byte stream (Annex B) to its end and writes what its parameter sets and slice headers
/// say of it, in this form.
pub fn run_info<F: InfoForm + Drop, R: Read, W: Write>(
    alloc: Global,
    form: F,
    reader: &mut R,
    writer: &mut W,
) -> Result<(), RunFault>
    ensures { Lists (info_so_far F.text) (R.remaining reader.old) (R.remaining reader.new)
        (W.contents writer.old) (W.contents writer.new) result }
{
    let mut lines = InfoLines::new(alloc, form);
    write_stream(alloc, &mut lines, reader, writer)?;
    Ok(())
}
