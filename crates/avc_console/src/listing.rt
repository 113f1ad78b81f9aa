//! Lines of units, headers and cut points of a stream, written.

ghost use Rattle.avc_tools.specs.CutPoints.{cut_point_lines_so_far};
ghost use Rattle.avc_tools.specs.Lines.{header_lines_so_far, unit_lines_so_far};
ghost use Rattle.avc_console.specs.Listing.{Lists};

use crate::fault::RunFault;
use crate::streaming::write_stream;
use avc_tools::{CutPointLines, HeaderLines, ListingForm, UnitLines};
use std::alloc::Global;
use std::io::{Read, Write};

/// Writes a line of a form for each unit of a byte stream (Annex B), as soon as the unit's end has
/// been read.
pub fn run_units<F: ListingForm + Drop, R: Read, W: Write>(
    alloc: Global,
    form: F,
    reader: &mut R,
    writer: &mut W,
) -> Result<(), RunFault>
    ensures { Lists (unit_lines_so_far F.of_unit) (R.remaining reader.old) (R.remaining reader.new)
        (W.contents writer.old) (W.contents writer.new) result }
{
    let mut lines = UnitLines::new(alloc, form);
    write_stream(alloc, &mut lines, reader, writer)
}

/// Writes a line of a form for each parameter set and slice of a byte stream (Annex B), as soon as
/// the end of its unit has been read.
pub fn run_headers<F: ListingForm + Drop, R: Read, W: Write>(
    alloc: Global,
    form: F,
    reader: &mut R,
    writer: &mut W,
) -> Result<(), RunFault>
    ensures { Lists (header_lines_so_far F.of_header) (R.remaining reader.old)
        (R.remaining reader.new)
        (W.contents writer.old) (W.contents writer.new) result }
{
    let mut lines = HeaderLines::new(alloc, form);
    write_stream(alloc, &mut lines, reader, writer)
}

/// Writes a line of a form for each piece of a byte stream (Annex B), as soon as the end of the
/// unit has been read with which the next one begins, or the stream's.
pub fn run_pieces<F: ListingForm + Drop, R: Read, W: Write>(
    alloc: Global,
    form: F,
    reader: &mut R,
    writer: &mut W,
) -> Result<(), RunFault>
    ensures { Lists (cut_point_lines_so_far F.of_piece) (R.remaining reader.old)
        (R.remaining reader.new)
        (W.contents writer.old) (W.contents writer.new) result }
{
    let mut lines = CutPointLines::new(alloc, form);
    write_stream(alloc, &mut lines, reader, writer)
}
