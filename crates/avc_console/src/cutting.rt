//! One piece of a stream, written.

ghost use Rattle.avc_console.specs.Listing.{Cuts};

use crate::fault::RunFault;
use crate::streaming::write_stream;
use avc_tools::PieceText;
use avc_tools::laws::pieces_come_whole;
use std::alloc::Global;
use std::io::{Read, Write};

/// Writes the piece of this number, counted from 0, of a byte stream (Annex B), each part as soon
/// as it belongs to the piece whatever follows, and answers whether there is such a piece. Once the
/// next piece has begun no more is read.
pub fn run_cut<R: Read, W: Write>(
    alloc: Global,
    number: u32,
    reader: &mut R,
    writer: &mut W,
) -> Result<bool, RunFault>
    ensures { Cuts number (R.remaining reader.old) (R.remaining reader.new) (W.contents writer.old)
        (W.contents writer.new) result }
{
    pieces_come_whole();
    let mut piece = PieceText::new(alloc, number)?;
    write_stream(alloc, &mut piece, reader, writer)?;
    Ok(piece.has_begun())
}
