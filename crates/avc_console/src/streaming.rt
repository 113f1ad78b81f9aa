//! A text of a stream, written as the stream is read.

ghost use Rattle.std.specs.Prelude.{◌≡◌, ◌^◌, ◌<◌, ◌++◌, [], false, length, Err, IfErr, OnOk};
ghost use Rattle.avc_tools.specs.Streams.{after_end, after_piece, new_stream};
ghost use Rattle.avc_console.specs.Listing.{Lists};
ghost use Rattle.avc_console.specs.StreamWriting.{AreWrittenBut, IsStopped, IsStoppedBehind};
ghost use Rattle.avc_console.specs.StreamWriting.{IsTakenIn};
ghost use Rattle.avc_console.specs.StreamWriting.{IsWhole, IsWrittenOn, StopsWriting};

use crate::fault::RunFault;
use crate::messages::write_all;
use crate::parts::part_end;
use crate::read::{PIECE, READS, read_once, zeros};
use avc_tools::StreamText;
use std::alloc::Global;
use std::io::{Read, Write};

// So many bytes of the text wait at most, to be written with others that come to it by the same
// read.
const MAX_WAITING: usize = 65_536;

/// Reads a byte stream (Annex B) to its end, or until a text of it is over, and writes the text,
/// each part as soon as the bytes that were read decide it. Of the stream nothing has come to the
/// text yet.
pub fn write_stream<T: StreamText, R: Read, W: Write>(
    alloc: Global,
    text: &mut T,
    reader: &mut R,
    writer: &mut W,
) -> Result<(), RunFault>
    requires fresh { T.so_far text.old ≡ new_stream }
    requires nothing { T.text (T.number text.old) [] false ≡ [] }
    ensures number { OnOk result (T.number text.new ≡ T.number text.old) }
    ensures ok { OnOk result
        (IsWhole (T.text (T.number text.old)) (T.over (T.number text.old)) (T.so_far text.new)
        (R.remaining reader.old) (R.remaining reader.new) (W.contents writer.old)
        (W.contents writer.new)) }
    ensures err { IfErr result (λ fault. Lists (T.text (T.number text.old)) (R.remaining reader.old)
        (R.remaining reader.new)
        (W.contents writer.old) (W.contents writer.new) (Err fault)) }
{
    let mut piece = zeros(alloc, PIECE)?;
    let mut waiting = Vec::with_capacity(alloc, MAX_WAITING)?;
    'pieces: for reads in 0..READS {
        if text.is_over() {
            return Ok(());
        }
        let len = read_once(reader, &mut piece)?;
        if len == 0 {
            finish(text, writer)?;
            return Ok(());
        }
        take_in(text, &piece[..len], &mut waiting, writer)?;
    }
    Err(RunFault::Endless)
}

// The next bytes of the stream, and what comes to the text by them. They are taken in part by part,
// in each of which one unit ends at most, so that what comes by one stands in memory, and what
// waits.
fn take_in<T: StreamText, W: Write>(
    text: &mut T,
    piece: &[u8],
    waiting: &mut Vec<u8>,
    writer: &mut W,
) -> Result<(), RunFault>
    requires open_end { (T.so_far text.old).ended ≡ false }
    requires short { length ((T.so_far text.old).bytes ++ piece.now) < 2 ^ 64 }
    requires none { waiting.old.items ≡ [] }
    ensures so_far { OnOk result (T.so_far text.new ≡ after_piece (T.so_far text.old) piece.now) }
    ensures number { OnOk result (T.number text.new ≡ T.number text.old) }
    ensures none { OnOk result (waiting.new.items ≡ []) }
    ensures ok { OnOk result (IsWrittenOn (T.text (T.number text.old)) (T.so_far text.old)
        (after_piece (T.so_far text.old) piece.now)
        (W.contents writer.old) (W.contents writer.new)) }
    ensures err { IfErr result
        (λ fault. IsStopped fault (T.text (T.number text.old)) (T.so_far text.old)
        (after_piece (T.so_far text.old) piece.now)
        (W.contents writer.old) (W.contents writer.new)) }
{
    text.text_only_grows();
    let mut begin = 0;
    'parts: while begin < piece.len() {
        let behind = part_end(piece, begin);
        take_part(text, &piece[begin..behind], waiting, writer)?;
        begin = behind;
    }
    write_all(waiting, writer)?;
    waiting.clear();
    Ok(())
}

// A part of these bytes, and what comes to the text by it, behind what waits.
fn take_part<T: StreamText, W: Write>(
    text: &mut T,
    part: &[u8],
    waiting: &mut Vec<u8>,
    writer: &mut W,
) -> Result<(), RunFault>
    requires open_end { (T.so_far text.old).ended ≡ false }
    requires short { length ((T.so_far text.old).bytes ++ part.now) < 2 ^ 64 }
    ensures so_far { OnOk result (T.so_far text.new ≡ after_piece (T.so_far text.old) part.now) }
    ensures number { OnOk result (T.number text.new ≡ T.number text.old) }
    ensures ok { OnOk result
        (IsTakenIn (T.text (T.number text.old)) (T.so_far text.old)
        (after_piece (T.so_far text.old) part.now)
        waiting.old.items waiting.new.items (W.contents writer.old) (W.contents writer.new)) }
    ensures err { IfErr result
        (λ fault. IsStoppedBehind fault (T.text (T.number text.old)) (T.so_far text.old)
        (after_piece (T.so_far text.old) part.now) waiting.old.items (W.contents writer.old)
        (W.contents writer.new)) }
{
    text.text_only_grows();
    let added = text.feed(part)?;
    write_or_keep(waiting, added.as_slice(), writer)?;
    Ok(())
}

// Lets these bytes wait behind those that do, which are written first where there is no room for
// both.
fn write_or_keep<W: Write>(
    waiting: &mut Vec<u8>,
    added: &[u8],
    writer: &mut W,
) -> Result<(), RunFault>
    ensures ok { OnOk result (AreWrittenBut (waiting.old.items ++ added.now) waiting.new.items
        (W.contents writer.old) (W.contents writer.new)) }
    ensures err { IfErr result
        (λ fault. StopsWriting fault (W.contents writer.old) (W.contents writer.new)
        (waiting.old.items ++ added.now)) }
{
    if waiting.len().saturating_add(added.len()) <= MAX_WAITING {
        waiting.extend_from_slice(added)?;
        return Ok(());
    }
    write_all(waiting, writer)?;
    waiting.clear();
    if added.len() <= MAX_WAITING {
        waiting.extend_from_slice(added)?;
        return Ok(());
    }
    write_all(added, writer)?;
    Ok(())
}

// The end of the stream, and what comes to the text by it.
fn finish<T: StreamText, W: Write>(text: &mut T, writer: &mut W) -> Result<(), RunFault>
    requires open_end { (T.so_far text.old).ended ≡ false }
    requires short { length (T.so_far text.old).bytes < 2 ^ 64 }
    ensures so_far { OnOk result (T.so_far text.new ≡ after_end (T.so_far text.old)) }
    ensures number { OnOk result (T.number text.new ≡ T.number text.old) }
    ensures ok { OnOk result (IsWrittenOn (T.text (T.number text.old)) (T.so_far text.old)
        (after_end (T.so_far text.old))
        (W.contents writer.old) (W.contents writer.new)) }
    ensures err { IfErr result
        (λ fault. IsStopped fault (T.text (T.number text.old)) (T.so_far text.old)
        (after_end (T.so_far text.old))
        (W.contents writer.old) (W.contents writer.new)) }
{
    text.text_only_grows();
    let added = text.finish()?;
    write_all(added.as_slice(), writer)?;
    Ok(())
}
