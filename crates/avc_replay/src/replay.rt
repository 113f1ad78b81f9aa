//! Decoding a stream again up to a macroblock.

ghost use Rattle.std.specs.Prelude.{◌≡◌, ◌<◌, ◌≤◌, ◌^◌, ◌-◌, ◌++◌, true, false, length, IfOk};
ghost use Rattle.std.specs.Prelude.{IfSome, OnOk, Some};
ghost use Rattle.std.specs.Io.KnownBytes.{Consumes, IsAtEnd};
ghost use Rattle.avc_console.specs.Reading.{max_unit};
ghost use Rattle.avc_replay.specs.Replaying.{IsCutFrom, IsExplainedBy, IsFedMore, ReadsOn};
ghost use Rattle.avc_replay.specs.Replaying.{CutsUnit};

use crate::cut::cut_unit;
use crate::feeding::{START_CODE, feed, feed_before};
use crate::tracing::explain;
use avc_annexb::laws::units_stay;
use avc_annexb::{Splitter, Unit};
use avc_console::{MAX_UNIT, PIECE, READS, RunFault, read_once};
use avc_decoder::{Decoder, Output};
use avc_difference::SamplePair;
use avc_plane::SharedPicture;
use avc_reading::MacroblockPosition;
use avc_stages::Explained;
use std::alloc::Global;
use std::io::Read;

/// What is told of the macroblock with this address, which stands there in a stream: the stream is
/// decoded again up to it, so that its samples are those before deblocking. These are its samples
/// as they are shown, with the other's. Answers None where the macroblock does not come, or the
/// open picture has not all that is told.
pub fn explain_macroblock<R: Read>(
    alloc: Global,
    at: MacroblockPosition,
    address: usize,
    pairs: &[SamplePair],
    reader: &mut R,
) -> Result<Option<Explained>, RunFault>
    requires run { IfSome at.run (λ n. n < 2 ^ 32 - 1) }
    requires small { address < 2 ^ 32 }
    ensures { IfOk result
        (λ explained.
        IfSome explained (λ e. IsExplainedBy at address pairs.now (R.remaining reader.old)
        (R.remaining reader.new) e)) }
{
    let Some(decoder) = decode_up_to(alloc, at, reader)? else {
        return Ok(None);
    };
    let Some(open) = decoder.open_picture() else {
        return Ok(None);
    };
    Ok(explain(alloc, open.decoder, open.frames, address, pairs)?)
}

// A decoder of the stream up to a macroblock, behind which its slice ends.
fn decode_up_to<R: Read>(
    alloc: Global,
    at: MacroblockPosition,
    reader: &mut R,
) -> Result<Option<Decoder<MAX_UNIT, SharedPicture>>, RunFault>
    requires { IfSome at.run (λ n. n < 2 ^ 32 - 1) }
    ensures { IfOk result
        (λ decoder. IfSome decoder
        (λ d. IsCutFrom at (R.remaining reader.old) (R.remaining reader.new) d)) }
{
    units_stay();
    let mut decoder = Decoder::<MAX_UNIT, SharedPicture>::sharing(alloc, Output::Full);
    let mut splitter = Splitter::<MAX_UNIT>::new(alloc);
    let mut piece = vec![in alloc; 0; PIECE]?;
    let mut has_ended = false;
    'reads: for _read in 0..READS {
        if let Some(unit) = feed_before(&mut decoder, &mut splitter, at.unit)? {
            if feed_cut(alloc, &mut decoder, at, &unit)? {
                return Ok(Some(decoder));
            }
            return Ok(None);
        }
        if has_ended {
            return Ok(None);
        }
        has_ended = read_on(&mut splitter, &mut piece, reader)?;
    }
    Err(RunFault::Endless)
}

// Reads on, and answers whether the stream has ended.
fn read_on<R: Read>(
    splitter: &mut Splitter<MAX_UNIT>,
    piece: &mut [u8],
    reader: &mut R,
) -> Result<bool, RunFault>
    requires going { splitter.old.failed ≡ false }
    requires open_end { splitter.old.ended ≡ false }
    requires room { 0 < length piece.old }
    ensures read { IfOk result (λ ended. ReadsOn (R.remaining reader.old) (R.remaining reader.new)
        splitter.old ended splitter.new) }
    ensures length { length piece.new ≡ length piece.old }
{
    let len = read_once(reader, piece)?;
    if len == 0 {
        splitter.finish()?;
        return Ok(true);
    }
    splitter.feed(&piece[..len])?;
    Ok(false)
}

// Feeds a unit that is cut behind a macroblock, and the start of another. Answers false where the
// unit is too long.
fn feed_cut(
    alloc: Global,
    decoder: &mut Decoder<MAX_UNIT, SharedPicture>,
    at: MacroblockPosition,
    unit: &Unit,
) -> Result<bool, RunFault>
    requires { IfSome at.run (λ n. n < 2 ^ 32 - 1) }
    ensures { IfOk result (λ fed. fed ≡ true → CutsUnit at unit.now decoder.old decoder.new) }
{
    let Some(body) = &unit.body else {
        return Ok(false);
    };
    let cut = cut_unit(alloc, unit.header, body.as_slice(), at.kept_bits, at.run)?;
    feed(decoder, &START_CODE)?;
    feed(decoder, &cut)?;
    feed(decoder, &START_CODE[1..])?;
    Ok(true)
}
