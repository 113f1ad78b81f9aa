//! The events of a stream, one by one.

ghost use Rattle.std.specs.Prelude.{◌≡◌, ◌<◌, [], false, true, length, None, IfErr, IfOk, OnErr};
ghost use Rattle.std.specs.Prelude.{OnOk};
ghost use Rattle.std.specs.Io.KnownBytes.{Keeps};
ghost use Rattle.avc_console.specs.Reading.{max_unit};
ghost use Rattle.avc_console.specs.declared.fault.RunFault.TheVariants as faults;
ghost use Rattle.avc_decoder.specs.Machine.{next_event};
ghost use Rattle.avc_compare.specs.Reading.{BreaksReading, Fills, IsWholeIfAny, ReadsOn, TakesNext};

use crate::ahead::Ahead;
use avc_console::{MAX_UNIT, PIECE, READS, RunFault};
use avc_decoder::laws::{events_only_grow, pictures_are_whole};
use avc_decoder::{Decoder, Event};
use avc_events::{feed_unit, flush, next_event};
use avc_plane::SharedPicture;
use std::io::Read;

/// A stream that is decoded event by event: its decoder, and the bytes that were read and not yet
/// fed.
#[derive(Drop)]
pub(crate) struct Stream {
    pub(crate) decoder: Decoder<MAX_UNIT, SharedPicture>,
    pub(crate) ahead: Ahead,
}

/// Takes the next event of a stream. It reads and feeds only what that needs, a unit at a time, so
/// that few pictures wait.
pub(crate) fn next_of<R: Read>(
    decoder: &mut Decoder<MAX_UNIT, SharedPicture>,
    ahead: &mut Ahead,
    reader: &mut R,
) -> Result<Option<Event<SharedPicture>>, RunFault>
    ensures ok { IfOk result (λ event. TakesNext (R.remaining reader.old) (R.remaining reader.new)
        decoder.old decoder.new ahead.old ahead.new event) }
    ensures err { IfErr result (λ fault. BreaksReading (R.remaining reader.old)
        (R.remaining reader.new) decoder.old ahead.old fault) }
    ensures whole { IfOk result (λ event. IsWholeIfAny event) }
{
    events_only_grow();
    pictures_are_whole();
    'steps: for _step in 0..READS {
        if let Some(event) = next_event(decoder)? {
            return Ok(Some(event));
        }
        if ahead.has_ended() {
            return Ok(None);
        }
        if !go_on(decoder, ahead, reader)? {
            return next_event(decoder);
        }
    }
    Err(RunFault::Endless)
}

// Feeds the next unit, or ends the stream where there is none. Answers whether it fed something.
fn go_on<R: Read>(
    decoder: &mut Decoder<MAX_UNIT, SharedPicture>,
    ahead: &mut Ahead,
    reader: &mut R,
) -> Result<bool, RunFault>
    requires open_end { ahead.old.ended ≡ false }
    requires none { next_event max_unit decoder.old ≡ None }
    ensures ok { OnOk result (ReadsOn (R.remaining reader.old) (R.remaining reader.new) decoder.old
        decoder.new ahead.old ahead.new) }
    ensures fed { IfOk result
        (λ fed. fed ≡ true → length decoder.old.bytes < length decoder.new.bytes) }
    ensures ended { IfOk result (λ fed. fed ≡ false → ahead.new.ended ≡ true) }
    ensures err { IfErr result (λ fault. BreaksReading (R.remaining reader.old)
        (R.remaining reader.new) decoder.old ahead.old fault) }
{
    events_only_grow();
    fill(ahead, reader)?;
    if ahead.as_slice().is_empty() {
        flush(decoder)?;
        ahead.end();
        return Ok(false);
    }
    let used = feed_unit(decoder, ahead.as_slice())?;
    ahead.drop_first(used);
    Ok(true)
}

// Reads on where no byte waits.
fn fill<R: Read>(ahead: &mut Ahead, reader: &mut R) -> Result<(), RunFault>
    ensures ok { OnOk result
        (Fills (R.remaining reader.old) (R.remaining reader.new) ahead.old ahead.new) }
    ensures fault { IfErr result (λ fault. fault ≡ faults.Read) }
    ensures err { OnErr result (Keeps (R.remaining reader.old) (R.remaining reader.new)) }
    ensures none { OnErr result (ahead.old.bytes ≡ []) }
{
    if ahead.as_slice().is_empty() {
        ahead.read_on(PIECE as u128, reader)?;
    }
    Ok(())
}
