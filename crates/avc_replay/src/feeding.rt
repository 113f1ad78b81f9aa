//! The units of a stream, fed to a decoder as they are written.

ghost use Rattle.std.specs.Prelude.{◌≡◌, ◌∷◌, ◌++◌, [], false, IfErr, IfOk, OnOk};
ghost use Rattle.avc_annexb.specs.Written.{start_code, written};
ghost use Rattle.avc_console.specs.declared.fault.RunFault.TheVariants as faults;
ghost use Rattle.avc_replay.specs.Replaying.{body_of, IsFedMore, IsFedTaken, Meets};

use avc_annexb::{Splitter, Unit};
use avc_console::{MAX_UNIT, READS, RunFault};
use avc_decoder::Decoder;
use avc_events::next_event;
use avc_plane::SharedPicture;
use avc_types::Bytes;

/// zero_byte and start_code_prefix_one_3bytes (B.1.1).
pub(crate) const START_CODE: [u8; 4] = [0, 0, 0, 1];

/// Feeds the units that wait up to the one of this number, and answers that, if it waits.
pub(crate) fn feed_before(
    decoder: &mut Decoder<MAX_UNIT, SharedPicture>,
    splitter: &mut Splitter<MAX_UNIT>,
    number: u64,
) -> Result<Option<Unit>, RunFault>
    requires { IsFedTaken splitter.old decoder.old }
    ensures meets { IfOk result (λ unit. Meets number splitter.new unit decoder.new) }
    ensures bytes { OnOk result (splitter.new.bytes ≡ splitter.old.bytes) }
    ensures ended { OnOk result (splitter.new.ended ≡ splitter.old.ended) }
{
    while let Some(unit) = splitter.next_unit() {
        if unit.index == number {
            return Ok(Some(unit));
        }
        feed_written(decoder, &unit)?;
    }
    Ok(None)
}

// Feeds a unit behind a start code.
fn feed_written(decoder: &mut Decoder<MAX_UNIT, SharedPicture>, unit: &Unit) -> Result<(), RunFault>
    ensures { OnOk result (IsFedMore decoder.old (written unit.now) decoder.new) }
{
    feed(decoder, &START_CODE)?;
    feed(decoder, &[unit.header])?;
    feed_body(decoder, &unit.body)?;
    drop_events(decoder)
}

// Feeds the bytes of a unit behind the first, where it is not too long.
fn feed_body(
    decoder: &mut Decoder<MAX_UNIT, SharedPicture>,
    body: &Option<Bytes>,
) -> Result<(), RunFault>
    ensures { OnOk result (IsFedMore decoder.old (body_of body.now) decoder.new) }
{
    match body {
        Some(body) => feed(decoder, body.as_slice()),
        None => Ok(()),
    }
}

/// Feeds bytes.
pub(crate) fn feed(
    decoder: &mut Decoder<MAX_UNIT, SharedPicture>,
    bytes: &[u8],
) -> Result<(), RunFault>
    ensures { OnOk result (IsFedMore decoder.old bytes.now decoder.new) }
{
    match decoder.feed(bytes) {
        Ok(()) => Ok(()),
        Err(_) => Err(RunFault::Memory),
    }
}

// Takes all events that wait, and drops them.
fn drop_events(decoder: &mut Decoder<MAX_UNIT, SharedPicture>) -> Result<(), RunFault>
    ensures { OnOk result (IsFedMore decoder.old [] decoder.new) }
{
    'events: for _event in 0..READS {
        if next_event(decoder)?.is_none() {
            return Ok(());
        }
    }
    Err(RunFault::Endless)
}
