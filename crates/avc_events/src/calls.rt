//! The decoder's calls, with the faults of a run. It feeds nothing after the end, so that want of
//! memory is their only error.

ghost use Rattle.std.specs.Prelude.{◌≡◌, take, IfErr, IfOk, OnOk};
ghost use Rattle.avc_console.specs.Reading.{max_unit};
ghost use Rattle.avc_console.specs.declared.fault.RunFault.TheVariants as faults;
ghost use Rattle.avc_decoder.specs.Machine.{after_feed, after_flush, after_take, next_event};
ghost use Rattle.avc_decoder.specs.Machine.{IsUpToUnit};

use avc_console::{MAX_UNIT, RunFault};
use avc_decoder::{Decoder, Event};
use avc_plane::SharedPicture;

/// Feeds bytes up to where a unit has ended. Answers how many they are.
pub fn feed_unit(
    decoder: &mut Decoder<MAX_UNIT, SharedPicture>,
    bytes: &[u8],
) -> Result<usize, RunFault>
    ensures unit { IfOk result (λ used. IsUpToUnit max_unit decoder.old.bytes bytes.now used) }
    ensures ok { IfOk result (λ used. decoder.new ≡ after_feed (take used bytes.now) decoder.old) }
    ensures err { IfErr result (λ fault. fault ≡ faults.Memory) }
{
    match decoder.feed_unit(bytes) {
        Ok(used) => Ok(used),
        Err(_) => Err(RunFault::Memory),
    }
}

/// Ends the stream.
pub fn flush(decoder: &mut Decoder<MAX_UNIT, SharedPicture>) -> Result<(), RunFault>
    ensures ok { OnOk result (decoder.new ≡ after_flush decoder.old) }
    ensures err { IfErr result (λ fault. fault ≡ faults.Memory) }
{
    match decoder.flush() {
        Ok(()) => Ok(()),
        Err(_) => Err(RunFault::Memory),
    }
}

/// Takes the next event, where one waits.
pub fn next_event(
    decoder: &mut Decoder<MAX_UNIT, SharedPicture>,
) -> Result<Option<Event<SharedPicture>>, RunFault>
    ensures event { IfOk result (λ event. event ≡ next_event max_unit decoder.old) }
    ensures taken { IfOk result (λ event. decoder.new ≡ after_take event decoder.old) }
    ensures err { IfErr result (λ fault. fault ≡ faults.Memory) }
{
    match decoder.take() {
        Ok(event) => Ok(event),
        Err(_) => Err(RunFault::Memory),
    }
}
