//! The end of a picture: it goes to the history, or it is refused and decoding waits.

ghost use Rattle.std.specs.Prelude.{◌≡◌, None, OnOk, Some};
ghost use Rattle.avc_decoder.specs.Events.{failed_at, pictures};
ghost use Rattle.avc_decoder.specs.SpareMemory.{ClosesCurrent, LeavesCurrent, LeavesOpenPicture};
ghost use Rattle.avc_decoder.specs.States.{closed_in, current_in, phase_of, HasOutcome, IsOpenIn};
ghost use Rattle.avc_decoder.specs.States.{IsPhase, WaitsAfter};
ghost use Rattle.avc_decoder.specs.declared.phase.Phase.TheVariants.{Running, Waiting};
ghost use Rattle.avc_decoder_core.specs.Pictures.{held_pictures};
ghost use Rattle.avc_decoder_core.specs.SequenceState.{current_history};

use crate::phase::{CurrentPicture, Phase};
use crate::stream::Stream;
use avc_picture::PictureMemory;
use avc_plane::{PADDING, SharedPlanes};
use avc_types::{Fault, OutOfMemory, PictureError};

/// Closes the open picture, if there is one. At a fault all held pictures go out, and then the
/// refusal.
pub fn close(stream: &mut Stream) -> Result<(), OutOfMemory>
    requires { IsPhase stream.old.sequence stream.old.phase }
    ensures state { OnOk result (HasOutcome stream.old
        (closed_in stream.old.sequence.output (phase_of stream.old.sequence stream.old.phase))
        stream.new) }
    ensures memory { OnOk result
        (ClosesCurrent (current_in stream.old.phase) stream.old.memory stream.new.memory) }
{
    // so that the room for one is not copied and cleared at each end of a picture
    if !stream.phase.is_open() {
        return Ok(());
    }
    let Some(current) = stream.phase.take() else {
        return Ok(());
    };
    close_picture(stream, current)?;
    Ok(())
}

/// Closes this picture, which was the open one.
fn close_picture(stream: &mut Stream, current: CurrentPicture) -> Result<(), OutOfMemory>
    requires picture { IsOpenIn stream.old.sequence current }
    requires rest { stream.old.phase ≡ Running None }
    ensures state { OnOk result (HasOutcome stream.old
        (closed_in stream.old.sequence.output
        (phase_of stream.old.sequence (Running (Some current)))) stream.new) }
    ensures memory { OnOk result
        (ClosesCurrent (Some current) stream.old.memory stream.new.memory) }
{
    let last_unit = current.last_unit;
    let planes = match current.decoder.finish(&mut stream.memory) {
        Ok(planes) => planes,
        Err(fault) => {
            fail(stream, last_unit, fault)?;
            return Ok(());
        }
    };
    let shared = SharedPlanes::new(stream.alloc, planes)?;
    match stream.sequence.close(shared) {
        Ok(out) => {
            stream.queue.show(out)?;
            Ok(())
        }
        Err(PictureError::Fault(fault)) => {
            fail(stream, last_unit, fault)?;
            Ok(())
        }
        Err(PictureError::OutOfMemory(refusal)) => Err(refusal),
    }
}

/// Drops the open picture, and keeps its memory: decoding waits. What is moved takes as much room
/// as a picture: apart from the slices that are decoded, these pay nothing for it.
#[cold]
#[inline(never)]
fn forget(phase: &mut Phase, memory: &mut PictureMemory<PADDING>)
    ensures phase { phase.new ≡ Waiting }
    ensures memory { LeavesCurrent (current_in phase.old) memory.old memory.new }
{
    if let Some(current) = phase.take() {
        current.decoder.discard(memory);
    }
    *phase = Phase::Waiting;
}

/// A fault of the open picture, or of a unit that is a faulty picture of its own: all held pictures
/// go out, and then the refusal. The history is forgotten, and decoding waits.
pub fn fail(stream: &mut Stream, unit: u64, fault: Fault) -> Result<(), OutOfMemory>
    ensures state { OnOk result (WaitsAfter stream.old
        (failed_at stream.old.sequence.output (current_history stream.old.sequence) unit fault
        0).events stream.new) }
    ensures memory { OnOk result (LeavesOpenPicture stream.old stream.new) }
{
    empty(stream)?;
    stream.queue.refuse(unit, fault)?;
    Ok(())
}

/// All held pictures go out. The history is forgotten, with the open picture, if there is one, and
/// decoding waits.
pub fn empty(stream: &mut Stream) -> Result<(), OutOfMemory>
    ensures state { OnOk result (WaitsAfter stream.old
        (pictures (held_pictures stream.old.sequence.output (current_history stream.old.sequence)))
        stream.new) }
    ensures memory { OnOk result (LeavesOpenPicture stream.old stream.new) }
{
    forget(&mut stream.phase, &mut stream.memory);
    let out = stream.sequence.clear()?;
    stream.queue.show(out)?;
    Ok(())
}
