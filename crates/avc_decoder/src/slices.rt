//! The slices of the open picture, and the first of a new one.

ghost use Rattle.std.specs.Prelude.{◌≡◌, false, None, IfSome, OnOk, Some};
ghost use Rattle.avc_decoder.specs.Events.{after_first_slice, after_next_slice, base_in};
ghost use Rattle.avc_decoder.specs.Events.{sets_named};
ghost use Rattle.avc_decoder.specs.SpareMemory.{AddsClosed, KeepsMemory, UsesOneForFirst};
ghost use Rattle.avc_decoder.specs.PictureFrames.{frames_for, CanHave};
ghost use Rattle.avc_decoder.specs.States.{current_in, more_read, phase_of};
ghost use Rattle.avc_decoder.specs.States.{DecodesIn, HasAnswered, HasOutcome, IsAnswerIn, IsPhase};
ghost use Rattle.avc_decoder.specs.States.{IsStream};
ghost use Rattle.avc_decoder_core.specs.SequenceState.{current_history, AreFramesIn, AreStoredIn};
ghost use Rattle.avc_params.specs.Tables.{sets_after};
ghost use Rattle.avc_params.specs.Within.{IsPps, IsSps};
ghost use Rattle.avc_slice.specs.Begins.{begins};
ghost use Rattle.avc_slice.specs.Header.{is_idr};
ghost use Rattle.avc_picture.specs.Decoding.{HasNoFault};
ghost use Rattle.avc_slice.specs.Within.{IsHeader};
ghost use Rattle.avc_units.specs.GrouperState.{IsSliceUnder};

use crate::close::fail;
use crate::phase::{CurrentPicture, Phase};
use crate::stream::Stream;
use avc_decoder_core::Sequence;
use avc_decoder_core::laws::missing_numbers_keep_the_order;
use avc_params::{ParamTable, Pps, Sps};
use avc_picture::{PictureDecoder, PictureMemory};
use avc_plane::{Frame, PADDING};
use avc_slice::{Header, Slice};
use avc_types::{Fault, OutOfMemory, PictureError};
use avc_units::LastHeader;

/// The parameter sets that a picture's slices name (7.4.1.2.1).
#[derive(Clone, Copy)]
pub struct ActiveSets<'a> {
    pub sps: &'a Sps,
    pub pps: &'a Pps,
}

/// So many frames can have left the buffer since a picture began: those that were stored, and the
/// picture itself.
const MOST_EMPTIED: usize = 17;

/// What a slice is answered by its picture, and how many of its macroblocks were read, a faulty one
/// included.
#[derive(Clone, Copy)]
pub struct SliceAnswer {
    pub answer: Result<(), Fault>,
    pub read: u32,
}

/// Opens a picture under the parameter sets that its first slice names, and decodes that slice. It
/// is made and decoded in its place, since it is large.
pub fn first_slice(stream: &mut Stream, slice: &Slice) -> Result<(), OutOfMemory>
    requires phase { IsPhase stream.old.sequence stream.old.phase }
    requires rest { current_in stream.old.phase ≡ None }
    requires within { IsSliceUnder (sets_after stream.old.table) slice.now }
    ensures state { OnOk result (HasOutcome stream.old
        (after_first_slice stream.old.sequence.output
        (sets_named (sets_after stream.old.table) slice.now.header)
        (base_in (phase_of stream.old.sequence stream.old.phase)) slice.now) stream.new) }
    ensures memory { OnOk result (UsesOneForFirst stream.old slice.now stream.new) }
{
    if slice.header.first_mb_in_slice.get() != 0 {
        fail(stream, slice.unit, Fault::MissingMacroblocks)?;
        return Ok(());
    }
    let sets = sets_of(&stream.table, slice);
    match stream.sequence.open(&slice.header, slice.unit, sets.sps) {
        Ok(out) => {
            stream.queue.show(out)?;
            keep_emptied(&mut stream.sequence, &mut stream.memory);
            let frames = frames_for(&stream.sequence, &slice.header);
            stream.phase = Phase::Running(Some(CurrentPicture {
                decoder: PictureDecoder::begin(
                    stream.alloc,
                    sets.sps,
                    sets.pps,
                    frames,
                    &mut stream.memory,
                )?,
                last_header: LastHeader::new(&slice.header),
                last_unit: slice.unit,
            }));
            decode_slice(stream, slice)?;
            // at a fault what the missing numbers let out and what was held then go out in one
            // order
            missing_numbers_keep_the_order();
            Ok(())
        }
        Err(PictureError::Fault(fault)) => {
            fail(stream, slice.unit, fault)?;
            Ok(())
        }
        Err(PictureError::OutOfMemory(refusal)) => Err(refusal),
    }
}

/// The parameter sets that a slice names, under which it was read.
fn sets_of<'a>(table: &'a ParamTable, slice: &Slice) -> ActiveSets<'a>
    requires { IsSliceUnder (sets_after table.now) slice.now }
    ensures named { sets_named (sets_after table.now) slice.now.header
        ≡ Some (result.pps.now, result.sps.now) }
    ensures within { IsHeader result.sps.now result.pps.now slice.now.rbsp slice.now.header }
    ensures sps { IsSps result.sps.now }
    ensures pps { IsPps result.pps.now }
{
    let Some(pps) = table.pps(slice.header.pic_parameter_set_id) else {
        unreachable!()
    };
    let Some(sps) = table.sps(pps.seq_parameter_set_id) else {
        unreachable!()
    };
    ActiveSets { sps, pps }
}

/// The planes of frames that have left the buffer are kept for later pictures.
fn keep_emptied(sequence: &mut Sequence, memory: &mut PictureMemory<PADDING>)
    ensures sequence { sequence.new ≡ sequence.old }
    ensures memory { AddsClosed memory.old memory.new }
{
    for frame in 0..MOST_EMPTIED {
        match sequence.emptied_planes() {
            Some(planes) => memory.keep(planes),
            None => return,
        }
    }
}

/// Decodes a further slice of the open picture, if there is one.
pub fn next_slice(stream: &mut Stream, slice: &Slice) -> Result<(), OutOfMemory>
    requires works { IsStream stream.old }
    requires within { IsSliceUnder (sets_after stream.old.table) slice.now }
    requires continues { IfSome (current_in stream.old.phase)
        (λ c. begins c.last_header slice.now.header ≡ false) }
    ensures state { OnOk result (HasOutcome stream.old
        (after_next_slice stream.old.sequence.output (phase_of stream.old.sequence stream.old.phase)
        slice.now) stream.new) }
    ensures memory { OnOk result (KeepsMemory stream.old stream.new) }
{
    decode_slice(stream, slice)?;
    Ok(())
}

/// The frames with which a picture is decoded, a slice of which has this header. An IDR picture has
/// I slices alone (7.4.3), and needs none; those that are stored may have another size.
fn frames_for<'a>(sequence: &'a Sequence, header: &Header) -> &'a [Frame<PADDING>]
    ensures value { result.now ≡ frames_for header.now sequence.now }
    ensures stored { is_idr header.now ≡ false → sequence.now.failed ≡ false →
        AreStoredIn (current_history sequence.now) sequence.now.frames }
    ensures sized { is_idr header.now ≡ false → sequence.now.failed ≡ false →
        AreFramesIn (current_history sequence.now) sequence.now.frames }
{
    if header.is_idr() {
        return &[];
    }
    sequence.frames()
}

/// Decodes one slice more of the open picture, if there is one. At a fault the picture is gone, all
/// held pictures go out, and then the refusal.
fn decode_slice(stream: &mut Stream, slice: &Slice) -> Result<(), OutOfMemory>
    requires can { IfSome (current_in stream.old.phase)
        (λ c. CanHave stream.old.sequence c.decoder slice.now) }
    requires well { IfSome (current_in stream.old.phase) (λ c. HasNoFault c.decoder) }
    ensures state { OnOk result (DecodesIn stream.old slice.now stream.new) }
    ensures memory { OnOk result (KeepsMemory stream.old stream.new) }
{
    let answered = answer_if_open(&stream.sequence, &mut stream.phase, slice);
    stream.read = count_more(stream.read, answered.read);
    match answered.answer {
        Ok(()) => Ok(()),
        Err(fault) => {
            fail(stream, slice.unit, fault)?;
            Ok(())
        }
    }
}

/// What the open picture answers to one slice more, if there is one.
fn answer_if_open(sequence: &Sequence, phase: &mut Phase, slice: &Slice) -> SliceAnswer
    requires { IfSome (current_in phase.old) (λ c. CanHave sequence.now c.decoder slice.now) }
    ensures { IsAnswerIn phase.old slice.now result phase.new }
{
    match phase {
        Phase::Running(Some(current)) => {
            answer_in(current, slice, frames_for(sequence, &slice.header))
        }
        _ => SliceAnswer {
            answer: Ok(()),
            read: 0,
        },
    }
}

/// What the picture answers.
fn answer_in(current: &mut CurrentPicture, slice: &Slice, frames: &[Frame<PADDING>]) -> SliceAnswer
    requires within { IsHeader current.old.decoder.sps current.old.decoder.pps slice.now.rbsp
        slice.now.header }
    requires frames { frames.now ≡ current.old.decoder.frames }
    ensures { HasAnswered current.old slice.now result current.new }
{
    let before = current.decoder.read();
    let answer = current.decoder.slice(slice, frames);
    let read = current.decoder.read().saturating_sub(before);
    current.last_header = LastHeader::new(&slice.header);
    current.last_unit = slice.unit;
    SliceAnswer { answer, read }
}

/// So many macroblocks and more, as far as a u64 counts.
fn count_more(before: u64, more: u32) -> u64
    ensures { result ≡ more_read before more }
{
    before.saturating_add(u64::from(more))
}
