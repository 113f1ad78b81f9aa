//! Adaptive memory control marking: its operations 1 to 6 (8.2.5.4).

ghost use Rattle.std.specs.Prelude.{◌≡◌, ◌+◌, ◌≤◌, true, false, not, ◌&&◌, pos, ◌-ℤ◌, None, length};
ghost use Rattle.std.specs.Prelude.{IfOk, if◌then◌else◌};
ghost use Rattle.avc_types.specs.References.{IsPlaceIn, IsShortTermIn, NamesFrames, result_map};
ghost use Rattle.avc_marking.specs.Marks.{after_operation, after_operations, frame_with_pic_num_x};
ghost use Rattle.avc_marking.specs.Marks.{is_index_allowed};
ghost use Rattle.avc_marking.specs.Marks.{long_term_frame_or_fault, max_long_term_frame_idx_below};
ghost use Rattle.avc_marking.specs.Marks.{with_long_term};
ghost use Rattle.avc_marking.specs.Marks.{with_long_term_current, without_long_term};
ghost use Rattle.avc_marking.specs.Marks.{without_short_term};
ghost use Rattle.avc_marking.specs.Frames.{AddsFrame, MayChangeFrames, Operates, OperatesAll};
ghost use Rattle.avc_marking.specs.Frames.{marking_entry};

use crate::frame::{FramesToUnmark, NewFrame, unmark, unmark_frames};
use arrayvec::ArrayVec;
use avc_types::{Fault, Mark, MarkedFrame, Operation, long_term_place, short_term_place};

/// picNumX (8.2.5.4.1).
fn pic_num_x(new: NewFrame, difference_minus1: u32) -> i64
    ensures { result ≡ (pos new.current.frame_num -ℤ pos (difference_minus1 + 1)) }
{
    i64::from(new.current.frame_num) - (i64::from(difference_minus1) + 1)
}

/// The place of the short-term frame with picNumX.
fn frame_with_pic_num_x(
    frames: &[MarkedFrame],
    new: NewFrame,
    difference_minus1: u32,
) -> Result<usize, Fault>
    ensures within { IfOk result (IsPlaceIn frames.now) }
    ensures short { IfOk result (IsShortTermIn frames.now) }
    ensures named { NamesFrames frames.now result_map
        (frame_with_pic_num_x (marking_entry new None) difference_minus1) result }
{
    match short_term_place(frames, new.current, pic_num_x(new, difference_minus1)) {
        Some(place) => Ok(place),
        None => Err(Fault::BadMarking),
    }
}

/// The place of the long-term frame with an index.
fn place_with_long_term_frame_idx(frames: &[MarkedFrame], index: u32) -> Result<usize, Fault>
    ensures within { IfOk result (IsPlaceIn frames.now) }
    ensures named { NamesFrames frames.now result_map (long_term_frame_or_fault index) result }
{
    match long_term_place(frames, index) {
        Some(place) => Ok(place),
        None => Err(Fault::BadMarking),
    }
}

/// The index may be given.
fn is_index_allowed(index: u32, max_long_term_frame_idx: Option<u32>) -> bool
    ensures { result ≡ is_index_allowed index max_long_term_frame_idx }
{
    match max_long_term_frame_idx {
        Some(max_long_term_frame_idx) => index <= max_long_term_frame_idx,
        None => false,
    }
}

/// The frame may get the index.
fn may_be_long_term(frame: MarkedFrame, index: u32, max_long_term_frame_idx: Option<u32>) -> bool
    ensures { result ≡ (frame.existing && is_index_allowed index max_long_term_frame_idx) }
{
    frame.existing && is_index_allowed(index, max_long_term_frame_idx)
}

/// The current picture, which may have been marked, may get the index.
fn may_current_be_long_term(
    assigned: bool,
    index: u32,
    max_long_term_frame_idx: Option<u32>,
) -> bool
    ensures { result ≡ (not assigned && is_index_allowed index max_long_term_frame_idx) }
{
    !assigned && is_index_allowed(index, max_long_term_frame_idx)
}

/// The greatest index where there are so many.
fn max_long_term_frame_idx_below(plus1: u32) -> Option<u32>
    ensures { result ≡ max_long_term_frame_idx_below plus1 }
{
    plus1.checked_sub(1)
}

/// 1: a short-term frame becomes unused.
fn unmark_short_term(
    frames: &mut [MarkedFrame],
    new: NewFrame,
    difference_minus1: u32,
) -> Result<(), Fault>
    ensures { MayChangeFrames (without_short_term (marking_entry new None) difference_minus1)
        frames.old result frames.new }
{
    let place = frame_with_pic_num_x(frames, new, difference_minus1)?;
    unmark(frames, place);
    Ok(())
}

/// 2: a long-term frame becomes unused.
fn unmark_long_term(frames: &mut [MarkedFrame], index: u32) -> Result<(), Fault>
    ensures { MayChangeFrames (without_long_term index) frames.old result frames.new }
{
    let place = place_with_long_term_frame_idx(frames, index)?;
    unmark(frames, place);
    Ok(())
}

/// 3: a short-term frame becomes long-term.
fn assign_long_term(
    frames: &mut [MarkedFrame],
    new: NewFrame,
    difference_minus1: u32,
    index: u32,
    max_long_term_frame_idx: Option<u32>,
) -> Result<(), Fault>
    ensures { MayChangeFrames
        (with_long_term (marking_entry new None) difference_minus1 index max_long_term_frame_idx)
        frames.old result frames.new }
{
    let place = frame_with_pic_num_x(frames, new, difference_minus1)?;
    if !may_be_long_term(frames[place], index, max_long_term_frame_idx) {
        return Err(Fault::BadMarking);
    }
    unmark_frames(frames, FramesToUnmark::Index(index));
    frames[place].mark = Some(Mark::Long(index));
    Ok(())
}

/// 6: the current picture becomes long-term.
fn current_to_long_term(frames: &mut ArrayVec<MarkedFrame, 17>, new: NewFrame, index: u32)
    requires { length frames.old.items ≤ 16 }
    ensures length { length frames.new.items ≡ length frames.old.items + 1 }
    ensures references { AddsFrame (with_long_term_current (marking_entry new None) index)
        frames.old.items frames.new.items }
{
    unmark_frames(frames.as_mut_slice(), FramesToUnmark::Index(index));
    frames.push(MarkedFrame {
        frame_num: new.current.frame_num,
        existing: new.existing,
        mark: Some(Mark::Long(index)),
    });
}

/// One memory_management_control_operation (8.2.5.4), and whether the current picture has been
/// marked then.
#[tactic(auto, using(crate::proofs::KeptFrames::operating))]
fn operate(
    frames: &mut ArrayVec<MarkedFrame, 17>,
    max_long_term_frame_idx: &mut Option<u32>,
    assigned: bool,
    new: NewFrame,
    operation: Operation,
) -> Result<bool, Fault>
    requires { assigned ≡ false → length frames.old.items ≤ 16 }
    ensures length { IfOk result (λ done. length frames.new.items + (if assigned then 1 else 0)
        ≡ length frames.old.items + (if done then 1 else 0)) }
    ensures turn { Operates assigned
        (λ own t. after_operation (marking_entry new None) own t operation)
        frames.old.items max_long_term_frame_idx.old result frames.new.items
        max_long_term_frame_idx.new }
{
    match operation {
        Operation::UnmarkShortTerm(difference_minus1) => {
            unmark_short_term(frames.as_mut_slice(), new, difference_minus1)?;
            Ok(assigned)
        }
        Operation::UnmarkLongTerm(index) => {
            unmark_long_term(frames.as_mut_slice(), index)?;
            Ok(assigned)
        }
        Operation::AssignLongTerm(difference_minus1, index) => {
            assign_long_term(
                frames.as_mut_slice(),
                new,
                difference_minus1,
                index,
                *max_long_term_frame_idx,
            )?;
            Ok(assigned)
        }
        Operation::MaxLongTermFrameIdx(plus1) => {
            if new.max_num_ref_frames < plus1 {
                return Err(Fault::BadMarking);
            }
            unmark_frames(frames.as_mut_slice(), FramesToUnmark::From(plus1));
            *max_long_term_frame_idx = max_long_term_frame_idx_below(plus1);
            Ok(assigned)
        }
        Operation::UnmarkAll => {
            unmark_frames(frames.as_mut_slice(), FramesToUnmark::Every);
            *max_long_term_frame_idx = None;
            Ok(assigned)
        }
        Operation::CurrentToLongTerm(index) => {
            if !may_current_be_long_term(assigned, index, *max_long_term_frame_idx) {
                return Err(Fault::BadMarking);
            }
            current_to_long_term(frames, new, index);
            Ok(true)
        }
    }
}

/// All of them in order.
pub fn operate_all(
    frames: &mut ArrayVec<MarkedFrame, 17>,
    max_long_term_frame_idx: &mut Option<u32>,
    new: NewFrame,
    operations: &[Operation],
) -> Result<bool, Fault>
    requires { length frames.old.items ≤ 16 }
    ensures length { IfOk result (λ assigned. length frames.new.items
        ≡ length frames.old.items + (if assigned then 1 else 0)) }
    ensures turn { OperatesAll
        (λ own t. after_operations (marking_entry new None) own t operations.now)
        frames.old.items max_long_term_frame_idx.old result frames.new.items
        max_long_term_frame_idx.new }
{
    let mut assigned = false;
    for operation in operations {
        assigned = operate(frames, max_long_term_frame_idx, assigned, new, *operation)?;
    }
    Ok(assigned)
}
