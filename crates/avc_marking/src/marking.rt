//! The marking of a decoded picture (8.2.5.1).

ghost use Rattle.std.specs.Prelude.{◌≡◌, ◌+◌, ◌≤◌, ◌∷◌, [], true, false, None, length, OnOk};
ghost use Rattle.std.specs.Prelude.{if◌then◌else◌};
ghost use Rattle.std.specs.List.{list_any};
ghost use Rattle.avc_marking.specs.Marks.{after_adaptive_marking, frame_num_after_marking};
ghost use Rattle.avc_marking.specs.Marks.{is_unmark_all, marks_after};
ghost use Rattle.avc_marking.specs.Frames.{AddsFrame, MarksCurrent, MarksFrame, marked_frame};
ghost use Rattle.avc_marking.specs.Frames.{marking_entry};

use crate::frame::{FramesToUnmark, NewFrame, unmark_frames};
use crate::operations::operate_all;
use crate::window::{count, limit, sliding_window};
use arrayvec::ArrayVec;
use avc_types::{Fault, Mark, MarkedFrame, Marking, Operation};

fn has_unmark_all(operations: &[Operation]) -> bool
    ensures { result ≡ list_any is_unmark_all operations.now }
{
    operations
        .iter()
        .any(|operation| matches!(operation, Operation::UnmarkAll))
}

/// FrameNum of the frame once it is marked: 0 after operation 5. It is PrevRefFrameNum for what
/// follows, unless the marking is none.
pub fn frame_num_after_marking(new: NewFrame, marking: &Option<Marking>) -> u32
    ensures { result ≡ frame_num_after_marking (marking_entry new marking.now) }
{
    match marking {
        Some(Marking::Adaptive(operations)) => {
            if has_unmark_all(operations.as_slice()) {
                0
            } else {
                new.current.frame_num
            }
        }
        _ => new.current.frame_num,
    }
}

/// An IDR picture: all frames before it become unused.
fn mark_idr(frames: &mut ArrayVec<MarkedFrame, 17>, new: NewFrame, mark: Mark)
    requires { length frames.old.items ≤ 16 }
    ensures length { length frames.new.items ≡ length frames.old.items + 1 }
    ensures references { AddsFrame
        (λ decoding_index _. marked_frame (marking_entry new None) decoding_index mark ∷ [])
        frames.old.items frames.new.items }
{
    unmark_frames(frames.as_mut_slice(), FramesToUnmark::Every);
    frames.push(MarkedFrame {
        frame_num: new.current.frame_num,
        existing: new.existing,
        mark: Some(mark),
    });
}

/// After the operations: the picture's frame, with its number from then on, is short-term where
/// they have not marked it.
#[tactic(auto, using(crate::proofs::KeptFrames::references_added))]
fn mark_current(
    frames: &mut ArrayVec<MarkedFrame, 17>,
    new: NewFrame,
    marking: &Option<Marking>,
    assigned: bool,
)
    requires room { assigned ≡ false → length frames.old.items ≤ 16 }
    requires own { assigned ≡ true → 1 ≤ length frames.old.items }
    ensures length { length frames.new.items + (if assigned then 1 else 0)
        ≡ length frames.old.items + 1 }
    ensures marks { MarksCurrent (marking_entry new marking.now) assigned frames.old.items
        frames.new.items }
{
    let frame_num = frame_num_after_marking(new, marking);
    if assigned {
        let last = frames.len() - 1;
        let mark = frames[last].mark;
        frames[last] = MarkedFrame {
            frame_num,
            existing: new.existing,
            mark,
        };
    } else {
        frames.push(MarkedFrame {
            frame_num,
            existing: new.existing,
            mark: Some(Mark::Short),
        });
    }
}

/// Adaptive marking: the operations in their order, and no more frames than may be used for
/// reference.
fn adaptive_marking(
    frames: &mut ArrayVec<MarkedFrame, 17>,
    max_long_term_frame_idx: &mut Option<u32>,
    new: NewFrame,
    marking: &Option<Marking>,
    operations: &[Operation],
) -> Result<(), Fault>
    requires { length frames.old.items ≤ 16 }
    ensures length { OnOk result (length frames.new.items ≡ length frames.old.items + 1) }
    ensures marks { MarksFrame (λ decoding_index m.
        after_adaptive_marking (marking_entry new marking.now) decoding_index m operations.now)
        frames.old.items max_long_term_frame_idx.old result frames.new.items
        max_long_term_frame_idx.new }
{
    let assigned = operate_all(frames, max_long_term_frame_idx, new, operations)?;
    mark_current(frames, new, marking, assigned);
    if count(frames.as_slice()) <= limit(new) {
        Ok(())
    } else {
        Err(Fault::TooManyReferences)
    }
}

/// The marks after a decoded picture (8.2.5.1), from those before it. `frames` are the frames of
/// the buffer in decoding order, of which some may be unused for reference; the picture's frame
/// comes last, with its mark, and with frame_num 0 after operation 5. `max_long_term_frame_idx` is
/// the greatest long-term index, none where there may be no long-term frames. `marking` is none
/// where nal_ref_idc is 0. BadMarking where an operation names no frame, makes a frame long-term
/// that stands for a missing frame number, gives an index that may not be given, sets more indices
/// than max_num_ref_frames, or marks the picture twice; TooManyReferences where the sliding window
/// finds no short-term frame, or where the operations leave more frames than may be. After a fault
/// the frames are of no use.
#[tactic(auto, using(crate::proofs::KeptFrames::unmarked_added))]
pub fn mark(
    frames: &mut ArrayVec<MarkedFrame, 17>,
    max_long_term_frame_idx: &mut Option<u32>,
    new: NewFrame,
    marking: &Option<Marking>,
) -> Result<(), Fault>
    requires { length frames.old.items ≤ 16 }
    ensures length { OnOk result (length frames.new.items ≡ length frames.old.items + 1) }
    ensures marks { MarksFrame
        (λ decoding_index. marks_after (marking_entry new marking.now) decoding_index marking.now)
        frames.old.items max_long_term_frame_idx.old result frames.new.items
        max_long_term_frame_idx.new }
{
    match marking {
        None => {
            frames.push(MarkedFrame {
                frame_num: new.current.frame_num,
                existing: new.existing,
                mark: None,
            });
            Ok(())
        }
        Some(
            Marking::Idr {
                long_term_reference_flag: false,
                ..
            },
        ) => {
            mark_idr(frames, new, Mark::Short);
            *max_long_term_frame_idx = None;
            Ok(())
        }
        Some(
            Marking::Idr {
                long_term_reference_flag: true,
                ..
            },
        ) => {
            mark_idr(frames, new, Mark::Long(0));
            *max_long_term_frame_idx = Some(0);
            Ok(())
        }
        Some(Marking::SlidingWindow) => sliding_window(frames, new),
        Some(Marking::Adaptive(operations)) => adaptive_marking(
            frames,
            max_long_term_frame_idx,
            new,
            marking,
            operations.as_slice(),
        ),
    }
}
