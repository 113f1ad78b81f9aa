//! Sliding window marking, and how many reference frames there may be (8.2.5.3).

ghost use Rattle.std.specs.Prelude.{◌≡◌, ℕ, ◌+◌, ◌<◌, ◌≤◌, true, false, max, Option, Some, None};
ghost use Rattle.std.specs.Prelude.{length, IfSome, OnOk};
ghost use Rattle.std.specs.Option.{option_map};
ghost use Rattle.avc_types.specs.References.{IsPlaceIn, NamesFrames};
ghost use Rattle.avc_types.specs.declared.references.Marking.TheVariants.{SlidingWindow};
ghost use Rattle.avc_marking.specs.Marks.{after_sliding_window, first_in_window, marks_after};
ghost use Rattle.avc_marking.specs.Frames.{CountsReferences, IsFirstOf, IsShortAt, LaterPrecedes};
ghost use Rattle.avc_marking.specs.Frames.{MarksFrame, MayChangeFrames, marking_entry};

use crate::frame::{NewFrame, unmark};
use arrayvec::ArrayVec;
use avc_types::{Fault, Mark, MarkedFrame};

/// How many frames are used for reference.
#[tactic(auto, using(crate::proofs::KeptFrames::counting))]
pub fn count(frames: &[MarkedFrame]) -> usize
    ensures few { result ≤ length frames.now }
    ensures references { CountsReferences frames.now result }
{
    let mut count = 0;
    for frame in frames {
        count += usize::from(frame.mark.is_some());
    }
    count
}

/// How many may be.
pub fn limit(new: NewFrame) -> usize
    ensures { result ≡ max new.max_num_ref_frames 1 }
{
    new.max_num_ref_frames.max(1) as usize
}

/// The place of the short-term frame that goes first, among a frame and those that were decoded
/// later.
fn first_in_window_with(
    frames: &[MarkedFrame],
    new: NewFrame,
    later: Option<usize>,
    place: usize,
) -> Option<usize>
    requires here { place < length frames.now }
    requires later { IfSome later (λ other. place < other) }
    requires within { IfSome later (IsPlaceIn frames.now) }
    ensures later { IfSome result (λ other. place ≤ other) }
    ensures within { IfSome result (IsPlaceIn frames.now) }
    ensures long { IsShortAt frames.now place false → result ≡ later }
    ensures short { IsShortAt frames.now place true →
        IsFirstOf new.current frames.now place later result }
{
    let frame = frames[place];
    if !matches!(frame.mark, Some(Mark::Short)) {
        return later;
    }
    match later {
        Some(other) if precedes_in_window(frames[other], frame, new) => Some(other),
        _ => Some(place),
    }
}

/// Of two short-term frames, whether the one that was decoded later goes first.
fn precedes_in_window(later: MarkedFrame, earlier: MarkedFrame, new: NewFrame) -> bool
    ensures { LaterPrecedes new.current later earlier result }
{
    new.current.pic_num(later.frame_num) < new.current.pic_num(earlier.frame_num)
}

/// The place of the short-term frame with the least PicNum, of equals the one that was decoded
/// first.
fn first_in_window(frames: &[MarkedFrame], new: NewFrame) -> Option<usize>
    ensures within { IfSome result (IsPlaceIn frames.now) }
    ensures first { NamesFrames frames.now option_map (first_in_window new.current) result }
{
    let mut first = None;
    for place in (0..frames.len()).rev() {
        first = first_in_window_with(frames, new, first, place);
    }
    first
}

/// Where as many frames are used for reference as may be, the short-term one with the least PicNum
/// becomes unused.
fn free_a_frame(frames: &mut [MarkedFrame], new: NewFrame) -> Result<(), Fault>
    ensures { MayChangeFrames (after_sliding_window (marking_entry new None)) frames.old result
        frames.new }
{
    if count(frames) < limit(new) {
        return Ok(());
    }
    match first_in_window(frames, new) {
        Some(place) => {
            unmark(frames, place);
            Ok(())
        }
        None => Err(Fault::TooManyReferences),
    }
}

/// Sliding window (8.2.5.3), for a picture or for a frame that stands for a missing frame number
/// (8.2.5.2): where as many of the frames are used for reference as may be, the short-term one with
/// the least PicNum becomes unused, of equals the one that was decoded first, TooManyReferences
/// where there is none. The new frame comes last, short-term. After a fault the frames are of no
/// use.
pub fn sliding_window(frames: &mut ArrayVec<MarkedFrame, 17>, new: NewFrame) -> Result<(), Fault>
    requires { length frames.old.items ≤ 16 }
    ensures length { OnOk result (length frames.new.items ≡ length frames.old.items + 1) }
    ensures marks { (idx : Option ℕ) →
        MarksFrame (λ decoding_index. marks_after (marking_entry new (Some SlidingWindow))
        decoding_index (Some SlidingWindow))
        frames.old.items idx result frames.new.items idx }
{
    free_a_frame(frames.as_mut_slice(), new)?;
    frames.push(MarkedFrame {
        frame_num: new.current.frame_num,
        existing: new.existing,
        mark: Some(Mark::Short),
    });
    Ok(())
}
