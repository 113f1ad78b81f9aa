//! A frame as reference lists and marking know it.

ghost use Rattle.std.specs.Prelude.{◌≡◌, IfSome};
ghost use Rattle.std.specs.Option.{option_map};
ghost use Rattle.avc_types.specs.References.{IsPlaceIn, IsShortTermIn, MarksAreSeen, NamesFrames};
ghost use Rattle.avc_types.specs.References.{has_long_term_frame_idx, has_pic_num, is_marked};
ghost use Rattle.avc_types.specs.References.{long_term_frame, short_term_frame};

use crate::current_frame_num::CurrentFrameNum;
use crate::references::Mark;

/// What reference lists and marking know of a frame in the decoded picture buffer: of a decoded
/// picture, or of one that stands for a missing frame number.
#[derive(Clone, Copy, Default)]
pub struct MarkedFrame {
    /// FrameNum.
    pub frame_num: u32,

    /// It is a decoded picture, and doesn't stand for a missing frame number.
    pub existing: bool,

    /// None where it is unused for reference.
    pub mark: Option<Mark>,
}

/// It is a short-term frame with this PicNum.
fn has_pic_num(frame: MarkedFrame, current: CurrentFrameNum, number: i64) -> bool
    ensures { result ≡ is_marked (has_pic_num current number) frame }
{
    matches!(frame.mark, Some(Mark::Short)) && current.pic_num(frame.frame_num) == number
}

/// It is the long-term frame that has an index.
pub fn has_long_term_frame_idx(frame: MarkedFrame, index: u32) -> bool
    ensures { result ≡ is_marked (has_long_term_frame_idx index) frame }
{
    matches!(frame.mark, Some(Mark::Long(kept)) if kept == index)
}

/// The place of the short-term frame that a PicNum names (8.2.4.1); of two that have it that of the
/// one that was decoded last.
pub fn short_term_place(
    frames: &[MarkedFrame],
    current: CurrentFrameNum,
    number: i64,
) -> Option<usize>
    ensures within { IfSome result (IsPlaceIn frames.now) }
    ensures short { IfSome result (IsShortTermIn frames.now) }
    ensures named { NamesFrames frames.now option_map (short_term_frame current number) result }
{
    for place in (0..frames.len()).rev() {
        if has_pic_num(frames[place], current, number) {
            return Some(place);
        }
    }
    None
}

/// The place of the long-term frame that has an index.
pub fn long_term_place(frames: &[MarkedFrame], index: u32) -> Option<usize>
    ensures within { IfSome result (IsPlaceIn frames.now) }
    ensures named { NamesFrames frames.now option_map (long_term_frame index) result }
{
    for (place, frame) in frames.iter().enumerate() {
        if has_long_term_frame_idx(*frame, index) {
            return Some(place);
        }
    }
    None
}

/// The frame at a place is among the reference frames exactly where it has a mark. It does nothing
/// at run time.
pub fn marks_are_seen()
    ensures { MarksAreSeen }
{}
