//! A frame that comes to the buffer, as marking sees it, and frames that lose their marks.

ghost use Rattle.std.specs.Prelude.{◌≡◌, ◌<◌, filter, length, not};
ghost use Rattle.avc_types.specs.References.{is_marked};
ghost use Rattle.avc_marking.specs.Frames.{ChangesFrames, UnmarksEach, UnmarksPlace, is_to_unmark};
ghost use Rattle.avc_marking.specs.Frames.{unmarked_if};

use avc_types::{CurrentFrameNum, Mark, MarkedFrame, has_long_term_frame_idx};

/// What marking asks of a frame that comes to the buffer: of a decoded picture, or of one that
/// stands for a missing frame number.
#[derive(Clone, Copy)]
pub struct NewFrame {
    /// Its frame_num, and MaxFrameNum of its sequence parameter set.
    pub current: CurrentFrameNum,

    /// It is a decoded picture, and doesn't stand for a missing frame number.
    pub existing: bool,

    /// max_num_ref_frames of its sequence parameter set.
    pub max_num_ref_frames: u32,
}

/// Which frames become unused for reference.
#[derive(Clone, Copy)]
pub enum FramesToUnmark {
    /// The long-term frame with an index.
    Index(u32),

    /// The long-term frames with an index and greater ones.
    From(u32),

    /// All.
    Every,
}

fn is_to_unmark(frame: MarkedFrame, to_unmark: FramesToUnmark) -> bool
    ensures { result ≡ is_marked (is_to_unmark to_unmark) frame }
{
    match to_unmark {
        FramesToUnmark::Index(index) => has_long_term_frame_idx(frame, index),
        FramesToUnmark::From(index) =>
            matches!(frame.mark, Some(Mark::Long(kept)) if kept >= index),
        FramesToUnmark::Every => frame.mark.is_some(),
    }
}

fn unmarked_if(frame: MarkedFrame, to_unmark: FramesToUnmark) -> MarkedFrame
    ensures { result ≡ unmarked_if (is_to_unmark to_unmark) frame }
{
    if is_to_unmark(frame, to_unmark) {
        MarkedFrame {
            mark: None,
            ..frame
        }
    } else {
        frame
    }
}

/// The frames become unused.
pub fn unmark_frames(frames: &mut [MarkedFrame], to_unmark: FramesToUnmark)
    ensures each { UnmarksEach (is_to_unmark to_unmark) frames.old frames.new }
    ensures references { ChangesFrames (filter (λ r. not (is_to_unmark to_unmark r))) frames.old
        frames.new }
{
    for place in 0..frames.len() {
        frames[place] = unmarked_if(frames[place], to_unmark);
    }
}

/// One frame becomes unused.
#[tactic(auto, using(crate::proofs::KeptFrames::references_forgotten))]
pub fn unmark(frames: &mut [MarkedFrame], place: usize)
    requires { place < length frames.old }
    ensures { UnmarksPlace place frames.old frames.new }
{
    frames[place].mark = None;
}
