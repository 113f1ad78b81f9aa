//! Laws of marking.

ghost use Rattle.avc_marking.specs.Laws.{StaysLimited, IsLimited, AddsOwnFrameAlone};
ghost use Rattle.avc_marking.specs.Laws.{LeavesOwnFrameAlone, SlidesAgain};
ghost use Rattle.avc_marking.specs.Laws.{WindowTakesTheFirst};

/// There are never more reference frames than max(max_num_ref_frames, 1). It does nothing at run
/// time.
pub fn references_are_limited()
    ensures entry { StaysLimited }
    ensures history { IsLimited }
{}

/// Marking adds no frame but the entry's own, and keeps the order of the others. It does nothing at
/// run time.
#[tactic(auto, using(crate::proofs::KeptFrames::adds_own_frame_alone))]
pub fn marking_keeps_frames()
    ensures { AddsOwnFrameAlone }
{}

/// An IDR picture, or one with operation 5, leaves no earlier frame. It does nothing at run time.
#[tactic(auto, using(crate::proofs::KeptFrames::leaves_own_frame_alone))]
pub fn nothing_stays_after_unmark_all()
    ensures { LeavesOwnFrameAlone }
{}

/// Once the sliding window has slid it can slide again. It does nothing at run time.
#[tactic(auto, using(crate::proofs::KeptFrames::slides_again))]
pub fn sliding_window_can_go_on()
    ensures { SlidesAgain }
{}

/// The sliding window takes the first of short-term frames whose numbers rise. It does nothing at
/// run time.
pub fn window_takes_the_first()
    ensures { WindowTakesTheFirst }
{}
