//! Laws of the definition of output: they are what C.4 asks for, in its own words.

ghost use Rattle.avc_dpb.specs.Laws.{LeastGoesOut, AllGoOutByBumping, AllHeldGoOut};
ghost use Rattle.avc_dpb.specs.Laws.{StandsInDecodingOrder};
ghost use Rattle.avc_dpb.specs.Laws.{OutOnlyGrows, GoesOutInTurn, HoldsAtMost, GoesOutOnce};
ghost use Rattle.avc_dpb.specs.Laws.{MissingFramesKeepTheOrder, MissingFramesFindRoom};
ghost use Rattle.avc_dpb.specs.Laws.{ReferencesStay};
ghost use Rattle.avc_dpb.specs.Reordering.{EarlyOutputKeepsTheOrder};

/// Bumping puts out the picture needed for output with the least order count, of equals the one
/// that was decoded first (C.4.5.3).
pub fn least_goes_out()
    ensures { LeastGoesOut }
{}

/// Where the buffer is emptied, all pictures needed for output go out by bumping again and again
/// (C.4.4).
pub fn all_go_out_by_bumping()
    ensures { AllGoOutByBumping }
{}

/// What goes out where the buffer is emptied: all that is needed for output, in order.
#[tactic(auto, using(crate::proofs::EarlyOrder::all_held_go_out))]
pub fn all_held_go_out()
    ensures { AllHeldGoOut }
{}

/// After every history the frames of the buffer stand in decoding order.
#[tactic(auto, using(crate::proofs::EarlyOrder::stands_in_decoding_order))]
pub fn stands_in_decoding_order()
    ensures { StandsInDecodingOrder }
{}

/// One entry more only adds to what has gone out.
pub fn out_only_grows()
    ensures { OutOnlyGrows }
{}

/// What goes out before an entry, and then what goes out with it.
#[tactic(auto, using(crate::proofs::EarlyOrder::goes_out_in_turn))]
pub fn goes_out_in_turn()
    ensures { GoesOutInTurn }
{}

/// The buffer never has more frames than the greatest of its sizes.
#[tactic(auto, using(crate::proofs::EarlyOrder::holds_at_most))]
pub fn holds_at_most()
    ensures { HoldsAtMost }
{}

/// Each picture goes out once in the end, and nothing else goes out.
#[tactic(auto, using(crate::proofs::EarlyOrder::goes_out_once))]
pub fn goes_out_once()
    ensures { GoesOutOnce }
{}

/// What goes out to make room for a non-existing frame goes out first of what is needed for output
/// (C.4.2).
pub fn missing_frames_keep_the_order()
    ensures { MissingFramesKeepTheOrder }
{}

/// A non-existing frame for which there is room lets nothing go out (C.4.2).
#[tactic(auto, using(crate::proofs::EarlyOrder::missing_frames_find_room))]
pub fn missing_frames_find_room()
    ensures { MissingFramesFindRoom }
{}

/// Reference frames stay in the buffer, and the arriving frame with them if it is one (C.4.5.1).
pub fn references_stay()
    ensures { ReferencesStay }
{}

/// Where the reordering of pictures stays within its limits, early output hands them out in the
/// order of full output (E.2.1).
#[tactic(auto, using(crate::proofs::EarlyOrder::early_output_keeps_the_order))]
pub fn early_output_keeps_the_order()
    ensures { EarlyOutputKeepsTheOrder }
{}
