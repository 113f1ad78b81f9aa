//! Laws of what goes out (C.4.5.3, E.2.1), and of long gaps in frame_num.

ghost use Rattle.avc_decoder_core.specs.Gaps.{LongGapsLeaveTheirEnd};
ghost use Rattle.avc_decoder_core.specs.Laws.{MissingNumbersKeepTheOrder};
ghost use Rattle.avc_decoder_core.specs.SequenceOrder.{EarlyOutputKeepsHistories};

use avc_dpb::laws::early_output_keeps_the_order;
use avc_marking::laws::marking_keeps_frames;

/// What goes out for missing frame numbers goes first of what is needed for output.
#[tactic(auto, using(crate::proofs::Sequences::missing_numbers_keep_the_order))]
pub fn missing_numbers_keep_the_order()
    ensures { MissingNumbersKeepTheOrder }
{}

/// Where the reordering of pictures stays within max_num_reorder_frames, early output hands them
/// out in the order of full output (E.2.1).
#[tactic(auto, using(crate::proofs::Sequences::early_output_keeps_histories))]
pub fn early_output_keeps_histories()
    ensures { EarlyOutputKeepsHistories }
{
    early_output_keeps_the_order();
    marking_keeps_frames();
}

/// Of a long gap in frame_num only the last 16 missing numbers matter to what is kept, once the
/// sliding window is full of frames that are not needed for output (8.2.5.2).
pub fn long_gaps_leave_their_end()
    ensures { LongGapsLeaveTheirEnd }
{}
