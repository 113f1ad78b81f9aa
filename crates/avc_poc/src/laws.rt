//! A law of order counts: a gap in frame_num counts at once.

ghost use Rattle.avc_poc.specs.Laws.{GapsCountAtOnce};

/// The order counts after a gap in frame_num follow from its first number and its length. It does
/// nothing at run time.
#[tactic(auto, using(crate::proofs::OrderCounts::gaps_count_at_once_so))]
pub fn gaps_count_at_once()
    ensures { GapsCountAtOnce }
{}
