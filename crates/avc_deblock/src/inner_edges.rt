//! The edges inside a macroblock.

ghost use Rattle.std.specs.Prelude.{◌≡◌, ℕ, ◌<◌, ◌≤◌};
ghost use Rattle.avc_edges.specs.OneEdge.{AreStrengths, strength_along};
ghost use Rattle.avc_deblock.specs.ByInfo.{strength_of};
ghost use Rattle.avc_deblock.specs.MbStrengths.{AreInside};
ghost use Rattle.avc_deblock.specs.Places.{AreLimitsAt};

use crate::mb_info::MbInfo;
use crate::mb_strengths::MbStrengths;
use crate::place::Place;
use crate::planes_edge::PairLimits;
use avc_edges::Strengths;

/// The edges inside a macroblock.
#[derive(Clone, Copy)]
pub(crate) struct InnerEdges<'a> {
    /// The macroblock.
    pub(crate) q: &'a MbInfo,
    pub(crate) place: Place,

    /// They are to be filtered. At strength 0 they need not be.
    pub(crate) are_filtered: bool,

    pub(crate) strengths: &'a MbStrengths,

    /// What the lines across them are filtered with.
    pub(crate) limits: &'a PairLimits,

    ghost told: { AreInside strengths.now q.now },
    ghost own: { AreLimitsAt place limits.now q.now q.now },
}

impl InnerEdges<'_> {
    /// The strengths along edge `n`.
    #[inline(always)]
    pub(crate) fn strengths_at(self, is_vertical: bool, n: usize) -> Strengths
        requires some { 1 ≤ n }
        requires edge { n < 4 }
        ensures low { AreStrengths result }
        ensures value { (k : ℕ) → k < 4 → strength_along result k
            ≡ strength_of self.entry.q.now self.entry.q.now is_vertical n k }
    {
        Strengths::BelowFour(self.strengths.at(is_vertical, n))
    }
}
