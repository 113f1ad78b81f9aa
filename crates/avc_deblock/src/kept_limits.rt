//! Limits kept from one macroblock to the next: neighbours mostly have one QP.

ghost use Rattle.std.specs.Option.{option_copied};
ghost use Rattle.std.specs.Prelude.{IfSome, ◌≡◌, true};
ghost use Rattle.avc_deblock.specs.MbLimits.{AreKept, AreRowLimits, IsFor};
ghost use Rattle.avc_deblock.specs.Places.{AreLimitsAt};

use crate::mb_info::MbInfo;
use crate::place::Place;
use crate::planes_edge::{NO_PAIR_LIMITS, PairLimits};
use avc_edges::both;

/// What the lines between macroblocks of two QPs are filtered with, at the offsets of one slice.
#[derive(Clone, Copy)]
pub(crate) struct KeptLimits {
    p_qp: u8,
    q_qp: u8,
    offset_a: i8,
    offset_b: i8,
    pub(crate) limits: PairLimits,
}

/// What stands for limits that are not made yet.
const NO_KEPT_LIMITS: KeptLimits = KeptLimits {
    p_qp: 0,
    q_qp: 0,
    offset_a: 0,
    offset_b: 0,
    limits: NO_PAIR_LIMITS,
};

impl KeptLimits {
    /// Makes them those between `p` and `q`, which is at this place.
    #[inline(never)]
    fn set(&mut self, p: &MbInfo, q: &MbInfo, place: Place)
        ensures kept { AreKept self.new place.chroma_qp_index_offset }
        ensures own { IsFor self.new p.now q.now }
    {
        self.p_qp = p.qp;
        self.q_qp = q.qp;
        self.offset_a = q.offset_a;
        self.offset_b = q.offset_b;
        self.limits.set(p, q, place);
    }

    #[inline(always)]
    fn is_for(&self, p: &MbInfo, q: &MbInfo) -> bool
        ensures { result ≡ true → IsFor self.now p.now q.now }
    {
        both(
            both(self.p_qp == p.qp, self.q_qp == q.qp),
            both(self.offset_a == q.offset_a, self.offset_b == q.offset_b),
        )
    }

    /// Makes them those inside `q`, where they are not yet.
    #[inline(always)]
    fn fit_inside(&mut self, q: &MbInfo, place: Place)
        requires { AreKept self.old place.chroma_qp_index_offset }
        ensures kept { AreKept self.new place.chroma_qp_index_offset }
        ensures own { IsFor self.new q.now q.now }
    {
        if self.is_for(q, q) {
            return;
        }
        self.set(q, q, place);
    }

    /// Makes them those between `p` and `q`, where they are not yet; where no `p` is given they
    /// stay. `inside` are those inside `q`.
    #[inline(always)]
    fn fit(&mut self, p: Option<&MbInfo>, q: &MbInfo, inside: &KeptLimits, place: Place)
        requires kept { AreKept self.old place.chroma_qp_index_offset }
        requires inside { AreKept inside.now place.chroma_qp_index_offset }
        requires own { IsFor inside.now q.now q.now }
        ensures kept { AreKept self.new place.chroma_qp_index_offset }
        ensures own { IfSome (option_copied p.entry) (λ p. IsFor self.new p q.now) }
    {
        let Some(p) = p else {
            return;
        };
        if self.is_for(p, q) {
            return;
        }
        if p.qp == q.qp {
            *self = *inside;
        } else {
            self.set(p, q, place);
        }
    }
}

/// What the lines of the last macroblock were filtered with, in a row of macroblocks.
#[derive(Drop)]
pub(crate) struct RowLimits {
    /// Those inside it.
    pub(crate) inside: KeptLimits,

    /// Those to its left neighbour.
    pub(crate) left: KeptLimits,

    /// Those to its upper neighbour.
    pub(crate) above: KeptLimits,
}

impl RowLimits {
    /// Those of a macroblock `q` whose neighbours have its QP.
    pub(crate) fn of(q: &MbInfo, place: Place) -> RowLimits
        ensures { AreRowLimits result place.chroma_qp_index_offset }
    {
        let mut inside = NO_KEPT_LIMITS;
        inside.set(q, q, place);
        RowLimits {
            inside,
            left: inside,
            above: inside,
        }
    }

    /// Makes them those of `q`: those inside it, and those to each neighbour that is given, which
    /// an edge that is filtered leads to.
    #[inline(always)]
    pub(crate) fn fit(
        &mut self,
        q: &MbInfo,
        left: Option<&MbInfo>,
        above: Option<&MbInfo>,
        place: Place,
    )
        requires { AreRowLimits self.old place.chroma_qp_index_offset }
        ensures kept { AreRowLimits self.new place.chroma_qp_index_offset }
        ensures inside { AreLimitsAt place self.new.inside.limits q.now q.now }
        ensures left { IfSome (option_copied left.entry)
            (λ p. AreLimitsAt place self.new.left.limits p q.now) }
        ensures above { IfSome (option_copied above.entry)
            (λ p. AreLimitsAt place self.new.above.limits p q.now) }
    {
        self.inside.fit_inside(q, place);
        self.left.fit(left, q, &self.inside, place);
        self.above.fit(above, q, &self.inside, place);
    }
}
