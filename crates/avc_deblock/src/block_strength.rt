//! The strength bS between two blocks (8.7.2.1).

ghost use Rattle.std.specs.Prelude.{◌≡◌, ℕ, ◌/◌, ◌<◌, ◌==◌, ◌-ℤ◌, nat_le, nat_abs, List};
ghost use Rattle.std.specs.Prelude.{not, ◌||◌, if◌then◌else◌, slice_index, slice_index_or};
ghost use Rattle.avc_types.specs.Pictures.{Coded};
ghost use Rattle.avc_neigh.specs.declared.neighbour_info.Motion.{Motion};
ghost use Rattle.avc_motion.specs.Motion.{zero_vector};
ghost use Rattle.avc_deblock.specs.Edges.{strength_between};
ghost use Rattle.avc_deblock.specs.FilterInfo.{Names, HasInfo, has_bit, are_far};
ghost use Rattle.avc_deblock.specs.FilterInfo.{inter_strength, motion_strength};

use crate::mb_info::MbInfo;
use crate::place::BlockPair;
use avc_edges::either;
use avc_types::Mv;

/// The two differ by a whole sample or more.
#[inline(always)]
fn is_far(a: i16, b: i16) -> bool
    ensures { result ≡ nat_le 4 (nat_abs (a -ℤ b)) }
{
    let more = i32::from(a) - i32::from(b);
    more < -3 || more > 3
}

#[inline(always)]
fn are_far(u: Mv, v: Mv) -> bool
    ensures { result ≡ are_far u v }
{
    either(is_far(u.x, v.x), is_far(u.y, v.y))
}

impl MbInfo {
    #[inline(always)]
    pub(crate) fn has_coefficients(&self, block: usize) -> bool
        requires { block < 16 }
        ensures { result ≡ has_bit self.now.coefficients block }
    {
        (self.coefficients >> block) % 2 == 1
    }

    /// The bit of this block alone, in its place.
    #[inline(always)]
    fn coefficient_bit(&self, block: usize) -> u16
        requires { block < 16 }
        ensures { (result == 0) ≡ not (has_bit self.now.coefficients block) }
    {
        self.coefficients & (1 << block)
    }

    /// The strength between two blocks of inter macroblocks that have no coefficients.
    #[inline(always)]
    pub(crate) fn motion_strength(&self, q: &MbInfo, blocks: BlockPair) -> u8
        ensures value { result ≡ motion_strength self.now blocks.p q.now blocks.q }
        ensures low { result < 3 }
    {
        u8::from(either(
            self.pictures[blocks.p / 4] != q.pictures[blocks.q / 4],
            are_far(self.vectors[blocks.p], q.vectors[blocks.q]),
        ))
    }

    /// The strength between two blocks of inter macroblocks, which is `by_motion` where they have
    /// no coefficients.
    #[inline(always)]
    pub(crate) fn strength_over(&self, q: &MbInfo, blocks: BlockPair, by_motion: u8) -> u8
        requires { by_motion < 3 }
        ensures value { result ≡
            (if has_bit self.now.coefficients blocks.p || has_bit q.now.coefficients blocks.q
            then 2 else by_motion) }
        ensures low { result < 3 }
    {
        // bits that stay in their places: so those of four blocks are looked at together
        let bits = self.coefficient_bit(blocks.p) | q.coefficient_bit(blocks.q);
        if bits == 0 { by_motion } else { 2 }
    }

    /// The strength between two blocks of inter macroblocks.
    #[inline(always)]
    pub(crate) fn inter_strength(&self, q: &MbInfo, blocks: BlockPair) -> u8
        ensures value { result ≡ inter_strength self.now blocks.p q.now blocks.q }
        ensures low { result < 3 }
    {
        let by_motion = self.motion_strength(q, blocks);
        self.strength_over(q, blocks, by_motion)
    }
}

/// The filter strength bS between luma block `p_block` of macroblock `p` and luma block `q_block`
/// of macroblock `q` (8.7.2.1), 0 to 4. `is_inside` says that they are one macroblock.
pub fn strength(p: &MbInfo, p_block: usize, q: &MbInfo, q_block: usize, is_inside: bool) -> u8
    requires p { p_block < 16 }
    requires q { q_block < 16 }
    ensures { (c : Coded) (motion : List (List Motion)) (names : Names) (ap aq : ℕ) →
        HasInfo c motion names ap p.now → HasInfo c motion names aq q.now → is_inside ≡ (ap == aq) →
        result ≡ strength_between c motion ap p_block aq q_block }
{
    if p.is_intra || q.is_intra {
        if is_inside { 3 } else { 4 }
    } else {
        let blocks = BlockPair {
            p: p_block,
            q: q_block,
        };
        p.inter_strength(q, blocks)
    }
}
