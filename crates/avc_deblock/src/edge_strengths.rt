//! The filter strengths along an edge (8.7.2.1).

ghost use Rattle.std.specs.Prelude.{◌≡◌, ℕ, ◌+◌, ◌%◌, ◌<◌, slice_index};
ghost use Rattle.avc_edges.specs.OneEdge.{AreStrengths, strength_along};
ghost use Rattle.avc_deblock.specs.FilterInfo.{edge_block, strength_beside};
ghost use Rattle.avc_deblock.specs.ByInfo.{strength_of};

use crate::mb_info::MbInfo;
use crate::place::{BlockPair, MbEdge};
use avc_edges::Strengths;

impl MbEdge {
    /// The luma block on its q side in its quarter `k`.
    #[inline(always)]
    fn block(self, k: usize) -> usize
        requires { k < 4 }
        ensures value { result ≡ edge_block self.is_vertical self.n k }
        ensures low { result < 16 }
    {
        let n = self.n;
        let (x, y) = if self.is_vertical { (n, k) } else { (k, n) };
        8 * (y / 2) + 4 * (x / 2) + 2 * (y % 2) + x % 2
    }

    /// The luma blocks on its sides in its quarter `k`.
    #[inline(always)]
    pub(crate) fn blocks(self, k: usize) -> BlockPair
        requires { k < 4 }
        ensures p { result.p ≡ edge_block self.is_vertical ((self.n + 3) % 4) k }
        ensures q { result.q ≡ edge_block self.is_vertical self.n k }
    {
        let before = MbEdge {
            is_vertical: self.is_vertical,
            n: (self.n + 3) % 4,
        };
        BlockPair {
            p: before.block(k),
            q: self.block(k),
        }
    }
}

#[inline(always)]
fn inter_strengths(p: &MbInfo, q: &MbInfo, edge: MbEdge) -> [u8; 4]
    ensures value { (k : ℕ) → k < 4 →
        slice_index result k ≡ strength_beside p.now q.now edge.is_vertical edge.n k }
    ensures low { (k : ℕ) → k < 4 → slice_index result k < 4 }
{
    let mut strengths = [0; 4];
    for k in 0..4 {
        strengths[k] = p.inter_strength(q, edge.blocks(k));
    }
    strengths
}

/// The strengths along an edge of macroblock `q`; `p` is the macroblock on the other side.
#[inline(always)]
pub(crate) fn edge_strengths(p: &MbInfo, q: &MbInfo, edge: MbEdge) -> Strengths
    ensures low { AreStrengths result }
    ensures value { (k : ℕ) → k < 4 →
        strength_along result k ≡ strength_of p.now q.now edge.is_vertical edge.n k }
{
    if p.is_intra | q.is_intra {
        if edge.n == 0 {
            Strengths::Four
        } else {
            Strengths::BelowFour([3; 4])
        }
    } else {
        Strengths::BelowFour(inter_strengths(p, q, edge))
    }
}
