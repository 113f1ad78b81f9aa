//! What strengths ask of the luma blocks of a macroblock (8.7.2.1), in rows of four blocks: one
//! look at all of them.

ghost use Rattle.std.specs.Prelude.{◌≡◌, ℕ, ◌+◌, ◌-◌, ◌*◌, ◌%◌, ◌<◌, ◌≤◌, pos, ◌+ℤ◌};
ghost use Rattle.std.specs.Prelude.{slice_index_or, true, false, min, max};
ghost use Rattle.avc_types.specs.Arithmetic.{distance};
ghost use Rattle.avc_motion.specs.Motion.{zero_vector};
ghost use Rattle.avc_deblock.specs.declared.mb_info.MbInfo.{MbInfo as Info};
ghost use Rattle.avc_deblock.specs.BlockRows.{AreRowsOf, HoldsBlock};
ghost use Rattle.avc_deblock.specs.FilterInfo.{edge_block, inter_strength};

use crate::mb_info::MbInfo;
use avc_types::Mv;
use std::simd::prelude::*;

/// Of the components of vectors in block order, those of blocks in rows.
const ROWS: [usize; 32] = [
    0, 1, 2, 3, 8, 9, 10, 11, 4, 5, 6, 7, 12, 13, 14, 15, 16, 17, 18, 19, 24, 25, 26, 27, 20, 21,
    22, 23, 28, 29, 30, 31,
];

/// The quarters that blocks in rows lie in.
const QUARTERS: [usize; 16] = [0, 0, 1, 1, 0, 0, 1, 1, 2, 2, 3, 3, 2, 2, 3, 3];

/// The bits of blocks in rows, in a mask by block order.
const BITS: [u16; 16] = [
    1, 2, 16, 32, 4, 8, 64, 128, 256, 512, 4096, 8192, 1024, 2048, 16384, 32768,
];

/// The block left of each: of the macroblock there, or from 16 on of this one.
const LEFT: [usize; 16] = [3, 16, 17, 18, 7, 20, 21, 22, 11, 24, 25, 26, 15, 28, 29, 30];

/// The components of its vector.
const LEFT_COMPONENTS: [usize; 32] = [
    6, 7, 32, 33, 34, 35, 36, 37, 14, 15, 40, 41, 42, 43, 44, 45, 22, 23, 48, 49, 50, 51, 52, 53,
    30, 31, 56, 57, 58, 59, 60, 61,
];

/// The block above each.
const ABOVE: [usize; 16] = [
    12, 13, 14, 15, 16, 17, 18, 19, 20, 21, 22, 23, 24, 25, 26, 27,
];

/// The components of its vector.
const ABOVE_COMPONENTS: [usize; 32] = [
    24, 25, 26, 27, 28, 29, 30, 31, 32, 33, 34, 35, 36, 37, 38, 39, 40, 41, 42, 43, 44, 45, 46, 47,
    48, 49, 50, 51, 52, 53, 54, 55,
];

/// The first components of vectors, and the second ones.
const X: [usize; 16] = [0, 2, 4, 6, 8, 10, 12, 14, 16, 18, 20, 22, 24, 26, 28, 30];

const Y: [usize; 16] = [1, 3, 5, 7, 9, 11, 13, 15, 17, 19, 21, 23, 25, 27, 29, 31];

/// A whole sample is four quarters: components that differ by more than these are far apart.
const NEAR: u16 = 3;

/// A component of a vector, raised by 2^15: so their order is that of numbers without a sign.
#[inline(always)]
fn raised(component: i16) -> u16
    ensures { pos result ≡ component +ℤ pos 32768 }
{
    (i32::from(component) + 32768) as u16
}

/// The raised components of vectors, one vector behind the other.
#[inline(always)]
fn raised_components(vectors: &[Mv; 16]) -> [u16; 32]
    ensures x { (k : ℕ) → k < 16 → pos (slice_index_or result (2 * k) 0)
        ≡ (slice_index_or vectors.now k zero_vector).x +ℤ pos 32768 }
    ensures y { (k : ℕ) → k < 16 → pos (slice_index_or result (2 * k + 1) 0)
        ≡ (slice_index_or vectors.now k zero_vector).y +ℤ pos 32768 }
{
    let mut out = [0; 32];
    for k in 0..16 {
        out[2 * k] = raised(vectors[k].x);
        out[2 * k + 1] = raised(vectors[k].y);
    }
    out
}

/// The greater of each two numbers.
#[inline(always)]
fn greater(u: u16x16, v: u16x16) -> u16x16
    ensures { (k : ℕ) → k < 16 → slice_index_or result k 0
        ≡ max (slice_index_or u k 0) (slice_index_or v k 0) }
{
    u.simd_max(v)
}

/// How far each two numbers are from each other.
#[inline(always)]
fn distances<const N: usize>(u: Simd<u16, N>, v: Simd<u16, N>) -> Simd<u16, N>
    ensures { (k : ℕ) → k < N → slice_index_or result k 0
        ≡ distance (slice_index_or u.entry k 0) (slice_index_or v.entry k 0) }
{
    u.simd_max(v) - u.simd_min(v)
}

/// How much further than `NEAR` they are, and 0 where they are not.
#[inline(always)]
fn excesses(u: u16x32, v: u16x32) -> u16x32
    ensures { (k : ℕ) → k < 32 → slice_index_or result k 0
        ≡ distance (slice_index_or u k 0) (slice_index_or v k 0) - 3 }
{
    let near = u16x32::splat(NEAR);
    distances(u, v).simd_max(near) - near
}

/// 2 where there are coefficients, and else 1 where blocks move differently, each told by a number
/// that is not 0.
#[inline(always)]
fn strengths_by(moves: u16x16, coded: u16x16) -> u8x16
    ensures { (k : ℕ) → k < 16 → slice_index_or result k 0
        ≡ max (2 * min (slice_index_or coded k 0) 1) (min (slice_index_or moves k 0) 1) }
{
    let one = u16x16::splat(1);
    let some = coded.simd_min(one);
    greater(some + some, moves.simd_min(one)).cast::<u8>()
}

/// What strengths ask of sixteen blocks, in four rows of four.
#[derive(Clone, Copy)]
pub(crate) struct BlockRows {
    /// The raised components of their vectors.
    vectors: u16x32,

    /// The numbers of their reference pictures.
    pictures: u16x16,

    /// 0 where a block has no transform coefficient level but 0.
    coded: u16x16,
}

impl BlockRows {
    /// What stands for those of an intra macroblock, of which nothing is asked.
    #[inline(always)]
    pub(crate) fn none() -> BlockRows {
        BlockRows {
            vectors: u16x32::splat(0),
            pictures: u16x16::splat(0),
            coded: u16x16::splat(0),
        }
    }

    /// Those of an inter macroblock.
    #[inline(always)]
    pub(crate) fn of(mb: &MbInfo) -> BlockRows
        ensures { AreRowsOf result mb.now }
    {
        BlockRows {
            vectors: u16x32::from_array(raised_components(&mb.vectors)).swizzle(ROWS),
            pictures: u8x4::from_array(mb.pictures)
                .swizzle(QUARTERS)
                .cast::<u16>(),
            coded: u16x16::splat(mb.coefficients) & u16x16::from_array(BITS),
        }
    }

    /// The blocks left of these, the first of each row in the macroblock that has `left`.
    #[inline(always)]
    pub(crate) fn beside(self, left: BlockRows) -> BlockRows
        ensures outer { (p : Info) → AreRowsOf left p → (k : ℕ) → k < 4 →
            HoldsBlock result (4 * k) p (edge_block true 3 k) }
        ensures inner { (q : Info) → AreRowsOf self q → (n k : ℕ) → 1 ≤ n → n < 4 → k < 4 →
            HoldsBlock result (4 * k + n) q (edge_block true ((n + 3) % 4) k) }
    {
        BlockRows {
            vectors: left.vectors.shuffle(self.vectors, LEFT_COMPONENTS),
            pictures: left.pictures.shuffle(self.pictures, LEFT),
            coded: left.coded.shuffle(self.coded, LEFT),
        }
    }

    /// The blocks above these, those of the first row in the macroblock that has `above`.
    #[inline(always)]
    pub(crate) fn below(self, above: BlockRows) -> BlockRows
        ensures outer { (p : Info) → AreRowsOf above p → (k : ℕ) → k < 4 →
            HoldsBlock result k p (edge_block false 3 k) }
        ensures inner { (q : Info) → AreRowsOf self q → (n k : ℕ) → 1 ≤ n → n < 4 → k < 4 →
            HoldsBlock result (4 * n + k) q (edge_block false ((n + 3) % 4) k) }
    {
        BlockRows {
            vectors: above.vectors.shuffle(self.vectors, ABOVE_COMPONENTS),
            pictures: above.pictures.shuffle(self.pictures, ABOVE),
            coded: above.coded.shuffle(self.coded, ABOVE),
        }
    }

    /// The strength between each block and that of `q` in its place, both of inter macroblocks.
    #[inline(always)]
    pub(crate) fn strengths_to(self, q: BlockRows) -> u8x16
        ensures { (place : ℕ) (f g : Info) (j k : ℕ) → place < 16 →
            HoldsBlock self place f j → HoldsBlock q place g k →
            slice_index_or result place 0 ≡ inter_strength f j g k }
    {
        let over = excesses(self.vectors, q.vectors);
        let far = greater(over.swizzle(X), over.swizzle(Y));
        let moves = greater(far, distances(self.pictures, q.pictures));
        strengths_by(moves, greater(self.coded, q.coded))
    }
}
