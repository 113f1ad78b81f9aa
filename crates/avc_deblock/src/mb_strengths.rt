//! The strengths along the edges of a macroblock (8.7.2.1).

ghost use Rattle.std.specs.Prelude.{◌≡◌, ℕ, ◌*◌, ◌+◌, ◌%◌, ◌<◌, ◌≤◌, Bool, slice_index};
ghost use Rattle.std.specs.Prelude.{slice_index_or, true, false};
ghost use Rattle.avc_deblock.specs.declared.mb_info.MbInfo.{MbInfo as Info};
ghost use Rattle.avc_deblock.specs.BlockRows.{AreRowsOf};
ghost use Rattle.avc_deblock.specs.FilterInfo.{strength_beside};
ghost use Rattle.avc_deblock.specs.MbStrengths.{strength_in, AreInside, AreFrom};

use crate::block_rows::BlockRows;
use crate::known_mb::KnownMb;
use crate::mb_info::MbInfo;
use avc_edges::{Strengths, all_three, both};
use std::simd::prelude::*;

/// Of blocks in rows, those in columns.
const COLUMNS: [usize; 16] = [0, 4, 8, 12, 1, 5, 9, 13, 2, 6, 10, 14, 3, 7, 11, 15];

/// The strengths along the edges of a macroblock, four along each; those along its outer edges only
/// where both macroblocks at them are inter macroblocks.
#[derive(Clone, Copy)]
pub(crate) struct MbStrengths {
    /// Along its vertical edges, from its left side on.
    vertical: u8x16,

    /// Along its horizontal edges, from its upper side on.
    horizontal: u8x16,
}

/// Those of four quarters of edge `n`.
#[inline(always)]
fn along(strengths: u8x16, n: usize) -> [u8; 4]
    requires { n < 4 }
    ensures { (k : ℕ) → k < 4 →
        slice_index result k ≡ slice_index_or strengths (4 * n + k) 0 }
{
    match n {
        0 => strengths.extract::<0, 4>().to_array(),
        1 => strengths.extract::<4, 4>().to_array(),
        2 => strengths.extract::<8, 4>().to_array(),
        _ => strengths.extract::<12, 4>().to_array(),
    }
}

impl MbStrengths {
    /// Those between the blocks of an inter macroblock, and to the blocks on the other side of its
    /// left and of its upper edge.
    #[inline(always)]
    fn of_blocks(own: BlockRows, left: BlockRows, above: BlockRows) -> MbStrengths
        ensures inside { (q : Info) → AreRowsOf own q →
            (v : Bool) (n k : ℕ) → 1 ≤ n → n < 4 → k < 4 →
            strength_in result v n k ≡ strength_beside q q v n k }
        ensures left { (p q : Info) → AreRowsOf left p → AreRowsOf own q → (k : ℕ) → k < 4 →
            strength_in result true 0 k ≡ strength_beside p q true 0 k }
        ensures above { (p q : Info) → AreRowsOf above p → AreRowsOf own q → (k : ℕ) → k < 4 →
            strength_in result false 0 k ≡ strength_beside p q false 0 k }
    {
        MbStrengths {
            vertical: own.beside(left).strengths_to(own).swizzle(COLUMNS),
            horizontal: own.below(above).strengths_to(own),
        }
    }

    /// Those of macroblock `mb`. `left` and `above` are the macroblocks there, and any where there
    /// is none.
    #[inline(always)]
    pub(crate) fn of(mb: KnownMb<'_>, left: KnownMb<'_>, above: &MbInfo) -> MbStrengths
        ensures inside { AreInside result mb.entry.info.now }
        ensures left { AreFrom result true left.entry.info.now mb.entry.info.now }
        ensures above { AreFrom result false above.now mb.entry.info.now }
    {
        if mb.info.is_intra {
            let three = u8x16::splat(3);
            return MbStrengths {
                vertical: three,
                horizontal: three,
            };
        }
        MbStrengths::of_blocks(mb.blocks, left.blocks, BlockRows::of(above))
    }

    /// Those along edge `n` from the left side on where it is vertical, else from the upper side on.
    #[inline(always)]
    pub(crate) fn at(&self, is_vertical: bool, n: usize) -> [u8; 4]
        requires { n < 4 }
        ensures { (k : ℕ) → k < 4 →
            slice_index result k ≡ strength_in self.now is_vertical n k }
    {
        if is_vertical {
            along(self.vertical, n)
        } else {
            along(self.horizontal, n)
        }
    }

    /// Along the three edges inside the macroblock of this direction all are 0.
    #[inline(always)]
    fn are_zero_along(&self, is_vertical: bool) -> bool
        ensures { result ≡ true → (n k : ℕ) → 1 ≤ n → n < 4 → k < 4 →
            strength_in self.now is_vertical n k ≡ 0 }
    {
        all_three(
            Strengths::BelowFour(self.at(is_vertical, 1)).are_zero(),
            Strengths::BelowFour(self.at(is_vertical, 2)).are_zero(),
            Strengths::BelowFour(self.at(is_vertical, 3)).are_zero(),
        )
    }

    /// Along all edges inside the macroblock they are 0.
    #[inline(always)]
    pub(crate) fn are_zero_inside(&self) -> bool
        ensures { result ≡ true → (v : Bool) (n k : ℕ) → 1 ≤ n → n < 4 → k < 4 →
            strength_in self.now v n k ≡ 0 }
    {
        both(self.are_zero_along(true), self.are_zero_along(false))
    }
}
