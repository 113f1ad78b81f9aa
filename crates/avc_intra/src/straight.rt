//! Vertical and horizontal prediction, for a block of W columns and rows (clauses 8.3.1.2.1,
//! 8.3.1.2.2, 8.3.3.1, 8.3.3.2, 8.3.4.2 and 8.3.4.3).

ghost use Rattle.std.specs.Prelude.{◌≡◌, ◌<◌, ◌≤◌, pos, true, length};
ghost use Rattle.avc_intra.specs.InRows.{IsSeen};
ghost use Rattle.avc_intra.specs.Neighbourhood.{Around, left_of, top};
ghost use Rattle.avc_intra.specs.declared.sides.Sides.{Sides};
ghost use Rattle.avc_plane.specs.Strided.{IsRoom, IsStridedSet};

use crate::beside::above;
use crate::lines::{lay_same_columns, lay_same_lines};
use avc_plane::RowsPlace;

/// Lays the samples above a block into each of its rows.
#[inline(always)]
pub fn lay_vertical<const W: usize>(rows: &mut [u8], at: RowsPlace)
    requires narrow { (0 < W) × (W ≤ 16) }
    requires apart { W ≤ at.stride }
    requires room { IsRoom W W at.first at.stride (length rows.old) }
    ensures { (p : Around) (sides : Sides) → IsSeen p sides W at.first at.stride rows.old →
        sides.above ≡ true →
        IsStridedSet W W at.first at.stride (λ x y. top p (pos x)) rows.old rows.new }
{
    let line = above::<W>(rows, at);
    lay_same_lines::<W, W>(&line, rows, at);
}

/// Lays the samples left of a block into each of its columns.
#[inline(always)]
pub fn lay_horizontal<const W: usize>(rows: &mut [u8], at: RowsPlace)
    requires narrow { (0 < W) × (W ≤ 16) }
    requires apart { W ≤ at.stride }
    requires room { IsRoom W W at.first at.stride (length rows.old) }
    ensures { (p : Around) (sides : Sides) → IsSeen p sides W at.first at.stride rows.old →
        sides.left ≡ true →
        IsStridedSet W W at.first at.stride (λ x y. left_of p (pos y)) rows.old rows.new }
{
    lay_same_columns::<W, W>(rows, at);
}
