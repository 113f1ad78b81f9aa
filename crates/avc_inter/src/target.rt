//! Rows that a block is written into.

ghost use Rattle.std.specs.Prelude.{◌≤◌};
ghost use Rattle.avc_inter.specs.SixRows.{AreLanes};

use avc_plane::RowsPlace;

/// Where a block is written that is found sixteen samples at a time, in rows of L columns: W of
/// them.
#[derive(Clone, Copy)]
pub struct Target<const L: usize, const W: usize> {
    pub rows: RowsPlace,

    ghost lanes: { AreLanes L },
    ghost columns: { W ≤ L },
    ghost apart: { W ≤ rows.stride },
}
