//! Luma sample interpolation (8.4.2.2.1).

ghost use Rattle.std.specs.Prelude.{◌≡◌, ℕ, ◌+◌, ◌*◌, ◌/◌, ◌%◌, ◌<◌, ◌≤◌, ◌^◌, pos, ◌+ℤ◌, length};
ghost use Rattle.avc_types.specs.Blocks.{block_of};
ghost use Rattle.avc_plane.specs.Plane.{HasSample, HasRectangle, with_block};
ghost use Rattle.avc_plane.specs.Strided.{IsRoom};
ghost use Rattle.avc_inter.specs.Moved.{quarters_from, predicted_luma};
ghost use Rattle.avc_inter.specs.SixRows.{AreLanes};
ghost use Rattle.avc_inter.specs.Bounds.{IsBlock};

use crate::between::{Extent, lay_between};
use crate::reference::{Rectangle, WholeBlock};
use crate::target::Target;
use crate::vector::{MovedPlace, Quarters, luma_fraction, luma_place};
use crate::whole::{predict_in_place, predict_whole, set_whole};
use avc_plane::{PaddedPlane, Plane, RowsPlace};
use avc_types::{Block, Mv};

/// How many times sixteen samples the rows of a block have, the last ones perhaps not whole.
fn count_of(columns: usize, rows: usize) -> usize
    requires lanes { AreLanes columns }
    requires low { rows ≤ 16 }
    ensures value { result ≡ (rows * columns + 15) / 16 }
    ensures few { result ≤ 16 }
    ensures room { (long : ℕ) → 16 * ((rows * columns + 15) / 16) ≤ long →
        IsRoom columns (16 / columns * result) 0 columns long }
{
    (rows * columns + 15) / 16
}

/// Gives a block the samples between whole ones: in rows of L columns, of which N are room enough,
/// and by a patch of `P` samples where the plane has not all that they ask for.
#[inline(always)]
fn set_between<
    const W: usize,
    const H: usize,
    const PAD: usize,
    const L: usize,
    const N: usize,
    const P: usize,
>(reference: &PaddedPlane<PAD>, at: MovedPlace, beyond: Quarters, block: &mut Block<W, H>)
    requires columns { (1 ≤ W) × (W ≤ L) }
    requires rows { (1 ≤ H) × (H ≤ 16) }
    requires lanes { AreLanes L }
    requires samples { 16 * ((H * L + 15) / 16) ≤ N }
    requires last { H * L + 16 ≤ N + L }
    requires small { N < 65536 }
    requires patch { (16 / L * ((H * L + 15) / 16 + (5 * L + 15) / 16) * (L + 5) ≤ P)
        × (P < 65536) }
    ensures { block.new ≡ block_of W H (quarters_from reference.now at beyond) }
{
    let mut samples = [0; N];
    let to = RowsPlace {
        first: 0,
        stride: L,
    };
    let to = Target { rows: to };
    let extent = Extent {
        count: count_of(L, H),
    };
    lay_between::<L, L, PAD, P>(reference, at, beyond, extent, &mut samples, to);
    block.set_rows(&samples, 0, L);
}

/// Predicts the luma block of W columns and H rows (each 1 to 16) whose upper left sample stands in
/// column `x` and row `y` of the picture, by a vector in quarter samples into the luma plane of a
/// reference picture (8.4.2.2.1). Wherever the vector leads, places outside the plane have its
/// nearest sample.
pub fn luma<const W: usize, const H: usize, const PAD: usize>(
    reference: &PaddedPlane<PAD>,
    x: usize,
    y: usize,
    mv: Mv,
    block: &mut Block<W, H>,
)
    requires block { IsBlock 16 W H }
    requires at { HasSample x y reference.now }
    ensures { block.new ≡ block_of W H (predicted_luma reference.now x y mv) }
{
    let at = luma_place(reference, x, y, mv);
    let beyond = luma_fraction(mv);
    if beyond.right == 0 && beyond.down == 0 {
        set_whole(reference, WholeBlock { at }, block)
    } else if W <= 8 {
        set_between::<W, H, PAD, 8, 144, 286>(reference, at, beyond, block)
    } else {
        set_between::<W, H, PAD, 16, 256, 441>(reference, at, beyond, block)
    }
}

/// Lays the prediction of a luma block between whole samples into its place in a plane: W columns,
/// which are found in rows of L.
// its height is no constant: code for each would take room in the first cache
#[inline(never)]
fn predict_between<const L: usize, const W: usize, const PAD: usize, const P: usize>(
    reference: &PaddedPlane<PAD>,
    x: usize,
    y: usize,
    mv: Mv,
    extent: Extent<L, P>,
    plane: &mut Plane<PAD>,
)
    requires lanes { AreLanes L }
    requires columns { W ≤ L }
    requires block { IsBlock 16 W (16 / L * extent.count) }
    requires at { HasSample x y reference.now }
    requires target { HasRectangle x y W (16 / L * extent.count) plane.old }
    ensures { plane.new ≡ with_block plane.old x y W (16 / L * extent.entry.count)
        (predicted_luma reference.now x y mv) }
{
    let at = luma_place(reference, x, y, mv);
    let beyond = luma_fraction(mv);
    let to = plane.padded_place(x, y);
    let out = plane.padded_rows_mut();
    lay_between::<L, W, PAD, P>(reference, at, beyond, extent, out, Target { rows: to });
}

/// The prediction of an even number of rows, laid into its place in the luma plane of the picture.
pub fn predict_luma<const W: usize, const H: usize, const PAD: usize>(
    reference: &PaddedPlane<PAD>,
    x: usize,
    y: usize,
    mv: Mv,
    plane: &mut Plane<PAD>,
)
    requires block { IsBlock 16 W H }
    requires even { H % 2 ≡ 0 }
    requires at { HasSample x y reference.now }
    requires target { HasRectangle x y W H plane.old }
    ensures { plane.new ≡ with_block plane.old x y W H (predicted_luma reference.now x y mv) }
{
    let Quarters { right, down } = luma_fraction(mv);
    if right == 0 && down == 0 {
        let at = luma_place(reference, x, y, mv);
        predict_whole::<W, H, PAD>(reference, WholeBlock { at }, x, y, plane);
    } else if W <= 4 && H % 4 == 0 {
        predict_between::<4, W, PAD, 216>(reference, x, y, mv, Extent { count: H / 4 }, plane);
    } else if W <= 8 {
        predict_between::<8, W, PAD, 286>(reference, x, y, mv, Extent { count: H / 2 }, plane);
    } else {
        predict_between::<16, W, PAD, 441>(reference, x, y, mv, Extent { count: H }, plane);
    }
}

/// The prediction by the vector 0 of a block that lies in the reference picture, whose samples it
/// takes over.
#[inline(always)]
pub fn copy_luma<const W: usize, const H: usize, const PAD: usize>(
    reference: &PaddedPlane<PAD>,
    x: usize,
    y: usize,
    plane: &mut Plane<PAD>,
)
    requires some { (1 ≤ W) × (1 ≤ H) }
    requires source { HasRectangle x y W H reference.now }
    requires target { HasRectangle x y W H plane.old }
    ensures { (mv : Mv) → mv.x ≡ pos 0 → mv.y ≡ pos 0 → plane.new ≡ with_block plane.old x y W H
        (predicted_luma reference.now x y mv) }
{
    let from = Rectangle {
        plane: reference,
        x,
        y,
    };
    predict_in_place::<W, H, PAD>(from, plane);
}
