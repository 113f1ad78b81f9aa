//! Chroma sample interpolation (8.4.2.2.2).

ghost use Rattle.std.specs.Prelude.{◌≡◌, ℕ, ◌+◌, ◌%◌, ◌<◌, ◌≤◌, pos, ◌+ℤ◌, length};
ghost use Rattle.avc_types.specs.Blocks.{block_of};
ghost use Rattle.avc_plane.specs.Plane.{HasSample, HasRectangle, with_block};
ghost use Rattle.avc_inter.specs.Moved.{eighths_from, predicted_chroma};
ghost use Rattle.avc_inter.specs.Bounds.{IsBlock};

use crate::chroma_between::lay_eighths;
use crate::reference::{Rectangle, WholeBlock};
use crate::target::Target;
use crate::vector::{Eighths, MovedPlace, chroma_fraction, chroma_place};
use crate::whole::{predict_in_place, predict_whole, set_whole};
use avc_plane::{PaddedPlane, Plane, RowsPlace};
use avc_types::{Block, Mv};

/// Gives a block the samples between whole ones.
fn set_between<const W: usize, const H: usize, const PAD: usize>(
    reference: &PaddedPlane<PAD>,
    at: MovedPlace,
    beyond: Eighths,
    block: &mut Block<W, H>,
)
    requires block { IsBlock 8 W H }
    ensures { block.new ≡ block_of W H (eighths_from reference.now at beyond) }
{
    let mut samples = [0; 72];
    let to = RowsPlace {
        first: 0,
        stride: 8,
    };
    let to = Target { rows: to };
    lay_eighths::<8, 8, PAD>(reference, at, beyond, (H + 1) / 2, &mut samples, to);
    block.set_rows(&samples, 0, 8);
}

/// Predicts the chroma block of W columns and H rows (each 1 to 8) whose upper left sample stands
/// in column `x` and row `y` of a chroma plane, by a luma vector, which counts eighths of chroma
/// samples, into that plane of a reference picture (8.4.2.2.2).
pub fn chroma<const W: usize, const H: usize, const PAD: usize>(
    reference: &PaddedPlane<PAD>,
    x: usize,
    y: usize,
    mv: Mv,
    block: &mut Block<W, H>,
)
    requires block { IsBlock 8 W H }
    requires at { HasSample x y reference.now }
    ensures { block.new ≡ block_of W H (predicted_chroma reference.now x y mv) }
{
    let at = chroma_place(reference, x, y, mv);
    let beyond = chroma_fraction(mv);
    if beyond.right == 0 && beyond.down == 0 {
        set_whole(reference, WholeBlock { at }, block)
    } else {
        set_between(reference, at, beyond, block)
    }
}

/// Lays the prediction of a chroma block into its place in a plane, by all samples that one between
/// whole ones needs.
#[inline(never)]
fn predict_between<const W: usize, const H: usize, const PAD: usize>(
    reference: &PaddedPlane<PAD>,
    x: usize,
    y: usize,
    mv: Mv,
    plane: &mut Plane<PAD>,
)
    requires block { IsBlock 8 W H }
    requires even { H % 2 ≡ 0 }
    requires at { HasSample x y reference.now }
    requires target { HasRectangle x y W H plane.old }
    ensures { plane.new ≡ with_block plane.old x y W H (predicted_chroma reference.now x y mv) }
{
    let at = chroma_place(reference, x, y, mv);
    let beyond = chroma_fraction(mv);
    let to = plane.padded_place(x, y);
    let out = plane.padded_rows_mut();
    if W <= 4 && H % 4 == 0 {
        lay_eighths::<4, W, PAD>(reference, at, beyond, H / 4, out, Target { rows: to });
    } else {
        lay_eighths::<8, W, PAD>(reference, at, beyond, H / 2, out, Target { rows: to });
    }
}

/// The prediction of an even number of rows, laid into its place in the chroma plane of the
/// picture.
pub fn predict_chroma<const W: usize, const H: usize, const PAD: usize>(
    reference: &PaddedPlane<PAD>,
    x: usize,
    y: usize,
    mv: Mv,
    plane: &mut Plane<PAD>,
)
    requires block { IsBlock 8 W H }
    requires even { H % 2 ≡ 0 }
    requires at { HasSample x y reference.now }
    requires target { HasRectangle x y W H plane.old }
    ensures { plane.new ≡ with_block plane.old x y W H (predicted_chroma reference.now x y mv) }
{
    let beyond = chroma_fraction(mv);
    if beyond.right == 0 && beyond.down == 0 {
        let at = chroma_place(reference, x, y, mv);
        predict_whole::<W, H, PAD>(reference, WholeBlock { at }, x, y, plane);
    } else {
        predict_between::<W, H, PAD>(reference, x, y, mv, plane);
    }
}

/// The prediction by the vector 0 of a block that lies in the reference picture, whose samples it
/// takes over.
#[inline(always)]
pub fn copy_chroma<const W: usize, const H: usize, const PAD: usize>(
    reference: &PaddedPlane<PAD>,
    x: usize,
    y: usize,
    plane: &mut Plane<PAD>,
)
    requires some { (1 ≤ W) × (1 ≤ H) }
    requires source { HasRectangle x y W H reference.now }
    requires target { HasRectangle x y W H plane.old }
    ensures { (mv : Mv) → mv.x ≡ pos 0 → mv.y ≡ pos 0 → plane.new ≡ with_block plane.old x y W H
        (predicted_chroma reference.now x y mv) }
{
    let from = Rectangle {
        plane: reference,
        x,
        y,
    };
    predict_in_place::<W, H, PAD>(from, plane);
}
