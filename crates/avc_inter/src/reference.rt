//! What is read of a reference plane.

ghost use Rattle.std.specs.Prelude.{◌≤◌};
ghost use Rattle.avc_plane.specs.Plane.{HasRectangle};
ghost use Rattle.avc_inter.specs.Bounds.{IsBlock};

use crate::vector::MovedPlace;
use avc_plane::PaddedPlane;

/// Where a block of W columns and H rows of whole samples begins, each coordinate of which is held
/// inside the plane.
#[derive(Clone, Copy)]
pub struct WholeBlock<const W: usize, const H: usize> {
    pub at: MovedPlace,

    ghost small: { IsBlock 16 W H },
}

/// A rectangle of W columns and H rows, whose upper left sample is in column `x` and row `y` of the
/// plane.
#[derive(Clone, Copy)]
pub struct Rectangle<'a, const W: usize, const H: usize, const PAD: usize> {
    pub plane: &'a PaddedPlane<PAD>,
    pub x: usize,
    pub y: usize,

    ghost some_columns: { 1 ≤ W },
    ghost some_rows: { 1 ≤ H },
    ghost inside: { HasRectangle x y W H plane.now },
}
