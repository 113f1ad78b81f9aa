//! Whole samples, laid into rows or given to a block.

ghost use Rattle.std.specs.Prelude.{◌≡◌, ℕ, ◌+◌, ◌*◌, ◌<◌, pos, ◌+ℤ◌, length};
ghost use Rattle.avc_types.specs.Blocks.{block_of};
ghost use Rattle.avc_plane.specs.Plane.{HasRectangle, sample, clamped, with_block};
ghost use Rattle.avc_inter.specs.Laid.{HasRowsApart, IsLaid};
ghost use Rattle.avc_inter.specs.Moved.{whole_from};

use crate::lines::copy_lines;
use crate::reference::{Rectangle, WholeBlock};
use crate::source::Lines;
use avc_plane::{PaddedPlane, Plane, RowsPlace};
use avc_samples::{fetch_held, find_within, place_inside};
use avc_types::Block;

/// Lays whole samples, each coordinate held inside the plane.
#[cold]
#[inline(never)]
fn lay_held<const W: usize, const H: usize, const PAD: usize>(
    plane: &PaddedPlane<PAD>,
    from: WholeBlock<W, H>,
    out: &mut [u8],
    to: RowsPlace,
)
    requires { HasRowsApart W H to out.old }
    ensures { IsLaid W H to (whole_from plane.now from.entry.at) out.old out.new }
{
    let mut patch = [0; 256];
    fetch_held(plane, from.at.left, from.at.top, W, H, &mut patch);
    let first = RowsPlace {
        first: 0,
        stride: W,
    };
    let lines = Lines {
        samples: &patch,
        from: first,
    };
    copy_lines::<W, H>(lines, out, to);
}

/// Lays whole samples from a place on.
#[inline(always)]
fn lay_whole<const W: usize, const H: usize, const PAD: usize>(
    plane: &PaddedPlane<PAD>,
    from: WholeBlock<W, H>,
    out: &mut [u8],
    to: RowsPlace,
)
    requires { HasRowsApart W H to out.old }
    ensures { IsLaid W H to (whole_from plane.now from.entry.at) out.old out.new }
{
    match find_within(plane, from.at.left, from.at.top, W, H) {
        Some(first) => {
            let lines = Lines {
                samples: plane.padded_rows(),
                from: first,
            };
            copy_lines::<W, H>(lines, out, to);
        }
        None => lay_held::<W, H, PAD>(plane, from, out, to),
    }
}

/// Lays whole samples from a place on into their place in a plane.
// by itself: what a block between whole samples needs is not laid by for it
#[inline(never)]
pub fn predict_whole<const W: usize, const H: usize, const PAD: usize>(
    reference: &PaddedPlane<PAD>,
    from: WholeBlock<W, H>,
    x: usize,
    y: usize,
    plane: &mut Plane<PAD>,
)
    requires { HasRectangle x y W H plane.old }
    ensures { (f : ℕ → ℕ → ℕ) → ((i j : ℕ) → whole_from reference.now from.entry.at i j ≡ f i j) →
        plane.new ≡ with_block plane.old x y W H f }
{
    let to = plane.padded_place(x, y);
    let rows = plane.padded_rows_mut();
    lay_whole::<W, H, PAD>(reference, from, rows, to);
}

/// Lays the samples of a rectangle of a reference plane into the same place in a plane.
#[inline(always)]
pub fn predict_in_place<const W: usize, const H: usize, const PAD: usize>(
    from: Rectangle<'_, W, H, PAD>,
    plane: &mut Plane<PAD>,
)
    requires { HasRectangle from.x from.y W H plane.old }
    ensures { (f : ℕ → ℕ → ℕ) → ((i j : ℕ) →
        clamped from.entry.plane.now.width from.entry.plane.now.height
        (sample from.entry.plane.now) (pos from.entry.x +ℤ pos i) (pos from.entry.y +ℤ pos j)
        ≡ f i j) →
        plane.new ≡ with_block plane.old from.entry.x from.entry.y W H f }
{
    let lines = Lines {
        samples: from.plane.padded_rows(),
        from: place_inside(from.plane, from.x, from.y),
    };
    let to = plane.padded_place(from.x, from.y);
    let rows = plane.padded_rows_mut();
    copy_lines::<W, H>(lines, rows, to);
}

/// Gives a block the whole samples from a place on, each coordinate held inside the plane.
fn set_held<const W: usize, const H: usize, const PAD: usize>(
    plane: &PaddedPlane<PAD>,
    from: WholeBlock<W, H>,
    block: &mut Block<W, H>,
)
    ensures { block.new ≡ block_of W H (whole_from plane.now from.entry.at) }
{
    let mut patch = [0; 272];
    fetch_held(plane, from.at.left, from.at.top, W, H, &mut patch);
    block.set_rows(&patch, 0, W);
}

/// Gives a block the whole samples from a place on.
#[inline(always)]
pub fn set_whole<const W: usize, const H: usize, const PAD: usize>(
    plane: &PaddedPlane<PAD>,
    from: WholeBlock<W, H>,
    block: &mut Block<W, H>,
)
    ensures { block.new ≡ block_of W H (whole_from plane.now from.entry.at) }
{
    match find_within(plane, from.at.left, from.at.top, 16, H) {
        Some(place) => block.set_rows(plane.padded_rows(), place.first, place.stride),
        None => set_held(plane, from, block),
    }
}
