//! The prediction of both chroma components of a block (8.4.2.2.2).
//!
//! Both have the same vector: places, fractions and weights are found once. A block has `pairs`
//! pairs of rows.

ghost use Rattle.std.specs.Prelude.{◌≡◌, ◌+◌, ◌*◌, ◌/◌, ◌%◌, ◌<◌};
ghost use Rattle.avc_plane.specs.Plane.{HasSample, HasRectangle, with_block};
ghost use Rattle.avc_inter.specs.Moved.{eighths_from, predicted_chroma};
ghost use Rattle.avc_inter.specs.Laid.{HasRows, IsLaid};
ghost use Rattle.avc_inter.specs.Bounds.{IsBlock};

use crate::both::{BothPlaces, BothTargets, ChromaPlanes};
use crate::eighths::{lay_both, lay_rows};
use crate::reference::WholeBlock;
use crate::vector::{Eighths, MovedPlace, chroma_fraction, chroma_place};
use crate::whole::predict_whole;
use avc_plane::{PaddedPlane, Plane, RowsPlace};
use avc_samples::{fetch_held, find_within};
use avc_types::Mv;

/// Lays the samples by patches with each coordinate held inside the planes.
#[cold]
#[inline(never)]
fn lay_far<const W: usize, const PAD: usize>(
    from: ChromaPlanes<'_, PAD>,
    at: MovedPlace,
    beyond: Eighths,
    cb: &mut [u8],
    cr: &mut [u8],
    to: BothTargets<W>,
)
    requires room_cb { HasRows W (2 * to.pairs) to.cb cb.old }
    requires room_cr { HasRows W (2 * to.pairs) to.cr cr.old }
    ensures cb { IsLaid W (2 * to.entry.pairs) to.entry.cb
        (eighths_from from.entry.cb.now at beyond) cb.old cb.new }
    ensures cr { IsLaid W (2 * to.entry.pairs) to.entry.cr
        (eighths_from from.entry.cr.now at beyond) cr.old cr.new }
{
    let mut patch_cb = [0; 81];
    let mut patch_cr = [0; 81];
    let lines = 2 * to.pairs + 1;
    fetch_held(from.cb, at.left, at.top, 9, lines, &mut patch_cb);
    fetch_held(from.cr, at.left, at.top, 9, lines, &mut patch_cr);
    let patch = RowsPlace {
        first: 0,
        stride: 9,
    };
    let patches = BothPlaces {
        cb: patch,
        cr: patch,
    };
    lay_rows::<W>(&patch_cb, &patch_cr, patches, beyond, cb, cr, to);
}

/// Lays the samples between whole ones.
#[inline(always)]
fn lay_eighths<const W: usize, const PAD: usize>(
    from: ChromaPlanes<'_, PAD>,
    at: MovedPlace,
    beyond: Eighths,
    cb: &mut [u8],
    cr: &mut [u8],
    to: BothTargets<W>,
)
    requires room_cb { HasRows W (2 * to.pairs) to.cb cb.old }
    requires room_cr { HasRows W (2 * to.pairs) to.cr cr.old }
    ensures cb { IsLaid W (2 * to.entry.pairs) to.entry.cb
        (eighths_from from.entry.cb.now at beyond) cb.old cb.new }
    ensures cr { IsLaid W (2 * to.entry.pairs) to.entry.cr
        (eighths_from from.entry.cr.now at beyond) cr.old cr.new }
{
    // planes of a picture have one stride: where it is known, each place is found once for both
    if from.cb.stride() != from.cr.stride() || to.cb.stride != to.cr.stride {
        return lay_far::<W, PAD>(from, at, beyond, cb, cr, to);
    }
    let lines = 2 * to.pairs + 1;
    let Some(at_cb) = find_within(from.cb, at.left, at.top, 9, lines) else {
        return lay_far::<W, PAD>(from, at, beyond, cb, cr, to);
    };
    let Some(at_cr) = find_within(from.cr, at.left, at.top, 9, lines) else {
        return lay_far::<W, PAD>(from, at, beyond, cb, cr, to);
    };
    let rows_cb = from.cb.padded_rows();
    let rows_cr = from.cr.padded_rows();
    let places = BothPlaces {
        cb: at_cb,
        cr: at_cr,
    };
    lay_both::<W>(rows_cb, rows_cr, places, beyond, cb, cr, to);
}

/// Lays the prediction into its place in both planes, by all samples that one between whole ones
/// needs.
#[inline(never)]
fn predict_between<const W: usize, const PAD: usize>(
    from: ChromaPlanes<'_, PAD>,
    x: usize,
    y: usize,
    mv: Mv,
    pairs: usize,
    cb: &mut Plane<PAD>,
    cr: &mut Plane<PAD>,
)
    requires block { IsBlock 8 W (2 * pairs) }
    requires at { HasSample x y from.cb.now }
    requires target_cb { HasRectangle x y W (2 * pairs) cb.old }
    requires target_cr { HasRectangle x y W (2 * pairs) cr.old }
    ensures cb { cb.new ≡ with_block cb.old x y W (2 * pairs)
        (predicted_chroma from.entry.cb.now x y mv) }
    ensures cr { cr.new ≡ with_block cr.old x y W (2 * pairs)
        (predicted_chroma from.entry.cr.now x y mv) }
{
    let at = chroma_place(from.cb, x, y, mv);
    let beyond = chroma_fraction(mv);
    let to_cb = cb.padded_place(x, y);
    let to_cr = cr.padded_place(x, y);
    let rows_cb = cb.padded_rows_mut();
    let rows_cr = cr.padded_rows_mut();
    let to = BothTargets {
        cb: to_cb,
        cr: to_cr,
        pairs,
    };
    lay_eighths::<W, PAD>(from, at, beyond, rows_cb, rows_cr, to);
}

/// The predictions of an even number of rows, laid into their places in the chroma planes of the
/// picture.
#[inline(always)]
pub fn predict_both_chroma<const W: usize, const H: usize, const PAD: usize>(
    from_cb: &PaddedPlane<PAD>,
    from_cr: &PaddedPlane<PAD>,
    x: usize,
    y: usize,
    mv: Mv,
    cb: &mut Plane<PAD>,
    cr: &mut Plane<PAD>,
)
    requires block { IsBlock 8 W H }
    requires even { H % 2 ≡ 0 }
    requires at { HasSample x y from_cb.now }
    requires target_cb { HasRectangle x y W H cb.old }
    requires target_cr { HasRectangle x y W H cr.old }
    ensures cb { cb.new ≡ with_block cb.old x y W H (predicted_chroma from_cb.now x y mv) }
    ensures cr { cr.new ≡ with_block cr.old x y W H (predicted_chroma from_cr.now x y mv) }
{
    let beyond = chroma_fraction(mv);
    if beyond.right == 0 && beyond.down == 0 {
        let at = chroma_place(from_cb, x, y, mv);
        predict_whole::<W, H, PAD>(from_cb, WholeBlock { at }, x, y, cb);
        predict_whole::<W, H, PAD>(from_cr, WholeBlock { at }, x, y, cr);
    } else {
        let from = ChromaPlanes {
            cb: from_cb,
            cr: from_cr,
        };
        predict_between::<W, PAD>(from, x, y, mv, H / 2, cb, cr);
    }
}
