//! Skipped macroblocks that stand still, whose samples are copied many at a time (8.4.2.2).

ghost use Rattle.std.specs.Prelude.{◌≡◌, ℕ, ◌+◌, ◌*◌, ◌<◌, ◌≤◌, Ok, length, slice_index};
ghost use Rattle.avc_types.specs.Macroblock.{p_skip};
ghost use Rattle.avc_neigh.specs.Around.{info_of};
ghost use Rattle.avc_motion.specs.Motion.{still_blocks};
ghost use Rattle.avc_plane.specs.Frames.{padded_planes_of, planes_of, AreSized};
ghost use Rattle.avc_plane.specs.Plane.{HasRectangle, sample};
ghost use Rattle.avc_picture_core.specs.Built.{Place};
ghost use Rattle.avc_picture_core.specs.Canvas.{address_of, IsBuilt, IsPlaceOn};
ghost use Rattle.avc_picture_core.specs.CanvasFields.{with_planes};
ghost use Rattle.avc_picture_core.specs.References.{AreUsable};
ghost use Rattle.avc_picture_core.specs.Still.{AreInPlace, CoverRun, with_rectangle_of};
ghost use Rattle.avc_picture_core.specs.Still.{with_run_of, IsPieceOf};

use crate::canvas::{Canvas, Sources};
use crate::places::MbPlace;
use avc_neigh::NeighbourInfo;
use avc_plane::{PaddedPlane, PaddedPlanes, Plane, Planes};
use avc_types::Mb;

/// So many samples of row `y` of a plane, from column `left` on.
#[inline(always)]
fn line_of<const PAD: usize>(from: &PaddedPlane<PAD>, left: usize, y: usize, width: usize) -> &[u8]
    requires line { HasRectangle left y width 1 from.now }
    ensures long { length result.now ≡ width }
    ensures samples { (x : ℕ) → x < width → slice_index result.now x
        ≡ sample from.now (left + x) y }
{
    let stride = from.stride();
    let _lines = from.height();
    let start = (y + PAD) * stride + (left + PAD);
    &from.padded_rows()[start..start + width]
}

/// How many samples are copied at once: as many as vectors of 32 bytes hold, which take them without
/// a call. A call for all of a row of macroblocks takes as much time or more.
const PIECE: usize = 256;

/// Copies `count` samples to the same place of other rows, at once.
fn copy_piece(from: &[u8], start: usize, count: usize, rows: &mut [u8])
    requires source { start + count ≤ length from.now }
    requires target { start + count ≤ length rows.old }
    ensures { IsPieceOf from.now start count rows.old rows.new }
{
    rows[start..start + count].copy_from_slice(&from[start..start + count]);
}

/// Copies `count` samples to the same place of other rows, piece by piece.
fn copy_pieces(from: &[u8], start: usize, count: usize, rows: &mut [u8])
    requires source { start + count ≤ length from.now }
    requires target { start + count ≤ length rows.old }
    ensures { IsPieceOf from.now start count rows.old rows.new }
{
    let pieces = count / PIECE;
    for piece in 0..pieces {
        copy_piece(from, start + piece * PIECE, PIECE, rows);
    }
    let copied = pieces * PIECE;
    copy_piece(from, start + copied, count - copied, rows);
}

/// Copies rows of a plane to the same place of another of its width, with the padding between them.
fn copy_rows<const PAD: usize>(
    from: &PaddedPlane<PAD>,
    top: usize,
    height: usize,
    plane: &mut Plane<PAD>,
)
    requires width { plane.old.width ≡ from.now.width }
    requires from_rows { top + height ≤ from.now.height }
    requires rows { top + height ≤ plane.old.height }
    ensures { plane.new ≡ with_rectangle_of from.now 0 top from.now.width height plane.old }
{
    let stride = from.stride();
    let _lines = from.height();
    let start = (top + PAD) * stride;
    let rows = plane.padded_rows_mut();
    copy_pieces(from.padded_rows(), start, height * stride, rows);
}

/// Copies a rectangle of a plane to the same place of another, row by row, or all at once where it
/// is as wide as both.
fn copy_rectangle<const PAD: usize>(
    from: &PaddedPlane<PAD>,
    left: usize,
    top: usize,
    width: usize,
    height: usize,
    plane: &mut Plane<PAD>,
)
    requires source { HasRectangle left top width height from.now }
    requires target { HasRectangle left top width height plane.old }
    ensures { plane.new ≡ with_rectangle_of from.now left top width height plane.old }
{
    let _columns = from.width();
    let _lines = from.height();
    if width == from.width() && width == plane.width() {
        copy_rows(from, top, height, plane);
        return;
    }
    plane.holds_bytes();
    for row in 0..height {
        let line = line_of(from, left, top + row, width);
        plane.set_block(left, top + row, width, 1, line);
    }
}

/// Copies `count` macroblocks of a row, from this one on, to the same place of other planes.
pub fn copy_run<const PAD: usize>(
    from: &PaddedPlanes<PAD>,
    place: MbPlace,
    count: usize,
    planes: &mut Planes<PAD>,
)
    requires from { CoverRun place.column place.row count (padded_planes_of from.now) }
    requires planes { CoverRun place.column place.row count (planes_of planes.old) }
    ensures { planes_of planes.new ≡ with_run_of (padded_planes_of from.now) place.column place.row
        count (planes_of planes.old) }
{
    let _columns = from.luma.width();
    let _lines = from.luma.height();
    let (left, top, width) = (16 * place.column, 16 * place.row, 16 * count);
    copy_rectangle(&from.luma, left, top, width, 16, &mut planes.luma);
    let (left, top, width) = (8 * place.column, 8 * place.row, 8 * count);
    copy_rectangle(&from.cb, left, top, width, 8, &mut planes.cb);
    copy_rectangle(&from.cr, left, top, width, 8, &mut planes.cr);
}

/// Builds the skipped macroblock at this place, which stands still, in planes that have its samples
/// already: nothing is left to be done.
pub fn build_in_place<const PAD: usize>(
    canvas: &Canvas,
    planes: &Planes<PAD>,
    place: MbPlace,
    mb: &Mb,
    info: &NeighbourInfo,
    sources: &Sources<'_, PAD>,
)
    requires column { place.column < canvas.now.width }
    requires row { place.row < canvas.now.height }
    requires sized { AreSized canvas.now.width canvas.now.height (planes_of planes.now) }
    requires references { AreUsable canvas.now.width canvas.now.height sources.now.references.now }
    requires skipped { mb.now.syntax ≡ p_skip }
    requires still { info.now.motion ≡ still_blocks }
    requires samples { AreInPlace sources.now.references.now place.column place.row 1
        (planes_of planes.now) }
    ensures { (p : Place) →
        IsPlaceOn (with_planes canvas.now (planes_of planes.now))
        (address_of canvas.now.width place) mb.now info.now
        (info_of sources.now.neighbours) sources.now.references.now p →
        IsBuilt p (Ok tt) (with_planes canvas.now (planes_of planes.now))
        (with_planes canvas.now (planes_of planes.now)) }
{
    planes.luma.holds_bytes();
    planes.cb.holds_bytes();
    planes.cr.holds_bytes();
}
