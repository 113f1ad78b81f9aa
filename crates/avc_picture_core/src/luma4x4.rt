//! The luma of an I_NxN macroblock: each 4x4 block from those before it (8.3.1.2).
ghost use Rattle.std.specs.Prelude.{◌≡◌, ℕ, ◌+◌, ◌*◌, ◌<◌, true, [], slice_index_or};
ghost use Rattle.std.specs.List.{list_all, range_with_len};
ghost use Rattle.std.specs.Option.{unwrap_or};
ghost use Rattle.avc_types.specs.MacroblockFields.{residual_of};
ghost use Rattle.avc_neigh.specs.declared.neighbour_info.NearMode.TheVariants.{Absent as absent};
ghost use Rattle.avc_mbsyntax.specs.Ranges.{AreSmall};
ghost use Rattle.avc_transform.specs.Residual.{residual4x4};
ghost use Rattle.avc_transform.specs.MacroblockResidual.{luma_residual};
ghost use Rattle.avc_plane.specs.Plane.{HasRectangle, with_block};
ghost use Rattle.avc_intra.specs.Luma4x4.{can_predict4x4, intra4x4, mode4x4_of};
ghost use Rattle.avc_picture_core.specs.Built.{Place, mode_number, seen_from, sum_of};
ghost use Rattle.avc_picture_core.specs.Built.{with_block4x4, with_blocks4x4};
ghost use Rattle.avc_picture_core.specs.Nxn.{IsNxnAt};
ghost use Rattle.avc_picture_core.specs.Places.{HasMacroblock};
ghost use Rattle.avc_picture_core.specs.Sides.{AreInside, readable_sides};

use crate::corner::{first_column, first_row};
use crate::levels::Levels4x4;
use crate::modes::{BlockModes, mode4x4};
use crate::places::MbPlace;
use crate::residual::{Quantiser, add_block4x4, left_of_block, top_of_block};
use crate::sides::ReadableNeighbours;
use avc_intra::{Mode4x4, Sides, lay4x4};
use avc_plane::Plane;
use avc_types::Levels;

/// Each block has the sides that its mode needs.
pub(crate) fn has_sides4x4(readable: ReadableNeighbours, modes: BlockModes<'_>) -> bool
    ensures { result
        ≡ list_all (λ k. can_predict4x4 (readable_sides readable k)
        (mode4x4_of (mode_number (slice_index_or modes.entry.in_order.now k absent))))
        (range_with_len 0 16) }
{
    if readable.has_corner_neighbours() {
        return true;
    }
    for k in 0..16 {
        if !mode4x4(modes.in_order[k]).is_available(readable.sides(k)) {
            return false;
        }
    }
    true
}

/// Gives one block, whose upper left sample stands at (left, top) of the plane, its prediction.
fn predict_block<const PAD: usize>(
    plane: &mut Plane<PAD>,
    left: usize,
    top: usize,
    sides: Sides,
    mode: Mode4x4,
)
    requires block { HasRectangle left top 4 4 plane.old }
    requires mode { can_predict4x4 sides mode ≡ true }
    ensures size { (plane.new.width ≡ plane.old.width) × (plane.new.height ≡ plane.old.height) }
    ensures samples { AreInside left top plane.old.width sides →
        plane.new ≡ with_block plane.old left top 4 4
        (λ x y. unwrap_or (intra4x4 sides (seen_from plane.old left top) mode x y) 0) }
{
    let at = plane.padded_place(left, top);
    lay4x4(plane.padded_rows_mut(), at, sides, mode);
}

/// Builds one block.
fn build_block<const PAD: usize>(
    plane: &mut Plane<PAD>,
    left: usize,
    top: usize,
    sides: Sides,
    mode: Mode4x4,
    levels: &Levels<16>,
    qp: Quantiser,
)
    requires block { HasRectangle left top 4 4 plane.old }
    requires mode { can_predict4x4 sides mode ≡ true }
    requires levels { AreSmall levels.now }
    ensures size { (plane.new.width ≡ plane.old.width) × (plane.new.height ≡ plane.old.height) }
    ensures block { AreInside left top plane.old.width sides →
        plane.new ≡ with_block plane.old left top 4 4
        (λ x y. sum_of (unwrap_or (intra4x4 sides (seen_from plane.old left top) mode x y) 0)
        (residual4x4 qp.value levels.now x y)) }
{
    predict_block(plane, left, top, sides, mode);
    add_block4x4(plane, left, top, levels, qp);
}

/// Builds block `k`.
// where a part of its number is known, little of its place and its sides is left to be computed
#[inline(always)]
fn build_numbered<const PAD: usize>(
    plane: &mut Plane<PAD>,
    place: MbPlace,
    readable: ReadableNeighbours,
    modes: BlockModes<'_>,
    levels: Levels4x4<'_>,
    qp: Quantiser,
    k: usize,
)
    requires macroblock { HasMacroblock 16 place.column place.row plane.old }
    requires number { k < 16 }
    requires sides { (j : ℕ) → j < 16 →
        can_predict4x4 (readable_sides readable j)
        (mode4x4_of (mode_number (slice_index_or modes.in_order.now j absent))) ≡ true }
    ensures size { (plane.new.width ≡ plane.old.width) × (plane.new.height ≡ plane.old.height) }
    ensures block { (p : Place) →
        IsNxnAt place.column place.row plane.old.width readable modes.entry.in_order.now qp.value
        (residual_of [] levels.entry.blocks.now) p →
        plane.new ≡ with_block4x4 p k plane.old }
{
    let left = first_column(plane, 16, place.column) + left_of_block(k);
    let top = first_row(plane, 16, place.row) + top_of_block(k);
    let mode = mode4x4(modes.in_order[k]);
    let blocks = levels.blocks;
    let sides = readable.sides(k);
    build_block(plane, left, top, sides, mode, &blocks.luma[k], qp);
}

/// Builds all blocks, quarter by quarter.
pub(crate) fn build_luma4x4<const PAD: usize>(
    plane: &mut Plane<PAD>,
    place: MbPlace,
    readable: ReadableNeighbours,
    modes: BlockModes<'_>,
    levels: Levels4x4<'_>,
    qp: Quantiser,
)
    requires macroblock { HasMacroblock 16 place.column place.row plane.old }
    requires sides { (k : ℕ) → k < 16 →
        can_predict4x4 (readable_sides readable k)
        (mode4x4_of (mode_number (slice_index_or modes.in_order.now k absent))) ≡ true }
    ensures size { (plane.new.width ≡ plane.old.width) × (plane.new.height ≡ plane.old.height) }
    ensures blocks { (p : Place) →
        IsNxnAt place.column place.row plane.old.width readable modes.entry.in_order.now qp.value
        (residual_of [] levels.entry.blocks.now) p →
        plane.new ≡ with_blocks4x4 p 16 plane.old }
{
    for quarter in 0..4 {
        let first = 4 * quarter;
        build_numbered(plane, place, readable, modes, levels, qp, first);
        build_numbered(plane, place, readable, modes, levels, qp, first + 1);
        build_numbered(plane, place, readable, modes, levels, qp, first + 2);
        build_numbered(plane, place, readable, modes, levels, qp, first + 3);
    }
}
