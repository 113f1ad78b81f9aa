//! The inter prediction of one rectangle of a macroblock (8.4.2).

ghost use Rattle.std.specs.Prelude.{◌≡◌, ◌+◌, ◌*◌, ◌/◌, ◌%◌, ◌<◌, ◌≤◌, true, None, Some, IfSome};
ghost use Rattle.std.specs.Prelude.{length, map, slice_index};
ghost use Rattle.std.specs.Option.{option_map};
ghost use Rattle.avc_plane.specs.Frames.{planes_of};
ghost use Rattle.avc_plane.specs.Plane.{HasRectangle, sample, with_block};
ghost use Rattle.avc_inter.specs.Bounds.{IsBlock};
ghost use Rattle.avc_inter.specs.Luma.{inter_luma};
ghost use Rattle.avc_inter.specs.Chroma.{inter_chroma};
ghost use Rattle.avc_picture_core.specs.Built.{component_weight, weighted_by};
ghost use Rattle.avc_picture_core.specs.References.{AreWeights, IsWeight};
ghost use Rattle.avc_picture_core.specs.Inter.{CoverPlace, IsCopied};
ghost use Rattle.avc_picture_core.specs.Places.{HasMacroblock};
ghost use Rattle.avc_picture_core.specs.Predicted.{with_moved};

use crate::inter_sources::MovedPicture;
use crate::places::{Corner, MbPlace, Part};
use avc_inter::{
    chroma, copy_chroma, copy_luma, luma, predict_both_chroma, predict_chroma, predict_luma, weight,
};
use avc_plane::{PaddedPlane, Plane, Planes};
use avc_types::{Block, Mv, Weight, Weights};

/// By what component 0, 1 or 2 is weighted.
#[inline(always)]
fn component_weight(weights: Option<Weights>, component: usize) -> Option<Weight>
    requires { component < 3 }
    ensures value { result ≡ option_map (component_weight component) weights }
    ensures within { IfSome weights AreWeights → IfSome result IsWeight }
{
    match weights {
        None => None,
        Some(w) => Some(match component {
            0 => w.luma,
            1 => w.cb,
            _ => w.cr,
        }),
    }
}

/// The weighted samples of a predicted block (8.4.2.3).
#[inline(always)]
fn weighted<const W: usize, const H: usize>(block: &Block<W, H>, by: Weight) -> Block<W, H>
    requires block { IsBlock 16 W H }
    requires weight { IsWeight by }
    ensures { result ≡ map (weighted_by (Some by)) block.now }
{
    weight(block, by.log2_denom, by.weight, by.offset)
}

/// Lays a weighted prediction into the plane.
fn set_weighted<const W: usize, const H: usize, const PAD: usize>(
    plane: &mut Plane<PAD>,
    x: usize,
    y: usize,
    block: &Block<W, H>,
    by: Weight,
)
    requires block { IsBlock 16 W H }
    requires room { HasRectangle x y W H plane.old }
    requires weight { IsWeight by }
    requires long { length block.now ≡ W * H }
    ensures { plane.new
        ≡ with_block plane.old x y W H
        (λ i j. weighted_by (Some by) (slice_index block.now (W * j + i))) }
{
    let samples = weighted(block, by);
    plane.set_block(x, y, W, H, samples.as_slice());
}

/// Predicts a rectangle of luma.
#[tactic(auto, using(crate::proofs::InterTiles::length_block))]
#[inline(always)]
fn set_luma<const W: usize, const H: usize, const PAD: usize>(
    reference: &PaddedPlane<PAD>,
    by: Option<Weight>,
    mv: Mv,
    place: MbPlace,
    corner: Corner,
    plane: &mut Plane<PAD>,
)
    requires columns { (1 ≤ W) × (corner.x + W ≤ 16) }
    requires rows { (1 ≤ H) × (corner.y + H ≤ 16) }
    requires even { H % 2 ≡ 0 }
    requires source { HasMacroblock 16 place.column place.row reference.now }
    requires macroblock { HasMacroblock 16 place.column place.row plane.old }
    requires weight { IfSome by IsWeight }
    ensures { plane.new
        ≡ with_block plane.old (16 * place.column + corner.x) (16 * place.row + corner.y) W H
        (λ x y. weighted_by by
        (inter_luma reference.now.width reference.now.height (sample reference.now) mv
        (16 * place.column + (corner.x + x)) (16 * place.row + (corner.y + y)))) }
{
    let width = reference.width();
    let height = reference.height();
    prove!(16 * place.column + 16 <= width);
    prove!(16 * place.row + 16 <= height);
    let x = 16 * place.column + corner.x;
    let y = 16 * place.row + corner.y;
    match by {
        None => predict_luma::<W, H, PAD>(reference, x, y, mv, plane),
        Some(by) => {
            let mut block = Block::<W, H>::new(0);
            luma(reference, x, y, mv, &mut block);
            set_weighted(plane, x, y, &block, by);
        }
    }
}

/// Predicts a rectangle of Cb or Cr.
#[tactic(auto, using(crate::proofs::InterTiles::length_block))]
#[inline(always)]
fn set_chroma<const W: usize, const H: usize, const PAD: usize>(
    reference: &PaddedPlane<PAD>,
    by: Option<Weight>,
    mv: Mv,
    place: MbPlace,
    corner: Corner,
    plane: &mut Plane<PAD>,
)
    requires columns { (1 ≤ W) × (corner.x + W ≤ 8) }
    requires rows { (1 ≤ H) × (corner.y + H ≤ 8) }
    requires even { H % 2 ≡ 0 }
    requires source { HasMacroblock 8 place.column place.row reference.now }
    requires macroblock { HasMacroblock 8 place.column place.row plane.old }
    requires weight { IfSome by IsWeight }
    ensures { plane.new
        ≡ with_block plane.old (8 * place.column + corner.x) (8 * place.row + corner.y) W H
        (λ x y. weighted_by by
        (inter_chroma reference.now.width reference.now.height (sample reference.now) mv
        (8 * place.column + (corner.x + x)) (8 * place.row + (corner.y + y)))) }
{
    let width = reference.width();
    let height = reference.height();
    prove!(8 * place.column + 8 <= width);
    prove!(8 * place.row + 8 <= height);
    let x = 8 * place.column + corner.x;
    let y = 8 * place.row + corner.y;
    match by {
        None => predict_chroma::<W, H, PAD>(reference, x, y, mv, plane),
        Some(by) => {
            let mut block = Block::<W, H>::new(0);
            chroma(reference, x, y, mv, &mut block);
            set_weighted(plane, x, y, &block, by);
        }
    }
}

/// Whether the samples of a picture are taken over from their places by its vector (8.4.2.2),
/// without a weight (8.4.2.3).
#[inline(always)]
fn is_copied<const PAD: usize>(from: &MovedPicture<'_, '_, PAD>) -> bool
    ensures { result ≡ true → IsCopied from.now.picture.now from.now.mv }
{
    from.mv.x == 0 && from.mv.y == 0 && from.picture.weights.is_none()
}

/// Predicts a part of a macroblock by a vector of 0, without weights.
#[inline(never)]
fn copy_part<const W: usize, const H: usize, const CW: usize, const CH: usize, const PAD: usize>(
    from: MovedPicture<'_, '_, PAD>,
    part: Part<W, H, CW, CH>,
    planes: &mut Planes<PAD>,
)
    requires macroblock { CoverPlace from.place (planes_of planes.old) }
    requires copied { IsCopied from.picture.now from.mv }
    ensures { planes_of planes.new
        ≡ with_moved from.entry part.entry.x part.entry.y W H (planes_of planes.old) }
{
    let reference = from.picture.planes;
    let place = from.place;
    let width = reference.luma.width();
    let height = reference.luma.height();
    prove!(16 * place.column + 16 <= width);
    prove!(16 * place.row + 16 <= height);
    let x = 16 * place.column + part.x;
    let y = 16 * place.row + part.y;
    copy_luma::<W, H, PAD>(&reference.luma, x, y, &mut planes.luma);
    let x = 8 * place.column + part.x / 2;
    let y = 8 * place.row + part.y / 2;
    copy_chroma::<CW, CH, PAD>(&reference.cb, x, y, &mut planes.cb);
    copy_chroma::<CW, CH, PAD>(&reference.cr, x, y, &mut planes.cr);
}

/// Predicts a part of a macroblock without weights.
#[inline(always)]
fn set_plain_part<
    const W: usize,
    const H: usize,
    const CW: usize,
    const CH: usize,
    const PAD: usize,
>(from: &MovedPicture<'_, '_, PAD>, part: Part<W, H, CW, CH>, planes: &mut Planes<PAD>)
    requires macroblock { CoverPlace from.now.place (planes_of planes.old) }
    requires plain { from.now.picture.now.weights ≡ None }
    ensures { planes_of planes.new
        ≡ with_moved from.now part.entry.x part.entry.y W H (planes_of planes.old) }
{
    let reference = from.picture.planes;
    let place = from.place;
    let width = reference.luma.width();
    let height = reference.luma.height();
    prove!(16 * place.column + 16 <= width);
    prove!(16 * place.row + 16 <= height);
    let x = 16 * place.column + part.x;
    let y = 16 * place.row + part.y;
    predict_luma::<W, H, PAD>(&reference.luma, x, y, from.mv, &mut planes.luma);
    let x = 8 * place.column + part.x / 2;
    let y = 8 * place.row + part.y / 2;
    predict_both_chroma::<CW, CH, PAD>(
        &reference.cb,
        &reference.cr,
        x,
        y,
        from.mv,
        &mut planes.cb,
        &mut planes.cr,
    );
}

/// Predicts a part of a macroblock with weights.
#[inline(never)]
fn set_weighted_part<
    const W: usize,
    const H: usize,
    const CW: usize,
    const CH: usize,
    const PAD: usize,
>(from: MovedPicture<'_, '_, PAD>, part: Part<W, H, CW, CH>, planes: &mut Planes<PAD>)
    requires macroblock { CoverPlace from.place (planes_of planes.old) }
    ensures { planes_of planes.new
        ≡ with_moved from.entry part.entry.x part.entry.y W H (planes_of planes.old) }
{
    let picture = from.picture;
    let corner = Corner {
        x: part.x,
        y: part.y,
    };
    let half = Corner {
        x: part.x / 2,
        y: part.y / 2,
    };
    set_luma::<W, H, PAD>(
        &picture.planes.luma,
        component_weight(picture.weights, 0),
        from.mv,
        from.place,
        corner,
        &mut planes.luma,
    );
    set_chroma::<CW, CH, PAD>(
        &picture.planes.cb,
        component_weight(picture.weights, 1),
        from.mv,
        from.place,
        half,
        &mut planes.cb,
    );
    set_chroma::<CW, CH, PAD>(
        &picture.planes.cr,
        component_weight(picture.weights, 2),
        from.mv,
        from.place,
        half,
        &mut planes.cr,
    );
}

/// Predicts a part of a macroblock from one picture, with weights where it has them.
#[inline(always)]
pub(crate) fn set_part<
    const W: usize,
    const H: usize,
    const CW: usize,
    const CH: usize,
    const PAD: usize,
>(from: &MovedPicture<'_, '_, PAD>, part: Part<W, H, CW, CH>, planes: &mut Planes<PAD>)
    requires macroblock { CoverPlace from.now.place (planes_of planes.old) }
    ensures { planes_of planes.new
        ≡ with_moved from.now part.entry.x part.entry.y W H (planes_of planes.old) }
{
    if from.picture.weights.is_none() {
        set_plain_part::<W, H, CW, CH, PAD>(from, part, planes);
    } else {
        set_weighted_part::<W, H, CW, CH, PAD>(*from, part, planes);
    }
}

/// Predicts a macroblock from one picture by one vector.
pub(crate) fn set_macroblock<const PAD: usize>(
    from: &MovedPicture<'_, '_, PAD>,
    planes: &mut Planes<PAD>,
)
    requires macroblock { CoverPlace from.now.place (planes_of planes.old) }
    ensures { planes_of planes.new ≡ with_moved from.now 0 0 16 16 (planes_of planes.old) }
{
    if is_copied(from) {
        copy_part::<16, 16, 8, 8, PAD>(*from, Part { x: 0, y: 0 }, planes);
    } else {
        set_part::<16, 16, 8, 8, PAD>(from, Part { x: 0, y: 0 }, planes);
    }
}
