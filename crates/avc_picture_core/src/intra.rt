//! Intra macroblocks (8.3).
ghost use Rattle.std.specs.Prelude.{◌≡◌, ℕ, ◌*◌, ◌<◌, ◌≤◌, ◌&&◌, true, [], Option};
ghost use Rattle.std.specs.Prelude.{slice_index_or, List};
ghost use Rattle.std.specs.List.{list_all, range_with_len};
ghost use Rattle.std.specs.Option.{unwrap_or};
ghost use Rattle.avc_types.specs.Macroblock.{i_16x16, i_nxn};
ghost use Rattle.avc_types.specs.MacroblockFields.{residual_of};
ghost use Rattle.avc_neigh.specs.declared.neighbour_info.NearMode.TheVariants.{Absent as absent};
ghost use Rattle.avc_transform.specs.MacroblockResidual.{chroma_residual, luma_residual_16x16};
ghost use Rattle.avc_plane.specs.Frames.{planes_of};
ghost use Rattle.avc_plane.specs.Plane.{with_block};
ghost use Rattle.avc_intra.specs.Luma4x4.{can_predict4x4, mode4x4_of};
ghost use Rattle.avc_intra.specs.Luma16x16.{can_predict16x16, intra16x16};
ghost use Rattle.avc_intra.specs.Chroma.{can_predict_chroma, intra_chroma};
ghost use Rattle.avc_picture_core.specs.Built.{Place, mode_number, seen_from, sum_of};
ghost use Rattle.avc_picture_core.specs.Inter.{CoverPlace};
ghost use Rattle.avc_picture_core.specs.Places.{ArePlanesBuilt, AreSameSize, IsSameSize, IsAt};
ghost use Rattle.avc_picture_core.specs.Places.{HasMacroblock, MayRead};
ghost use Rattle.avc_picture_core.specs.Sides.{AreInside, readable_sides};

use crate::chroma::predict_component;
use crate::levels::{ChromaLevels, Levels4x4, Levels16x16};
use crate::luma4x4::{build_luma4x4, has_sides4x4};
use crate::luma16x16::predict_luma16x16;
use crate::modes::{BlockModes, mode_chroma, mode16x16};
use crate::places::MbPlace;
use crate::residual::{
    ChromaQuantiser, Quantiser, Quantisers, add_chroma_residual, add_luma_residual_16x16,
};
use crate::sides::ReadableNeighbours;
use avc_intra::{Mode16x16, ModeChroma, Sides};
use avc_plane::{Plane, Planes};
use avc_types::Fault;

/// Builds the luma of an Intra 16x16 macroblock.
fn build_luma16x16<const PAD: usize>(
    plane: &mut Plane<PAD>,
    place: MbPlace,
    sides: Sides,
    mode: Mode16x16,
    levels: Levels16x16<'_>,
    qp: Quantiser,
)
    requires macroblock { HasMacroblock 16 place.column place.row plane.old }
    requires mode { can_predict16x16 sides mode ≡ true }
    ensures size { IsSameSize plane.old plane.new }
    ensures samples { AreInside (16 * place.column) (16 * place.row) plane.old.width sides →
        plane.new ≡ with_block plane.old (16 * place.column) (16 * place.row) 16 16
        (λ x y. sum_of
        (unwrap_or (intra16x16 sides (seen_from plane.old (16 * place.column) (16 * place.row))
        mode x y) 0)
        (luma_residual_16x16 qp.value
        (residual_of levels.entry.dc.now levels.entry.blocks.now) x y)) }
{
    predict_luma16x16(plane, place, sides, mode);
    add_luma_residual_16x16(plane, place, levels, qp);
}

/// Builds one chroma component of an intra macroblock, by the quantiser of chroma.
fn build_component<const PAD: usize>(
    plane: &mut Plane<PAD>,
    place: MbPlace,
    sides: Sides,
    mode: ModeChroma,
    levels: ChromaLevels<'_>,
    qp: ChromaQuantiser,
)
    requires macroblock { HasMacroblock 8 place.column place.row plane.old }
    requires mode { can_predict_chroma sides mode ≡ true }
    ensures size { IsSameSize plane.old plane.new }
    ensures samples { AreInside (8 * place.column) (8 * place.row) plane.old.width sides →
        plane.new ≡ with_block plane.old (8 * place.column) (8 * place.row) 8 8
        (λ x y. sum_of
        (unwrap_or (intra_chroma sides (seen_from plane.old (8 * place.column) (8 * place.row))
        mode x y) 0)
        (chroma_residual qp.value levels.entry.dc.now levels.entry.ac.now x y)) }
{
    predict_component(plane, place, sides, mode);
    add_chroma_residual(plane, place, levels, qp);
}

/// Each prediction of an I_NxN macroblock has the sides that it needs.
fn has_sides_nxn(readable: ReadableNeighbours, modes: BlockModes<'_>, chroma: ModeChroma) -> bool
    ensures { result ≡ (
        list_all (λ k. can_predict4x4 (readable_sides readable k)
        (mode4x4_of (mode_number (slice_index_or modes.entry.in_order.now k absent))))
        (range_with_len 0 16)
        && can_predict_chroma (readable_sides readable 0) chroma) }
{
    let luma = has_sides4x4(readable, modes);
    let chroma = chroma.is_available(readable.sides(0));
    luma & chroma
}

/// Both predictions of an Intra 16x16 macroblock have the sides that they need.
fn has_sides16x16(sides: Sides, luma: Mode16x16, chroma: ModeChroma) -> bool
    ensures { result ≡ (can_predict16x16 sides luma && can_predict_chroma sides chroma) }
{
    luma.is_available(sides) & chroma.is_available(sides)
}

/// Builds an I_NxN macroblock whose blocks have these modes. IntraUnavailable where a prediction
/// needs samples that are not there.
pub(crate) fn build_i_nxn<const PAD: usize>(
    planes: &mut Planes<PAD>,
    place: MbPlace,
    readable: ReadableNeighbours,
    modes: BlockModes<'_>,
    chroma_mode: u8,
    levels: Levels4x4<'_>,
    qp: Quantisers,
) -> Result<(), Fault>
    requires macroblock { CoverPlace place (planes_of planes.old) }
    requires chroma_mode { chroma_mode ≤ 3 }
    ensures size { AreSameSize (planes_of planes.old) (planes_of planes.new) }
    ensures built { (p : Place) (coded : List (Option ℕ)) →
        IsAt place.column place.row
        (i_nxn coded chroma_mode (residual_of [] levels.entry.blocks.now)) qp.luma.value
        qp.chroma.value p → MayRead place.column place.row planes.old.luma.width readable p →
        p.modes ≡ modes.entry.in_order.now →
        ArePlanesBuilt p result (planes_of planes.old) (planes_of planes.new) }
{
    let sides = readable.sides(0);
    let mode = mode_chroma(chroma_mode);
    if !has_sides_nxn(readable, modes, mode) {
        return Err(Fault::IntraUnavailable);
    }
    build_luma4x4(&mut planes.luma, place, readable, modes, levels, qp.luma);
    build_component(
        &mut planes.cb,
        place,
        sides,
        mode,
        ChromaLevels {
            dc: &levels.blocks.cb_dc,
            ac: &levels.blocks.cb_ac,
        },
        qp.chroma,
    );
    build_component(
        &mut planes.cr,
        place,
        sides,
        mode,
        ChromaLevels {
            dc: &levels.blocks.cr_dc,
            ac: &levels.blocks.cr_ac,
        },
        qp.chroma,
    );
    Ok(())
}

/// Builds an Intra 16x16 macroblock. IntraUnavailable where a prediction needs samples that are not
/// there.
pub(crate) fn build_i_16x16<const PAD: usize>(
    planes: &mut Planes<PAD>,
    place: MbPlace,
    readable: ReadableNeighbours,
    mode: u8,
    chroma_mode: u8,
    levels: Levels16x16<'_>,
    qp: Quantisers,
) -> Result<(), Fault>
    requires macroblock { CoverPlace place (planes_of planes.old) }
    requires mode { mode ≤ 3 }
    requires chroma_mode { chroma_mode ≤ 3 }
    ensures size { AreSameSize (planes_of planes.old) (planes_of planes.new) }
    ensures built { (p : Place) →
        IsAt place.column place.row
        (i_16x16 mode chroma_mode (residual_of levels.entry.dc.now levels.entry.blocks.now))
        qp.luma.value qp.chroma.value p →
        MayRead place.column place.row planes.old.luma.width readable p →
        ArePlanesBuilt p result (planes_of planes.old) (planes_of planes.new) }
{
    let sides = readable.sides(0);
    let luma_mode = mode16x16(mode);
    let mode = mode_chroma(chroma_mode);
    if !has_sides16x16(sides, luma_mode, mode) {
        return Err(Fault::IntraUnavailable);
    }
    build_luma16x16(&mut planes.luma, place, sides, luma_mode, levels, qp.luma);
    build_component(
        &mut planes.cb,
        place,
        sides,
        mode,
        ChromaLevels {
            dc: &levels.blocks.cb_dc,
            ac: &levels.blocks.cb_ac,
        },
        qp.chroma,
    );
    build_component(
        &mut planes.cr,
        place,
        sides,
        mode,
        ChromaLevels {
            dc: &levels.blocks.cr_dc,
            ac: &levels.blocks.cr_ac,
        },
        qp.chroma,
    );
    Ok(())
}
