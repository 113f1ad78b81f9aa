//! The samples of one macroblock, laid into the planes.
ghost use Rattle.std.specs.Prelude.{◌≡◌, ℕ, ◌+◌, ◌*◌, ◌<◌, true, [], All, List, slice_index};
ghost use Rattle.avc_types.specs.Macroblock.{i_pcm, p_inter, p_skip};
ghost use Rattle.avc_types.specs.MacroblockFields.{residual_of, syntax_of};
ghost use Rattle.avc_types.specs.declared.macroblock.Mvd.{Mvd};
ghost use Rattle.avc_neigh.specs.Modes.{IsMode};
ghost use Rattle.avc_motion.specs.Motion.{AreOfOneMotion, has_one_motion};
ghost use Rattle.avc_motion.specs.Motion.{is_one_partition as is_one_partition_by};
ghost use Rattle.avc_plane.specs.Frames.{planes_of, AreSized};
ghost use Rattle.avc_plane.specs.Plane.{with_block};
ghost use Rattle.avc_transform.specs.MacroblockResidual.{luma_residual, chroma_residual};
ghost use Rattle.avc_picture_core.specs.Built.{Place};
ghost use Rattle.avc_picture_core.specs.Canvas.{IsInRange};
ghost use Rattle.avc_picture_core.specs.Inter.{CoverPlace};
ghost use Rattle.avc_picture_core.specs.Places.{ArePlanesBuilt, AreSameSize, HasMacroblock};
ghost use Rattle.avc_picture_core.specs.Places.{IsAt, IsIn, IsPlaceIn};
ghost use Rattle.avc_picture_core.specs.References.{AreReferences};
ghost use Rattle.avc_picture_core.specs.Residuals.{with_residual};

use crate::corner::{first_column, first_row};
use crate::inter::predict_inter;
use crate::inter_sources::References;
use crate::intra::{build_i_16x16, build_i_nxn};
use crate::levels::{ChromaLevels, Levels4x4, Levels16x16};
use crate::modes::BlockModes;
use crate::places::MbPlace;
use crate::residual::{Quantisers, add_chroma_residual, add_luma_residual};
use crate::sides::ReadableNeighbours;
use avc_motion::is_one_partition;
use avc_neigh::{Motion, NeighbourInfo};
use avc_plane::{Plane, Planes};
use avc_types::{Fault, PMbType, Syntax};

/// Lays the samples of a chroma component of a macroblock into its plane.
fn set_component<const PAD: usize>(plane: &mut Plane<PAD>, place: MbPlace, samples: &[u8; 64])
    requires macroblock { HasMacroblock 8 place.column place.row plane.old }
    ensures { plane.new ≡ with_block plane.old (8 * place.column) (8 * place.row) 8 8
        (λ x y. slice_index samples.now (8 * y + x)) }
{
    let left = first_column(plane, 8, place.column);
    let top = first_row(plane, 8, place.row);
    plane.copy_rectangle::<8, 8, 64>(left, top, samples);
}

/// Lays the samples of a macroblock into the planes.
fn set_samples<const PAD: usize>(
    planes: &mut Planes<PAD>,
    place: MbPlace,
    luma: &[u8; 256],
    cb: &[u8; 64],
    cr: &[u8; 64],
)
    requires macroblock { CoverPlace place (planes_of planes.old) }
    ensures luma { planes.new.luma ≡ with_block planes.old.luma (16 * place.column) (16 * place.row)
        16 16 (λ x y. slice_index luma.now (16 * y + x)) }
    ensures cb { planes.new.cb ≡ with_block planes.old.cb (8 * place.column) (8 * place.row) 8 8
        (λ x y. slice_index cb.now (8 * y + x)) }
    ensures cr { planes.new.cr ≡ with_block planes.old.cr (8 * place.column) (8 * place.row) 8 8
        (λ x y. slice_index cr.now (8 * y + x)) }
{
    let left = first_column(&planes.luma, 16, place.column);
    let top = first_row(&planes.luma, 16, place.row);
    planes.luma.copy_rectangle::<16, 16, 256>(left, top, luma);
    set_component(&mut planes.cb, place, cb);
    set_component(&mut planes.cr, place, cr);
}

/// Builds an I_PCM macroblock of these samples (8.3.5).
fn build_i_pcm<const PAD: usize>(
    planes: &mut Planes<PAD>,
    place: MbPlace,
    luma: &[u8; 256],
    cb: &[u8; 64],
    cr: &[u8; 64],
) -> Result<(), Fault>
    requires macroblock { CoverPlace place (planes_of planes.old) }
    ensures size { AreSameSize (planes_of planes.old) (planes_of planes.new) }
    ensures built { (p : Place) (qp qp_of_chroma : ℕ) →
        IsAt place.column place.row (i_pcm luma.now cb.now cr.now) qp qp_of_chroma p →
        ArePlanesBuilt p result (planes_of planes.old) (planes_of planes.new) }
{
    set_samples(planes, place, luma, cb, cr);
    Ok(())
}

/// Adds the residual of an inter macroblock to its prediction.
fn add_residual<const PAD: usize>(
    planes: &mut Planes<PAD>,
    place: MbPlace,
    levels: Levels4x4<'_>,
    qp: Quantisers,
)
    requires macroblock { CoverPlace place (planes_of planes.old) }
    ensures luma { planes.new.luma
        ≡ with_residual planes.old.luma (16 * place.column) (16 * place.row) 16 16
        (luma_residual qp.luma.value (residual_of [] levels.entry.blocks.now)) }
    ensures cb { planes.new.cb
        ≡ with_residual planes.old.cb (8 * place.column) (8 * place.row) 8 8
        (chroma_residual qp.chroma.value levels.entry.blocks.now.cb_dc
        levels.entry.blocks.now.cb_ac) }
    ensures cr { planes.new.cr
        ≡ with_residual planes.old.cr (8 * place.column) (8 * place.row) 8 8
        (chroma_residual qp.chroma.value levels.entry.blocks.now.cr_dc
        levels.entry.blocks.now.cr_ac) }
{
    add_luma_residual(&mut planes.luma, place, levels, qp.luma);
    add_chroma_residual(
        &mut planes.cb,
        place,
        ChromaLevels {
            dc: &levels.blocks.cb_dc,
            ac: &levels.blocks.cb_ac,
        },
        qp.chroma,
    );
    add_chroma_residual(
        &mut planes.cr,
        place,
        ChromaLevels {
            dc: &levels.blocks.cr_dc,
            ac: &levels.blocks.cr_ac,
        },
        qp.chroma,
    );
}

/// Builds a skipped macroblock. RefMissing where a block has no reference picture.
pub(crate) fn build_p_skip<const PAD: usize>(
    planes: &mut Planes<PAD>,
    place: MbPlace,
    motion: &[Motion; 16],
    references: &References<'_, PAD>,
) -> Result<(), Fault>
    requires macroblock { CoverPlace place (planes_of planes.old) }
    requires at { IsIn place references.now.size }
    requires one { AreOfOneMotion motion.now }
    ensures size { AreSameSize (planes_of planes.old) (planes_of planes.new) }
    ensures built { (p : Place) (qp qp_of_chroma : ℕ) →
        IsAt place.column place.row p_skip qp qp_of_chroma p →
        p.coded.width ≡ references.now.size.width →
        p.coded.height ≡ references.now.size.height →
        p.motion ≡ motion.now → AreReferences p.coded p.slice references.now.pictures.now →
        ArePlanesBuilt p result (planes_of planes.old) (planes_of planes.new) }
{
    predict_inter(references, place, motion, true, planes)?;
    planes.luma.holds_bytes();
    planes.cb.holds_bytes();
    planes.cr.holds_bytes();
    Ok(())
}

/// Builds an inter macroblock. RefMissing where a block has no reference picture.
fn build_p_inter<const PAD: usize>(
    planes: &mut Planes<PAD>,
    place: MbPlace,
    motion: &[Motion; 16],
    mb_type: &PMbType,
    levels: Levels4x4<'_>,
    qp: Quantisers,
    references: &References<'_, PAD>,
) -> Result<(), Fault>
    requires macroblock { CoverPlace place (planes_of planes.old) }
    requires at { IsIn place references.now.size }
    requires one { is_one_partition_by mb_type.now ≡ true → AreOfOneMotion motion.now }
    ensures size { AreSameSize (planes_of planes.old) (planes_of planes.new) }
    ensures built { (p : Place) (ref_idx : List ℕ) (mvd : List Mvd) →
        IsAt place.column place.row
        (p_inter mb_type.now ref_idx mvd (residual_of [] levels.entry.blocks.now))
        qp.luma.value qp.chroma.value p →
        p.coded.width ≡ references.now.size.width →
        p.coded.height ≡ references.now.size.height →
        p.motion ≡ motion.now → AreReferences p.coded p.slice references.now.pictures.now →
        ArePlanesBuilt p result (planes_of planes.old) (planes_of planes.new) }
{
    predict_inter(references, place, motion, is_one_partition(mb_type), planes)?;
    add_residual(planes, place, levels, qp);
    Ok(())
}

/// Builds a macroblock. Where it is refused any samples may stand in the planes.
pub(crate) fn build_macroblock<const PAD: usize>(
    planes: &mut Planes<PAD>,
    place: MbPlace,
    syntax: &Syntax,
    qp: Quantisers,
    info: &NeighbourInfo,
    readable: ReadableNeighbours,
    references: &References<'_, PAD>,
) -> Result<(), Fault>
    requires sized { AreSized references.now.size.width references.now.size.height
        (planes_of planes.old) }
    requires at { IsIn place references.now.size }
    requires syntax { IsInRange (syntax_of syntax.now) }
    requires modes { All IsMode info.now.modes }
    requires one { has_one_motion (syntax_of syntax.now) ≡ true → AreOfOneMotion info.now.motion }
    ensures size { AreSameSize (planes_of planes.old) (planes_of planes.new) }
    ensures built { (p : Place) →
        IsPlaceIn place.column place.row references.now.size.width references.now.size.height
        (syntax_of syntax.now) qp.luma.value qp.chroma.value info.now readable
        references.now.pictures.now p →
        ArePlanesBuilt p result (planes_of planes.old) (planes_of planes.new) }
{
    match syntax {
        Syntax::PSkip => { build_p_skip(planes, place, &info.motion, references) }
        Syntax::IPcm { luma, cb, cr } => build_i_pcm(planes, place, luma, cb, cr),
        Syntax::INxN {
            chroma_mode,
            levels,
            ..
        } => build_i_nxn(
            planes,
            place,
            readable,
            BlockModes {
                in_order: &info.modes,
            },
            *chroma_mode,
            Levels4x4 { blocks: levels },
            qp,
        ),
        Syntax::I16x16 {
            mode,
            chroma_mode,
            luma_dc,
            levels,
        } => build_i_16x16(
            planes,
            place,
            readable,
            *mode,
            *chroma_mode,
            Levels16x16 {
                dc: luma_dc,
                blocks: levels,
            },
            qp,
        ),
        Syntax::PInter {
            mb_type,
            levels,
            ..
        } => build_p_inter(
            planes,
            place,
            &info.motion,
            mb_type,
            Levels4x4 { blocks: levels },
            qp,
            references,
        ),
    }
}
