//! The samples of inter macroblocks (8.4.2).

ghost use Rattle.std.specs.Prelude.{◌≡◌, ℕ, ◌+◌, ◌*◌, ◌/◌, ◌%◌, ◌<◌, ◌≤◌, true, is_some};
ghost use Rattle.std.specs.Option.{option_copied};
ghost use Rattle.avc_types.specs.Pictures.{Coded};
ghost use Rattle.avc_neigh.specs.Blocks.{block_at};
ghost use Rattle.avc_motion.specs.Motion.{AreOfOneMotion, vector_of};
ghost use Rattle.avc_picture_core.specs.Places.{AreSameSize, IsIn};
ghost use Rattle.avc_picture_core.specs.References.{AreReferences};
ghost use Rattle.avc_plane.specs.Frames.{planes_of};
ghost use Rattle.avc_picture_core.specs.Inter.{CoverPlace, HaveOneMotion};
ghost use Rattle.avc_picture_core.specs.Inter.{IsInterPredicted};
ghost use Rattle.avc_picture_core.specs.declared.shape.Shape.TheVariants.{Whole};
ghost use Rattle.avc_picture_core.specs.Inter.{IsMacroblockShape, have_pictures, picture_in};
ghost use Rattle.avc_picture_core.specs.Predicted.{with_predicted};

use crate::inter_sources::{InterSources, MovedPicture, References};
use crate::parts::{set_macroblock, set_part};
use crate::places::{MbPlace, Part};
use crate::shape::{Shape, macroblock_shape, quarter_shape};
use avc_neigh::Motion;
use avc_plane::{PaddedPlanes, Planes};
use avc_types::{Fault, Mv, Weights};

/// The picture that a reference index names (8.4.2.1).
#[derive(Clone, Copy)]
pub struct ReferencePicture<'a, const PAD: usize> {
    pub planes: &'a PaddedPlanes<PAD>,

    /// By what predictions from this index are weighted (8.4.2.3); nothing where they are not.
    pub weights: Option<Weights>,
}

/// The picture that a block is predicted from.
fn picture_of<'r, 'a, const PAD: usize>(
    references: &'r [Option<ReferencePicture<'a, PAD>>],
    motion: Motion,
) -> Option<&'r ReferencePicture<'a, PAD>>
    ensures { option_copied result ≡ picture_in references.now motion }
{
    match motion {
        Motion::Absent | Motion::Intra => None,
        Motion::Inter { ref_idx, .. } => match references.get(usize::from(ref_idx)) {
            Some(Some(picture)) => Some(picture),
            _ => None,
        },
    }
}

/// Whether a block has a picture to be predicted from.
fn has_picture<const PAD: usize>(
    references: &[Option<ReferencePicture<'_, PAD>>],
    motion: Motion,
) -> bool
    ensures { result ≡ is_some (picture_in references.now motion) }
{
    picture_of(references, motion).is_some()
}

/// Whether each block of a macroblock has a picture to be predicted from.
fn have_pictures<const PAD: usize>(
    references: &[Option<ReferencePicture<'_, PAD>>],
    motion: &[Motion; 16],
) -> bool
    ensures { result ≡ have_pictures references.now motion.now }
{
    motion.iter().all(
        |block| -> bool
            ensures { result ≡ is_some (picture_in references.entry.now block.now) }
        { has_picture(references, *block) },
    )
}

/// The vector of a block, 0 where it has none.
fn vector(motion: Motion) -> Mv
    ensures { result ≡ vector_of motion }
{
    match motion {
        Motion::Inter { mv, .. } => mv,
        Motion::Absent | Motion::Intra => Mv { x: 0, y: 0 },
    }
}

/// The block that covers the sample (x, y) of a macroblock (6.4.13).
fn block_at(x: usize, y: usize) -> usize
    requires column { x < 16 }
    requires row { y < 16 }
    ensures value { result ≡ block_at x y }
    ensures small { result < 16 }
{
    8 * (y / 8) + 4 * (x / 8) + 2 * (y / 4 % 2) + x / 4 % 2
}

/// Predicts a part of a macroblock, whose blocks have one motion.
fn predict_part<const W: usize, const H: usize, const CW: usize, const CH: usize, const PAD: usize>(
    from: &InterSources<'_, '_, PAD>,
    part: Part<W, H, CW, CH>,
    planes: &mut Planes<PAD>,
)
    requires macroblock { CoverPlace from.now.place (planes_of planes.old) }
    requires one { HaveOneMotion from.now.motion.now part.x part.y W H }
    ensures { planes_of planes.new
        ≡ with_predicted from.now part.entry.x part.entry.y W H (planes_of planes.old) }
{
    let block = from.motion[block_at(part.x, part.y)];
    if let (Motion::Inter { mv, .. }, Some(picture)) = (block, picture_of(from.references, block)) {
        let place = from.place;
        set_part::<W, H, CW, CH, PAD>(&MovedPicture { picture, mv, place }, part, planes);
    }
}

/// Predicts a square of luma, and half as wide a square of each chroma component, in an upper and a
/// lower half.
fn predict_wide_halves<
    const S: usize,
    const H: usize,
    const CS: usize,
    const CH: usize,
    const PAD: usize,
>(from: &InterSources<'_, '_, PAD>, upper: Part<S, H, CS, CH>, planes: &mut Planes<PAD>)
    requires square { S ≡ 2 * H }
    requires room { upper.y + S ≤ 16 }
    requires macroblock { CoverPlace from.now.place (planes_of planes.old) }
    requires upper { HaveOneMotion from.now.motion.now upper.x upper.y S H }
    requires lower { HaveOneMotion from.now.motion.now upper.x (upper.y + H) S H }
    ensures { planes_of planes.new
        ≡ with_predicted from.now upper.entry.x upper.entry.y S S (planes_of planes.old) }
{
    let lower = Part::<S, H, CS, CH> {
        x: upper.x,
        y: upper.y + H,
    };
    predict_part::<S, H, CS, CH, PAD>(from, upper, planes);
    predict_part::<S, H, CS, CH, PAD>(from, lower, planes);
}

/// Predicts a square of luma, and half as wide a square of each chroma component, in a left and a
/// right half.
fn predict_tall_halves<
    const S: usize,
    const W: usize,
    const CS: usize,
    const CW: usize,
    const PAD: usize,
>(from: &InterSources<'_, '_, PAD>, left: Part<W, S, CW, CS>, planes: &mut Planes<PAD>)
    requires square { S ≡ 2 * W }
    requires room { left.x + S ≤ 16 }
    requires macroblock { CoverPlace from.now.place (planes_of planes.old) }
    requires left { HaveOneMotion from.now.motion.now left.x left.y W S }
    requires right { HaveOneMotion from.now.motion.now (left.x + W) left.y W S }
    ensures { planes_of planes.new
        ≡ with_predicted from.now left.entry.x left.entry.y S S (planes_of planes.old) }
{
    let right = Part::<W, S, CW, CS> {
        x: left.x + W,
        y: left.y,
    };
    predict_part::<W, S, CW, CS, PAD>(from, left, planes);
    predict_part::<W, S, CW, CS, PAD>(from, right, planes);
}

/// Predicts a quarter of a macroblock block by block.
#[tactic(auto, using(crate::proofs::InterTiles::one_block))]
fn predict_blocks<const PAD: usize>(
    from: &InterSources<'_, '_, PAD>,
    quarter: Part<8, 8, 4, 4>,
    planes: &mut Planes<PAD>,
)
    requires whole { (quarter.x % 8 ≡ 0) × (quarter.y % 8 ≡ 0) }
    requires macroblock { CoverPlace from.now.place (planes_of planes.old) }
    ensures { planes_of planes.new
        ≡ with_predicted from.now quarter.x quarter.y 8 8 (planes_of planes.old) }
{
    let (x, y) = (quarter.x, quarter.y);
    predict_part::<4, 4, 2, 2, PAD>(from, Part { x, y }, planes);
    predict_part::<4, 4, 2, 2, PAD>(from, Part { x: x + 4, y }, planes);
    predict_part::<4, 4, 2, 2, PAD>(from, Part { x, y: y + 4 }, planes);
    predict_part::<4, 4, 2, 2, PAD>(from, Part { x: x + 4, y: y + 4 }, planes);
}

/// Predicts a quarter of a macroblock in as few rectangles as its motion allows.
#[tactic(auto, using(crate::proofs::InterTiles::quarter_parts))]
fn predict_quarter<const PAD: usize>(
    from: &InterSources<'_, '_, PAD>,
    quarter: usize,
    planes: &mut Planes<PAD>,
)
    requires quarter { quarter < 4 }
    requires macroblock { CoverPlace from.now.place (planes_of planes.old) }
    ensures { planes_of planes.new
        ≡ with_predicted from.now (8 * (quarter % 2)) (8 * (quarter / 2)) 8 8
        (planes_of planes.old) }
{
    let (x, y) = (8 * (quarter % 2), 8 * (quarter / 2));
    match quarter_shape(from.motion, quarter) {
        Shape::Whole => predict_part::<8, 8, 4, 4, PAD>(from, Part { x, y }, planes),
        Shape::WideHalves => { predict_wide_halves::<8, 4, 4, 2, PAD>(from, Part { x, y }, planes) }
        Shape::TallHalves => { predict_tall_halves::<8, 4, 4, 2, PAD>(from, Part { x, y }, planes) }
        Shape::Quarters => predict_blocks(from, Part { x, y }, planes),
    }
}

/// Predicts a macroblock quarter by quarter.
fn predict_quarters<const PAD: usize>(from: &InterSources<'_, '_, PAD>, planes: &mut Planes<PAD>)
    requires macroblock { CoverPlace from.now.place (planes_of planes.old) }
    ensures { planes_of planes.new ≡ with_predicted from.now 0 0 16 16 (planes_of planes.old) }
{
    predict_quarter(from, 0, planes);
    predict_quarter(from, 1, planes);
    predict_quarter(from, 2, planes);
    predict_quarter(from, 3, planes);
}

/// Predicts a macroblock of this shape, which is not predicted at once.
#[tactic(auto, using(crate::proofs::InterTiles::macroblock_parts))]
fn predict_macroblock<const PAD: usize>(
    from: &InterSources<'_, '_, PAD>,
    shape: Shape,
    planes: &mut Planes<PAD>,
)
    requires macroblock { CoverPlace from.now.place (planes_of planes.old) }
    requires shape { IsMacroblockShape from.now.motion.now shape }
    ensures { planes_of planes.new ≡ with_predicted from.now 0 0 16 16 (planes_of planes.old) }
{
    match shape {
        Shape::WideHalves => {
            predict_wide_halves::<16, 8, 8, 4, PAD>(from, Part { x: 0, y: 0 }, planes)
        }
        Shape::TallHalves => {
            predict_tall_halves::<16, 8, 8, 4, PAD>(from, Part { x: 0, y: 0 }, planes)
        }
        Shape::Whole | Shape::Quarters => predict_quarters(from, planes),
    }
}

/// Predicts a macroblock part by part. RefMissing where a block has no reference picture; nothing
/// is changed then.
// apart from one that is predicted at once: what its parts need is not laid by for that
#[inline(never)]
fn predict_parts<const PAD: usize>(
    references: &References<'_, PAD>,
    place: MbPlace,
    motion: &[Motion; 16],
    shape: Shape,
    planes: &mut Planes<PAD>,
) -> Result<(), Fault>
    requires macroblock { CoverPlace place (planes_of planes.old) }
    requires at { IsIn place references.now.size }
    requires shape { IsMacroblockShape motion.now shape }
    ensures size { AreSameSize (planes_of planes.old) (planes_of planes.new) }
    ensures built { (c : Coded) (slice : ℕ) →
        c.width ≡ references.now.size.width → c.height ≡ references.now.size.height →
        AreReferences c slice references.now.pictures.now →
        IsInterPredicted c slice place.column place.row motion.now result (planes_of planes.old)
        (planes_of planes.new) }
{
    if !have_pictures(references.pictures, motion) {
        return Err(Fault::RefMissing);
    }
    let from = InterSources {
        references: references.pictures,
        place,
        motion,
    };
    predict_macroblock(&from, shape, planes);
    Ok(())
}

/// Predicts a macroblock whose blocks have one motion, at once.
fn predict_whole<const PAD: usize>(
    references: &References<'_, PAD>,
    place: MbPlace,
    motion: &[Motion; 16],
    planes: &mut Planes<PAD>,
) -> Result<(), Fault>
    requires macroblock { CoverPlace place (planes_of planes.old) }
    requires at { IsIn place references.now.size }
    requires shape { IsMacroblockShape motion.now Whole }
    ensures size { AreSameSize (planes_of planes.old) (planes_of planes.new) }
    ensures built { (c : Coded) (slice : ℕ) →
        c.width ≡ references.now.size.width → c.height ≡ references.now.size.height →
        AreReferences c slice references.now.pictures.now →
        IsInterPredicted c slice place.column place.row motion.now result (planes_of planes.old)
        (planes_of planes.new) }
{
    match picture_of(references.pictures, motion[0]) {
        Some(picture) => {
            let mv = vector(motion[0]);
            set_macroblock(&MovedPicture { picture, mv, place }, planes);
            Ok(())
        }
        None => Err(Fault::RefMissing),
    }
}

/// Predicts the samples of an inter macroblock in this column and row of macroblocks into the
/// planes (8.4.2). RefMissing where a block has no reference picture; nothing is changed then.
/// `has_one_motion` says that all blocks are known to have one motion.
pub(crate) fn predict_inter<const PAD: usize>(
    references: &References<'_, PAD>,
    place: MbPlace,
    motion: &[Motion; 16],
    has_one_motion: bool,
    planes: &mut Planes<PAD>,
) -> Result<(), Fault>
    requires macroblock { CoverPlace place (planes_of planes.old) }
    requires at { IsIn place references.now.size }
    requires one { has_one_motion ≡ true → AreOfOneMotion motion.now }
    ensures size { AreSameSize (planes_of planes.old) (planes_of planes.new) }
    ensures built { (c : Coded) (slice : ℕ) →
        c.width ≡ references.now.size.width → c.height ≡ references.now.size.height →
        AreReferences c slice references.now.pictures.now →
        IsInterPredicted c slice place.column place.row motion.now result (planes_of planes.old)
        (planes_of planes.new) }
{
    match macroblock_shape(motion, has_one_motion) {
        Shape::Whole => predict_whole(references, place, motion, planes),
        shape => predict_parts(references, place, motion, shape, planes),
    }
}
