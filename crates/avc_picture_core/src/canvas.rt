//! A picture that is built, macroblock by macroblock.

ghost use Rattle.std.specs.Prelude.{◌≡◌, ◌<◌, ◌≤◌, true, All};
ghost use Rattle.avc_types.specs.MacroblockFields.{syntax_of};
ghost use Rattle.avc_neigh.specs.Around.{info_of};
ghost use Rattle.avc_neigh.specs.Modes.{IsMode};
ghost use Rattle.avc_motion.specs.Motion.{AreOfOneMotion, has_one_motion, is_intra};
ghost use Rattle.avc_plane.specs.Frames.{planes_of, AreSized};
ghost use Rattle.avc_picture_core.specs.Built.{Place};
ghost use Rattle.avc_picture_core.specs.Canvas.{address_of, IsBuilt, IsInRange, IsPlaceOn};
ghost use Rattle.avc_picture_core.specs.CanvasFields.{with_planes};
ghost use Rattle.avc_picture_core.specs.References.{AreUsable};
ghost use Rattle.avc_picture_core.specs.Sides.{readable_near};

use crate::inter::ReferencePicture;
use crate::inter_sources::References;
use crate::macroblock::{build_macroblock, build_p_skip};
use crate::places::{MbPlace, PictureSize};
use crate::residual::{ChromaQuantiser, Quantiser, Quantisers};
use crate::sides::ReadableNeighbours;
use avc_neigh::{NeighbourInfo, Neighbours};
use avc_plane::Planes;
use avc_transform::chroma_qp;
use avc_types::{Fault, Mb, Syntax};

/// What a macroblock is predicted from, beside the samples before it.
#[derive(Clone, Copy)]
pub struct Sources<'a, const PAD: usize> {
    pub neighbours: Neighbours<'a>,

    /// RefPicList0 by reference index: nothing where an index names no picture.
    pub references: &'a [Option<ReferencePicture<'a, PAD>>],
}

/// What all macroblocks of a picture that is being built (8.3 to 8.5) have in common, beside its
/// planes: its size in macroblocks, and what its picture parameter set says.
#[derive(Clone, Copy)]
pub struct Canvas {
    pub width: usize,

    pub height: usize,

    pub chroma_qp_index_offset: i8,

    pub constrained_intra_pred: bool,
}

/// Which neighbours of an intra macroblock have samples that it may read. An inter one reads none,
/// and these are not sought for it.
fn readable_neighbours(
    syntax: &Syntax,
    neighbours: &Neighbours<'_>,
    constrained_intra_pred: bool,
) -> ReadableNeighbours
    ensures { is_intra (syntax_of syntax.now) ≡ true →
        result ≡ readable_near constrained_intra_pred (info_of neighbours.now) }
{
    match syntax {
        Syntax::PSkip | Syntax::PInter { .. } => ReadableNeighbours {
            a: false,
            b: false,
            c: false,
            d: false,
        },
        Syntax::IPcm { .. } | Syntax::INxN { .. } | Syntax::I16x16 { .. } => {
            ReadableNeighbours::of(neighbours, constrained_intra_pred)
        }
    }
}

impl Canvas {
    /// Builds the macroblock at this place in the planes, of which `info` is known. RefMissing
    /// where a block has no reference picture, IntraUnavailable where an intra prediction needs
    /// samples that are not there: any samples may stand in the planes then.
    pub fn build<const PAD: usize>(
        &self,
        planes: &mut Planes<PAD>,
        place: MbPlace,
        mb: &Mb,
        info: &NeighbourInfo,
        sources: &Sources<'_, PAD>,
    ) -> Result<(), Fault>
        requires column { place.column < self.now.width }
        requires row { place.row < self.now.height }
        requires sized { AreSized self.now.width self.now.height (planes_of planes.old) }
        requires syntax { IsInRange mb.now.syntax }
        requires quantiser { mb.now.qp ≤ 51 }
        requires modes { All IsMode info.now.modes }
        requires one { has_one_motion mb.now.syntax ≡ true → AreOfOneMotion info.now.motion }
        requires references { AreUsable self.now.width self.now.height sources.now.references.now }
        ensures built { (p : Place) →
            IsPlaceOn (with_planes self.now (planes_of planes.old))
            (address_of self.now.width place) mb.now info.now
            (info_of sources.now.neighbours) sources.now.references.now p →
            IsBuilt p result (with_planes self.now (planes_of planes.old))
            (with_planes self.now (planes_of planes.new)) }
        ensures sized { AreSized self.now.width self.now.height (planes_of planes.new) }
    {
        let references = References {
            size: PictureSize {
                width: self.width,
                height: self.height,
            },
            pictures: sources.references,
        };
        // there is nothing to scale
        if let Syntax::PSkip = &mb.syntax {
            return build_p_skip(planes, place, &info.motion, &references);
        }
        let qp = Quantisers {
            luma: Quantiser { value: mb.qp },
            chroma: ChromaQuantiser {
                value: chroma_qp(self.chroma_qp_index_offset, mb.qp),
            },
        };
        let readable = readable_neighbours(
            &mb.syntax,
            &sources.neighbours,
            self.constrained_intra_pred,
        );
        build_macroblock(planes, place, &mb.syntax, qp, info, readable, &references)
    }
}
