//! How the macroblock that comes next is built: what later ones are told of it, and its samples.

ghost use Rattle.std.specs.Prelude.{◌≡◌, ◌+◌, ◌*◌, ◌<◌, true, OnOk};
ghost use Rattle.avc_neigh.specs.Around.{around, info_of};
ghost use Rattle.avc_motion.specs.Motion.{AreOfOneMotion, has_one_motion};
ghost use Rattle.avc_plane.specs.Frames.{planes_of, AreSized};
ghost use Rattle.avc_picture_core.specs.Canvas.{address_of};
ghost use Rattle.avc_picture_core.specs.CanvasFields.{with_planes};
ghost use Rattle.avc_picture_core.specs.References.{AreUsable};
ghost use Rattle.avc_picture.specs.MacroblockInfo.{still_info, IsRead};
ghost use Rattle.avc_picture.specs.MacroblocksState.{HaveModes};
ghost use Rattle.avc_picture.specs.StillRuns.{AreCopied, GoesOnStill, IsToldAndBuilt};

use crate::current_info::{CurrentInfo, is_skipped};
use crate::rows_ahead::read_ahead;
use crate::slice_context::SliceContext;
use crate::still_run::StillRun;
use avc_neigh::{Neighbours, Row};
use avc_picture_core::{Canvas, MbPlace, ReferencePicture, Sources};
use avc_plane::Planes;
use avc_types::{Fault, Mb};

/// What a macroblock with these neighbours is predicted from. A call is what gives both one
/// lifetime.
fn sources<'a, const PAD: usize>(
    neighbours: Neighbours<'a>,
    references: &'a [Option<ReferencePicture<'a, PAD>>],
) -> Sources<'a, PAD>
    ensures neighbours { info_of result.neighbours ≡ info_of neighbours.entry }
    ensures references { result.references.now ≡ references.now }
{
    Sources {
        neighbours,
        references,
    }
}

/// A skipped macroblock's samples are predicted from none (8.4.2).
const NO_NEIGHBOURS: Neighbours<'static> = Neighbours {
    a: None,
    b: None,
    c: None,
    d: None,
};

/// Where the macroblock that comes next stands.
#[derive(Drop)]
pub(crate) struct NextPlace<'a> {
    pub(crate) canvas: &'a Canvas,

    /// What is known of the macroblocks before it.
    pub(crate) row: &'a Row,
    pub(crate) place: MbPlace,
}

impl NextPlace<'_> {
    /// Writes into `info` what later ones are told of this macroblock, and builds it in the planes.
    /// Or answers the first of its faults. A skipped one that is copied already stands still, as
    /// did the one to its left (8.4.1.1): nothing is left to be written. Rows that are read ahead
    /// leave something in `mixture`.
    #[inline(always)]
    pub(crate) fn build<const PAD: usize>(
        &self,
        planes: &mut Planes<PAD>,
        mb: &Mb,
        slice: &SliceContext<'_, PAD>,
        info: &mut CurrentInfo,
        run: &mut StillRun,
        mixture: &mut u8,
    ) -> Result<(), Fault>
        requires column { self.now.place.column < self.now.canvas.now.width }
        requires row { self.now.place.row < self.now.canvas.now.height }
        requires sized { AreSized self.now.canvas.now.width self.now.canvas.now.height
            (planes_of planes.old) }
        requires mb { IsRead mb.now }
        requires modes { HaveModes self.now.row.now.info }
        requires references { AreUsable self.now.canvas.now.width self.now.canvas.now.height
            slice.now.references }
        requires copied { AreCopied slice.now.references self.now.canvas.now.width
            self.now.place.column self.now.place.row run.old.copied (planes_of planes.old) }
        requires still { GoesOnStill run.old.copied slice.now.number self.now.row.now info.old }
        ensures built { IsToldAndBuilt (address_of self.now.canvas.now.width self.now.place) mb.now
            info.new (around self.now.row.now slice.now.number) slice.now result
            (with_planes self.now.canvas.now (planes_of planes.old))
            (with_planes self.now.canvas.now (planes_of planes.new)) }
        ensures one { has_one_motion mb.now.syntax ≡ true →
            OnOk result (AreOfOneMotion info.new.motion) }
        ensures copied { OnOk result
            (AreCopied slice.now.references self.now.canvas.now.width (self.now.place.column + 1)
            self.now.place.row run.new.copied (planes_of planes.new)) }
        ensures still { OnOk result
            (0 < run.new.copied → info.new ≡ still_info slice.now.number) }
        ensures sized { AreSized self.now.canvas.now.width self.now.canvas.now.height
            (planes_of planes.new) }
    {
        if run.copied > 0 && is_skipped(mb) {
            let sources = sources(NO_NEIGHBOURS, &slice.references);
            run.build_copied(self.canvas, planes, self.place, mb, info, &sources);
            return Ok(());
        }
        let sources = sources(self.row.around(slice.number), &slice.references);
        info.set(
            mb,
            slice.number,
            &sources.neighbours,
            self.canvas.constrained_intra_pred,
        )?;
        *mixture = read_ahead(
            self.place,
            self.canvas.width,
            run.is_long(),
            &slice.references,
        );
        run.build(self.canvas, planes, self.place, mb, info, &sources)
    }
}
