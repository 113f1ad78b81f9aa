//! Macroblocks that stand still one after another: they are copied several at a time, ahead of
//! their decoding.

ghost use Rattle.std.specs.Prelude.{◌≡◌, ◌+◌, ◌*◌, ◌<◌, ◌≤◌, true, Some, None, All, IfSome, OnOk};
ghost use Rattle.std.specs.Prelude.{slice_index_or, Ok};
ghost use Rattle.std.specs.Option.{option_copied};
ghost use Rattle.avc_types.specs.Macroblock.{p_skip};
ghost use Rattle.avc_neigh.specs.Around.{info_of};
ghost use Rattle.avc_neigh.specs.Modes.{IsMode};
ghost use Rattle.avc_motion.specs.Motion.{AreOfOneMotion, has_one_motion, still_blocks};
ghost use Rattle.avc_plane.specs.Frames.{planes_of, AreSized};
ghost use Rattle.avc_picture_core.specs.Built.{Place};
ghost use Rattle.avc_picture_core.specs.Canvas.{address_of, IsBuilt, IsInRange, IsPlaceOn};
ghost use Rattle.avc_picture_core.specs.CanvasFields.{with_planes};
ghost use Rattle.avc_picture_core.specs.References.{AreUsable};
ghost use Rattle.avc_picture.specs.MacroblockInfo.{still_info};
ghost use Rattle.avc_picture.specs.StillRuns.{AreCopied, IsBuiltAhead, KeepsEarlier};

use crate::current_info::{CurrentInfo, is_skipped};
use avc_picture_core::{Canvas, MbPlace, ReferencePicture, Sources, build_in_place, copy_run};
use avc_plane::Planes;
use avc_types::{Fault, Mb};

/// Of so many macroblocks that stood still one after another one is copied ahead: where they end,
/// little was copied in vain.
const STREAK_FOR_ONE: usize = 4;

/// Fewer than these are not: to copy each by itself takes less.
const FEWEST_AHEAD: usize = 4;

/// The macroblocks of a slice that stand still one after another.
#[derive(Clone, Copy)]
pub(crate) struct StillRun {
    /// How many from the next one on, in its row, have the samples already that they have where
    /// they are skipped and stand still.
    pub(crate) copied: usize,

    /// How many stood still just now, those that are copied included. It says alone how many are
    /// copied ahead.
    streak: usize,
}

/// The picture that reference index 0 names, where it has no weights.
fn plain_first<'r, 'a, const PAD: usize>(
    references: &'r [Option<ReferencePicture<'a, PAD>>],
) -> Option<&'r ReferencePicture<'a, PAD>>
    ensures { IfSome (option_copied result)
        (λ picture. (slice_index_or references.now 0 None ≡ Some picture) ×
        (picture.weights ≡ None)) }
{
    match references.first() {
        Some(Some(picture)) if picture.weights.is_none() => Some(picture),
        _ => None,
    }
}

/// Copies `count` macroblocks from this one on, where they can be. Answers how many were copied.
// by itself: most macroblocks need none of it
#[inline(never)]
fn copy_ahead<const PAD: usize>(
    canvas: &Canvas,
    planes: &mut Planes<PAD>,
    place: MbPlace,
    count: usize,
    references: &[Option<ReferencePicture<'_, PAD>>],
) -> usize
    requires columns { place.column + count ≤ canvas.now.width }
    requires row { place.row < canvas.now.height }
    requires sized { AreSized canvas.now.width canvas.now.height (planes_of planes.old) }
    requires references { AreUsable canvas.now.width canvas.now.height references.now }
    ensures copied { AreCopied references.now canvas.now.width place.column place.row result
        (planes_of planes.new) }
    ensures earlier { KeepsEarlier canvas.now.width canvas.now.height
        (address_of canvas.now.width place) (planes_of planes.old) (planes_of planes.new) }
    ensures sized { AreSized canvas.now.width canvas.now.height (planes_of planes.new) }
{
    match plain_first(references) {
        Some(picture) => {
            copy_run(picture.planes, place, count, planes);
            count
        }
        None => 0,
    }
}

impl StillRun {
    /// Before the first macroblock of a slice.
    pub(crate) fn new() -> Self
        ensures { result.copied ≡ 0 }
    {
        StillRun {
            copied: 0,
            streak: 0,
        }
    }

    /// Whether so many stood still just now that others are copied ahead.
    pub(crate) fn is_long(&self) -> bool {
        self.streak / STREAK_FOR_ONE >= FEWEST_AHEAD
    }

    /// How many macroblocks are to be copied ahead from this column on.
    fn count_ahead(&self, column: usize, width: usize) -> usize
        requires { column ≤ width }
        ensures { column + result ≤ width }
    {
        let count = self.streak / STREAK_FOR_ONE;
        if count < FEWEST_AHEAD {
            return 0;
        }
        count.min(width - column)
    }

    /// Copies samples of this macroblock and of those behind it where it stands still, as did
    /// enough before it, and has none copied yet.
    fn go_on<const PAD: usize>(
        &mut self,
        canvas: &Canvas,
        planes: &mut Planes<PAD>,
        place: MbPlace,
        references: &[Option<ReferencePicture<'_, PAD>>],
    )
        requires column { place.column < canvas.now.width }
        requires row { place.row < canvas.now.height }
        requires sized { AreSized canvas.now.width canvas.now.height (planes_of planes.old) }
        requires references { AreUsable canvas.now.width canvas.now.height references.now }
        requires copied { AreCopied references.now canvas.now.width place.column place.row
            self.old.copied (planes_of planes.old) }
        ensures copied { AreCopied references.now canvas.now.width place.column place.row
            self.new.copied (planes_of planes.new) }
        ensures earlier { KeepsEarlier canvas.now.width canvas.now.height
            (address_of canvas.now.width place) (planes_of planes.old) (planes_of planes.new) }
        ensures sized { AreSized canvas.now.width canvas.now.height (planes_of planes.new) }
    {
        let count = self.count_ahead(place.column, canvas.width);
        if self.copied == 0 && count > 0 {
            self.copied = copy_ahead(canvas, planes, place, count, references);
        }
        self.streak = self.streak.saturating_add(self.copied.max(1));
    }

    /// Builds the skipped macroblock at this place, which stands still, where it is copied already.
    #[inline(always)]
    pub(crate) fn build_copied<const PAD: usize>(
        &mut self,
        canvas: &Canvas,
        planes: &Planes<PAD>,
        place: MbPlace,
        mb: &Mb,
        info: &CurrentInfo,
        sources: &Sources<'_, PAD>,
    )
        requires column { place.column < canvas.now.width }
        requires row { place.row < canvas.now.height }
        requires sized { AreSized canvas.now.width canvas.now.height (planes_of planes.now) }
        requires references { AreUsable canvas.now.width canvas.now.height
            sources.now.references.now }
        requires some { 0 < self.old.copied }
        requires copied { AreCopied sources.now.references.now canvas.now.width place.column
            place.row self.old.copied (planes_of planes.now) }
        requires skipped { mb.now.syntax ≡ p_skip }
        requires still { info.now.motion ≡ still_blocks }
        ensures copied { AreCopied sources.now.references.now canvas.now.width (place.column + 1)
            place.row self.new.copied (planes_of planes.now) }
        ensures built { (p : Place) →
            IsPlaceOn (with_planes canvas.now (planes_of planes.now))
            (address_of canvas.now.width place) mb.now info.now (info_of sources.now.neighbours)
            sources.now.references.now p →
            IsBuilt p (Ok tt) (with_planes canvas.now (planes_of planes.now))
            (with_planes canvas.now (planes_of planes.now)) }
    {
        self.copied -= 1;
        build_in_place(canvas, planes, place, mb, info.info(), sources);
    }

    /// Builds the macroblock at this place in the planes, of which `info` is known, as
    /// `Canvas::build` does; of those that stand still, several at a time.
    #[inline(always)]
    pub(crate) fn build<const PAD: usize>(
        &mut self,
        canvas: &Canvas,
        planes: &mut Planes<PAD>,
        place: MbPlace,
        mb: &Mb,
        info: &CurrentInfo,
        sources: &Sources<'_, PAD>,
    ) -> Result<(), Fault>
        requires column { place.column < canvas.now.width }
        requires row { place.row < canvas.now.height }
        requires sized { AreSized canvas.now.width canvas.now.height (planes_of planes.old) }
        requires syntax { IsInRange mb.now.syntax }
        requires quantiser { mb.now.qp ≤ 51 }
        requires modes { All IsMode info.now.modes }
        requires one { has_one_motion mb.now.syntax ≡ true → AreOfOneMotion info.now.motion }
        requires references { AreUsable canvas.now.width canvas.now.height
            sources.now.references.now }
        requires copied { AreCopied sources.now.references.now canvas.now.width place.column
            place.row self.old.copied (planes_of planes.old) }
        ensures copied { OnOk result
            (AreCopied sources.now.references.now canvas.now.width (place.column + 1) place.row
            self.new.copied (planes_of planes.new)) }
        ensures built { IsBuiltAhead (address_of canvas.now.width place) mb.now info.now
            (info_of sources.now.neighbours) sources.now.references.now result
            (with_planes canvas.now (planes_of planes.old))
            (with_planes canvas.now (planes_of planes.new)) }
        ensures still { 0 < self.new.copied → info.now ≡ still_info info.now.slice }
        ensures sized { AreSized canvas.now.width canvas.now.height (planes_of planes.new) }
    {
        if info.is_still() && is_skipped(mb) {
            self.go_on(canvas, planes, place, sources.references);
            if self.copied > 0 {
                self.build_copied(canvas, planes, place, mb, info, sources);
                return Ok(());
            }
        } else {
            *self = StillRun::new();
        }
        // called once, so that it becomes part of this
        canvas.build(planes, place, mb, info.info(), sources)
    }
}
