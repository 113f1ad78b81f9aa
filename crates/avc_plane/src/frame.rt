//! The planes of a picture, and stored frames.

ghost use Rattle.std.specs.Prelude.{◌≡◌, ◌+◌, ◌*◌, ◌^◌, ◌<◌, true, IfOk};
ghost use Rattle.avc_plane.specs.Plane.{HasSamples};
ghost use Rattle.avc_plane.specs.Planes.{empty_planes, HaveAllSamples};
ghost use Rattle.avc_plane.specs.Closed.{planes_of, padded_planes_of};
ghost use Rattle.avc_plane.specs.Frames.{marked_frame, AreSized};
ghost use Rattle.avc_plane.specs.Spare.{is_sized};

use crate::padded::PaddedPlane;
use crate::plane::Plane;
use crate::shared::SharedPlanes;
use avc_types::{Crop, Mark, MarkedFrame, OutOfMemory, PictureInfo};
use std::alloc::Global;

/// The planes of a picture at 4:2:0 (6.2). Those of chroma are half as wide and half as high as
/// that of luma.
#[derive(Drop)]
pub struct Planes<const PAD: usize> {
    pub luma: Plane<PAD>,

    pub cb: Plane<PAD>,

    pub cr: Plane<PAD>,
}

impl<const PAD: usize> Planes<PAD> {
    /// The planes of a picture of this size in macroblocks, all 0.
    pub fn new(alloc: Global, width: usize, height: usize) -> Result<Self, OutOfMemory>
        requires narrow { 16 * width + 2 * PAD < 2 ^ 31 }
        requires low { 16 * height + 2 * PAD < 2 ^ 31 }
        ensures { IfOk result (λ planes. planes_of planes ≡ empty_planes width height) }
    {
        Ok(Planes {
            luma: Plane::new(alloc, 16 * width, 16 * height)?,
            cb: Plane::new(alloc, 8 * width, 8 * height)?,
            cr: Plane::new(alloc, 8 * width, 8 * height)?,
        })
    }

    /// Whether they are those of a picture of this size in macroblocks.
    pub(crate) fn has_size(&self, width: usize, height: usize) -> bool
        requires narrow { 16 * width + 2 * PAD < 2 ^ 31 }
        requires low { 16 * height + 2 * PAD < 2 ^ 31 }
        ensures sized { result ≡ true → AreSized width height (planes_of self.now) }
        ensures found { AreSized width height (planes_of self.now) → result ≡ true }
        ensures exact { result ≡ is_sized width height (planes_of self.now) }
    {
        self.luma.has_size(16 * width, 16 * height)
            && self.cb.has_size(8 * width, 8 * height)
            && self.cr.has_size(8 * width, 8 * height)
    }

    /// The same planes with their nearest samples around them, to be read alone.
    pub fn pad(self) -> PaddedPlanes<PAD>
        requires luma { HasSamples self.luma }
        requires cb { HasSamples self.cb }
        requires cr { HasSamples self.cr }
        ensures { padded_planes_of result ≡ planes_of self.entry }
    {
        PaddedPlanes {
            luma: self.luma.pad(),
            cb: self.cb.pad(),
            cr: self.cr.pad(),
        }
    }
}

/// The planes of a picture that can't be changed any more, as inter prediction reads them.
#[derive(Drop)]
pub struct PaddedPlanes<const PAD: usize> {
    pub luma: PaddedPlane<PAD>,

    pub cb: PaddedPlane<PAD>,

    pub cr: PaddedPlane<PAD>,
}

impl<const PAD: usize> PaddedPlanes<PAD> {
    /// Does nothing. Each plane has as many samples as columns and rows say.
    #[inline(always)]
    pub(crate) fn hold_samples(&self)
        ensures { HaveAllSamples (padded_planes_of self.now) }
    {
        self.luma.holds_samples();
        self.cb.holds_samples();
        self.cr.holds_samples();
    }

    /// The planes, to be changed again.
    pub fn into_planes(self) -> Planes<PAD>
        ensures { planes_of result ≡ padded_planes_of self.entry }
    {
        Planes {
            luma: self.luma.into_plane(),
            cb: self.cb.into_plane(),
            cr: self.cr.into_plane(),
        }
    }
}

/// A stored frame: a decoded picture, or one that stands for a missing frame number (8.2.5.2).
#[derive(Drop)]
pub struct Frame<const PAD: usize> {
    /// Nothing where it stands for a missing frame number.
    pub planes: Option<SharedPlanes<PAD>>,

    /// FrameNum (8.2.4.1).
    pub frame_num: u32,

    /// How it is marked (8.2.5); nothing where it is unused for reference.
    pub mark: Option<Mark>,

    /// The cropping rectangle in luma samples (7.4.2.1.1).
    pub crop: Crop,

    /// What is known of the picture; of a missing frame number it says nothing.
    pub info: PictureInfo,
}

impl<const PAD: usize> Frame<PAD> {
    /// What reference lists and marking know of it.
    pub fn marked(&self) -> MarkedFrame
        ensures { result ≡ marked_frame self.now }
    {
        MarkedFrame {
            frame_num: self.frame_num,
            existing: self.planes.is_some(),
            mark: self.mark,
        }
    }
}
