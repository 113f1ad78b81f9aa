//! Closed planes with several holders: they change no more, so that who stores them, who predicts
//! from them and who shows them hold the same ones.

ghost use Rattle.std.specs.Prelude.{◌≡◌, IfErr, IfOk};
ghost use Rattle.avc_plane.specs.Planes.{AreSubsampled, HaveAllSamples};
ghost use Rattle.avc_plane.specs.Closed.{padded_planes_of};
ghost use Rattle.avc_plane.specs.Shown.{picture_of, IsLent};
ghost use Rattle.avc_types.specs.Whole.{IsWhole};

use crate::PADDING;
use crate::component::Component;
use crate::frame::PaddedPlanes;
use crate::lent::LentPlane;
use crate::picture_rows::{PictureRows, fits};
use avc_types::{Crop, OutOfMemory, Picture, PictureInfo};
use std::alloc::Global;
use std::marker::Model;
use std::rc::Rc;

/// The closed planes of a picture, held together with others. Their memory is given back once the
/// last holder has let go. A contract sees them as the planes.
#[derive(Drop)]
pub struct SharedPlanes<const PAD: usize> {
    planes: Rc<PaddedPlanes<PAD>>,
}

impl<const PAD: usize> Model for SharedPlanes<PAD> {
    ghost use Rattle.avc_plane.specs.Planes.{Planes, AreSubsampled};

    ghost Value = { Planes };

    ghost use Rattle.avc_plane.specs.Closed.{padded_planes_of};

    ghost view = { λ s. padded_planes_of s.planes.value };

    ghost invariant = { λ s. AreSubsampled (padded_planes_of s.planes.value) };
}

impl<const PAD: usize> SharedPlanes<PAD> {
    /// The first holder of these planes. Err where the counts of holders find no memory.
    pub fn new(alloc: Global, planes: PaddedPlanes<PAD>) -> Result<Self, OutOfMemory>
        requires { AreSubsampled (padded_planes_of planes) }
        ensures { IfOk result (λ shared. shared ≡ padded_planes_of planes.entry) }
    {
        Ok(SharedPlanes {
            planes: Rc::new(alloc, planes)?,
        })
    }

    /// The planes, to be read.
    pub fn padded(&self) -> &PaddedPlanes<PAD>
        ensures planes { padded_planes_of result.now ≡ self.now }
        ensures subsampled { AreSubsampled self.now }
        ensures all { HaveAllSamples self.now }
    {
        let planes = self.planes.as_ref();
        planes.hold_samples();
        planes
    }

    /// One holder more of the same planes. This takes no memory. Err where there are more holders
    /// than can be counted.
    pub fn share(&self) -> Result<Self, OutOfMemory>
        ensures { IfOk result (λ shared. shared ≡ self.now) }
    {
        Ok(SharedPlanes {
            planes: self.planes.clone()?,
        })
    }

    /// The planes, where nobody else holds them; else Err with what was asked.
    pub fn into_sole(self) -> Result<PaddedPlanes<PAD>, Self>
        ensures ok { IfOk result (λ planes. padded_planes_of planes ≡ self.entry) }
        ensures err { IfErr result (λ shared. shared ≡ self.entry) }
    {
        match Rc::try_unwrap(self.planes) {
            Ok(planes) => Ok(planes),
            Err(planes) => Err(SharedPlanes { planes }),
        }
    }
}

/// The closed planes of a frame that has left the buffer. Who has them can't drop them: they go to
/// `SparePlanes::put`, which keeps them for later pictures.
pub struct EmptiedPlanes<const PAD: usize> {
    planes: SharedPlanes<PAD>,
}

impl<const PAD: usize> Model for EmptiedPlanes<PAD> {
    ghost use Rattle.avc_plane.specs.Planes.{Planes};

    ghost Value = { Planes };

    ghost view = { λ e. e.planes };
}

impl<const PAD: usize> EmptiedPlanes<PAD> {
    /// These planes, of a frame that has left.
    pub fn new(planes: SharedPlanes<PAD>) -> Self
        ensures { result ≡ planes.entry }
    {
        EmptiedPlanes { planes }
    }

    /// The planes, to be kept.
    pub(crate) fn into_shared(self) -> SharedPlanes<PAD>
        ensures { result ≡ self.entry }
    {
        let EmptiedPlanes { planes } = self;
        planes
    }
}

/// A decoded picture whose planes others may hold too. A contract sees it as the `Picture` that it
/// is.
#[derive(Drop)]
pub struct SharedPicture {
    planes: SharedPlanes<PADDING>,
    crop: Crop,
    info: PictureInfo,
}

impl Model for SharedPicture {
    ghost use Rattle.avc_types.specs.declared.picture.Picture.{Picture};

    ghost Value = { Picture };

    ghost use Rattle.avc_plane.specs.Shown.{picture_of};

    ghost view = { λ p. picture_of p.planes p.crop p.info };
}

impl SharedPicture {
    /// The picture of these planes of which `crop` is not shown.
    pub fn new(planes: SharedPlanes<PADDING>, crop: Crop, info: PictureInfo) -> Self
        ensures { result ≡ picture_of planes crop info }
    {
        SharedPicture { planes, crop, info }
    }

    /// A copy in memory of its own.
    pub fn to_picture(&self, alloc: Global) -> Result<Picture, OutOfMemory>
        ensures { IfOk result (λ picture. picture ≡ self.now) }
    {
        let planes = self.planes.padded();
        Ok(Picture {
            width: planes.luma.width() as u32,
            height: planes.luma.height() as u32,
            crop: self.crop,
            info: self.info,
            luma: planes.luma.to_bytes(alloc)?,
            cb: planes.cb.to_bytes(alloc)?,
            cr: planes.cr.to_bytes(alloc)?,
        })
    }

    /// What is shown of a component, where it lies.
    pub fn lent_plane(&self, component: Component) -> LentPlane<'_>
        requires { IsWhole self.now }
        ensures { IsLent self.now component result.samples.now result.stride }
    {
        let left = self.crop.left as usize;
        let top = self.crop.top as usize;
        let planes = self.planes.padded();
        match component {
            Component::Luma => planes.luma.rows_from(left, top),
            Component::Cb => planes.cb.rows_from(left / 2, top / 2),
            Component::Cr => planes.cr.rows_from(left / 2, top / 2),
        }
    }
}

impl PictureRows for SharedPicture {
    ghost picture = { λ p. p };

    fn width(&self) -> u32 {
        self.planes.padded().luma.width() as u32
    }

    fn height(&self) -> u32 {
        self.planes.padded().luma.height() as u32
    }

    fn crop(&self) -> Crop {
        self.crop
    }

    fn info(&self) -> PictureInfo {
        self.info
    }

    fn is_whole(&self) -> bool {
        let luma = &self.planes.padded().luma;
        let width = luma.width();
        let height = luma.height();
        fits(self.crop.left, self.crop.right, width as u32)
            && fits(self.crop.top, self.crop.bottom, height as u32)
    }

    #[inline]
    fn row(&self, component: Component, y: usize) -> &[u8] {
        let planes = self.planes.padded();
        match component {
            Component::Luma => planes.luma.row(y),
            Component::Cb => planes.cb.row(y),
            Component::Cr => planes.cr.row(y),
        }
    }
}
