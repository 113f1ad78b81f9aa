//! A plane that changes no more, with its nearest samples around it (8.4.2.2.1).

ghost use Rattle.std.specs.Prelude.{◌≡◌, ◌+◌, ◌*◌, ◌^◌, ◌<◌, ◌≤◌, IfOk, length, slice_range};
ghost use Rattle.avc_plane.specs.Plane.{sample};
ghost use Rattle.avc_plane.specs.Padded.{inner_plane, stride_of, HaveRowsFrom, IsPadded};
ghost use Rattle.avc_plane.specs.Padded.{IsSurrounded};

use crate::lent::LentPlane;
use crate::plane::Plane;
use avc_types::{Bytes, OutOfMemory};
use std::alloc::Global;
use std::marker::Model;

/// A plane of samples that can't be changed any more, as inter prediction reads it: in memory with
/// PAD more on each side, each of them the nearest sample inside (8.4.2.2.1). A contract sees it as
/// the plane that it was made of, without the padding.
#[derive(Drop)]
pub struct PaddedPlane<const PAD: usize> {
    width: usize,
    height: usize,

    /// From a row to the next.
    stride: usize,

    /// All rows, those of the padding too.
    stored: Vec<u8>,
}

impl<const PAD: usize> Model for PaddedPlane<PAD> {
    ghost use Rattle.avc_plane.specs.Plane.{Plane as SamplesByPlace};
    ghost use Rattle.avc_plane.specs.Padded.{inner_plane, IsPadded};

    ghost Value = { SamplesByPlace };

    ghost view = { λ p. inner_plane PAD p.stride p.width p.height p.stored.items };

    ghost invariant = { λ p. IsPadded PAD p.stride p.width p.height p.stored.items };
}

impl<const PAD: usize> PaddedPlane<PAD> {
    /// The plane whose padded rows are these.
    pub(crate) fn from_rows(width: usize, height: usize, stride: usize, stored: Vec<u8>) -> Self
        requires { IsPadded PAD stride width height stored.items }
        ensures { result ≡ inner_plane PAD stride width height stored.items }
    {
        PaddedPlane {
            width,
            height,
            stride,
            stored,
        }
    }

    /// Does nothing. There are as many samples as columns and rows say.
    #[inline(always)]
    pub(crate) fn holds_samples(&self)
        ensures { length self.now.samples ≡ self.now.width * self.now.height }
    {
        let _ = &self.stored;
    }

    /// The number of columns.
    pub fn width(&self) -> usize
        ensures value { result ≡ self.now.width }
        ensures some { 0 < result }
        ensures narrow { result + 2 * PAD < 2 ^ 31 }
    {
        self.width
    }

    /// The number of rows.
    pub fn height(&self) -> usize
        ensures value { result ≡ self.now.height }
        ensures some { 0 < result }
        ensures low { result + 2 * PAD < 2 ^ 31 }
    {
        self.height
    }

    /// From a row to the next, in samples.
    pub fn stride(&self) -> usize
        ensures value { result ≡ stride_of PAD self.now.width }
        ensures wide { self.now.width + 2 * PAD ≤ result }
        ensures narrow { result < 2 ^ 32 }
    {
        self.stride
    }

    /// The sample in column `x` and row `y`.
    pub fn get(&self, x: usize, y: usize) -> u8
        requires column { x < self.now.width }
        requires row { y < self.now.height }
        ensures { result ≡ sample self.now x y }
    {
        let stride = self.stride;
        self.stored[(y + PAD) * stride + (x + PAD)]
    }

    /// The samples of row `y` without the padding, from the left.
    pub fn row(&self, y: usize) -> &[u8]
        requires { y < self.now.height }
        ensures { result.now
            ≡ slice_range self.now.samples (y * self.now.width)
            (y * self.now.width + self.now.width) }
    {
        let stride = self.stride;
        let start = (y + PAD) * stride + PAD;
        &self.stored[start..start + self.width]
    }

    /// The samples from column `x` and row `y` on, row by row with the padding between them.
    pub(crate) fn rows_from(&self, x: usize, y: usize) -> LentPlane<'_>
        requires column { x ≤ self.now.width }
        requires row { y ≤ self.now.height }
        requires padded { 0 < PAD }
        ensures { HaveRowsFrom self.now x y result.samples.now result.stride }
    {
        let stride = self.stride;
        let start = (y + PAD) * stride + (x + PAD);
        LentPlane {
            samples: &self.stored[start..],
            stride,
        }
    }

    /// All rows with the padding, one after another.
    pub fn padded_rows(&self) -> &[u8]
        ensures { IsSurrounded PAD self.now result.now }
    {
        let stored = &self.stored;
        stored.as_slice()
    }

    /// A copy of the samples without the padding, row by row.
    pub fn to_bytes(&self, alloc: Global) -> Result<Bytes, OutOfMemory>
        ensures { IfOk result (λ bytes. bytes ≡ self.now.samples) }
    {
        let mut bytes = Vec::with_capacity(alloc, self.width * self.height)?;
        for y in 0..self.height {
            bytes.extend_from_slice(self.row(y))?;
        }
        Ok(Bytes::from_vec(bytes))
    }

    /// The plane, to be changed again.
    pub fn into_plane(self) -> Plane<PAD>
        ensures { result ≡ self.entry }
    {
        Plane::from_rows(self.width, self.height, self.stride, self.stored)
    }
}
