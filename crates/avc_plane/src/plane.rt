//! A plane of samples, of which the rows stand some way apart.

ghost use Rattle.std.specs.Prelude.{◌≡◌, ◌==◌, ◌&&◌, ◌+◌, ◌*◌, ◌^◌, ◌<◌, ◌≤◌, IfOk, length};
ghost use Rattle.std.specs.Prelude.{replicate, slice_index, slice_range};
ghost use Rattle.avc_plane.specs.Plane.{sample, HasSamples, with_block, with_sample, plane_of};
ghost use Rattle.avc_plane.specs.Padded.{inner_plane, IsStored};

mod bytes;
mod lending;
mod rectangle;

use crate::block::BlockMut;
use crate::extension::extend;
use crate::padded::PaddedPlane;
use crate::stride::stride_of;
use avc_types::OutOfMemory;
pub use lending::RowsPlace;
use std::alloc::Global;
use std::marker::Model;

/// How many samples are cleared at once: where they are many, the C library takes an instruction
/// that goes from byte to byte.
const PIECE: usize = 1024;

/// This many zeros.
fn zeros(alloc: Global, count: usize) -> Result<Vec<u8>, OutOfMemory>
    ensures { IfOk result (λ zeros. zeros.items ≡ replicate count 0) }
{
    let mut zeros = Vec::with_capacity(alloc, count)?;
    for piece in 0..count / PIECE {
        zeros.resize(PIECE * piece + PIECE, 0)?;
    }
    zeros.resize(count, 0)?;
    Ok(zeros)
}

/// A plane of samples, in memory with PAD more on each side. A contract sees it as its size and its
/// samples row by row, without the padding.
#[derive(Drop)]
pub struct Plane<const PAD: usize> {
    width: usize,
    height: usize,

    /// From a row to the next.
    stride: usize,

    /// All rows, those of the padding too.
    stored: Vec<u8>,
}

impl<const PAD: usize> Model for Plane<PAD> {
    ghost use Rattle.avc_plane.specs.Plane.{Plane as SamplesByPlace};
    ghost use Rattle.avc_plane.specs.Padded.{inner_plane, IsStored};

    ghost Value = { SamplesByPlace };

    ghost view = { λ p. inner_plane PAD p.stride p.width p.height p.stored.items };

    ghost invariant = { λ p. IsStored PAD p.stride p.width p.height p.stored.items };
}

impl<const PAD: usize> Plane<PAD> {
    /// A plane of this many columns and rows, all 0.
    pub fn new(alloc: Global, width: usize, height: usize) -> Result<Self, OutOfMemory>
        requires narrow { width + 2 * PAD < 2 ^ 31 }
        requires low { height + 2 * PAD < 2 ^ 31 }
        ensures { IfOk result (λ plane. plane ≡ plane_of width height (λ _ _. 0)) }
    {
        let stride = stride_of(width, PAD);
        let stored = zeros(alloc, (height + 2 * PAD) * stride)?;
        Ok(Plane {
            width,
            height,
            stride,
            stored,
        })
    }

    /// The plane whose padded rows are these.
    pub(crate) fn from_rows(width: usize, height: usize, stride: usize, stored: Vec<u8>) -> Self
        requires { IsStored PAD stride width height stored.items }
        ensures { result ≡ inner_plane PAD stride width height stored.items }
    {
        Plane {
            width,
            height,
            stride,
            stored,
        }
    }

    /// The number of columns.
    pub fn width(&self) -> usize
        ensures { result ≡ self.now.width }
    {
        self.width
    }

    /// The number of rows.
    pub fn height(&self) -> usize
        ensures { result ≡ self.now.height }
    {
        self.height
    }

    /// Whether it has this many columns and rows.
    pub(crate) fn has_size(&self, width: usize, height: usize) -> bool
        ensures { result ≡ (self.now.width == width && self.now.height == height) }
    {
        self.width == width && self.height == height
    }

    /// The sample in column `x` and row `y`.
    pub fn get(&self, x: usize, y: usize) -> u8
        requires column { x < self.now.width }
        requires row { y < self.now.height }
        ensures { result ≡ sample self.now x y }
    {
        let stride = self.stride;
        self.stored[(y + PAD) * stride + (x + PAD)]
    }

    /// Changes the sample in column `x` and row `y`, and no other.
    pub fn set(&mut self, x: usize, y: usize, value: u8)
        requires column { x < self.old.width }
        requires row { y < self.old.height }
        ensures { self.new ≡ with_sample self.old x y value }
    {
        let stride = self.stride;
        let place = (y + PAD) * stride + (x + PAD);
        self.stored[place] = value;
    }

    /// Changes the samples of a rectangle with `left` columns left of it and `top` rows above it,
    /// and no other. `samples` are those of its rows from the top on, each from the left.
    pub fn set_block(
        &mut self,
        left: usize,
        top: usize,
        width: usize,
        height: usize,
        samples: &[u8],
    )
        requires columns { left + width ≤ self.old.width }
        requires rows { top + height ≤ self.old.height }
        requires all { length samples.now ≡ width * height }
        ensures { self.new
            ≡ with_block self.old left top width height
            (λ x y. slice_index samples.now (width * y + x)) }
    {
        let _ = &self.stored;
        for row in 0..height {
            self.set_line(left, top + row, &samples[width * row..width * row + width]);
        }
    }

    /// Lends the block of W columns and H rows that has `left` columns left of it and `top` rows
    /// above it.
    pub fn block_mut<const W: usize, const H: usize>(
        &mut self,
        left: usize,
        top: usize,
    ) -> BlockMut<'_, W, H, PAD>
        requires columns { left + W ≤ self.old.width }
        requires rows { top + H ≤ self.old.height }
        ensures same_reference { result.plane.ghost_name ≡ self.entry.ghost_name }
        ensures samples { result.plane.now ≡ self.old }
        ensures place { (result.left ≡ left) × (result.top ≡ top) }
    {
        let _ = &self.stored;
        BlockMut::new(self, left, top)
    }

    // changes some neighbouring samples of row `y`
    #[inline]
    pub(crate) fn set_line(&mut self, left: usize, y: usize, samples: &[u8])
        requires columns { left + length samples.now ≤ self.old.width }
        requires row { y < self.old.height }
        ensures { self.new
            ≡ with_block self.old left y (length samples.now) 1 (λ x _. slice_index samples.now x) }
    {
        let stride = self.stride;
        let start = (y + PAD) * stride + (left + PAD);
        self.stored[start..start + samples.len()].copy_from_slice(samples);
    }

    /// The samples of row `y`, from the left.
    pub fn row(&self, y: usize) -> &[u8]
        requires { y < self.now.height }
        ensures { result.now
            ≡ slice_range self.now.samples (y * self.now.width)
            (y * self.now.width + self.now.width) }
    {
        let stride = self.stride;
        let start = (y + PAD) * stride + PAD;
        &self.stored[start..start + self.width]
    }

    /// The same plane with its nearest samples around it, to be read alone.
    pub fn pad(self) -> PaddedPlane<PAD>
        requires { HasSamples self }
        ensures { result ≡ self.entry }
    {
        let width = self.width;
        let height = self.height;
        let stride = self.stride;
        let mut stored = self.stored;
        extend(stored.as_mut_slice(), width, height, PAD, stride);
        PaddedPlane::from_rows(width, height, stride, stored)
    }
}
