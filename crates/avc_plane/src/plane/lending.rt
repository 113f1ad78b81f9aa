//! The rows of a plane as they lie in memory, lent to be changed.

ghost use Rattle.std.specs.Prelude.{◌≡◌, ◌+◌, ◌*◌, ◌^◌, ◌<◌, ◌≤◌};
ghost use Rattle.std.specs.Borrow.{sem};
ghost use Rattle.avc_plane.specs.Padded.{stored_place, stride_of, HaveSamples};

use super::Plane;

/// Where a rectangle of samples lies in memory.
#[derive(Clone, Copy)]
pub struct RowsPlace {
    /// The place of its first sample.
    pub first: usize,

    /// From a row to the next.
    pub stride: usize,

    ghost narrow: { stride < 2 ^ 32 },
}

impl<const PAD: usize> Plane<PAD> {
    ghost use Rattle.avc_plane.specs.Lending.{lends_rows};

    /// Where the rectangle whose upper left sample is in column `x` and row `y` lies in the padded
    /// rows.
    #[inline(always)]
    pub fn padded_place(&self, x: usize, y: usize) -> RowsPlace
        requires column { x < self.now.width }
        requires row { y < self.now.height }
        ensures first { result.first ≡ stored_place PAD self.now.width x y }
        ensures stride { result.stride ≡ stride_of PAD self.now.width }
        ensures wide { self.now.width + 2 * PAD ≤ result.stride }
    {
        let stride = self.stride;
        RowsPlace {
            first: (y + PAD) * stride + (x + PAD),
            stride,
        }
    }

    /// Lends all rows with the padding, one after another.
    #[inline(always)]
    pub fn padded_rows_mut(&mut self) -> &mut [u8]
        ensures* writes_back { sem 𝓛 (lends_rows PAD.row PAD self.entry result) }
        ensures rows { HaveSamples PAD self.old result.now }
    {
        self.stored.as_mut_slice()
    }
}
