//! Five rows of sixteen samples that lie below each other, which half samples between rows ask for
//! with a sixth (8.4.2.2.1).
//!
//! The half samples a row further down ask for four of them again, so they are kept, as wider
//! numbers: each row is read and widened once. L is as in `rows`.

ghost use Rattle.std.specs.Prelude.{◌≡◌, ℕ, ◌+◌, ◌*◌};
ghost use Rattle.avc_inter.specs.Patch.{half_along};
ghost use Rattle.avc_inter.specs.SixRows.{place_of, HasPlaces, AreSixteen};
ghost use Rattle.avc_inter.specs.FiveRows.{AreSamples, AreSampleRows, half_with, AreFiveRows};

use crate::row::widened;
use crate::source::Source;
use crate::taps::half_of_wide;
use std::simd::prelude::*;

/// Five rows of sixteen samples.
#[derive(Clone, Copy)]
pub struct FiveRows {
    pub e: u16x16,
    pub f: u16x16,
    pub g: u16x16,
    pub h: u16x16,
    pub i: u16x16,
}

impl FiveRows {
    /// Those of a block of 16 columns from this place on.
    #[inline(always)]
    pub fn of<const L: usize>(source: Source<'_, L>, at: usize) -> FiveRows
        requires sixteen { L ≡ 16 }
        requires there { HasPlaces L source.stride 16 (at + 5 * source.stride) source.samples.now }
        ensures { AreFiveRows result source.entry.samples.now at source.entry.stride }
    {
        let (p, stride) = (source.samples, source.stride);
        FiveRows {
            e: widened(p, at),
            f: widened(p, at + stride),
            g: widened(p, at + 2 * stride),
            h: widened(p, at + 3 * stride),
            i: widened(p, at + 4 * stride),
        }
    }

    /// The last four of them and a sixth.
    #[inline(always)]
    fn with(self, sixth: u16x16) -> FiveRows
        ensures { (result.e ≡ self.f) × (result.f ≡ self.g) × (result.g ≡ self.h)
            × (result.h ≡ self.i) × (result.i ≡ sixth) }
    {
        FiveRows {
            e: self.f,
            f: self.g,
            g: self.h,
            h: self.i,
            i: sixth,
        }
    }

    /// The half samples between the third and the fourth of them and of a sixth.
    #[inline(always)]
    fn halves_with(self, sixth: u16x16) -> [u8; 16]
        requires five { AreSampleRows self }
        requires sixth { AreSamples sixth }
        ensures { AreSixteen result (half_with self sixth) }
    {
        let (e, f, g) = (self.e.to_array(), self.f.to_array(), self.g.to_array());
        let (h, i, j) = (self.h.to_array(), self.i.to_array(), sixth.to_array());
        let mut out = [0; 16];
        for k in 0..16 {
            out[k] = half_of_wide(e[k], f[k], g[k], h[k], i[k], j[k]);
        }
        out
    }

    /// The half samples between the third and the fourth of them and of the row below. Then they
    /// are the rows from the second on.
    #[inline(always)]
    pub fn halves<const L: usize>(&mut self, source: Source<'_, L>, at: usize) -> [u8; 16]
        requires sixteen { L ≡ 16 }
        requires rows { AreFiveRows self.old source.samples.now at source.stride }
        requires there { HasPlaces L source.stride 16 (at + 5 * source.stride) source.samples.now }
        ensures value { AreSixteen result (λ k. half_along source.entry.samples.now
            (at + place_of L source.entry.stride k) source.entry.stride) }
        ensures moved { AreFiveRows self.new source.entry.samples.now
            (at + source.entry.stride) source.entry.stride }
    {
        let rows = *self;
        let sixth = widened(source.samples, at + 5 * source.stride);
        *self = rows.with(sixth);
        rows.halves_with(sixth)
    }
}
