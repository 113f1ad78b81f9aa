//! Six rows of sixteen samples, which half samples between the third and the fourth ask for
//! (8.4.2.2.1). L is as in `rows`.

ghost use Rattle.std.specs.Prelude.{◌≡◌, ℕ, ◌+◌, ◌*◌, slice_index};
ghost use Rattle.avc_types.specs.Arithmetic.{mean_of_two};
ghost use Rattle.avc_inter.specs.SixRows.{HasPlaces, AreSixteen, AreSixRows, half_of};

use crate::rows::sixteen;
use crate::source::Source;
use crate::taps::{half, mean};

/// Six rows of sixteen samples.
#[derive(Clone, Copy)]
pub struct SixRows {
    pub e: [u8; 16],
    pub f: [u8; 16],
    pub g: [u8; 16],
    pub h: [u8; 16],
    pub i: [u8; 16],
    pub j: [u8; 16],
}

impl SixRows {
    /// Those of a block from this place on, each a step behind the last.
    #[inline(always)]
    pub fn of<const L: usize>(source: Source<'_, L>, at: usize, step: usize) -> SixRows
        requires { HasPlaces L source.stride 16 (at + 5 * step) source.samples.now }
        ensures { AreSixRows L source.entry.stride result source.entry.samples.now at step }
    {
        SixRows {
            e: sixteen::<L>(source, at),
            f: sixteen::<L>(source, at + step),
            g: sixteen::<L>(source, at + 2 * step),
            h: sixteen::<L>(source, at + 3 * step),
            i: sixteen::<L>(source, at + 4 * step),
            j: sixteen::<L>(source, at + 5 * step),
        }
    }

    /// The half samples.
    #[inline(always)]
    pub fn halves(self) -> [u8; 16]
        ensures { AreSixteen result (half_of self) }
    {
        let (e, f, g, h, i, j) = (self.e, self.f, self.g, self.h, self.i, self.j);
        let mut out = [0; 16];
        for k in 0..16 {
            out[k] = half(e[k], f[k], g[k], h[k], i[k], j[k]);
        }
        out
    }

    /// Their means with sixteen whole samples.
    #[inline(always)]
    pub fn quarters(self, whole: &[u8; 16]) -> [u8; 16]
        ensures { AreSixteen result
            (λ k. mean_of_two (slice_index whole.now k) (half_of self k)) }
    {
        let (e, f, g, h, i, j) = (self.e, self.f, self.g, self.h, self.i, self.j);
        let whole = *whole;
        let mut out = [0; 16];
        // one loop: the compiler takes a loop of means alone apart
        for k in 0..16 {
            out[k] = mean(whole[k], half(e[k], f[k], g[k], h[k], i[k], j[k]));
        }
        out
    }
}
