//! Samples between whole ones, laid into rows (8.4.2.2.1).

ghost use Rattle.std.specs.Prelude.{◌≡◌, ◌+◌, ◌*◌, ◌/◌, ◌<◌, ◌≤◌, ◌^◌};
ghost use Rattle.avc_inter.specs.Laid.{HasRows, IsLaid};
ghost use Rattle.avc_inter.specs.Moved.{quarters_from};

use crate::positions::{count_around, quarters};
use crate::target::Target;
use crate::vector::{MovedPlace, Quarters};
use avc_plane::{PaddedPlane, RowsPlace};
use avc_samples::{fetch_held, find_within};

/// How much of a block is found: `count` times sixteen samples in rows of L columns. A patch of P
/// samples is room enough for these and those around them that the six taps ask for.
#[derive(Clone, Copy)]
pub struct Extent<const L: usize, const P: usize> {
    pub count: usize,

    ghost few: { count ≤ 16 },
    ghost enough: { 16 / L * (count + (5 * L + 15) / 16) * (L + 5) ≤ P },
    ghost short: { P < 65536 },
}

/// Lays the samples by a patch of `P` samples with each coordinate held inside the plane.
#[cold]
#[inline(never)]
fn lay_far<const L: usize, const W: usize, const PAD: usize, const P: usize>(
    reference: &PaddedPlane<PAD>,
    at: MovedPlace,
    beyond: Quarters,
    extent: Extent<L, P>,
    out: &mut [u8],
    to: Target<L, W>,
)
    requires { HasRows W (16 / L * extent.count) to.rows out.old }
    ensures { IsLaid W (16 / L * extent.entry.count) to.entry.rows
        (quarters_from reference.now at beyond) out.old out.new }
{
    let mut patch = [0; P];
    let lines = 16 / L * count_around(L, extent.count);
    fetch_held(reference, at.left - 2, at.top - 2, L + 5, lines, &mut patch);
    let from = RowsPlace {
        first: 0,
        stride: L + 5,
    };
    quarters::<L, W>(&patch, from, extent.count, beyond, out, to);
}

/// Lays the samples between whole ones, in rows of L columns of which W are wanted, by a patch of
/// `P` samples where the plane has not all that they ask for.
#[inline(always)]
pub fn lay_between<const L: usize, const W: usize, const PAD: usize, const P: usize>(
    reference: &PaddedPlane<PAD>,
    at: MovedPlace,
    beyond: Quarters,
    extent: Extent<L, P>,
    out: &mut [u8],
    to: Target<L, W>,
)
    requires { HasRows W (16 / L * extent.count) to.rows out.old }
    ensures { IsLaid W (16 / L * extent.entry.count) to.entry.rows
        (quarters_from reference.now at beyond) out.old out.new }
{
    let lines = 16 / L * count_around(L, extent.count);
    match find_within(reference, at.left - 2, at.top - 2, L + 5, lines) {
        Some(from) => {
            quarters::<L, W>(reference.padded_rows(), from, extent.count, beyond, out, to);
        }
        None => lay_far::<L, W, PAD, P>(reference, at, beyond, extent, out, to),
    }
}
