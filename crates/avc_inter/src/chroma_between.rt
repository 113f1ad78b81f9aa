//! Chroma samples between whole ones, laid into rows (8.4.2.2.2).

ghost use Rattle.std.specs.Prelude.{◌≡◌, ◌+◌, ◌*◌, ◌/◌, ◌≤◌};
ghost use Rattle.avc_inter.specs.Laid.{HasRows, IsLaid};
ghost use Rattle.avc_inter.specs.Moved.{eighths_from};

use crate::bilinear::blend_rows;
use crate::target::Target;
use crate::vector::{Eighths, MovedPlace};
use crate::weights::BilinearWeights;
use avc_plane::{PaddedPlane, RowsPlace};
use avc_samples::{fetch_held, find_within};

/// Lays the samples by a patch with each coordinate held inside the plane.
#[cold]
#[inline(never)]
fn lay_far<const L: usize, const W: usize, const PAD: usize>(
    reference: &PaddedPlane<PAD>,
    at: MovedPlace,
    beyond: Eighths,
    count: usize,
    out: &mut [u8],
    to: Target<L, W>,
)
    requires low { count ≤ 4 }
    requires patch { (16 / L * count + 1) * (L + 1) ≤ 85 }
    requires room { HasRows W (16 / L * count) to.rows out.old }
    ensures { IsLaid W (16 / L * count) to.entry.rows
        (eighths_from reference.now at beyond) out.old out.new }
{
    let mut patch = [0; 85];
    let lines = 16 / L * count + 1;
    fetch_held(reference, at.left, at.top, L + 1, lines, &mut patch);
    let weights = BilinearWeights::new(beyond);
    let from = RowsPlace {
        first: 0,
        stride: L + 1,
    };
    blend_rows::<L, W>(&patch, from, count, weights, out, to);
}

/// Lays the samples between whole ones, in rows of L columns of which W are wanted: `count` times
/// sixteen of them.
#[inline(always)]
pub fn lay_eighths<const L: usize, const W: usize, const PAD: usize>(
    reference: &PaddedPlane<PAD>,
    at: MovedPlace,
    beyond: Eighths,
    count: usize,
    out: &mut [u8],
    to: Target<L, W>,
)
    requires low { count ≤ 4 }
    requires patch { (16 / L * count + 1) * (L + 1) ≤ 85 }
    requires room { HasRows W (16 / L * count) to.rows out.old }
    ensures { IsLaid W (16 / L * count) to.entry.rows
        (eighths_from reference.now at beyond) out.old out.new }
{
    match find_within(reference, at.left, at.top, L + 1, 16 / L * count + 1) {
        Some(from) => {
            let weights = BilinearWeights::new(beyond);
            let rows = reference.padded_rows();
            blend_rows::<L, W>(rows, from, count, weights, out, to);
        }
        None => lay_far::<L, W, PAD>(reference, at, beyond, count, out, to),
    }
}
