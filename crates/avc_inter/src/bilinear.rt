//! Weighted means of four neighbouring samples (8.4.2.2.2).

ghost use Rattle.std.specs.Prelude.{◌≡◌, ℕ, ◌+◌, ◌-◌, ◌*◌, ◌/◌, ◌^◌, ◌<◌, ◌≤◌, length, slice_index};
ghost use Rattle.avc_inter.specs.Patch.{blend_of};
ghost use Rattle.avc_inter.specs.SixRows.{place_of, HasPlaces, AreSixteen};
ghost use Rattle.avc_inter.specs.Laid.{sample_place, HasRows, IsLaid};

use crate::row::{multiples, sums, widened};
use crate::rows::{put_rows, sixteen};
use crate::source::Source;
use crate::target::Target;
use crate::weights::BilinearWeights;
use avc_plane::RowsPlace;

/// The weighted sums at sixteen places.
#[inline(always)]
fn sums_of(
    w: BilinearWeights,
    here: &[u8; 16],
    right: &[u8; 16],
    below: &[u8; 16],
    across: &[u8; 16],
) -> [u16; 16]
    ensures value { (k : ℕ) → k < 16 → slice_index result k ≡
        w.here * slice_index here.now k + w.right * slice_index right.now k
        + (w.below * slice_index below.now k + w.across * slice_index across.now k) }
    ensures small { (k : ℕ) → k < 16 → slice_index result k ≤ 16320 }
{
    let here = multiples(widened(here.as_slice(), 0), w.here);
    let right = multiples(widened(right.as_slice(), 0), w.right);
    let below = multiples(widened(below.as_slice(), 0), w.below);
    let across = multiples(widened(across.as_slice(), 0), w.across);
    let row = sums(here, right);
    let next = sums(below, across);
    sums(row, next).to_array()
}

/// A weighted sum in whole samples, rounded.
fn rounded(sum: u16) -> u8
    requires { sum ≤ 16320 }
    ensures { result ≡ (sum + 32) / 64 }
{
    ((sum + 32) / 64) as u8
}

/// The means at sixteen places.
#[inline(always)]
fn blends_of(
    w: BilinearWeights,
    here: &[u8; 16],
    right: &[u8; 16],
    below: &[u8; 16],
    across: &[u8; 16],
) -> [u8; 16]
    ensures { (k : ℕ) → k < 16 → slice_index result k ≡
        (w.here * slice_index here.now k + w.right * slice_index right.now k
        + w.below * slice_index below.now k + w.across * slice_index across.now k + 32) / 64 }
{
    let sums = sums_of(w, here, right, below, across);
    let mut out = [0; 16];
    for k in 0..16 {
        out[k] = rounded(sums[k]);
    }
    out
}

/// The means of each of sixteen samples and its three neighbours.
#[inline(always)]
fn blend_row<const L: usize>(source: Source<'_, L>, at: usize, w: BilinearWeights) -> [u8; 16]
    requires { HasPlaces L source.stride 16 (at + source.stride + 1) source.samples.now }
    ensures { AreSixteen result (λ k. blend_of w source.entry.samples.now source.entry.stride
        (at + place_of L source.entry.stride k)) }
{
    let here = sixteen::<L>(source, at);
    let right = sixteen::<L>(source, at + 1);
    let below = sixteen::<L>(source, at + source.stride);
    let across = sixteen::<L>(source, at + source.stride + 1);
    blends_of(w, &here, &right, &below, &across)
}

/// The means of each sample of a block and its three neighbours.
#[inline(always)]
pub fn blend_rows<const L: usize, const W: usize>(
    p: &[u8],
    from: RowsPlace,
    count: usize,
    w: BilinearWeights,
    out: &mut [u8],
    to: Target<L, W>,
)
    requires room { HasRows W (16 / L * count) to.rows out.old }
    requires samples { HasPlaces L from.stride (16 * count) (from.first + from.stride + 1) p.now }
    ensures { IsLaid W (16 / L * count) to.entry.rows
        (λ x y. blend_of w p.now from.stride (sample_place from x y)) out.old out.new }
{
    let source = Source {
        samples: p,
        stride: from.stride,
    };
    let lines = 16 / L * from.stride;
    let rows = 16 / L * to.rows.stride;
    for y in 0..count {
        let row = blend_row::<L>(source, from.first + y * lines, w);
        put_rows::<L, W>(out, to.rows.first + y * rows, to.rows.stride, &row);
    }
}
