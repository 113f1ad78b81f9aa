//! Rows of samples in lists.

ghost use Rattle.std.specs.Prelude.{◌≡◌, ℕ, ◌+◌, ◌*◌, ◌<◌, ◌≤◌, length, slice_index};

use std::simd::prelude::*;

/// Copies sixteen samples.
#[inline(always)]
fn copy_sixteen(samples: &[u8], from: usize, rows: &mut [u8], to: usize)
    requires source { from + 16 ≤ length samples.now }
    requires target { to + 16 ≤ length rows.old }
    ensures before { (k : ℕ) → k < to → slice_index rows.new k ≡ slice_index rows.old k }
    ensures here { (i : ℕ) → i < 16 → slice_index rows.new (to + i)
        ≡ slice_index samples.now (from + i) }
{
    u8x16::from_slice(&samples[from..]).copy_to_slice(&mut rows[to..]);
}

/// Copies `count` samples, and perhaps some that follow them.
#[inline(always)]
fn copy_row(samples: &[u8], from: usize, rows: &mut [u8], to: usize, count: usize)
    requires few { count ≤ 32 }
    requires source { from + count ≤ length samples.now }
    requires source_of_sixteen { from + 16 ≤ length samples.now }
    requires target { to + count ≤ length rows.old }
    requires target_of_sixteen { to + 16 ≤ length rows.old }
    ensures before { (k : ℕ) → k < to → slice_index rows.new k ≡ slice_index rows.old k }
    ensures here { (i : ℕ) → i < count → slice_index rows.new (to + i)
        ≡ slice_index samples.now (from + i) }
{
    copy_sixteen(samples, from, rows, to);
    if count > 16 {
        let rest = count - 16;
        copy_sixteen(samples, from + rest, rows, to + rest);
    }
}

/// Copies a rectangle of samples out of rows that lie `stride` apart: `height` rows of `width`
/// samples, from place `first` on, one after another. What follows them in `rows` may change too.
#[inline(always)]
pub fn copy_rows(
    samples: &[u8],
    first: usize,
    stride: usize,
    width: usize,
    height: usize,
    rows: &mut [u8],
)
    requires narrow { width ≤ 32 }
    requires source { (y : ℕ) → y < height → first + y * stride + width ≤ length samples.now }
    requires source_of_sixteen { (y : ℕ) → y < height →
        first + y * stride + 16 ≤ length samples.now }
    requires target { height * width ≤ length rows.old }
    requires target_of_sixteen { (y : ℕ) → y < height → y * width + 16 ≤ length rows.old }
    ensures { (x y : ℕ) → x < width → y < height → slice_index rows.new (y * width + x)
        ≡ slice_index samples.now (first + y * stride + x) }
{
    for y in 0..height {
        copy_row(samples, first + y * stride, rows, y * width, width);
    }
}
