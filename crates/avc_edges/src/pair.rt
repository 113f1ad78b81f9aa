//! Cb and Cr side by side, so that both are filtered at once.

ghost use Rattle.std.specs.Prelude.{◌≡◌, ℕ, ◌+◌, ◌*◌, ◌/◌, ◌%◌, ◌<◌, ◌≤◌, length, slice_index};

use crate::table::set_samples;
use std::simd::prelude::*;

/// Eight rows of eight samples, and behind them eight others.
#[inline(always)]
pub(crate) fn joined(a: &[u8; 64], b: &[u8; 64]) -> [u8; 128]
    ensures first { (k : ℕ) → k < 64 → slice_index result k ≡ slice_index a.now k }
    ensures second { (k : ℕ) → k < 64 → slice_index result (64 + k) ≡ slice_index b.now k }
{
    let mut out = [0; 128];
    for k in 0..64 {
        out[k] = a[k];
        out[64 + k] = b[k];
    }
    out
}

/// Eight samples, from a place on.
#[inline(always)]
fn eight(src: &[u8], at: usize) -> u8x8
    requires { at + 8 ≤ length src.now }
    ensures long { length result ≡ 8 }
    ensures value { (k : ℕ) → k < 8 → slice_index result k ≡ slice_index src.now (at + k) }
{
    u8x8::from_slice(&src[at..])
}

/// Eight samples and then eight others.
#[inline(always)]
fn sixteen(first: u8x8, second: u8x8) -> [u8; 16]
    requires first { length first ≡ 8 }
    requires second { length second ≡ 8 }
    ensures first { (k : ℕ) → k < 8 → slice_index result k ≡ slice_index first k }
    ensures second { (k : ℕ) → k < 8 → slice_index result (8 + k) ≡ slice_index second k }
{
    first
        .shuffle::<16>(
            second,
            [0, 1, 2, 3, 4, 5, 6, 7, 8, 9, 10, 11, 12, 13, 14, 15],
        )
        .to_array()
}

/// Eight rows of eight samples, and to their right eight others.
#[inline(always)]
pub(crate) fn beside(a: &[u8; 64], b: &[u8; 64]) -> [u8; 128]
    ensures left { (r c : ℕ) → r < 8 → c < 8 →
        slice_index result (16 * r + c) ≡ slice_index a.now (8 * r + c) }
    ensures right { (r c : ℕ) → r < 8 → c < 8 →
        slice_index result (16 * r + (8 + c)) ≡ slice_index b.now (8 * r + c) }
{
    let mut out = [0; 128];
    for r in 0..8 {
        let row = sixteen(eight(a.as_slice(), 8 * r), eight(b.as_slice(), 8 * r));
        set_samples(&mut out, 16 * r, &row);
    }
    out
}

/// A value for each quarter of an edge, at each line of the first eight and at each of the second.
#[inline(always)]
pub(crate) fn spread_twice(v: &[u8; 4]) -> [u8; 16]
    ensures { (k : ℕ) → k < 16 → slice_index result k ≡ slice_index v.now (k % 8 / 2) }
{
    let mut out = [0; 16];
    for k in 0..16 {
        out[k] = v[k % 8 / 2];
    }
    out
}

/// The two rows in the middle of such a block, of its left or its right half.
#[inline(always)]
pub(crate) fn nearest(t: &[u8; 128], from: usize) -> [u8; 16]
    requires { from + 8 ≤ 16 }
    ensures { (r c : ℕ) → r < 2 → c < 8 →
        slice_index result (8 * r + c) ≡ slice_index t.now (16 * (3 + r) + (from + c)) }
{
    let mut out = [0; 16];
    for r in 0..2 {
        for c in 0..8 {
            out[8 * r + c] = t[16 * (3 + r) + (from + c)];
        }
    }
    out
}
