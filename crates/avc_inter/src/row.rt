//! The six-tap filter over a row of samples, sixteen at a time.

ghost use Rattle.std.specs.Prelude.{◌≡◌, ℕ, ℤ, FitsSigned, ◌+◌, ◌<◌, ◌≤◌, ◌*◌, ◌-ℤ◌, pos, length};
ghost use Rattle.std.specs.Prelude.{slice_index, slice_index_or};
ghost use Rattle.std.specs.Int.{w16, w32};
ghost use Rattle.std.specs.Simd.Lanes.{chunk, Each1};
ghost use Rattle.avc_inter.specs.SixTapRow.{taps_at};
ghost use Rattle.avc_inter.specs.Bounds.{AreAddable};

use crate::taps::taps;
use std::simd::prelude::*;

/// Sixteen samples, as wider numbers.
#[inline(always)]
pub fn widened(src: &[u8], at: usize) -> u16x16
    requires { at + 16 ≤ length src.now }
    ensures value { result ≡ chunk at 16 src.now }
    ensures small { Each1 (λ x. x ≤ 255) result }
{
    u8x16::from_slice(&src[at..]).cast::<u16>()
}

#[inline(always)]
pub fn sums(a: u16x16, b: u16x16) -> u16x16
    requires { AreAddable a b }
    ensures long { length result ≡ 16 }
    ensures at { (k : ℕ) → k < 16 → slice_index result k ≡ slice_index a k + slice_index b k }
    ensures small { (m n : ℕ) → Each1 (λ x. x ≤ m) a → Each1 (λ y. y ≤ n) b →
        Each1 (λ z. z ≤ m + n) result }
{
    a.strict_add(b)
}

#[inline(always)]
pub fn multiples(a: u16x16, by: u16) -> u16x16
    requires a_small { Each1 (λ x. x ≤ 510) a }
    requires by_small { by ≤ 128 }
    ensures long { length result ≡ 16 }
    ensures at { (k : ℕ) → k < 16 → slice_index result k ≡ slice_index a k * by }
    ensures small { (m : ℕ) → Each1 (λ x. x ≤ m) a → Each1 (λ z. z ≤ m * by) result }
{
    a.strict_mul(u16x16::splat(by))
}

fn differences(a: u16x16, b: u16x16) -> i32x16
    requires { AreAddable a b }
    ensures long { length result ≡ 16 }
    ensures at { (k : ℕ) → k < 16 →
        slice_index_or result k (pos 0) ≡ pos (slice_index a k) -ℤ pos (slice_index b k) }
    ensures fits { (k : ℕ) → k < 16 → FitsSigned w32 (slice_index_or result k (pos 0)) }
{
    a.cast::<i32>().strict_sub(b.cast::<i32>())
}

/// The differences of two rows in sixteen bits.
#[inline(always)]
pub fn narrow_differences(a: u16x16, b: u16x16) -> i16x16
    requires { AreAddable a b }
    ensures long { length result ≡ 16 }
    ensures at { (k : ℕ) → k < 16 →
        slice_index_or result k (pos 0) ≡ pos (slice_index a k) -ℤ pos (slice_index b k) }
    ensures fits { (k : ℕ) → k < 16 → FitsSigned w16 (slice_index_or result k (pos 0)) }
{
    a.cast::<i16>().strict_sub(b.cast::<i16>())
}

/// The taps at sixteen places.
fn taps16(src: &[u8], at: usize) -> i32x16
    requires { at + 21 ≤ length src.now }
    ensures long { length result ≡ 16 }
    ensures at { (k : ℕ) → k < 16 → slice_index_or result k (pos 0) ≡ taps_at src.now (at + k) }
    ensures fits { (k : ℕ) → k < 16 → FitsSigned w32 (slice_index_or result k (pos 0)) }
{
    let outer = sums(widened(src, at), widened(src, at + 5));
    let middle = sums(widened(src, at + 1), widened(src, at + 4));
    let inner = sums(widened(src, at + 2), widened(src, at + 3));
    differences(sums(outer, multiples(inner, 20)), multiples(middle, 5))
}

/// The six-tap filter (8.4.2.2.1) over a row: what it is, unrounded, over each six neighbours of
/// `src`.
pub fn six_tap_row(src: &[u8], dst: &mut [i32])
    requires { length src.now ≡ length dst.old + 5 }
    ensures { (i : ℕ) → i < length dst.old → slice_index_or dst.new i (pos 0) ≡ taps_at src.now i }
{
    let mut at = 0;
    'wide: while dst.len() - at >= 16 {
        taps16(src, at).copy_to_slice(&mut dst[at..]);
        at += 16;
    }
    for i in at..dst.len() {
        let sum = taps(
            src[i],
            src[i + 1],
            src[i + 2],
            src[i + 3],
            src[i + 4],
            src[i + 5],
        );
        dst[i] = i32::from(sum);
    }
}
