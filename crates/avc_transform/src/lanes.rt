//! Four numbers side by side, which the processor takes at once.
ghost use Rattle.std.specs.Prelude.{◌≡◌, ℕ, ℤ, ◌+◌, ◌*◌, ◌^◌, pos, ◌+ℤ◌, ◌-ℤ◌, slice_index_or};
ghost use Rattle.avc_types.specs.Arithmetic.{◌>>ℤ◌};
ghost use Rattle.avc_transform.specs.Bounds.{AllBelow};
ghost use Rattle.avc_transform.specs.Lines.{IsLine};

use crate::inverse::{half_of, rounded};
use std::simd::prelude::*;

/// Their sums with four others.
#[inline(always)]
pub fn sums(a: [i32; 4], b: [i32; 4]) -> [i32; 4]
    requires a { AllBelow 4 (2 ^ 30) a }
    requires b { AllBelow 4 (2 ^ 30) b }
    ensures values { IsLine (λ k. slice_index_or a k (pos 0) +ℤ slice_index_or b k (pos 0)) result }
    ensures small { (m n : ℕ) → AllBelow 4 m a → AllBelow 4 n b → AllBelow 4 (m + n) result }
{
    i32x4::from_array(a)
        .strict_add(i32x4::from_array(b))
        .to_array()
}

/// What they are less four others.
#[inline(always)]
pub fn differences(a: [i32; 4], b: [i32; 4]) -> [i32; 4]
    requires a { AllBelow 4 (2 ^ 30) a }
    requires b { AllBelow 4 (2 ^ 30) b }
    ensures values { IsLine (λ k. slice_index_or a k (pos 0) -ℤ slice_index_or b k (pos 0)) result }
    ensures small { (m n : ℕ) → AllBelow 4 m a → AllBelow 4 n b → AllBelow 4 (m + n) result }
{
    i32x4::from_array(a)
        .strict_sub(i32x4::from_array(b))
        .to_array()
}

/// Their halves, rounded down.
#[inline(always)]
pub fn halves(a: [i32; 4]) -> [i32; 4]
    requires { AllBelow 4 (2 ^ 29) a }
    ensures values { IsLine (λ k. slice_index_or a k (pos 0) >>ℤ 1) result }
    ensures small { (n : ℕ) → AllBelow 4 (2 * n) a → AllBelow 4 (n + 1) result }
{
    [half_of(a[0]), half_of(a[1]), half_of(a[2]), half_of(a[3])]
}

/// Their 64ths, a half rounded up (8.5.12.2).
#[inline(always)]
pub fn all_rounded(a: [i32; 4]) -> [i32; 4]
    requires { AllBelow 4 (49 * 2 ^ 25 + 9) a }
    ensures values { IsLine (λ k. slice_index_or a k (pos 0) +ℤ pos 32 >>ℤ 6) result }
    ensures small { AllBelow 4 (2 ^ 25) result }
{
    [rounded(a[0]), rounded(a[1]), rounded(a[2]), rounded(a[3])]
}
