//! The inverse transform of a 4x4 block (8.5.12.2).

ghost use Rattle.std.specs.Prelude.{◌≡◌, ℕ, ℤ, ◌+◌, ◌*◌, ◌^◌, ◌+ℤ◌, pos};
ghost use Rattle.avc_types.specs.Arithmetic.{◌>>ℤ◌};
ghost use Rattle.avc_transform.specs.Bounds.{IsBelow, AllBelow, HasRows};
ghost use Rattle.avc_transform.specs.Lines.{AreBelow, AreLines};
ghost use Rattle.avc_transform.specs.Residual.{transformed_row, transformed};

use crate::lanes::{all_rounded, differences, halves, sums};
use crate::lines::{Lines, exchanged, in_rows};

/// Half of a number, rounded down.
#[inline(always)]
pub fn half_of(d: i32) -> i32
    requires { IsBelow (2 ^ 29) d }
    ensures value { result ≡ (d >>ℤ 1) }
    ensures small { IsBelow (2 ^ 28 + 1) result }
    ensures half { (n : ℕ) → IsBelow (2 * n) d → IsBelow (n + 1) result }
{
    d >> 1
}

/// The one-dimensional inverse transform of four rows, or columns, at once (8.5.12.2).
#[inline(always)]
fn inverse4(d: Lines) -> Lines
    requires { AreBelow (2 ^ 29) d }
    ensures values { (f : ℕ → ℕ → ℤ) → AreLines f d → AreLines (transformed_row f) result }
    ensures small { (n : ℕ) → AreBelow (2 * n) d → AreBelow (7 * n + 1) result }
{
    let half1 = halves(d.d1);
    let half3 = halves(d.d3);
    let e0 = sums(d.d0, d.d2);
    let e1 = differences(d.d0, d.d2);
    let e2 = differences(half1, d.d3);
    let e3 = sums(d.d1, half3);
    Lines {
        d0: sums(e0, e3),
        d1: sums(e1, e2),
        d2: differences(e1, e2),
        d3: differences(e0, e3),
    }
}

/// The last rounding shift (8.5.12.2).
#[inline(always)]
pub fn rounded(v: i32) -> i32
    requires { IsBelow (49 * 2 ^ 25 + 9) v }
    ensures value { result ≡ (v +ℤ pos 32 >>ℤ 6) }
    ensures small { IsBelow (2 ^ 25) result }
{
    (v + 32) >> 6
}

/// The residual of a block, row by row, from the columns of its scaled levels (8.5.12.2).
#[inline(always)]
pub fn transformed(columns: Lines) -> [i32; 16]
    requires { AreBelow (2 ^ 27) columns }
    ensures values { (f : ℕ → ℕ → ℤ) → AreLines f columns → HasRows (transformed f) result }
    ensures small { AllBelow 16 (2 ^ 25) result }
{
    let rows = inverse4(exchanged(inverse4(columns)));
    in_rows(Lines {
        d0: all_rounded(rows.d0),
        d1: all_rounded(rows.d1),
        d2: all_rounded(rows.d2),
        d3: all_rounded(rows.d3),
    })
}
