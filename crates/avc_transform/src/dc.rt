//! The DC values of luma and chroma (8.5.10, 8.5.11).

ghost use Rattle.std.specs.Prelude.{◌≡◌, ℕ, ℤ, ◌+◌, ◌*◌, ◌^◌, ◌<◌, ◌≤◌, ◌+ℤ◌, ◌*ℤ◌};
ghost use Rattle.std.specs.Prelude.{pos, [], ◌∷◌, slice_index_or};
ghost use Rattle.avc_types.specs.Arithmetic.{◌>>ℤ◌};
ghost use Rattle.avc_transform.specs.Bounds.{IsBelow, AllBelow, HasRows};
ghost use Rattle.avc_transform.specs.Lines.{AreBelow, AreLines, IsLine};
ghost use Rattle.avc_transform.specs.Residual.{hadamard_row, luma_dc, luma_dc_scaled};
ghost use Rattle.avc_transform.specs.Residual.{chroma_dc, chroma_dc_product, chroma_dc_scaled};

use crate::inverse::half_of;
use crate::lanes::{differences, sums};
use crate::lines::{Lines, exchanged, in_rows};
use crate::scaling::{dc_scale, in_columns, times};

/// The product of a row of four with the matrix (8.5.10).
fn hadamard_row(a: i32, b: i32, c: i32, d: i32) -> [i32; 4]
    requires small0 { IsBelow (2 ^ 14) a }
    requires small1 { IsBelow (2 ^ 14) b }
    requires small2 { IsBelow (2 ^ 14) c }
    requires small3 { IsBelow (2 ^ 14) d }
    ensures values { (x : ℕ) → x < 4 → slice_index_or result x (pos 0)
        ≡ hadamard_row (λ u. slice_index_or (a ∷ b ∷ c ∷ d ∷ []) u (pos 0)) x }
    ensures small { (x n : ℕ) → x < 4 → IsBelow n a → IsBelow n b → IsBelow n c → IsBelow n d →
        IsBelow (4 * n) (slice_index_or result x (pos 0)) }
{
    [
        (a + b) + (c + d),
        (a + b) - (c + d),
        (a - b) - (c - d),
        (a - b) + (c - d),
    ]
}

/// The products of four rows, or columns, with the matrix at once (8.5.10).
#[inline(always)]
fn hadamard4(d: Lines) -> Lines
    requires { AreBelow (2 ^ 29) d }
    ensures values { (f : ℕ → ℕ → ℤ) → AreLines f d →
        AreLines (λ x y. hadamard_row (λ u. f u y) x) result }
    ensures small { (n : ℕ) → AreBelow n d → AreBelow (4 * n) result }
{
    let e0 = sums(d.d0, d.d1);
    let e1 = differences(d.d0, d.d1);
    let e2 = sums(d.d2, d.d3);
    let e3 = differences(d.d2, d.d3);
    Lines {
        d0: sums(e0, e2),
        d1: differences(e0, e2),
        d2: differences(e1, e3),
        d3: sums(e1, e3),
    }
}

/// A value of the product times a scale, and a quarter of that, rounded to the nearest.
#[inline(always)]
fn quarter_scaled(f: i32, scale: u32) -> i32
    requires small { IsBelow (2 ^ 16) f }
    requires scale { scale ≤ 18 * 2 ^ 8 }
    ensures value { result ≡ (f *ℤ pos scale +ℤ pos 2 >>ℤ 2) }
    ensures small { IsBelow (2 ^ 27) result }
{
    (times(f, scale) + 2) >> 2
}

/// Four values of the product, scaled (8.5.10). The standard shifts right below QP 36 and left from
/// there on; a quarter, rounded, is the same as both, so no quantiser is asked for.
#[inline(always)]
fn luma_dc_scaled(f: [i32; 4], qp: u8) -> [i32; 4]
    requires small { AllBelow 4 (2 ^ 16) f }
    requires quantiser { qp ≤ 51 }
    ensures values { IsLine (λ k. luma_dc_scaled qp (slice_index_or f k (pos 0))) result }
    ensures small { AllBelow 4 (2 ^ 27) result }
{
    let scale = dc_scale(qp);
    [
        quarter_scaled(f[0], scale),
        quarter_scaled(f[1], scale),
        quarter_scaled(f[2], scale),
        quarter_scaled(f[3], scale),
    ]
}

/// The DC values of the sixteen luma blocks of an Intra 16x16 macroblock, by the blocks' column and
/// row, from its DC levels and its quantiser of 0 to 51 (8.5.2, 8.5.10).
pub fn luma_dc(levels: &[i16; 16], qp: u8) -> [i32; 16]
    requires quantiser { qp ≤ 51 }
    requires levels { AllBelow 16 (2 ^ 12) levels.now }
    ensures values { HasRows (luma_dc qp levels.now) result }
    ensures small { AllBelow 16 (2 ^ 27) result }
{
    let rows = hadamard4(exchanged(hadamard4(in_columns(levels))));
    in_rows(Lines {
        d0: luma_dc_scaled(rows.d0, qp),
        d1: luma_dc_scaled(rows.d1, qp),
        d2: luma_dc_scaled(rows.d2, qp),
        d3: luma_dc_scaled(rows.d3, qp),
    })
}

/// One value of the product, scaled (8.5.11.2): half of it, since the scale lacks the factor of
/// sixteen that the standard's shift by five takes away again.
fn chroma_dc_scaled(f: i32, qp: u8) -> i32
    requires small { IsBelow (2 ^ 14) f }
    requires quantiser { qp ≤ 39 }
    ensures value { result ≡ chroma_dc_scaled qp f }
    ensures small { IsBelow (2 ^ 27) result }
{
    half_of(times(f, dc_scale(qp)))
}

/// The product of the levels, as the rows of a 2x2 matrix, with the matrix of signs from both sides
/// (8.5.11.1).
fn chroma_dc_product(levels: &[i16; 4]) -> [i32; 4]
    requires { AllBelow 4 (2 ^ 12) levels.now }
    ensures values { (x y : ℕ) → x < 2 → y < 2 → slice_index_or result (2 * y + x) (pos 0)
        ≡ chroma_dc_product levels.now x y }
    ensures small { AllBelow 4 (2 ^ 14) result }
{
    let [whole, below, both, across] = hadamard_row(
        i32::from(levels[0]),
        i32::from(levels[1]),
        i32::from(levels[2]),
        i32::from(levels[3]),
    );
    [whole, across, below, both]
}

/// The DC values of the four blocks of a chroma component, row by row, from its DC levels and the
/// quantiser of chroma, 0 to 39 (8.5.4, 8.5.11).
pub fn chroma_dc(levels: &[i16; 4], qp: u8) -> [i32; 4]
    requires quantiser { qp ≤ 39 }
    requires levels { AllBelow 4 (2 ^ 12) levels.now }
    ensures values { (x y : ℕ) → x < 2 → y < 2 → slice_index_or result (2 * y + x) (pos 0)
        ≡ chroma_dc qp levels.now x y }
    ensures small { AllBelow 4 (2 ^ 27) result }
{
    let mut out = chroma_dc_product(levels);
    for i in 0..4 {
        out[i] = chroma_dc_scaled(out[i], qp);
    }
    out
}
