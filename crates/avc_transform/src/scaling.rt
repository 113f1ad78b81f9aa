//! Scaling by the flat matrix (8.5.9, 8.5.12.1).

ghost use Rattle.std.specs.Prelude.{◌≡◌, ℕ, ◌+◌, ◌*◌, ◌-◌, ◌/◌, ◌%◌, ◌^◌, ◌<◌, ◌≤◌, ◌*ℤ◌, pos};
ghost use Rattle.std.specs.Prelude.{slice_index, slice_index_or};
ghost use Rattle.avc_transform.specs.Bounds.{IsBelow, AllBelow};
ghost use Rattle.avc_transform.specs.Lines.{AreBelow, AreLines, IsLine};
ghost use Rattle.avc_transform.specs.Residual.{scaled_block, scaled_block_with_dc, level};
ghost use Rattle.avc_transform.specs.Residual.{level_scale, zigzag, even_scale};

use crate::lines::Lines;

/// normAdjust4x4 by QP modulo 6 (8.5.9), in an even column of a 4x4 block from above down.
static EVEN_SCALES: [[u32; 4]; 6] = [
    [10, 13, 10, 13],
    [11, 14, 11, 14],
    [13, 16, 13, 16],
    [14, 18, 14, 18],
    [16, 20, 16, 20],
    [18, 23, 18, 23],
];

/// normAdjust4x4 by QP modulo 6 (8.5.9), in an odd column of a 4x4 block from above down.
static ODD_SCALES: [[u32; 4]; 6] = [
    [13, 16, 13, 16],
    [14, 18, 14, 18],
    [16, 20, 16, 20],
    [18, 23, 18, 23],
    [20, 25, 20, 25],
    [23, 29, 23, 29],
];

/// A power of two, by which a number is shifted left.
fn power_of_two(exponent: u8) -> u32
    requires { exponent ≤ 8 }
    ensures value { result ≡ 2 ^ exponent }
    ensures small { result ≤ 256 }
{
    1 << exponent
}

/// A number times a scale.
pub fn times(value: i32, scale: u32) -> i32
    requires value { IsBelow (2 ^ 16) value }
    requires scale { scale < 2 ^ 15 }
    ensures value { result ≡ value *ℤ pos scale }
    ensures small { (m n : ℕ) → IsBelow m value → scale < n → IsBelow (m * n) result }
{
    value * scale as i32
}

/// Four levels in more bits.
#[inline(always)]
fn widened(levels: [i16; 4]) -> [i32; 4]
    requires { AllBelow 4 (2 ^ 12) levels }
    ensures values { IsLine (λ k. slice_index_or levels k (pos 0)) result }
    ensures small { AllBelow 4 (2 ^ 12) result }
{
    [
        i32::from(levels[0]),
        i32::from(levels[1]),
        i32::from(levels[2]),
        i32::from(levels[3]),
    ]
}

/// The columns of a block of sixteen levels (8.5.6).
#[inline(always)]
pub fn in_columns(levels: &[i16; 16]) -> Lines
    requires { AllBelow 16 (2 ^ 12) levels.now }
    ensures values { AreLines (λ x y. level levels.now (zigzag x y)) result }
    ensures small { AreBelow (2 ^ 12) result }
{
    let l = levels;
    Lines {
        d0: widened([l[0], l[2], l[3], l[9]]),
        d1: widened([l[1], l[4], l[8], l[10]]),
        d2: widened([l[5], l[7], l[11], l[14]]),
        d3: widened([l[6], l[12], l[13], l[15]]),
    }
}

/// Four levels times a scale each (8.5.12.1).
#[inline(always)]
fn scaled(levels: [i32; 4], scales: [u32; 4]) -> [i32; 4]
    requires levels { AllBelow 4 (2 ^ 12) levels }
    requires scales { (k : ℕ) → k < 4 → slice_index scales k < 2 ^ 13 }
    ensures values { IsLine (λ k. slice_index_or levels k (pos 0) *ℤ pos (slice_index scales k))
        result }
    ensures small { AllBelow 4 (2 ^ 25) result }
{
    [
        times(levels[0], scales[0]),
        times(levels[1], scales[1]),
        times(levels[2], scales[2]),
        times(levels[3], scales[3]),
    ]
}

/// What the levels of a column are multiplied by (8.5.12.1).
#[derive(Clone, Copy)]
struct ColumnScales {
    even: [u32; 4],
    odd: [u32; 4],
}

/// Four scales times a power of two.
#[inline(always)]
fn raised(scales: [u32; 4], power: u32) -> [u32; 4]
    requires scales { (k : ℕ) → k < 4 → slice_index scales k < 30 }
    requires power { power ≤ 2 ^ 8 }
    ensures values { (k : ℕ) → k < 4 → slice_index result k ≡ slice_index scales k * power }
    ensures small { (k : ℕ) → k < 4 → slice_index result k < 2 ^ 13 }
{
    [
        scales[0] * power,
        scales[1] * power,
        scales[2] * power,
        scales[3] * power,
    ]
}

/// The scales of a quantiser.
#[inline(always)]
fn column_scales(qp: u8) -> ColumnScales
    requires { qp ≤ 51 }
    ensures even { (y : ℕ) → y < 4 → slice_index result.even y
        ≡ level_scale (qp % 6) 0 y * 2 ^ (qp / 6) }
    ensures odd { (y : ℕ) → y < 4 → slice_index result.odd y
        ≡ level_scale (qp % 6) 1 y * 2 ^ (qp / 6) }
    ensures even_small { (y : ℕ) → y < 4 → slice_index result.even y < 2 ^ 13 }
    ensures odd_small { (y : ℕ) → y < 4 → slice_index result.odd y < 2 ^ 13 }
{
    let power = power_of_two(qp / 6);
    ColumnScales {
        even: raised(EVEN_SCALES[usize::from(qp % 6)], power),
        odd: raised(ODD_SCALES[usize::from(qp % 6)], power),
    }
}

/// What a DC level is multiplied by: normAdjust4x4 of its place (8.5.9) times 2 to the power of
/// QP / 6. LevelScale4x4 of the flat matrix has a factor of sixteen more, which this leaves out.
#[inline(always)]
pub fn dc_scale(qp: u8) -> u32
    requires { qp ≤ 51 }
    ensures value { result ≡ even_scale (qp % 6) * 2 ^ (qp / 6) }
    ensures small { result ≤ 18 * 2 ^ 8 }
{
    column_scales(qp).even[0]
}

/// The columns of a block of sixteen levels, scaled (8.5.12.1).
#[inline(always)]
pub fn scaled_levels(levels: &[i16; 16], qp: u8) -> Lines
    requires quantiser { qp ≤ 51 }
    requires small { AllBelow 16 (2 ^ 12) levels.now }
    ensures values { AreLines (scaled_block qp levels.now) result }
    ensures small { AreBelow (2 ^ 25) result }
{
    let scales = column_scales(qp);
    let columns = in_columns(levels);
    Lines {
        d0: scaled(columns.d0, scales.even),
        d1: scaled(columns.d1, scales.odd),
        d2: scaled(columns.d2, scales.even),
        d3: scaled(columns.d3, scales.odd),
    }
}

/// The columns of a block of fifteen levels, scaled, behind a value for its first place that is not
/// to be scaled again (8.5.12.1).
#[inline(always)]
pub fn scaled_levels_with_dc(dc: i32, levels: &[i16; 15], qp: u8) -> Lines
    requires quantiser { qp ≤ 51 }
    requires dc { IsBelow (2 ^ 27) dc }
    requires small { AllBelow 15 (2 ^ 12) levels.now }
    ensures values { AreLines (scaled_block_with_dc qp dc levels.now) result }
    ensures small { AreBelow (2 ^ 27) result }
{
    let scales = column_scales(qp);
    let l = levels;
    let ac = scaled(widened([0, l[1], l[2], l[8]]), scales.even);
    Lines {
        d0: [dc, ac[1], ac[2], ac[3]],
        d1: scaled(widened([l[0], l[3], l[7], l[9]]), scales.odd),
        d2: scaled(widened([l[4], l[6], l[10], l[13]]), scales.even),
        d3: scaled(widened([l[5], l[11], l[12], l[14]]), scales.odd),
    }
}
