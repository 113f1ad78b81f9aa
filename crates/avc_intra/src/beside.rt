//! The samples beside a block, read from the rows in which it lies. Where the rows have none, they
//! are 0.

ghost use Rattle.std.specs.Prelude.{◌≡◌, ℕ, ◌+◌, ◌-◌, ◌*◌, ◌<◌, ◌≤◌, length, slice_index};
ghost use Rattle.avc_types.specs.Arithmetic.{sum_below};
ghost use Rattle.avc_plane.specs.Strided.{IsRoom};

use crate::lines::line_at;
use crate::means::sum_of_four;
use avc_plane::RowsPlace;

/// The W samples from the one above the block's first on.
#[inline(always)]
pub fn above<const W: usize>(rows: &[u8], at: RowsPlace) -> [u8; W]
    requires { at.first + W ≤ length rows.now }
    ensures { at.stride ≤ at.first → (x : ℕ) → x < W → slice_index result x
        ≡ slice_index rows.now (at.first - at.stride + x) }
{
    if at.first < at.stride {
        return [0; W];
    }
    line_at::<W>(rows, at.first - at.stride)
}

/// The samples left of a block of W columns and H rows.
#[inline(always)]
pub fn left<const W: usize, const H: usize>(rows: &[u8], at: RowsPlace) -> [u8; H]
    requires some { 0 < W }
    requires room { IsRoom W H at.first at.stride (length rows.now) }
    ensures { 0 < at.first → (y : ℕ) → y < H → slice_index result y
        ≡ slice_index rows.now (at.first + y * at.stride - 1) }
{
    let mut column = [0; H];
    if at.first == 0 {
        return column;
    }
    for y in 0..H {
        column[y] = rows[at.first + y * at.stride - 1];
    }
    column
}

/// The sample above the block and left of it.
#[inline(always)]
pub fn corner(rows: &[u8], at: RowsPlace) -> u8
    requires { at.first ≤ length rows.now }
    ensures { at.stride < at.first → result ≡ slice_index rows.now (at.first - at.stride - 1) }
{
    if at.first <= at.stride {
        return 0;
    }
    rows[at.first - at.stride - 1]
}

/// The sum of the four samples above a block from this column on.
#[inline(always)]
pub fn sum_above4(rows: &[u8], at: RowsPlace, column: usize) -> u16
    requires { at.first + column + 4 ≤ length rows.now }
    ensures sum { at.stride ≤ at.first →
        result ≡ sum_below 4 (λ i. slice_index rows.now (at.first - at.stride + (column + i))) }
    ensures small { result ≤ 1020 }
{
    if at.first < at.stride {
        return 0;
    }
    sum_of_four(rows, at.first - at.stride + column)
}

/// The sum of the four samples left of a block from this row on.
#[inline(always)]
pub fn sum_left4(rows: &[u8], at: RowsPlace, row: usize) -> u16
    requires { at.first + (row + 3) * at.stride ≤ length rows.now }
    ensures sum { 0 < at.first →
        result ≡ sum_below 4 (λ i. slice_index rows.now (at.first + (row + i) * at.stride - 1)) }
    ensures small { result ≤ 1020 }
{
    if at.first == 0 {
        return 0;
    }
    let first = at.first + row * at.stride - 1;
    u16::from(rows[first])
        + u16::from(rows[first + at.stride])
        + u16::from(rows[first + 2 * at.stride])
        + u16::from(rows[first + 3 * at.stride])
}

/// The sum of the sixteen samples above a block.
#[inline(always)]
pub fn sum_above16(rows: &[u8], at: RowsPlace) -> u16
    requires { at.first + 16 ≤ length rows.now }
    ensures sum { at.stride ≤ at.first →
        result ≡ sum_below 16 (λ i. slice_index rows.now (at.first - at.stride + i)) }
    ensures small { result ≤ 4080 }
{
    if at.first < at.stride {
        return 0;
    }
    let mut sum = 0;
    for x in 0..16 {
        sum += u16::from(rows[at.first - at.stride + x]);
    }
    sum
}

/// The sum of the sixteen samples left of a block.
#[inline(always)]
pub fn sum_left16(rows: &[u8], at: RowsPlace) -> u16
    requires { IsRoom 16 16 at.first at.stride (length rows.now) }
    ensures sum { 0 < at.first →
        result ≡ sum_below 16 (λ i. slice_index rows.now (at.first + i * at.stride - 1)) }
    ensures small { result ≤ 4080 }
{
    if at.first == 0 {
        return 0;
    }
    let mut sum = 0;
    for y in 0..16 {
        sum += u16::from(rows[at.first + y * at.stride - 1]);
    }
    sum
}
