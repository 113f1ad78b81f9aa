//! Prediction by a plane (clauses 8.3.3.4 and 8.3.4.4), for a block of W columns and rows.

ghost use Rattle.std.specs.Prelude.{◌≡◌, ℕ, ◌+◌, ◌-◌, ◌*◌, ◌/◌, ◌<◌, ◌≤◌, pos, ◌+ℤ◌, ◌-ℤ◌, ◌*ℤ◌};
ghost use Rattle.std.specs.Prelude.{◌≤ℤ◌, true, length, slice_index, slice_index_or};
ghost use Rattle.avc_types.specs.Arithmetic.{◌>>ℤ◌, clip1};
ghost use Rattle.avc_intra.specs.InRows.{IsSeen};
ghost use Rattle.avc_intra.specs.Neighbourhood.{Around, Shows, has_corner_sides};
ghost use Rattle.avc_intra.specs.Plane.{gradient, plane_sample, predict_plane, slope};
ghost use Rattle.avc_intra.specs.Slopes.{IsWithin, side_of};
ghost use Rattle.avc_intra.specs.declared.sides.Sides.{Sides};
ghost use Rattle.avc_plane.specs.Strided.{IsRoom, IsStridedSet};

use crate::beside::{above, corner, left};
use crate::lines::put_line;
use avc_plane::RowsPlace;

/// The number of steps from the middle times the difference of two samples.
fn weighted(weight: i32, after: u8, before: u8) -> i32
    requires low { pos 0 ≤ℤ weight }
    requires high { weight ≤ℤ pos 8 }
    ensures value { result ≡ weight *ℤ (pos after -ℤ pos before) }
    ensures small { IsWithin 2040 result }
{
    weight * (i32::from(after) - i32::from(before))
}

/// The sample i + 2 places before the middle of a side, of which the farthest is the corner.
fn before_middle<const W: usize>(side: &[u8; W], corner: u8, i: usize) -> u8
    requires { i < W / 2 }
    ensures { result ≡ side_of side.now corner (pos (W / 2) -ℤ pos (i + 2)) }
{
    let half = W / 2;
    if i + 2 <= half {
        side[half - 2 - i]
    } else {
        corner
    }
}

/// How much the samples after the middle of a side exceed those before it, far ones counting more.
fn slope<const W: usize>(side: &[u8; W], corner: u8) -> i32
    requires { W ≤ 16 }
    ensures value { result ≡ slope (W / 2) (side_of side.now corner) }
    ensures small { IsWithin (2040 * (W / 2)) result }
{
    let half = W / 2;
    let mut sum = 0;
    for i in 0..half {
        sum += weighted(i as i32 + 1, side[half + i], before_middle(side, corner, i));
    }
    sum
}

/// What the plane rises from a column or a row to the next, in 32nds, by the samples of a side, the
/// slope of which counts WEIGHT times.
fn gradient<const W: usize, const WEIGHT: usize>(side: &[u8; W], corner: u8) -> i32
    requires narrow { W ≤ 16 }
    requires weight { (WEIGHT ≤ 34) × (WEIGHT * W ≤ 272) }
    ensures value { result ≡ gradient WEIGHT (W / 2) (side_of side.now corner) }
    ensures small { IsWithin 5000 result }
{
    (WEIGHT as i32 * slope(side, corner) + 32) >> 6
}

/// How high the plane lies in the middle of the block, in 32nds, by the last samples of the two
/// sides.
fn height_between(left: u8, above: u8) -> i32
    ensures value { result ≡ pos (16 * (left + above)) }
    ensures small { IsWithin 10000 result }
{
    16 * (i32::from(left) + i32::from(above))
}

/// How much the plane rises from its middle to this place.
fn rise(slope: i32, place: usize, middle: usize) -> i32
    requires slope { IsWithin 5000 slope }
    requires places { (place ≤ 16) × (middle ≤ 16) }
    ensures value { result ≡ slope *ℤ (pos place -ℤ pos middle) }
    ensures small { IsWithin 80000 result }
{
    slope * (place as i32 - middle as i32)
}

/// What each column of the plane rises from its middle.
#[inline(always)]
fn rises<const W: usize>(across: i32) -> [i32; W]
    requires narrow { (1 ≤ W / 2) × (W ≤ 16) }
    requires across { IsWithin 5000 across }
    ensures value { (x : ℕ) → x < W → slice_index_or result x (pos 0)
        ≡ across *ℤ (pos x -ℤ pos (W / 2 - 1)) }
    ensures small { (x : ℕ) → x < W → IsWithin 80000 (slice_index_or result x (pos 0)) }
{
    let middle = W / 2 - 1;
    let mut rises = [0; W];
    for x in 0..W {
        rises[x] = rise(across, x, middle);
    }
    rises
}

/// The sample that stands for this height, in 32nds.
fn sample_at(height: i32) -> u8
    requires { IsWithin 1000000 height }
    ensures { result ≡ clip1 (height >>ℤ 5) }
{
    (height >> 5).max(0).min(255) as u8
}

/// One row of the plane, of which each column rises so much.
#[inline(always)]
fn plane_row<const W: usize>(height: i32, rises: &[i32; W]) -> [u8; W]
    requires height { IsWithin 100000 height }
    requires rises { (x : ℕ) → x < W → IsWithin 80000 (slice_index_or rises.now x (pos 0)) }
    ensures { (x : ℕ) → x < W → slice_index result x
        ≡ clip1 (height +ℤ slice_index_or rises.now x (pos 0) >>ℤ 5) }
{
    let mut row = [0; W];
    for x in 0..W {
        row[x] = sample_at(height + rises[x]);
    }
    row
}

/// Lays the plane with this height in the middle, in 32nds, and these slopes a column and a row.
#[inline(never)]
fn lay_plane<const W: usize>(height: i32, across: i32, down: i32, rows: &mut [u8], at: RowsPlace)
    requires narrow { (1 ≤ W / 2) × (W ≤ 16) }
    requires height { IsWithin 10000 height }
    requires across { IsWithin 5000 across }
    requires down { IsWithin 5000 down }
    requires apart { W ≤ at.stride }
    requires room { IsRoom W W at.first at.stride (length rows.old) }
    ensures { IsStridedSet W W at.first at.stride
        (λ x y. plane_sample (W / 2 - 1) height across down x y) rows.old rows.new }
{
    let middle = W / 2 - 1;
    let rises = rises::<W>(across);
    for y in 0..W {
        let row = plane_row::<W>(height + rise(down, y, middle) + 16, &rises);
        put_line::<W>(rows, at.first + y * at.stride, &row);
    }
}

/// Lays the plane through the samples of two sides and the one at their corner. The slopes of the
/// sides count WEIGHT times.
pub fn lay_plane_between<const W: usize, const WEIGHT: usize>(
    above: &[u8; W],
    left: &[u8; W],
    corner: u8,
    rows: &mut [u8],
    at: RowsPlace,
)
    requires narrow { (1 ≤ W / 2) × (W ≤ 16) }
    requires weight { (WEIGHT ≤ 34) × (WEIGHT * W ≤ 272) }
    requires apart { W ≤ at.stride }
    requires room { IsRoom W W at.first at.stride (length rows.old) }
    ensures { (p : Around) (sides : Sides) → Shows p sides W above.now left.now corner →
        has_corner_sides sides ≡ true →
        IsStridedSet W W at.first at.stride (predict_plane W WEIGHT p) rows.old rows.new }
{
    let height = height_between(left[W - 1], above[W - 1]);
    let across = gradient::<W, WEIGHT>(above, corner);
    let down = gradient::<W, WEIGHT>(left, corner);
    lay_plane::<W>(height, across, down, rows, at);
}

/// Lays the plane through the samples that stand above and left of the block in its rows.
pub fn lay_plane_beside<const W: usize, const WEIGHT: usize>(rows: &mut [u8], at: RowsPlace)
    requires narrow { (1 ≤ W / 2) × (W ≤ 16) }
    requires weight { (WEIGHT ≤ 34) × (WEIGHT * W ≤ 272) }
    requires apart { W ≤ at.stride }
    requires room { IsRoom W W at.first at.stride (length rows.old) }
    ensures { (p : Around) (sides : Sides) → IsSeen p sides W at.first at.stride rows.old →
        has_corner_sides sides ≡ true →
        IsStridedSet W W at.first at.stride (predict_plane W WEIGHT p) rows.old rows.new }
{
    let above = above::<W>(rows, at);
    let left = left::<W, W>(rows, at);
    let corner = corner(rows, at);
    lay_plane_between::<W, WEIGHT>(&above, &left, corner, rows, at);
}

/// The plane through the samples of two sides and the one at their corner, row by row.
pub fn plane<const W: usize, const WEIGHT: usize, const N: usize>(
    above: &[u8; W],
    left: &[u8; W],
    corner: u8,
) -> [u8; N]
    requires all { W * W ≡ N }
    requires narrow { (1 ≤ W / 2) × (W ≤ 16) }
    requires weight { (WEIGHT ≤ 34) × (WEIGHT * W ≤ 272) }
    ensures { (p : Around) (sides : Sides) → Shows p sides W above.now left.now corner →
        has_corner_sides sides ≡ true → (x y : ℕ) → x < W → y < W →
        slice_index result (W * y + x) ≡ predict_plane W WEIGHT p x y }
{
    let mut samples = [0; N];
    let at = RowsPlace {
        first: 0,
        stride: W,
    };
    lay_plane_between::<W, WEIGHT>(above, left, corner, &mut samples, at);
    samples
}
