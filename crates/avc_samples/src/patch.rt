//! Samples of a reference plane around a block, fetched into one list.

ghost use Rattle.std.specs.Prelude.{◌≡◌, ℕ, ℤ, ◌+◌, ◌*◌, ◌<◌, ◌≤◌, ◌^◌, pos, neg_ℤ, nat_abs, ◌+ℤ◌};
ghost use Rattle.std.specs.Prelude.{◌-ℤ◌, ◌≤ℤ◌, IfSome, List, length, slice_index};
ghost use Rattle.avc_types.specs.Arithmetic.{clip3};
ghost use Rattle.avc_plane.specs.Plane.{sample, clamped};
ghost use Rattle.avc_samples.specs.Bounds.{IsPlace};
ghost use Rattle.avc_plane.specs.Padded.{stored_place, stride_of, IsSurrounded};
ghost use Rattle.avc_samples.specs.Patch.{IsPatch, IsThere};

use avc_plane::{PaddedPlane, RowsPlace};

/// A coordinate held inside a size.
fn held(place: i64, size: usize) -> usize
    requires some { 0 < size }
    requires small { size < 2 ^ 31 }
    ensures value { result ≡ nat_abs (clip3 (pos 0) (pos size -ℤ pos 1) place) }
    ensures inside { result < size }
{
    if place < 0 {
        0
    } else if place as usize >= size {
        size - 1
    } else {
        place as usize
    }
}

/// Fetches a row, each column held inside the plane.
fn fetch_held_row<const PAD: usize>(
    plane: &PaddedPlane<PAD>,
    left: i64,
    row: usize,
    columns: usize,
    patch: &mut [u8],
    to: usize,
)
    requires left { IsPlace left }
    requires row { row < plane.now.height }
    requires few { columns < 2 ^ 16 }
    requires target { to + columns ≤ length patch.old }
    ensures before { (k : ℕ) → k < to → slice_index patch.new k ≡ slice_index patch.old k }
    ensures here { (i : ℕ) → i < columns →
        slice_index patch.new (to + i)
        ≡ sample plane.now (nat_abs (clip3 (pos 0) (pos plane.now.width -ℤ pos 1) (left +ℤ pos i)))
        row }
{
    let width = plane.width();
    for i in 0..columns {
        patch[to + i] = plane.get(held(left + i as i64, width), row);
    }
}

/// Fetches rows, each coordinate held inside the plane.
pub fn fetch_held<const PAD: usize>(
    plane: &PaddedPlane<PAD>,
    left: i64,
    top: i64,
    columns: usize,
    count: usize,
    patch: &mut [u8],
)
    requires left { IsPlace left }
    requires top { IsPlace top }
    requires narrow { columns < 2 ^ 16 }
    requires low { count < 2 ^ 16 }
    requires target { count * columns ≤ length patch.old }
    ensures { IsPatch (clamped plane.now.width plane.now.height (sample plane.now)) left top columns
        count patch.new }
{
    let height = plane.height();
    for j in 0..count {
        let row = held(top + j as i64, height);
        fetch_held_row(plane, left, row, columns, patch, j * columns);
    }
}

/// A place that is not before the padding, counted from there.
#[inline(always)]
fn behind_edge(place: i64, pad: usize) -> usize
    requires place { IsPlace place }
    requires few { pad < 2 ^ 31 }
    requires inside { pos 0 ≤ℤ (place +ℤ pos pad) }
    ensures { pos result ≡ place +ℤ pos pad }
{
    (place + pad as i64) as usize
}

/// Where the padded rows of a plane have the samples in `columns` columns from `left` on and
/// `count` rows from `top` on; None where they don't have them all.
#[inline(always)]
pub fn find_within<const PAD: usize>(
    plane: &PaddedPlane<PAD>,
    left: i64,
    top: i64,
    columns: usize,
    count: usize,
) -> Option<RowsPlace>
    requires left { IsPlace left }
    requires top { IsPlace top }
    requires narrow { columns < 2 ^ 16 }
    requires low { count < 2 ^ 16 }
    ensures { IfSome result (λ at. (rows : List ℕ) → IsSurrounded PAD plane.now rows →
        IsThere (clamped plane.now.width plane.now.height (sample plane.now)) left top columns count
        at.first at.stride rows) }
{
    let stride = plane.stride();
    let lines = plane.height() + 2 * PAD;
    if left + (PAD as i64) < 0 || top + (PAD as i64) < 0 {
        return None;
    }
    let column = behind_edge(left, PAD);
    let row = behind_edge(top, PAD);
    if column + columns > stride || row + count > lines {
        return None;
    }
    Some(RowsPlace {
        first: row * stride + column,
        stride,
    })
}

/// Where the padded rows of a plane have the rectangle whose upper left sample is in column `x` and
/// row `y`.
#[inline(always)]
pub fn place_inside<const PAD: usize>(plane: &PaddedPlane<PAD>, x: usize, y: usize) -> RowsPlace
    requires column { x < plane.now.width }
    requires row { y < plane.now.height }
    ensures first { result.first ≡ stored_place PAD plane.now.width x y }
    ensures stride { result.stride ≡ stride_of PAD plane.now.width }
{
    let stride = plane.stride();
    let _lines = plane.height();
    RowsPlace {
        first: (y + PAD) * stride + (x + PAD),
        stride,
    }
}
