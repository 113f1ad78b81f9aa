//! Predictions laid into rows, line by line.

ghost use Rattle.std.specs.Prelude.{◌≡◌, ℕ, ◌+◌, ◌-◌, ◌*◌, ◌<◌, ◌≤◌, length, slice_index};
ghost use Rattle.avc_plane.specs.Strided.{IsRoom, IsStridedSet};

use avc_plane::RowsPlace;

// a line by itself: of it is known that it does not overlap the rows, so that it is loaded and
// stored at once
#[inline(always)]
pub fn line_at<const W: usize>(p: &[u8], first: usize) -> [u8; W]
    requires { first + W ≤ length p.now }
    ensures { (x : ℕ) → x < W → slice_index result x ≡ slice_index p.now (first + x) }
{
    let mut line = [0; W];
    for x in 0..W {
        line[x] = p[first + x];
    }
    line
}

/// Writes a line into rows, from this place on.
#[inline(always)]
pub fn put_line<const W: usize>(rows: &mut [u8], first: usize, line: &[u8; W])
    requires { first + W ≤ length rows.old }
    ensures here { (x : ℕ) → x < W → slice_index rows.new (first + x) ≡ slice_index line.now x }
    ensures before { (j : ℕ) → j < first → slice_index rows.new j ≡ slice_index rows.old j }
    ensures behind { (j : ℕ) → first + W ≤ j → slice_index rows.new j ≡ slice_index rows.old j }
{
    for x in 0..W {
        rows[first + x] = line[x];
    }
}

/// Lays a block of H lines of W samples.
#[inline(always)]
pub fn lay_block<const W: usize, const H: usize, const N: usize>(
    samples: &[u8; N],
    rows: &mut [u8],
    at: RowsPlace,
)
    requires all { W * H ≡ N }
    requires apart { W ≤ at.stride }
    requires room { IsRoom W H at.first at.stride (length rows.old) }
    ensures { IsStridedSet W H at.first at.stride (λ x y. slice_index samples.now (W * y + x))
        rows.old rows.new }
{
    for y in 0..H {
        let line = line_at::<W>(samples, W * y);
        put_line::<W>(rows, at.first + y * at.stride, &line);
    }
}

/// Lays a block of H lines that are all this one.
#[inline(always)]
pub fn lay_same_lines<const W: usize, const H: usize>(
    line: &[u8; W],
    rows: &mut [u8],
    at: RowsPlace,
)
    requires apart { W ≤ at.stride }
    requires room { IsRoom W H at.first at.stride (length rows.old) }
    ensures { IsStridedSet W H at.first at.stride (λ x y. slice_index line.now x) rows.old
        rows.new }
{
    let line = *line;
    for y in 0..H {
        put_line::<W>(rows, at.first + y * at.stride, &line);
    }
}

/// Lays a block of H lines, each of the sample left of it.
#[inline(always)]
pub fn lay_same_columns<const W: usize, const H: usize>(rows: &mut [u8], at: RowsPlace)
    requires some { 0 < W }
    requires apart { W ≤ at.stride }
    requires room { IsRoom W H at.first at.stride (length rows.old) }
    ensures long { length rows.new ≡ length rows.old }
    ensures lines { 0 < at.first → W < at.stride →
        IsStridedSet W H at.first at.stride
        (λ x y. slice_index rows.old (at.first + y * at.stride - 1)) rows.old rows.new }
{
    if at.first == 0 {
        return;
    }
    for y in 0..H {
        let first = at.first + y * at.stride;
        let sample = rows[first - 1];
        put_line::<W>(rows, first, &[sample; W]);
    }
}
