//! Lines of samples, copied from rows to rows.

ghost use Rattle.std.specs.Prelude.{◌≡◌, ℕ, ◌+◌, ◌*◌, ◌<◌, ◌≤◌, length, slice_index};
ghost use Rattle.avc_inter.specs.Laid.{sample_in, HasRowsApart, IsLaid};

use crate::source::Lines;
use avc_plane::RowsPlace;

// a line by itself: of it is known that it overlaps neither of the rows, so that it is loaded and
// stored at once
#[inline(always)]
fn line_at<const W: usize>(p: &[u8], first: usize) -> [u8; W]
    requires { first + W ≤ length p.now }
    ensures { (x : ℕ) → x < W → slice_index result x ≡ slice_index p.now (first + x) }
{
    let mut line = [0; W];
    for x in 0..W {
        line[x] = p[first + x];
    }
    line
}

#[inline(always)]
fn put_line<const W: usize>(out: &mut [u8], first: usize, line: &[u8; W])
    requires { first + W ≤ length out.old }
    ensures here { (x : ℕ) → x < W → slice_index out.new (first + x) ≡ slice_index line.now x }
    ensures before { (j : ℕ) → j < first → slice_index out.new j ≡ slice_index out.old j }
    ensures behind { (j : ℕ) → first + W ≤ j → slice_index out.new j ≡ slice_index out.old j }
{
    for x in 0..W {
        out[first + x] = line[x];
    }
}

/// Copies W columns and H rows, one by one.
#[inline(always)]
fn copy_each<const W: usize, const H: usize>(lines: Lines<'_, W, H>, out: &mut [u8], to: RowsPlace)
    requires { HasRowsApart W H to out.old }
    ensures { IsLaid W H to (sample_in lines.entry.from lines.entry.samples.now) out.old out.new }
{
    for y in 0..H {
        let line = line_at::<W>(lines.samples, lines.from.first + y * lines.from.stride);
        put_line::<W>(out, to.first + y * to.stride, &line);
    }
}

/// Copies rows that are counted from the first sample on: an address near it is no sum of its own.
#[inline(always)]
fn copy_near<const W: usize, const H: usize>(lines: Lines<'_, W, H>, out: &mut [u8], to: RowsPlace)
    requires some { 0 < H }
    requires room { HasRowsApart W H to out.old }
    ensures { IsLaid W H to (sample_in lines.entry.from lines.entry.samples.now) out.old out.new }
{
    let from = RowsPlace {
        first: 0,
        stride: lines.from.stride,
    };
    let near = Lines {
        samples: &lines.samples[lines.from.first..],
        from,
    };
    let target = RowsPlace {
        first: 0,
        stride: to.stride,
    };
    copy_each::<W, H>(near, &mut out[to.first..], target);
}

/// Copies W columns and H rows, where they can be four at a time.
#[inline(always)]
pub fn copy_lines<const W: usize, const H: usize>(
    lines: Lines<'_, W, H>,
    out: &mut [u8],
    to: RowsPlace,
)
    requires { HasRowsApart W H to out.old }
    ensures { IsLaid W H to (sample_in lines.entry.from lines.entry.samples.now) out.old out.new }
{
    if H % 4 != 0 {
        copy_each::<W, H>(lines, out, to);
        return;
    }
    for four in 0..H / 4 {
        let from = RowsPlace {
            first: lines.from.first + four * (4 * lines.from.stride),
            stride: lines.from.stride,
        };
        let next = Lines {
            samples: lines.samples,
            from,
        };
        let target = RowsPlace {
            first: to.first + four * (4 * to.stride),
            stride: to.stride,
        };
        copy_near::<W, 4>(next, out, target);
    }
}
