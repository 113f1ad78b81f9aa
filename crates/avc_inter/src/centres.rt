//! The half samples j, in the middle of four samples, and their means with others (8.4.2.2.1).
//!
//! Sixteen of them ask for six rows of unrounded sums. These lie one behind the other in a window,
//! which moves on by sixteen sums at a time: it is small enough for the registers of a processor,
//! so the sums of a block are stored nowhere. L, W and `to` are as in `rows`.

ghost use Rattle.std.specs.Prelude.{◌≡◌, ℕ, ◌+◌, ◌*◌, ◌/◌, ◌<◌, ◌≤◌, pos, length, slice_index};
ghost use Rattle.std.specs.Prelude.{slice_index_or};
ghost use Rattle.avc_types.specs.Arithmetic.{mean_of_two};
ghost use Rattle.avc_samples.specs.Bounds.{IsSum};
ghost use Rattle.avc_samples.specs.Sums.{AreSums};
ghost use Rattle.avc_inter.specs.Patch.{taps_along, half_along, centre_along, rounded_sum, j_of};
ghost use Rattle.avc_inter.specs.SixRows.{place_of, HasPlaces, taps_of};
ghost use Rattle.avc_inter.specs.SixRows.{centre_of, AreSumsOf, AreSixteen, AreSixteenSums};
ghost use Rattle.avc_inter.specs.Laid.{sample_place, HasRows, IsLaid};

use crate::row::{multiples, narrow_differences, sums, widened};
use crate::rows::{half_row, means_of, put_rows};
use crate::six_rows::SixRows;
use crate::source::{Source, Surrounded};
use crate::taps::{centre, rounded_half};
use crate::target::Target;
use avc_samples::{move_on, put_sums, sixteen_sums};

/// The unrounded sums of six rows.
#[inline(always)]
fn sums_of(rows: SixRows) -> [i16; 16]
    ensures value { AreSixteenSums result (taps_of rows) }
    ensures small { (k : ℕ) → k < 16 → IsSum (slice_index_or result k (pos 0)) }
{
    let outer = sums(widened(rows.e.as_slice(), 0), widened(rows.j.as_slice(), 0));
    let middle = sums(widened(rows.f.as_slice(), 0), widened(rows.i.as_slice(), 0));
    let inner = sums(widened(rows.g.as_slice(), 0), widened(rows.h.as_slice(), 0));
    narrow_differences(sums(outer, multiples(inner, 20)), multiples(middle, 5)).to_array()
}

/// The unrounded taps over each six neighbours.
#[inline(always)]
fn sum_row<const L: usize>(source: Source<'_, L>, at: usize) -> [i16; 16]
    requires { HasPlaces L source.stride 16 (at + 5 * 1) source.samples.now }
    ensures value { AreSixteenSums result
        (λ k. taps_along source.entry.samples.now (at + place_of L source.entry.stride k) 1) }
    ensures small { (k : ℕ) → k < 16 → IsSum (slice_index_or result k (pos 0)) }
{
    sums_of(SixRows::of::<L>(source, at, 1))
}

/// Puts the next sixteen sums behind those that the window has.
#[inline(always)]
fn put_sum_row<const L: usize>(source: Source<'_, L>, at: usize, window: &mut [i16; 96], row: usize)
    requires row { row < 6 }
    requires samples { HasPlaces L source.stride (16 * (row + 1)) (at + 5) source.samples.now }
    requires sums { AreSumsOf L source.stride (16 * row) at source.samples.now window.old }
    ensures { AreSumsOf L source.entry.stride (16 * (row + 1)) at source.entry.samples.now
        window.new }
{
    let lines = 16 / L * source.stride;
    let next = sum_row::<L>(source, at + row * lines);
    put_sums(window, row, &next);
}

/// Puts the sums of a block's first five rows into the window.
#[inline(always)]
fn begin<const L: usize>(source: Source<'_, L>, at: usize, window: &mut [i16; 96])
    requires { HasPlaces L source.stride (16 * ((5 * L + 15) / 16)) (at + 5) source.samples.now }
    ensures { AreSumsOf L source.entry.stride (16 * ((5 * L + 15) / 16)) at
        source.entry.samples.now window.new }
{
    for row in 0..(5 * L + 15) / 16 {
        put_sum_row::<L>(source, at, window, row);
    }
}

/// The half samples j of six rows of sums.
#[inline(always)]
fn centres_of(
    e: &[i16; 16],
    f: &[i16; 16],
    g: &[i16; 16],
    h: &[i16; 16],
    i: &[i16; 16],
    j: &[i16; 16],
) -> [u8; 16]
    requires e { AreSums 16 e.now }
    requires f { AreSums 16 f.now }
    requires g { AreSums 16 g.now }
    requires h { AreSums 16 h.now }
    requires i { AreSums 16 i.now }
    requires j { AreSums 16 j.now }
    ensures { AreSixteen result (centre_of e.now f.now g.now h.now i.now j.now) }
{
    let (e, f, g, h, i, j) = (*e, *f, *g, *h, *i, *j);
    let mut out = [0; 16];
    for k in 0..16 {
        out[k] = centre(e[k], f[k], g[k], h[k], i[k], j[k]);
    }
    out
}

/// The half samples j of sums, six a step apart.
#[inline(always)]
fn centre_row(window: &[i16; 96], at: usize, step: usize) -> [u8; 16]
    requires few { at + 5 * step + 16 ≤ 96 }
    requires small { AreSums (at + 5 * step + 16) window.now }
    ensures { AreSixteen result (λ k. centre_along window.now (at + k) step) }
{
    let e = sixteen_sums(window, at);
    let f = sixteen_sums(window, at + step);
    let g = sixteen_sums(window, at + 2 * step);
    let h = sixteen_sums(window, at + 3 * step);
    let i = sixteen_sums(window, at + 4 * step);
    let j = sixteen_sums(window, at + 5 * step);
    centres_of(&e, &f, &g, &h, &i, &j)
}

/// Sixteen half samples j, whose first one is at this place. The window has the sums of five rows,
/// and gets the next sixteen.
#[inline(always)]
fn middle_row<const L: usize>(source: Source<'_, L>, at: usize, window: &mut [i16; 96]) -> [u8; 16]
    requires samples { HasPlaces L source.stride (16 * ((5 * L + 15) / 16 + 1)) (at + 5)
        source.samples.now }
    requires sums { AreSumsOf L source.stride (16 * ((5 * L + 15) / 16)) at source.samples.now
        window.old }
    ensures row { AreSixteen result (λ k. j_of source.entry.samples.now source.entry.stride
        (at + place_of L source.entry.stride k)) }
    ensures sums { AreSumsOf L source.entry.stride (16 * ((5 * L + 15) / 16 + 1)) at
        source.entry.samples.now window.new }
{
    put_sum_row::<L>(source, at, window, (5 * L + 15) / 16);
    centre_row(window, 0, L)
}

/// The half samples b or s of their sums.
#[inline(always)]
fn rounded_row(window: &[i16; 96], at: usize) -> [u8; 16]
    requires few { at + 16 ≤ 96 }
    requires small { AreSums (at + 16) window.now }
    ensures { AreSixteen result (λ k. rounded_sum (slice_index_or window.now (at + k) (pos 0))) }
{
    let sums = sixteen_sums(window, at);
    let mut out = [0; 16];
    for k in 0..16 {
        out[k] = rounded_half(sums[k]);
    }
    out
}

/// The half samples j.
#[inline(always)]
pub fn centre_rows<const L: usize, const W: usize>(
    block: Surrounded<'_, L>,
    out: &mut [u8],
    to: Target<L, W>,
)
    requires { HasRows W (16 / L * block.count) to.rows out.old }
    ensures { IsLaid W (16 / L * block.entry.count) to.entry.rows
        (λ x y. j_of block.entry.samples.now block.entry.from.stride
        (sample_place block.entry.from x y)) out.old out.new }
{
    let from = block.from;
    let source = Source {
        samples: block.samples,
        stride: from.stride,
    };
    let lines = 16 / L * from.stride;
    let rows = 16 / L * to.rows.stride;
    let mut window = [0; 96];
    begin::<L>(source, from.first, &mut window);
    for y in 0..block.count {
        let row = middle_row::<L>(source, from.first + y * lines, &mut window);
        put_rows::<L, W>(out, to.rows.first + y * rows, to.rows.stride, &row);
        move_on::<L>(&mut window);
    }
}

/// The means of j and of b or s, whose samples are `down` rows further down than its place.
#[inline(always)]
pub fn centre_rows_across<const L: usize, const W: usize>(
    block: Surrounded<'_, L>,
    down: usize,
    out: &mut [u8],
    to: Target<L, W>,
)
    requires room { HasRows W (16 / L * block.count) to.rows out.old }
    requires down { down ≤ 5 }
    ensures { IsLaid W (16 / L * block.entry.count) to.entry.rows
        (λ x y. mean_of_two (j_of block.entry.samples.now block.entry.from.stride
        (sample_place block.entry.from x y))
        (half_along block.entry.samples.now
        (down * block.entry.from.stride + sample_place block.entry.from x y) 1)) out.old out.new }
{
    let from = block.from;
    let source = Source {
        samples: block.samples,
        stride: from.stride,
    };
    let lines = 16 / L * from.stride;
    let rows = 16 / L * to.rows.stride;
    let mut window = [0; 96];
    begin::<L>(source, from.first, &mut window);
    for y in 0..block.count {
        let middle = middle_row::<L>(source, from.first + y * lines, &mut window);
        let half = rounded_row(&window, down * L);
        let row = means_of(&middle, &half);
        put_rows::<L, W>(out, to.rows.first + y * rows, to.rows.stride, &row);
        move_on::<L>(&mut window);
    }
}

/// The means of j and of h or m, whose six samples begin `by` behind its place.
#[inline(always)]
pub fn centre_rows_down<const L: usize, const W: usize>(
    block: Surrounded<'_, L>,
    by: usize,
    out: &mut [u8],
    to: Target<L, W>,
)
    requires room { HasRows W (16 / L * block.count) to.rows out.old }
    requires down { HasPlaces L block.from.stride (16 * block.count)
        (block.from.first + by + 5 * block.from.stride) block.samples.now }
    ensures { IsLaid W (16 / L * block.entry.count) to.entry.rows
        (λ x y. mean_of_two (j_of block.entry.samples.now block.entry.from.stride
        (sample_place block.entry.from x y))
        (half_along block.entry.samples.now (by + sample_place block.entry.from x y)
        block.entry.from.stride)) out.old out.new }
{
    let from = block.from;
    let source = Source {
        samples: block.samples,
        stride: from.stride,
    };
    let lines = 16 / L * from.stride;
    let rows = 16 / L * to.rows.stride;
    let mut window = [0; 96];
    begin::<L>(source, from.first, &mut window);
    for y in 0..block.count {
        let middle = middle_row::<L>(source, from.first + y * lines, &mut window);
        let half = half_row::<L>(source, from.first + by + y * lines, from.stride);
        let row = means_of(&middle, &half);
        put_rows::<L, W>(out, to.rows.first + y * rows, to.rows.stride, &row);
        move_on::<L>(&mut window);
    }
}
