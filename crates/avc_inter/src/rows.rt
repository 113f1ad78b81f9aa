//! The six-tap filter over rows of sixteen samples, read where they lie (8.4.2.2.1).
//!
//! Sixteen samples are one row of a block of 16 columns or two rows of a block of 8. L is how many
//! columns the block has, of which W are wanted. Its rows are read from the place `from` on and are
//! written from the place `to` on. `count` is how many times sixteen samples the block has.

ghost use Rattle.std.specs.Prelude.{◌≡◌, ℕ, ◌+◌, ◌*◌, ◌/◌, ◌<◌, ◌≤◌, ◌^◌, length, slice_index};
ghost use Rattle.avc_types.specs.Arithmetic.{mean_of_two};
ghost use Rattle.avc_plane.specs.Strided.{IsRoom, IsStridedSet};
ghost use Rattle.avc_inter.specs.Patch.{half_along};
ghost use Rattle.avc_inter.specs.SixRows.{place_of, HasPlaces, AreLanes, AreSixteen};
ghost use Rattle.avc_inter.specs.Laid.{sample_place, HasRows, IsLaid};

use crate::six_rows::SixRows;
use crate::source::Source;
use crate::taps::mean;
use crate::target::Target;
use avc_plane::RowsPlace;

/// Reads L samples of a row.
#[inline(always)]
pub fn load<const L: usize>(p: &[u8], from: usize, out: &mut [u8; 16], to: usize)
    requires source { from + L ≤ length p.now }
    requires target { to + L ≤ 16 }
    ensures before { (k : ℕ) → k < to → slice_index out.new k ≡ slice_index out.old k }
    ensures here { (k : ℕ) → k < L → slice_index out.new (to + k) ≡ slice_index p.now (from + k) }
{
    for k in 0..L {
        out[to + k] = p[from + k];
    }
}

/// Sixteen samples of a block whose first one is at this place.
#[inline(always)]
pub fn sixteen<const L: usize>(source: Source<'_, L>, at: usize) -> [u8; 16]
    requires { HasPlaces L source.stride 16 at source.samples.now }
    ensures { AreSixteen result
        (λ k. slice_index source.entry.samples.now (at + place_of L source.entry.stride k)) }
{
    let mut out = [0; 16];
    for y in 0..16 / L {
        load::<L>(source.samples, at + y * source.stride, &mut out, L * y);
    }
    out
}

/// The half samples between each third and fourth of six samples a step apart.
#[inline(always)]
pub fn half_row<const L: usize>(source: Source<'_, L>, at: usize, step: usize) -> [u8; 16]
    requires { HasPlaces L source.stride 16 (at + 5 * step) source.samples.now }
    ensures { AreSixteen result
        (λ k. half_along source.entry.samples.now (at + place_of L source.entry.stride k) step) }
{
    SixRows::of::<L>(source, at, step).halves()
}

/// Puts W of sixteen samples into a row.
#[inline(always)]
pub fn put_row<const W: usize>(out: &mut [u8], first: usize, r: &[u8; 16], from: usize)
    requires target { first + W ≤ length out.old }
    requires source { from + W ≤ 16 }
    ensures here { (x : ℕ) → x < W →
        slice_index out.new (first + x) ≡ slice_index r.now (from + x) }
    ensures before { (j : ℕ) → j < first → slice_index out.new j ≡ slice_index out.old j }
    ensures behind { (j : ℕ) → first + W ≤ j → slice_index out.new j ≡ slice_index out.old j }
{
    for x in 0..W {
        out[first + x] = r[from + x];
    }
}

/// Puts sixteen samples into their rows.
#[inline(always)]
pub fn put_rows<const L: usize, const W: usize>(
    out: &mut [u8],
    first: usize,
    stride: usize,
    r: &[u8; 16],
)
    requires lanes { AreLanes L }
    requires columns { W ≤ L }
    requires apart { W ≤ stride }
    requires room { IsRoom W (16 / L) first stride (length out.old) }
    ensures { IsStridedSet W (16 / L) first stride (λ x y. slice_index r.now (L * y + x))
        out.old out.new }
{
    for y in 0..16 / L {
        put_row::<W>(out, first + y * stride, r, L * y);
    }
}

/// Whole samples, from `by` behind each place on.
#[inline(always)]
pub fn whole_rows<const L: usize, const W: usize>(
    p: &[u8],
    from: RowsPlace,
    by: usize,
    count: usize,
    out: &mut [u8],
    to: Target<L, W>,
)
    requires room { HasRows W (16 / L * count) to.rows out.old }
    requires samples { HasPlaces L from.stride (16 * count) (from.first + by) p.now }
    ensures { IsLaid W (16 / L * count) to.entry.rows
        (λ x y. slice_index p.now (by + sample_place from x y)) out.old out.new }
{
    let source = Source {
        samples: p,
        stride: from.stride,
    };
    let lines = 16 / L * from.stride;
    let rows = 16 / L * to.rows.stride;
    for y in 0..count {
        let row = sixteen::<L>(source, from.first + by + y * lines);
        put_rows::<L, W>(out, to.rows.first + y * rows, to.rows.stride, &row);
    }
}

/// Six samples that are filtered: the first is `by` behind a place, each of the others a step
/// further.
#[derive(Clone, Copy)]
pub struct Taps {
    pub by: usize,
    pub step: usize,
}

/// Half samples: b or s with step 1, h or m with the stride.
#[inline(always)]
pub fn half_rows<const L: usize, const W: usize>(
    p: &[u8],
    from: RowsPlace,
    taps: Taps,
    count: usize,
    out: &mut [u8],
    to: Target<L, W>,
)
    requires room { HasRows W (16 / L * count) to.rows out.old }
    requires samples { HasPlaces L from.stride (16 * count)
        (from.first + taps.by + 5 * taps.step) p.now }
    ensures { IsLaid W (16 / L * count) to.entry.rows
        (λ x y. half_along p.now (taps.by + sample_place from x y) taps.step) out.old out.new }
{
    let source = Source {
        samples: p,
        stride: from.stride,
    };
    let lines = 16 / L * from.stride;
    let rows = 16 / L * to.rows.stride;
    for y in 0..count {
        let row = half_row::<L>(source, from.first + taps.by + y * lines, taps.step);
        put_rows::<L, W>(out, to.rows.first + y * rows, to.rows.stride, &row);
    }
}

#[inline(always)]
pub fn means_of(a: &[u8; 16], b: &[u8; 16]) -> [u8; 16]
    ensures { AreSixteen result (λ k. mean_of_two (slice_index a.now k) (slice_index b.now k)) }
{
    let (a, b) = (*a, *b);
    let mut out = [0; 16];
    for k in 0..16 {
        out[k] = mean(a[k], b[k]);
    }
    out
}

/// The means of whole samples, from place `whole` on, and the half samples between each third and
/// fourth of six samples a step apart.
#[inline(always)]
fn quarter_row<const L: usize>(
    source: Source<'_, L>,
    at: usize,
    whole: usize,
    step: usize,
) -> [u8; 16]
    requires samples { HasPlaces L source.stride 16 (at + 5 * step) source.samples.now }
    requires whole { HasPlaces L source.stride 16 whole source.samples.now }
    ensures { AreSixteen result (λ k. mean_of_two
        (slice_index source.entry.samples.now (whole + place_of L source.entry.stride k))
        (half_along source.entry.samples.now (at + place_of L source.entry.stride k) step)) }
{
    let whole = sixteen::<L>(source, whole);
    SixRows::of::<L>(source, at, step).quarters(&whole)
}

/// Half samples, each with its mean with a whole sample, which is `whole` behind its place.
#[inline(always)]
pub fn quarter_rows<const L: usize, const W: usize>(
    p: &[u8],
    from: RowsPlace,
    taps: Taps,
    whole: usize,
    count: usize,
    out: &mut [u8],
    to: Target<L, W>,
)
    requires room { HasRows W (16 / L * count) to.rows out.old }
    requires samples { HasPlaces L from.stride (16 * count)
        (from.first + taps.by + 5 * taps.step) p.now }
    requires whole { HasPlaces L from.stride (16 * count) (from.first + whole) p.now }
    ensures { IsLaid W (16 / L * count) to.entry.rows
        (λ x y. mean_of_two (slice_index p.now (whole + sample_place from x y))
        (half_along p.now (taps.by + sample_place from x y) taps.step)) out.old out.new }
{
    let source = Source {
        samples: p,
        stride: from.stride,
    };
    let lines = 16 / L * from.stride;
    let rows = 16 / L * to.rows.stride;
    for y in 0..count {
        let row = quarter_row::<L>(
            source,
            from.first + taps.by + y * lines,
            from.first + whole + y * lines,
            taps.step,
        );
        put_rows::<L, W>(out, to.rows.first + y * rows, to.rows.stride, &row);
    }
}

/// The means of two half samples: b or s, whose six samples begin `across` behind its place, and h
/// or m, `down` behind it.
#[inline(always)]
pub fn diagonal_rows<const L: usize, const W: usize>(
    p: &[u8],
    from: RowsPlace,
    across: usize,
    down: usize,
    count: usize,
    out: &mut [u8],
    to: Target<L, W>,
)
    requires room { HasRows W (16 / L * count) to.rows out.old }
    requires across { HasPlaces L from.stride (16 * count) (from.first + across + 5 * 1) p.now }
    requires down { HasPlaces L from.stride (16 * count)
        (from.first + down + 5 * from.stride) p.now }
    ensures { IsLaid W (16 / L * count) to.entry.rows
        (λ x y. mean_of_two (half_along p.now (across + sample_place from x y) 1)
        (half_along p.now (down + sample_place from x y) from.stride)) out.old out.new }
{
    let source = Source {
        samples: p,
        stride: from.stride,
    };
    let lines = 16 / L * from.stride;
    let rows = 16 / L * to.rows.stride;
    for y in 0..count {
        let b = half_row::<L>(source, from.first + across + y * lines, 1);
        let h = half_row::<L>(source, from.first + down + y * lines, from.stride);
        let row = means_of(&b, &h);
        put_rows::<L, W>(out, to.rows.first + y * rows, to.rows.stride, &row);
    }
}
