//! The six-tap filter along columns (8.4.2.2.1): half samples h and m, and their means d and n with
//! whole samples (Table 8-12).
//!
//! A half sample asks for six rows, and the one below it for five of these again: in a block of 16
//! columns these are kept. Two rows of half samples are found at a time, since the kept rows move
//! from register to register between turns.

ghost use Rattle.std.specs.Prelude.{◌≡◌, ℕ, ◌+◌, ◌*◌, ◌/◌, ◌%◌, ◌<◌};
ghost use Rattle.avc_inter.specs.Patch.{half_along};
ghost use Rattle.avc_inter.specs.SixRows.{place_of, HasPlaces, AreSixteen};
ghost use Rattle.avc_inter.specs.FiveRows.{AreFiveRows};
ghost use Rattle.avc_inter.specs.Laid.{sample_place, HasRows, IsLaid};
ghost use Rattle.avc_inter.specs.Means.{half_or_mean, whole_behind};

use crate::five_rows::FiveRows;
use crate::rows::{Taps, half_rows, means_of, put_rows, quarter_rows, sixteen};
use crate::source::Source;
use crate::target::Target;
use avc_plane::RowsPlace;

/// The next sixteen half samples of a block of 16 columns, or their means with the whole samples so
/// far behind their places. The six samples of a half sample begin `by` behind its place.
#[inline(always)]
fn row_between<const L: usize>(
    taps: &mut FiveRows,
    source: Source<'_, L>,
    at: usize,
    by: usize,
    whole: Option<usize>,
) -> [u8; 16]
    requires sixteen { L ≡ 16 }
    requires taps { AreFiveRows taps.old source.samples.now (at + by) source.stride }
    requires samples { HasPlaces L source.stride 16 (at + by + 5 * source.stride)
        source.samples.now }
    requires there { HasPlaces L source.stride 16 (at + whole_behind whole) source.samples.now }
    ensures row { AreSixteen result (λ k. half_or_mean whole source.entry.samples.now
        (at + place_of L source.entry.stride k)
        (half_along source.entry.samples.now (at + by + place_of L source.entry.stride k)
        source.entry.stride)) }
    ensures moved { AreFiveRows taps.new source.entry.samples.now
        (at + by + source.entry.stride) source.entry.stride }
{
    let half = taps.halves::<L>(source, at + by);
    match whole {
        Some(behind) => means_of(&sixteen::<L>(source, at + behind), &half),
        None => half,
    }
}

/// Half samples of a block of 16 columns and an even number of rows, or their means, two rows at a
/// time.
#[inline(always)]
fn lines_between<const L: usize, const W: usize>(
    p: &[u8],
    from: RowsPlace,
    by: usize,
    whole: Option<usize>,
    count: usize,
    out: &mut [u8],
    to: Target<L, W>,
)
    requires sixteen { L ≡ 16 }
    requires some { 0 < count }
    requires even { count % 2 ≡ 0 }
    requires room { HasRows W (16 / L * count) to.rows out.old }
    requires samples { HasPlaces L from.stride (16 * count) (from.first + by + 5 * from.stride)
        p.now }
    requires there { HasPlaces L from.stride (16 * count) (from.first + whole_behind whole) p.now }
    ensures { IsLaid W (16 / L * count) to.entry.rows
        (λ x y. half_or_mean whole p.now (sample_place from x y)
        (half_along p.now (by + sample_place from x y) from.stride)) out.old out.new }
{
    let source = Source {
        samples: p,
        stride: from.stride,
    };
    let lines = 16 / L * from.stride;
    let rows = 16 / L * to.rows.stride;
    let mut taps = FiveRows::of::<L>(source, from.first + by);
    for pair in 0..count / 2 {
        let y = 2 * pair;
        let row = row_between::<L>(&mut taps, source, from.first + y * lines, by, whole);
        put_rows::<L, W>(out, to.rows.first + y * rows, to.rows.stride, &row);
        let y = 2 * pair + 1;
        let row = row_between::<L>(&mut taps, source, from.first + y * lines, by, whole);
        put_rows::<L, W>(out, to.rows.first + y * rows, to.rows.stride, &row);
    }
}

/// Half samples between rows, or their means with the whole samples so far behind their places. The
/// six samples of a half sample begin `by` behind its place.
#[inline(always)]
pub fn rows_between<const L: usize, const W: usize>(
    p: &[u8],
    from: RowsPlace,
    by: usize,
    whole: Option<usize>,
    count: usize,
    out: &mut [u8],
    to: Target<L, W>,
)
    requires room { HasRows W (16 / L * count) to.rows out.old }
    requires samples { HasPlaces L from.stride (16 * count) (from.first + by + 5 * from.stride)
        p.now }
    requires there { HasPlaces L from.stride (16 * count) (from.first + whole_behind whole) p.now }
    ensures { IsLaid W (16 / L * count) to.entry.rows
        (λ x y. half_or_mean whole p.now (sample_place from x y)
        (half_along p.now (by + sample_place from x y) from.stride)) out.old out.new }
{
    if L == 16 && count > 0 && count % 2 == 0 {
        lines_between::<L, W>(p, from, by, whole, count, out, to);
        return;
    }
    let step = from.stride;
    match whole {
        None => half_rows::<L, W>(p, from, Taps { by, step }, count, out, to),
        Some(whole) => quarter_rows::<L, W>(p, from, Taps { by, step }, whole, count, out, to),
    }
}
