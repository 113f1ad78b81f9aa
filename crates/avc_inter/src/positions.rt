//! The sixteen quarter positions of a block (Table 8-12).
//!
//! The rows that are read begin at the place `from`, two rows above the block's first sample and
//! two columns left of it. L is how many columns the block has, and `count` how many times sixteen
//! samples. What is read is in the `count_around` rows of sixteen from there on. W columns of the
//! block are written into rows, from the place `to` on.

ghost use Rattle.std.specs.Prelude.{◌≡◌, ℕ, ◌+◌, ◌*◌, ◌/◌, ◌<◌, ◌≤◌, ◌^◌, length};
ghost use Rattle.avc_inter.specs.Patch.{row_0_of, row_beside_of, row_2_of, quarter_of};
ghost use Rattle.avc_inter.specs.SixRows.{HasRoom};
ghost use Rattle.avc_inter.specs.Laid.{sample_place, HasRows, IsLaid};

use crate::centres::{centre_rows, centre_rows_across, centre_rows_down};
use crate::columns::rows_between;
use crate::rows::{Taps, diagonal_rows, half_rows, quarter_rows, whole_rows};
use crate::source::Surrounded;
use crate::target::Target;
use crate::vector::Quarters;
use avc_plane::RowsPlace;

/// How many times sixteen samples a block has with the five rows more that the six taps ask for.
pub fn count_around(columns: usize, count: usize) -> usize
    requires narrow { columns ≤ 16 }
    requires low { count ≤ 16 }
    ensures value { result ≡ count + (5 * columns + 15) / 16 }
    ensures enough { 16 * count + 5 * columns ≤ 16 * result }
    ensures few { result ≤ 21 }
{
    count + (5 * columns + 15) / 16
}

/// The positions at a whole row.
#[inline(always)]
fn row_0<const L: usize, const W: usize>(
    p: &[u8],
    from: RowsPlace,
    count: usize,
    beyond: Quarters,
    out: &mut [u8],
    to: Target<L, W>,
)
    requires out { HasRows W (16 / L * count) to.rows out.old }
    requires room { HasRoom L from.stride count from.first p.now }
    ensures { IsLaid W (16 / L * count) to.entry.rows
        (λ x y. row_0_of p.now from.stride (sample_place from x y) beyond.right) out.old out.new }
{
    let b = 2 * from.stride;
    match beyond.right {
        0 => whole_rows::<L, W>(p, from, b + 2, count, out, to),
        1 => quarter_rows::<L, W>(p, from, Taps { by: b, step: 1 }, b + 2, count, out, to),
        2 => half_rows::<L, W>(p, from, Taps { by: b, step: 1 }, count, out, to),
        _ => quarter_rows::<L, W>(p, from, Taps { by: b, step: 1 }, b + 3, count, out, to),
    }
}

/// The positions a quarter below a whole row, where ROW is 2, or a quarter above the next, where
/// it is 3.
#[inline(always)]
fn row_beside<const ROW: usize, const L: usize, const W: usize>(
    p: &[u8],
    from: RowsPlace,
    count: usize,
    beyond: Quarters,
    out: &mut [u8],
    to: Target<L, W>,
)
    requires row { ROW ≤ 3 }
    requires out { HasRows W (16 / L * count) to.rows out.old }
    requires room { HasRoom L from.stride count from.first p.now }
    ensures { IsLaid W (16 / L * count) to.entry.rows
        (λ x y. row_beside_of p.now from.stride ROW (sample_place from x y) beyond.right)
        out.old out.new }
{
    let b = ROW * from.stride;
    let block = Surrounded {
        samples: p,
        from,
        count,
    };
    match beyond.right {
        0 => rows_between::<L, W>(p, from, 2, Some(b + 2), count, out, to),
        1 => diagonal_rows::<L, W>(p, from, b, 2, count, out, to),
        2 => centre_rows_across::<L, W>(block, ROW, out, to),
        _ => diagonal_rows::<L, W>(p, from, b, 3, count, out, to),
    }
}

/// The positions a half below a whole row.
#[inline(always)]
fn row_2<const L: usize, const W: usize>(
    p: &[u8],
    from: RowsPlace,
    count: usize,
    beyond: Quarters,
    out: &mut [u8],
    to: Target<L, W>,
)
    requires out { HasRows W (16 / L * count) to.rows out.old }
    requires room { HasRoom L from.stride count from.first p.now }
    ensures { IsLaid W (16 / L * count) to.entry.rows
        (λ x y. row_2_of p.now from.stride (sample_place from x y) beyond.right) out.old out.new }
{
    let block = Surrounded {
        samples: p,
        from,
        count,
    };
    match beyond.right {
        0 => rows_between::<L, W>(p, from, 2, None, count, out, to),
        1 => centre_rows_down::<L, W>(block, 2, out, to),
        2 => centre_rows::<L, W>(block, out, to),
        _ => centre_rows_down::<L, W>(block, 3, out, to),
    }
}

/// The samples of a block by the fractions of a vector.
#[inline(always)]
pub fn quarters<const L: usize, const W: usize>(
    p: &[u8],
    from: RowsPlace,
    count: usize,
    beyond: Quarters,
    out: &mut [u8],
    to: Target<L, W>,
)
    requires out { HasRows W (16 / L * count) to.rows out.old }
    requires room { HasRoom L from.stride count from.first p.now }
    ensures { IsLaid W (16 / L * count) to.entry.rows
        (λ x y. quarter_of p.now from.stride (sample_place from x y) beyond.right beyond.down)
        out.old out.new }
{
    match beyond.down {
        0 => row_0::<L, W>(p, from, count, beyond, out, to),
        1 => row_beside::<2, L, W>(p, from, count, beyond, out, to),
        2 => row_2::<L, W>(p, from, count, beyond, out, to),
        _ => row_beside::<3, L, W>(p, from, count, beyond, out, to),
    }
}
