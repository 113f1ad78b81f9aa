//! Chroma samples between whole ones, of both components at once (8.4.2.2.2).
//!
//! A row of sixteen is eight samples of Cb and then eight of Cr. Each row is blended along itself
//! once, for the samples above it and for those below it.

ghost use Rattle.std.specs.Prelude.{◌≡◌, ℕ, ◌+◌, ◌*◌, ◌<◌, ◌≤◌, length, slice_index};
ghost use Rattle.avc_inter.specs.Eighths.{share_of, rounded_share, eighth_at, AreAlong, AreShares};
ghost use Rattle.avc_inter.specs.Eighths.{IsLineSet};
ghost use Rattle.avc_inter.specs.Laid.{sample_place, HasRows, HasRowsAround, IsLaid};

use crate::both::{BothPlaces, BothTargets};
use crate::rows::{load, put_row};
use crate::vector::Eighths;

/// How far it is from a number to the next.
#[derive(Clone, Copy)]
struct Fraction {
    eighths: u16,

    ghost few: { eighths < 8 },
}

/// Between two samples, in eighths.
#[inline(always)]
fn share(by: Fraction, first: u8, second: u8) -> u16
    ensures value { result ≡ share_of by.eighths first second }
    ensures small { result ≤ 2040 }
{
    (8 - by.eighths) * u16::from(first) + by.eighths * u16::from(second)
}

/// Between two numbers in eighths, rounded.
#[inline(always)]
fn rounded(by: Fraction, first: u16, second: u16) -> u8
    requires first { first ≤ 2040 }
    requires second { second ≤ 2040 }
    ensures { result ≡ rounded_share by.eighths first second }
{
    (((8 - by.eighths) * first + by.eighths * second + 32) / 64) as u8
}

/// Eight samples of each list.
#[inline(always)]
fn eight_of_both(cb: &[u8], i: usize, cr: &[u8], j: usize) -> [u8; 16]
    requires cb { i + 8 ≤ length cb.now }
    requires cr { j + 8 ≤ length cr.now }
    ensures first { (x : ℕ) → x < 8 → slice_index result x ≡ slice_index cb.now (i + x) }
    ensures second { (x : ℕ) → x < 8 → slice_index result (8 + x) ≡ slice_index cr.now (j + x) }
{
    let mut out = [0; 16];
    load::<8>(cb, i, &mut out, 0);
    load::<8>(cr, j, &mut out, 8);
    out
}

/// Between each sample and that right of it.
#[inline(always)]
fn shares_of(by: Fraction, first: &[u8; 16], second: &[u8; 16]) -> [u16; 16]
    ensures value { (k : ℕ) → k < 16 → slice_index result k
        ≡ share_of by.eighths (slice_index first.now k) (slice_index second.now k) }
    ensures small { AreShares result }
{
    let (first, second) = (*first, *second);
    let mut out = [0; 16];
    for k in 0..16 {
        out[k] = share(by, first[k], second[k]);
    }
    out
}

/// Between two rows.
#[inline(always)]
fn rounded_shares_of(by: Fraction, first: &[u16; 16], second: &[u16; 16]) -> [u8; 16]
    requires first { AreShares first.now }
    requires second { AreShares second.now }
    ensures { (k : ℕ) → k < 16 →
        slice_index result k
        ≡ rounded_share by.eighths (slice_index first.now k) (slice_index second.now k) }
{
    let (first, second) = (*first, *second);
    let mut out = [0; 16];
    for k in 0..16 {
        out[k] = rounded(by, first[k], second[k]);
    }
    out
}

/// Row n of both, blended along itself.
#[inline(always)]
fn along_row(cb: &[u8], cr: &[u8], from: BothPlaces, n: usize, right: Fraction) -> [u16; 16]
    requires cb { from.cb.first + n * from.cb.stride + 9 ≤ length cb.now }
    requires cr { from.cr.first + n * from.cr.stride + 9 ≤ length cr.now }
    ensures { AreAlong right.eighths cb.now (from.cb.first + n * from.cb.stride)
        cr.now (from.cr.first + n * from.cr.stride) result }
{
    let i = from.cb.first + n * from.cb.stride;
    let j = from.cr.first + n * from.cr.stride;
    let here = eight_of_both(cb, i, cr, j);
    let next = eight_of_both(cb, i + 1, cr, j + 1);
    shares_of(right, &here, &next)
}

/// Lays row n of both, between two rows.
#[inline(always)]
fn lay_line<const W: usize>(
    down: Fraction,
    above: &[u16; 16],
    below: &[u16; 16],
    n: usize,
    cb: &mut [u8],
    cr: &mut [u8],
    to: BothTargets<W>,
)
    requires above { AreShares above.now }
    requires below { AreShares below.now }
    requires cb { to.cb.first + n * to.cb.stride + W ≤ length cb.old }
    requires cr { to.cr.first + n * to.cr.stride + W ≤ length cr.old }
    ensures cb { IsLineSet W (to.entry.cb.first + n * to.entry.cb.stride)
        (λ x. rounded_share down.eighths (slice_index above.now x) (slice_index below.now x))
        cb.old cb.new }
    ensures cr { IsLineSet W (to.entry.cr.first + n * to.entry.cr.stride)
        (λ x. rounded_share down.eighths (slice_index above.now (8 + x))
        (slice_index below.now (8 + x))) cr.old cr.new }
{
    let row = rounded_shares_of(down, above, below);
    put_row::<W>(cb, to.cb.first + n * to.cb.stride, &row, 0);
    put_row::<W>(cr, to.cr.first + n * to.cr.stride, &row, 8);
}

/// Lays the samples of both between whole ones, two rows at a time.
#[inline(always)]
pub fn lay_rows<const W: usize>(
    cb: &[u8],
    cr: &[u8],
    from: BothPlaces,
    beyond: Eighths,
    out_cb: &mut [u8],
    out_cr: &mut [u8],
    to: BothTargets<W>,
)
    requires cb { HasRowsAround 8 (2 * to.pairs) from.cb cb.now }
    requires cr { HasRowsAround 8 (2 * to.pairs) from.cr cr.now }
    requires room_cb { HasRows W (2 * to.pairs) to.cb out_cb.old }
    requires room_cr { HasRows W (2 * to.pairs) to.cr out_cr.old }
    ensures cb { IsLaid W (2 * to.entry.pairs) to.entry.cb
        (λ x y. eighth_at beyond.right beyond.down from.cb.stride cb.now (sample_place from.cb x y))
        out_cb.old out_cb.new }
    ensures cr { IsLaid W (2 * to.entry.pairs) to.entry.cr
        (λ x y. eighth_at beyond.right beyond.down from.cr.stride cr.now (sample_place from.cr x y))
        out_cr.old out_cr.new }
{
    let right = Fraction {
        eighths: beyond.right,
    };
    let down = Fraction {
        eighths: beyond.down,
    };
    let mut row = along_row(cb, cr, from, 0, right);
    for y in 0..to.pairs {
        let middle = along_row(cb, cr, from, 2 * y + 1, right);
        lay_line::<W>(down, &row, &middle, 2 * y, out_cb, out_cr, to);
        let last = along_row(cb, cr, from, 2 * (y + 1), right);
        lay_line::<W>(down, &middle, &last, 2 * y + 1, out_cb, out_cr, to);
        row = last;
    }
}

/// Lays the samples of both between whole ones. Where all lie straight below whole ones, or right
/// of them, there is code of its own, in which nothing is multiplied by a fraction of 0.
#[inline(always)]
pub fn lay_both<const W: usize>(
    cb: &[u8],
    cr: &[u8],
    from: BothPlaces,
    beyond: Eighths,
    out_cb: &mut [u8],
    out_cr: &mut [u8],
    to: BothTargets<W>,
)
    requires cb { HasRowsAround 8 (2 * to.pairs) from.cb cb.now }
    requires cr { HasRowsAround 8 (2 * to.pairs) from.cr cr.now }
    requires room_cb { HasRows W (2 * to.pairs) to.cb out_cb.old }
    requires room_cr { HasRows W (2 * to.pairs) to.cr out_cr.old }
    ensures cb { IsLaid W (2 * to.entry.pairs) to.entry.cb
        (λ x y. eighth_at beyond.right beyond.down from.cb.stride cb.now (sample_place from.cb x y))
        out_cb.old out_cb.new }
    ensures cr { IsLaid W (2 * to.entry.pairs) to.entry.cr
        (λ x y. eighth_at beyond.right beyond.down from.cr.stride cr.now (sample_place from.cr x y))
        out_cr.old out_cr.new }
{
    let Eighths { right, down } = beyond;
    if W == 8 && right == 0 {
        let below = Eighths { right: 0, down };
        lay_rows::<W>(cb, cr, from, below, out_cb, out_cr, to);
    } else if W == 8 && down == 0 {
        let beside = Eighths { right, down: 0 };
        lay_rows::<W>(cb, cr, from, beside, out_cb, out_cr, to);
    } else {
        lay_rows::<W>(cb, cr, from, beyond, out_cb, out_cr, to);
    }
}
