//! Samples across a vertical edge, turned so that each line stands in a lane.

ghost use Rattle.std.specs.Prelude.{◌≡◌, ℕ, ◌+◌, ◌*◌, ◌/◌, ◌%◌, ◌<◌, ◌≤◌, true, false, slice_index};
ghost use Rattle.avc_edges.specs.Line.{Setting, filtered};
ghost use Rattle.avc_edges.specs.Rows.{IsRiffled, IsTransposed};
ghost use Rattle.avc_edges.specs.Rows.{IsNearSet, line_down, line_near};
ghost use Rattle.avc_edges.specs.Fits.{FitsWeakLines, FitsStrongLines};

use crate::limits::{Limits, StrongLimits};
use crate::lines::{SideRows, strong_chroma_lines, strong_lines, weak_chroma_lines, weak_lines};
use crate::table::{samples_from, set_samples};
use std::simd::prelude::*;

/// The halves of a table, one sample of each in turn.
#[inline(always)]
pub(crate) fn riffled<const HALF: usize, const N: usize>(t: &[u8; N]) -> [u8; N]
    requires { 2 * HALF ≡ N }
    ensures { IsRiffled HALF t.now result }
{
    let mut out = *t;
    for k in 0..HALF {
        out[2 * k] = t[k];
        out[2 * k + 1] = t[HALF + k];
    }
    out
}

/// The columns of sixteen rows of so many samples, as rows.
#[inline(always)]
pub(crate) fn transposed<const COLUMNS: usize, const HALF: usize, const N: usize>(
    t: &[u8; N],
) -> [u8; N]
    requires half { HALF ≡ 8 * COLUMNS }
    requires all { 2 * HALF ≡ N }
    ensures { IsTransposed COLUMNS t.now result }
{
    let once = riffled::<HALF, N>(t);
    let twice = riffled::<HALF, N>(&once);
    let thrice = riffled::<HALF, N>(&twice);
    riffled::<HALF, N>(&thrice)
}

/// Eight rows of sixteen samples as sixteen rows of eight.
#[inline(always)]
pub(crate) fn rows_of(t: &[u8; 128]) -> [u8; 128]
    ensures { IsTransposed 8 result t.now }
{
    let once = riffled::<64, 128>(t);
    let twice = riffled::<64, 128>(&once);
    riffled::<64, 128>(&twice)
}

/// Each four samples as one word, the first of them lowest.
#[inline(always)]
fn words_of(t: &[u8; 64]) -> [u32; 16]
    requires { (k : ℕ) → k < 64 → slice_index t.now k < 256 }
    ensures first { (k : ℕ) → k < 16 → slice_index result k % 256 ≡ slice_index t.now (4 * k) }
    ensures second { (k : ℕ) → k < 16 →
        slice_index result k / 256 % 256 ≡ slice_index t.now (4 * k + 1) }
    ensures third { (k : ℕ) → k < 16 →
        slice_index result k / 65536 % 256 ≡ slice_index t.now (4 * k + 2) }
    ensures fourth { (k : ℕ) → k < 16 →
        slice_index result k / 16777216 % 256 ≡ slice_index t.now (4 * k + 3) }
{
    u32x16::from_le_bytes(u8x64::from_array(*t)).to_array()
}

/// The samples by way of words, so that each four are stored at once.
#[inline(always)]
fn by_words(t: &[u8; 64]) -> [u8; 64]
    ensures { (k : ℕ) → k < 64 → slice_index result k ≡ slice_index t.now k }
{
    let words = words_of(t);
    let mut out = [0; 64];
    for k in 0..16 {
        let word = words[k];
        out[4 * k] = (word % 256) as u8;
        out[4 * k + 1] = (word / 256 % 256) as u8;
        out[4 * k + 2] = (word / 65536 % 256) as u8;
        out[4 * k + 3] = (word / 16777216 % 256) as u8;
    }
    out
}

/// The four rows in the middle of a block of eight rows of sixteen samples, each with a row of
/// zeros below it.
#[inline(always)]
fn middle_apart(t: &[u8; 128]) -> [u8; 128]
    ensures first { (k : ℕ) → k < 16 → slice_index result k ≡ slice_index t.now (32 + k) }
    ensures second { (k : ℕ) → k < 16 → slice_index result (32 + k) ≡ slice_index t.now (48 + k) }
    ensures third { (k : ℕ) → k < 16 → slice_index result (64 + k) ≡ slice_index t.now (64 + k) }
    ensures fourth { (k : ℕ) → k < 16 → slice_index result (96 + k) ≡ slice_index t.now (80 + k) }
{
    let mut out = [0; 128];
    for k in 0..16 {
        out[k] = t[32 + k];
        out[32 + k] = t[48 + k];
        out[64 + k] = t[64 + k];
        out[96 + k] = t[80 + k];
    }
    out
}

/// Those four rows as sixteen rows of four samples.
#[inline(always)]
pub(crate) fn rows_of_middle(t: &[u8; 128]) -> [u8; 64]
    ensures { (r c : ℕ) → r < 16 → c < 4 →
        slice_index result (4 * r + c) ≡ slice_index t.now (32 + 16 * c + r) }
{
    let apart = middle_apart(t);
    let once = riffled::<64, 128>(&apart);
    let twice = riffled::<64, 128>(&once);
    by_words(&samples_from(&twice, 0))
}

/// A value for each four lines, at each line.
#[inline(always)]
pub(crate) fn spread(v: &[u8; 4]) -> [u8; 16]
    ensures { (k : ℕ) → k < 16 → slice_index result k ≡ slice_index v.now (k / 4) }
{
    let mut out = [0; 16];
    for k in 0..16 {
        out[k] = v[k / 4];
    }
    out
}

/// Filters the sixteen lines of luma down a block of eight rows of sixteen samples, at strengths of
/// 0 to 3.
#[inline(always)]
pub(crate) fn weak_luma(t: &mut [u8; 128], limits: &Limits)
    ensures { (s : Setting) (i : ℕ) → i < 16 → FitsWeakLines true s limits.now i →
        filtered s (line_down (slice_index t.old) i) ≡ line_down (slice_index t.new) i }
{
    let p2 = samples_from(t, 16);
    let mut p1 = samples_from(t, 32);
    let mut p0 = samples_from(t, 48);
    let mut q0 = samples_from(t, 64);
    let mut q1 = samples_from(t, 80);
    let q2 = samples_from(t, 96);
    weak_lines(&p2, &mut p1, &mut p0, &mut q0, &mut q1, &q2, limits);
    set_samples(t, 32, &p1);
    set_samples(t, 48, &p0);
    set_samples(t, 64, &q0);
    set_samples(t, 80, &q1);
}

/// Filters the sixteen lines of luma down a block of eight rows of sixteen samples, at strength 4.
#[inline(always)]
pub(crate) fn strong_luma(t: &mut [u8; 128], limits: &StrongLimits)
    ensures { (s : Setting) (i : ℕ) → i < 16 → FitsStrongLines true s limits.now i →
        filtered s (line_down (slice_index t.old) i) ≡ line_down (slice_index t.new) i }
{
    let p3 = samples_from(t, 0);
    let p2 = samples_from(t, 16);
    let p1 = samples_from(t, 32);
    let p0 = samples_from(t, 48);
    let q0 = samples_from(t, 64);
    let q1 = samples_from(t, 80);
    let q2 = samples_from(t, 96);
    let q3 = samples_from(t, 112);
    let mut sides = SideRows {
        p2,
        p1,
        p0,
        q0,
        q1,
        q2,
    };
    strong_lines(&p3, &mut sides, &q3, limits);
    set_samples(t, 16, &sides.p2);
    set_samples(t, 32, &sides.p1);
    set_samples(t, 48, &sides.p0);
    set_samples(t, 64, &sides.q0);
    set_samples(t, 80, &sides.q1);
    set_samples(t, 96, &sides.q2);
}

/// Four rows of sixteen samples, in a table of eight.
#[derive(Clone, Copy)]
pub(crate) struct FourRows {
    /// The samples before them.
    pub(crate) from: usize,

    ghost room: { from + 64 ≤ 128 },
}

/// Filters the sixteen lines of chroma down four rows of sixteen samples, at strengths of 0 to 3.
#[inline(always)]
pub(crate) fn weak_chroma(t: &mut [u8; 128], rows: FourRows, limits: &Limits)
    ensures lines { (p3 p2 q2 q3 : ℕ) (s : Setting) (i : ℕ) → i < 16 →
        FitsWeakLines false s limits.now i →
        filtered s (line_near p3 p2 q2 q3 t.old rows.from i)
        ≡ line_near p3 p2 q2 q3 t.new rows.from i }
    ensures others { IsNearSet rows.from t.old t.new }
{
    let from = rows.from;
    let p1 = samples_from(t, from);
    let mut p0 = samples_from(t, from + 16);
    let mut q0 = samples_from(t, from + 32);
    let q1 = samples_from(t, from + 48);
    weak_chroma_lines(&p1, &mut p0, &mut q0, &q1, limits);
    set_samples(t, from + 16, &p0);
    set_samples(t, from + 32, &q0);
}

/// Filters the sixteen lines of chroma down four rows of sixteen samples, at strength 4.
#[inline(always)]
pub(crate) fn strong_chroma(t: &mut [u8; 128], rows: FourRows, limits: &StrongLimits)
    ensures lines { (p3 p2 q2 q3 : ℕ) (s : Setting) (i : ℕ) → i < 16 →
        FitsStrongLines false s limits.now i →
        filtered s (line_near p3 p2 q2 q3 t.old rows.from i)
        ≡ line_near p3 p2 q2 q3 t.new rows.from i }
    ensures others { IsNearSet rows.from t.old t.new }
{
    let from = rows.from;
    let p1 = samples_from(t, from);
    let mut p0 = samples_from(t, from + 16);
    let mut q0 = samples_from(t, from + 32);
    let q1 = samples_from(t, from + 48);
    strong_chroma_lines(&p1, &mut p0, &mut q0, &q1, limits);
    set_samples(t, from + 16, &p0);
    set_samples(t, from + 32, &q0);
}
