//! indexA, indexB, alpha, beta and tC0 (8.7.2.2, Table 8-16, Table 8-17).

ghost use Rattle.std.specs.Prelude.{◌≡◌, ℕ, ◌+◌, ◌*◌, ◌/◌, ◌%◌, ◌<◌, ◌≤◌, slice_index};
ghost use Rattle.avc_edges.specs.Line.{threshold_index, alpha_of, beta_of};
ghost use Rattle.avc_edges.specs.OneEdge.{index_a_of, index_b_of, tc1_of, AreLimits};

use crate::block::spread;
use crate::bytes::less;
use crate::line::{both, is_zero};
use crate::lines::repeated;
use crate::pair::spread_twice;
use crate::settings::WeakSettings;
use std::simd::prelude::*;

// Table 8-16 by index.
const ALPHA: [u8; 52] = [
    0, 0, 0, 0, 0, 0, 0, 0, 0, 0, 0, 0, 0, 0, 0, 0, 4, 4, 5, 6, 7, 8, 9, 10, 12, 13, 15, 17, 20,
    22, 25, 28, 32, 36, 40, 45, 50, 56, 63, 71, 80, 90, 101, 113, 127, 144, 162, 182, 203, 226,
    255, 255,
];

const BETA: [u8; 52] = [
    0, 0, 0, 0, 0, 0, 0, 0, 0, 0, 0, 0, 0, 0, 0, 0, 2, 2, 2, 3, 3, 3, 3, 4, 4, 4, 6, 6, 7, 7, 8, 8,
    9, 9, 10, 10, 11, 11, 12, 12, 13, 13, 14, 14, 15, 15, 16, 16, 17, 17, 18, 18,
];

// Table 8-17: for each index one more than tC0 at the strengths 1 to 3; at strength 0, where
// nothing is filtered, 0. Twelve zeros let each row be read as the first four of sixteen.
const TC1: [u8; 220] = [
    0, 1, 1, 1, 0, 1, 1, 1, 0, 1, 1, 1, 0, 1, 1, 1, 0, 1, 1, 1, 0, 1, 1, 1, 0, 1, 1, 1, 0, 1, 1, 1,
    0, 1, 1, 1, 0, 1, 1, 1, 0, 1, 1, 1, 0, 1, 1, 1, 0, 1, 1, 1, 0, 1, 1, 1, 0, 1, 1, 1, 0, 1, 1, 1,
    0, 1, 1, 1, 0, 1, 1, 2, 0, 1, 1, 2, 0, 1, 1, 2, 0, 1, 1, 2, 0, 1, 2, 2, 0, 1, 2, 2, 0, 2, 2, 2,
    0, 2, 2, 2, 0, 2, 2, 2, 0, 2, 2, 2, 0, 2, 2, 3, 0, 2, 2, 3, 0, 2, 2, 3, 0, 2, 2, 3, 0, 2, 3, 4,
    0, 2, 3, 4, 0, 3, 3, 4, 0, 3, 3, 5, 0, 3, 4, 5, 0, 3, 4, 5, 0, 4, 4, 6, 0, 4, 5, 7, 0, 4, 5, 7,
    0, 5, 6, 8, 0, 5, 6, 9, 0, 5, 7, 10, 0, 6, 8, 11, 0, 7, 9, 12, 0, 7, 9, 14, 0, 8, 11, 15, 0, 9,
    12, 17, 0, 10, 13, 19, 0, 11, 14, 21, 0, 12, 16, 24, 0, 14, 18, 26, 0, 0, 0, 0, 0, 0, 0, 0, 0,
    0, 0, 0,
];

/// What the lines of one edge have in common, beside their strengths (8.7.2.2).
#[derive(Clone, Copy)]
pub struct EdgeQp {
    /// The QP of the samples left of the edge, or above it: QP_Y, or QP_C for chroma. 0 to 51.
    pub p: u8,

    /// The QP on the other side.
    pub q: u8,

    /// FilterOffsetA of the slice of the q side.
    pub offset_a: i8,

    /// FilterOffsetB of that slice.
    pub offset_b: i8,
}

/// indexA or indexB (8.7.2.2).
#[derive(Clone, Copy)]
pub(crate) struct ThresholdIndex {
    pub(crate) value: u8,

    ghost low: { value < 52 },
}

#[derive(Clone, Copy)]
pub(crate) struct Thresholds {
    pub(crate) index_a: ThresholdIndex,
    pub(crate) alpha: u8,
    pub(crate) beta: u8,
}

#[inline(always)]
fn index_of(p: u8, q: u8, offset: i8) -> ThresholdIndex
    ensures { result.value ≡ threshold_index ((p + q + 1) / 2) offset }
{
    let qp = (u16::from(p) + u16::from(q) + 1) / 2;
    let sum = qp as i16 + i16::from(offset);
    if sum < 0 {
        ThresholdIndex { value: 0 }
    } else if sum > 51 {
        ThresholdIndex { value: 51 }
    } else {
        ThresholdIndex { value: sum as u8 }
    }
}

#[inline(always)]
#[tactic(auto, using(crate::proofs::EdgesOnPlane::alpha_at))]
fn alpha(index: ThresholdIndex) -> u8
    ensures { result ≡ alpha_of index.value }
{
    ALPHA[usize::from(index.value)]
}

#[inline(always)]
#[tactic(auto, using(crate::proofs::EdgesOnPlane::beta_at))]
fn beta(index: ThresholdIndex) -> u8
    ensures { result ≡ beta_of index.value }
{
    BETA[usize::from(index.value)]
}

/// The number at a place of the table: one more than tC0 at a strength of 1 to 3, and 0 at strength
/// 0.
#[inline(always)]
#[tactic(auto, using(crate::proofs::EdgesOnPlane::tc1_at))]
fn tc1(place: usize) -> u8
    requires { place < 220 }
    ensures value { (strength index : ℕ) → strength < 4 → index < 52 →
        place ≡ 4 * index + strength → result ≡ tc1_of strength index }
    ensures small { result ≤ 26 }
{
    TC1[place]
}

/// Those at all strengths, in the first four of sixteen.
#[inline(always)]
fn each_tc1(index: ThresholdIndex) -> [u8; 16]
    ensures value { (k : ℕ) → k < 4 → slice_index result k ≡ tc1_of k index.value }
    ensures small { (k : ℕ) → k < 16 → slice_index result k ≤ 26 }
{
    let first = 4 * usize::from(index.value);
    let mut out = [0; 16];
    for k in 0..16 {
        out[k] = tc1(first + k);
    }
    out
}

/// The numbers of a table at these places: one instruction.
#[inline(always)]
fn looked_up(table: &[u8; 16], places: &[u8; 16]) -> [u8; 16]
    requires { (k : ℕ) → k < 16 → slice_index places.now k < 16 }
    ensures { (k : ℕ) → k < 16 →
        slice_index result k ≡ slice_index table.now (slice_index places.now k) }
{
    u8x16::from_array(*table)
        .swizzle_dyn(u8x16::from_array(*places))
        .to_array()
}

impl WeakSettings<'_> {
    /// One more than tC0 at each of sixteen strengths of 1 to 3, and 0 at strength 0.
    #[inline(always)]
    fn tc1s(self, strengths: &[u8; 16]) -> [u8; 16]
        requires { (k : ℕ) → k < 16 → slice_index strengths.now k < 4 }
        ensures value { (k : ℕ) → k < 16 → slice_index result k
            ≡ tc1_of (slice_index strengths.now k) self.entry.limits.now.index_a }
        ensures small { (k : ℕ) → k < 16 → slice_index result k ≤ 26 }
    {
        looked_up(&self.limits.lines.tc1, strengths)
    }

    /// That of each of sixteen lines of luma.
    #[inline(always)]
    pub(crate) fn luma_tc1s(self) -> [u8; 16]
        ensures value { (k : ℕ) → k < 16 → slice_index result k
            ≡ tc1_of (slice_index self.entry.strengths.now (k / 4)) self.entry.limits.now.index_a }
        ensures small { (k : ℕ) → k < 16 → slice_index result k ≤ 26 }
    {
        self.tc1s(&spread(self.strengths))
    }

    /// That of each of eight lines of chroma, twice.
    #[inline(always)]
    pub(crate) fn chroma_tc1s(self) -> [u8; 16]
        ensures value { (k : ℕ) → k < 16 → slice_index result k
            ≡ tc1_of (slice_index self.entry.strengths.now (k % 8 / 2))
            self.entry.limits.now.index_a }
        ensures small { (k : ℕ) → k < 16 → slice_index result k ≤ 26 }
    {
        self.tc1s(&spread_twice(self.strengths))
    }
}

/// What all lines between macroblocks of two QPs are filtered with (8.7.2.2).
#[derive(Clone, Copy)]
pub struct QpLimits {
    /// One less than alpha.
    pub alpha1: u8,

    /// One less than beta.
    pub beta1: u8,

    /// indexA (8.7.2.2), 0 to 51.
    pub index_a: u8,

    /// Neither alpha nor beta is 0. Where one is, nothing is filtered.
    pub is_on: bool,

    /// The thresholds for sixteen lines at once: once made, they serve many edges.
    pub lines: LineLimits,
}

/// What sixteen lines are filtered with, spread over a row of sixteen bytes each.
#[derive(Clone, Copy)]
pub struct LineLimits {
    /// One less than alpha.
    pub alpha1: [u8; 16],

    /// One less than beta.
    pub beta1: [u8; 16],

    /// One more than tC0 at a strength of 1 to 3, and 0 at strength 0: four by strength.
    pub tc1: [u8; 16],
}

/// Limits at which nothing is filtered.
pub const NO_LIMITS: QpLimits = QpLimits {
    alpha1: 0,
    beta1: 0,
    index_a: 0,
    is_on: false,
    lines: LineLimits {
        alpha1: [0; 16],
        beta1: [0; 16],
        tc1: [0; 16],
    },
};

impl LineLimits {
    /// Makes them these, where they stand.
    #[inline(always)]
    fn set(&mut self, alpha1: u8, beta1: u8, index: ThresholdIndex)
        ensures alpha { (k : ℕ) → k < 16 → slice_index self.new.alpha1 k ≡ alpha1 }
        ensures beta { (k : ℕ) → k < 16 → slice_index self.new.beta1 k ≡ beta1 }
        ensures tc1 { (k : ℕ) → k < 4 → slice_index self.new.tc1 k ≡ tc1_of k index.value }
        ensures tc1_small { (k : ℕ) → k < 16 → slice_index self.new.tc1 k ≤ 26 }
    {
        self.alpha1 = repeated(alpha1);
        self.beta1 = repeated(beta1);
        self.tc1 = each_tc1(index);
    }
}

impl QpLimits {
    /// Makes them what lines between samples of these QPs are filtered with (8.7.2.2). They are
    /// written where they stand: a vector that is read in other pieces than it was written in, as
    /// a copy of all would, waits until it has left the processor.
    #[inline(always)]
    pub fn set(&mut self, qp: EdgeQp)
        ensures { AreLimits self.new qp }
    {
        let thresholds = qp.thresholds();
        let alpha1 = less(thresholds.alpha, 1);
        let beta1 = less(thresholds.beta, 1);
        self.alpha1 = alpha1;
        self.beta1 = beta1;
        self.index_a = thresholds.index_a.value;
        self.is_on = both(!is_zero(thresholds.alpha), !is_zero(thresholds.beta));
        self.lines.set(alpha1, beta1, thresholds.index_a);
    }
}

impl EdgeQp {
    #[inline(always)]
    pub(crate) fn thresholds(&self) -> Thresholds
        ensures index { result.index_a.value ≡ index_a_of self.now }
        ensures alpha { result.alpha ≡ alpha_of (index_a_of self.now) }
        ensures beta { result.beta ≡ beta_of (index_b_of self.now) }
    {
        let index_a = index_of(self.p, self.q, self.offset_a);
        Thresholds {
            index_a,
            alpha: alpha(index_a),
            beta: beta(index_of(self.p, self.q, self.offset_b)),
        }
    }
}
