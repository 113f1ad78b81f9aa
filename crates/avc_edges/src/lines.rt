//! Sixteen lines at once: their limits, and what becomes of their samples.

ghost use Rattle.std.specs.Prelude.{◌≡◌, ℕ, ◌-◌, ◌/◌, ◌%◌, ◌<◌, ◌≤◌, true, false, slice_index};
ghost use Rattle.avc_edges.specs.Line.{Setting, filtered};
ghost use Rattle.avc_edges.specs.Rows.{line_within, line_inside};
ghost use Rattle.avc_edges.specs.Fits.{FitsWeakLines, FitsStrongLines, line_of_sides};
ghost use Rattle.avc_edges.specs.OneEdge.{FitsWeak};

use crate::bytes::less;
use crate::limits::{Limits, StrongLimits, StrongThresholds, WeakThresholds};
use crate::line::{Inner, Sides, strong_chroma_line, strong_line, weak_chroma_line, weak_line};
use crate::settings::{StrongSettings, WeakSettings};

/// Sixteen lines across an edge by the three nearest samples on each side: a row for each.
#[derive(Clone, Copy)]
pub(crate) struct SideRows {
    pub(crate) p2: [u8; 16],
    pub(crate) p1: [u8; 16],
    pub(crate) p0: [u8; 16],
    pub(crate) q0: [u8; 16],
    pub(crate) q1: [u8; 16],
    pub(crate) q2: [u8; 16],
}

/// One number for all lines.
#[inline(always)]
pub(crate) fn repeated(v: u8) -> [u8; 16]
    ensures { (k : ℕ) → k < 16 → slice_index result k ≡ v }
{
    [v; 16]
}

/// 1 where the number is 0.
#[inline(always)]
fn deads(tc1: &[u8; 16]) -> [u8; 16]
    ensures { (k : ℕ) → k < 16 → slice_index result k ≡ 1 - slice_index tc1.now k }
{
    let tc1 = *tc1;
    let mut out = [0; 16];
    for k in 0..16 {
        out[k] = less(1, tc1[k]);
    }
    out
}

/// One less than each number that is not 0.
#[inline(always)]
fn tc0s(tc1: &[u8; 16]) -> [u8; 16]
    ensures { (k : ℕ) → k < 16 → slice_index result k ≡ slice_index tc1.now k - 1 }
{
    let tc1 = *tc1;
    let mut out = [0; 16];
    for k in 0..16 {
        out[k] = less(tc1[k], 1);
    }
    out
}

impl WeakSettings<'_> {
    /// What sixteen lines are filtered with; `tc1` is one more than tC0, or 0 where nothing is
    /// filtered.
    #[inline(always)]
    fn of_lines(self, tc1: &[u8; 16]) -> Limits
        requires small { (k : ℕ) → k < 16 → slice_index tc1.now k ≤ 26 }
        ensures alpha { (k : ℕ) → k < 16 →
            slice_index result.alpha1 k ≡ self.entry.limits.now.alpha1 }
        ensures beta { (k : ℕ) → k < 16 → slice_index result.beta1 k ≡ self.entry.limits.now.beta1 }
        ensures dead { (k : ℕ) → k < 16 → slice_index result.dead k ≡ 1 - slice_index tc1.now k }
        ensures tc0 { (k : ℕ) → k < 16 → slice_index result.tc0 k ≡ slice_index tc1.now k - 1 }
    {
        Limits {
            alpha1: self.limits.lines.alpha1,
            beta1: self.limits.lines.beta1,
            dead: deads(tc1),
            tc0: tc0s(tc1),
        }
    }

    /// What the sixteen lines of luma are filtered with.
    #[inline(always)]
    pub(crate) fn of_luma(self) -> Limits
        ensures { (s : Setting) (i : ℕ) → i < 16 →
            FitsWeak true self.entry.limits.now (slice_index self.entry.strengths.now (i / 4)) s →
            FitsWeakLines true s result i }
    {
        self.of_lines(&self.luma_tc1s())
    }

    /// What eight lines of chroma are filtered with, twice.
    #[inline(always)]
    pub(crate) fn of_chroma(self) -> Limits
        ensures { (s : Setting) (i : ℕ) → i < 16 →
            FitsWeak false self.entry.limits.now
            (slice_index self.entry.strengths.now (i % 8 / 2)) s →
            FitsWeakLines false s result i }
    {
        self.of_lines(&self.chroma_tc1s())
    }
}

impl StrongSettings<'_> {
    /// What sixteen lines are filtered with.
    #[inline(always)]
    pub(crate) fn of_lines(self) -> StrongLimits
        ensures alpha { (k : ℕ) → k < 16 →
            slice_index result.alpha1 k ≡ self.entry.limits.now.alpha1 }
        ensures beta { (k : ℕ) → k < 16 → slice_index result.beta1 k ≡ self.entry.limits.now.beta1 }
    {
        let limits = self.limits;
        StrongLimits {
            alpha1: limits.lines.alpha1,
            beta1: limits.lines.beta1,
            small1: repeated(((u16::from(limits.alpha1) + 1) / 4 + 1) as u8),
        }
    }
}

/// The edge of sixteen lines of luma, at a strength of 0 to 3.
#[inline(always)]
pub(crate) fn weak_lines(
    p2: &[u8; 16],
    p1: &mut [u8; 16],
    p0: &mut [u8; 16],
    q0: &mut [u8; 16],
    q1: &mut [u8; 16],
    q2: &[u8; 16],
    limits: &Limits,
)
    ensures { (p3 q3 : ℕ) (s : Setting) (i : ℕ) → i < 16 → FitsWeakLines true s limits.now i →
        filtered s (line_within p3 q3 p2.now p1.old p0.old q0.old q1.old q2.now i)
        ≡ line_within p3 q3 p2.now p1.new p0.new q0.new q1.new q2.now i }
{
    let (p2, a1, a0, b0, b1, q2) = (*p2, *p1, *p0, *q0, *q1, *q2);
    let (alpha1, beta1, dead, tc0) = (limits.alpha1, limits.beta1, limits.dead, limits.tc0);
    let mut o1 = a1;
    let mut o0 = a0;
    let mut r0 = b0;
    let mut r1 = b1;
    for i in 0..16 {
        let line = Sides {
            p2: p2[i],
            p1: a1[i],
            p0: a0[i],
            q0: b0[i],
            q1: b1[i],
            q2: q2[i],
        };
        let thresholds = WeakThresholds {
            alpha1: alpha1[i],
            beta1: beta1[i],
            dead: dead[i],
            tc0: tc0[i],
        };
        let inner = weak_line(line, thresholds);
        o1[i] = inner.p1;
        o0[i] = inner.p0;
        r0[i] = inner.q0;
        r1[i] = inner.q1;
    }
    *p1 = o1;
    *p0 = o0;
    *q0 = r0;
    *q1 = r1;
}

/// The edge of sixteen lines of luma, at strength 4.
#[inline(always)]
pub(crate) fn strong_lines(
    p3: &[u8; 16],
    sides: &mut SideRows,
    q3: &[u8; 16],
    limits: &StrongLimits,
)
    ensures { (s : Setting) (i : ℕ) → i < 16 → FitsStrongLines true s limits.now i →
        filtered s (line_of_sides p3.now sides.old q3.now i)
        ≡ line_of_sides p3.now sides.new q3.now i }
{
    let (p3, q3) = (*p3, *q3);
    let (a2, a1, a0) = (sides.p2, sides.p1, sides.p0);
    let (b0, b1, b2) = (sides.q0, sides.q1, sides.q2);
    let (alpha1, beta1, small1) = (limits.alpha1, limits.beta1, limits.small1);
    let mut o2 = a2;
    let mut o1 = a1;
    let mut o0 = a0;
    let mut r0 = b0;
    let mut r1 = b1;
    let mut r2 = b2;
    for i in 0..16 {
        let line = Sides {
            p2: a2[i],
            p1: a1[i],
            p0: a0[i],
            q0: b0[i],
            q1: b1[i],
            q2: b2[i],
        };
        let thresholds = StrongThresholds {
            alpha1: alpha1[i],
            beta1: beta1[i],
            small1: small1[i],
        };
        let after = strong_line(p3[i], line, q3[i], thresholds);
        o2[i] = after.p2;
        o1[i] = after.p1;
        o0[i] = after.p0;
        r0[i] = after.q0;
        r1[i] = after.q1;
        r2[i] = after.q2;
    }
    *sides = SideRows {
        p2: o2,
        p1: o1,
        p0: o0,
        q0: r0,
        q1: r1,
        q2: r2,
    };
}

/// Sixteen lines of chroma, at strengths of 0 to 3.
#[inline(always)]
pub(crate) fn weak_chroma_lines(
    p1: &[u8; 16],
    p0: &mut [u8; 16],
    q0: &mut [u8; 16],
    q1: &[u8; 16],
    limits: &Limits,
)
    ensures { (p3 p2 q2 q3 : ℕ) (s : Setting) (i : ℕ) → i < 16 →
        FitsWeakLines false s limits.now i →
        filtered s (line_inside p3 p2 q2 q3 p1.now p0.old q0.old q1.now i)
        ≡ line_inside p3 p2 q2 q3 p1.now p0.new q0.new q1.now i }
{
    let (p1, a0, b0, q1) = (*p1, *p0, *q0, *q1);
    let (alpha1, beta1, dead, tc0) = (limits.alpha1, limits.beta1, limits.dead, limits.tc0);
    let mut o0 = a0;
    let mut r0 = b0;
    for i in 0..16 {
        let line = Inner {
            p1: p1[i],
            p0: a0[i],
            q0: b0[i],
            q1: q1[i],
        };
        let thresholds = WeakThresholds {
            alpha1: alpha1[i],
            beta1: beta1[i],
            dead: dead[i],
            tc0: tc0[i],
        };
        let nearest = weak_chroma_line(line, thresholds);
        o0[i] = nearest.p0;
        r0[i] = nearest.q0;
    }
    *p0 = o0;
    *q0 = r0;
}

/// Sixteen lines of chroma, at strength 4.
#[inline(always)]
pub(crate) fn strong_chroma_lines(
    p1: &[u8; 16],
    p0: &mut [u8; 16],
    q0: &mut [u8; 16],
    q1: &[u8; 16],
    limits: &StrongLimits,
)
    ensures { (p3 p2 q2 q3 : ℕ) (s : Setting) (i : ℕ) → i < 16 →
        FitsStrongLines false s limits.now i →
        filtered s (line_inside p3 p2 q2 q3 p1.now p0.old q0.old q1.now i)
        ≡ line_inside p3 p2 q2 q3 p1.now p0.new q0.new q1.now i }
{
    let (p1, a0, b0, q1) = (*p1, *p0, *q0, *q1);
    let (alpha1, beta1) = (limits.alpha1, limits.beta1);
    let mut o0 = a0;
    let mut r0 = b0;
    for i in 0..16 {
        let line = Inner {
            p1: p1[i],
            p0: a0[i],
            q0: b0[i],
            q1: q1[i],
        };
        let nearest = strong_chroma_line(line, alpha1[i], beta1[i]);
        o0[i] = nearest.p0;
        r0[i] = nearest.q0;
    }
    *p0 = o0;
    *q0 = r0;
}
