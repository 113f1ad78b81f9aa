//! The filter of one line of samples across an edge, in bytes (8.7.2.3, 8.7.2.4).

ghost use Rattle.std.specs.Prelude.{◌≡◌, ◌≤◌, ℕ, ◌+◌, ◌*◌, ◌/◌, ◌==◌, pos, ◌+ℤ◌, nat_abs, nat_lt};
ghost use Rattle.std.specs.Prelude.{true, false, if◌then◌else◌, ◌&&◌, ◌||◌, ℤ, Bool};
ghost use Rattle.avc_types.specs.Arithmetic.{distance};
ghost use Rattle.avc_edges.specs.Line.{Setting, filtered};
ghost use Rattle.avc_edges.specs.Rows.{line, bend, held, IsStrong};
ghost use Rattle.avc_edges.specs.Fits.{FitsWeakLine, FitsStrongLine};

use crate::bytes::{
    biased_step, capped_sum, distance, far_mean, floor_mean, less, lowered, mean, mean_of_four,
    near_mean, raised, rough_mean,
};
use crate::limits::{StrongThresholds, WeakThresholds};

/// By how much a line is beyond the thresholds: 0 where it is filtered. `a1` and `b1` are one less
/// than alpha and beta.
#[inline(always)]
fn excess(p1: u8, p0: u8, q0: u8, q1: u8, a1: u8, b1: u8, dead: u8) -> u8
    ensures { (result == 0) ≡ (nat_lt (distance p0 q0) (if dead == 0 then a1 + 1 else 0)
        && nat_lt (distance p1 p0) (b1 + 1) && nat_lt (distance q1 q0) (b1 + 1)) }
{
    let outer = distance(p1, p0).max(distance(q1, q0));
    less(distance(p0, q0), a1).max(less(outer, b1)).max(dead)
}

#[inline(always)]
pub(crate) fn is_zero(v: u8) -> bool
    ensures { result ≡ (v == 0) }
{
    v == 0
}

/// The line is filtered, and a side of it is smooth.
#[inline(always)]
fn is_smooth(excess: u8, p2: u8, p0: u8, b1: u8) -> bool
    ensures { result ≡ ((excess == 0) && nat_lt (distance p2 p0) (b1 + 1)) }
{
    excess.max(less(distance(p2, p0), b1)) == 0
}

#[inline(always)]
fn pick(a: bool, x: u8, y: u8) -> u8
    ensures { result ≡ (if a then x else y) }
{
    if a { x } else { y }
}

/// tC.
#[inline(always)]
fn limit(on: bool, smooth_p: bool, smooth_q: bool, tc0: u8) -> u8
    requires { tc0 ≤ 92 }
    ensures value { (p q : Bool) → smooth_p ≡ (on && p) → smooth_q ≡ (on && q) →
        result ≡ (if on then tc0 + (if p then 1 else 0) + (if q then 1 else 0) else 0) }
    ensures small { result ≤ 94 }
{
    pick(on, tc0, 0) + u8::from(smooth_p) + u8::from(smooth_q)
}

/// p1, moved by at most `limit`.
#[inline(always)]
fn second(p2: u8, p1: u8, p0: u8, q0: u8, limit: u8) -> u8
    ensures { result ≡ nat_abs (pos p1 +ℤ held limit (bend p2 p1 p0 q0)) }
{
    floor_mean(p2, mean(p0, q0))
        .max(less(p1, limit))
        .min(capped_sum(p1, limit))
}

/// All three, without a branch.
#[inline(always)]
pub fn all_three(a: bool, b: bool, c: bool) -> bool
    ensures { result ≡ (a && b && c) }
{
    a & b & c
}

/// Both, without a branch.
#[inline(always)]
pub fn both(a: bool, b: bool) -> bool
    ensures { result ≡ (a && b) }
{
    a & b
}

/// One of the two or both, without a branch.
#[inline(always)]
pub fn either(a: bool, b: bool) -> bool
    ensures { result ≡ (a || b) }
{
    a | b
}

/// The two nearest samples of a line on each side.
#[derive(Clone, Copy)]
pub(crate) struct Inner {
    pub(crate) p1: u8,
    pub(crate) p0: u8,
    pub(crate) q0: u8,
    pub(crate) q1: u8,
}

/// The three nearest samples of a line on each side: those that may change at strength 4.
#[derive(Clone, Copy)]
pub(crate) struct Sides {
    pub(crate) p2: u8,
    pub(crate) p1: u8,
    pub(crate) p0: u8,
    pub(crate) q0: u8,
    pub(crate) q1: u8,
    pub(crate) q2: u8,
}

#[inline(always)]
pub(crate) fn weak_line(l: Sides, thresholds: WeakThresholds) -> Inner
    ensures { (p3 q3 : ℕ) (s : Setting) → FitsWeakLine true s thresholds →
        filtered s (line p3 l.p2 l.p1 l.p0 l.q0 l.q1 l.q2 q3)
        ≡ line p3 l.p2 result.p1 result.p0 result.q0 result.q1 l.q2 q3 }
{
    let Sides {
        p2,
        p1,
        p0,
        q0,
        q1,
        q2,
    } = l;
    let (a1, b1, tc0) = (thresholds.alpha1, thresholds.beta1, thresholds.tc0);
    let beyond = excess(p1, p0, q0, q1, a1, b1, thresholds.dead);
    let on = is_zero(beyond);
    let smooth_p = is_smooth(beyond, p2, p0, b1);
    let smooth_q = is_smooth(beyond, q2, q0, b1);
    let tc = limit(on, smooth_p, smooth_q, tc0);
    let step = biased_step(p1, p0, q0, q1);
    Inner {
        p1: second(p2, p1, p0, q0, pick(smooth_p, tc0, 0)),
        p0: raised(p0, step, tc),
        q0: lowered(q0, step, tc),
        q1: second(q2, q1, q0, p0, pick(smooth_q, tc0, 0)),
    }
}

// ---- strength 4

/// p0 of a side: whether the line is filtered, and whether by the wide means.
#[inline(always)]
fn strong_nearest(on: bool, smooth: bool, p2: u8, p1: u8, p0: u8, q0: u8, q1: u8) -> u8
    ensures { result ≡ (if smooth then (p2 + 2 * p1 + 2 * p0 + 2 * q0 + q1 + 4) / 8
        else (if on then (2 * p1 + p0 + q1 + 2) / 4 else p0)) }
{
    pick(
        smooth,
        near_mean(p2, p1, p0, q0, q1),
        pick(on, rough_mean(p1, p0, q1), p0),
    )
}

/// The excess where the step at the edge is small enough for the wide means.
#[inline(always)]
fn excess_of_step(beyond: u8, p0: u8, q0: u8, c1: u8) -> u8
    ensures { (result == 0) ≡ ((beyond == 0) && nat_lt (distance p0 q0) (c1 + 1)) }
{
    beyond.max(less(distance(p0, q0), c1))
}

#[inline(always)]
pub(crate) fn strong_line(p3: u8, l: Sides, q3: u8, thresholds: StrongThresholds) -> Sides
    ensures { (s : Setting) → FitsStrongLine true s thresholds →
        filtered s (line p3 l.p2 l.p1 l.p0 l.q0 l.q1 l.q2 q3)
        ≡ line p3 result.p2 result.p1 result.p0 result.q0 result.q1 result.q2 q3 }
{
    let Sides {
        p2,
        p1,
        p0,
        q0,
        q1,
        q2,
    } = l;
    let (a1, b1) = (thresholds.alpha1, thresholds.beta1);
    let beyond = excess(p1, p0, q0, q1, a1, b1, 0);
    let on = is_zero(beyond);
    let small = excess_of_step(beyond, p0, q0, thresholds.small1);
    let smooth_p = is_smooth(small, p2, p0, b1);
    let smooth_q = is_smooth(small, q2, q0, b1);
    Sides {
        p2: pick(smooth_p, far_mean(p3, p2, p1, p0, q0), p2),
        p1: pick(smooth_p, mean_of_four(p2, p1, p0, q0), p1),
        p0: strong_nearest(on, smooth_p, p2, p1, p0, q0, q1),
        q0: strong_nearest(on, smooth_q, q2, q1, q0, p0, p1),
        q1: pick(smooth_q, mean_of_four(q2, q1, q0, p0), q1),
        q2: pick(smooth_q, far_mean(q3, q2, q1, q0, p0), q2),
    }
}

// ---- chroma

/// The nearest sample of a line on each side.
#[derive(Clone, Copy)]
pub(crate) struct Nearest {
    pub(crate) p0: u8,
    pub(crate) q0: u8,
}

#[inline(always)]
pub(crate) fn weak_chroma_line(l: Inner, thresholds: WeakThresholds) -> Nearest
    ensures { (p3 p2 q2 q3 : ℕ) (s : Setting) → FitsWeakLine false s thresholds →
        filtered s (line p3 p2 l.p1 l.p0 l.q0 l.q1 q2 q3)
        ≡ line p3 p2 l.p1 result.p0 result.q0 l.q1 q2 q3 }
{
    let Inner { p1, p0, q0, q1 } = l;
    let (a1, b1, dead) = (thresholds.alpha1, thresholds.beta1, thresholds.dead);
    let on = is_zero(excess(p1, p0, q0, q1, a1, b1, dead));
    let tc = pick(on, thresholds.tc0 + 1, 0);
    let step = biased_step(p1, p0, q0, q1);
    Nearest {
        p0: raised(p0, step, tc),
        q0: lowered(q0, step, tc),
    }
}

#[inline(always)]
pub(crate) fn strong_chroma_line(l: Inner, alpha1: u8, beta1: u8) -> Nearest
    ensures { (p3 p2 q2 q3 : ℕ) (s : Setting) → IsStrong false s (alpha1 + 1) (beta1 + 1) →
        filtered s (line p3 p2 l.p1 l.p0 l.q0 l.q1 q2 q3)
        ≡ line p3 p2 l.p1 result.p0 result.q0 l.q1 q2 q3 }
{
    let Inner { p1, p0, q0, q1 } = l;
    let on = is_zero(excess(p1, p0, q0, q1, alpha1, beta1, 0));
    Nearest {
        p0: pick(on, rough_mean(p1, p0, q1), p0),
        q0: pick(on, rough_mean(q1, q0, p1), q0),
    }
}
