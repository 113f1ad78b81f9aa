//! Means, differences and sums of samples in eight bits: each becomes one or a few instructions on
//! sixteen samples at once.

ghost use Rattle.std.specs.Prelude.{◌≡◌, ◌+◌, ◌-◌, ◌*◌, ◌/◌, ◌%◌, ◌≤◌, min, ℤ, pos, ◌+ℤ◌, ◌-ℤ◌};
ghost use Rattle.avc_types.specs.Arithmetic.{distance, clip1};
ghost use Rattle.avc_edges.specs.Rows.{slope, held, IsBiased};

/// The mean of two, rounded up.
#[inline(always)]
pub(crate) fn mean(a: u8, b: u8) -> u8
    ensures { result ≡ (a + b + 1) / 2 }
{
    ((u16::from(a) + u16::from(b) + 1) / 2) as u8
}

/// What is left of the sum of two by halves.
#[inline(always)]
pub(crate) fn parity(a: u8, b: u8) -> u8
    ensures { result ≡ (a + b) % 2 }
{
    a.wrapping_add(b) % 2
}

/// The first less the second, and 0 where that is more.
#[inline(always)]
pub(crate) fn less(a: u8, b: u8) -> u8
    ensures { result ≡ a - b }
{
    a.max(b) - b
}

/// The sum of two, and 255 where it is more.
#[inline(always)]
pub(crate) fn capped_sum(a: u8, b: u8) -> u8
    ensures { result ≡ min (a + b) 255 }
{
    a.min(255 - b) + b
}

/// The mean of two, rounded down.
#[inline(always)]
pub(crate) fn floor_mean(a: u8, b: u8) -> u8
    ensures { result ≡ (a + b) / 2 }
{
    less(mean(a, b), parity(a, b))
}

/// The absolute difference of two.
#[inline(always)]
pub(crate) fn distance(a: u8, b: u8) -> u8
    ensures { result ≡ distance a b }
{
    a.max(b) - a.min(b)
}

/// The low byte of the sum of two.
#[inline(always)]
pub(crate) fn low_sum(a: u8, b: u8) -> u8
    ensures { result ≡ (a + b) % 256 }
{
    a.wrapping_add(b)
}

/// That of four.
#[inline(always)]
pub(crate) fn low_sum_of_four(a: u8, b: u8, c: u8, d: u8) -> u8
    ensures { result ≡ (a + b + c + d) % 256 }
{
    low_sum(low_sum(low_sum(c, d), b), a)
}

/// A number that is `above` or one less, and odd where `low` is.
#[inline(always)]
pub(crate) fn as_even_as(above: u8, low: u8) -> u8
    ensures { result ≡ above - (above + low) % 2 }
{
    less(above, parity(above, low))
}

/// The mean of four, rounded.
#[inline(always)]
pub(crate) fn mean_of_four(a: u8, b: u8, c: u8, d: u8) -> u8
    ensures { result ≡ (a + b + c + d + 2) / 4 }
{
    let low = low_sum(low_sum_of_four(a, b, c, d), 2);
    as_even_as(mean(mean(a, b), mean(c, d)), low / 4)
}

/// The mean of three with the first twice, rounded.
#[inline(always)]
pub(crate) fn rough_mean(p1: u8, p0: u8, q1: u8) -> u8
    ensures { result ≡ (2 * p1 + p0 + q1 + 2) / 4 }
{
    mean(p1, floor_mean(p0, q1))
}

#[inline(always)]
pub(crate) fn near_mean(p2: u8, p1: u8, p0: u8, q0: u8, q1: u8) -> u8
    ensures { result ≡ (p2 + 2 * p1 + 2 * p0 + 2 * q0 + q1 + 4) / 8 }
{
    mean_of_four(floor_mean(p2, q1), p1, p0, q0)
}

#[inline(always)]
pub(crate) fn far_mean(p3: u8, p2: u8, p1: u8, p0: u8, q0: u8) -> u8
    ensures { result ≡ (2 * p3 + 3 * p2 + p1 + p0 + q0 + 4) / 8 }
{
    let middle = mean_of_four(p2, p1, p0, q0);
    let outer = low_sum(p3, p2);
    let twice = low_sum(outer, outer);
    let low = low_sum(low_sum(low_sum_of_four(p2, p1, p0, q0), twice), 4);
    as_even_as(mean(mean(p3, p2), middle), low / 8)
}

/// 161 more than what p0 gains and q0 loses, or 255 where that is less.
#[inline(always)]
pub(crate) fn biased_step(p1: u8, p0: u8, q0: u8, q1: u8) -> u8
    ensures value { result ≡ min ((4 * q0 + p1 + 1292 - 4 * p0 - q1) / 8) 255 }
    ensures biased { IsBiased result (slope p1 p0 q0 q1) }
{
    let rest = mean(mean(mean(255 - q1, p1), 3), parity(p0, q0));
    capped_sum(rest, mean(255 - p0, q0))
}

/// A sample that gains a step, of at most `tc` either way.
#[inline(always)]
pub(crate) fn raised(p: u8, step: u8, tc: u8) -> u8
    requires { tc ≤ 94 }
    ensures { (z : ℤ) → IsBiased step z → result ≡ clip1 (pos p +ℤ held tc z) }
{
    capped_sum(less(p, less(161, step).min(tc)), less(step, 161).min(tc))
}

/// A sample that loses it.
#[inline(always)]
pub(crate) fn lowered(q: u8, step: u8, tc: u8) -> u8
    requires { tc ≤ 94 }
    ensures { (z : ℤ) → IsBiased step z → result ≡ clip1 (pos q -ℤ held tc z) }
{
    capped_sum(less(q, less(step, 161).min(tc)), less(161, step).min(tc))
}
