//! The six-tap filter over samples and over its unrounded sums, in sixteen bits (8.4.2.2.1).

ghost use Rattle.std.specs.Prelude.{◌≡◌, ◌≤◌, ◌-ℤ◌, ◌+ℤ◌, ◌*ℤ◌, ◌≤ℤ◌, ◌<ℤ◌, pos, neg_ℤ};
ghost use Rattle.avc_types.specs.Arithmetic.{◌>>ℤ◌, clip1, mean_of_two};
ghost use Rattle.avc_inter.specs.Luma.{six_taps};
ghost use Rattle.avc_samples.specs.Bounds.{IsSum};
ghost use Rattle.avc_inter.specs.Bounds.{IsPair};

/// The taps over six samples.
pub fn taps(e: u8, f: u8, g: u8, h: u8, i: u8, j: u8) -> i16
    ensures value { result ≡ six_taps (pos e) (pos f) (pos g) (pos h) (pos i) (pos j) }
    ensures low { neg_ℤ (pos 2550) ≤ℤ result }
    ensures high { result ≤ℤ pos 10710 }
{
    let above = u16::from(e) + u16::from(j) + 20 * (u16::from(g) + u16::from(h));
    let below = 5 * (u16::from(f) + u16::from(i));
    above as i16 - below as i16
}

fn clipped(sum: i16) -> u8
    ensures { result ≡ clip1 sum }
{
    sum.max(0).min(255) as u8
}

fn rounded(sum: i16) -> i16
    requires { sum ≤ℤ pos 10710 }
    ensures { result ≡ (sum +ℤ pos 16 >>ℤ 5) }
{
    (sum + 16) >> 5
}

/// Twice the taps over six samples, which are wider numbers, and what rounds them. To multiply lanes
/// by 10 is one instruction: 5 times would be taken apart into three.
fn twice_rounded_of_wide(e: u16, f: u16, g: u16, h: u16, i: u16, j: u16) -> i16
    requires e { e ≤ 255 }
    requires f { f ≤ 255 }
    requires g { g ≤ 255 }
    requires h { h ≤ 255 }
    requires i { i ≤ 255 }
    requires j { j ≤ 255 }
    ensures value { result
        ≡ pos 2 *ℤ (six_taps (pos e) (pos f) (pos g) (pos h) (pos i) (pos j) +ℤ pos 16) }
    ensures low { neg_ℤ (pos 5068) ≤ℤ result }
    ensures high { result ≤ℤ pos 21452 }
{
    let outer = e + j + 16;
    let middle = f + i;
    let inner = 4 * (g + h);
    10 * (inner as i16 - middle as i16) + (2 * outer) as i16
}

fn twice_rounded(e: u8, f: u8, g: u8, h: u8, i: u8, j: u8) -> i16
    ensures value { result
        ≡ pos 2 *ℤ (six_taps (pos e) (pos f) (pos g) (pos h) (pos i) (pos j) +ℤ pos 16) }
    ensures low { neg_ℤ (pos 5068) ≤ℤ result }
    ensures high { result ≤ℤ pos 21452 }
{
    twice_rounded_of_wide(
        u16::from(e),
        u16::from(f),
        u16::from(g),
        u16::from(h),
        u16::from(i),
        u16::from(j),
    )
}

/// The half sample of its sum.
pub fn rounded_half(sum: i16) -> u8
    requires { IsSum sum }
    ensures { result ≡ clip1 (sum +ℤ pos 16 >>ℤ 5) }
{
    clipped(rounded(sum))
}

/// The sum of two sums.
fn pair(a: i16, b: i16) -> i16
    requires first { IsSum a }
    requires second { IsSum b }
    ensures value { result ≡ a +ℤ b }
    ensures fits { IsPair result }
{
    a + b
}

#[tactic(auto, using(crate::proofs::SixRows::by_4))]
fn quarter(v: i16) -> i16
    ensures low { (pos 4 *ℤ result) ≤ℤ v }
    ensures high { v ≤ℤ (pos 4 *ℤ result +ℤ pos 3) }
{
    v >> 2
}

#[tactic(auto, using(crate::proofs::SixRows::by_64))]
fn sixty_fourth(v: i16) -> i16
    ensures low { (pos 64 *ℤ result) ≤ℤ v }
    ensures high { v ≤ℤ (pos 64 *ℤ result +ℤ pos 63) }
    ensures least { neg_ℤ (pos 32768) ≤ℤ result }
    ensures most { result ≤ℤ pos 32767 }
{
    v >> 6
}

/// The half sample of six samples, which are wider numbers.
pub fn half_of_wide(e: u16, f: u16, g: u16, h: u16, i: u16, j: u16) -> u8
    requires e { e ≤ 255 }
    requires f { f ≤ 255 }
    requires g { g ≤ 255 }
    requires h { h ≤ 255 }
    requires i { i ≤ 255 }
    requires j { j ≤ 255 }
    ensures { result
        ≡ clip1 (six_taps (pos e) (pos f) (pos g) (pos h) (pos i) (pos j) +ℤ pos 16 >>ℤ 5) }
{
    clipped(sixty_fourth(twice_rounded_of_wide(e, f, g, h, i, j)))
}

pub fn half(e: u8, f: u8, g: u8, h: u8, i: u8, j: u8) -> u8
    ensures { result
        ≡ clip1 (six_taps (pos e) (pos f) (pos g) (pos h) (pos i) (pos j) +ℤ pos 16 >>ℤ 5) }
{
    clipped(sixty_fourth(twice_rounded(e, f, g, h, i, j)))
}

fn wide_sum(a: i16, b: i16) -> i32
    ensures { result ≡ a +ℤ b }
{
    i32::from(a) + i32::from(b)
}

/// The number, or that of sixteen bits that is nearest.
fn nearest(v: i32) -> i16
    ensures exact { neg_ℤ (pos 32768) ≤ℤ v → v ≤ℤ pos 32767 → result ≡ v }
    ensures low { v <ℤ neg_ℤ (pos 32768) → result ≡ neg_ℤ (pos 32768) }
    ensures high { pos 32767 <ℤ v → result ≡ pos 32767 }
    ensures least { neg_ℤ (pos 32768) ≤ℤ result }
    ensures most { result ≤ℤ pos 32767 }
{
    v.max(-32768).min(32767) as i16
}

/// The sum, or the number of sixteen bits that is nearest.
fn sum_within(a: i16, b: i16) -> i16
    ensures exact { neg_ℤ (pos 32768) ≤ℤ (a +ℤ b) → (a +ℤ b) ≤ℤ pos 32767 → result ≡ a +ℤ b }
    ensures low { (a +ℤ b) <ℤ neg_ℤ (pos 32768) → result ≡ neg_ℤ (pos 32768) }
    ensures high { pos 32767 <ℤ (a +ℤ b) → result ≡ pos 32767 }
    ensures least { neg_ℤ (pos 32768) ≤ℤ result }
    ensures most { result ≤ℤ pos 32767 }
{
    nearest(wide_sum(a, b))
}

/// The rounded and clipped sample of the three sums of two: a quarter first, then a sixteenth, then
/// the whole.
fn finished(outer: i16, middle: i16, inner: i16) -> u8
    requires outer { IsPair outer }
    requires middle { IsPair middle }
    requires inner { IsPair inner }
    ensures { result ≡ clip1 (outer -ℤ pos 5 *ℤ middle +ℤ pos 20 *ℤ inner +ℤ pos 512 >>ℤ 10) }
{
    let a_quarter = quarter(outer - middle);
    let near = sum_within(a_quarter - middle, inner);
    let a_sixteenth = quarter(near);
    clipped(sixty_fourth(a_sixteenth + inner + 32))
}

pub fn centre(e: i16, f: i16, g: i16, h: i16, i: i16, j: i16) -> u8
    requires e { IsSum e }
    requires f { IsSum f }
    requires g { IsSum g }
    requires h { IsSum h }
    requires i { IsSum i }
    requires j { IsSum j }
    ensures { result ≡ clip1 (six_taps e f g h i j +ℤ pos 512 >>ℤ 10) }
{
    finished(pair(e, j), pair(f, i), pair(g, h))
}

pub fn mean(a: u8, b: u8) -> u8
    ensures { result ≡ mean_of_two a b }
{
    ((u16::from(a) + u16::from(b) + 1) / 2) as u8
}
