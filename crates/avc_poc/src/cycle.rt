//! The expected delta of a cycle of type 1 (8.2.1.2).

ghost use Rattle.std.specs.Prelude.{◌≡◌, ◌≤◌, ◌<◌, ◌^◌, ◌+ℤ◌, ◌*ℤ◌, length, pos};
ghost use Rattle.avc_poc.specs.OrderCountState.{IsNear};
ghost use Rattle.avc_poc.specs.OrderCounts.{abs_frame_num, expected_order_count, sum_ℤ};

/// The sum of at most 255 offsets.
fn sum(offsets: &[i32]) -> i64
    requires { length offsets.now ≤ 255 }
    ensures value { result ≡ sum_ℤ offsets.now }
    ensures small { IsNear 39 result }
{
    let mut sum = 0;
    for offset in offsets {
        sum += i64::from(*offset);
    }
    sum
}

/// absFrameNum (8.2.1.2).
pub(crate) fn abs_frame_num(number: u32, cycle: &[i32], reference: bool) -> u32
    ensures value { result ≡ abs_frame_num number cycle.now reference }
    ensures no_more { result ≤ number }
{
    if cycle.is_empty() {
        0
    } else if reference {
        number
    } else {
        number.saturating_sub(1)
    }
}

// That many whole cycles, and the first offsets of one more.
fn cycles(count: u32, whole: i64, first: i64) -> i128
    requires count { count < 2 ^ 31 }
    requires whole { IsNear 40 whole }
    requires first { IsNear 39 first }
    ensures value { result ≡ pos count *ℤ whole +ℤ first }
    ensures small { IsNear 75 result }
{
    i128::from(count) * i128::from(whole) + i128::from(first)
}

/// expectedPicOrderCnt without offset_for_non_ref_pic (8.2.1.2).
pub(crate) fn expected_order_count(abs: u32, cycle: &[i32]) -> i128
    requires length { length cycle.now ≤ 255 }
    requires abs { abs < 2 ^ 31 }
    ensures value { result ≡ expected_order_count abs cycle.now }
    ensures small { IsNear 75 result }
{
    if abs == 0 || cycle.is_empty() {
        return 0;
    }
    let length = cycle.len() as u32;
    let begun = ((abs - 1) % length + 1) as usize;
    let first = sum(&cycle[..begun]);
    let whole = first + sum(&cycle[begun..]);
    cycles((abs - 1) / length, whole, first)
}
