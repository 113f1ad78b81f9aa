//! Order counts of types 1 and 2 (8.2.1.2, 8.2.1.3).

ghost use Rattle.std.specs.Prelude.{◌≡◌, ◌≤◌, ◌<◌, ◌^◌, ◌+ℤ◌, if◌then◌else◌, length, pos};
ghost use Rattle.avc_poc.specs.OrderCountState.{IsNear, pair};
ghost use Rattle.avc_poc.specs.OrderCounts.{counts_1, counts_2, delta_0, delta_1};

use crate::cycle::{abs_frame_num, expected_order_count};
use avc_slice::{CodedOrder, Header};

/// delta_pic_order_cnt[0] and [1], 0 where there are none.
fn deltas(order: CodedOrder) -> (i32, i32)
    ensures { result ≡ (delta_0 order, delta_1 order) }
{
    match order {
        CodedOrder::Type1 { delta_0, delta_1 } => (delta_0, delta_1),
        _ => (0, 0),
    }
}

// offset_for_non_ref_pic, for a picture that is no reference.
fn non_ref_offset(reference: bool, offset_for_non_ref_pic: i32) -> i32
    ensures { result ≡ (if reference then pos 0 else offset_for_non_ref_pic) }
{
    if reference { 0 } else { offset_for_non_ref_pic }
}

fn plus(count: i128, first: i32, second: i32) -> i128
    requires { IsNear 76 count }
    ensures value { result ≡ count +ℤ first +ℤ second }
    ensures small { IsNear 77 result }
{
    count + i128::from(first) + i128::from(second)
}

/// The counts of type 1 (8.2.1.2), top and bottom, from FrameNumOffset + frame_num.
pub(crate) fn counts_1(
    header: &Header,
    number: u32,
    offset_for_non_ref_pic: i32,
    offset_for_top_to_bottom_field: i32,
    cycle: &[i32],
) -> (i128, i128)
    requires length { length cycle.now ≤ 255 }
    requires number { number < 2 ^ 31 }
    ensures { result
        ≡ pair (counts_1 offset_for_non_ref_pic offset_for_top_to_bottom_field cycle.now header.now
        number) }
{
    let reference = header.is_reference();
    let expected_delta = expected_order_count(abs_frame_num(number, cycle, reference), cycle);
    let (delta_0, delta_1) = deltas(header.order);
    let top = plus(
        expected_delta,
        non_ref_offset(reference, offset_for_non_ref_pic),
        delta_0,
    );
    (top, plus(top, offset_for_top_to_bottom_field, delta_1))
}

/// The count of type 2 (8.2.1.3), of top and bottom alike, from FrameNumOffset + frame_num.
pub(crate) fn counts_2(header: &Header, number: u32) -> (i128, i128)
    ensures { result ≡ pair (counts_2 header.now number) }
{
    let count = if header.is_idr() {
        0
    } else if header.is_reference() {
        2 * i128::from(number)
    } else {
        2 * i128::from(number) - 1
    };
    (count, count)
}
