//! PicOrderCntMsb (8.2.1.1), and what of an order count of type 0 is coded.

ghost use Rattle.std.specs.Prelude.{◌≡◌, ◌^◌, pos, false};
ghost use Rattle.avc_params.specs.Within.{IsOrderCount};
ghost use Rattle.avc_poc.specs.OrderCountState.{IsNear};
ghost use Rattle.avc_poc.specs.OrderCounts.{delta_bottom, lsb_of, max_lsb, msb_of};

use avc_params::OrderCount;
use avc_slice::CodedOrder;

/// prevPicOrderCntMsb and prevPicOrderCntLsb (8.2.1.1): what the last reference picture leaves.
#[derive(Clone, Copy)]
pub struct Previous {
    pub msb: i64,
    pub lsb: i64,
}

/// MaxPicOrderCntLsb, 0 where order counts are not of type 0.
pub(crate) fn max_lsb(order_count: &OrderCount) -> i64
    requires { IsOrderCount order_count.now }
    ensures value { result ≡ max_lsb order_count.now }
    ensures small { IsNear 17 result }
{
    match order_count {
        OrderCount::Type0 {
            log2_max_pic_order_cnt_lsb_minus4,
        } => i64::from(1u32 << (*log2_max_pic_order_cnt_lsb_minus4 + 4)),
        _ => 0,
    }
}

/// pic_order_cnt_lsb, 0 where there is none.
pub(crate) fn coded_lsb(order: CodedOrder) -> i64
    ensures value { result ≡ lsb_of order }
    ensures small { IsNear 33 result }
{
    match order {
        CodedOrder::Type0 {
            pic_order_cnt_lsb,
            ..
        } => i64::from(pic_order_cnt_lsb),
        _ => 0,
    }
}

/// delta_pic_order_cnt_bottom, 0 where there is none.
pub(crate) fn delta_bottom(order: CodedOrder) -> i64
    ensures value { result ≡ delta_bottom order }
    ensures small { IsNear 33 result }
{
    match order {
        CodedOrder::Type0 {
            delta_pic_order_cnt_bottom,
            ..
        } => i64::from(delta_pic_order_cnt_bottom),
        _ => 0,
    }
}

/// PicOrderCntMsb (8.2.1.1): of the counts with these low bits, that which is closest to the
/// previous one.
pub(crate) fn msb_of(max: i64, previous: Previous, lsb: i64) -> i64
    requires max_small { IsNear 17 max }
    requires msb_small { IsNear 34 previous.msb }
    requires previous_small { IsNear 33 previous.lsb }
    requires lsb_small { IsNear 33 lsb }
    ensures value { result ≡ msb_of max previous lsb }
    ensures small { IsNear 35 result }
{
    if lsb < previous.lsb {
        if max <= 2 * (previous.lsb - lsb) {
            previous.msb + max
        } else {
            previous.msb
        }
    } else if lsb > previous.lsb {
        if max < 2 * (lsb - previous.lsb) {
            previous.msb - max
        } else {
            previous.msb
        }
    } else {
        previous.msb
    }
}
