//! Order counts of type 0 (8.2.1.1).

ghost use Rattle.std.specs.Prelude.{◌≡◌, ◌+ℤ◌, ◌-ℤ◌, ℤ};
ghost use Rattle.std.specs.Int.{int_min};
ghost use Rattle.avc_params.specs.Within.{IsOrderCount};
ghost use Rattle.avc_poc.specs.OrderCountState.{IsCounted, IsPrevious, IsNear, pair};
ghost use Rattle.avc_poc.specs.OrderCounts.{counts_0, previous_from};

use crate::most_significant::{Previous, coded_lsb, delta_bottom, max_lsb, msb_of};
use avc_params::Sps;
use avc_slice::Header;

// The top count (8.2.1.1).
fn top_count(header: &Header, sps: &Sps, previous: Previous) -> i64
    requires order { IsOrderCount sps.now.order_count }
    requires previous { IsPrevious previous }
    ensures value { result ≡ (counts_0 sps.now header.now previous).top }
    ensures small { IsNear 36 result }
{
    let lsb = coded_lsb(header.order);
    msb_of(max_lsb(&sps.order_count), previous, lsb) + lsb
}

// The bottom count (8.2.1.1).
fn bottom_count(header: &Header, sps: &Sps, previous: Previous) -> i64
    requires order { IsOrderCount sps.now.order_count }
    requires previous { IsPrevious previous }
    ensures value { result ≡ (counts_0 sps.now header.now previous).bottom }
    ensures small { IsNear 37 result }
{
    top_count(header, sps, previous) + delta_bottom(header.order)
}

/// The counts of type 0 (8.2.1.1), top and bottom.
pub(crate) fn counts_0(header: &Header, sps: &Sps, previous: Previous) -> (i128, i128)
    requires order { IsOrderCount sps.now.order_count }
    requires previous { IsPrevious previous }
    ensures { result ≡ pair (counts_0 sps.now header.now previous) }
{
    let top = i128::from(top_count(header, sps, previous));
    (top, i128::from(bottom_count(header, sps, previous)))
}

// The top count after both were lowered by the smaller, from the bottom count less the top count.
fn lowered_top(delta: i64) -> i64
    requires { IsNear 33 delta }
    ensures value { (top : ℤ) → result ≡ top -ℤ int_min top (top +ℤ delta) }
    ensures small { IsNear 33 result }
{
    if delta < 0 { -delta } else { 0 }
}

/// What a reference picture leaves to the pictures after it (8.2.1.1).
pub(crate) fn previous_from(header: &Header, sps: &Sps, previous: Previous) -> Previous
    requires order { IsOrderCount sps.now.order_count }
    requires previous { IsPrevious previous }
    requires counted { IsCounted sps.now header.now previous }
    ensures value { result ≡ previous_from sps.now header.now previous }
    ensures small { IsPrevious result }
{
    if header.has_operation_5() {
        Previous {
            msb: 0,
            lsb: lowered_top(delta_bottom(header.order)),
        }
    } else {
        let lsb = coded_lsb(header.order);
        let msb = msb_of(max_lsb(&sps.order_count), previous, lsb);
        Previous { msb, lsb }
    }
}
