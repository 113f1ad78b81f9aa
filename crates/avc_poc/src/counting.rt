//! TopFieldOrderCnt and BottomFieldOrderCnt of a picture, of any type (8.2.1).

ghost use Rattle.std.specs.Prelude.{◌≡◌};
ghost use Rattle.avc_params.specs.Within.{IsOrderCount};
ghost use Rattle.avc_poc.specs.OrderCountState.{IsPrevious, count_pair, raw_counts};
ghost use Rattle.avc_poc.specs.OrderCounts.{counts_from};

use crate::most_significant::Previous;
use crate::range::{in_range, narrow_number};
use crate::type_0::counts_0;
use crate::types_1_and_2::{counts_1, counts_2};
use avc_params::{OrderCount, Sps};
use avc_slice::Header;
use avc_types::Fault;

// The counts before any lowering, top and bottom.
fn raw_counts(
    header: &Header,
    sps: &Sps,
    previous: Previous,
    number: u64,
) -> Result<(i128, i128), Fault>
    requires order { IsOrderCount sps.now.order_count }
    requires previous { IsPrevious previous }
    ensures { result ≡ raw_counts sps.now header.now previous number }
{
    match &sps.order_count {
        OrderCount::Type0 { .. } => Ok(counts_0(header, sps, previous)),
        OrderCount::Type1 {
            offset_for_non_ref_pic,
            offset_for_top_to_bottom_field,
            offset_for_ref_frame,
            ..
        } => {
            let number = narrow_number(number)?;
            Ok(counts_1(
                header,
                number,
                *offset_for_non_ref_pic,
                *offset_for_top_to_bottom_field,
                offset_for_ref_frame.as_slice(),
            ))
        }
        OrderCount::Type2 => {
            let number = narrow_number(number)?;
            Ok(counts_2(header, number))
        }
    }
}

/// The counts of a picture, from what the last reference picture leaves to it and from
/// FrameNumOffset + frame_num.
pub(crate) fn counts_from(
    header: &Header,
    sps: &Sps,
    previous: Previous,
    number: u64,
) -> Result<(i32, i32), Fault>
    requires order { IsOrderCount sps.now.order_count }
    requires previous { IsPrevious previous }
    ensures counts { result ≡ count_pair (counts_from sps.now header.now previous number) }
{
    let raw = raw_counts(header, sps, previous, number)?;
    in_range(header, raw)
}
