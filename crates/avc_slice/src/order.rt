//! The fields of picture order counts, read (7.3.3).

ghost use Rattle.std.specs.Prelude.{◌≡◌};
ghost use Rattle.avc_bits.specs.Reader.{Reads};
ghost use Rattle.avc_params.specs.Within.{IsOrderCount};
ghost use Rattle.avc_slice.specs.Reading.{coded_order, optional_se};

use crate::header::CodedOrder;
use avc_bits::BitReader;
use avc_params::OrderCount;
use avc_types::Fault;

/// se(v) where it is `present`, else 0.
fn read_optional_se(reader: &mut BitReader, present: bool) -> Result<i32, Fault>
    ensures { Reads result (optional_se present) reader.old reader.new }
{
    if present { reader.se() } else { Ok(0) }
}

/// What the picture order count type brings with it (7.3.3).
pub(crate) fn read_order(
    reader: &mut BitReader,
    order_count: &OrderCount,
    bottom_present: bool,
) -> Result<CodedOrder, Fault>
    requires { IsOrderCount order_count.now }
    ensures { Reads result (coded_order order_count.now bottom_present) reader.old reader.new }
{
    match order_count {
        OrderCount::Type0 {
            log2_max_pic_order_cnt_lsb_minus4,
        } => {
            let pic_order_cnt_lsb = reader.u(u32::from(*log2_max_pic_order_cnt_lsb_minus4) + 4)?;
            let delta_pic_order_cnt_bottom = read_optional_se(reader, bottom_present)?;
            Ok(CodedOrder::Type0 {
                pic_order_cnt_lsb,
                delta_pic_order_cnt_bottom,
            })
        }
        OrderCount::Type1 {
            delta_pic_order_always_zero_flag,
            ..
        } => {
            let coded = !*delta_pic_order_always_zero_flag;
            let delta_0 = read_optional_se(reader, coded)?;
            let delta_1 = read_optional_se(reader, coded & bottom_present)?;
            Ok(CodedOrder::Type1 { delta_0, delta_1 })
        }
        OrderCount::Type2 => Ok(CodedOrder::Type2),
    }
}
