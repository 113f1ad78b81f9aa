//! Sequence parameter sets, written (7.3.2.1.1).

ghost use Rattle.std.specs.Prelude.{◌≡◌, ◌≤◌, Ok, IfOk, drop, length};
ghost use Rattle.avc_annexb.specs.Escapes.{rbsp};
ghost use Rattle.avc_rbsp.specs.Made.{Puts, nothing};
ghost use Rattle.avc_rbsp.specs.Rbsps.{IsUnit};
ghost use Rattle.avc_make_headers.specs.SpsWriting.{HasSeValues, IsSeValue, IsWritable};
ghost use Rattle.avc_make_headers.specs.SpsWriting.{constraint_bits, cropping_bits, identity_bits};
ghost use Rattle.avc_make_headers.specs.SpsWriting.{order_bits, size_bits, sps_bits};
ghost use Rattle.avc_make_headers.specs.Units.{sps_header};
ghost use Rattle.avc_params.specs.Reading.{sps_of};
ghost use Rattle.avc_make_headers.specs.VuiWriting.{Each};
ghost use Rattle.avc_params.specs.Within.{IsOrderCount, IsSps};
ghost use Rattle.avc_params.specs.declared.sps.OrderCount.TheVariants as orders;

use crate::part::{Part, put_each, put_optional, put_two};
use crate::units::unit_of;
use avc_params::{ConstraintFlags, Cropping, OrderCount, Sps};
use avc_rbsp::BitMaker;
use avc_types::{OutOfMemory, UpTo};
use std::alloc::Global;

// nal_ref_idc 3 and nal_unit_type 7
const SPS_HEADER: u8 = 0x67;

/// The unit of a sequence parameter set (7.3.2.1.1), from its header byte on. frame_mbs_only_flag
/// is 1 in it. Width and height are 1 to 4,096 macroblocks, more than a decoder takes.
pub fn write_sps(alloc: Global, sps: &Sps) -> Result<Vec<u8>, OutOfMemory>
    requires { IsWritable sps.now }
    ensures unit { IfOk result (λ unit. IsUnit sps_header (sps_bits sps.now) unit.items) }
    ensures read { IsSps sps.now →
        IfOk result (λ unit. sps_of (rbsp (drop 1 unit.items)) ≡ Ok sps.now) }
{
    let mut maker = BitMaker::new(alloc);
    sps_unit(alloc, &mut maker, sps)
}

// By a maker that has no bits yet.
fn sps_unit(alloc: Global, maker: &mut BitMaker, sps: &Sps) -> Result<Vec<u8>, OutOfMemory>
    requires none { maker.old ≡ nothing }
    requires sps { IsWritable sps.now }
    ensures unit { IfOk result (λ unit. IsUnit sps_header (sps_bits sps.now) unit.items) }
    ensures read { IsSps sps.now →
        IfOk result (λ unit. sps_of (rbsp (drop 1 unit.items)) ≡ Ok sps.now) }
{
    put_sps(maker, sps)?;
    let unit = unit_of(alloc, SPS_HEADER, maker)?;
    Ok(unit)
}

fn put_sps(maker: &mut BitMaker, sps: &Sps) -> Result<(), OutOfMemory>
    requires { IsWritable sps.now }
    ensures { Puts result (sps_bits sps.now) maker.old maker.new }
{
    put_identity(maker, sps)?;
    maker.ue(sps.log2_max_frame_num_minus4 as u32)?;
    put_order(maker, &sps.order_count)?;
    maker.ue(sps.max_num_ref_frames as u32)?;
    maker.flag(sps.gaps_in_frame_num_value_allowed_flag)?;
    put_size(maker, sps)?;
    // frame_mbs_only_flag
    maker.flag(true)?;
    maker.flag(sps.direct_8x8_inference_flag)?;
    put_optional(maker, &sps.frame_cropping)?;
    put_optional(maker, &sps.vui)?;
    Ok(())
}

// up to seq_parameter_set_id
fn put_identity(maker: &mut BitMaker, sps: &Sps) -> Result<(), OutOfMemory>
    requires { IsWritable sps.now }
    ensures { Puts result (identity_bits sps.now) maker.old maker.new }
{
    maker.put(8, sps.profile_idc as u32)?;
    put_constraints(maker, sps.constraint_flags)?;
    maker.put(2, sps.reserved_zero_2bits as u32)?;
    maker.put(8, sps.level_idc as u32)?;
    maker.ue(sps.seq_parameter_set_id as u32)?;
    Ok(())
}

fn put_constraints(maker: &mut BitMaker, flags: ConstraintFlags) -> Result<(), OutOfMemory>
    ensures { Puts result (constraint_bits flags) maker.old maker.new }
{
    maker.flag(flags.constraint_set0_flag)?;
    maker.flag(flags.constraint_set1_flag)?;
    maker.flag(flags.constraint_set2_flag)?;
    maker.flag(flags.constraint_set3_flag)?;
    maker.flag(flags.constraint_set4_flag)?;
    maker.flag(flags.constraint_set5_flag)?;
    Ok(())
}

fn put_size(maker: &mut BitMaker, sps: &Sps) -> Result<(), OutOfMemory>
    ensures { Puts result (size_bits sps.now) maker.old maker.new }
{
    put_two(
        maker,
        sps.pic_width_in_mbs_minus1 as u32,
        sps.pic_height_in_map_units_minus1 as u32,
    )
}

// pic_order_cnt_type and what it brings with it
fn put_order(maker: &mut BitMaker, order: &OrderCount) -> Result<(), OutOfMemory>
    requires within { IsOrderCount order.now }
    requires values { HasSeValues order.now }
    ensures { Puts result (order_bits order.now) maker.old maker.new }
{
    match order {
        OrderCount::Type0 {
            log2_max_pic_order_cnt_lsb_minus4,
        } => put_two(maker, 0, *log2_max_pic_order_cnt_lsb_minus4 as u32),
        OrderCount::Type1 {
            delta_pic_order_always_zero_flag,
            offset_for_non_ref_pic,
            offset_for_top_to_bottom_field,
            offset_for_ref_frame,
        } => put_cycle(
            maker,
            *delta_pic_order_always_zero_flag,
            *offset_for_non_ref_pic,
            *offset_for_top_to_bottom_field,
            offset_for_ref_frame,
        ),
        OrderCount::Type2 => maker.ue(2),
    }
}

// pic_order_cnt_type 1 and what it brings with it
fn put_cycle(
    maker: &mut BitMaker,
    always_zero: bool,
    non_ref: i32,
    top_to_bottom: i32,
    offsets: &UpTo<i32, 255>,
) -> Result<(), OutOfMemory>
    requires few { length offsets.now ≤ 255 }
    requires non_ref { IsSeValue non_ref }
    requires top_to_bottom { IsSeValue top_to_bottom }
    requires offsets { Each IsSeValue offsets.now }
    ensures { Puts result (order_bits (orders.Type1 always_zero non_ref top_to_bottom offsets.now))
        maker.old maker.new }
{
    let offsets = offsets.as_slice();
    maker.ue(1)?;
    maker.flag(always_zero)?;
    maker.se(non_ref)?;
    maker.se(top_to_bottom)?;
    // num_ref_frames_in_pic_order_cnt_cycle
    maker.ue(offsets.len() as u32)?;
    put_each(maker, offsets)?;
    Ok(())
}

impl Part for Cropping {
    ghost bits = { cropping_bits };

    ghost fits = { λ _. Unit {0} };

    fn put(&self, maker: &mut BitMaker) -> Result<(), OutOfMemory> {
        maker.ue(self.frame_crop_left_offset as u32)?;
        maker.ue(self.frame_crop_right_offset as u32)?;
        maker.ue(self.frame_crop_top_offset as u32)?;
        maker.ue(self.frame_crop_bottom_offset as u32)?;
        Ok(())
    }
}
