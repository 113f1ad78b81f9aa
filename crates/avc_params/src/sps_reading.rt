//! A sequence parameter set, read (7.3.2.1.1).

ghost use Rattle.std.specs.Prelude.{◌≡◌, ◌+◌, ◌*◌, ◌^◌, ◌<◌, ◌≤◌, ◌==◌, ◌||◌, IfOk};
ghost use Rattle.avc_bits.specs.Reader.{Reads};
ghost use Rattle.avc_params.specs.Limits.{max_side};
ghost use Rattle.avc_params.specs.Parsing.{optional};
ghost use Rattle.avc_params.specs.Reading.{sps_of};
ghost use Rattle.avc_params.specs.SpsReading.{constraint_flags, cropping, cycle, identity, lsb};
ghost use Rattle.avc_params.specs.SpsReading.{order_count, size, sps_after};

use crate::levels::max_dpb_mbs;
use crate::set_unit::SetFault;
use crate::sps::{ConstraintFlags, Cropping, OrderCount, Sps};
use crate::syntax::{Syntax, read_optional, read_times};
use avc_bits::BitReader;
use avc_types::Fault;

/// The greatest width and height, in macroblocks (A.3.1, level 6.2).
const MAX_SIDE: u32 = 1055;

/// The most macroblocks of a picture: MaxFS of level 6.2 (Table A-1).
const MAX_MACROBLOCKS: u32 = 139_264;

/// What a sequence parameter set begins with, up to its id.
#[derive(Clone, Copy)]
pub(crate) struct Identity {
    pub profile_idc: u8,
    pub constraint_flags: ConstraintFlags,
    pub reserved_zero_2bits: u8,
    pub level_idc: u8,
    pub seq_parameter_set_id: u8,
}

/// The size of the pictures, in macroblocks, less one.
#[derive(Clone, Copy)]
pub(crate) struct Size {
    pub pic_width_in_mbs_minus1: u16,
    pub pic_height_in_map_units_minus1: u16,
}

/// The sequence parameter set that an RBSP holds (7.3.2.1.1), or the first fault in it: Truncated,
/// CodeTooLong, OutOfRange, Profile, Level, PictureSize or Interlaced.
pub fn read_sps(rbsp: &[u8]) -> Result<Sps, SetFault>
    ensures { result ≡ sps_of rbsp.now }
{
    let mut reader = BitReader::new(rbsp);
    match Identity::read(&mut reader) {
        Err(fault) => Err(SetFault { id: None, fault }),
        Ok(head) => match read_after(&mut reader, head) {
            Err(fault) => Err(SetFault {
                id: Some(head.seq_parameter_set_id),
                fault,
            }),
            Ok(sps) => Ok(sps),
        },
    }
}

impl Syntax for ConstraintFlags {
    ghost syntax = { constraint_flags };

    fn read(reader: &mut BitReader) -> Result<ConstraintFlags, Fault> {
        Ok(ConstraintFlags {
            constraint_set0_flag: reader.flag()?,
            constraint_set1_flag: reader.flag()?,
            constraint_set2_flag: reader.flag()?,
            constraint_set3_flag: reader.flag()?,
            constraint_set4_flag: reader.flag()?,
            constraint_set5_flag: reader.flag()?,
        })
    }
}

impl Syntax for Identity {
    ghost syntax = { identity };

    fn read(reader: &mut BitReader) -> Result<Identity, Fault> {
        Ok(Identity {
            profile_idc: reader.u(8)? as u8,
            constraint_flags: ConstraintFlags::read(reader)?,
            reserved_zero_2bits: reader.u(2)? as u8,
            level_idc: reader.u(8)? as u8,
            seq_parameter_set_id: reader.ue_to(31)? as u8,
        })
    }
}

impl Syntax for OrderCount {
    ghost syntax = { order_count };

    fn read(reader: &mut BitReader) -> Result<OrderCount, Fault> {
        match reader.ue_to(2)? {
            0 => read_lsb(reader),
            1 => read_cycle(reader),
            _ => Ok(OrderCount::Type2),
        }
    }
}

fn read_lsb(reader: &mut BitReader) -> Result<OrderCount, Fault>
    ensures read { Reads result lsb reader.old reader.new }
{
    let log2_max_pic_order_cnt_lsb_minus4 = reader.ue_to(12)? as u8;
    Ok(OrderCount::Type0 {
        log2_max_pic_order_cnt_lsb_minus4,
    })
}

fn read_cycle(reader: &mut BitReader) -> Result<OrderCount, Fault>
    ensures read { Reads result cycle reader.old reader.new }
{
    let delta_pic_order_always_zero_flag = reader.flag()?;
    let offset_for_non_ref_pic = reader.se()?;
    let offset_for_top_to_bottom_field = reader.se()?;
    let num_ref_frames_in_pic_order_cnt_cycle = reader.ue_to(255)?;
    let offset_for_ref_frame = read_times(reader, num_ref_frames_in_pic_order_cnt_cycle)?;
    Ok(OrderCount::Type1 {
        delta_pic_order_always_zero_flag,
        offset_for_non_ref_pic,
        offset_for_top_to_bottom_field,
        offset_for_ref_frame,
    })
}

impl Syntax for Size {
    ghost syntax = { size };

    fn read(reader: &mut BitReader) -> Result<Size, Fault> {
        let pic_width_in_mbs_minus1 = reader.ue()?;
        if pic_width_in_mbs_minus1 >= MAX_SIDE {
            return Err(Fault::PictureSize);
        }
        let pic_height_in_map_units_minus1 = reader.ue()?;
        if pic_height_in_map_units_minus1 >= MAX_SIDE {
            return Err(Fault::PictureSize);
        }
        if (pic_width_in_mbs_minus1 + 1) * (pic_height_in_map_units_minus1 + 1) > MAX_MACROBLOCKS {
            return Err(Fault::PictureSize);
        }
        Ok(Size {
            pic_width_in_mbs_minus1: pic_width_in_mbs_minus1 as u16,
            pic_height_in_map_units_minus1: pic_height_in_map_units_minus1 as u16,
        })
    }
}

/// The four offsets, of a picture of this size in luma samples.
fn read_cropping(reader: &mut BitReader, width: u64, height: u64) -> Result<Cropping, Fault>
    requires width { width < 2 ^ 17 }
    requires height { height < 2 ^ 17 }
    ensures read { Reads result (cropping width height) reader.old reader.new }
{
    let left = reader.ue()?;
    let right = reader.ue()?;
    if 2 * (u64::from(left) + u64::from(right)) >= width {
        return Err(Fault::OutOfRange);
    }
    let top = reader.ue()?;
    let bottom = reader.ue()?;
    if 2 * (u64::from(top) + u64::from(bottom)) >= height {
        return Err(Fault::OutOfRange);
    }
    Ok(Cropping {
        frame_crop_left_offset: left as u16,
        frame_crop_right_offset: right as u16,
        frame_crop_top_offset: top as u16,
        frame_crop_bottom_offset: bottom as u16,
    })
}

fn read_frame_cropping(reader: &mut BitReader, size: Size) -> Result<Option<Cropping>, Fault>
    requires width { size.pic_width_in_mbs_minus1 < max_side }
    requires height { size.pic_height_in_map_units_minus1 < max_side }
    ensures read { Reads result
        (optional (cropping (16 * (size.pic_width_in_mbs_minus1 + 1))
        (16 * (size.pic_height_in_map_units_minus1 + 1)))) reader.old reader.new }
{
    if !reader.flag()? {
        return Ok(None);
    }
    let width = 16 * (u64::from(size.pic_width_in_mbs_minus1) + 1);
    let height = 16 * (u64::from(size.pic_height_in_map_units_minus1) + 1);
    Ok(Some(read_cropping(reader, width, height)?))
}

/// profile_idc of Baseline, Main or Extended (A.2).
fn is_known_profile(profile_idc: u8) -> bool
    ensures { result ≡ (profile_idc == 66 || profile_idc == 77 || profile_idc == 88) }
{
    matches!(profile_idc, 66 | 77 | 88)
}

/// What follows the id.
fn read_after(reader: &mut BitReader, head: Identity) -> Result<Sps, Fault>
    ensures read { Reads result (sps_after head) reader.old reader.new }
{
    if !is_known_profile(head.profile_idc) {
        return Err(Fault::Profile);
    }
    if max_dpb_mbs(head.level_idc, head.constraint_flags.constraint_set3_flag).is_none() {
        return Err(Fault::Level);
    }
    let log2_max_frame_num_minus4 = reader.ue_to(12)? as u8;
    let order_count = OrderCount::read(reader)?;
    let max_num_ref_frames = reader.ue_to(16)? as u8;
    let gaps_in_frame_num_value_allowed_flag = reader.flag()?;
    let size = Size::read(reader)?;
    if !reader.flag()? {
        return Err(Fault::Interlaced);
    }
    let direct_8x8_inference_flag = reader.flag()?;
    let frame_cropping = read_frame_cropping(reader, size)?;
    let vui = read_optional(reader)?;
    Ok(Sps {
        profile_idc: head.profile_idc,
        constraint_flags: head.constraint_flags,
        reserved_zero_2bits: head.reserved_zero_2bits,
        level_idc: head.level_idc,
        seq_parameter_set_id: head.seq_parameter_set_id,
        log2_max_frame_num_minus4,
        order_count,
        max_num_ref_frames,
        gaps_in_frame_num_value_allowed_flag,
        pic_width_in_mbs_minus1: size.pic_width_in_mbs_minus1,
        pic_height_in_map_units_minus1: size.pic_height_in_map_units_minus1,
        direct_8x8_inference_flag,
        frame_cropping,
        vui,
    })
}
