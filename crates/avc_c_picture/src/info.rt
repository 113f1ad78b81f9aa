//! What `avcdec_picture_info` tells of a picture, as the record of the header.

ghost use Rattle.std.specs.Prelude.{◌≡◌};
ghost use Rattle.avc_c_picture.specs.InfoRecords.{flag, info_record};

use avc_types::PictureInfo;

/// What C is told of a picture beside its samples. A flag is 0 or 1.
#[repr(C)]
#[derive(Clone, Copy)]
pub struct InfoRecord {
    /// The unit of its first slice, counted from 0.
    pub unit: u64,
    pub pic_order_cnt: i32,
    pub is_idr: u32,
    pub frame_num: u32,
    pub sar_width: u32,
    pub sar_height: u32,
    pub video_full_range_flag: u32,
    pub colour_primaries: u32,
    pub transfer_characteristics: u32,
    pub matrix_coefficients: u32,
    pub chroma_sample_loc_type: u32,
    pub num_units_in_tick: u32,
    pub time_scale: u32,
    /// Whether the number after it is given; else that is 0.
    pub has_max_num_reorder_frames: u32,
    pub max_num_reorder_frames: u32,
}

impl InfoRecord {
    pub fn of(info: &PictureInfo) -> InfoRecord
        ensures { result ≡ info_record info.now }
    {
        let usability = info.usability;
        InfoRecord {
            unit: info.unit,
            pic_order_cnt: info.pic_order_cnt,
            is_idr: flag(info.is_idr),
            frame_num: info.frame_num,
            sar_width: u32::from(usability.sar_width),
            sar_height: u32::from(usability.sar_height),
            video_full_range_flag: flag(usability.video_full_range_flag),
            colour_primaries: u32::from(usability.colour_primaries),
            transfer_characteristics: u32::from(usability.transfer_characteristics),
            matrix_coefficients: u32::from(usability.matrix_coefficients),
            chroma_sample_loc_type: usability.chroma_sample_loc_type,
            num_units_in_tick: usability.num_units_in_tick,
            time_scale: usability.time_scale,
            has_max_num_reorder_frames: flag(usability.max_num_reorder_frames.is_some()),
            max_num_reorder_frames: usability.max_num_reorder_frames.unwrap_or(0),
        }
    }
}

fn flag(holds: bool) -> u32
    ensures { result ≡ flag holds }
{
    if holds { 1 } else { 0 }
}
