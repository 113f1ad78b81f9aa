//! Copies of parameter sets.

ghost use Rattle.std.specs.Prelude.{◌≡◌};

use crate::sps::{OrderCount, Sps};
use crate::vui::{Hrd, Vui};

impl Hrd {
    /// The same parameters once more.
    fn copied(&self) -> Hrd
        ensures { result ≡ self.now }
    {
        Hrd {
            bit_rate_scale: self.bit_rate_scale,
            cpb_size_scale: self.cpb_size_scale,
            entries: self.entries.copied(),
            initial_cpb_removal_delay_length_minus1: self.initial_cpb_removal_delay_length_minus1,
            cpb_removal_delay_length_minus1: self.cpb_removal_delay_length_minus1,
            dpb_output_delay_length_minus1: self.dpb_output_delay_length_minus1,
            time_offset_length: self.time_offset_length,
        }
    }
}

fn copied_hrd(hrd: &Option<Hrd>) -> Option<Hrd>
    ensures { result ≡ hrd.now }
{
    match hrd {
        Some(hrd) => Some(hrd.copied()),
        None => None,
    }
}

impl Vui {
    /// The same information once more.
    fn copied(&self) -> Vui
        ensures { result ≡ self.now }
    {
        Vui {
            aspect: self.aspect,
            overscan_appropriate_flag: self.overscan_appropriate_flag,
            video_signal: self.video_signal,
            chroma_location: self.chroma_location,
            timing: self.timing,
            nal_hrd: copied_hrd(&self.nal_hrd),
            vcl_hrd: copied_hrd(&self.vcl_hrd),
            low_delay_hrd_flag: self.low_delay_hrd_flag,
            pic_struct_present_flag: self.pic_struct_present_flag,
            restriction: self.restriction,
        }
    }
}

fn copied_vui(vui: &Option<Vui>) -> Option<Vui>
    ensures { result ≡ vui.now }
{
    match vui {
        Some(vui) => Some(vui.copied()),
        None => None,
    }
}

impl OrderCount {
    /// The same kind and numbers once more.
    fn copied(&self) -> OrderCount
        ensures { result ≡ self.now }
    {
        match self {
            OrderCount::Type0 {
                log2_max_pic_order_cnt_lsb_minus4,
            } => OrderCount::Type0 {
                log2_max_pic_order_cnt_lsb_minus4: *log2_max_pic_order_cnt_lsb_minus4,
            },
            OrderCount::Type1 {
                delta_pic_order_always_zero_flag,
                offset_for_non_ref_pic,
                offset_for_top_to_bottom_field,
                offset_for_ref_frame,
            } => OrderCount::Type1 {
                delta_pic_order_always_zero_flag: *delta_pic_order_always_zero_flag,
                offset_for_non_ref_pic: *offset_for_non_ref_pic,
                offset_for_top_to_bottom_field: *offset_for_top_to_bottom_field,
                offset_for_ref_frame: offset_for_ref_frame.copied(),
            },
            OrderCount::Type2 => OrderCount::Type2,
        }
    }
}

impl Sps {
    /// The same set once more. This takes no memory.
    pub fn copied(&self) -> Sps
        ensures { result ≡ self.now }
    {
        Sps {
            profile_idc: self.profile_idc,
            constraint_flags: self.constraint_flags,
            reserved_zero_2bits: self.reserved_zero_2bits,
            level_idc: self.level_idc,
            seq_parameter_set_id: self.seq_parameter_set_id,
            log2_max_frame_num_minus4: self.log2_max_frame_num_minus4,
            order_count: self.order_count.copied(),
            max_num_ref_frames: self.max_num_ref_frames,
            gaps_in_frame_num_value_allowed_flag: self.gaps_in_frame_num_value_allowed_flag,
            pic_width_in_mbs_minus1: self.pic_width_in_mbs_minus1,
            pic_height_in_map_units_minus1: self.pic_height_in_map_units_minus1,
            direct_8x8_inference_flag: self.direct_8x8_inference_flag,
            frame_cropping: self.frame_cropping,
            vui: copied_vui(&self.vui),
        }
    }
}
