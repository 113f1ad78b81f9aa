//! A sequence parameter set (7.3.2.1.1).

ghost use Rattle.std.specs.Prelude.{◌≡◌};
ghost use Rattle.avc_params.specs.Same.{same_sps};

use crate::vui::Vui;
use avc_types::UpTo;

/// constraint_set0_flag to constraint_set5_flag (7.4.2.1.1).
#[derive(Clone, Copy, PartialEq)]
pub struct ConstraintFlags {
    pub constraint_set0_flag: bool,
    pub constraint_set1_flag: bool,
    pub constraint_set2_flag: bool,
    pub constraint_set3_flag: bool,
    pub constraint_set4_flag: bool,
    pub constraint_set5_flag: bool,
}

/// How order counts are coded: pic_order_cnt_type and what it brings with it (7.4.2.1.1, 8.2.1).
#[derive(Drop, PartialEq)]
pub enum OrderCount {
    /// Type 0: each picture carries the low bits of its count.
    Type0 {
        log2_max_pic_order_cnt_lsb_minus4: u8,
    },

    /// Type 1: counts go by a cycle of expected differences.
    Type1 {
        delta_pic_order_always_zero_flag: bool,
        offset_for_non_ref_pic: i32,
        offset_for_top_to_bottom_field: i32,
        /// num_ref_frames_in_pic_order_cnt_cycle of them.
        offset_for_ref_frame: UpTo<i32, 255>,
    },

    /// Type 2: output order is decoding order.
    Type2,
}

/// The frame cropping offsets as they are coded, in units of two luma samples (7.4.2.1.1).
#[derive(Clone, Copy, PartialEq)]
pub struct Cropping {
    pub frame_crop_left_offset: u16,
    pub frame_crop_right_offset: u16,
    pub frame_crop_top_offset: u16,
    pub frame_crop_bottom_offset: u16,
}

/// A sequence parameter set (7.3.2.1.1). frame_mbs_only_flag is 1 in each.
#[derive(Drop, PartialEq)]
pub struct Sps {
    /// 66, 77 or 88.
    pub profile_idc: u8,
    pub constraint_flags: ConstraintFlags,
    /// 0 to 3.
    pub reserved_zero_2bits: u8,
    /// Ten times the level's number, or 9 for level 1b.
    pub level_idc: u8,
    /// 0 to 31.
    pub seq_parameter_set_id: u8,
    /// 0 to 12.
    pub log2_max_frame_num_minus4: u8,
    pub order_count: OrderCount,
    /// In frames, 0 to 16.
    pub max_num_ref_frames: u8,
    pub gaps_in_frame_num_value_allowed_flag: bool,
    /// In macroblocks, 0 to 1,054.
    pub pic_width_in_mbs_minus1: u16,
    /// In macroblocks, since frames alone are taken, 0 to 1,054.
    pub pic_height_in_map_units_minus1: u16,
    pub direct_8x8_inference_flag: bool,
    pub frame_cropping: Option<Cropping>,
    pub vui: Option<Vui>,
}

impl Sps {
    /// Whether this set has the contents of the other: each field is equal (7.4.1.2.1).
    pub fn is_same(&self, other: &Sps) -> bool
        ensures { result ≡ same_sps self.now other.now }
    {
        *self == *other
    }
}
