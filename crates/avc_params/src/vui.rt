//! VUI parameters and HRD parameters (E.1.1, E.1.2).

use avc_types::UpTo;

/// sar_width and sar_height: the size of a sample, in units of which only their ratio matters
/// (E.2.1).
#[derive(Clone, Copy, PartialEq)]
pub struct SampleSize {
    pub sar_width: u16,
    pub sar_height: u16,
}

/// The shape of a luma sample (E.2.1).
#[derive(Clone, Copy, PartialEq)]
pub struct SampleAspect {
    pub aspect_ratio_idc: u8,
    /// Where aspect_ratio_idc is 255, Extended_SAR.
    pub extended: Option<SampleSize>,
}

/// How colours are described (E.2.1).
#[derive(Clone, Copy, PartialEq)]
pub struct Colour {
    pub colour_primaries: u8,
    pub transfer_characteristics: u8,
    pub matrix_coefficients: u8,
}

/// What the samples' values mean (E.2.1).
#[derive(Clone, Copy, PartialEq)]
pub struct VideoSignal {
    /// 0 to 7.
    pub video_format: u8,
    pub video_full_range_flag: bool,
    /// Where colour_description_present_flag is 1.
    pub colour: Option<Colour>,
}

/// Where chroma samples lie among the luma samples (E.2.1).
#[derive(Clone, Copy, PartialEq)]
pub struct ChromaLocation {
    pub chroma_sample_loc_type_top_field: u32,
    pub chroma_sample_loc_type_bottom_field: u32,
}

/// The clock of the stream (E.2.1).
#[derive(Clone, Copy, PartialEq)]
pub struct Timing {
    pub num_units_in_tick: u32,
    pub time_scale: u32,
    pub fixed_frame_rate_flag: bool,
}

/// One schedule of the hypothetical reference decoder (E.1.2).
#[derive(Clone, Copy, Default, PartialEq)]
pub struct HrdEntry {
    pub bit_rate_value_minus1: u32,
    pub cpb_size_value_minus1: u32,
    pub cbr_flag: bool,
}

/// Parameters of the hypothetical reference decoder (E.1.2).
#[derive(Drop, PartialEq)]
pub struct Hrd {
    pub bit_rate_scale: u8,
    pub cpb_size_scale: u8,
    /// cpb_cnt_minus1 + 1 of them.
    pub entries: UpTo<HrdEntry, 32>,
    pub initial_cpb_removal_delay_length_minus1: u8,
    pub cpb_removal_delay_length_minus1: u8,
    pub dpb_output_delay_length_minus1: u8,
    pub time_offset_length: u8,
}

/// What the stream keeps to (E.2.1, bitstream_restriction_flag).
#[derive(Clone, Copy, PartialEq)]
pub struct Restriction {
    pub motion_vectors_over_pic_boundaries_flag: bool,
    pub max_bytes_per_pic_denom: u32,
    pub max_bits_per_mb_denom: u32,
    pub log2_max_mv_length_horizontal: u32,
    pub log2_max_mv_length_vertical: u32,
    /// In frames.
    pub max_num_reorder_frames: u32,
    /// In frames.
    pub max_dec_frame_buffering: u32,
}

/// Video usability information (E.1.1). A part is there where its flag is 1.
#[derive(Drop, PartialEq)]
pub struct Vui {
    pub aspect: Option<SampleAspect>,
    pub overscan_appropriate_flag: Option<bool>,
    pub video_signal: Option<VideoSignal>,
    pub chroma_location: Option<ChromaLocation>,
    pub timing: Option<Timing>,
    pub nal_hrd: Option<Hrd>,
    pub vcl_hrd: Option<Hrd>,
    /// Where one of the two HRD parts is there.
    pub low_delay_hrd_flag: Option<bool>,
    pub pic_struct_present_flag: bool,
    pub restriction: Option<Restriction>,
}
