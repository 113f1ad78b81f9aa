//! What is known of a decoded picture beside its samples.

ghost use Rattle.std.specs.Prelude.{◌≡◌};
ghost use Rattle.avc_types.specs.PictureInfos.{no_picture_info, unspecified};

/// How pictures are meant to be shown, by the VUI parameters of their sequence parameter set
/// (E.2.1), with the values that the standard infers where a part is not given.
#[derive(Clone, Copy, Debug, PartialEq, Eq)]
pub struct VideoUsability {
    /// The width of a luma sample, in units of which only the ratio to its height matters (Table
    /// E-1). Both are 0 where the shape is not given.
    pub sar_width: u16,
    pub sar_height: u16,

    /// Whether samples take all values from 0 to 255.
    pub video_full_range_flag: bool,

    /// 2 where it is not given, as the two after it (Tables E-3 to E-5).
    pub colour_primaries: u8,
    pub transfer_characteristics: u8,
    pub matrix_coefficients: u8,

    /// Where chroma samples lie among the luma samples of a frame (figure E-1).
    pub chroma_sample_loc_type: u32,

    /// A frame takes two ticks, each num_units_in_tick of a clock of time_scale in a second. Both
    /// are 0 where the clock is not given.
    pub num_units_in_tick: u32,
    pub time_scale: u32,

    /// In frames; nothing where it is not given.
    pub max_num_reorder_frames: Option<u32>,
}

impl VideoUsability {
    /// Where nothing is given.
    pub fn unspecified() -> VideoUsability
        ensures { result ≡ unspecified }
    {
        VideoUsability {
            sar_width: 0,
            sar_height: 0,
            video_full_range_flag: false,
            colour_primaries: UNSPECIFIED,
            transfer_characteristics: UNSPECIFIED,
            matrix_coefficients: UNSPECIFIED,
            chroma_sample_loc_type: 0,
            num_units_in_tick: 0,
            time_scale: 0,
            max_num_reorder_frames: None,
        }
    }
}

// of colour_primaries, transfer_characteristics and matrix_coefficients (Tables E-3 to E-5)
const UNSPECIFIED: u8 = 2;

/// What is known of a decoded picture beside its samples.
#[derive(Clone, Copy, Debug, PartialEq, Eq)]
pub struct PictureInfo {
    /// The number of the unit that brought its first slice, from 0.
    pub unit: u64,

    /// Whether it is an IDR picture (7.4.1.2.4).
    pub is_idr: bool,

    /// frame_num of its slices (7.4.3).
    pub frame_num: u32,

    /// PicOrderCnt (8.2.1).
    pub pic_order_cnt: i32,

    /// What its sequence parameter set says of showing it.
    pub usability: VideoUsability,
}

impl PictureInfo {
    /// Of a frame that is no picture.
    pub fn none() -> PictureInfo
        ensures { result ≡ no_picture_info }
    {
        PictureInfo {
            unit: 0,
            is_idr: false,
            frame_num: 0,
            pic_order_cnt: 0,
            usability: VideoUsability::unspecified(),
        }
    }
}
