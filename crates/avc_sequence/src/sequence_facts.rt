//! What a sequence parameter set says of the pictures (7.3.2.1.1, E.1.1).

ghost use Rattle.std.specs.Prelude.{◌≡◌};
ghost use Rattle.avc_sequence.specs.Sequences.{chroma_place, coded_size, crop_of, ratio_given};
ghost use Rattle.avc_sequence.specs.Sequences.{reorder_number, said_by};

use avc_params::{Colour, Cropping, Sps, Timing};
use avc_presentation::{Presentation, Ratio};

/// A width and a height, in luma samples.
#[derive(Clone, Copy, Default, PartialEq, Eq)]
pub struct Size {
    pub width: u64,
    pub height: u64,
}

/// What is cropped at each side, in luma samples (7.4.2.1.1).
#[derive(Clone, Copy)]
pub struct Crop {
    pub left: u64,
    pub right: u64,
    pub top: u64,
    pub bottom: u64,
}

/// What a sequence parameter set says (7.3.2.1.1, E.1.1).
#[derive(Clone, Copy)]
pub struct SequenceFacts {
    /// In luma samples, after cropping.
    pub width: u64,

    /// In luma samples, after cropping.
    pub height: u64,

    /// Before cropping.
    pub coded: Size,

    pub crop: Crop,

    /// The width of a luma sample to its height, where it is given (Table E-1).
    pub sample_aspect: Option<Ratio>,

    /// video_full_range_flag, where it is given: whether samples take all values from 0 to 255
    /// (E.2.1).
    pub full_range: Option<bool>,

    /// Where it is given.
    pub colour: Option<Colour>,

    /// chroma_sample_loc_type_top_field, where it is given (E.2.1).
    pub chroma_place: Option<u64>,

    /// 66, 77 or 88.
    pub profile_idc: u8,

    pub constraint_set1_flag: bool,

    pub constraint_set3_flag: bool,

    /// Ten times the level's number, or 9 for level 1b.
    pub level_idc: u8,

    /// Where it is given.
    pub timing: Option<Timing>,

    /// In frames.
    pub max_num_ref_frames: u8,

    /// In frames, where it is given.
    pub max_num_reorder_frames: Option<u64>,
}

impl SequenceFacts {
    pub fn of(sps: &Sps) -> SequenceFacts
        ensures { result ≡ said_by sps.now }
    {
        let shown = Presentation::of(sps);
        SequenceFacts {
            width: shown.width,
            height: shown.height,
            coded: coded_size(sps),
            crop: crop_of(sps.frame_cropping),
            sample_aspect: ratio_given(shown.sample_aspect),
            full_range: shown.full_range,
            colour: sps.colour(),
            chroma_place: chroma_place(sps),
            profile_idc: sps.profile_idc,
            constraint_set1_flag: sps.constraint_flags.constraint_set1_flag,
            constraint_set3_flag: sps.constraint_flags.constraint_set3_flag,
            level_idc: sps.level_idc,
            timing: sps.timing(),
            max_num_ref_frames: sps.max_num_ref_frames,
            max_num_reorder_frames: reorder_number(sps),
        }
    }
}

fn coded_size(sps: &Sps) -> Size
    ensures { result ≡ coded_size sps.now }
{
    Size {
        width: 16 * u64::from(sps.width_in_mbs()),
        height: 16 * u64::from(sps.height_in_mbs()),
    }
}

fn crop_of(cropping: Option<Cropping>) -> Crop
    ensures { result ≡ crop_of cropping }
{
    match cropping {
        Some(cropping) => Crop {
            left: 2 * u64::from(cropping.frame_crop_left_offset),
            right: 2 * u64::from(cropping.frame_crop_right_offset),
            top: 2 * u64::from(cropping.frame_crop_top_offset),
            bottom: 2 * u64::from(cropping.frame_crop_bottom_offset),
        },
        None => Crop {
            left: 0,
            right: 0,
            top: 0,
            bottom: 0,
        },
    }
}

// 0 to 0 says nothing.
fn ratio_given(ratio: Ratio) -> Option<Ratio>
    ensures { result ≡ ratio_given ratio }
{
    if ratio.denominator == 0 {
        None
    } else {
        Some(ratio)
    }
}

fn chroma_place(sps: &Sps) -> Option<u64>
    ensures { result ≡ chroma_place sps.now }
{
    match sps.chroma_location() {
        Some(location) => Some(u64::from(location.chroma_sample_loc_type_top_field)),
        None => None,
    }
}

fn reorder_number(sps: &Sps) -> Option<u64>
    ensures { result ≡ reorder_number sps.now }
{
    match sps.max_num_reorder_frames() {
        Some(number) => Some(u64::from(number)),
        None => None,
    }
}
