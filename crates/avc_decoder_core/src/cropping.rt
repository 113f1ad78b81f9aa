//! The cropping rectangle of a sequence, in luma samples (7.4.2.1.1).

ghost use Rattle.std.specs.Prelude.{◌≡◌, ◌*◌};
ghost use Rattle.avc_decoder_core.specs.Pictures.{crop_of};

use avc_params::Cropping;
use avc_types::Crop;

/// In luma samples: an offset's unit is two of them at 4:2:0.
fn luma_samples(offset: u16) -> u32
    ensures { result ≡ 2 * offset }
{
    2 * u32::from(offset)
}

/// The cropping rectangle in luma samples (7.4.2.1.1).
pub(crate) fn crop_of(cropping: Option<Cropping>) -> Crop
    ensures { result ≡ crop_of cropping }
{
    match cropping {
        Some(offsets) => Crop {
            left: luma_samples(offsets.frame_crop_left_offset),
            right: luma_samples(offsets.frame_crop_right_offset),
            top: luma_samples(offsets.frame_crop_top_offset),
            bottom: luma_samples(offsets.frame_crop_bottom_offset),
        },
        None => Crop {
            left: 0,
            right: 0,
            top: 0,
            bottom: 0,
        },
    }
}
