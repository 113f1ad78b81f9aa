//! Red, green and blue of samples (ITU-T H.264 clause E.2.1).

ghost use Rattle.std.specs.Prelude.{◌≡◌, ◌^◌, pos, neg_ℤ, ◌+ℤ◌, ◌-ℤ◌, ◌<ℤ◌};
ghost use Rattle.avc_png.specs.Colour.{conversion_of, pixel, rounded, share, IsShare};

use avc_types::VideoUsability;

/// How samples become red, green and blue: how much a value more of a sample adds to a colour, in
/// 65,536ths, or takes from it, of green by Cb and Cr.
#[derive(Clone, Copy)]
pub struct Conversion {
    /// The luma sample of black.
    pub black: u8,
    pub luma: u32,
    pub red_by_cr: u32,
    pub green_by_cb: u32,
    pub green_by_cr: u32,
    pub blue_by_cb: u32,
}

// matrix_coefficients of BT.709 (Table E-5)
const BT_709: u8 = 1;

const BT_601_LIMITED: Conversion = Conversion {
    black: 16,
    luma: 76_309,
    red_by_cr: 104_597,
    green_by_cb: 25_675,
    green_by_cr: 53_279,
    blue_by_cb: 132_201,
};

const BT_601_FULL: Conversion = Conversion {
    black: 0,
    luma: 65_536,
    red_by_cr: 91_881,
    green_by_cb: 22_553,
    green_by_cr: 46_802,
    blue_by_cb: 116_130,
};

const BT_709_LIMITED: Conversion = Conversion {
    black: 16,
    luma: 76_309,
    red_by_cr: 117_489,
    green_by_cb: 13_975,
    green_by_cr: 34_925,
    blue_by_cb: 138_438,
};

const BT_709_FULL: Conversion = Conversion {
    black: 0,
    luma: 65_536,
    red_by_cr: 103_206,
    green_by_cb: 12_276,
    green_by_cr: 30_679,
    blue_by_cb: 121_609,
};

// How samples of a sequence become colours.
pub(crate) fn conversion_of(usability: &VideoUsability) -> Conversion
    ensures { result ≡ conversion_of usability.now }
{
    let is_full = usability.video_full_range_flag;
    if usability.matrix_coefficients == BT_709 {
        if is_full { BT_709_FULL } else { BT_709_LIMITED }
    } else {
        if is_full { BT_601_FULL } else { BT_601_LIMITED }
    }
}

// Red, green and blue of a luma sample and the chroma samples that cover it.
pub(crate) fn pixel(by: &Conversion, luma: u8, cb: u8, cr: u8) -> [u8; 3]
    ensures { result ≡ pixel by.now luma cb cr }
{
    let grey = share(by.luma, luma, by.black);
    [
        with_more(grey, share(by.red_by_cr, cr, CENTRE)),
        with_less(
            grey,
            share(by.green_by_cb, cb, CENTRE),
            share(by.green_by_cr, cr, CENTRE),
        ),
        with_more(grey, share(by.blue_by_cb, cb, CENTRE)),
    ]
}

// The chroma sample of grey.
const CENTRE: u8 = 128;

// So many 65,536ths for each value of a sample from `begin` on.
fn share(factor: u32, sample: u8, begin: u8) -> i64
    ensures value { result ≡ share factor sample begin }
    ensures small { IsShare result }
{
    i64::from(factor) * (i64::from(sample) - i64::from(begin))
}

// Red and blue.
fn with_more(grey: i64, more: i64) -> u8
    requires grey { IsShare grey }
    requires more { IsShare more }
    ensures { result ≡ rounded (grey +ℤ more) }
{
    rounded(grey + more)
}

// Green.
fn with_less(grey: i64, by_cb: i64, by_cr: i64) -> u8
    requires grey { IsShare grey }
    requires by_cb { IsShare by_cb }
    requires by_cr { IsShare by_cr }
    ensures { result ≡ rounded (grey -ℤ by_cb -ℤ by_cr) }
{
    rounded(grey - by_cb - by_cr)
}

// To the nearest sample.
fn rounded(z: i64) -> u8
    requires low { neg_ℤ (pos (2 ^ 50)) <ℤ z }
    requires high { z <ℤ pos (2 ^ 50) }
    ensures { result ≡ rounded z }
{
    let nearest = (z + 32_768) >> 16;
    if nearest < 0 {
        0
    } else if nearest > 255 {
        255
    } else {
        nearest as u8
    }
}
