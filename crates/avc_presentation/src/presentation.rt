//! How a sequence is shown: size, shape of samples, frame rate, range and place of chroma
//! (7.4.2.1.1, E.2.1).

ghost use Rattle.std.specs.Prelude.{◌≡◌};
ghost use Rattle.avc_presentation.specs.Presenting.{chroma_site, default_rate, default_site};
ghost use Rattle.avc_presentation.specs.Presenting.{full_range};
ghost use Rattle.avc_presentation.specs.Presenting.{no_presentation, no_ratio, ratio_of_size};
ghost use Rattle.avc_presentation.specs.Presenting.{sample_aspect, site_of_type};
ghost use Rattle.avc_presentation.specs.Presenting.{IsPresented, IsRateOf};

use crate::ratio::{Ratio, lowest_terms};
use avc_params::{ChromaLocation, SampleAspect, SampleSize, Sps, Timing, VideoSignal};
use avc_tools::{shown_height, shown_width};

/// Where a chroma sample lies among the four luma samples that it stands for (figure E-1), as far
/// as Y4M has a word for it.
#[derive(Clone, Copy)]
pub enum ChromaSite {
    /// In the middle of the left two: type 0.
    Left,

    /// In the middle of all four: type 1.
    Centre,

    /// On the upper left: type 2.
    TopLeft,
}

/// How the pictures of a sequence are shown (7.4.2.1.1, E.2.1).
#[derive(Clone, Copy)]
pub struct Presentation {
    /// In luma samples, after cropping.
    pub width: u64,

    /// In luma samples, after cropping.
    pub height: u64,

    /// Frames in a second.
    pub frame_rate: Ratio,

    /// The width of a luma sample to its height; 0 to 0 where it is not given.
    pub sample_aspect: Ratio,

    pub chroma_site: ChromaSite,

    /// Whether samples take all values from 0 to 255, where that is given.
    pub full_range: Option<bool>,
}

impl Presentation {
    /// Of no set: no picture has this size.
    pub fn none() -> Presentation
        ensures { result ≡ no_presentation }
    {
        Presentation {
            width: 0,
            height: 0,
            frame_rate: DEFAULT_RATE,
            sample_aspect: NO_RATIO,
            chroma_site: ChromaSite::Left,
            full_range: None,
        }
    }

    /// What a sequence parameter set says.
    pub fn of(sps: &Sps) -> Presentation
        ensures { IsPresented sps.now result }
    {
        let full_range = full_range(sps.video_signal());
        Presentation {
            width: shown_width(sps),
            height: shown_height(sps),
            frame_rate: frame_rate(sps.timing()),
            sample_aspect: sample_aspect(sps.sample_aspect()),
            chroma_site: chroma_site(sps.chroma_location(), full_range),
            full_range,
        }
    }
}

/// Where no rate is given.
const DEFAULT_RATE: Ratio = Ratio {
    numerator: 25,
    denominator: 1,
};

/// Where no ratio is given.
const NO_RATIO: Ratio = Ratio {
    numerator: 0,
    denominator: 0,
};

// A frame takes two ticks (E.2.1).
fn frame_rate(timing: Option<Timing>) -> Ratio
    ensures { IsRateOf timing result }
{
    match timing {
        Some(timing) => rate_of(timing),
        None => DEFAULT_RATE,
    }
}

fn rate_of(timing: Timing) -> Ratio
    ensures { IsRateOf (Some timing) result }
{
    if timing.num_units_in_tick == 0 || timing.time_scale == 0 {
        return DEFAULT_RATE;
    }
    lowest_terms(
        u64::from(timing.time_scale),
        2 * u64::from(timing.num_units_in_tick),
    )
}

fn sample_aspect(aspect: Option<SampleAspect>) -> Ratio
    ensures { result ≡ sample_aspect aspect }
{
    match aspect {
        Some(aspect) => ratio_of_size(aspect.size()),
        None => NO_RATIO,
    }
}

// A 0 says nothing.
fn ratio_of_size(size: SampleSize) -> Ratio
    ensures { result ≡ ratio_of_size size }
{
    if size.sar_width == 0 || size.sar_height == 0 {
        return NO_RATIO;
    }
    Ratio {
        numerator: u64::from(size.sar_width),
        denominator: u64::from(size.sar_height),
    }
}

fn full_range(signal: Option<VideoSignal>) -> Option<bool>
    ensures { result ≡ full_range signal }
{
    match signal {
        Some(signal) => Some(signal.video_full_range_flag),
        None => None,
    }
}

fn chroma_site(location: Option<ChromaLocation>, full_range: Option<bool>) -> ChromaSite
    ensures { result ≡ chroma_site location full_range }
{
    match location {
        Some(location) => site_of_type(location.chroma_sample_loc_type_top_field),
        None => default_site(full_range),
    }
}

fn site_of_type(loc_type: u32) -> ChromaSite
    ensures { result ≡ site_of_type loc_type }
{
    match loc_type {
        0 => ChromaSite::Left,
        2 => ChromaSite::TopLeft,
        _ => ChromaSite::Centre,
    }
}

// Samples of full range are those of JPEG, where they lie in the centre.
fn default_site(full_range: Option<bool>) -> ChromaSite
    ensures { result ≡ default_site full_range }
{
    match full_range {
        Some(true) => ChromaSite::Centre,
        _ => ChromaSite::Left,
    }
}
