//! How pictures are meant to be shown, by their sequence parameter set (E.2.1).

ghost use Rattle.std.specs.Prelude.{◌≡◌};
ghost use Rattle.std.specs.Option.{option_map};
ghost use Rattle.avc_params.specs.Limits.{restriction_of};
ghost use Rattle.avc_params.specs.VideoUsability.{colour_in, in_vui, own_size, sample_size};
ghost use Rattle.avc_params.specs.VideoUsability.{size_of_aspect, size_of_shape, usability_of};

use crate::sps::Sps;
use crate::vui::{ChromaLocation, Colour, SampleAspect, SampleSize, Timing, VideoSignal};
use avc_types::VideoUsability;

const fn sample_size(sar_width: u16, sar_height: u16) -> SampleSize
    ensures { result ≡ sample_size sar_width sar_height }
{
    SampleSize {
        sar_width,
        sar_height,
    }
}

// As the set says it itself.
fn own_size(size: Option<SampleSize>) -> SampleSize
    ensures { result ≡ own_size size }
{
    match size {
        Some(size) => size,
        None => sample_size(0, 0),
    }
}

impl SampleAspect {
    /// The width of a luma sample to its height (Table E-1); a 0 says that it is not given.
    pub fn size(&self) -> SampleSize
        ensures { result ≡ size_of_aspect self.now }
    {
        match self.aspect_ratio_idc {
            1 => sample_size(1, 1),
            2 => sample_size(12, 11),
            3 => sample_size(10, 11),
            4 => sample_size(16, 11),
            5 => sample_size(40, 33),
            6 => sample_size(24, 11),
            7 => sample_size(20, 11),
            8 => sample_size(32, 11),
            9 => sample_size(80, 33),
            10 => sample_size(18, 11),
            11 => sample_size(15, 11),
            12 => sample_size(64, 33),
            13 => sample_size(160, 99),
            14 => sample_size(4, 3),
            15 => sample_size(3, 2),
            16 => sample_size(2, 1),
            EXTENDED_SAR => own_size(self.extended),
            _ => sample_size(0, 0),
        }
    }
}

// Table E-1.
const EXTENDED_SAR: u8 = 255;

impl Sps {
    /// The shape of a luma sample, where it is given.
    pub fn sample_aspect(&self) -> Option<SampleAspect>
        ensures { result ≡ in_vui (λ v. v.aspect) self.now }
    {
        match &self.vui {
            Some(vui) => vui.aspect,
            None => None,
        }
    }

    /// What the samples' values mean, where it is given.
    pub fn video_signal(&self) -> Option<VideoSignal>
        ensures { result ≡ in_vui (λ v. v.video_signal) self.now }
    {
        match &self.vui {
            Some(vui) => vui.video_signal,
            None => None,
        }
    }

    /// How colours are described, where it is given.
    pub fn colour(&self) -> Option<Colour>
        ensures { result ≡ colour_in self.now }
    {
        match self.video_signal() {
            Some(signal) => signal.colour,
            None => None,
        }
    }

    /// Where chroma samples lie, where it is given.
    pub fn chroma_location(&self) -> Option<ChromaLocation>
        ensures { result ≡ in_vui (λ v. v.chroma_location) self.now }
    {
        match &self.vui {
            Some(vui) => vui.chroma_location,
            None => None,
        }
    }

    /// The clock of the stream, where it is given.
    pub fn timing(&self) -> Option<Timing>
        ensures { result ≡ in_vui (λ v. v.timing) self.now }
    {
        match &self.vui {
            Some(vui) => vui.timing,
            None => None,
        }
    }

    /// max_num_reorder_frames, in frames, where it is given.
    pub fn max_num_reorder_frames(&self) -> Option<u32>
        ensures { result ≡ option_map (λ r. r.max_num_reorder_frames) (restriction_of self.now) }
    {
        match &self.vui {
            Some(vui) => match &vui.restriction {
                Some(restriction) => Some(restriction.max_num_reorder_frames),
                None => None,
            },
            None => None,
        }
    }

    // The shape of a luma sample; 0 to 0 where it is not given.
    fn sample_shape(&self) -> SampleSize
        ensures { result ≡ size_of_shape (in_vui (λ v. v.aspect) self.now) }
    {
        match self.sample_aspect() {
            Some(aspect) => aspect.size(),
            None => sample_size(0, 0),
        }
    }

    /// How its pictures are meant to be shown.
    pub fn usability(&self) -> VideoUsability
        ensures { result ≡ usability_of self.now }
    {
        let mut usability = VideoUsability::unspecified();
        let shape = self.sample_shape();
        usability.sar_width = shape.sar_width;
        usability.sar_height = shape.sar_height;
        if let Some(signal) = self.video_signal() {
            usability.video_full_range_flag = signal.video_full_range_flag;
        }
        if let Some(colour) = self.colour() {
            usability.colour_primaries = colour.colour_primaries;
            usability.transfer_characteristics = colour.transfer_characteristics;
            usability.matrix_coefficients = colour.matrix_coefficients;
        }
        if let Some(location) = self.chroma_location() {
            usability.chroma_sample_loc_type = location.chroma_sample_loc_type_top_field;
        }
        if let Some(timing) = self.timing() {
            usability.num_units_in_tick = timing.num_units_in_tick;
            usability.time_scale = timing.time_scale;
        }
        usability.max_num_reorder_frames = self.max_num_reorder_frames();
        usability
    }
}
