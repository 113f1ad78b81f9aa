//! The text that tells people how a stream's pictures are coded and shown, and how many bits and
//! seconds they take.

ghost use Rattle.std.specs.Prelude.{◌≡◌, OnOk};
ghost use Rattle.avc_info.specs.Adding.{AddsText};
ghost use Rattle.avc_info.specs.PictureText.{aspect_text, coded_line, coded_text, colour_line};
ghost use Rattle.avc_info.specs.PictureText.{colour_text, crop_text};
ghost use Rattle.avc_info.specs.PictureText.{picture_text, range_text, rates_line, samples_line};

use crate::text::{add_if_given, add_thousandths_if_given, end_line};
use avc_params::{Colour, Timing};
use avc_presentation::Ratio;
use avc_sequence::{Crop, SequenceFacts, Size, bit_rate, duration};
use avc_types::OutOfMemory;

/// Adds what is told of the pictures, where there are so many, in so many bytes.
pub(crate) fn add_picture(
    text: &mut String,
    bytes: u64,
    pictures: u64,
    sequence: &Option<SequenceFacts>,
) -> Result<(), OutOfMemory>
    ensures { OnOk result (AddsText text.old text.new (picture_text bytes pictures sequence.now)) }
{
    match sequence {
        Some(sequence) => {
            add_coded(text, sequence)?;
            add_samples(text, sequence)?;
            add_colour(text, sequence)?;
            add_rates(text, sequence.timing, bytes, pictures)
        }
        None => Ok(()),
    }
}

fn add_coded(text: &mut String, sequence: &SequenceFacts) -> Result<(), OutOfMemory>
    ensures { OnOk result (AddsText text.old text.new (coded_line sequence.now)) }
{
    add_coded_size(text, sequence.coded)?;
    add_crop(text, sequence.crop)?;
    end_line(text)
}

fn add_coded_size(text: &mut String, size: Size) -> Result<(), OutOfMemory>
    ensures { OnOk result (AddsText text.old text.new (coded_text size)) }
{
    let width = size.width;
    let height = size.height;
    write!(text, "coded {width}x{height}")?;
    Ok(())
}

fn add_crop(text: &mut String, crop: Crop) -> Result<(), OutOfMemory>
    ensures { OnOk result (AddsText text.old text.new (crop_text crop)) }
{
    let left = crop.left;
    let right = crop.right;
    let top = crop.top;
    let bottom = crop.bottom;
    write!(
        text,
        ", crop left {left}, right {right}, top {top}, bottom {bottom}"
    )?;
    Ok(())
}

fn add_samples(text: &mut String, sequence: &SequenceFacts) -> Result<(), OutOfMemory>
    ensures { OnOk result (AddsText text.old text.new (samples_line sequence.now)) }
{
    add_aspect(text, sequence.sample_aspect)?;
    text.push_str(range_text(sequence.full_range))?;
    add_if_given(text, ", chroma place", sequence.chroma_place)?;
    end_line(text)
}

fn add_aspect(text: &mut String, aspect: Option<Ratio>) -> Result<(), OutOfMemory>
    ensures { OnOk result (AddsText text.old text.new (aspect_text aspect)) }
{
    match aspect {
        Some(ratio) => {
            let width = ratio.numerator;
            let height = ratio.denominator;
            write!(text, "sample aspect ratio {width}:{height}")?;
            Ok(())
        }
        None => {
            text.push_str("sample aspect ratio not given")?;
            Ok(())
        }
    }
}

fn range_text(full_range: Option<bool>) -> &'static str
    ensures { result.now ≡ range_text full_range }
{
    match full_range {
        Some(true) => ", range full",
        Some(false) => ", range limited",
        None => ", range not given",
    }
}

fn add_colour(text: &mut String, sequence: &SequenceFacts) -> Result<(), OutOfMemory>
    ensures { OnOk result (AddsText text.old text.new (colour_line sequence.now)) }
{
    add_colour_numbers(text, sequence.colour)?;
    end_line(text)
}

fn add_colour_numbers(text: &mut String, colour: Option<Colour>) -> Result<(), OutOfMemory>
    ensures { OnOk result (AddsText text.old text.new (colour_text colour)) }
{
    match colour {
        Some(colour) => {
            let primaries = colour.colour_primaries;
            let transfer = colour.transfer_characteristics;
            let matrix = colour.matrix_coefficients;
            write!(
                text,
                "colour primaries {primaries}, transfer {transfer}, matrix {matrix}"
            )?;
            Ok(())
        }
        None => {
            text.push_str("colour primaries not given, transfer not given, matrix not given")?;
            Ok(())
        }
    }
}

fn add_rates(
    text: &mut String,
    timing: Option<Timing>,
    bytes: u64,
    pictures: u64,
) -> Result<(), OutOfMemory>
    ensures { OnOk result (AddsText text.old text.new (rates_line timing bytes pictures)) }
{
    add_if_given(text, "bit rate", bit_rate(timing, bytes, pictures))?;
    add_thousandths_if_given(text, ", duration", duration(timing, pictures))?;
    end_line(text)
}
