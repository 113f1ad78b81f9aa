//! The form of ffmpeg's framemd5: a head, and a line with its MD5 for each picture.

ghost use Rattle.std.specs.Prelude.{◌≡◌, ◌++◌, true, length, IfOk, IfErr, OnOk, string_bytes};
ghost use Rattle.std.specs.Io.KnownBytes.{Appends};
ghost use Rattle.hex.specs.Hex.{encode_lower};
ghost use Rattle.md5.specs.Md5.{md5};
ghost use Rattle.avc_types.specs.Whole.{IsWhole};
ghost use Rattle.avc_yuv.specs.I420.{i420};
ghost use Rattle.avc_formats.specs.Formats.{StopsPicture};
ghost use Rattle.avc_console.specs.declared.fault.RunFault.TheVariants as faults;
ghost use Rattle.avc_formats.specs.FrameMd5.{aspect_line, checksum_line, column, dimensions_line};
ghost use Rattle.avc_formats.specs.FrameMd5.{framemd5_head, framemd5_line};
ghost use Rattle.avc_formats.specs.FrameMd5.{size_text, time_base_line, times_text};

use crate::md5_writer::Md5Writer;
use avc_console::{RunFault, write_text};
use avc_plane::SharedPicture;
use avc_presentation::{Presentation, Ratio};
use avc_types::OutOfMemory;
use avc_yuv::{i420_len, write_i420_through};
use std::alloc::Global;
use std::io::Write;

pub(crate) fn add_framemd5_head(text: &mut String, said: &Presentation) -> Result<(), OutOfMemory>
    ensures { OnOk result (string_bytes text.new ≡ string_bytes text.old
        ++ framemd5_head said.now) }
{
    text.push_str("#format: frame checksums\n#version: 2\n#hash: MD5\n")?;
    add_time_base(text, said.frame_rate)?;
    text.push_str("#media_type 0: video\n#codec_id 0: rawvideo\n")?;
    add_dimensions(text, said)?;
    add_aspect(text, said.sample_aspect)?;
    text.push_str("#stream#, dts,        pts, duration,     size, hash\n")?;
    Ok(())
}

fn add_time_base(text: &mut String, frame_rate: Ratio) -> Result<(), OutOfMemory>
    ensures { OnOk result (string_bytes text.new ≡ string_bytes text.old
        ++ time_base_line frame_rate) }
{
    let frames = frame_rate.numerator;
    let seconds = frame_rate.denominator;
    write!(text, "#tb 0: {seconds}/{frames}\n")?;
    Ok(())
}

fn add_dimensions(text: &mut String, said: &Presentation) -> Result<(), OutOfMemory>
    ensures { OnOk result (string_bytes text.new ≡ string_bytes text.old
        ++ dimensions_line said.now) }
{
    let width = said.width;
    let height = said.height;
    write!(text, "#dimensions 0: {width}x{height}\n")?;
    Ok(())
}

fn add_aspect(text: &mut String, sample_aspect: Ratio) -> Result<(), OutOfMemory>
    ensures { OnOk result (string_bytes text.new ≡ string_bytes text.old
        ++ aspect_line sample_aspect) }
{
    if sample_aspect.denominator == 0 {
        text.push_str("#sar 0: 0/1\n")?;
        return Ok(());
    }
    let width = sample_aspect.numerator;
    let height = sample_aspect.denominator;
    write!(text, "#sar 0: {width}/{height}\n")?;
    Ok(())
}

/// Writes the line of a picture behind this text.
pub(crate) fn write_line<W: Write>(
    alloc: Global,
    front: String,
    number: u64,
    picture: &SharedPicture,
    room: &mut [u8],
    writer: &mut W,
) -> Result<(), RunFault>
    requires { IsWhole picture.now }
    ensures ok { OnOk result
        (Appends (W.contents writer.old) (W.contents writer.new) (string_bytes front
        ++ framemd5_line number picture.now)) }
    ensures err { IfErr result
        (λ fault. StopsPicture fault true (W.contents writer.old) (W.contents writer.new)
        (string_bytes front ++ framemd5_line number picture.now)) }
{
    let digest = picture_digest(picture, room)?;
    let mut text = front;
    add_line(alloc, &mut text, number, i420_len(picture), digest)?;
    write_text(&text, writer)
}

// The MD5 of a picture as I420.
fn picture_digest(picture: &SharedPicture, room: &mut [u8]) -> Result<[u8; 16], RunFault>
    requires { IsWhole picture.now }
    ensures ok { IfOk result (λ digest. digest ≡ md5 (i420 picture.now)) }
    ensures err { IfErr result (λ fault. fault ≡ faults.Write) }
{
    let mut writer = Md5Writer::new();
    write_i420_through(picture, room, &mut writer)?;
    Ok(writer.digest())
}

fn add_line(
    alloc: Global,
    text: &mut String,
    number: u64,
    size: u128,
    digest: [u8; 16],
) -> Result<(), OutOfMemory>
    ensures { OnOk result (string_bytes text.new ≡ string_bytes text.old
        ++ checksum_line number size digest) }
{
    add_times(text, number)?;
    add_size(text, size)?;
    text.push_str(", ")?;
    add_digest(alloc, text, digest)?;
    text.push_str("\n")?;
    Ok(())
}

fn add_times(text: &mut String, number: u64) -> Result<(), OutOfMemory>
    ensures { OnOk result (string_bytes text.new ≡ string_bytes text.old ++ times_text number) }
{
    text.push_str("0, ")?;
    add_time(text, number)?;
    text.push_str(", ")?;
    add_time(text, number)?;
    Ok(())
}

fn add_time(text: &mut String, time: u64) -> Result<(), OutOfMemory>
    ensures { OnOk result (string_bytes text.new ≡ string_bytes text.old ++ column 10 time) }
{
    write!(text, "{time:>10}")?;
    Ok(())
}

fn add_size(text: &mut String, size: u128) -> Result<(), OutOfMemory>
    ensures { OnOk result (string_bytes text.new ≡ string_bytes text.old ++ size_text size) }
{
    text.push_str(", ")?;
    add_count(text, 1)?;
    text.push_str(", ")?;
    add_count(text, size)?;
    Ok(())
}

fn add_count(text: &mut String, count: u128) -> Result<(), OutOfMemory>
    ensures { OnOk result (string_bytes text.new ≡ string_bytes text.old ++ column 8 count) }
{
    write!(text, "{count:>8}")?;
    Ok(())
}

fn add_digest(alloc: Global, text: &mut String, digest: [u8; 16]) -> Result<(), OutOfMemory>
    ensures { OnOk result (string_bytes text.new ≡ string_bytes text.old ++ encode_lower digest) }
{
    let digits = hex::encode(alloc, &digest)?;
    text.push_str(&digits)?;
    Ok(())
}
