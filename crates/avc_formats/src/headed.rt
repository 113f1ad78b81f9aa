//! Pictures in a format with a head in front of the first, or of each.

ghost use Rattle.std.specs.Prelude.{◌≡◌, ◌++◌, true, IfOk, IfErr, OnOk, string_bytes};
ghost use Rattle.std.specs.Io.KnownBytes.{Appends};
ghost use Rattle.avc_types.specs.Whole.{IsWhole};
ghost use Rattle.avc_yuv.specs.I420.{shown_height, shown_width};
ghost use Rattle.avc_formats.specs.Formats.{StopsPicture};
ghost use Rattle.avc_formats.specs.Headed.{has_head, has_size, head_before, head_of, headed};
ghost use Rattle.avc_formats.specs.Headed.{picture_text};

use crate::format::PictureFormat;
use crate::framemd5::{add_framemd5_head, write_line};
use crate::y4m::{add_y4m_header, write_frame};
use avc_console::RunFault;
use avc_plane::{PictureRows, SharedPicture};
use avc_presentation::Presentation;
use avc_types::OutOfMemory;
use std::alloc::Global;
use std::io::Write;

/// A format with a head in front of the first picture, or of each, which says how pictures are
/// shown. All pictures have the size that it says.
#[derive(Clone, Copy)]
pub enum HeadedFormat {
    /// YUV4MPEG2: each picture as I420 behind a line of its own.
    Y4m,

    /// YUV4MPEG2 with a head in front of each picture, so that each can stand in a file of its own.
    Y4mEach,

    /// The MD5 of each picture as I420, in a line of its own, as ffmpeg's framemd5 writes it.
    FrameMd5,
}

/// A format with a head that says this. A picture of another size is a fault.
#[derive(Drop)]
pub struct Headed {
    pub alloc: Global,
    pub format: HeadedFormat,
    pub said: Presentation,
}

impl PictureFormat for Headed {
    ghost format = { λ h. headed h.format h.said };

    fn write<W: Write>(
        &self,
        number: u64,
        picture: &SharedPicture,
        room: &mut [u8],
        writer: &mut W,
    ) -> Result<(), RunFault> {
        if !has_size(&self.said, picture) {
            return Err(RunFault::Size);
        }
        let front = front(self.alloc, self.format, &self.said, number)?;
        write_behind(
            self.alloc,
            front,
            self.format,
            number,
            picture,
            room,
            writer,
        )
    }

    fn is_enough(&self, _pictures: u64) -> bool {
        false
    }
}

fn has_size(said: &Presentation, picture: &SharedPicture) -> bool
    requires { IsWhole picture.now }
    ensures { result ≡ has_size said.now picture.now }
{
    let width = picture.width();
    let height = picture.height();
    let crop = picture.crop();
    u64::from(width - (crop.left + crop.right)) == said.width
        && u64::from(height - (crop.top + crop.bottom)) == said.height
}

// What stands in front of the picture of a number.
fn front(
    alloc: Global,
    format: HeadedFormat,
    said: &Presentation,
    number: u64,
) -> Result<String, OutOfMemory>
    ensures { IfOk result (λ text. string_bytes text ≡ head_before format said.now number) }
{
    let mut text = String::new(alloc);
    if has_head(format, number) {
        add_head(&mut text, format, said)?;
    }
    Ok(text)
}

// Whether a head stands in front of the picture of a number.
fn has_head(format: HeadedFormat, number: u64) -> bool
    ensures { result ≡ has_head format number }
{
    match format {
        HeadedFormat::Y4mEach => true,
        HeadedFormat::Y4m | HeadedFormat::FrameMd5 => number == 0,
    }
}

fn add_head(text: &mut String, format: HeadedFormat, said: &Presentation) -> Result<(), OutOfMemory>
    ensures { OnOk result (string_bytes text.new ≡ string_bytes text.old
        ++ head_of format said.now) }
{
    match format {
        HeadedFormat::Y4m | HeadedFormat::Y4mEach => add_y4m_header(text, said),
        HeadedFormat::FrameMd5 => add_framemd5_head(text, said),
    }
}

// Writes a picture behind this text.
fn write_behind<W: Write>(
    alloc: Global,
    front: String,
    format: HeadedFormat,
    number: u64,
    picture: &SharedPicture,
    room: &mut [u8],
    writer: &mut W,
) -> Result<(), RunFault>
    requires { IsWhole picture.now }
    ensures ok { OnOk result
        (Appends (W.contents writer.old) (W.contents writer.new) (string_bytes front
        ++ picture_text format number picture.now)) }
    ensures err { IfErr result
        (λ fault. StopsPicture fault true (W.contents writer.old) (W.contents writer.new)
        (string_bytes front ++ picture_text format number picture.now)) }
{
    match format {
        HeadedFormat::Y4m | HeadedFormat::Y4mEach => write_frame(front, picture, room, writer),
        HeadedFormat::FrameMd5 => write_line(alloc, front, number, picture, room, writer),
    }
}
