//! The form YUV4MPEG2: a head, and a line before each picture.

ghost use Rattle.std.specs.Prelude.{◌≡◌, ◌++◌, true, IfErr, OnOk, string_bytes};
ghost use Rattle.std.specs.Io.KnownBytes.{Appends};
ghost use Rattle.avc_types.specs.Whole.{IsWhole};
ghost use Rattle.avc_yuv.specs.I420.{i420};
ghost use Rattle.avc_formats.specs.Formats.{StopsPicture};
ghost use Rattle.avc_console.specs.Reading.{WritesFirst};
ghost use Rattle.avc_console.specs.declared.fault.RunFault.TheVariants as faults;
ghost use Rattle.avc_presentation.specs.Ratios.{ratio_word};
ghost use Rattle.avc_formats.specs.Y4m.{chroma_words, range_words, shape_words};
ghost use Rattle.avc_formats.specs.Y4m.{y4m_frame, y4m_header};

use avc_console::{RunFault, write_text};
use avc_plane::SharedPicture;
use avc_presentation::{ChromaSite, Presentation, Ratio};
use avc_types::OutOfMemory;
use avc_yuv::write_i420_through;
use std::io::Write;

/// Writes a picture behind this text and a line of its own.
pub(crate) fn write_frame<W: Write>(
    front: String,
    picture: &SharedPicture,
    room: &mut [u8],
    writer: &mut W,
) -> Result<(), RunFault>
    requires { IsWhole picture.now }
    ensures ok { OnOk result
        (Appends (W.contents writer.old) (W.contents writer.new) (string_bytes front
        ++ y4m_frame picture.now)) }
    ensures err { IfErr result
        (λ fault. StopsPicture fault true (W.contents writer.old) (W.contents writer.new)
        (string_bytes front ++ y4m_frame picture.now)) }
{
    let mut lines = front;
    lines.push_str("FRAME\n")?;
    write_behind(&lines, picture, room, writer)
}

// Writes a picture behind these lines.
fn write_behind<W: Write>(
    lines: &str,
    picture: &SharedPicture,
    room: &mut [u8],
    writer: &mut W,
) -> Result<(), RunFault>
    requires { IsWhole picture.now }
    ensures ok { OnOk result
        (Appends (W.contents writer.old) (W.contents writer.new) (lines.now ++ i420 picture.now)) }
    ensures err { IfErr result (λ fault. (fault ≡ faults.Write) ×
        WritesFirst (W.contents writer.old) (W.contents writer.new)
        (lines.now ++ i420 picture.now)) }
{
    write_text(lines, writer)?;
    write_i420_through(picture, room, writer)?;
    Ok(())
}

pub(crate) fn add_y4m_header(text: &mut String, said: &Presentation) -> Result<(), OutOfMemory>
    ensures { OnOk result (string_bytes text.new ≡ string_bytes text.old ++ y4m_header said.now) }
{
    add_shape(text, said)?;
    text.push_str(chroma_words(said.chroma_site))?;
    text.push_str(range_words(said.full_range))?;
    text.push_str("\n")?;
    Ok(())
}

fn add_shape(text: &mut String, said: &Presentation) -> Result<(), OutOfMemory>
    ensures { OnOk result (string_bytes text.new ≡ string_bytes text.old ++ shape_words said.now) }
{
    let width = said.width;
    let height = said.height;
    write!(text, "YUV4MPEG2 W{width} H{height} F")?;
    add_ratio(text, said.frame_rate)?;
    text.push_str(" Ip A")?;
    add_ratio(text, said.sample_aspect)?;
    Ok(())
}

fn add_ratio(text: &mut String, ratio: Ratio) -> Result<(), OutOfMemory>
    ensures { OnOk result (string_bytes text.new ≡ string_bytes text.old ++ ratio_word ratio) }
{
    let numerator = ratio.numerator;
    let denominator = ratio.denominator;
    write!(text, "{numerator}:{denominator}")?;
    Ok(())
}

fn chroma_words(site: ChromaSite) -> &'static str
    ensures { result.now ≡ chroma_words site }
{
    match site {
        ChromaSite::Left => " C420mpeg2 XYSCSS=420MPEG2",
        ChromaSite::Centre => " C420jpeg XYSCSS=420JPEG",
        ChromaSite::TopLeft => " C420paldv XYSCSS=420PALDV",
    }
}

fn range_words(full_range: Option<bool>) -> &'static str
    ensures { result.now ≡ range_words full_range }
{
    match full_range {
        Some(true) => " XCOLORRANGE=FULL",
        Some(false) => " XCOLORRANGE=LIMITED",
        None => "",
    }
}
