//! The lines that tell what a file is that is no byte stream of H.264.

ghost use Rattle.std.specs.Prelude.{◌≡◌, ◌++◌, IfOk, OnOk, string_bytes};
ghost use Rattle.avc_container.specs.Containers.{container_of};
ghost use Rattle.avc_container.specs.Messages.{advice_of, beginning_text, container_line};
ghost use Rattle.avc_container.specs.Messages.{container_text, has_start_code, name_of};
ghost use Rattle.avc_container.specs.Messages.{no_picture_line, other_text};

use crate::container::{Container, container_of, has_at};
use std::alloc::{AllocError, Global};

const PIPE: &str =
    "; a byte stream of its H.264: ffmpeg -i FILE -c:v copy -bsf:v h264_mp4toannexb -f h264 - | avcdec decode -";

const NONE_INSIDE: &str = ", which holds no H.264";

/// The line that tells of a stream in which no picture was found, by its first bytes.
pub fn no_picture_line(alloc: Global, first: &[u8]) -> Result<String, AllocError>
    ensures { IfOk result (λ line. string_bytes line ≡ no_picture_line first.now) }
{
    let mut line = String::from_str(alloc, "avcdec: no picture was found; ")?;
    add_beginning(&mut line, container_of(first), first)?;
    line.push_str("\n")?;
    Ok(line)
}

/// The line that tells that a stream is this container or picture, and what makes a byte stream of
/// it.
pub fn container_line(alloc: Global, container: Container) -> Result<String, AllocError>
    ensures { IfOk result (λ line. string_bytes line ≡ container_line container) }
{
    let mut line = String::from_str(alloc, "avcdec: ")?;
    add_container(&mut line, container)?;
    line.push_str("\n")?;
    Ok(line)
}

// What the first bytes are.
fn add_beginning(
    line: &mut String,
    container: Option<Container>,
    first: &[u8],
) -> Result<(), AllocError>
    ensures { OnOk result (string_bytes line.new ≡ string_bytes line.old
        ++ beginning_text container first.now) }
{
    match container {
        Some(container) => add_container(line, container),
        None => {
            line.push_str(other_text(first))?;
            Ok(())
        }
    }
}

fn add_container(line: &mut String, container: Container) -> Result<(), AllocError>
    ensures { OnOk result (string_bytes line.new ≡ string_bytes line.old
        ++ container_text container) }
{
    line.push_str("the first bytes are those of ")?;
    add_name(line, container)?;
    Ok(())
}

// What it is called, and what can be done with it.
fn add_name(line: &mut String, container: Container) -> Result<(), AllocError>
    ensures { OnOk result (string_bytes line.new ≡ string_bytes line.old
        ++ (name_of container ++ advice_of container)) }
{
    line.push_str(name_of(container))?;
    line.push_str(advice_of(container))?;
    Ok(())
}

fn name_of(container: Container) -> &'static str
    ensures { result.now ≡ name_of container }
{
    match container {
        Container::Mp4 => "an MP4 file",
        Container::Matroska => "a Matroska or WebM file",
        Container::MpegTs => "an MPEG transport stream",
        Container::Flv => "an FLV file",
        Container::Avi => "an AVI file",
        Container::Ivf => "an IVF file",
        Container::Y4m => "a YUV4MPEG2 file",
        Container::Jpeg => "a JPEG picture",
        Container::Png => "a PNG picture",
    }
}

// What can be done with it.
fn advice_of(container: Container) -> &'static str
    ensures { result.now ≡ advice_of container }
{
    match container {
        Container::Mp4
        | Container::Matroska
        | Container::MpegTs
        | Container::Flv
        | Container::Avi
        | Container::Ivf => PIPE,
        Container::Y4m | Container::Jpeg | Container::Png => NONE_INSIDE,
    }
}

// Where the first bytes are those of no container or picture.
fn other_text(first: &[u8]) -> &'static str
    ensures { result.now ≡ other_text first.now }
{
    if first.is_empty() {
        return "there is nothing to read";
    }
    if has_start_code(first) {
        return "the first bytes are those of a byte stream";
    }
    "the first bytes are of no known file; a byte stream begins with 00 00 01 or 00 00 00 01"
}

// A start code, or zero bytes in front of one (B.1.1).
fn has_start_code(first: &[u8]) -> bool
    ensures { result ≡ has_start_code first.now }
{
    has_at(first, 0, &[0, 0, 1]) || has_at(first, 0, &[0, 0, 0])
}
