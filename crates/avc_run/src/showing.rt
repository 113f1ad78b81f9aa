//! The commands that show some of the pictures: each in a file of its own or not, or their MD5.

ghost use Rattle.std.specs.Prelude.{◌≡◌};
ghost use Rattle.avc_formats.specs.Headed.{headed};
ghost use Rattle.avc_run.specs.BySet.{EndsDecodingBySet};
ghost use Rattle.avc_run.specs.Showing.{drawing_of, selection_of, y4m_of, EndsShowing};

use crate::by_set::decode_headed;
use crate::digest::{decode_md5, verify};
use crate::program::decode_as;
use avc_console::{Console, Ending, Watch};
use avc_decoder::Output;
use avc_formats::{HeadedFormat, I420, Png, Selected};
use avc_request::{Form, Showing};
use std::alloc::Global;
use std::io;
use std::io::{Read, Write};

/// Shows some of the pictures, each in a file of its own or not, or their MD5.
pub fn show<R: Read, W: Write, E: Write, V: Watch>(
    alloc: Global,
    showing: Showing,
    is_each_alone: bool,
    reader: &mut R,
    writer: &mut W,
    console: &mut Console<'_, E, V>,
) -> Ending
    ensures { EndsShowing showing.form showing is_each_alone console.old.names
        console.old.is_explained (R.remaining reader.old) (R.remaining reader.new)
        (W.contents writer.old) (W.contents writer.new) (E.contents console.old.errors)
        (E.contents console.new.errors) result }
{
    let mode = showing.mode;
    let skip = showing.skip;
    let limit = showing.limit;
    let format = Selected {
        format: I420,
        skip,
        limit,
    };
    match showing.form {
        Form::I420 => decode_as(alloc, mode, &format, reader, writer, console),
        Form::Null => decode_as(alloc, mode, &format, reader, &mut io::sink(), console),
        Form::Md5 => decode_md5(alloc, mode, &format, reader, writer, console),
        Form::Y4m => show_headed(
            alloc,
            y4m_of(is_each_alone),
            showing,
            reader,
            writer,
            console,
        ),
        Form::FrameMd5 => show_headed(
            alloc,
            HeadedFormat::FrameMd5,
            showing,
            reader,
            writer,
            console,
        ),
        Form::Png => {
            let format = Selected {
                format: Png { alloc },
                skip,
                limit,
            };
            decode_as(alloc, mode, &format, reader, writer, console)
        }
        Form::Verify(expected) => verify(alloc, mode, &format, expected, reader, console),
    }
}

/// The picture of this number, as PNG.
pub fn drawing_of(number: u64) -> Showing
    ensures { result ≡ drawing_of number }
{
    Showing {
        mode: Output::Full,
        skip: number,
        limit: 1,
        form: Form::Png,
    }
}

// YUV4MPEG2, where each picture has a file of its own or not.
fn y4m_of(is_each_alone: bool) -> HeadedFormat
    ensures { result ≡ y4m_of is_each_alone }
{
    if is_each_alone {
        HeadedFormat::Y4mEach
    } else {
        HeadedFormat::Y4m
    }
}

// Shows some of the pictures in a format with a head.
fn show_headed<R: Read, W: Write, E: Write, V: Watch>(
    alloc: Global,
    format: HeadedFormat,
    showing: Showing,
    reader: &mut R,
    writer: &mut W,
    console: &mut Console<'_, E, V>,
) -> Ending
    ensures { EndsDecodingBySet console.old.names console.old.is_explained
        (λ said. selection_of showing (headed format said)) showing.mode (R.remaining reader.old)
        (R.remaining reader.new) (W.contents writer.old) (W.contents writer.new)
        (E.contents console.old.errors) (E.contents console.new.errors) result }
{
    let asked = Selected {
        format,
        skip: showing.skip,
        limit: showing.limit,
    };
    decode_headed(alloc, showing.mode, asked, reader, writer, console)
}
