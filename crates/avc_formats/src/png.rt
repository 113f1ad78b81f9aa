//! Pictures as PNG files.

ghost use Rattle.std.specs.Prelude.{◌≡◌, true, IfErr, OnOk};
ghost use Rattle.std.specs.Io.KnownBytes.{Appends};
ghost use Rattle.avc_console.specs.Reading.{WritesFirst};
ghost use Rattle.avc_console.specs.declared.fault.RunFault.TheVariants as faults;
ghost use Rattle.avc_formats.specs.Formats.{png};

use crate::format::PictureFormat;
use avc_console::RunFault;
use avc_plane::SharedPicture;
use avc_png::{has_png_size, to_png};
use avc_yuv::write_bytes;
use std::alloc::Global;
use std::io::Write;

/// Every picture as a PNG file (ISO/IEC 15948). Files of several pictures stand one behind another.
/// A picture of which nothing is shown is a fault.
#[derive(Drop)]
pub struct Png {
    pub alloc: Global,
}

impl PictureFormat for Png {
    ghost format = { λ _. png };

    fn write<W: Write>(
        &self,
        _number: u64,
        picture: &SharedPicture,
        _room: &mut [u8],
        writer: &mut W,
    ) -> Result<(), RunFault> {
        if !has_png_size(picture) {
            return Err(RunFault::Size);
        }
        let file = to_png(self.alloc, picture)?;
        write_file(file.as_slice(), writer)
    }

    fn is_enough(&self, _pictures: u64) -> bool {
        false
    }
}

fn write_file<W: Write>(file: &[u8], writer: &mut W) -> Result<(), RunFault>
    ensures ok { OnOk result (Appends (W.contents writer.old) (W.contents writer.new) file.now) }
    ensures err { IfErr result (λ fault. (fault ≡ faults.Write) ×
        WritesFirst (W.contents writer.old) (W.contents writer.new) file.now) }
{
    write_bytes(file, 0, writer)?;
    Ok(())
}
