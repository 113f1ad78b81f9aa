//! How pictures are written, one after another.

ghost use Rattle.std.specs.Prelude.{◌≡◌, false, OnOk, IfErr};
ghost use Rattle.std.specs.Io.KnownBytes.{Appends};
ghost use Rattle.avc_types.specs.Whole.{IsWhole};
ghost use Rattle.avc_console.specs.declared.fault.RunFault.TheVariants as faults;
ghost use Rattle.avc_formats.specs.Formats.{plain, Format, StopsPicture};

use avc_console::RunFault;
use avc_plane::SharedPicture;
use avc_yuv::write_i420_through;
use std::io::Write;

/// How pictures are written, one after another.
pub trait PictureFormat {
    /// What is written of each picture.
    ghost format: { Self → Format };

    /// Writes the picture of a number, from 0. Its rows are gathered in a room, which may hold
    /// anything before and after. Want of memory, and a picture of another size than the format can
    /// have, are told before anything is written.
    fn write<W: Write>(
        &self,
        number: u64,
        picture: &SharedPicture,
        room: &mut [u8],
        writer: &mut W,
    ) -> Result<(), RunFault>
        requires { IsWhole picture.now }
        ensures ok { OnOk result
            (Appends (W.contents writer.old) (W.contents writer.new)
            ((format self.now).text number picture.now)) }
        ensures err { IfErr result
            (λ fault. StopsPicture fault ((format self.now).fits number picture.now)
            (W.contents writer.old)
            (W.contents writer.new) ((format self.now).text number picture.now)) }
        ensures size { (format self.now).fits number picture.now ≡ false →
            result ≡ Err faults.Size };

    /// Whether so many pictures are all that are wanted.
    fn is_enough(&self, pictures: u64) -> bool
        ensures { result ≡ (format self.now).enough pictures };
}

/// I420 of every picture.
#[derive(Clone, Copy)]
pub struct I420;

impl PictureFormat for I420 {
    ghost format = { λ _. plain };

    #[inline(always)]
    fn write<W: Write>(
        &self,
        number: u64,
        picture: &SharedPicture,
        room: &mut [u8],
        writer: &mut W,
    ) -> Result<(), RunFault> {
        write_i420_through(picture, room, writer)?;
        Ok(())
    }

    #[inline(always)]
    fn is_enough(&self, pictures: u64) -> bool {
        false
    }
}
