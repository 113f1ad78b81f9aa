//! Some of the pictures: without the first ones, and so many at most.

ghost use Rattle.std.specs.Prelude.{◌≡◌, OnOk, IfErr};
ghost use Rattle.avc_formats.specs.Selecting.{is_wanted, selected};

use crate::format::PictureFormat;
use avc_console::RunFault;
use avc_plane::SharedPicture;
use std::io::Write;

/// Some of the pictures, in a format: all but the first ones, and of these so many at most.
#[derive(Drop)]
pub struct Selected<F> {
    pub format: F,

    /// How many pictures are left out first.
    pub skip: u64,

    /// How many are written at most.
    pub limit: u64,
}

impl<F: PictureFormat> Selected<F> {
    // Whether the picture of this number is written.
    fn is_wanted(&self, number: u64) -> bool
        ensures { result ≡ is_wanted self.now.skip self.now.limit number }
    {
        self.skip <= number && number - self.skip < self.limit
    }
}

impl<F: PictureFormat> PictureFormat for Selected<F> {
    ghost format = { λ s. selected (F.format s.format) s.skip s.limit };

    fn write<W: Write>(
        &self,
        number: u64,
        picture: &SharedPicture,
        room: &mut [u8],
        writer: &mut W,
    ) -> Result<(), RunFault> {
        if !self.is_wanted(number) {
            return Ok(());
        }
        self.format.write(number - self.skip, picture, room, writer)
    }

    fn is_enough(&self, pictures: u64) -> bool {
        u128::from(self.skip) + u128::from(self.limit) <= u128::from(pictures)
    }
}
