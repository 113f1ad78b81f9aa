//! Pictures that are read row by row.

ghost use Rattle.std.specs.Prelude.{◌≡◌, ◌+◌, ◌*◌, ◌^◌, ◌<◌, ◌≤◌, true, nat_le, length};
ghost use Rattle.std.specs.Prelude.{slice_range};
ghost use Rattle.avc_types.specs.Whole.{IsWhole};
ghost use Rattle.avc_plane.specs.Shown.{samples_of, columns_of, rows_of};

use crate::component::Component;
use avc_types::{Crop, Picture, PictureInfo};

/// A decoded picture, read row by row.
pub trait PictureRows {
    ghost use Rattle.avc_types.specs.declared.picture.Picture.{Picture as Shown};

    /// The picture that it is.
    ghost picture: { Self → Shown };

    /// The coded width in luma samples.
    fn width(&self) -> u32
        ensures { result ≡ (picture self.now).width };

    /// The coded height in luma samples.
    fn height(&self) -> u32
        ensures { result ≡ (picture self.now).height };

    /// What is not shown of it.
    fn crop(&self) -> Crop
        ensures { result ≡ (picture self.now).crop };

    /// What is known of it beside its samples.
    fn info(&self) -> PictureInfo
        ensures { result ≡ (picture self.now).info };

    /// Whether its planes and its crop fit its size.
    fn is_whole(&self) -> bool
        ensures whole { IsWhole (picture self.now) → result ≡ true }
        ensures is { result ≡ true → IsWhole (picture self.now) }
        ensures addressable { length (picture self.now).luma < 2 ^ 63 };

    /// The samples of row `y` of a component, from the left: all that are coded.
    fn row(&self, component: Component, y: usize) -> &[u8]
        requires whole { IsWhole (picture self.now) }
        requires row { y < rows_of (picture self.now) component }
        ensures { result.now ≡ slice_range (samples_of (picture self.now) component)
            (y * columns_of (picture self.now) component)
            (y * columns_of (picture self.now) component + columns_of (picture self.now) component) };
}

// Whether so many samples can be left out of a picture of this size.
pub(crate) fn fits(before: u32, after: u32, size: u32) -> bool
    ensures { result ≡ nat_le (before + after) size }
{
    u64::from(before) + u64::from(after) <= u64::from(size)
}

impl PictureRows for Picture {
    ghost picture = { λ p. p };

    fn width(&self) -> u32 {
        self.width
    }

    fn height(&self) -> u32 {
        self.height
    }

    fn crop(&self) -> Crop {
        self.crop
    }

    fn info(&self) -> PictureInfo {
        self.info
    }

    fn is_whole(&self) -> bool {
        let width = u64::from(self.width);
        let height = u64::from(self.height);
        let chroma = (width / 2) * (height / 2);
        self.luma.as_slice().len() as u64 == width * height
            && self.cb.as_slice().len() as u64 == chroma
            && self.cr.as_slice().len() as u64 == chroma
            && fits(self.crop.left, self.crop.right, self.width)
            && fits(self.crop.top, self.crop.bottom, self.height)
    }

    #[inline]
    fn row(&self, component: Component, y: usize) -> &[u8] {
        match component {
            Component::Luma => dense_row(self.luma.as_slice(), self.width as usize, y),
            Component::Cb => dense_row(self.cb.as_slice(), self.width as usize / 2, y),
            Component::Cr => dense_row(self.cr.as_slice(), self.width as usize / 2, y),
        }
    }
}

// Row `y` of samples that have no padding.
fn dense_row(samples: &[u8], columns: usize, y: usize) -> &[u8]
    requires { y * columns + columns ≤ length samples.now }
    ensures { result.now ≡ slice_range samples.now (y * columns) (y * columns + columns) }
{
    &samples[y * columns..y * columns + columns]
}
