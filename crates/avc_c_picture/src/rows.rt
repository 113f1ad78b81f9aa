//! Rows of samples that are lent to C.

ghost use Rattle.std.specs.Prelude.{◌≡◌};
ghost use Rattle.std.specs.Ptr.{as_ptr};
ghost use Rattle.avc_types.specs.Whole.{IsWhole};
ghost use Rattle.avc_plane.specs.Shown.{scaled};
ghost use Rattle.avc_yuv.specs.Copying.{window_of};
ghost use Rattle.avc_c_picture.specs.Loans.{IsComponentLent};

use avc_plane::{Component, PictureRows, SharedPicture};

/// What C is told of rows that are lent: where they lie. The memory stays the library's.
#[repr(C)]
#[derive(Clone, Copy)]
pub struct LentRows {
    /// The first sample of the first row.
    pub samples: *const u8,
    /// How many bytes may be read from there on.
    pub length: usize,
    /// From one row to the next.
    pub stride: usize,
    pub columns: u32,
    pub rows: u32,
}

impl LentRows {
    /// What is shown of a component.
    pub fn of(picture: &SharedPicture, component: Component) -> LentRows
        requires { IsWhole picture.now }
        ensures { IsComponentLent picture.now component result }
    {
        let lent = picture.lent_plane(component);
        LentRows {
            samples: address_of(lent.samples),
            length: lent.samples.len(),
            stride: lent.stride,
            columns: shown_columns(picture, component),
            rows: shown_rows(picture, component),
        }
    }
}

// Where samples lie.
fn address_of(samples: &[u8]) -> *const u8
    ensures { result ≡ as_ptr samples.entry }
{
    samples.as_ptr()
}

fn shown_columns(picture: &SharedPicture, component: Component) -> u32
    requires { IsWhole picture.now }
    ensures { result ≡ (window_of picture.now component).width }
{
    let crop = picture.crop();
    scaled(component, picture.width() - (crop.left + crop.right))
}

fn shown_rows(picture: &SharedPicture, component: Component) -> u32
    requires { IsWhole picture.now }
    ensures { result ≡ (window_of picture.now component).height }
{
    let crop = picture.crop();
    scaled(component, picture.height() - (crop.top + crop.bottom))
}

// A number of luma samples as one of a component's.
fn scaled(component: Component, luma: u32) -> u32
    ensures { result ≡ scaled component luma }
{
    match component {
        Component::Luma => luma,
        Component::Cb => luma / 2,
        Component::Cr => luma / 2,
    }
}
