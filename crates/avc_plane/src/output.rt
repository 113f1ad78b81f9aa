//! Kinds of pictures that a decoder hands out.

ghost use Rattle.std.specs.Prelude.{◌≡◌, IfOk};

use crate::picture_rows::PictureRows;
use crate::shared::SharedPicture;
use avc_types::{OutOfMemory, Picture};
use std::alloc::Global;

/// A kind of picture that a decoder hands out.
pub trait OutputPicture: PictureRows + Drop + Sized {
    /// The picture in this kind. Err where it needs memory that there is not.
    fn of_shared(alloc: Global, shared: SharedPicture) -> Result<Self, OutOfMemory>
        ensures { IfOk result (λ picture. Self.picture picture ≡ shared) };
}

/// One that others hold too, as it is: this takes no memory.
impl OutputPicture for SharedPicture {
    #[inline]
    fn of_shared(alloc: Global, shared: SharedPicture) -> Result<Self, OutOfMemory> {
        Ok(shared)
    }
}

/// A copy in memory of its own.
impl OutputPicture for Picture {
    fn of_shared(alloc: Global, shared: SharedPicture) -> Result<Self, OutOfMemory> {
        shared.to_picture(alloc)
    }
}
