//! How a comparison ends.

ghost use Rattle.std.specs.Prelude.{◌≡◌};
ghost use Rattle.avc_compare.specs.declared.verdict.CompareFault.TheVariants.{Ours as OfOurs};

use avc_console::RunFault;
use avc_difference::{Difference, Shape};
use avc_types::PictureInfo;
use thiserror::Error;

/// What becomes of the comparison of a stream's pictures with another decoder's.
#[derive(Drop)]
pub enum Verdict {
    /// All pictures are the same.
    Same,

    /// This picture is the first that differs.
    Differs(Differing),

    /// The other's bytes end before the picture of this number is whole, and those before it are
    /// the same.
    Fewer(u64),

    /// All of so many pictures are the same, and the other has more bytes.
    More(u64),

    /// The other's pictures have another size than the next one, and those before it are the same.
    OtherSize(Sizes),
}

/// How many columns and rows of luma samples are shown of a picture.
#[derive(Clone, Copy)]
pub struct PictureSize {
    pub width: u64,
    pub height: u64,
}

/// Two sizes that are not the same.
#[derive(Clone, Copy)]
pub struct Sizes {
    pub ours: PictureSize,
    pub theirs: PictureSize,
}

/// Which picture is compared.
#[derive(Clone, Copy)]
pub struct ComparedPicture {
    /// Its number in output order, from 0; the greatest number, once there.
    pub number: u64,

    pub info: PictureInfo,

    pub shape: Shape,
}

/// A picture that differs.
#[derive(Drop)]
pub struct Differing {
    pub picture: ComparedPicture,

    pub difference: Difference,

    /// The MD5 (RFC 1321) of what is shown of our picture, as I420.
    pub our_digest: [u8; 16],

    /// That of the other's.
    pub their_digest: [u8; 16],
}

/// What ended a comparison before its end.
#[derive(Clone, Copy, Debug, Error)]
pub enum CompareFault {
    /// A fault of decoding the stream, or want of memory.
    #[error("{0}")]
    Ours(RunFault),

    /// A read of the other's pictures answered an error.
    #[error("read fault of the other's pictures")]
    Theirs,
}

impl From<RunFault> for CompareFault {
    ghost from_gives = { λ fault made. made ≡ OfOurs fault };

    fn from(fault: RunFault) -> CompareFault {
        CompareFault::Ours(fault)
    }
}
