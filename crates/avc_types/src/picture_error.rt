//! Why a picture is not decoded.

ghost use Rattle.std.specs.Prelude.{◌≡◌};
ghost use Rattle.avc_types.specs.declared.picture_error.PictureError.TheVariants.{Fault as Faulty};
ghost use Rattle.avc_types.specs.declared.picture_error.PictureError.TheVariants.{OutOfMemory as NoMemory};

use crate::{Fault, OutOfMemory};

/// Why a picture is not decoded.
#[derive(Drop)]
pub enum PictureError {
    /// The picture has a fault.
    Fault(Fault),

    /// The system gave no memory.
    OutOfMemory(OutOfMemory),
}

impl From<Fault> for PictureError {
    ghost from_gives = { λ fault error. error ≡ Faulty fault };

    fn from(fault: Fault) -> PictureError {
        PictureError::Fault(fault)
    }
}

impl From<OutOfMemory> for PictureError {
    ghost from_gives = { λ refusal error. error ≡ NoMemory refusal };

    fn from(refusal: OutOfMemory) -> PictureError {
        PictureError::OutOfMemory(refusal)
    }
}
