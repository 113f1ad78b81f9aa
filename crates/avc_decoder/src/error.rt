//! Why a call was not carried out.

ghost use Rattle.std.specs.Prelude.{◌≡◌};
ghost use Rattle.avc_decoder.specs.declared.error.DecodeError.TheVariants.{OutOfMemory as NoMemory};

use avc_types::OutOfMemory;
use thiserror::Error;

/// Why a call of a decoder was not carried out.
#[derive(Clone, Copy, Debug, PartialEq, Eq, Error)]
pub enum DecodeError {
    /// The system gave no memory. Until the decoder is reset each call answers so.
    #[error("out of memory")]
    OutOfMemory = 1,

    /// The stream has been ended by a flush. Nothing changes.
    #[error("the stream has ended")]
    Ended = 2,
}

impl DecodeError {
    ghost use Rattle.avc_decoder.specs.Errors.{number_of};

    /// The number by which programs tell errors apart.
    pub fn number(self) -> u8
        ensures { result ≡ number_of self }
    {
        self as u8
    }
}

impl From<OutOfMemory> for DecodeError {
    ghost from_gives = { λ _ error. error ≡ NoMemory };

    fn from(_error: OutOfMemory) -> DecodeError {
        DecodeError::OutOfMemory
    }
}
