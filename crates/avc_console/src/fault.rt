//! What ends a run before its end.

use avc_types::OutOfMemory;
use avc_yuv::WriteFault;
use std::alloc::{AllocError, AllocFailed};
use thiserror::Error;

/// What ended a run before its end.
#[derive(Clone, Copy, Debug, PartialEq, Eq, Error)]
pub enum RunFault {
    /// A `read` answered an error.
    #[error("read fault")]
    Read,

    /// The input had no end within the reads that a run may take.
    #[error("read fault")]
    Endless,

    /// A `write` answered an error, or took no byte.
    #[error("write fault")]
    Write,

    /// The system gave no memory.
    #[error("out of memory")]
    Memory,

    /// A picture has another size than those before it, and the format has one size.
    #[error("a picture of another size")]
    Size,
}

ghost use Rattle.std.specs.Prelude.{◌≡◌};
ghost use Rattle.avc_console.specs.declared.fault.RunFault.TheVariants.{Memory, Write as Unwritten};

impl From<OutOfMemory> for RunFault {
    ghost from_gives = { λ _ fault. fault ≡ Memory };

    fn from(_error: OutOfMemory) -> RunFault {
        RunFault::Memory
    }
}

impl From<AllocError> for RunFault {
    ghost from_gives = { λ _ fault. fault ≡ Memory };

    fn from(_error: AllocError) -> RunFault {
        RunFault::Memory
    }
}

impl<T: Drop> From<AllocFailed<T>> for RunFault {
    ghost from_gives = { λ _ fault. fault ≡ Memory };

    fn from(_error: AllocFailed<T>) -> RunFault {
        RunFault::Memory
    }
}

impl From<WriteFault> for RunFault {
    ghost from_gives = { λ _ fault. fault ≡ Unwritten };

    fn from(_error: WriteFault) -> RunFault {
        RunFault::Write
    }
}
