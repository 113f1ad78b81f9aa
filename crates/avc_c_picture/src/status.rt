//! What a call answers, by the number that the header gives it.

ghost use Rattle.std.specs.Prelude.{◌≡◌};
ghost use Rattle.avc_c_picture.specs.Answers.{call_status, take_status, unit_status};
ghost use Rattle.avc_c_picture.specs.declared.status.Status.TheVariants.{OutOfMemory as NoMemory};

use avc_decoder::{DecodeError, Event};
use avc_plane::SharedPicture;
use avc_types::OutOfMemory;

/// What a call answers to C.
#[derive(Clone, Copy)]
pub enum Status {
    Ok = 0,
    /// Of feed, flush and take until the decoder is reset or closed.
    OutOfMemory = 1,
    /// The stream has been ended by a flush.
    Ended = 2,
    Closed = 3,
    IsOpen = 4,
    /// The event that was taken last is no picture.
    NoPicture = 5,
    /// The memory that was given is too small, or its rows are.
    NoRoom = 6,
    /// No plane has this number.
    NoPlane = 7,
    /// No fault has this number.
    NoFault = 8,
    /// There is no value that never comes.
    NoValue = 9,
}

impl Status {
    ghost use Rattle.avc_c_picture.specs.Statuses.{number_of};

    /// The number by which C tells statuses apart.
    pub fn number(self) -> u32
        ensures { result ≡ number_of self }
    {
        self as u32
    }

    /// Of a feed or flush.
    pub fn of_call(answer: Result<(), DecodeError>) -> Status
        ensures { result ≡ call_status answer }
    {
        match answer {
            Ok(()) => Status::Ok,
            Err(DecodeError::OutOfMemory) => Status::OutOfMemory,
            Err(DecodeError::Ended) => Status::Ended,
        }
    }

    /// Of a feed of one unit.
    pub fn of_unit(answer: Result<usize, DecodeError>) -> Status
        ensures { result ≡ unit_status answer }
    {
        match answer {
            Ok(_) => Status::Ok,
            Err(DecodeError::OutOfMemory) => Status::OutOfMemory,
            Err(DecodeError::Ended) => Status::Ended,
        }
    }

    /// Of a take.
    pub fn of_take(answer: &Result<Option<Event<SharedPicture>>, DecodeError>) -> Status
        ensures { result ≡ take_status answer.now }
    {
        match answer {
            Ok(_) => Status::Ok,
            Err(DecodeError::OutOfMemory) => Status::OutOfMemory,
            Err(DecodeError::Ended) => Status::Ended,
        }
    }
}

impl From<OutOfMemory> for Status {
    ghost from_gives = { λ _ status. status ≡ NoMemory };

    fn from(_refusal: OutOfMemory) -> Status {
        Status::OutOfMemory
    }
}
