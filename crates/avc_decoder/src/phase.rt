//! Whether decoding waits, or goes on with a picture or without.

ghost use Rattle.std.specs.Prelude.{◌≡◌, is_some, not, IfSome};
ghost use Rattle.std.specs.Option.{option_copied};
ghost use Rattle.avc_decoder.specs.States.{current_in, is_waiting_in, last_header_in};
ghost use Rattle.avc_decoder.specs.States.{without_picture};
ghost use Rattle.avc_picture.specs.Decoding.{HasNoFault, IsFull};

use avc_picture::PictureDecoder;
use avc_plane::PADDING;
use avc_units::{LastHeader, UnitContext};

/// What decoding waits for, or goes on with.
pub enum Phase {
    /// For a unit to start with.
    Waiting,

    /// With the open picture, if there is one.
    Running(Option<CurrentPicture>),
}

// Written out, so that a proof takes the open picture apart here alone, and not wherever a phase is
// let go.
impl Drop for Phase {
    fn drop(self) {
        match self {
            Phase::Waiting => {}
            Phase::Running(_) => {}
        }
    }
}

/// The open picture: its decoder, and of its last slice the header and the unit.
#[derive(Drop)]
pub struct CurrentPicture {
    pub decoder: PictureDecoder<PADDING>,
    pub last_header: LastHeader,
    pub last_unit: u64,
}

impl Phase {
    /// Whether decoding waits.
    pub fn is_waiting(&self) -> bool
        ensures { result ≡ is_waiting_in self.now }
    {
        match self {
            Phase::Waiting => true,
            Phase::Running(_) => false,
        }
    }

    /// Whether a picture is open.
    pub fn is_open(&self) -> bool
        ensures { result ≡ is_some (current_in self.now) }
    {
        match self {
            Phase::Running(Some(_)) => true,
            _ => false,
        }
    }

    /// What the next unit finds.
    pub fn context(&self) -> UnitContext<'_>
        requires { IfSome (current_in self.now) (λ c. HasNoFault c.decoder) }
        ensures running { result.running ≡ not (is_waiting_in self.now) }
        ensures last { option_copied result.last ≡ last_header_in self.now }
        ensures full { IfSome (current_in self.now) (λ c. IsFull result.full c.decoder) }
    {
        match self {
            Phase::Waiting => UnitContext {
                running: false,
                last: None,
                full: false,
            },
            Phase::Running(None) => UnitContext {
                running: true,
                last: None,
                full: false,
            },
            Phase::Running(Some(current)) => UnitContext {
                running: true,
                last: Some(&current.last_header),
                full: current.decoder.full(),
            },
        }
    }

    /// Takes the open picture, if there is one, so that none is open.
    pub fn take(&mut self) -> Option<CurrentPicture>
        ensures picture { result ≡ current_in self.old }
        ensures rest { self.new ≡ without_picture self.old }
    {
        match self {
            Phase::Waiting => None,
            Phase::Running(current) => current.take(),
        }
    }
}
