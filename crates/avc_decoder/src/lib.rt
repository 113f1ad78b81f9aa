//! From bytes to pictures and refusals.
#![tactic(auto)]

mod calls;
mod close;
mod decoder;
mod error;
mod event;
pub mod laws;
mod open_picture;
mod outgoing;
mod parts;
mod phase;
mod queue;
mod slices;
mod stream;

pub use avc_decoder_core::Output;
pub use calls::{Call, Reply, make_call, run_calls};
pub use decoder::Decoder;
pub use error::DecodeError;
pub use event::Event;
pub use open_picture::OpenPicture;
