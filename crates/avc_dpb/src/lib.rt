//! Output by bumping (C.4).
#![tactic(auto)]

mod arriving_frame;
mod bumping;
mod dpb;
mod emptied_frames;
pub mod laws;
mod output;
mod stored_frame;
mod waiting;

pub use arriving_frame::ArrivingFrame;
pub use dpb::Dpb;
pub use output::Output;
