//! The history of one coded video sequence (8.2, C.4).
#![tactic(auto)]

mod cropping;
mod frame_buffer;
mod history_entry;
pub mod laws;
mod long_gaps;
mod missing_frames;
mod opening;
mod sequence;

pub use avc_dpb::Output;
pub use sequence::Sequence;
