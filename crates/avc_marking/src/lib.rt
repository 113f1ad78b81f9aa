//! Marking of reference frames and gaps in frame_num (8.2.5).
#![tactic(auto)]

mod frame;
mod gaps;
pub mod laws;
mod marking;
mod operations;
mod window;

pub use frame::NewFrame;
pub use gaps::{MissingFrameNums, missing_frame_nums};
pub use marking::{frame_num_after_marking, mark};
pub use window::{count as reference_count, sliding_window};
