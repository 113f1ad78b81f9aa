//! Scaling and inverse transforms of the residual, and its sum with the prediction (8.5).
//!
//! Levels are transform coefficient levels in zig-zag order; each that can be coded is below 4,096
//! in size. Blocks of 4x4 are arrays of sixteen, row by row. No call takes memory, and none can
//! fail.
#![tactic(auto)]

mod block;
mod construction;
mod dc;
mod inverse;
mod lanes;
mod lines;
mod quantiser;
mod scaling;

pub use block::{residual_of_dc, residual4x4, residual4x4_with_dc};
pub use construction::{add_clip, add_to_row, add_to_square, clipped_sum};
pub use dc::{chroma_dc, luma_dc};
pub use quantiser::chroma_qp;
