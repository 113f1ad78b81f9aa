//! What the interpolation of samples reads: samples around a block, and sums of six taps (8.4.2.2).
#![tactic(auto)]

mod patch;
mod sums;

pub use patch::{fetch_held, find_within, place_inside};
pub use sums::{move_on, put_sums, sixteen_sums};
