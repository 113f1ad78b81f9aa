//! The macroblocks of a stream, read without being decoded, and told as they are read.
#![tactic(auto)]

mod derived;
mod neighbour_counts;
mod position;
mod slices;
mod stream;
mod telling;
mod units;

pub use position::MacroblockPosition;
pub use stream::MacroblockLines;
