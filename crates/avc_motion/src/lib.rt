//! Reference indices and motion vectors of inter macroblocks (8.4.1).
#![tactic(auto)]

mod macroblock;
mod neighbouring;
mod parts;
mod prediction;

pub use macroblock::{has_one_motion, is_one_partition, motion, stands_still, vectors};
pub use neighbouring::NeighbouringPartitions;
