//! What macroblocks know of their neighbours (6.4).
#![tactic(auto)]

mod block_order;
mod coefficient_counts;
pub mod laws;
mod modes;
mod neighbour_info;
mod neighbours;
mod row;

pub use block_order::{above_block, is_leftmost, is_topmost, left_block};
pub use coefficient_counts::{nc_chroma, nc_luma};
pub use modes::intra4x4_modes;
pub use neighbour_info::{Motion, NearMode, NeighbourInfo, TotalCoeffs};
pub use neighbours::Neighbours;
pub use row::Row;
