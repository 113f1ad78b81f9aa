//! The deblocking filter (8.7).
#![tactic(auto)]

mod block_rows;
mod block_strength;
mod edge_strengths;
mod filter;
mod horizontal_edges;
mod inner_edges;
mod kept_limits;
mod known_mb;
pub mod laws;
mod macroblock;
mod mb_info;
mod mb_strengths;
mod place;
mod planes_edge;
mod vertical_edges;

pub use block_strength::strength;
pub use filter::{picture, row};
pub use mb_info::MbInfo;
pub use place::Place;
pub use planes_edge::edge;
