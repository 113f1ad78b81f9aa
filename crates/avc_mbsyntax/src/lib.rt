//! The syntax of macroblocks (7.3.4, 7.3.5).
#![tactic(auto)]

mod blocks;
mod context;
mod elements;
mod inter;
mod intra;
mod macroblock;
mod near;
mod residual;
mod samples;
mod slice_data;
mod stage;

pub use context::Context;
pub use inter::{part_count, partitions};
pub use macroblock::read_macroblock;
pub use near::{cb_side, cr_side, luma_side};
pub use slice_data::SliceData;
pub use stage::Stage;
