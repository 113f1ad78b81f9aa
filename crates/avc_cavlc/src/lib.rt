//! Residual blocks (7.3.5.3.2, 9.2).
#![tactic(auto)]

mod block;
mod level;
mod runs;

pub use block::{read_block, read_block_in_place};
pub use level::{level_code, next_suffix_length, suffix_size};
