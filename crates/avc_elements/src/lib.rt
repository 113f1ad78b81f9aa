//! The syntax elements of macroblocks, as words and numbers.
#![tactic(auto)]

mod block_facts;
mod elements;
mod levels;
mod names;
mod vectors;

pub use block_facts::BlockFacts;
pub use elements::{add_coefficients, add_elements, pattern_of};
pub use levels::count_to_last;
pub use names::{add_type_name, sub_name};
pub use vectors::vectors_of;
