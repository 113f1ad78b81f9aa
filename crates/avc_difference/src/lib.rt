//! Where two pictures differ.
#![tactic(auto)]

mod difference;
pub mod laws;
mod marks;
mod origin;
mod place;

pub use difference::{Difference, find_difference};
pub use marks::Mark;
pub use origin::SamplePair;
pub use place::{Place, Shape, macroblock_columns, macroblock_rows, macroblocks, shown_samples};
