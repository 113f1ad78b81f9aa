//! Decoding a stream again up to a macroblock, for its samples before deblocking.
#![tactic(auto)]

mod cut;
mod feeding;
mod program;
mod replay;
mod tracing;

pub use cut::cut_unit;
pub use program::tell_macroblock;
pub use replay::explain_macroblock;
