//! At which stage of decoding another decoder's macroblock differs from ours.
#![tactic(auto)]

mod edges;
mod motion;
mod stage;
mod text;
mod traced;

pub use edges::{Edge, MacroblockEdges, edges_of};
pub use motion::{InterMotion, Motion, motion_of};
pub use stage::{Counts, Stage, counts_of, stage_of};
pub use text::{Explained, add_explained};
pub use traced::TracedSample;
