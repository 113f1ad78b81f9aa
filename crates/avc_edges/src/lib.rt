//! The samples across one edge, filtered at its strengths and QPs (8.7.2).
#![tactic(auto)]

mod block;
mod bytes;
mod chroma_edge;
mod kernels;
mod limits;
mod line;
mod lines;
mod luma_edge;
mod pair;
mod settings;
mod square;
mod strengths;
mod table;
mod thresholds;

pub use chroma_edge::{horizontal_chroma, two_vertical_chroma, vertical_chroma};
pub use line::{all_three, both, either};
pub use luma_edge::{filter_luma, filter_three_luma};
pub use settings::EdgeSettings;
pub use strengths::Strengths;
pub use thresholds::{EdgeQp, LineLimits, NO_LIMITS, QpLimits};
