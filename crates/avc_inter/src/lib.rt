//! Inter prediction (8.4.2).
#![tactic(auto)]

mod between;
mod bilinear;
mod both;
mod centres;
mod chroma_between;
mod chroma_both;
mod chroma_prediction;
mod columns;
mod eighths;
mod five_rows;
mod lines;
mod luma_prediction;
mod positions;
mod reference;
mod row;
mod rows;
mod six_rows;
mod source;
mod taps;
mod target;
mod vector;
mod weighting;
mod weights;
mod whole;

pub use chroma_both::predict_both_chroma;
pub use chroma_prediction::{chroma, copy_chroma, predict_chroma};
pub use luma_prediction::{copy_luma, luma, predict_luma};
pub use row::six_tap_row;
pub use weighting::weight;
