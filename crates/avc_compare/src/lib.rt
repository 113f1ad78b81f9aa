//! A stream's pictures beside another decoder's: whether they differ, and where they do first.
#![tactic(auto)]

mod ahead;
mod comparison;
mod digests;
mod displaced;
mod looking;
mod meeting;
mod picture;
mod program;
mod reporting;
mod samples;
mod stream;
mod text;
mod verdict;

pub use comparison::{Comparison, Findings, run_comparison};
pub use displaced::{Displaced, DisplacedPictures};
pub use program::compare;
pub use text::add_findings;
pub use verdict::{CompareFault, ComparedPicture, Differing, PictureSize, Sizes, Verdict};
