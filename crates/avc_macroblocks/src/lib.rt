//! The command `macroblocks`, which tells the macroblocks of a stream as they are read, without
//! decoding a picture.
#![tactic(auto)]

mod form;
mod lines;
mod listing;
mod program;

pub use listing::MacroblockListing;
pub use program::{macroblocks, run_macroblocks, run_macroblocks_at};
