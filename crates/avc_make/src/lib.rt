//! Writing slices, their macroblocks and their units (7.3.4, 7.3.5), beside the parameter sets of
//! avc_make_headers.
#![tactic(auto)]

mod block_writing;
mod coefficients;
mod cut;
mod inter_writing;
pub mod laws;
mod level_writing;
mod macroblock_writing;
mod pcm_writing;
mod residual_writing;
mod run_writing;
mod slice;
mod slice_context;
mod slice_writing;

pub use avc_make_headers::{write_pps, write_sps};
pub use avc_rbsp::{BitMaker, escape};
pub use block_writing::write_block;
pub use cut::cut_bits;
pub use macroblock_writing::write_macroblock;
pub use slice::{CodedSlice, Macroblocks};
pub use slice_context::total_coeffs_of;
pub use slice_writing::write_slice;
