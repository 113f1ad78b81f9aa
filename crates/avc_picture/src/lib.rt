//! The slices of one picture (7.4.3, 8).
#![tactic(auto)]

mod current_info;
mod current_macroblock;
mod decoder;
mod filter_info;
mod filter_rows;
mod header_checks;
mod info_for_neighbours;
pub mod laws;
mod macroblocks;
mod memory;
mod next_place;
mod reference_places;
mod rows_ahead;
mod slice_context;
mod slice_decoding;
mod still_run;

pub use avc_deblock::MbInfo;
pub use decoder::PictureDecoder;
pub use memory::PictureMemory;
