//! The types that every layer of the decoder shares.
#![tactic(auto)]

mod address;
mod block;
mod bytes;
mod current_frame_num;
mod edges;
mod fault;
mod history;
mod levels;
mod macroblock;
mod marked_frame;
mod mb;
mod memory;
mod picture;
mod picture_error;
mod picture_info;
mod references;
mod rows;
mod up_to;
mod vector;
mod weight;

pub use address::MbAddr;
pub use block::Block;
pub use bytes::Bytes;
pub use current_frame_num::CurrentFrameNum;
pub use edges::FilteredEdges;
pub use fault::Fault;
pub use history::History;
pub use levels::Levels;
pub use macroblock::{Mvd, PMbType, Part, SubMbType};
pub use marked_frame::{
    MarkedFrame, has_long_term_frame_idx, long_term_place, marks_are_seen, short_term_place,
};
pub use mb::{BlockLevels, Mb, Syntax};
pub use memory::{OutOfMemory, WantOfMemory};
pub use picture::{Crop, Picture};
pub use picture_error::PictureError;
pub use picture_info::{PictureInfo, VideoUsability};
pub use references::{Mark, Marking, Modification, Operation};
pub use rows::copy_rows;
pub use up_to::UpTo;
pub use vector::Mv;
pub use weight::{Weight, Weights};
