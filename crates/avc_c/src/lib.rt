//! The decoder for programs in C: the functions of include/avcdec.h.
#![tactic(auto)]

mod address;
mod awaited;
mod event;
mod exports;
mod fault;
mod handle;
pub mod laws;
mod marks;
mod raw_box;

pub use address::{DecoderAddress, OpenDecoder};
pub use avc_c_picture::{InfoRecord, LastPicture, LentRows, Status};
pub use awaited::Awaited;
pub use event::EventRecord;
pub use exports::{
    avcdec_close, avcdec_copy_i420, avcdec_copy_plane, avcdec_fault_name, avcdec_feed,
    avcdec_feed_unit, avcdec_flush, avcdec_lend_plane, avcdec_mark, avcdec_open,
    avcdec_picture_info, avcdec_reset, avcdec_take, avcdec_take_dropped, avcdec_turns,
    avcdec_version,
};
pub use handle::DecoderHandle;
pub use marks::{Mark, Marks};
