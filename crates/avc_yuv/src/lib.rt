//! Pictures as they are written.
#![tactic(auto)]

mod bytes;
mod copy;
mod gather;
mod shown;
mod write;

pub use avc_plane::Component;
pub use bytes::write_bytes;
pub use copy::{copy_i420, copy_plane, i420_len, plane_columns, plane_len};
pub use shown::{Window, shown_row, window_of};
pub use write::{ROOM, WriteFault, write_i420, write_i420_through};
