//! How pictures are written: as I420, some of them, their checksums, also one by one, as YUV4MPEG2
//! and as PNG.
#![tactic(auto)]

mod first_set;
mod format;
mod framemd5;
mod front;
mod headed;
mod md5_line;
mod md5_writer;
mod png;
mod selected;
mod y4m;

pub use avc_presentation::{ChromaSite, Presentation, Ratio, lowest_terms};
pub use format::{I420, PictureFormat};
pub use front::{Front, read_front};
pub use headed::{Headed, HeadedFormat};
pub use md5_line::write_digest;
pub use md5_writer::Md5Writer;
pub use png::Png;
pub use selected::Selected;
