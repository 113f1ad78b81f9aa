//! Pictures as PNG files (ISO/IEC 15948).
#![tactic(auto)]

mod adler;
mod chunk;
mod colour;
mod crc;
mod image;
mod scanline;
mod zlib;

pub use adler::adler_32;
pub use colour::Conversion;
pub use crc::crc_32;
pub use image::{has_png_size, to_png};
