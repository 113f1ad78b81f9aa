//! The samples of one macroblock (8.3 to 8.5).
#![tactic(auto)]

mod canvas;
mod chroma;
mod corner;
mod inter;
mod inter_sources;
mod intra;
mod levels;
mod luma16x16;
mod luma4x4;
mod macroblock;
mod modes;
mod parts;
mod places;
mod residual;
mod shape;
mod sides;
mod still;

pub use canvas::{Canvas, Sources};
pub use inter::ReferencePicture;
pub use places::MbPlace;
pub use sides::ReadableNeighbours;
pub use still::{build_in_place, copy_run};
