//! Planes of samples, and the frames that are made of them (6.2).
#![tactic(auto)]

mod block;
mod component;
mod extension;
mod frame;
mod lent;
mod output;
mod padded;
mod picture_rows;
mod plane;
mod shared;
mod spare;
mod stride;

pub use block::BlockMut;
pub use component::Component;
pub use frame::{Frame, PaddedPlanes, Planes};
pub use lent::LentPlane;
pub use output::OutputPicture;
pub use padded::PaddedPlane;
pub use picture_rows::PictureRows;
pub use plane::{Plane, RowsPlace};
pub use shared::{EmptiedPlanes, SharedPicture, SharedPlanes};
pub use spare::SparePlanes;

/// How many samples a stored frame has on each side of each plane, copies of the nearest ones: a
/// prediction that leads no further is read without a look at the edges.
pub const PADDING: usize = 16;
