//! Slice headers (7.3.3).
#![tactic(auto)]

mod begins;
mod copies;
mod deblocking;
mod header;
pub mod laws;
mod list;
mod marking;
mod modification;
mod order;
mod parts;
mod reading;
mod slice;
mod weights;
mod weights_reading;

pub use begins::{PictureFields, begins_picture};
pub use header::{CodedOrder, Deblocking, Header, SliceType};
pub use reading::{put_header, read_header};
pub use slice::Slice;
pub use weights::{ChromaWeights, CodedWeight, EntryWeights, PredWeightTable};
