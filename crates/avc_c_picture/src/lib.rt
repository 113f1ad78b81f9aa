//! What C is told of the picture that it took last: its samples copied or lent, and the status of
//! each call.
#![tactic(auto)]

mod info;
mod picture;
mod rows;
mod status;

pub use info::InfoRecord;
pub use picture::LastPicture;
pub use rows::LentRows;
pub use status::Status;
