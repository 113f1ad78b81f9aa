//! Reference picture lists (8.2.4).
#![tactic(auto)]

mod initialisation;
mod list;
mod modification;
mod named_frames;

pub use initialisation::initial_list;
pub use list::ReferenceList;
pub use modification::reference_list;
