//! The events of a decoder that is fed unit after unit, as a run of the program handles them.
#![tactic(auto)]

mod calls;

pub use calls::{feed_unit, flush, next_event};
