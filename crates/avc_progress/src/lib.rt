//! How far a run is, and how fast, told while it goes on.
#![tactic(auto)]

mod progress;
mod progress_state;
mod rate;

pub use progress::Progress;
