//! What refusals mean, for people.
#![tactic(auto)]

mod lines;
mod meaning;

pub use lines::{counts_line, explained_line, waits_line};
pub use meaning::meaning_of;
