//! Macroblocks as objects of JSON (RFC 8259), a line for each.
#![tactic(auto)]

mod json;
mod json_lists;

pub use json::ForPrograms;
