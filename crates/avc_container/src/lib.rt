//! What is no byte stream of H.264, by its first bytes: which container or picture it is, and what
//! makes a byte stream of it.
#![tactic(auto)]

mod beginning;
mod container;
mod message;

pub use beginning::{Beginning, FIRST};
pub use container::{Container, container_of};
pub use message::{container_line, no_picture_line};
