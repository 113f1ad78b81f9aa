//! The bits of an RBSP that are written, and its escapes in a NAL unit (7.3.1, 7.3.2.11, 7.4.1.1).
#![tactic(auto)]

mod escapes;
pub mod laws;
mod maker;

pub use escapes::escape;
pub use maker::BitMaker;
