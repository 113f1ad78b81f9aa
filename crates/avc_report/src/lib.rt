//! What is told of two pictures that are compared: where they differ, and how near they are.
#![tactic(auto)]

mod natural;
mod psnr;
mod text;

pub use psnr::{Psnr, measure};
pub use text::{add_difference, add_psnr};
