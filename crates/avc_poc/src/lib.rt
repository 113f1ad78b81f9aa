//! Picture order counts (8.2.1).
#![tactic(auto)]

mod counting;
mod cycle;
mod frame_number;
pub mod laws;
mod most_significant;
mod poc;
mod range;
mod type_0;
mod types_1_and_2;

pub use poc::Poc;
