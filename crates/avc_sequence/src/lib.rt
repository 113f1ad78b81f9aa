//! What a stream's sequence parameter set says, what follows from its clock, and the search for
//! that of the first slice.
#![tactic(auto)]

mod finder;
mod rates;
mod sequence_facts;

pub use finder::SequenceFinder;
pub use rates::{bit_rate, duration, frame_rate, rate_ratio};
pub use sequence_facts::{Crop, SequenceFacts, Size};
