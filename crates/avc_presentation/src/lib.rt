//! How a sequence is shown (7.4.2.1.1, E.2.1): size, frame rate, shape of samples, range and place
//! of chroma.
#![tactic(auto)]

mod presentation;
mod ratio;

pub use presentation::{ChromaSite, Presentation};
pub use ratio::{Ratio, lowest_terms};
