//! Tests of samples: of inter prediction and the deblocking filter, beside their formulas and by
//! worked rows, and of planes and their memory.
#![tactic(auto)]

#[cfg(test)]
mod deblocking;
#[cfg(test)]
mod inter_prediction;
#[cfg(test)]
mod lent_blocks;
#[cfg(test)]
mod planes;
#[cfg(test)]
mod step_edge;
