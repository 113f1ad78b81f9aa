//! The code tables of residual blocks and coded block patterns (9.1.2, 9.2).
#![tactic(auto)]

mod code;
mod coded_block_pattern;
mod codeword;
mod coeff_token;
mod entry;
pub mod laws;
mod run_before;
mod total_zeros;

pub use code::Code;
pub use coded_block_pattern::{cbp_of, read_cbp};
pub use codeword::Codeword;
pub use coeff_token::{Token, TokenCode, coeff_token_ahead, coeff_token_word, read_coeff_token};
pub use run_before::{Run, read_run_before, run_before_word, short_run};
pub use total_zeros::{read_total_zeros, total_zeros_ahead, total_zeros_word};
