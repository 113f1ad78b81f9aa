//! Writing parameter sets and slice headers (7.3.2, 7.3.3).
#![tactic(auto)]

mod header_writing;
pub mod laws;
mod macroblock_parts;
mod part;
mod pps_writing;
mod reference_writing;
mod sps_writing;
mod units;
mod vui_writing;
mod weights_writing;

pub use header_writing::{header_byte, put_header};
pub use part::{Part, put_each};
pub use pps_writing::write_pps;
pub use sps_writing::write_sps;
pub use units::unit_of;
