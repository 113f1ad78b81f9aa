//! What each unit brings, and what it does to the open picture (7.4.1.2).
#![tactic(auto)]

mod grouper;
mod header_reader;
mod heap_slice;
mod kinds;
mod last_header;
pub mod laws;
mod set_reading;
mod sets;
mod slices;
mod starts;
mod step;
mod step_cases;
mod units;

pub use grouper::Grouper;
pub use header_reader::{Brought, HeaderReader};
pub use heap_slice::HeapSlice;
pub use kinds::{UnitKind, kind_of};
pub use last_header::LastHeader;
pub use set_reading::{ParameterSet, read_set};
pub use sets::rbsp_of;
pub use starts::is_start;
pub use step::{Next, Step};
pub use step_cases::UnitContext;
pub use units::step_of;
