//! Sequence and picture parameter sets (7.3.2.1, 7.3.2.2, E.1).
#![tactic(auto)]

mod copies;
pub mod laws;
mod levels;
mod pps;
mod pps_reading;
mod set_unit;
mod sizes;
mod sps;
mod sps_reading;
mod stored;
mod syntax;
mod table;
mod video_usability;
mod vui;
mod vui_reading;

pub use pps::Pps;
pub use pps_reading::read_pps;
pub use set_unit::{Seen, SetFault, SetUnit};
pub use sps::{ConstraintFlags, Cropping, OrderCount, Sps};
pub use sps_reading::read_sps;
pub use syntax::{Syntax, read_optional, read_times, read_where};
pub use table::ParamTable;
pub use vui::{
    ChromaLocation, Colour, Hrd, HrdEntry, Restriction, SampleAspect, SampleSize, Timing,
    VideoSignal, Vui,
};
