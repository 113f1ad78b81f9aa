//! Texts of units and headers, and pieces of a stream.
#![tactic(auto)]

mod cut_points;
mod cutter;
mod cutting;
mod headers;
pub mod laws;
mod listing_form;
mod losses;
mod piece;
mod piece_counts;
mod piece_facts;
mod piece_text;
mod sets_in_force;
mod stream_text;
mod tail_text;
mod unit_facts;
mod units;
mod writing;

pub use cut_points::CutPointLines;
pub use cutting::cut;
pub use headers::{
    HeaderLines, flag_number, order_type, show_headers, shown_height, shown_width, slice_qp_under,
    type_name,
};
pub use listing_form::{ForPeople, ListingForm};
pub use losses::{Losses, SeenUnit};
pub use piece_facts::PieceFacts;
pub use piece_text::PieceText;
pub use stream_text::StreamText;
pub use tail_text::TailText;
pub use unit_facts::UnitFacts;
pub use units::{UnitLines, list_units};
