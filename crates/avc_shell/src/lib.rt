//! What the program has around its commands: files and pipes, what is told beside them, and how
//! that changes its exit status.
#![tactic(auto)]

mod ending;
mod errors;
mod frame_times;
mod from_piece;
mod input;
mod loss_lines;
mod misuse;
mod other_pictures;
mod output;
mod place_line;
mod reason;
mod refusal_places;
mod told;
mod unit_place;
mod unit_places;
mod y4m_header;

pub use ending::{absent_picture, ended_status};
pub use errors::Errors;
pub use frame_times::FrameTimes;
pub use from_piece::FromPiece;
pub use input::Input;
pub use loss_lines::LossLines;
pub use misuse::is_output_refused;
pub use other_pictures::OtherPictures;
pub use output::{Output, OutputFile, PictureFiles};
pub use refusal_places::RefusalPlaces;
pub use told::{
    is_progress_told, is_told_more, tell_absent_picture, tell_container, tell_no_piece,
    tell_outcome, tell_reason,
};
pub use y4m_header::StatedSize;
