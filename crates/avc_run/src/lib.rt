//! What the program does with a byte stream: its pictures decoded and written, and how that ends.
#![tactic(auto)]

mod by_set;
mod decoding;
mod digest;
mod program;
mod reporting;
mod showing;

pub use avc_console::{
    Answer, Console, Counts, Ending, MAX_UNIT, Names, PIECE, Refusals, Report, Reporter, RunFault,
    Tally, Unwatched, Watch, answer_status, cut, cut_status, end_listing, fail, fault_status,
    headers, read_once, refusal_line, run_cut, run_headers, run_units, status, tell, units,
    write_stream,
};
pub use avc_decoder::Output;
pub use avc_events::{feed_unit, flush, next_event};
pub use avc_formats::{I420, PictureFormat};
pub use by_set::decode_headed;
pub use decoding::{run, run_behind, run_watched};
pub use digest::{decode_md5, verify};
pub use program::{decode, decode_as};
pub use reporting::Reporting;
pub use showing::{drawing_of, show};
