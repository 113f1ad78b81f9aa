//! What the program tells on its console, how it ends, and what it lists and cuts of a stream
//! without decoding it.
#![tactic(auto)]

mod console;
mod cutting;
mod exit;
mod fault;
mod listing;
mod messages;
mod parts;
mod program;
mod read;
mod report;
mod reporter;
mod streaming;
mod tally;
mod telling;

pub use console::{Console, Names, Unwatched, Watch};
pub use cutting::run_cut;
pub use exit::{Answer, Ending, answer_status, cut_status, fault_status, status};
pub use fault::RunFault;
pub use listing::{run_headers, run_pieces, run_units};
pub use messages::{no_piece_line, refusal_line, write_text};
pub use program::{cut, end_listing, fail, headers, pieces, tell, units};
pub use read::{MAX_UNIT, PIECE, READS, read_once};
pub use report::{Refusals, Report};
pub use reporter::{Counts, Reporter};
pub use streaming::write_stream;
pub use tally::Tally;
pub use telling::{tell_loss, tell_more};
