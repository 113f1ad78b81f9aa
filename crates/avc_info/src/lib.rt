//! What a byte stream is, told to people and to programs.
#![tactic(auto)]

mod form;
mod info_lines;
mod json;
pub mod laws;
mod listing_json;
mod noting;
mod picture_text;
mod program;
mod refusals;
mod refused_set;
mod sizes;
mod slice_counts;
mod stream_facts;
mod telling;
mod text;

pub use avc_sequence::{Crop, SequenceFacts, Size, bit_rate, duration, frame_rate, rate_ratio};
pub use form::{ForPrograms, InfoForm};
pub use info_lines::InfoLines;
pub use json::info_json;
pub use program::{info, run_info};
pub use refusals::{Refusal, RefusalKind, Refusals};
pub use sizes::Sizes;
pub use slice_counts::SliceCounts;
pub use stream_facts::StreamFacts;
pub use telling::{MacroblockCommand, tell};
pub use text::{info_text, profile_name};
