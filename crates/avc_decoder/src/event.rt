//! What a decoder hands out.

use avc_types::{Fault, Picture};

/// What a decoder hands out, with its kind of picture.
#[derive(Drop)]
pub enum Event<P = Picture> {
    /// A decoded picture, in output order.
    Picture(P),

    /// A refusal: the unit in which the fault stands, by its place among the stream's units from 0,
    /// and the fault.
    Refused { unit: u64, fault: Fault },
}
