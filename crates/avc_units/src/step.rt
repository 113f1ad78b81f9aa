//! What a unit does to the open picture.

use crate::heap_slice::HeapSlice;
use avc_types::Fault;

/// What a unit does once the open picture is closed, where the unit closes it.
#[derive(Drop)]
pub enum Next {
    Nothing,

    /// The unit is refused; the state stays.
    Refusal(Fault),

    /// The open picture has this fault.
    FaultOfOpen(Fault),

    /// The unit is a faulty picture of its own.
    FaultOfOwn(Fault),

    /// The first slice of a new picture.
    Begins(HeapSlice),

    /// A further slice of the open picture.
    Continues(HeapSlice),
}

/// What a unit does to the open picture.
#[derive(Drop)]
pub struct Step {
    /// The open picture, if there is one, is closed first.
    pub closes: bool,

    pub next: Next,

    /// `next` comes also where closing was a fault. Else nothing comes then.
    pub even_after_fault: bool,
}
