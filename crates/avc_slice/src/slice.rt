//! A slice as its unit brings it.

use crate::header::Header;
use avc_types::Bytes;

/// A slice as its unit brings it.
#[derive(Drop)]
pub struct Slice {
    /// The unit's place among the stream's units, from 0.
    pub unit: u64,

    pub header: Header,

    /// The unit's RBSP (7.3.1), of which the slice data begins at the header's position.
    pub rbsp: Bytes,
}
