//! A NAL unit (7.3.1), with its place in the stream.

use avc_types::Bytes;

/// A unit of a byte stream (a NAL unit, 7.3.1).
#[derive(Drop)]
pub struct Unit {
    /// Its place among the stream's units, from 0.
    pub index: u64,

    /// The place of its first byte in the stream, in bytes from 0.
    pub offset: u64,

    /// The number of its bytes, the first one included.
    pub length: u64,

    /// Its first byte: forbidden_zero_bit, nal_ref_idc and nal_unit_type.
    pub header: u8,

    /// The bytes after the first, with their emulation prevention, or none where the unit is too
    /// long.
    pub body: Option<Bytes>,
}
