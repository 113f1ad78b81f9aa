//! What the filter asks of one macroblock.

use avc_types::{FilteredEdges, Mv};

/// What the deblocking filter asks of one macroblock (8.7).
#[derive(Clone, Copy)]
pub struct MbInfo {
    /// It is an intra macroblock.
    pub is_intra: bool,

    /// Bit k says that luma block k, in block order, has a transform coefficient level that is not
    /// 0. Of an intra macroblock no bit is asked.
    pub coefficients: u16,

    /// For each 8x8 quarter the reference picture, as a number that the caller gives each stored
    /// frame: equal numbers are one frame. Of an intra macroblock none is asked.
    pub pictures: [u8; 4],

    /// The vectors of the sixteen luma blocks, in block order. Of an intra macroblock none is
    /// asked.
    pub vectors: [Mv; 16],

    /// QP_Y, and 0 for I_PCM: 0 to 51.
    pub qp: u8,

    /// The number of its slice in the picture.
    pub slice: u32,

    /// disable_deblocking_filter_idc of the slice.
    pub filtered_edges: FilteredEdges,

    /// FilterOffsetA of the slice: -12 to 12.
    pub offset_a: i8,

    /// FilterOffsetB of the slice.
    pub offset_b: i8,
}
