//! Types of P macroblocks, and what is coded of their motion (Table 7-13, Table 7-17).

/// sub_mb_type of a P macroblock (Table 7-17): how one of its 8x8 quarters is cut into parts with a
/// vector each.
#[derive(Clone, Copy, PartialEq, Eq)]
pub enum SubMbType {
    /// P_L0_8x8: one part.
    Sub8x8,

    /// P_L0_8x4: an upper and a lower part.
    Sub8x4,

    /// P_L0_4x8: a left and a right part.
    Sub4x8,

    /// P_L0_4x4: four parts, row by row.
    Sub4x4,
}

/// mb_type 0 to 4 of a P macroblock (Table 7-13): how it is cut into partitions with a reference
/// index each.
#[derive(Clone, Copy, PartialEq, Eq)]
pub enum PMbType {
    /// P_L0_16x16.
    P16x16,

    /// P_L0_L0_16x8: an upper and a lower partition.
    P16x8,

    /// P_L0_L0_8x16: a left and a right partition.
    P8x16,

    /// P_8x8, with the sub_mb_type of each quarter.
    P8x8([SubMbType; 4]),

    /// P_8x8ref0, with the sub_mb_type of each quarter: every reference index is 0 and none is
    /// coded.
    P8x8Ref0([SubMbType; 4]),
}

/// mvd_l0 of one part (7.4.5.1): its vector less the prediction, in quarter luma samples.
#[derive(Clone, Copy, PartialEq, Eq)]
pub struct Mvd {
    /// To the right.
    pub x: i32,

    /// Down.
    pub y: i32,
}

/// A rectangle inside a macroblock that has one vector (6.4.2), in luma samples.
#[derive(Clone, Copy)]
pub struct Part {
    /// Of the upper left sample, from the left.
    pub x: u8,

    /// Of the upper left sample, from above.
    pub y: u8,

    pub width: u8,

    pub height: u8,

    /// The partition (mbPartIdx) whose reference index it takes.
    pub partition: u8,
}
