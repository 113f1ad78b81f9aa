//! A macroblock of the syntax (7.3.5).

use crate::levels::Levels;
use crate::macroblock::{Mvd, PMbType};
use std::marker::Model;

/// The coded differences of one macroblock (7.3.5.3). Where a block is not coded its levels are all
/// 0. MAXN is how many levels a luma block has: 16, and 15 in an Intra 16x16 macroblock, whose DC
/// levels stand apart.
#[derive(Clone, Copy)]
pub struct BlockLevels<const MAXN: usize> {
    /// CodedBlockPatternLuma, 0 to 15: a bit for each 8x8 quarter.
    pub luma_pattern: u8,

    /// CodedBlockPatternChroma, 0 to 2.
    pub chroma_pattern: u8,

    /// -26 to 25; 0 where it is not coded.
    pub mb_qp_delta: i8,

    /// Of the luma blocks, in block order.
    pub luma: [Levels<MAXN>; 16],

    /// The DC levels of Cb.
    pub cb_dc: Levels<4>,

    /// The DC levels of Cr.
    pub cr_dc: Levels<4>,

    /// Of the Cb blocks, the levels behind the first one.
    pub cb_ac: [Levels<15>; 4],

    /// Of the Cr blocks, the levels behind the first one.
    pub cr_ac: [Levels<15>; 4],
}

/// What stands in the bits of one macroblock (7.3.5).
#[derive(Drop)]
pub enum Syntax {
    /// P_Skip: inferred in a P slice by mb_skip_run.
    PSkip,

    /// I_PCM: the samples, row by row.
    IPcm {
        luma: [u8; 256],
        cb: [u8; 64],
        cr: [u8; 64],
    },

    /// I_NxN.
    INxN {
        /// For each luma block in block order: `None` where prev_intra4x4_pred_mode_flag is 1, else
        /// rem_intra4x4_pred_mode, 0 to 7.
        modes: [Option<u8>; 16],

        /// intra_chroma_pred_mode, 0 to 3.
        chroma_mode: u8,
        levels: BlockLevels<16>,
    },

    /// Intra 16x16.
    I16x16 {
        /// Intra16x16PredMode, 0 to 3.
        mode: u8,

        /// intra_chroma_pred_mode, 0 to 3.
        chroma_mode: u8,

        /// Intra16x16DCLevel.
        luma_dc: Levels<16>,
        levels: BlockLevels<15>,
    },

    /// An inter macroblock whose vectors are coded.
    PInter {
        mb_type: PMbType,

        /// ref_idx_l0 of each partition; what stands behind those means nothing.
        ref_idx: [u8; 4],

        /// mvd_l0 of each part in decoding order; what stands behind those means nothing.
        mvd: [Mvd; 16],
        levels: BlockLevels<16>,
    },
}

/// One macroblock of the syntax with its luma quantiser. A contract sees it as the standard's
/// syntax elements.
#[derive(Drop)]
pub struct Mb {
    pub syntax: Syntax,

    /// QP_Y, 0 to 51; of I_PCM and of a skipped macroblock that which it passes on (7.4.5).
    pub qp: u8,
}

impl Model for Mb {
    ghost use Rattle.avc_types.specs.Macroblock.{Mb};

    ghost Value = { Mb };

    ghost use Rattle.avc_types.specs.MacroblockFields.{mb_of};

    ghost view = { mb_of };
}
