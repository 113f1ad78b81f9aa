//! Transform coefficient levels in their ranges.

ghost use Rattle.std.specs.Prelude.{[], All};
ghost use Rattle.avc_types.specs.MacroblockFields.{residual_of};
ghost use Rattle.avc_mbsyntax.specs.Ranges.{AreSmall, IsResidual};

use avc_types::{BlockLevels, Levels};

/// The levels of a macroblock whose luma blocks have sixteen each.
#[derive(Clone, Copy)]
pub(crate) struct Levels4x4<'a> {
    pub blocks: &'a BlockLevels<16>,

    ghost in_range: { IsResidual (residual_of [] blocks.now) },
}

/// The levels of an Intra 16x16 macroblock: those of DC, and those of blocks.
#[derive(Clone, Copy)]
pub(crate) struct Levels16x16<'a> {
    pub dc: &'a Levels<16>,

    pub blocks: &'a BlockLevels<15>,

    ghost in_range: { IsResidual (residual_of dc.now blocks.now) },
}

/// The levels of a chroma component: those of DC, and those of blocks.
#[derive(Clone, Copy)]
pub(crate) struct ChromaLevels<'a> {
    pub dc: &'a Levels<4>,

    pub ac: &'a [Levels<15>; 4],

    ghost small_dc: { AreSmall dc.now },
    ghost small_ac: { All AreSmall ac.now },
}
