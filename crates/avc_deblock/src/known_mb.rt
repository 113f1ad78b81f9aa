//! A macroblock with what strengths ask of its blocks.

ghost use Rattle.std.specs.Prelude.{◌≡◌, false};
ghost use Rattle.avc_deblock.specs.BlockRows.{AreRowsOf};

use crate::block_rows::BlockRows;
use crate::mb_info::MbInfo;

/// A macroblock with what strengths ask of its blocks, where it is an inter macroblock.
#[derive(Clone, Copy)]
pub(crate) struct KnownMb<'a> {
    pub(crate) info: &'a MbInfo,
    pub(crate) blocks: BlockRows,

    ghost are: { info.now.is_intra ≡ false → AreRowsOf blocks info.now },
}

impl<'a> KnownMb<'a> {
    #[inline(always)]
    pub(crate) fn of(info: &'a MbInfo) -> KnownMb<'a>
        ensures { result.info ≡ info.entry }
    {
        let blocks = if info.is_intra {
            BlockRows::none()
        } else {
            BlockRows::of(info)
        };
        KnownMb { info, blocks }
    }
}
