//! How far the data of a slice has been read.
ghost use Rattle.std.specs.Prelude.{◌≡◌};
ghost use Rattle.avc_bits.specs.Bits.{more_data};
ghost use Rattle.avc_bits.specs.Reader.{reader_bits};
ghost use Rattle.avc_mbsyntax.specs.Stages.{stage_after};

use avc_bits::BitReader;

/// What comes next in the data.
#[derive(Clone, Copy)]
pub enum Stage {
    /// A macroblock of an I slice, or mb_skip_run of a P slice.
    Next,

    /// So many skipped macroblocks, and then, where there is more data, one that is coded.
    Skipped(u32),

    /// Nothing.
    Ended,
}

/// What comes after a macroblock that is coded
pub(crate) fn stage_after(reader: &BitReader<'_>) -> Stage
    ensures { result ≡ stage_after (more_data (reader_bits reader.now)) }
{
    if reader.more_data() {
        Stage::Next
    } else {
        Stage::Ended
    }
}
