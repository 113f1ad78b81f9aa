//! What is written, read again: laws of the definitions alone.

ghost use Rattle.avc_make.specs.BlockWriting.{BlocksAreRead, BlocksAreWritable, SmallAreWritable};
ghost use Rattle.avc_make.specs.DataWriting.{DataIsRead, DataStandsAlone};
ghost use Rattle.avc_make.specs.MbWriting.{MbIsRead};
ghost use Rattle.avc_make.specs.SliceMbs.{CodedSlicesAreRead};

pub use avc_make_headers::laws::{header_is_read, pps_is_read, sps_is_read};
pub use avc_rbsp::laws::{
    escapes_are_removed, rbsps_are_read, words_are_codewords, words_are_read,
};

/// The bits of a residual block that has codes are read as that block, with no fault.
#[tactic(auto, using(crate::proofs::Slices::block_back))]
pub fn blocks_are_read()
    ensures { BlocksAreRead }
{}

/// A block can be written if none of its levels is above 2,063 in size.
#[tactic(auto, using(crate::proofs::Slices::small_writable))]
pub fn small_levels_are_writable()
    ensures { SmallAreWritable }
{}

/// Each block that is read can be written, and its bits are then those that were read.
pub fn blocks_are_written_as_read()
    ensures { BlocksAreWritable }
{}

/// The bits of a macroblock whose elements are in their ranges are read as that macroblock, with no
/// fault.
#[tactic(auto, using(crate::proofs::Slices::mb_is_read))]
pub fn macroblocks_are_read()
    ensures { MbIsRead }
{}

/// The data of a slice of macroblocks that can follow one another is read as those macroblocks,
/// with no fault.
#[tactic(auto, using(crate::proofs::Slices::all_data_is_read))]
pub fn data_is_read()
    ensures { DataIsRead }
{}

/// The data of a slice depends on no macroblock of another slice, but for how many stand before.
pub fn data_stands_alone()
    ensures { DataStandsAlone }
{}

/// In the unit of a slice of any macroblocks that can follow one another, header and macroblocks
/// are read as they are, with no fault, whatever the picture's earlier slices are.
#[tactic(auto, using(crate::proofs::Slices::coded_slice_back))]
pub fn coded_slices_are_read()
    ensures { CodedSlicesAreRead }
{}
