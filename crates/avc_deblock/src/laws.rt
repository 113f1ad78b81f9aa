//! Laws of the filter: its order, and how far it reaches.

ghost use Rattle.avc_deblock.specs.ByInfo.{EdgeIsThePictures, RowIsThePictures};
ghost use Rattle.avc_deblock.specs.Locality.{RowChangesItsRows, RowReadsNoneBelow};
ghost use Rattle.avc_deblock.specs.Locality.{RowCommutesWithBlocksBelow};
ghost use Rattle.avc_deblock.specs.Laws.{RowsInOrder, InfoOfFirstMacroblocksStays};
ghost use Rattle.avc_deblock.specs.Laws.{StillRowsStay, TwoEdgesOfAStep};

/// The line filters of a picture are those of its rows of macroblocks, one row after another.
#[tactic(auto, using(crate::proofs::FilteredPictures::rows_are_all))]
pub fn rows_in_order()
    ensures { RowsInOrder }
{}

/// The info of a picture's first macroblocks is that of every picture that begins with them.
pub fn info_of_first_macroblocks_stays()
    ensures { InfoOfFirstMacroblocksStays }
{}

/// Where its info is a coded picture's, an edge is filtered as by the picture's line filters of
/// that edge.
pub fn edge_by_info_is_the_pictures()
    ensures { EdgeIsThePictures }
{}

/// Where its info is a coded picture's, a row is filtered as by the picture's line filters of that
/// row.
pub fn row_by_info_is_the_pictures()
    ensures { RowIsThePictures }
{}

/// The filter of a row of macroblocks neither reads nor changes a sample below the row, and changes
/// none further above it than three rows of luma and one of chroma.
pub fn row_is_local()
    ensures changes { RowChangesItsRows }
    ensures reads { RowReadsNoneBelow }
    ensures commutes { RowCommutesWithBlocksBelow }
{}

/// A row of macroblocks that stand still below one that stands still in the same frame stays as it
/// is.
pub fn still_rows_stay()
    ensures { StillRowsStay }
{}

/// The second of two edges filters what the first left.
pub fn two_edges_of_a_step()
    ensures { TwoEdgesOfAStep }
{}
