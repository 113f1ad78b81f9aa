//! Rows that the next row of macroblocks is mostly predicted from: they are read once, from left to
//! right, before blocks are. A block is some columns of many rows, which a processor does not
//! foresee, so it would wait for each of them where a picture is larger than its cache.

use avc_picture_core::{MbPlace, ReferencePicture};
use avc_plane::{PaddedPlane, PaddedPlanes};

/// How many samples a processor takes from memory at once.
const CACHE_LINE: usize = 64;

/// Narrower pictures, in macroblocks, stay in its cache from one to the next.
const WIDE: usize = 60;

/// Reads a sample of each cache line of a row. Answers something of all of them, since what nobody
/// uses is not read.
fn read_row(row: &[u8]) -> u8 {
    let mut mixture = 0;
    for line in 0..row.len() / CACHE_LINE {
        mixture ^= row[CACHE_LINE * line];
    }
    mixture
}

/// Likewise of `count` rows from this one on, as far as there are so many.
fn read_rows<const PAD: usize>(plane: &PaddedPlane<PAD>, first: usize, count: usize) -> u8 {
    let end = plane.height().min(first.saturating_add(count));
    let mut mixture = 0;
    for y in first..end {
        mixture ^= read_row(plane.row(y));
    }
    mixture
}

/// Likewise of the samples of this row of macroblocks in all planes.
// by itself: few macroblocks begin a row
#[inline(never)]
fn read_macroblock_row<const PAD: usize>(planes: &PaddedPlanes<PAD>, row: usize) -> u8 {
    read_rows(&planes.luma, row.saturating_mul(16), 16)
        ^ read_rows(&planes.cb, row.saturating_mul(8), 8)
        ^ read_rows(&planes.cr, row.saturating_mul(8), 8)
}

/// Where a row of so many macroblocks begins at this place, reads the row below it in the picture
/// that reference index 0 names: the rows above that were read ahead before. Where macroblocks
/// stand still, rows are copied from left to right anyway. Answers something of what was read.
#[inline(always)]
pub(crate) fn read_ahead<const PAD: usize>(
    place: MbPlace,
    width: usize,
    stands_still: bool,
    references: &[Option<ReferencePicture<'_, PAD>>],
) -> u8 {
    if place.column > 0 || width < WIDE || stands_still {
        return 0;
    }
    match references.first() {
        Some(Some(picture)) => read_macroblock_row(picture.planes, place.row.saturating_add(1)),
        _ => 0,
    }
}
