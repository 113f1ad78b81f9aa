//! The filter of a picture, row by row of its macroblocks (8.7).

ghost use Rattle.std.specs.Prelude.{◌≡◌, ℕ, ◌+◌, ◌-◌, ◌*◌, ◌<◌, ◌≤◌, List, length, slice_index_or};
ghost use Rattle.avc_deblock.specs.declared.mb_info.MbInfo.{MbInfo as Info};
ghost use Rattle.avc_types.specs.Pictures.{Coded};
ghost use Rattle.avc_neigh.specs.declared.neighbour_info.Motion.{Motion};
ghost use Rattle.avc_plane.specs.Frames.{planes_of};
ghost use Rattle.avc_deblock.specs.Edges.{all_filtered, line_filters};
ghost use Rattle.avc_deblock.specs.OneEdge.{HasRoom};
ghost use Rattle.avc_deblock.specs.FilterInfo.{Names, HaveInfo};
ghost use Rattle.avc_deblock.specs.ByInfo.{row_by_info};

use crate::kept_limits::RowLimits;
use crate::known_mb::KnownMb;
use crate::macroblock::macroblock;
use crate::mb_info::MbInfo;
use crate::place::Place;
use avc_plane::Planes;

/// Filters the edges of a row of macroblocks, `row` of which lie above it. `info` is that of its
/// macroblocks, and `above` that of the row above it; for the first row any.
pub fn row<const PAD: usize>(
    planes: &mut Planes<PAD>,
    above: &[MbInfo],
    info: &[MbInfo],
    row: usize,
    chroma_qp_index_offset: i8,
)
    requires same { length above.now ≡ length info.now }
    requires room { (column : ℕ) → column < length info.now →
        HasRoom column row (planes_of planes.old) }
    ensures room { (column row : ℕ) →
        HasRoom column row (planes_of planes.old) → HasRoom column row (planes_of planes.new) }
    ensures lines { planes_of planes.new
        ≡ row_by_info chroma_qp_index_offset row above.now info.now (length info.now)
        (planes_of planes.old) }
{
    let _columns = planes.luma.width();
    let _rows = planes.luma.height();
    if info.is_empty() {
        return;
    }
    let first = Place {
        column: 0,
        row,
        chroma_qp_index_offset,
    };
    let mut kept = RowLimits::of(&info[0], first);
    let mut left = KnownMb::of(&info[0]);
    for column in 0..info.len() {
        let mb = KnownMb::of(&info[column]);
        macroblock(
            planes,
            mb,
            left,
            &above[column],
            &mut kept,
            Place {
                column,
                row,
                chroma_qp_index_offset,
            },
        );
        left = mb;
    }
}

/// Filters all edges of a picture of `width` columns and `height` rows of macroblocks. `info` is
/// that of its macroblocks by address.
pub fn picture<const PAD: usize>(
    planes: &mut Planes<PAD>,
    info: &[MbInfo],
    width: usize,
    height: usize,
    chroma_qp_index_offset: i8,
)
    requires all { length info.now ≡ height * width }
    requires room { (column row : ℕ) → column < width → row < height →
        HasRoom column row (planes_of planes.old) }
    ensures room { (column row : ℕ) →
        HasRoom column row (planes_of planes.old) → HasRoom column row (planes_of planes.new) }
    ensures lines { (c : Coded) (motion : List (List Motion)) (names : Names) →
        c.width ≡ width → length c.mbs ≡ height * width →
        c.chroma_qp_index_offset ≡ chroma_qp_index_offset → HaveInfo c motion names 0 info.now →
        planes_of planes.new ≡ all_filtered c motion (planes_of planes.old) (line_filters c) }
{
    for y in 0..height {
        let above = row_of(info, width, y.max(1) - 1);
        row(
            planes,
            above,
            row_of(info, width, y),
            y,
            chroma_qp_index_offset,
        );
    }
}

/// Those of one row of macroblocks.
fn row_of(info: &[MbInfo], width: usize, y: usize) -> &[MbInfo]
    requires { y * width + width ≤ length info.now }
    ensures long { length result.now ≡ width }
    ensures value { (k : ℕ) (other : Info) → k < width →
        slice_index_or result.now k other ≡ slice_index_or info.now (y * width + k) other }
{
    &info[y * width..y * width + width]
}
