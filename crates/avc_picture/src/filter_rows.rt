//! The deblocking filter one row late, and what it asks of the last rows of macroblocks (8.7).

ghost use Rattle.std.specs.Prelude.{◌≡◌, ℕ, suc, ◌+◌, ◌-◌, ◌/◌, ◌%◌, ◌^◌, ◌<◌, true, [], length};
ghost use Rattle.std.specs.Prelude.{IfOk, Some};
ghost use Rattle.avc_types.specs.Macroblock.{p_skip};
ghost use Rattle.avc_types.specs.Pictures.{Coded};
ghost use Rattle.avc_plane.specs.Frames.{planes_of, AreSized};
ghost use Rattle.avc_deblock.specs.ByInfo.{row_by_info};
ghost use Rattle.avc_deblock.specs.FilterInfo.{FirstStandStill, Names};
ghost use Rattle.avc_deblock.specs.OneEdge.{HasRoom};
ghost use Rattle.avc_picture_core.specs.Canvas.{address_of};
ghost use Rattle.avc_picture.specs.RowLate.{filtered_rows, AreInfoOf, FiltersUpTo};
ghost use Rattle.avc_motion.specs.Motion.{AreOfOneMotion, has_one_motion, still_blocks};
ghost use Rattle.avc_neigh.specs.TotalCoeffs.{total_coeffs_of};
ghost use Rattle.std.specs.Option.{option_copied};
ghost use Rattle.avc_picture.specs.FilterRows.{kept_info, AddsInfo};

use crate::filter_info::set_filter_info;
use crate::slice_context::SliceContext;
use avc_deblock::laws::still_rows_stay;
use avc_deblock::{MbInfo, row};
use avc_neigh::NeighbourInfo;
use avc_picture_core::MbPlace;
use avc_plane::Planes;
use avc_types::{FilteredEdges, History, Mb, Mv, OutOfMemory};
use std::alloc::Global;
use std::marker::Model;
use std::mem::swap;

/// What stands for the info of a macroblock that is not decoded yet.
const NO_FACTS: MbInfo = MbInfo {
    is_intra: true,
    coefficients: 0,
    pictures: [0; 4],
    vectors: [Mv { x: 0, y: 0 }; 16],
    qp: 0,
    slice: 0,
    filtered_edges: FilteredEdges::NoEdges,
    offset_a: 0,
    offset_b: 0,
};

/// What the filter asks of a picture's macroblocks so far. A contract sees the info of all of them,
/// in decoding order; three rows keep those that can still be asked for: a row is filtered when the
/// one below it is built, by its own info and those of the row above it.
#[derive(Drop)]
pub(crate) struct FilterRows {
    /// In macroblocks.
    width: usize,

    /// The row of the macroblock that comes next.
    current: Vec<MbInfo>,

    /// The row above it.
    last: Vec<MbInfo>,

    /// The row above that.
    above: Vec<MbInfo>,

    /// For each of these rows the number of the frame that all its macroblocks stand still in, of
    /// the row of the macroblock that comes next all so far; nothing where there is none such, or
    /// it is not known.
    current_still: Option<u8>,
    last_still: Option<u8>,
    above_still: Option<u8>,

    /// Where the macroblock stands that comes next.
    column: usize,
    row: usize,

    info: History<MbInfo>,
}

impl Model for FilterRows {
    ghost use Rattle.avc_picture.specs.RowLate.{FilterInfo};
    ghost use Rattle.avc_picture.specs.FilterRows.{AreLastRows, AreStillIn};

    ghost Value = { FilterInfo };

    ghost view = { λ r. record { width = r.width; info = r.info.items } };

    ghost invariant = { λ r. AreLastRows r.info.items r.width r.column r.row r.current.items r.last.items
        r.above.items × AreStillIn r.width r.column r.current_still r.last_still r.above_still
        r.current.items r.last.items r.above.items };
}

/// The number of the frame that the first macroblocks of a row stand still in, with one more of
/// them: `before` is that of the `count` before it, and `frame` the one of its reference index 0.
fn still_with(before: Option<u8>, count: usize, stands_still: bool, frame: u8) -> Option<u8>
    ensures still { (n : ℕ) → result ≡ Some n → stands_still ≡ true }
    ensures frame { (n : ℕ) → result ≡ Some n → frame ≡ n }
    ensures before { (n : ℕ) → result ≡ Some n → 0 < count → before ≡ Some n }
{
    if stands_still && (count == 0 || before == Some(frame)) {
        Some(frame)
    } else {
        None
    }
}

/// Whether two rows stand still in one frame, by the numbers of theirs.
fn stand_still_alike(above: Option<u8>, below: Option<u8>) -> bool
    ensures { result ≡ true → (n : ℕ) × (above ≡ Some n) × (below ≡ Some n) }
{
    match (above, below) {
        (Some(m), Some(n)) => m == n,
        _ => false,
    }
}

/// Filters a row of macroblocks as `row` does. Where both rows are known to stand still in one
/// frame all strengths are 0, and nothing is to be done (8.7.2.1).
fn filter_row<const PAD: usize>(
    planes: &mut Planes<PAD>,
    above: &[MbInfo],
    info: &[MbInfo],
    row_number: usize,
    chroma_qp_index_offset: i8,
    are_still: bool,
)
    requires same { length above.now ≡ length info.now }
    requires room { (column : ℕ) → column < length info.now →
        HasRoom column row_number (planes_of planes.old) }
    requires still { are_still ≡ true → (frame : ℕ) ×
        FirstStandStill frame (length above.now) above.now ×
        FirstStandStill frame (length info.now) info.now }
    ensures lines { planes_of planes.new
        ≡ row_by_info chroma_qp_index_offset row_number above.now info.now (length info.now)
        (planes_of planes.old) }
{
    if are_still {
        still_rows_stay();
        return;
    }
    row(planes, above, info, row_number, chroma_qp_index_offset);
}

impl FilterRows {
    /// For a picture of this width in macroblocks, before its first macroblock. Only this call
    /// takes memory.
    pub(crate) fn new(alloc: Global, width: usize) -> Result<Self, OutOfMemory>
        requires { 0 < width }
        ensures { IfOk result (λ rows. rows ≡ record { width = width; info = [] }) }
    {
        Ok(FilterRows {
            width,
            current: vec![in alloc; NO_FACTS; width]?,
            last: vec![in alloc; NO_FACTS; width]?,
            above: vec![in alloc; NO_FACTS; width]?,
            current_still: None,
            last_still: None,
            above_still: None,
            column: 0,
            row: 0,
            info: History::new(),
        })
    }

    /// In macroblocks.
    pub(crate) fn width(&self) -> usize
        ensures { result ≡ self.now.width }
    {
        self.width
    }

    /// Where the macroblock stands that comes next.
    pub(crate) fn place(&self) -> MbPlace
        ensures column { result.column < self.now.width }
        ensures address { address_of self.now.width result ≡ length self.now.info }
    {
        MbPlace {
            column: self.column,
            row: self.row,
        }
    }

    /// The info of the macroblock with this address, where it is kept: of those so far in the row
    /// of the macroblock that comes next, and in the two rows above that.
    pub(crate) fn info(&self, address: usize) -> Option<&MbInfo>
        ensures { option_copied result ≡ kept_info self.now.width self.now.info address }
    {
        let row = address / self.width;
        let column = address % self.width;
        if self.row < row {
            return None;
        }
        match self.row - row {
            0 => self.current[..self.column].get(column),
            1 => self.last.get(column),
            2 => self.above.get(column),
            _ => None,
        }
    }

    /// Forgets all macroblocks. What is kept of them is not cleared: a row is asked for only once
    /// it is there.
    pub(crate) fn restart(&mut self)
        ensures { self.new ≡ record { width = self.old.width; info = [] } }
    {
        self.column = 0;
        self.row = 0;
        self.info = History::new();
    }

    /// Filters the last whole row, where there is one.
    pub(crate) fn filter_last_row<const PAD: usize>(
        &self,
        planes: &mut Planes<PAD>,
        chroma_qp_index_offset: i8,
    )
        requires room { (column : ℕ) → column < self.now.width →
            HasRoom column (length self.now.info / self.now.width - 1) (planes_of planes.old) }
        ensures sized { (width height : ℕ) → AreSized width height (planes_of planes.old) →
            AreSized width height (planes_of planes.new) }
        ensures lines { (c : Coded) (names : Names) →
            AreInfoOf c names chroma_qp_index_offset self.now
            → FiltersUpTo c (filtered_rows self.now.width (length self.now.info))
            (length self.now.info / self.now.width)
            (planes_of planes.old) (planes_of planes.new) }
    {
        if self.row > 0 {
            filter_row(
                planes,
                &self.above,
                &self.last,
                self.row - 1,
                chroma_qp_index_offset,
                stand_still_alike(self.above_still, self.last_still),
            );
        }
    }

    /// Filters the row above that of the macroblock that comes next, where this is the last of its
    /// row and is built. Inside a row nothing is done.
    pub(crate) fn filter_late<const PAD: usize>(
        &self,
        planes: &mut Planes<PAD>,
        chroma_qp_index_offset: i8,
    )
        requires room { (column : ℕ) → column < self.now.width →
            HasRoom column (length self.now.info / self.now.width - 1) (planes_of planes.old) }
        ensures sized { (width height : ℕ) → AreSized width height (planes_of planes.old) →
            AreSized width height (planes_of planes.new) }
        ensures lines { (c : Coded) (names : Names) →
            AreInfoOf c names chroma_qp_index_offset self.now
            → FiltersUpTo c (filtered_rows self.now.width (length self.now.info))
            (filtered_rows self.now.width (suc (length self.now.info))) (planes_of planes.old)
            (planes_of planes.new) }
        ensures inside { 0 < suc (length self.now.info) % self.now.width → planes_of planes.new
            ≡ planes_of planes.old }
    {
        if self.column + 1 == self.width {
            self.filter_last_row(planes, chroma_qp_index_offset);
        }
    }

    /// Adds the info of the macroblock that comes next, of which neighbours are told this; it may
    /// be known to be skipped and to stand still.
    pub(crate) fn put<const PAD: usize>(
        &mut self,
        mb: &Mb,
        neighbour_info: &NeighbourInfo,
        slice: &SliceContext<'_, PAD>,
        stands_still: bool,
    )
        requires small { length self.old.info < 2 ^ 32 }
        requires total_coeffs { neighbour_info.now.total_coeffs ≡ total_coeffs_of mb.now.syntax }
        requires one { has_one_motion mb.now.syntax ≡ true →
            AreOfOneMotion neighbour_info.now.motion }
        requires skipped { stands_still ≡ true → mb.now.syntax ≡ p_skip }
        requires still { stands_still ≡ true → neighbour_info.now.motion ≡ still_blocks }
        ensures info { AddsInfo mb.now neighbour_info.now.motion slice.now self.old self.new }
        ensures blocks { length neighbour_info.now.motion ≡ 16 }
    {
        let frame = slice.frame_numbers[0];
        self.current_still = still_with(self.current_still, self.column, stands_still, frame);
        let info = &mut self.current[self.column];
        set_filter_info(info, mb, neighbour_info, slice);
        self.info = self.info.with(&self.current[self.column]);
        self.column += 1;
        if self.column == self.width {
            // the oldest row gives its place to the next
            swap(&mut self.above, &mut self.last);
            swap(&mut self.last, &mut self.current);
            self.above_still = self.last_still;
            self.last_still = self.current_still;
            self.column = 0;
            self.row += 1;
        }
    }
}
