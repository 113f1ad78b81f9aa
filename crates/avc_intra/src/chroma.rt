//! The prediction of chroma (8.3.4).

ghost use Rattle.std.specs.Prelude.{◌≡◌, ℕ, ◌+◌, ◌*◌, ◌/◌, ◌<◌, ◌≤◌, true, length, slice_index};
ghost use Rattle.avc_intra.specs.Neighbourhood.{Around, Predicts};
ghost use Rattle.avc_intra.specs.Chroma.{ShowsChroma, can_predict_chroma, intra_chroma};
ghost use Rattle.avc_intra.specs.Chroma.{predict_chroma, predict_dc_chroma, sum_above, sum_left};
ghost use Rattle.avc_intra.specs.InRows.{IsSeen};
ghost use Rattle.avc_plane.specs.Strided.{IsRoom, IsStridedSet};

use crate::beside::{sum_above4, sum_left4};
use crate::lines::lay_same_lines;
use crate::means::{mean_of_sides4, sum_of_four};
use crate::plane::{lay_plane_beside, plane};
use crate::rows::{same_columns, same_rows, set_row};
use crate::sides::Sides;
use crate::straight::{lay_horizontal, lay_vertical};
use avc_plane::RowsPlace;
use avc_types::Fault;

/// The prediction of the chroma samples of an intra macroblock (Table 8-5).
#[derive(Clone, Copy)]
pub enum ModeChroma {
    Dc,
    Horizontal,
    Vertical,
    Plane,
}

impl ModeChroma {
    /// The sides that the mode needs are available.
    pub fn is_available(self, sides: Sides) -> bool
        ensures { result ≡ can_predict_chroma sides self }
    {
        match self {
            ModeChroma::Dc => true,
            ModeChroma::Horizontal => sides.left,
            ModeChroma::Vertical => sides.above,
            ModeChroma::Plane => sides.has_corner_sides(),
        }
    }
}

/// The samples of one chroma component around a macroblock, before deblocking. What stands on a
/// side that is not available counts for nothing.
#[derive(Clone, Copy)]
pub struct AroundChroma {
    /// The samples above, from left to right.
    pub above: [u8; 8],
    /// The samples on the left, from above down.
    pub left: [u8; 8],
    /// The sample above to the left.
    pub corner: u8,
    /// Which of them are available.
    pub sides: Sides,
}

/// The DC of the 4x4 block in this column and row of blocks, from the sums of its sides: off the
/// diagonal one side goes before the other.
#[inline(always)]
fn dc_of_block(sides: Sides, above: u16, left: u16, column: usize, row: usize) -> u8
    requires column { column < 2 }
    requires row { row < 2 }
    requires above { above ≤ 1020 }
    requires left { left ≤ 1020 }
    ensures { (p : Around) → (sides.above ≡ true → above ≡ sum_above p column) →
        (sides.left ≡ true → left ≡ sum_left p row) →
        result ≡ predict_dc_chroma sides p column row }
{
    let counts_above = sides.above && (row <= column || !sides.left);
    let counts_left = sides.left && (column <= row || !sides.above);
    mean_of_sides4(counts_above, counts_left, above, left)
}

/// One row of samples across a row of blocks, each block with its DC.
#[inline(always)]
fn row_of_two(left: u8, right: u8) -> [u8; 8]
    ensures { (f : ℕ → ℕ) → left ≡ f 0 → right ≡ f 1 → (x : ℕ) → x < 8 → slice_index result x
        ≡ f (x / 4) }
{
    [left, left, left, left, right, right, right, right]
}

impl AroundChroma {
    /// The DC of the 4x4 block in this column and row of blocks.
    fn dc(&self, column: usize, row: usize) -> u8
        requires column { column < 2 }
        requires row { row < 2 }
        ensures { (p : Around) → ShowsChroma p self.now →
            result ≡ predict_dc_chroma self.now.sides p column row }
    {
        let above = sum_of_four(&self.above, 4 * column);
        let left = sum_of_four(&self.left, 4 * row);
        dc_of_block(self.sides, above, left, column, row)
    }

    /// One row of samples across this row of blocks, each block with its DC.
    fn dc_row(&self, row: usize) -> [u8; 8]
        requires { row < 2 }
        ensures { (p : Around) → ShowsChroma p self.now → (x : ℕ) → x < 8 → slice_index result x
            ≡ predict_dc_chroma self.now.sides p (x / 4) row }
    {
        row_of_two(self.dc(0, row), self.dc(1, row))
    }

    /// Intra_Chroma_DC.
    fn dc_samples(&self) -> [u8; 64]
        ensures { (p : Around) → ShowsChroma p self.now → (x y : ℕ) → x < 8 → y < 8 →
            slice_index result (8 * y + x) ≡ predict_dc_chroma self.now.sides p (x / 4) (y / 4) }
    {
        let rows = [self.dc_row(0), self.dc_row(1)];
        let mut samples = [0; 64];
        for y in 0..8 {
            set_row(&mut samples, 8 * y, &rows[y / 4]);
        }
        samples
    }

    /// The prediction by a mode whose sides are available.
    pub fn predicted(&self, mode: ModeChroma) -> [u8; 64]
        requires { can_predict_chroma self.now.sides mode ≡ true }
        ensures { (p : Around) → ShowsChroma p self.now → (x y : ℕ) → x < 8 → y < 8 →
            slice_index result (8 * y + x) ≡ predict_chroma self.now.sides p mode x y }
    {
        match mode {
            ModeChroma::Dc => self.dc_samples(),
            ModeChroma::Horizontal => same_columns(&self.left),
            ModeChroma::Vertical => same_rows(&self.above),
            ModeChroma::Plane => plane::<8, 34, 64>(&self.above, &self.left, self.corner),
        }
    }
}

/// Predicts the samples of one chroma component of an intra macroblock (clause 8.3.4), row by row;
/// `IntraUnavailable` where the mode needs a side that is not available.
pub fn predict_chroma(around: &AroundChroma, mode: ModeChroma) -> Result<[u8; 64], Fault>
    ensures { (p : Around) → ShowsChroma p around.now →
        Predicts 8 8 (intra_chroma around.now.sides p mode) result }
{
    if !mode.is_available(around.sides) {
        return Err(Fault::IntraUnavailable);
    }
    Ok(around.predicted(mode))
}

/// Lays Intra_Chroma_DC.
#[inline(always)]
fn lay_dc(rows: &mut [u8], at: RowsPlace, sides: Sides)
    requires apart { 8 ≤ at.stride }
    requires room { IsRoom 8 8 at.first at.stride (length rows.old) }
    ensures { (p : Around) → IsSeen p sides 8 at.first at.stride rows.old →
        IsStridedSet 8 8 at.first at.stride (λ x y. predict_dc_chroma sides p (x / 4) (y / 4))
        rows.old rows.new }
{
    let above = [sum_above4(rows, at, 0), sum_above4(rows, at, 4)];
    let left = [sum_left4(rows, at, 0), sum_left4(rows, at, 4)];
    let upper = row_of_two(
        dc_of_block(sides, above[0], left[0], 0, 0),
        dc_of_block(sides, above[1], left[0], 1, 0),
    );
    let lower = row_of_two(
        dc_of_block(sides, above[0], left[1], 0, 1),
        dc_of_block(sides, above[1], left[1], 1, 1),
    );
    let middle = RowsPlace {
        first: at.first + 4 * at.stride,
        stride: at.stride,
    };
    lay_same_lines::<8, 4>(&upper, rows, at);
    lay_same_lines::<8, 4>(&lower, rows, middle);
}

/// Lays the prediction of one chroma component of a macroblock (clause 8.3.4) into its place in
/// rows, by a mode whose sides are available, from the samples that stand around it there.
pub fn lay_chroma(rows: &mut [u8], at: RowsPlace, sides: Sides, mode: ModeChroma)
    requires apart { 8 ≤ at.stride }
    requires room { IsRoom 8 8 at.first at.stride (length rows.old) }
    requires mode { can_predict_chroma sides mode ≡ true }
    ensures long { length rows.new ≡ length rows.old }
    ensures samples { (p : Around) → IsSeen p sides 8 at.first at.stride rows.old →
        IsStridedSet 8 8 at.first at.stride (predict_chroma sides p mode) rows.old rows.new }
{
    match mode {
        ModeChroma::Dc => lay_dc(rows, at, sides),
        ModeChroma::Horizontal => lay_horizontal::<8>(rows, at),
        ModeChroma::Vertical => lay_vertical::<8>(rows, at),
        ModeChroma::Plane => lay_plane_beside::<8, 34>(rows, at),
    }
}
