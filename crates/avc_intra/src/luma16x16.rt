//! The prediction of Intra 16x16 macroblocks (8.3.3).

ghost use Rattle.std.specs.Prelude.{◌≡◌, ℕ, ◌+◌, ◌*◌, ◌<◌, ◌≤◌, true, length, slice_index};
ghost use Rattle.avc_intra.specs.Neighbourhood.{Around, Predicts};
ghost use Rattle.avc_intra.specs.Luma16x16.{Shows16x16, can_predict16x16, intra16x16, predict16x16};
ghost use Rattle.avc_intra.specs.Luma16x16.{predict_dc16x16};
ghost use Rattle.avc_intra.specs.InRows.{IsSeen};
ghost use Rattle.avc_plane.specs.Strided.{IsRoom, IsStridedSet};

use crate::beside::{sum_above16, sum_left16};
use crate::lines::lay_same_lines;
use crate::means::{mean_of_sides16, sum_of_sixteen};
use crate::plane::{lay_plane_beside, plane};
use crate::rows::{level, same_columns, same_rows};
use crate::sides::Sides;
use crate::straight::{lay_horizontal, lay_vertical};
use avc_plane::RowsPlace;
use avc_types::Fault;

/// The prediction of the luma samples of an Intra 16x16 macroblock (Table 8-4).
#[derive(Clone, Copy)]
pub enum Mode16x16 {
    Vertical,
    Horizontal,
    Dc,
    Plane,
}

impl Mode16x16 {
    /// The sides that the mode needs are available.
    pub fn is_available(self, sides: Sides) -> bool
        ensures { result ≡ can_predict16x16 sides self }
    {
        match self {
            Mode16x16::Vertical => sides.above,
            Mode16x16::Horizontal => sides.left,
            Mode16x16::Dc => true,
            Mode16x16::Plane => sides.has_corner_sides(),
        }
    }
}

/// The samples around the luma of a macroblock, before deblocking. What stands on a side that is
/// not available counts for nothing.
#[derive(Clone, Copy)]
pub struct Around16x16 {
    /// The samples above, from left to right.
    pub above: [u8; 16],
    /// The samples on the left, from above down.
    pub left: [u8; 16],
    /// The sample above to the left.
    pub corner: u8,
    /// Which of them are available.
    pub sides: Sides,
}

impl Around16x16 {
    /// Intra_16x16_DC.
    fn dc(&self) -> u8
        ensures { (p : Around) → Shows16x16 p self.now → result ≡ predict_dc16x16 self.now.sides p }
    {
        let above = sum_of_sixteen(&self.above);
        let left = sum_of_sixteen(&self.left);
        mean_of_sides16(self.sides.above, self.sides.left, above, left)
    }

    /// The prediction by a mode whose sides are available.
    pub fn predicted(&self, mode: Mode16x16) -> [u8; 256]
        requires { can_predict16x16 self.now.sides mode ≡ true }
        ensures { (p : Around) → Shows16x16 p self.now → (x y : ℕ) → x < 16 → y < 16 →
            slice_index result (16 * y + x) ≡ predict16x16 self.now.sides p mode x y }
    {
        match mode {
            Mode16x16::Vertical => same_rows(&self.above),
            Mode16x16::Horizontal => same_columns(&self.left),
            Mode16x16::Dc => level(self.dc()),
            Mode16x16::Plane => plane::<16, 5, 256>(&self.above, &self.left, self.corner),
        }
    }
}

/// Predicts the luma samples of an Intra 16x16 macroblock (clause 8.3.3), row by row;
/// `IntraUnavailable` where the mode needs a side that is not available.
pub fn predict16(around: &Around16x16, mode: Mode16x16) -> Result<[u8; 256], Fault>
    ensures { (p : Around) → Shows16x16 p around.now →
        Predicts 16 16 (intra16x16 around.now.sides p mode) result }
{
    if !mode.is_available(around.sides) {
        return Err(Fault::IntraUnavailable);
    }
    Ok(around.predicted(mode))
}

/// Lays the prediction of the luma of a macroblock (clause 8.3.3) into its place in rows, by a mode
/// whose sides are available, from the samples that stand around it there.
pub fn lay16x16(rows: &mut [u8], at: RowsPlace, sides: Sides, mode: Mode16x16)
    requires apart { 16 ≤ at.stride }
    requires room { IsRoom 16 16 at.first at.stride (length rows.old) }
    requires mode { can_predict16x16 sides mode ≡ true }
    ensures long { length rows.new ≡ length rows.old }
    ensures samples { (p : Around) → IsSeen p sides 16 at.first at.stride rows.old →
        IsStridedSet 16 16 at.first at.stride (predict16x16 sides p mode) rows.old rows.new }
{
    match mode {
        Mode16x16::Vertical => lay_vertical::<16>(rows, at),
        Mode16x16::Horizontal => lay_horizontal::<16>(rows, at),
        Mode16x16::Dc => {
            let above = sum_above16(rows, at);
            let left = sum_left16(rows, at);
            let sample = mean_of_sides16(sides.above, sides.left, above, left);
            lay_same_lines::<16, 16>(&[sample; 16], rows, at);
        }
        Mode16x16::Plane => lay_plane_beside::<16, 5>(rows, at),
    }
}
