//! The prediction of 4x4 luma blocks (8.3.1.2).

ghost use Rattle.std.specs.Prelude.{◌≡◌, ℕ, ◌≤◌, length, pos, true};
ghost use Rattle.avc_intra.specs.declared.sides.Sides.{Sides};
ghost use Rattle.avc_plane.specs.Strided.{IsRoom, IsStridedSet};
ghost use Rattle.avc_intra.specs.InRows.{IsSeen4x4};
ghost use Rattle.avc_intra.specs.Neighbourhood.{Around, Predicts, top, left_of};
ghost use Rattle.avc_intra.specs.Luma4x4.{Shows4x4, can_predict4x4, extended, intra4x4, predict4x4};
ghost use Rattle.avc_intra.specs.Luma4x4.{predict_dc4x4};
ghost use Rattle.avc_intra.specs.Lines.{block4x4, line_above, line_left, line_round};

use crate::beside::{above, corner, left, sum_above4, sum_left4};
use crate::directional;
use crate::lines::{lay_block, lay_same_lines};
use crate::means::{mean_of_sides4, sum_of_four};
use crate::sides::Sides;
use crate::straight::{lay_horizontal, lay_vertical};
use avc_plane::RowsPlace;
use avc_types::Fault;

/// The prediction of a 4x4 luma block (Table 8-2).
#[derive(Clone, Copy)]
pub enum Mode4x4 {
    Vertical,
    Horizontal,
    Dc,
    DiagonalDownLeft,
    DiagonalDownRight,
    VerticalRight,
    HorizontalDown,
    VerticalLeft,
    HorizontalUp,
}

impl Mode4x4 {
    /// The sides that the mode needs are available.
    pub fn is_available(self, sides: Sides) -> bool
        ensures { result ≡ can_predict4x4 sides self }
    {
        match self {
            Mode4x4::Vertical | Mode4x4::DiagonalDownLeft | Mode4x4::VerticalLeft => sides.above,
            Mode4x4::Horizontal | Mode4x4::HorizontalUp => sides.left,
            Mode4x4::Dc => true,
            Mode4x4::DiagonalDownRight | Mode4x4::VerticalRight | Mode4x4::HorizontalDown => {
                sides.has_corner_sides()
            }
        }
    }
}

/// The samples around a 4x4 luma block, before deblocking. What stands on a side that is not
/// available counts for nothing.
#[derive(Clone, Copy)]
pub struct Around4x4 {
    /// The four samples above the block and the four above to the right, from left to right.
    pub above: [u8; 8],
    /// The four samples left of the block, from above down.
    pub left: [u8; 4],
    /// The sample above to the left.
    pub corner: u8,
    /// Which of them are available.
    pub sides: Sides,
}

impl Around4x4 {
    /// The eight samples above, with the last of all twice. Where those to the right are not
    /// available, the last one above the block stands for them.
    fn line_above(&self) -> [u8; 9]
        requires { self.now.sides.above ≡ true }
        ensures { (p : Around) (sides : Sides) → self.now.sides ≡ sides → Shows4x4 p self.now →
            result ≡ line_above (extended sides p) }
    {
        let t = &self.above;
        if self.sides.above_right {
            [t[0], t[1], t[2], t[3], t[4], t[5], t[6], t[7], t[7]]
        } else {
            [t[0], t[1], t[2], t[3], t[3], t[3], t[3], t[3], t[3]]
        }
    }

    /// The samples on the left, with the last going on.
    fn line_left(&self) -> [u8; 9]
        requires { self.now.sides.left ≡ true }
        ensures { (p : Around) (sides : Sides) → self.now.sides ≡ sides → Shows4x4 p self.now →
            result ≡ line_left (extended sides p) }
    {
        let l = &self.left;
        [l[0], l[1], l[2], l[3], l[3], l[3], l[3], l[3], l[3]]
    }

    /// The samples from the lowest on the left up to the corner and on to the last above the block.
    fn line_round(&self) -> [u8; 9]
        requires above { self.now.sides.above ≡ true }
        requires left { self.now.sides.left ≡ true }
        requires corner { self.now.sides.corner ≡ true }
        ensures { (p : Around) (sides : Sides) → self.now.sides ≡ sides → Shows4x4 p self.now →
            result ≡ line_round (extended sides p) }
    {
        let t = &self.above;
        let l = &self.left;
        [l[3], l[2], l[1], l[0], self.corner, t[0], t[1], t[2], t[3]]
    }

    /// Intra_4x4_Vertical.
    fn vertical(&self) -> [u8; 16]
        requires { self.now.sides.above ≡ true }
        ensures { (p : Around) → Shows4x4 p self.now →
            result ≡ block4x4 (λ x y. top (extended self.now.sides p) (pos x)) }
    {
        let [a, b, c, d, ..] = self.above;
        [a, b, c, d, a, b, c, d, a, b, c, d, a, b, c, d]
    }

    /// Intra_4x4_Horizontal.
    fn horizontal(&self) -> [u8; 16]
        requires { self.now.sides.left ≡ true }
        ensures { (p : Around) → Shows4x4 p self.now →
            result ≡ block4x4 (λ x y. left_of (extended self.now.sides p) (pos y)) }
    {
        let [a, b, c, d] = self.left;
        [a, a, a, a, b, b, b, b, c, c, c, c, d, d, d, d]
    }

    /// Intra_4x4_DC.
    fn dc(&self) -> [u8; 16]
        ensures { (p : Around) → Shows4x4 p self.now →
            result ≡ block4x4 (λ x y. predict_dc4x4 self.now.sides (extended self.now.sides p)) }
    {
        let above = sum_of_four(&self.above, 0);
        let left = sum_of_four(&self.left, 0);
        [mean_of_sides4(self.sides.above, self.sides.left, above, left); 16]
    }

    /// The prediction by a mode whose sides are available.
    pub fn predicted(&self, mode: Mode4x4) -> [u8; 16]
        requires { can_predict4x4 self.now.sides mode ≡ true }
        ensures { (p : Around) → Shows4x4 p self.now →
            result ≡ block4x4 (predict4x4 self.now.sides (extended self.now.sides p) mode) }
    {
        match mode {
            Mode4x4::Vertical => self.vertical(),
            Mode4x4::Horizontal => self.horizontal(),
            Mode4x4::Dc => self.dc(),
            Mode4x4::DiagonalDownLeft => directional::diagonal_down_left(&self.line_above()),
            Mode4x4::DiagonalDownRight => directional::diagonal_down_right(&self.line_round()),
            Mode4x4::VerticalRight => directional::vertical_right(&self.line_round()),
            Mode4x4::HorizontalDown => directional::horizontal_down(&self.line_round()),
            Mode4x4::VerticalLeft => directional::vertical_left(&self.line_above()),
            Mode4x4::HorizontalUp => directional::horizontal_up(&self.line_left()),
        }
    }
}

/// Predicts a 4x4 luma block (clause 8.3.1.2): its samples row by row, or `IntraUnavailable` where
/// the mode needs a side that is not available.
pub fn predict4(around: &Around4x4, mode: Mode4x4) -> Result<[u8; 16], Fault>
    ensures { (p : Around) → Shows4x4 p around.now →
        Predicts 4 4 (intra4x4 around.now.sides p mode) result }
{
    if !mode.is_available(around.sides) {
        return Err(Fault::IntraUnavailable);
    }
    Ok(around.predicted(mode))
}

/// The samples around the block at this place in rows.
#[inline(always)]
fn read_around(rows: &[u8], at: RowsPlace, sides: Sides) -> Around4x4
    requires apart { 4 ≤ at.stride }
    requires room { IsRoom 4 4 at.first at.stride (length rows.now) }
    ensures sides { result.sides ≡ sides }
    ensures shows { (p : Around) → IsSeen4x4 p sides at.first at.stride rows.now →
        Shows4x4 p result }
{
    Around4x4 {
        above: above::<8>(rows, at),
        left: left::<4, 4>(rows, at),
        corner: corner(rows, at),
        sides,
    }
}

/// Lays the samples of a block, row by row.
#[inline(always)]
fn lay_samples(samples: &[u8; 16], rows: &mut [u8], at: RowsPlace)
    requires apart { 4 ≤ at.stride }
    requires room { IsRoom 4 4 at.first at.stride (length rows.old) }
    ensures { (f : ℕ → ℕ → ℕ) → samples.now ≡ block4x4 f →
        IsStridedSet 4 4 at.first at.stride f rows.old rows.new }
{
    lay_block::<4, 4, 16>(samples, rows, at);
}

/// Lays the prediction of a 4x4 luma block (clause 8.3.1.2) into its place in rows, by a mode whose
/// sides are available, from the samples that stand around it there.
pub fn lay4x4(rows: &mut [u8], at: RowsPlace, sides: Sides, mode: Mode4x4)
    requires apart { 4 ≤ at.stride }
    requires room { IsRoom 4 4 at.first at.stride (length rows.old) }
    requires mode { can_predict4x4 sides mode ≡ true }
    ensures long { length rows.new ≡ length rows.old }
    ensures samples { (p : Around) → IsSeen4x4 p sides at.first at.stride rows.old →
        IsStridedSet 4 4 at.first at.stride (predict4x4 sides (extended sides p) mode) rows.old
        rows.new }
{
    match mode {
        Mode4x4::Vertical => lay_vertical::<4>(rows, at),
        Mode4x4::Horizontal => lay_horizontal::<4>(rows, at),
        Mode4x4::Dc => {
            let above = sum_above4(rows, at, 0);
            let left = sum_left4(rows, at, 0);
            let sample = mean_of_sides4(sides.above, sides.left, above, left);
            lay_same_lines::<4, 4>(&[sample; 4], rows, at);
        }
        Mode4x4::DiagonalDownLeft => {
            let line = read_around(rows, at, sides).line_above();
            lay_samples(&directional::diagonal_down_left(&line), rows, at);
        }
        Mode4x4::DiagonalDownRight => {
            let line = read_around(rows, at, sides).line_round();
            lay_samples(&directional::diagonal_down_right(&line), rows, at);
        }
        Mode4x4::VerticalRight => {
            let line = read_around(rows, at, sides).line_round();
            lay_samples(&directional::vertical_right(&line), rows, at);
        }
        Mode4x4::HorizontalDown => {
            let line = read_around(rows, at, sides).line_round();
            lay_samples(&directional::horizontal_down(&line), rows, at);
        }
        Mode4x4::VerticalLeft => {
            let line = read_around(rows, at, sides).line_above();
            lay_samples(&directional::vertical_left(&line), rows, at);
        }
        Mode4x4::HorizontalUp => {
            let line = read_around(rows, at, sides).line_left();
            lay_samples(&directional::horizontal_up(&line), rows, at);
        }
    }
}
