//! Into how few rectangles with one motion the blocks of a macroblock fall.

ghost use Rattle.std.specs.Prelude.{◌≡◌, ◌<◌, true};
ghost use Rattle.avc_motion.specs.Motion.{AreOfOneMotion};
ghost use Rattle.avc_picture_core.specs.Inter.{HasWholeQuarters, IsMacroblockShape, IsQuarterShape};
ghost use Rattle.avc_picture_core.specs.Inter.{IsShape};

use avc_neigh::Motion;

/// How a square of luma samples is predicted.
#[derive(Clone, Copy)]
pub(crate) enum Shape {
    /// At once.
    Whole,

    /// In an upper and a lower half.
    WideHalves,

    /// In a left and a right half.
    TallHalves,

    /// In four quarters.
    Quarters,
}

/// Whether two blocks are inter and have the same motion.
fn are_same(first: Motion, second: Motion) -> bool
    ensures { result ≡ true → first ≡ second }
{
    match (first, second) {
        (
            Motion::Inter { ref_idx, mv },
            Motion::Inter {
                ref_idx: other,
                mv: other_mv,
            },
        ) => ref_idx == other && mv.x == other_mv.x && mv.y == other_mv.y,
        _ => false,
    }
}

/// How a square is predicted whose quarters, in block order, have these motions.
fn shape_of(a: Motion, b: Motion, c: Motion, d: Motion) -> Shape
    ensures { IsShape a b c d result }
{
    if are_same(a, b) && are_same(c, d) {
        if are_same(a, c) {
            Shape::Whole
        } else {
            Shape::WideHalves
        }
    } else if are_same(a, c) && are_same(b, d) {
        Shape::TallHalves
    } else {
        Shape::Quarters
    }
}

/// How a quarter of a macroblock is predicted.
pub(crate) fn quarter_shape(motion: &[Motion; 16], quarter: usize) -> Shape
    requires { quarter < 4 }
    ensures { IsQuarterShape motion.now quarter result }
{
    let first = 4 * quarter;
    shape_of(
        motion[first],
        motion[first + 1],
        motion[first + 2],
        motion[first + 3],
    )
}

/// Whether the four blocks of each quarter have the same motion.
fn are_quarters_whole(motion: &[Motion; 16]) -> bool
    ensures { result ≡ true → HasWholeQuarters motion.now }
{
    for quarter in 0..4 {
        match quarter_shape(motion, quarter) {
            Shape::Whole => {}
            _ => return false,
        }
    }
    true
}

/// How a macroblock is predicted, by its blocks.
fn shape_of_blocks(motion: &[Motion; 16]) -> Shape
    ensures { IsMacroblockShape motion.now result }
{
    if are_quarters_whole(motion) {
        shape_of(motion[0], motion[4], motion[8], motion[12])
    } else {
        Shape::Quarters
    }
}

/// How a macroblock is predicted. Its blocks are looked at only where they are not known to have
/// one motion.
#[tactic(auto, using(crate::proofs::InterTiles::one_shape))]
#[inline]
pub(crate) fn macroblock_shape(motion: &[Motion; 16], has_one_motion: bool) -> Shape
    requires { has_one_motion ≡ true → AreOfOneMotion motion.now }
    ensures { IsMacroblockShape motion.now result }
{
    if has_one_motion {
        Shape::Whole
    } else {
        shape_of_blocks(motion)
    }
}
