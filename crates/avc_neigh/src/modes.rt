//! Predicted 4x4 intra modes (8.3.1.1).

ghost use Rattle.std.specs.Prelude.{◌≡◌, ◌<◌, ◌-ℤ◌, pos, take, slice_set, All};
ghost use Rattle.std.specs.Option.{option_copied};
ghost use Rattle.avc_neigh.specs.Around.{info_of};
ghost use Rattle.avc_neigh.specs.BlockNear.{mode_near, mode_of_block, AreNxnModes, HasModes};
ghost use Rattle.avc_neigh.specs.Blocks.{block_x, block_y};
ghost use Rattle.avc_neigh.specs.Modes.{chosen_mode, mode_of_neighbour, predicted_mode, IsMode};
ghost use Rattle.avc_neigh.specs.Modes.{IsRem};

use crate::block_order::{above_block, is_leftmost, is_topmost, left_block};
use crate::neighbour_info::NearMode;
use crate::neighbours::Neighbours;

/// Intra_4x4_DC, which is predicted where a neighbour brings no mode.
const DC: u8 = 2;

/// The mode that a neighbour brings, if any.
#[inline]
fn brought(near: NearMode, constrained_intra_pred: bool) -> Option<u8>
    ensures { result ≡ mode_of_neighbour constrained_intra_pred near }
{
    match near {
        NearMode::Absent => None,
        NearMode::Inter => if constrained_intra_pred {
            None
        } else {
            Some(DC)
        },
        NearMode::Mode(mode) => Some(mode),
    }
}

/// predIntra4x4PredMode.
#[inline]
fn predicted(left: Option<u8>, above: Option<u8>) -> u8
    ensures { result ≡ predicted_mode left above }
{
    match (left, above) {
        (Some(left), Some(above)) => left.min(above),
        _ => DC,
    }
}

/// Intra4x4PredMode of a block with this predicted mode.
#[inline]
fn chosen(predicted: u8, coded: Option<u8>) -> u8
    requires { IsRem coded }
    ensures { result ≡ chosen_mode predicted coded }
{
    match coded {
        None => predicted,
        Some(rem) => if rem < predicted { rem } else { rem + 1 },
    }
}

/// What the block to the left of block `k` is to it.
#[inline]
fn mode_at_left(neighbours: &Neighbours, modes: &[NearMode; 16], k: usize) -> NearMode
    requires { k < 16 }
    ensures { result
        ≡ mode_near (info_of neighbours.now) (take k modes.now) (pos (block_x k) -ℤ pos 1)
        (pos (block_y k)) }
{
    let place = left_block(k);
    if is_leftmost(k) {
        match neighbours.a {
            Some(info) => info.modes[place],
            None => NearMode::Absent,
        }
    } else {
        modes[place]
    }
}

/// What the block above block `k` is to it.
#[inline]
fn mode_above(neighbours: &Neighbours, modes: &[NearMode; 16], k: usize) -> NearMode
    requires { k < 16 }
    ensures { result ≡ mode_near (info_of neighbours.now) (take k modes.now) (pos (block_x k))
        (pos (block_y k) -ℤ pos 1) }
{
    let place = above_block(k);
    if is_topmost(k) {
        match neighbours.b {
            Some(info) => info.modes[place],
            None => NearMode::Absent,
        }
    } else {
        modes[place]
    }
}

/// Writes Intra4x4PredMode of block `k`, whose neighbours in the macroblock have theirs.
// where its number is known, it is known where its neighbours stand
#[inline(always)]
fn set_mode(
    modes: &mut [NearMode; 16],
    neighbours: &Neighbours,
    constrained_intra_pred: bool,
    coded: &[Option<u8>; 16],
    k: usize,
)
    requires number { k < 16 }
    requires rems { All IsRem coded.now }
    ensures { modes.new
        ≡ slice_set modes.old k
        (mode_of_block (info_of neighbours.now) constrained_intra_pred modes.old coded.now k) }
{
    let left = brought(mode_at_left(neighbours, modes, k), constrained_intra_pred);
    let above = brought(mode_above(neighbours, modes, k), constrained_intra_pred);
    modes[k] = NearMode::Mode(chosen(predicted(left, above), coded[k]));
}

/// Intra4x4PredMode of the sixteen blocks of an I_NxN macroblock (8.3.1.1), in block order. `coded`
/// has for each block rem_intra4x4_pred_mode, 0 to 7, or nothing where prev_intra4x4_pred_mode_flag
/// is 1. Each mode is at most 8 where those of the neighbours are.
pub fn intra4x4_modes(
    neighbours: &Neighbours,
    constrained_intra_pred: bool,
    coded: &[Option<u8>; 16],
) -> [NearMode; 16]
    requires { All IsRem coded.now }
    ensures modes { AreNxnModes (info_of neighbours.now) constrained_intra_pred coded.now result }
    ensures within { HasModes (option_copied neighbours.now.a) →
        HasModes (option_copied neighbours.now.b) → All IsMode result }
{
    let mut modes = [NearMode::Absent; 16];
    set_mode(&mut modes, neighbours, constrained_intra_pred, coded, 0);
    set_mode(&mut modes, neighbours, constrained_intra_pred, coded, 1);
    set_mode(&mut modes, neighbours, constrained_intra_pred, coded, 2);
    set_mode(&mut modes, neighbours, constrained_intra_pred, coded, 3);
    set_mode(&mut modes, neighbours, constrained_intra_pred, coded, 4);
    set_mode(&mut modes, neighbours, constrained_intra_pred, coded, 5);
    set_mode(&mut modes, neighbours, constrained_intra_pred, coded, 6);
    set_mode(&mut modes, neighbours, constrained_intra_pred, coded, 7);
    set_mode(&mut modes, neighbours, constrained_intra_pred, coded, 8);
    set_mode(&mut modes, neighbours, constrained_intra_pred, coded, 9);
    set_mode(&mut modes, neighbours, constrained_intra_pred, coded, 10);
    set_mode(&mut modes, neighbours, constrained_intra_pred, coded, 11);
    set_mode(&mut modes, neighbours, constrained_intra_pred, coded, 12);
    set_mode(&mut modes, neighbours, constrained_intra_pred, coded, 13);
    set_mode(&mut modes, neighbours, constrained_intra_pred, coded, 14);
    set_mode(&mut modes, neighbours, constrained_intra_pred, coded, 15);
    modes
}
