//! Luma blocks by their number: their place, and the blocks beside them (6.4.3).

ghost use Rattle.std.specs.Prelude.{◌≡◌, ◌+◌, ◌%◌, ◌<◌, ◌==◌};
ghost use Rattle.avc_neigh.specs.Blocks.{block_at, block_x, block_y};

/// For each luma block the number of the one to its left.
const LEFT: [u8; 16] = [5, 0, 7, 2, 1, 4, 3, 6, 13, 8, 15, 10, 9, 12, 11, 14];

/// For each luma block the number of the one above.
const ABOVE: [u8; 16] = [10, 11, 0, 1, 14, 15, 4, 5, 2, 3, 8, 9, 6, 7, 12, 13];

/// Luma block `k` is in the first column of its macroblock (6.4.3).
#[inline]
#[tactic(auto, using(crate::proofs::Found::leftmost))]
pub fn is_leftmost(k: usize) -> bool
    requires { k < 16 }
    ensures { result ≡ (block_x k == 0) }
{
    k & 5 == 0
}

/// Luma block `k` is in the first row of its macroblock (6.4.3).
#[inline]
#[tactic(auto, using(crate::proofs::Found::topmost))]
pub fn is_topmost(k: usize) -> bool
    requires { k < 16 }
    ensures { result ≡ (block_y k == 0) }
{
    k & 10 == 0
}

/// The luma block to the left of block `k` (6.4.11.4): in the first column that of the macroblock
/// to the left, else an earlier one of the same macroblock.
#[inline]
pub fn left_block(k: usize) -> usize
    requires { k < 16 }
    ensures covers { result ≡ block_at ((block_x k + 15) % 16) (block_y k) }
    ensures inside { result < 16 }
    ensures earlier { 0 < block_x k → result < k }
{
    LEFT[k] as usize
}

/// The luma block above block `k` (6.4.11.4): in the first row that of the macroblock above, else
/// an earlier one of the same macroblock.
#[inline]
pub fn above_block(k: usize) -> usize
    requires { k < 16 }
    ensures covers { result ≡ block_at (block_x k) ((block_y k + 15) % 16) }
    ensures inside { result < 16 }
    ensures earlier { 0 < block_y k → result < k }
{
    ABOVE[k] as usize
}
