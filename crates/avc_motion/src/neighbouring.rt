//! Neighbouring partitions (6.4.11.7).

ghost use Rattle.std.specs.Prelude.{◌≡◌, ◌+◌, ◌<◌, ◌≤◌, pos, ◌-ℤ◌};
ghost use Rattle.avc_neigh.specs.Blocks as blocks;
ghost use Rattle.std.specs.Option.{option_copied};
ghost use Rattle.avc_neigh.specs.Around.{info_of};
ghost use Rattle.avc_neigh.specs.BlockNear.{block_of, motion_near};
ghost use Rattle.avc_neigh.specs.declared.neighbour_info.Motion.TheVariants.{Absent as absent};
ghost use Rattle.avc_motion.specs.Motion.{neighbours_of};

use avc_neigh::{Motion, NeighbourInfo, Neighbours};

/// What the neighbouring partitions of a part of a macroblock have (6.4.11.7).
#[derive(Clone, Copy)]
pub struct NeighbouringPartitions {
    /// On the left.
    pub a: Motion,

    /// Above.
    pub b: Motion,

    /// Above on the right, or above on the left where that is not available.
    pub c: Motion,
}

/// The number of the block that covers the sample (x, y) of a macroblock (6.4.13).
fn block_at(x: usize, y: usize) -> usize
    requires column { x < 16 }
    requires row { y < 16 }
    ensures value { result ≡ blocks.block_at x y }
    ensures within { result < 16 }
{
    8 * (y / 8) + 4 * (x / 8) + 2 * ((y / 4) % 2) + (x / 4) % 2
}

/// What a block of a neighbouring macroblock has.
#[inline(always)]
fn block_of(info: Option<&NeighbourInfo>, block: usize) -> Motion
    requires { block < 16 }
    ensures { result ≡ block_of absent (λ f. f.motion) (option_copied info.entry) block }
{
    match info {
        Some(info) => info.motion[block],
        None => Motion::Absent,
    }
}

/// What stands left of the sample (x, y).
#[inline(always)]
pub(crate) fn left_of(
    neighbours: &Neighbours<'_>,
    mine: &[Motion; 16],
    x: usize,
    y: usize,
) -> Motion
    requires column { x < 16 }
    requires row { y < 16 }
    ensures { result ≡ motion_near (info_of neighbours.now) mine.now (pos x -ℤ pos 1) (pos y) }
{
    if x == 0 {
        block_of(neighbours.a, block_at(15, y))
    } else {
        mine[block_at(x - 1, y)]
    }
}

/// What stands above the sample (x, y), which may be the first one right of the macroblock.
#[inline(always)]
pub(crate) fn above(neighbours: &Neighbours<'_>, mine: &[Motion; 16], x: usize, y: usize) -> Motion
    requires column { x ≤ 16 }
    requires row { y < 16 }
    ensures { result ≡ motion_near (info_of neighbours.now) mine.now (pos x) (pos y -ℤ pos 1) }
{
    match (y == 0, x < 16) {
        (true, true) => block_of(neighbours.b, block_at(x, 15)),
        (true, false) => block_of(neighbours.c, block_at(0, 15)),
        (false, true) => mine[block_at(x, y - 1)],
        (false, false) => Motion::Absent,
    }
}

/// What stands above on the left of the sample (x, y).
#[inline(always)]
fn above_left(neighbours: &Neighbours<'_>, mine: &[Motion; 16], x: usize, y: usize) -> Motion
    requires column { x < 16 }
    requires row { y < 16 }
    ensures { result
        ≡ motion_near (info_of neighbours.now) mine.now (pos x -ℤ pos 1) (pos y -ℤ pos 1) }
{
    if x != 0 {
        above(neighbours, mine, x - 1, y)
    } else if y != 0 {
        left_of(neighbours, mine, x, y - 1)
    } else {
        block_of(neighbours.d, block_at(15, 15))
    }
}

impl NeighbouringPartitions {
    /// The neighbours of the part of this width whose upper left luma sample is (x, y).
    #[inline(always)]
    pub(crate) fn of(
        neighbours: &Neighbours<'_>,
        mine: &[Motion; 16],
        x: usize,
        y: usize,
        width: usize,
    ) -> NeighbouringPartitions
        requires column { x < 16 }
        requires within { x + width ≤ 16 }
        requires row { y < 16 }
        ensures { result ≡ neighbours_of (motion_near (info_of neighbours.now)) mine.now x y width }
    {
        let c = match above(neighbours, mine, x + width, y) {
            Motion::Absent => above_left(neighbours, mine, x, y),
            available => available,
        };
        NeighbouringPartitions {
            a: left_of(neighbours, mine, x, y),
            b: above(neighbours, mine, x, y),
            c,
        }
    }
}
