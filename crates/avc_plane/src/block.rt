//! A block of a plane, lent to be changed.

ghost use Rattle.std.specs.Prelude.{◌≡◌, ◌+◌, ◌^◌, ◌<◌, ◌≤◌, slice_index};
ghost use Rattle.avc_plane.specs.Plane.{sample, with_block, with_sample};

use crate::plane::Plane;

/// A block of W columns and H rows of a plane, lent. All other samples of the plane stay as they
/// are.
#[derive(Drop)]
pub struct BlockMut<'a, const W: usize, const H: usize, const PAD: usize> {
    plane: &'a mut Plane<PAD>,

    /// The columns of the plane left of the block.
    left: usize,

    /// The rows of the plane above the block.
    top: usize,

    ghost columns: { left + W ≤ plane.now.width },
    ghost rows: { top + H ≤ plane.now.height },
    ghost narrow: { left + W < 2 ^ 32 },
    ghost low: { top + H < 2 ^ 32 },
}

impl<'a, const W: usize, const H: usize, const PAD: usize> BlockMut<'a, W, H, PAD> {
    /// The block that has `left` columns left of it and `top` rows above it.
    pub(crate) fn new(plane: &'a mut Plane<PAD>, left: usize, top: usize) -> Self
        requires columns { left + W ≤ plane.old.width }
        requires rows { top + H ≤ plane.old.height }
        requires narrow { left + W < 2 ^ 32 }
        requires low { top + H < 2 ^ 32 }
        ensures same_reference { result.plane.ghost_name ≡ plane.entry.ghost_name }
        ensures samples { result.plane.now ≡ plane.old }
        ensures place { (result.left ≡ left) × (result.top ≡ top) }
    {
        BlockMut { plane, left, top }
    }

    /// The sample in column `x` and row `y` of the block.
    pub fn get(&self, x: usize, y: usize) -> u8
        requires column { x < W }
        requires row { y < H }
        ensures { result ≡ sample self.now.plane.now (self.now.left + x) (self.now.top + y) }
    {
        self.plane.get(self.left + x, self.top + y)
    }

    /// Changes the sample in column `x` and row `y` of the block, and no other.
    pub fn set(&mut self, x: usize, y: usize, value: u8)
        requires column { x < W }
        requires row { y < H }
        ensures same_reference { self.new.plane.ghost_name ≡ self.old.plane.ghost_name }
        ensures place { (self.new.left ≡ self.old.left) × (self.new.top ≡ self.old.top) }
        ensures samples { self.new.plane.now
            ≡ with_sample self.old.plane.now (self.old.left + x) (self.old.top + y) value }
    {
        let column = self.left + x;
        let row = self.top + y;
        self.plane.set(column, row, value);
    }

    /// Changes the samples of row `y` of the block, and no other.
    pub fn set_row(&mut self, y: usize, samples: &[u8; W])
        requires { y < H }
        ensures same_reference { self.new.plane.ghost_name ≡ self.old.plane.ghost_name }
        ensures place { (self.new.left ≡ self.old.left) × (self.new.top ≡ self.old.top) }
        ensures samples { self.new.plane.now
            ≡ with_block self.old.plane.now self.old.left (self.old.top + y) W 1
            (λ x _. slice_index samples.now x) }
    {
        let left = self.left;
        let row = self.top + y;
        self.plane.set_line(left, row, samples);
    }
}
