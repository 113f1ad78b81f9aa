//! The samples of a block.

ghost use Rattle.std.specs.Prelude.{◌≡◌, ◌+◌, ◌*◌, ◌<◌, ◌≤◌, List, ℕ, length, take, replicate};
ghost use Rattle.std.specs.Prelude.{slice_index, slice_set};
ghost use Rattle.avc_types.specs.Blocks.{block_of};

use crate::rows::copy_rows;
use std::marker::Model;

/// The samples of a block of W columns and H rows, each 1 to 16. A contract sees it as their list,
/// row by row.
#[derive(Drop)]
pub struct Block<const W: usize, const H: usize> {
    samples: [u8; 256],
}

impl<const W: usize, const H: usize> Model for Block<W, H> {
    ghost Value = { List ℕ };

    ghost view = { λ b. take (W * H) b.samples };

    ghost invariant = { λ b. (W ≤ 16) × (H ≤ 16) };
}

impl<const W: usize, const H: usize> Block<W, H> {
    /// A block with the same sample everywhere.
    pub fn new(sample: u8) -> Self
        requires columns { (1 ≤ W) × (W ≤ 16) }
        requires rows { (1 ≤ H) × (H ≤ 16) }
        ensures { result ≡ replicate (W * H) sample }
    {
        Block {
            samples: [sample; 256],
        }
    }

    /// Gives the block other samples: row y becomes the W samples at the place `first` + y *
    /// `stride`.
    #[tactic(auto, using(crate::proofs::Frames::block_rules))]
    #[inline(always)]
    pub fn set_rows(&mut self, samples: &[u8], first: usize, stride: usize)
        requires source { (y : ℕ) → y < H → first + y * stride + 16 ≤ length samples.now }
        ensures { self.new
            ≡ block_of W H (λ x y. slice_index samples.now (first + y * stride + x)) }
    {
        let rows = &mut self.samples;
        copy_rows(samples, first, stride, W, H, rows);
    }

    /// The sample in column `x` and row `y`.
    pub fn get(&self, x: usize, y: usize) -> u8
        requires column { x < W }
        requires row { y < H }
        ensures { result ≡ slice_index self.now (y * W + x) }
    {
        let samples = &self.samples;
        samples[y * W + x]
    }

    /// Changes the sample in column `x` and row `y`, and no other.
    pub fn set(&mut self, x: usize, y: usize, sample: u8)
        requires column { x < W }
        requires row { y < H }
        ensures { self.new ≡ slice_set self.old (y * W + x) sample }
    {
        let samples = &mut self.samples;
        samples[y * W + x] = sample;
    }

    /// All samples, row by row.
    pub fn as_slice(&self) -> &[u8]
        ensures value { result.now ≡ self.now }
        ensures long { length result.now ≡ W * H }
    {
        let samples = &self.samples;
        &samples[..W * H]
    }
}
