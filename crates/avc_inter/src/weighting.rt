//! Weighted sample prediction (8.4.2.3.2).

ghost use Rattle.std.specs.Prelude.{◌≡◌, ℕ, ◌+◌, ◌*◌, ◌<◌, ◌≤◌, ◌^◌, pos, neg_ℤ, ◌+ℤ◌, ◌*ℤ◌, ◌≤ℤ◌};
ghost use Rattle.std.specs.Prelude.{length, slice_index, map};
ghost use Rattle.avc_types.specs.Arithmetic.{◌>>ℤ◌, clip1};
ghost use Rattle.avc_inter.specs.Weight.{weighted};
ghost use Rattle.avc_inter.specs.Bounds.{IsBlock, IsWithin};

use avc_types::Block;

/// A weight, an offset, and the power of two that divides a product.
#[derive(Clone, Copy)]
struct Weighting {
    log2_denom: u8,
    weight: i32,
    offset: i32,

    ghost few: { log2_denom ≤ 7 },
    ghost light: { IsWithin 128 weight },
    ghost near: { IsWithin 128 offset },
}

/// The sample times the weight.
fn product(sample: u8, weight: i32) -> i32
    requires { IsWithin 128 weight }
    ensures value { result ≡ pos sample *ℤ weight }
    ensures small { IsWithin 32640 result }
{
    i32::from(sample) * weight
}

/// Divided by two to the power of a denominator from 1 on, rounded.
fn scaled(value: i32, log2_denom: u8) -> i32
    requires value { IsWithin 32640 value }
    requires some { 1 ≤ log2_denom }
    requires few { log2_denom ≤ 7 }
    ensures value { (d : ℕ) → log2_denom ≡ d + 1 → result ≡ (value +ℤ pos (2 ^ d) >>ℤ (d + 1)) }
    ensures small { IsWithin 40000 result }
{
    (value + (1 << (log2_denom - 1))) >> log2_denom
}

fn clipped(value: i32) -> u8
    ensures { result ≡ clip1 value }
{
    if value < 0 {
        0
    } else if value > 255 {
        255
    } else {
        value as u8
    }
}

fn weighted_sample(sample: u8, by: Weighting) -> u8
    ensures { result ≡ weighted by.log2_denom by.weight by.offset sample }
{
    let value = product(sample, by.weight);
    if by.log2_denom == 0 {
        clipped(value + by.offset)
    } else {
        clipped(scaled(value, by.log2_denom) + by.offset)
    }
}

/// The weighted samples of a block (8.4.2.3.2): times `weight` (-128 to 128), divided by two to the
/// power of `log2_denom` (0 to 7) and rounded, plus `offset` (-128 to 127), held between 0 and 255.
pub fn weight<const W: usize, const H: usize>(
    block: &Block<W, H>,
    log2_denom: u8,
    weight: i32,
    offset: i32,
) -> Block<W, H>
    requires block { IsBlock 16 W H }
    requires log2_denom { log2_denom ≤ 7 }
    requires weight { IsWithin 128 weight }
    requires offset { IsWithin 128 offset }
    ensures { result ≡ map (weighted log2_denom weight offset) block.now }
{
    let by = Weighting {
        log2_denom,
        weight,
        offset,
    };
    let mut samples = [0; 272];
    let old = block.as_slice();
    for k in 0..old.len() {
        samples[k] = weighted_sample(old[k], by);
    }
    let mut weighted = Block::new(0);
    weighted.set_rows(&samples, 0, W);
    weighted
}
