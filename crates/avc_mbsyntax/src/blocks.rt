//! The blocks of a component (7.3.5.3).
ghost use Rattle.std.specs.Prelude.{◌≡◌, ◌≤◌, ◌<◌, ◌==◌, true, [], replicate, IfOk, All};
ghost use Rattle.std.specs.List.{range_with_len};
ghost use Rattle.std.specs.Option.{option_copied};
ghost use Rattle.avc_bits.specs.Reader.{Reads};
ghost use Rattle.avc_neigh.specs.TotalCoeffs.{nc};
ghost use Rattle.avc_mbsyntax.specs.Ranges.{AreSmall};
ghost use Rattle.avc_mbsyntax.specs.Reading.{block_where, blocks, chroma_dc, is_coded, no_levels};
ghost use Rattle.avc_mbsyntax.specs.Steps.{ReadsInto};

use avc_bits::BitReader;
use avc_cavlc::read_block_in_place;
use avc_neigh::{nc_chroma, nc_luma};
use avc_types::{Fault, Levels};

/// The levels of a block that is coded, into their place. It is no part of its callers, so that
/// their loops are short enough to be unrolled.
#[inline(never)]
fn read_coded<const MAXN: usize>(
    reader: &mut BitReader,
    nc: u8,
    levels: &mut Levels<MAXN>,
) -> Result<(), Fault>
    requires { MAXN ≤ 16 }
    ensures read { ReadsInto result levels.new (block_where MAXN true nc) reader.old reader.new }
    ensures small { IfOk result (λ _. AreSmall levels.new) }
{
    read_block_in_place(reader, nc.min(8) as i8, levels)
}

/// Intra16x16DCLevel, at the nC of luma block 0.
pub(crate) fn read_luma_dc(
    reader: &mut BitReader,
    left: Option<&[u8; 16]>,
    up: Option<&[u8; 16]>,
) -> Result<Levels<16>, Fault>
    ensures read { Reads result
        (block_where 16 true (nc 16 (option_copied left.entry) (option_copied up.entry) [] 0))
        reader.old reader.new }
    ensures small { IfOk result AreSmall }
{
    let mut levels = Levels::zero();
    read_coded(reader, nc_luma(left, up, &[0; 16], 0), &mut levels)?;
    Ok(levels)
}

/// Reads the luma blocks, of which those are coded whose quarter has its bit in the pattern; the
/// levels of the others become 0.
pub(crate) fn read_luma_blocks<const MAXN: usize>(
    reader: &mut BitReader,
    luma_pattern: u8,
    left: Option<&[u8; 16]>,
    up: Option<&[u8; 16]>,
    levels: &mut [Levels<MAXN>; 16],
) -> Result<(), Fault>
    requires max { MAXN ≤ 16 }
    ensures small { IfOk result (λ _. All AreSmall levels.new) }
    ensures read { ReadsInto result levels.new
        (blocks MAXN 16 (is_coded luma_pattern) (option_copied left.entry) (option_copied up.entry)
        (range_with_len 0 16) []) reader.old reader.new }
{
    if luma_pattern == 0 {
        clear(levels);
        return Ok(());
    }
    let mut total_coeffs = [0; 16];
    'each: for k in 0..16 {
        if !is_coded(luma_pattern, k) {
            levels[k].clear();
            continue;
        }
        let nc = nc_luma(left, up, &total_coeffs, k);
        let block = &mut levels[k];
        read_coded(reader, nc, block)?;
        total_coeffs[k] = block.total_coeff();
    }
    Ok(())
}

/// Reads the AC blocks of a chroma component; where they are not coded their levels become 0.
#[inline(always)]
pub(crate) fn read_chroma_blocks(
    reader: &mut BitReader,
    chroma_pattern: u8,
    left: Option<&[u8; 4]>,
    up: Option<&[u8; 4]>,
    levels: &mut [Levels<15>; 4],
) -> Result<(), Fault>
    ensures small { IfOk result (λ _. All AreSmall levels.new) }
    ensures read { ReadsInto result levels.new
        (blocks 15 8 (λ k. chroma_pattern == 2) (option_copied left.entry) (option_copied up.entry)
        (range_with_len 0 4) []) reader.old reader.new }
{
    if chroma_pattern != 2 {
        clear(levels);
        return Ok(());
    }
    let mut total_coeffs = [0; 4];
    'each: for k in 0..4 {
        let nc = nc_chroma(left, up, &total_coeffs, k);
        let block = &mut levels[k];
        read_coded(reader, nc, block)?;
        total_coeffs[k] = block.total_coeff();
    }
    Ok(())
}

/// Reads the DC levels of a chroma component, or they become 0.
pub(crate) fn read_chroma_dc(
    reader: &mut BitReader,
    chroma_pattern: u8,
    levels: &mut Levels<4>,
) -> Result<(), Fault>
    ensures read { ReadsInto result levels.new (chroma_dc chroma_pattern) reader.old reader.new }
    ensures small { IfOk result (λ _. AreSmall levels.new) }
{
    if chroma_pattern == 0 {
        levels.clear();
        return Ok(());
    }
    read_block_in_place(reader, -1, levels)
}

/// No block is coded: all levels become 0.
pub(crate) fn clear<const MAXN: usize, const N: usize>(levels: &mut [Levels<MAXN>; N])
    ensures { levels.new ≡ replicate N (no_levels MAXN) }
{
    'each: for k in 0..N {
        levels[k].clear();
    }
}

// whether the quarter of luma block k has its bit in the pattern
fn is_coded(luma_pattern: u8, k: usize) -> bool
    requires { k < 16 }
    ensures { result ≡ is_coded luma_pattern k }
{
    (luma_pattern >> (k / 4)) % 2 == 1
}
