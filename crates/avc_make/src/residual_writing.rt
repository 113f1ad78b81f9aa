//! The residual of a macroblock (7.3.5.3).
ghost use Rattle.std.specs.Prelude.{◌≡◌, ◌≤◌, ◌<◌, ◌==◌, pos, true, false, []};
ghost use Rattle.std.specs.List.{range_with_len};
ghost use Rattle.std.specs.Option.{option_copied};
ghost use Rattle.avc_types.specs.MacroblockFields.{residual_of};
ghost use Rattle.avc_mbsyntax.specs.Reading.{cb_side, cr_side, is_coded};
ghost use Rattle.avc_rbsp.specs.Made.{Puts};
ghost use Rattle.avc_make.specs.MbWriting.{AreBlocks, IsBlock, IsChromaDc, IsResidual, ac_words};
ghost use Rattle.avc_make.specs.MbWriting.{bits_where_coded, blocks_bits, chroma_dc_bits};
ghost use Rattle.avc_make.specs.MbWriting.{chroma_words};
ghost use Rattle.avc_make.specs.MbWriting.{luma_dc_bits, luma_words, residual_bits};

use crate::block_writing::write_block;
use avc_mbsyntax::{Context, cb_side, cr_side, luma_side};
use avc_neigh::{nc_chroma, nc_luma};
use avc_rbsp::BitMaker;
use avc_types::{BlockLevels, Levels, OutOfMemory};

/// The residual of a macroblock that is not Intra 16x16.
pub(crate) fn put_residual(
    maker: &mut BitMaker,
    context: &Context,
    levels: &BlockLevels<16>,
) -> Result<(), OutOfMemory>
    requires going { maker.old.failed ≡ false }
    requires ranges { IsResidual false (residual_of [] levels.now) }
    ensures { Puts result (residual_bits context.now false (residual_of [] levels.now)) maker.old
        maker.new }
{
    put_luma(maker, context, levels.luma_pattern, &levels.luma)?;
    put_chroma(maker, context, levels)?;
    Ok(())
}

/// The residual of an Intra 16x16 macroblock.
pub(crate) fn put_residual_16x16(
    maker: &mut BitMaker,
    context: &Context,
    luma_dc: &Levels<16>,
    levels: &BlockLevels<15>,
) -> Result<(), OutOfMemory>
    requires going { maker.old.failed ≡ false }
    requires ranges { IsResidual true (residual_of luma_dc.now levels.now) }
    ensures { Puts result (residual_bits context.now true (residual_of luma_dc.now levels.now))
        maker.old maker.new }
{
    put_luma_dc(maker, context, luma_dc)?;
    put_luma(maker, context, levels.luma_pattern, &levels.luma)?;
    put_chroma(maker, context, levels)?;
    Ok(())
}

// a block, where it is coded
fn put_block_where<const MAXN: usize>(
    maker: &mut BitMaker,
    coded: bool,
    nc: u8,
    levels: &Levels<MAXN>,
) -> Result<(), OutOfMemory>
    requires going { maker.old.failed ≡ false }
    requires most { MAXN ≤ 16 }
    requires block { IsBlock MAXN coded levels.now }
    ensures { Puts result (bits_where_coded MAXN (pos nc) coded levels.now) maker.old maker.new }
{
    if coded {
        write_block(maker, nc.min(8) as i8, levels)
    } else {
        Ok(())
    }
}

// Intra16x16DCLevel
fn put_luma_dc(
    maker: &mut BitMaker,
    context: &Context,
    levels: &Levels<16>,
) -> Result<(), OutOfMemory>
    requires going { maker.old.failed ≡ false }
    requires block { IsBlock 16 true levels.now }
    ensures { Puts result (luma_dc_bits context.now true levels.now) maker.old maker.new }
{
    let left = luma_side(&context.left);
    let up = luma_side(&context.up);
    put_block_where(maker, true, nc_luma(left, up, &[0; 16], 0), levels)
}

// the luma blocks
fn put_luma<const MAXN: usize>(
    maker: &mut BitMaker,
    context: &Context,
    luma_pattern: u8,
    blocks: &[Levels<MAXN>; 16],
) -> Result<(), OutOfMemory>
    requires going { maker.old.failed ≡ false }
    requires most { MAXN ≤ 16 }
    requires blocks { AreBlocks MAXN (is_coded luma_pattern) (range_with_len 0 16) blocks.now }
    ensures { Puts result (luma_words context.now MAXN luma_pattern blocks.now) maker.old
        maker.new }
{
    put_luma_blocks(
        maker,
        luma_pattern,
        luma_side(&context.left),
        luma_side(&context.up),
        blocks,
    )
}

fn put_luma_blocks<const MAXN: usize>(
    maker: &mut BitMaker,
    luma_pattern: u8,
    left: Option<&[u8; 16]>,
    up: Option<&[u8; 16]>,
    blocks: &[Levels<MAXN>; 16],
) -> Result<(), OutOfMemory>
    requires going { maker.old.failed ≡ false }
    requires most { MAXN ≤ 16 }
    requires blocks { AreBlocks MAXN (is_coded luma_pattern) (range_with_len 0 16) blocks.now }
    ensures { Puts result (blocks_bits MAXN 16 (is_coded luma_pattern) (option_copied left.entry)
        (option_copied up.entry) (range_with_len 0 16) [] blocks.now) maker.old maker.new }
{
    let mut total_coeffs = [0; 16];
    'each: for k in 0..16 {
        let nc = nc_luma(left, up, &total_coeffs, k);
        let block = &blocks[k];
        put_block_where(maker, is_coded(luma_pattern, k), nc, block)?;
        total_coeffs[k] = block.total_coeff();
    }
    Ok(())
}

// whether the quarter of luma block k has its bit in the pattern
fn is_coded(luma_pattern: u8, k: usize) -> bool
    requires { k < 16 }
    ensures { result ≡ is_coded luma_pattern k }
{
    (luma_pattern >> (k / 4)) % 2 == 1
}

// the blocks of Cb and Cr
fn put_chroma<const MAXN: usize>(
    maker: &mut BitMaker,
    context: &Context,
    levels: &BlockLevels<MAXN>,
) -> Result<(), OutOfMemory>
    requires going { maker.old.failed ≡ false }
    requires cb_dc { IsChromaDc levels.now.chroma_pattern levels.now.cb_dc }
    requires cr_dc { IsChromaDc levels.now.chroma_pattern levels.now.cr_dc }
    requires cb_ac { AreBlocks 15 (λ k. levels.now.chroma_pattern == 2) (range_with_len 0 4)
        levels.now.cb_ac }
    requires cr_ac { AreBlocks 15 (λ k. levels.now.chroma_pattern == 2) (range_with_len 0 4)
        levels.now.cr_ac }
    ensures { Puts result (chroma_words context.now (residual_of [] levels.now)) maker.old
        maker.new }
{
    let pattern = levels.chroma_pattern;
    put_chroma_dc(maker, pattern, &levels.cb_dc)?;
    put_chroma_dc(maker, pattern, &levels.cr_dc)?;
    put_cb_ac(maker, context, pattern, &levels.cb_ac)?;
    put_cr_ac(maker, context, pattern, &levels.cr_ac)?;
    Ok(())
}

fn put_chroma_dc(
    maker: &mut BitMaker,
    chroma_pattern: u8,
    levels: &Levels<4>,
) -> Result<(), OutOfMemory>
    requires going { maker.old.failed ≡ false }
    requires block { IsChromaDc chroma_pattern levels.now }
    ensures { Puts result (chroma_dc_bits chroma_pattern levels.now) maker.old maker.new }
{
    if chroma_pattern > 0 {
        write_block(maker, -1, levels)
    } else {
        Ok(())
    }
}

fn put_cb_ac(
    maker: &mut BitMaker,
    context: &Context,
    chroma_pattern: u8,
    blocks: &[Levels<15>; 4],
) -> Result<(), OutOfMemory>
    requires going { maker.old.failed ≡ false }
    requires blocks { AreBlocks 15 (λ k. chroma_pattern == 2) (range_with_len 0 4) blocks.now }
    ensures { Puts result
        (ac_words chroma_pattern (cb_side context.now.left) (cb_side context.now.up) blocks.now)
        maker.old maker.new }
{
    put_ac(
        maker,
        chroma_pattern,
        cb_side(&context.left),
        cb_side(&context.up),
        blocks,
    )
}

fn put_cr_ac(
    maker: &mut BitMaker,
    context: &Context,
    chroma_pattern: u8,
    blocks: &[Levels<15>; 4],
) -> Result<(), OutOfMemory>
    requires going { maker.old.failed ≡ false }
    requires blocks { AreBlocks 15 (λ k. chroma_pattern == 2) (range_with_len 0 4) blocks.now }
    ensures { Puts result
        (ac_words chroma_pattern (cr_side context.now.left) (cr_side context.now.up) blocks.now)
        maker.old maker.new }
{
    put_ac(
        maker,
        chroma_pattern,
        cr_side(&context.left),
        cr_side(&context.up),
        blocks,
    )
}

// the AC blocks of a component
fn put_ac(
    maker: &mut BitMaker,
    chroma_pattern: u8,
    left: Option<&[u8; 4]>,
    up: Option<&[u8; 4]>,
    blocks: &[Levels<15>; 4],
) -> Result<(), OutOfMemory>
    requires going { maker.old.failed ≡ false }
    requires blocks { AreBlocks 15 (λ k. chroma_pattern == 2) (range_with_len 0 4) blocks.now }
    ensures { Puts result
        (ac_words chroma_pattern (option_copied left.entry) (option_copied up.entry) blocks.now)
        maker.old maker.new }
{
    let mut total_coeffs = [0; 4];
    'each: for k in 0..4 {
        let nc = nc_chroma(left, up, &total_coeffs, k);
        let block = &blocks[k];
        put_block_where(maker, chroma_pattern == 2, nc, block)?;
        total_coeffs[k] = block.total_coeff();
    }
    Ok(())
}
