//! The residual of a macroblock (7.3.5.3).
ghost use Rattle.std.specs.Prelude.{◌≡◌, ◌≤◌, ◌==◌, ◌≤ℤ◌, ℤ, pos, negsuc, List, [], IfOk, ◌<◌, All};
ghost use Rattle.std.specs.Prelude.{replicate};
ghost use Rattle.std.specs.List.{range_with_len};
ghost use Rattle.std.specs.Option.{option_copied};
ghost use Rattle.avc_types.specs.MacroblockFields.{residual_of};
ghost use Rattle.avc_bits.specs.Reader.{Reads};
ghost use Rattle.avc_mbsyntax.specs.Ranges.{AreSmall, IsResidual};
ghost use Rattle.avc_mbsyntax.specs.Reading.{after_pattern, blocks, cb_side, cr_side, is_coded};
ghost use Rattle.avc_mbsyntax.specs.Reading.{luma_dc_levels, luma_side, no_levels, qp_after};
ghost use Rattle.avc_mbsyntax.specs.Reading.{qp_delta, qp_delta_where};
ghost use Rattle.avc_mbsyntax.specs.Reading.{residual_blocks};
ghost use Rattle.avc_mbsyntax.specs.Steps.{HasNoLevels, ReadsInto, context_of, no_block_levels};

use crate::blocks::{clear, read_chroma_blocks, read_chroma_dc, read_luma_blocks, read_luma_dc};
use crate::context::LentContext;
use crate::near::{cb_counts, cr_counts, luma_counts};
use avc_bits::BitReader;
use avc_types::{BlockLevels, Fault, Levels};

/// Which blocks are coded, and mb_qp_delta.
#[derive(Clone, Copy)]
pub(crate) struct Patterns {
    pub luma_pattern: u8,
    pub chroma_pattern: u8,
    pub mb_qp_delta: i8,
}

/// Levels that are all 0, and nothing else coded.
pub(crate) fn zero_levels<const MAXN: usize>() -> BlockLevels<MAXN>
    ensures { result ≡ no_block_levels }
{
    BlockLevels {
        luma_pattern: 0,
        chroma_pattern: 0,
        mb_qp_delta: 0,
        luma: [Levels::zero(); 16],
        cb_dc: Levels::zero(),
        cr_dc: Levels::zero(),
        cb_ac: [Levels::zero(); 4],
        cr_ac: [Levels::zero(); 4],
    }
}

/// Nothing is coded: all levels become 0.
fn clear_levels<const MAXN: usize>(levels: &mut BlockLevels<MAXN>)
    ensures { HasNoLevels levels.new }
{
    levels.luma_pattern = 0;
    levels.chroma_pattern = 0;
    levels.mb_qp_delta = 0;
    clear(&mut levels.luma);
    levels.cb_dc.clear();
    levels.cr_dc.clear();
    clear(&mut levels.cb_ac);
    clear(&mut levels.cr_ac);
}

/// Reads what follows coded_block_pattern.
pub(crate) fn read_after_pattern(
    reader: &mut BitReader,
    context: &LentContext<'_>,
    pattern: u8,
    levels: &mut BlockLevels<16>,
) -> Result<(), Fault>
    requires { pattern < 48 }
    ensures delta { IfOk result (λ _. negsuc 25 ≤ℤ levels.new.mb_qp_delta) }
    ensures range { IfOk result (λ _. IsResidual (residual_of [] levels.new)) }
    ensures read { ReadsInto result (residual_of [] levels.new)
        (after_pattern (context_of context.now) pattern) reader.old reader.new }
{
    if pattern == 0 {
        clear_levels(levels);
        return Ok(());
    }
    let mb_qp_delta = read_qp_delta_where(reader, pattern != 0)?;
    let patterns = Patterns {
        luma_pattern: pattern % 16,
        chroma_pattern: pattern / 16,
        mb_qp_delta,
    };
    read_levels(reader, context, patterns, levels)?;
    Ok(())
}

fn read_qp_delta_where(reader: &mut BitReader, coded: bool) -> Result<i8, Fault>
    ensures read { Reads result (qp_delta_where coded) reader.old reader.new }
    ensures low { IfOk result (λ delta. negsuc 25 ≤ℤ delta) }
{
    if coded { read_qp_delta(reader) } else { Ok(0) }
}

/// mb_qp_delta.
pub(crate) fn read_qp_delta(reader: &mut BitReader) -> Result<i8, Fault>
    ensures read { Reads result qp_delta reader.old reader.new }
    ensures low { IfOk result (λ delta. negsuc 25 ≤ℤ delta) }
    ensures high { IfOk result (λ delta. delta ≤ℤ pos 25) }
{
    Ok(reader.se_within(-26, 25)? as i8)
}

/// Intra16x16DCLevel.
pub(crate) fn read_intra_dc(
    reader: &mut BitReader,
    context: &LentContext<'_>,
) -> Result<Levels<16>, Fault>
    ensures read { Reads result (luma_dc_levels (context_of context.now)) reader.old reader.new }
    ensures small { IfOk result AreSmall }
{
    let left = luma_counts(context.left);
    let up = luma_counts(context.up);
    read_luma_dc(reader, left, up)
}

// The luma blocks.
fn read_luma<const MAXN: usize>(
    reader: &mut BitReader,
    context: &LentContext<'_>,
    luma_pattern: u8,
    levels: &mut [Levels<MAXN>; 16],
) -> Result<(), Fault>
    requires { MAXN ≤ 16 }
    ensures small { IfOk result (λ _. All AreSmall levels.new) }
    ensures read { ReadsInto result levels.new
        (blocks MAXN 16 (is_coded luma_pattern) (luma_side (option_copied context.now.left))
        (luma_side (option_copied context.now.up)) (range_with_len 0 16) []) reader.old reader.new }
{
    let left = luma_counts(context.left);
    let up = luma_counts(context.up);
    read_luma_blocks(reader, luma_pattern, left, up, levels)
}

// The AC blocks of Cb.
fn read_cb_ac(
    reader: &mut BitReader,
    context: &LentContext<'_>,
    chroma_pattern: u8,
    levels: &mut [Levels<15>; 4],
) -> Result<(), Fault>
    ensures small { IfOk result (λ _. All AreSmall levels.new) }
    ensures read { ReadsInto result levels.new
        (blocks 15 8 (λ k. chroma_pattern == 2) (cb_side (option_copied context.now.left))
        (cb_side (option_copied context.now.up)) (range_with_len 0 4) []) reader.old reader.new }
{
    let left = cb_counts(context.left);
    let up = cb_counts(context.up);
    read_chroma_blocks(reader, chroma_pattern, left, up, levels)
}

// The AC blocks of Cr.
fn read_cr_ac(
    reader: &mut BitReader,
    context: &LentContext<'_>,
    chroma_pattern: u8,
    levels: &mut [Levels<15>; 4],
) -> Result<(), Fault>
    ensures small { IfOk result (λ _. All AreSmall levels.new) }
    ensures read { ReadsInto result levels.new
        (blocks 15 8 (λ k. chroma_pattern == 2) (cr_side (option_copied context.now.left))
        (cr_side (option_copied context.now.up)) (range_with_len 0 4) []) reader.old reader.new }
{
    let left = cr_counts(context.left);
    let up = cr_counts(context.up);
    read_chroma_blocks(reader, chroma_pattern, left, up, levels)
}

/// Reads the blocks, behind Intra16x16DCLevel; the levels of those that are not coded become 0.
pub(crate) fn read_levels<const MAXN: usize>(
    reader: &mut BitReader,
    context: &LentContext<'_>,
    patterns: Patterns,
    levels: &mut BlockLevels<MAXN>,
) -> Result<(), Fault>
    requires max { MAXN ≤ 16 }
    requires luma { patterns.luma_pattern ≤ 15 }
    requires chroma { patterns.chroma_pattern ≤ 2 }
    ensures read { (luma_dc : List ℤ) → ReadsInto result (residual_of luma_dc levels.new)
        (residual_blocks (context_of context.now) MAXN luma_dc patterns.luma_pattern
        patterns.chroma_pattern patterns.mb_qp_delta) reader.old reader.new }
    ensures delta { IfOk result (λ _. levels.new.mb_qp_delta ≡ patterns.mb_qp_delta) }
    ensures range { IfOk result (λ _. (luma_dc : List ℤ) → AreSmall luma_dc →
        IsResidual (residual_of luma_dc levels.new)) }
{
    levels.luma_pattern = patterns.luma_pattern;
    levels.chroma_pattern = patterns.chroma_pattern;
    levels.mb_qp_delta = patterns.mb_qp_delta;
    read_luma(reader, context, patterns.luma_pattern, &mut levels.luma)?;
    read_chroma_dc(reader, patterns.chroma_pattern, &mut levels.cb_dc)?;
    read_chroma_dc(reader, patterns.chroma_pattern, &mut levels.cr_dc)?;
    read_cb_ac(reader, context, patterns.chroma_pattern, &mut levels.cb_ac)?;
    read_cr_ac(reader, context, patterns.chroma_pattern, &mut levels.cr_ac)?;
    Ok(())
}

/// QP_Y after mb_qp_delta (7.4.5).
pub(crate) fn qp_after(previous: u8, mb_qp_delta: i8) -> u8
    requires { negsuc 25 ≤ℤ mb_qp_delta }
    ensures value { result ≡ qp_after previous mb_qp_delta }
    ensures most { result ≤ 51 }
{
    ((i16::from(previous) + i16::from(mb_qp_delta) + 52) % 52) as u8
}
