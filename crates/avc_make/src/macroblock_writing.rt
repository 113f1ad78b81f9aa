//! Macroblocks (7.3.5).
ghost use Rattle.std.specs.Prelude.{◌≡◌, ◌≤◌, ◌<◌, ◌+◌, ◌++◌, true, false, [], length};
ghost use Rattle.avc_types.specs.MacroblockFields.{residual_of, syntax_of};
ghost use Rattle.avc_rbsp.specs.Made.{Puts};
ghost use Rattle.avc_rbsp.specs.Words.{se_word, ue_word};
ghost use Rattle.avc_make.specs.MbWriting.{HasRanges, IsI16x16, IsINxN, IsPattern, i_16x16_bits};
ghost use Rattle.avc_make.specs.MbWriting.{i_nxn_bits, i_pcm_bits, i_type, mb_bits, pattern_bits};
ghost use Rattle.avc_make.specs.MbWriting.{pattern_number, pattern_of, qp_delta_bits, type_16x16};

use crate::inter_writing::put_p_inter;
use crate::pcm_writing::put_pcm_samples;
use crate::residual_writing::{put_residual, put_residual_16x16};
use avc_make_headers::put_each;
use avc_mbsyntax::Context;
use avc_rbsp::BitMaker;
use avc_types::{BlockLevels, Levels, OutOfMemory, Syntax};
use avc_vlc::cbp_of;

// mb_type of I_PCM in an I slice (Table 7-11)
const I_PCM: u32 = 25;

// how many types of P macroblocks stand before the I types in a P slice (Table 7-13)
const P_TYPES: u32 = 5;

// how many values coded_block_pattern has (Table 9-4)
const PATTERNS: u32 = 48;

/// Puts mb_type and what follows it (macroblock_layer): of each macroblock but one that is skipped.
/// `read_macroblock` reads it again.
pub fn write_macroblock(
    maker: &mut BitMaker,
    context: &Context,
    syntax: &Syntax,
) -> Result<(), OutOfMemory>
    requires going { maker.old.failed ≡ false }
    requires ranges { HasRanges context.now (syntax_of syntax.now) }
    ensures { Puts result (mb_bits context.now (length maker.old.bits) (syntax_of syntax.now))
        maker.old maker.new }
{
    match syntax {
        Syntax::PSkip => Ok(()),
        Syntax::IPcm { luma, cb, cr } => put_i_pcm(maker, context, luma, cb, cr),
        Syntax::INxN {
            modes,
            chroma_mode,
            levels,
        } => put_i_nxn(maker, context, modes, *chroma_mode, levels),
        Syntax::I16x16 {
            mode,
            chroma_mode,
            luma_dc,
            levels,
        } => put_i_16x16(maker, context, *mode, *chroma_mode, luma_dc, levels),
        Syntax::PInter {
            mb_type,
            ref_idx,
            mvd,
            levels,
        } => put_p_inter(maker, context, mb_type, ref_idx, mvd, levels),
    }
}

// mb_type of an I macroblock
fn put_i_type(maker: &mut BitMaker, context: &Context, mb_type: u32) -> Result<(), OutOfMemory>
    requires { mb_type ≤ 25 }
    ensures { Puts result (ue_word (i_type context.now.is_p mb_type)) maker.old maker.new }
{
    maker.ue(if context.is_p {
        P_TYPES + mb_type
    } else {
        mb_type
    })
}

// mb_type of Intra 16x16 (Table 7-11)
fn type_16x16(mode: u8, levels: &BlockLevels<15>) -> u32
    requires mode { mode ≤ 3 }
    requires chroma { levels.now.chroma_pattern ≤ 2 }
    ensures value { result ≡ type_16x16 mode (residual_of [] levels.now) }
    ensures most { result ≤ 24 }
{
    let luma = if levels.luma_pattern == 0 { 0 } else { 12 };
    u32::from(mode) + 4 * u32::from(levels.chroma_pattern) + luma + 1
}

fn put_i_pcm(
    maker: &mut BitMaker,
    context: &Context,
    luma: &[u8; 256],
    cb: &[u8; 64],
    cr: &[u8; 64],
) -> Result<(), OutOfMemory>
    requires { maker.old.failed ≡ false }
    ensures { Puts result (ue_word (i_type context.now.is_p 25) ++ i_pcm_bits
        (length maker.old.bits + length (ue_word (i_type context.now.is_p 25))) luma.now cb.now
        cr.now) maker.old maker.new }
{
    put_i_type(maker, context, I_PCM)?;
    put_pcm_samples(maker, luma, cb, cr)?;
    Ok(())
}

fn put_i_nxn(
    maker: &mut BitMaker,
    context: &Context,
    modes: &[Option<u8>; 16],
    chroma_mode: u8,
    levels: &BlockLevels<16>,
) -> Result<(), OutOfMemory>
    requires going { maker.old.failed ≡ false }
    requires ranges { IsINxN modes.now chroma_mode (residual_of [] levels.now) }
    ensures { Puts result
        (ue_word (i_type context.now.is_p 0)
        ++ i_nxn_bits context.now modes.now chroma_mode (residual_of [] levels.now)) maker.old
        maker.new }
{
    put_i_type(maker, context, 0)?;
    put_nxn_elements(maker, context, modes, chroma_mode, levels)?;
    Ok(())
}

// what follows mb_type of I_NxN
fn put_nxn_elements(
    maker: &mut BitMaker,
    context: &Context,
    modes: &[Option<u8>; 16],
    chroma_mode: u8,
    levels: &BlockLevels<16>,
) -> Result<(), OutOfMemory>
    requires going { maker.old.failed ≡ false }
    requires ranges { IsINxN modes.now chroma_mode (residual_of [] levels.now) }
    ensures { Puts result (i_nxn_bits context.now modes.now chroma_mode (residual_of [] levels.now))
        maker.old maker.new }
{
    put_each(maker, modes)?;
    maker.ue(u32::from(chroma_mode))?;
    put_pattern(maker, context, true, levels)?;
    Ok(())
}

fn put_i_16x16(
    maker: &mut BitMaker,
    context: &Context,
    mode: u8,
    chroma_mode: u8,
    luma_dc: &Levels<16>,
    levels: &BlockLevels<15>,
) -> Result<(), OutOfMemory>
    requires going { maker.old.failed ≡ false }
    requires ranges { IsI16x16 mode chroma_mode (residual_of luma_dc.now levels.now) }
    ensures { Puts result
        (ue_word (i_type context.now.is_p (type_16x16 mode (residual_of luma_dc.now levels.now)))
        ++ i_16x16_bits context.now chroma_mode (residual_of luma_dc.now levels.now)) maker.old
        maker.new }
{
    put_i_type(maker, context, type_16x16(mode, levels))?;
    put_chroma_mode(maker, chroma_mode)?;
    put_delta(maker, levels)?;
    put_residual_16x16(maker, context, luma_dc, levels)?;
    Ok(())
}

// intra_chroma_pred_mode
fn put_chroma_mode(maker: &mut BitMaker, chroma_mode: u8) -> Result<(), OutOfMemory>
    ensures { Puts result (ue_word chroma_mode) maker.old maker.new }
{
    maker.ue(u32::from(chroma_mode))
}

// mb_qp_delta
fn put_delta<const MAXN: usize>(
    maker: &mut BitMaker,
    levels: &BlockLevels<MAXN>,
) -> Result<(), OutOfMemory>
    ensures { Puts result (se_word levels.now.mb_qp_delta) maker.old maker.new }
{
    maker.se(i32::from(levels.mb_qp_delta))
}

/// coded_block_pattern and what follows it.
pub(crate) fn put_pattern(
    maker: &mut BitMaker,
    context: &Context,
    intra: bool,
    levels: &BlockLevels<16>,
) -> Result<(), OutOfMemory>
    requires going { maker.old.failed ≡ false }
    requires ranges { IsPattern (residual_of [] levels.now) }
    ensures { Puts result (pattern_bits context.now intra (residual_of [] levels.now)) maker.old
        maker.new }
{
    let pattern = pattern_of(levels);
    maker.ue(number_of_pattern(pattern, intra))?;
    put_qp_delta(maker, pattern, levels)?;
    put_residual(maker, context, levels)?;
    Ok(())
}

fn pattern_of(levels: &BlockLevels<16>) -> u8
    requires luma { levels.now.luma_pattern ≤ 15 }
    requires chroma { levels.now.chroma_pattern ≤ 2 }
    ensures value { result ≡ pattern_of (residual_of [] levels.now) }
    ensures few { result < 48 }
{
    levels.luma_pattern + 16 * levels.chroma_pattern
}

// codeNum of a pattern (Table 9-4)
fn number_of_pattern(pattern: u8, intra: bool) -> u32
    requires { pattern < 48 }
    ensures value { result ≡ pattern_number intra pattern }
    ensures few { result < 48 }
{
    'numbers: for k in 0..PATTERNS - 1 {
        if cbp_of(k, intra) == pattern {
            return k;
        }
    }
    PATTERNS - 1
}

// mb_qp_delta, where a block is coded
fn put_qp_delta(
    maker: &mut BitMaker,
    pattern: u8,
    levels: &BlockLevels<16>,
) -> Result<(), OutOfMemory>
    requires { maker.old.failed ≡ false }
    ensures { Puts result (qp_delta_bits pattern levels.now.mb_qp_delta) maker.old maker.new }
{
    if pattern > 0 {
        put_delta(maker, levels)?;
    }
    Ok(())
}
