//! Intra macroblocks (7.3.5).
ghost use Rattle.std.specs.Prelude.{◌≡◌, ◌≤◌, true, IfOk, All, IfSome};
ghost use Rattle.avc_types.specs.declared.mb.Syntax.TheVariants.{I16x16, INxN};
ghost use Rattle.avc_bits.specs.Bits.{times};
ghost use Rattle.avc_mbsyntax.specs.Ranges.{IsSyntax};
ghost use Rattle.avc_mbsyntax.specs.Reading.{block_mode, i_16x16_mb, i_mb, i_nxn_mb, i_pcm_mb};
ghost use Rattle.avc_mbsyntax.specs.Reading.{luma_pattern_of};
ghost use Rattle.avc_mbsyntax.specs.Steps.{ReadsInto, context_of, levels_in_16x16, nxn_levels_in};

use crate::context::LentContext;
use crate::elements::read_elements;
use crate::residual::{
    Patterns, qp_after, read_after_pattern, read_intra_dc, read_levels, read_qp_delta, zero_levels,
};
use crate::samples::read_samples;
use avc_bits::BitReader;
use avc_types::{Fault, Levels, Mb, Syntax};
use avc_vlc::read_cbp;

/// Reads a macroblock with this mb_type of an I slice (Table 7-11).
pub(crate) fn read_i_mb(
    reader: &mut BitReader,
    context: &LentContext<'_>,
    mb_type: u32,
    mb: &mut Mb,
) -> Result<(), Fault>
    requires { mb_type ≤ 25 }
    ensures read { ReadsInto result mb.new (i_mb (context_of context.now) mb_type) reader.old
        reader.new }
    ensures range { IfOk result (λ _. IsSyntax context.now.num_ref_idx_active mb.new.syntax) }
    ensures quantiser { context.now.qp ≤ 51 → IfOk result (λ _. mb.new.qp ≤ 51) }
{
    match mb_type {
        0 => read_i_nxn(reader, context, mb),
        25 => read_i_pcm(reader, context, mb),
        _ => read_i_16x16(reader, context, (mb_type - 1) as u8, mb),
    }
}

fn read_modes(reader: &mut BitReader, modes: &mut [Option<u8>; 16]) -> Result<(), Fault>
    ensures read { ReadsInto result modes.new (times 16 block_mode) reader.old reader.new }
    ensures range { IfOk result (λ _. All (λ m. IfSome m (λ rem. rem ≤ 7)) modes.new) }
{
    read_elements(reader, 16, 1, modes)
}

fn read_i_nxn(reader: &mut BitReader, context: &LentContext<'_>, mb: &mut Mb) -> Result<(), Fault>
    ensures read { ReadsInto result mb.new (i_nxn_mb (context_of context.now)) reader.old
        reader.new }
    ensures range { IfOk result (λ _. IsSyntax context.now.num_ref_idx_active mb.new.syntax) }
    ensures quantiser { context.now.qp ≤ 51 → IfOk result (λ _. mb.new.qp ≤ 51) }
{
    let mut modes = [None; 16];
    read_modes(reader, &mut modes)?;
    let chroma_mode = reader.ue_to(3)? as u8;
    let pattern = read_cbp(reader, true)?;
    set_nxn(&mut mb.syntax, modes, chroma_mode);
    let Syntax::INxN { levels, .. } = &mut mb.syntax else {
        unreachable!()
    };
    read_after_pattern(reader, context, pattern, levels)?;
    mb.qp = qp_after(context.qp, levels.mb_qp_delta);
    Ok(())
}

// An I_NxN macroblock with these modes; its levels are those that stand there from one before, or
// none.
fn set_nxn(syntax: &mut Syntax, modes: [Option<u8>; 16], chroma_mode: u8)
    ensures { syntax.new ≡ INxN modes chroma_mode (nxn_levels_in syntax.old) }
{
    match syntax {
        Syntax::INxN {
            chroma_mode: place,
            ..
        } => *place = chroma_mode,
        _ => {
            *syntax = Syntax::INxN {
                modes,
                chroma_mode,
                levels: zero_levels(),
            };
            return;
        }
    }
    let Syntax::INxN { modes: place, .. } = syntax else {
        unreachable!()
    };
    *place = modes;
}

fn read_i_16x16(
    reader: &mut BitReader,
    context: &LentContext<'_>,
    n: u8,
    mb: &mut Mb,
) -> Result<(), Fault>
    requires { n ≤ 24 }
    ensures read { ReadsInto result mb.new (i_16x16_mb (context_of context.now) n) reader.old
        reader.new }
    ensures range { IfOk result (λ _. IsSyntax context.now.num_ref_idx_active mb.new.syntax) }
    ensures quantiser { context.now.qp ≤ 51 → IfOk result (λ _. mb.new.qp ≤ 51) }
{
    let chroma_mode = reader.ue_to(3)? as u8;
    let mb_qp_delta = read_qp_delta(reader)?;
    let patterns = Patterns {
        luma_pattern: luma_pattern_of(n),
        chroma_pattern: n / 4 % 3,
        mb_qp_delta,
    };
    let luma_dc = read_intra_dc(reader, context)?;
    set_16x16(&mut mb.syntax, n % 4, chroma_mode, luma_dc);
    let Syntax::I16x16 { levels, .. } = &mut mb.syntax else {
        unreachable!()
    };
    read_levels(reader, context, patterns, levels)?;
    mb.qp = qp_after(context.qp, mb_qp_delta);
    Ok(())
}

// An Intra 16x16 macroblock with these modes and DC levels, likewise.
fn set_16x16(syntax: &mut Syntax, mode: u8, chroma_mode: u8, luma_dc: Levels<16>)
    ensures { syntax.new ≡ I16x16 mode chroma_mode luma_dc (levels_in_16x16 syntax.old) }
{
    match syntax {
        Syntax::I16x16 {
            mode: mode_place,
            chroma_mode: chroma_place,
            luma_dc: dc_place,
            ..
        } => {
            *mode_place = mode;
            *chroma_place = chroma_mode;
            *dc_place = luma_dc;
        }
        _ => {
            *syntax = Syntax::I16x16 {
                mode,
                chroma_mode,
                luma_dc,
                levels: zero_levels(),
            };
        }
    }
}

// CodedBlockPatternLuma, by mb_type - 1 (Table 7-11)
fn luma_pattern_of(n: u8) -> u8
    ensures value { result ≡ luma_pattern_of n }
    ensures most { result ≤ 15 }
{
    if n >= 12 { 15 } else { 0 }
}

fn read_i_pcm(reader: &mut BitReader, context: &LentContext<'_>, mb: &mut Mb) -> Result<(), Fault>
    ensures read { ReadsInto result mb.new (i_pcm_mb (context_of context.now)) reader.old
        reader.new }
    ensures range { IfOk result (λ _. IsSyntax context.now.num_ref_idx_active mb.new.syntax) }
    ensures quantiser { context.now.qp ≤ 51 → IfOk result (λ _. mb.new.qp ≤ 51) }
{
    reader.align()?;
    let luma = read_samples(reader)?;
    let cb = read_samples(reader)?;
    let cr = read_samples(reader)?;
    mb.syntax = Syntax::IPcm { luma, cb, cr };
    mb.qp = context.qp;
    Ok(())
}
