//! The syntax elements of macroblocks, as words and numbers.

ghost use Rattle.std.specs.Prelude.{◌≡◌, ◌≤◌, ◌+◌, ◌*◌, ◌++◌, [], OnOk, codes, length};
ghost use Rattle.std.specs.Prelude.{string_bytes};
ghost use Rattle.std.specs.Prelude.{take};
ghost use Rattle.std.specs.List.{flat_map};
ghost use Rattle.avc_types.specs.Macroblock.{parts_of, partitions};
ghost use Rattle.avc_types.specs.MacroblockFields.{residual_of, syntax_of};
ghost use Rattle.avc_tools.specs.Lines.{and_number};
ghost use Rattle.avc_selection.specs.Words.{vectors_text};
ghost use Rattle.avc_elements.specs.Words.{and_block, and_derived_mode, and_mode, and_mvd, and_sub};
ghost use Rattle.avc_elements.specs.Words.{blocks_text, chroma_dc_text, chroma_text};
ghost use Rattle.avc_elements.specs.Words.{coefficients_text, derived_modes_text, elements_text};
ghost use Rattle.avc_elements.specs.Words.{level_behind};
ghost use Rattle.avc_elements.specs.Words.{levels_text};
ghost use Rattle.avc_elements.specs.Words.{luma_dc_text, modes_text, mvd_text, pattern_text};
ghost use Rattle.avc_elements.specs.Words.{pattern_of, ref_idx_text, residual_text, subs_text};
ghost use Rattle.avc_elements.specs.declared.block_facts.BlockFacts.TheVariants.{TotalCoeff};
ghost use Rattle.avc_elements.specs.declared.block_facts.BlockFacts.TheVariants.{CoeffLevel};

use crate::block_facts::BlockFacts;
use crate::levels::count_to_last;
use crate::names::sub_name;
use avc_mbsyntax::{part_count, partitions};
use avc_neigh::{Motion, NearMode};
use avc_selection::{add_hyphen, add_vectors};
use avc_types::{BlockLevels, Levels, Mvd, OutOfMemory, PMbType, SubMbType, Syntax};

/// Adds what is told of a macroblock beside mb_type and QP_Y.
pub fn add_elements(
    text: &mut String,
    syntax: &Syntax,
    derived_modes: &[NearMode],
    vectors: &[Motion],
) -> Result<(), OutOfMemory>
    ensures { OnOk result (string_bytes text.new ≡ string_bytes text.old
        ++ elements_text (syntax_of syntax.now) derived_modes.now vectors.now) }
{
    match syntax {
        Syntax::PSkip => add_vectors(text, vectors),
        Syntax::IPcm { .. } => Ok(()),
        Syntax::INxN {
            modes,
            chroma_mode,
            levels,
        } => add_nxn(text, modes, derived_modes, *chroma_mode, levels),
        Syntax::I16x16 {
            chroma_mode,
            luma_dc,
            levels,
            ..
        } => add_16x16(text, *chroma_mode, luma_dc, levels),
        Syntax::PInter {
            mb_type,
            ref_idx,
            mvd,
            levels,
        } => add_inter(text, mb_type, ref_idx, mvd, vectors, levels),
    }
}

// Adds the elements of an I_NxN macroblock.
fn add_nxn(
    text: &mut String,
    modes: &[Option<u8>; 16],
    derived_modes: &[NearMode],
    chroma_mode: u8,
    levels: &BlockLevels<16>,
) -> Result<(), OutOfMemory>
    ensures { OnOk result (string_bytes text.new ≡ string_bytes text.old
        ++ modes_text modes.now ++ derived_modes_text derived_modes.now ++ chroma_text chroma_mode
        ++ residual_text (residual_of [] levels.now)) }
{
    add_modes(text, modes)?;
    add_derived_modes(text, derived_modes)?;
    add_chroma(text, chroma_mode)?;
    add_residual(text, levels)?;
    Ok(())
}

// Adds the elements of an Intra 16x16 macroblock.
fn add_16x16(
    text: &mut String,
    chroma_mode: u8,
    luma_dc: &Levels<16>,
    levels: &BlockLevels<15>,
) -> Result<(), OutOfMemory>
    ensures { OnOk result (string_bytes text.new ≡ string_bytes text.old
        ++ chroma_text chroma_mode ++ luma_dc_text TotalCoeff luma_dc.now
        ++ residual_text (residual_of [] levels.now)) }
{
    add_chroma(text, chroma_mode)?;
    add_luma_dc(text, BlockFacts::TotalCoeff, luma_dc)?;
    add_residual(text, levels)?;
    Ok(())
}

// Adds the elements of an inter macroblock whose vectors are coded.
fn add_inter(
    text: &mut String,
    mb_type: &PMbType,
    ref_idx: &[u8; 4],
    mvd: &[Mvd; 16],
    vectors: &[Motion],
    levels: &BlockLevels<16>,
) -> Result<(), OutOfMemory>
    ensures { OnOk result (string_bytes text.new ≡ string_bytes text.old
        ++ subs_text mb_type.now ++ ref_idx_text (take (partitions mb_type.now) ref_idx.now)
        ++ mvd_text (take (length (parts_of mb_type.now)) mvd.now) ++ vectors_text vectors.now
        ++ residual_text (residual_of [] levels.now)) }
{
    add_subs(text, mb_type)?;
    add_ref_idx(text, &ref_idx[..partitions(mb_type)])?;
    add_mvd(text, &mvd[..part_count(mb_type)])?;
    add_vectors(text, vectors)?;
    add_residual(text, levels)?;
    Ok(())
}

fn add_number(text: &mut String, number: u8) -> Result<(), OutOfMemory>
    ensures { OnOk result (string_bytes text.new ≡ string_bytes text.old ++ and_number number) }
{
    write!(text, " {number}")?;
    Ok(())
}

fn add_mode(text: &mut String, mode: &Option<u8>) -> Result<(), OutOfMemory>
    ensures { OnOk result (string_bytes text.new ≡ string_bytes text.old ++ and_mode mode.now) }
{
    match mode {
        Some(rem) => add_number(text, *rem),
        None => {
            text.push_str(" -")?;
            Ok(())
        }
    }
}

fn add_modes(text: &mut String, modes: &[Option<u8>]) -> Result<(), OutOfMemory>
    ensures { OnOk result (string_bytes text.new ≡ string_bytes text.old ++ modes_text modes.now) }
{
    text.push_str(" modes")?;
    for mode in modes {
        add_mode(text, mode)?;
    }
    Ok(())
}

fn add_derived_mode(text: &mut String, mode: NearMode) -> Result<(), OutOfMemory>
    ensures { OnOk result (string_bytes text.new ≡ string_bytes text.old ++ and_derived_mode mode) }
{
    match mode {
        NearMode::Mode(mode) => add_number(text, mode),
        NearMode::Absent | NearMode::Inter => add_hyphen(text),
    }
}

fn add_derived_modes(text: &mut String, modes: &[NearMode]) -> Result<(), OutOfMemory>
    ensures { OnOk result (string_bytes text.new ≡ string_bytes text.old
        ++ derived_modes_text modes.now) }
{
    text.push_str(" intra4x4")?;
    for mode in modes {
        add_derived_mode(text, *mode)?;
    }
    Ok(())
}

fn add_chroma(text: &mut String, chroma_mode: u8) -> Result<(), OutOfMemory>
    ensures { OnOk result (string_bytes text.new ≡ string_bytes text.old
        ++ chroma_text chroma_mode) }
{
    write!(text, " chroma {chroma_mode}")?;
    Ok(())
}

fn add_subs(text: &mut String, mb_type: &PMbType) -> Result<(), OutOfMemory>
    ensures { OnOk result (string_bytes text.new ≡ string_bytes text.old ++ subs_text mb_type.now) }
{
    match mb_type {
        PMbType::P16x16 | PMbType::P16x8 | PMbType::P8x16 => Ok(()),
        PMbType::P8x8(subs) => add_sub_names(text, subs),
        PMbType::P8x8Ref0(subs) => add_sub_names(text, subs),
    }
}

fn add_sub_names(text: &mut String, subs: &[SubMbType]) -> Result<(), OutOfMemory>
    ensures { OnOk result (string_bytes text.new ≡ string_bytes text.old ++ codes " sub"
        ++ flat_map and_sub subs.now) }
{
    text.push_str(" sub")?;
    for sub in subs {
        add_sub(text, *sub)?;
    }
    Ok(())
}

fn add_sub(text: &mut String, sub: SubMbType) -> Result<(), OutOfMemory>
    ensures { OnOk result (string_bytes text.new ≡ string_bytes text.old ++ and_sub sub) }
{
    text.push_str(" ")?;
    text.push_str(sub_name(sub))?;
    Ok(())
}

fn add_ref_idx(text: &mut String, ref_idx: &[u8]) -> Result<(), OutOfMemory>
    ensures { OnOk result (string_bytes text.new ≡ string_bytes text.old
        ++ ref_idx_text ref_idx.now) }
{
    text.push_str(" ref")?;
    for index in ref_idx {
        add_number(text, *index)?;
    }
    Ok(())
}

fn add_mvd(text: &mut String, mvd: &[Mvd]) -> Result<(), OutOfMemory>
    ensures { OnOk result (string_bytes text.new ≡ string_bytes text.old ++ mvd_text mvd.now) }
{
    text.push_str(" mvd")?;
    for difference in mvd {
        add_difference(text, *difference)?;
    }
    Ok(())
}

fn add_difference(text: &mut String, mvd: Mvd) -> Result<(), OutOfMemory>
    ensures { OnOk result (string_bytes text.new ≡ string_bytes text.old ++ and_mvd mvd) }
{
    let x = mvd.x;
    let y = mvd.y;
    write!(text, " {x},{y}")?;
    Ok(())
}

fn add_residual<const MAXN: usize>(
    text: &mut String,
    levels: &BlockLevels<MAXN>,
) -> Result<(), OutOfMemory>
    ensures { OnOk result (string_bytes text.new ≡ string_bytes text.old
        ++ residual_text (residual_of [] levels.now)) }
{
    add_pattern(text, levels)?;
    add_blocks(text, BlockFacts::TotalCoeff, levels)?;
    add_chroma_dc(text, BlockFacts::TotalCoeff, levels)?;
    Ok(())
}

/// Adds the levels of all blocks of a macroblock.
pub fn add_coefficients(text: &mut String, syntax: &Syntax) -> Result<(), OutOfMemory>
    ensures { OnOk result (string_bytes text.new ≡ string_bytes text.old
        ++ coefficients_text (syntax_of syntax.now)) }
{
    match syntax {
        Syntax::PSkip | Syntax::IPcm { .. } => Ok(()),
        Syntax::INxN { levels, .. } => add_all_levels(text, levels),
        Syntax::I16x16 {
            luma_dc,
            levels,
            ..
        } => add_levels_of_16x16(text, luma_dc, levels),
        Syntax::PInter { levels, .. } => add_all_levels(text, levels),
    }
}

fn add_all_levels(text: &mut String, levels: &BlockLevels<16>) -> Result<(), OutOfMemory>
    ensures { OnOk result (string_bytes text.new ≡ string_bytes text.old
        ++ codes " levels" ++ blocks_text CoeffLevel (residual_of [] levels.now)
        ++ chroma_dc_text CoeffLevel (residual_of [] levels.now)) }
{
    text.push_str(" levels")?;
    add_blocks(text, BlockFacts::CoeffLevel, levels)?;
    add_chroma_dc(text, BlockFacts::CoeffLevel, levels)?;
    Ok(())
}

fn add_levels_of_16x16(
    text: &mut String,
    luma_dc: &Levels<16>,
    levels: &BlockLevels<15>,
) -> Result<(), OutOfMemory>
    ensures { OnOk result (string_bytes text.new ≡ string_bytes text.old ++ codes " levels"
        ++ luma_dc_text CoeffLevel luma_dc.now
        ++ blocks_text CoeffLevel (residual_of [] levels.now)
        ++ chroma_dc_text CoeffLevel (residual_of [] levels.now)) }
{
    text.push_str(" levels")?;
    add_luma_dc(text, BlockFacts::CoeffLevel, luma_dc)?;
    add_blocks(text, BlockFacts::CoeffLevel, levels)?;
    add_chroma_dc(text, BlockFacts::CoeffLevel, levels)?;
    Ok(())
}

/// coded_block_pattern (7.4.5).
pub fn pattern_of<const MAXN: usize>(levels: &BlockLevels<MAXN>) -> u16
    ensures { result ≡ pattern_of (residual_of [] levels.now) }
{
    u16::from(levels.luma_pattern) + 16 * u16::from(levels.chroma_pattern)
}

fn add_pattern<const MAXN: usize>(
    text: &mut String,
    levels: &BlockLevels<MAXN>,
) -> Result<(), OutOfMemory>
    ensures { OnOk result (string_bytes text.new ≡ string_bytes text.old
        ++ pattern_text (residual_of [] levels.now)) }
{
    let pattern = pattern_of(levels);
    write!(text, " cbp {pattern}")?;
    Ok(())
}

fn add_blocks<const MAXN: usize>(
    text: &mut String,
    facts: BlockFacts,
    levels: &BlockLevels<MAXN>,
) -> Result<(), OutOfMemory>
    ensures { OnOk result (string_bytes text.new ≡ string_bytes text.old
        ++ blocks_text facts (residual_of [] levels.now)) }
{
    text.push_str(" luma")?;
    add_each(text, facts, &levels.luma)?;
    text.push_str(" cb")?;
    add_each(text, facts, &levels.cb_ac)?;
    text.push_str(" cr")?;
    add_each(text, facts, &levels.cr_ac)?;
    Ok(())
}

fn add_each<const MAXN: usize>(
    text: &mut String,
    facts: BlockFacts,
    blocks: &[Levels<MAXN>],
) -> Result<(), OutOfMemory>
    ensures { OnOk result (string_bytes text.new ≡ string_bytes text.old
        ++ flat_map (and_block facts) blocks.now) }
{
    for levels in blocks {
        add_block(text, facts, levels)?;
    }
    Ok(())
}

fn add_block<const MAXN: usize>(
    text: &mut String,
    facts: BlockFacts,
    levels: &Levels<MAXN>,
) -> Result<(), OutOfMemory>
    ensures { OnOk result (string_bytes text.new ≡ string_bytes text.old
        ++ and_block facts levels.now) }
{
    match facts {
        BlockFacts::TotalCoeff => add_number(text, levels.total_coeff()),
        BlockFacts::CoeffLevel => {
            let all = *levels.as_array();
            add_levels(text, &all[..count_to_last(all)])
        }
    }
}

fn add_levels(text: &mut String, levels: &[i16]) -> Result<(), OutOfMemory>
    ensures { OnOk result (string_bytes text.new ≡ string_bytes text.old
        ++ levels_text levels.now) }
{
    if levels.is_empty() {
        text.push_str(" -")?;
        return Ok(());
    }
    let first = levels[0];
    write!(text, " {first}")?;
    add_levels_behind(text, &levels[1..])?;
    Ok(())
}

fn add_levels_behind(text: &mut String, levels: &[i16]) -> Result<(), OutOfMemory>
    ensures { OnOk result (string_bytes text.new ≡ string_bytes text.old
        ++ flat_map level_behind levels.now) }
{
    for level in levels {
        add_level_behind(text, *level)?;
    }
    Ok(())
}

fn add_level_behind(text: &mut String, level: i16) -> Result<(), OutOfMemory>
    ensures { OnOk result (string_bytes text.new ≡ string_bytes text.old ++ level_behind level) }
{
    write!(text, ",{level}")?;
    Ok(())
}

fn add_luma_dc(
    text: &mut String,
    facts: BlockFacts,
    luma_dc: &Levels<16>,
) -> Result<(), OutOfMemory>
    ensures { OnOk result (string_bytes text.new ≡ string_bytes text.old
        ++ luma_dc_text facts luma_dc.now) }
{
    text.push_str(" dc")?;
    add_block(text, facts, luma_dc)?;
    Ok(())
}

fn add_chroma_dc<const MAXN: usize>(
    text: &mut String,
    facts: BlockFacts,
    levels: &BlockLevels<MAXN>,
) -> Result<(), OutOfMemory>
    ensures { OnOk result (string_bytes text.new ≡ string_bytes text.old
        ++ chroma_dc_text facts (residual_of [] levels.now)) }
{
    text.push_str(" cbdc")?;
    add_block(text, facts, &levels.cb_dc)?;
    text.push_str(" crdc")?;
    add_block(text, facts, &levels.cr_dc)?;
    Ok(())
}
