//! Names of macroblock types.

ghost use Rattle.std.specs.Prelude.{◌≡◌, ◌++◌, [], OnOk, string_bytes};
ghost use Rattle.avc_types.specs.MacroblockFields.{residual_of, syntax_of};
ghost use Rattle.avc_elements.specs.Names.{i_16x16_name, p_name, sub_name, type_name};

use avc_types::{BlockLevels, OutOfMemory, PMbType, SubMbType, Syntax};

/// Adds the name of mb_type (Tables 7-11 and 7-13).
pub fn add_type_name(text: &mut String, syntax: &Syntax) -> Result<(), OutOfMemory>
    ensures { OnOk result (string_bytes text.new ≡ string_bytes text.old
        ++ type_name (syntax_of syntax.now)) }
{
    match syntax {
        Syntax::PSkip => add_word(text, "P_Skip"),
        Syntax::IPcm { .. } => add_word(text, "I_PCM"),
        Syntax::INxN { .. } => add_word(text, "I_NxN"),
        Syntax::I16x16 { mode, levels, .. } => add_16x16_name(text, *mode, levels),
        Syntax::PInter { mb_type, .. } => add_word(text, p_name(mb_type)),
    }
}

fn add_word(text: &mut String, word: &str) -> Result<(), OutOfMemory>
    ensures { OnOk result (string_bytes text.new ≡ string_bytes text.old ++ word.now) }
{
    text.push_str(word)?;
    Ok(())
}

fn add_16x16_name(text: &mut String, mode: u8, levels: &BlockLevels<15>) -> Result<(), OutOfMemory>
    ensures { OnOk result (string_bytes text.new ≡ string_bytes text.old
        ++ i_16x16_name mode (residual_of [] levels.now)) }
{
    let chroma_pattern = levels.chroma_pattern;
    let luma_pattern = levels.luma_pattern;
    write!(text, "I_16x16_{mode}_{chroma_pattern}_{luma_pattern}")?;
    Ok(())
}

// The name of mb_type 0 to 4 of a P macroblock (Table 7-13).
fn p_name(mb_type: &PMbType) -> &'static str
    ensures { result.now ≡ p_name mb_type.now }
{
    match mb_type {
        PMbType::P16x16 => "P_L0_16x16",
        PMbType::P16x8 => "P_L0_L0_16x8",
        PMbType::P8x16 => "P_L0_L0_8x16",
        PMbType::P8x8(_) => "P_8x8",
        PMbType::P8x8Ref0(_) => "P_8x8ref0",
    }
}

/// The name of sub_mb_type (Table 7-17).
pub fn sub_name(sub_mb_type: SubMbType) -> &'static str
    ensures { result.now ≡ sub_name sub_mb_type }
{
    match sub_mb_type {
        SubMbType::Sub8x8 => "P_L0_8x8",
        SubMbType::Sub8x4 => "P_L0_8x4",
        SubMbType::Sub4x8 => "P_L0_4x8",
        SubMbType::Sub4x4 => "P_L0_4x4",
    }
}
