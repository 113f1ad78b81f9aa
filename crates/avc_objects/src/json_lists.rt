//! The elements of a macroblock that JSON has as lists.

ghost use Rattle.std.specs.Prelude.{◌≡◌, [], ◌∷◌, map, IfOk, OnOk};
ghost use Rattle.serde_json.specs.Data.{array, number};
ghost use Rattle.serde_json.specs.Find.{of_integer};
ghost use Rattle.serde_json.specs.View.{items_of, members_view, view};
ghost use Rattle.avc_types.specs.MacroblockFields.{residual_of, syntax_of};
ghost use Rattle.avc_objects.specs.Json.{all_blocks_data, block_data, blocks_data};
ghost use Rattle.avc_objects.specs.Json.{derived_mode_data, derived_modes_data};
ghost use Rattle.avc_objects.specs.Json.{difference_data, level_data, modes_data, motion_data};
ghost use Rattle.avc_objects.specs.Json.{mvd_data, vector_data, vectors_data};
ghost use Rattle.avc_elements.specs.Vectors.{vectors_of};
ghost use Rattle.avc_objects.specs.Json.{ref_idx_data, residual_data, sub_data, subs_data};
ghost use Rattle.avc_objects.specs.Json.{subs_of};
ghost use Rattle.avc_objects.specs.JsonLines.{count, count_if_given};
ghost use Rattle.avc_objects.specs.Parts.{with_blocks};

use avc_elements::{BlockFacts, count_to_last, sub_name, vectors_of};
use avc_mbsyntax::{part_count, partitions};
use avc_neigh::{Motion, NearMode};
use avc_types::{BlockLevels, Levels, Mv, Mvd, OutOfMemory, PMbType, SubMbType, Syntax};
use serde_json::{Map, Value, json, put};
use std::alloc::Global;

/// rem_intra4x4_pred_mode of each block, or null where it is predicted.
pub(crate) fn modes_value(alloc: Global, syntax: &Syntax) -> Result<Value, OutOfMemory>
    ensures { IfOk result (λ value. view value ≡ modes_data (syntax_of syntax.now)) }
{
    match syntax {
        Syntax::INxN { modes, .. } => {
            let values = mode_values(alloc, modes)?;
            Ok(Value::from(values))
        }
        _ => Ok(Value::from(Vec::new(alloc))),
    }
}

fn mode_values(alloc: Global, modes: &[Option<u8>]) -> Result<Vec<Value>, OutOfMemory>
    ensures { IfOk result (λ values. map view values.items ≡ map count_if_given modes.now) }
{
    let mut values = Vec::new(alloc);
    for mode in modes {
        values.push(mode_value(mode))?;
    }
    Ok(values)
}

fn mode_value(mode: &Option<u8>) -> Value
    ensures { view result ≡ count_if_given mode.now }
{
    match mode {
        Some(rem) => Value::from(*rem),
        None => Value::Null,
    }
}

/// Intra4x4PredMode of each block.
pub(crate) fn derived_modes_value(
    alloc: Global,
    syntax: &Syntax,
    modes: &[NearMode],
) -> Result<Value, OutOfMemory>
    ensures { IfOk result (λ value. view value
        ≡ derived_modes_data (syntax_of syntax.now) modes.now) }
{
    match syntax {
        Syntax::INxN { .. } => {
            let values = derived_mode_values(alloc, modes)?;
            Ok(Value::from(values))
        }
        _ => Ok(Value::from(Vec::new(alloc))),
    }
}

fn derived_mode_values(alloc: Global, modes: &[NearMode]) -> Result<Vec<Value>, OutOfMemory>
    ensures { IfOk result (λ values. map view values.items ≡ map derived_mode_data modes.now) }
{
    let mut values = Vec::new(alloc);
    for mode in modes {
        values.push(derived_mode_value(*mode))?;
    }
    Ok(values)
}

fn derived_mode_value(mode: NearMode) -> Value
    ensures { view result ≡ derived_mode_data mode }
{
    match mode {
        NearMode::Mode(mode) => Value::from(mode),
        NearMode::Absent | NearMode::Inter => Value::Null,
    }
}

/// mv_l0 of each part, where `motion` has that of the luma blocks.
pub(crate) fn vectors_value(
    alloc: Global,
    syntax: &Syntax,
    motion: &[Motion; 16],
) -> Result<Value, OutOfMemory>
    ensures { IfOk result (λ value. view value
        ≡ vectors_data (vectors_of (syntax_of syntax.now) motion.now)) }
{
    let vectors = vectors_of(alloc, syntax, motion)?;
    let values = motion_values(alloc, vectors.as_slice())?;
    Ok(Value::from(values))
}

fn motion_values(alloc: Global, vectors: &[Motion]) -> Result<Vec<Value>, OutOfMemory>
    ensures { IfOk result (λ values. map view values.items ≡ map motion_data vectors.now) }
{
    let mut values = Vec::new(alloc);
    for motion in vectors {
        values.push(motion_value(alloc, *motion)?)?;
    }
    Ok(values)
}

fn motion_value(alloc: Global, motion: Motion) -> Result<Value, OutOfMemory>
    ensures { IfOk result (λ value. view value ≡ motion_data motion) }
{
    match motion {
        Motion::Inter { mv, .. } => vector_value(alloc, mv),
        Motion::Absent | Motion::Intra => Ok(Value::Null),
    }
}

fn vector_value(alloc: Global, mv: Mv) -> Result<Value, OutOfMemory>
    ensures { IfOk result (λ value. view value ≡ vector_data mv) }
{
    components_value(alloc, i32::from(mv.x), i32::from(mv.y))
}

/// ref_idx_l0 of each partition.
pub(crate) fn ref_idx_value(alloc: Global, syntax: &Syntax) -> Result<Value, OutOfMemory>
    ensures { IfOk result (λ value. view value ≡ ref_idx_data (syntax_of syntax.now)) }
{
    match syntax {
        Syntax::PInter {
            mb_type,
            ref_idx,
            ..
        } => {
            let values = number_values(alloc, &ref_idx[..partitions(mb_type)])?;
            Ok(Value::from(values))
        }
        _ => Ok(Value::from(Vec::new(alloc))),
    }
}

fn number_values(alloc: Global, numbers: &[u8]) -> Result<Vec<Value>, OutOfMemory>
    ensures { IfOk result (λ values. map view values.items ≡ map count numbers.now) }
{
    let mut values = Vec::new(alloc);
    for number in numbers {
        values.push(Value::from(*number))?;
    }
    Ok(values)
}

/// mvd_l0 of each part.
pub(crate) fn mvd_value(alloc: Global, syntax: &Syntax) -> Result<Value, OutOfMemory>
    ensures { IfOk result (λ value. view value ≡ mvd_data (syntax_of syntax.now)) }
{
    match syntax {
        Syntax::PInter { mb_type, mvd, .. } => {
            let values = difference_values(alloc, &mvd[..part_count(mb_type)])?;
            Ok(Value::from(values))
        }
        _ => Ok(Value::from(Vec::new(alloc))),
    }
}

fn difference_values(alloc: Global, mvd: &[Mvd]) -> Result<Vec<Value>, OutOfMemory>
    ensures { IfOk result (λ values. map view values.items ≡ map difference_data mvd.now) }
{
    let mut values = Vec::new(alloc);
    for difference in mvd {
        values.push(difference_value(alloc, *difference)?)?;
    }
    Ok(values)
}

fn difference_value(alloc: Global, mvd: Mvd) -> Result<Value, OutOfMemory>
    ensures { IfOk result (λ value. view value ≡ difference_data mvd) }
{
    components_value(alloc, mvd.x, mvd.y)
}

// A horizontal and a vertical component.
fn components_value(alloc: Global, right: i32, down: i32) -> Result<Value, OutOfMemory>
    ensures { IfOk result (λ value. view value
        ≡ array (items_of (number (of_integer right) ∷ number (of_integer down) ∷ []))) }
{
    Ok(json!(in alloc; [right, down])?)
}

/// The names of the four of sub_mb_type.
pub(crate) fn subs_value(alloc: Global, syntax: &Syntax) -> Result<Value, OutOfMemory>
    ensures { IfOk result (λ value. view value ≡ subs_data (syntax_of syntax.now)) }
{
    match syntax {
        Syntax::PInter { mb_type, .. } => {
            let values = sub_values(alloc, subs_of(mb_type))?;
            Ok(Value::from(values))
        }
        _ => Ok(Value::from(Vec::new(alloc))),
    }
}

fn subs_of(mb_type: &PMbType) -> &[SubMbType]
    ensures { result.now ≡ subs_of mb_type.now }
{
    match mb_type {
        PMbType::P8x8(subs) => subs,
        PMbType::P8x8Ref0(subs) => subs,
        _ => &[],
    }
}

fn sub_values(alloc: Global, subs: &[SubMbType]) -> Result<Vec<Value>, OutOfMemory>
    ensures { IfOk result (λ values. map view values.items ≡ map sub_data subs.now) }
{
    let mut values = Vec::new(alloc);
    for sub in subs {
        values.push(sub_value(alloc, *sub)?)?;
    }
    Ok(values)
}

fn sub_value(alloc: Global, sub: SubMbType) -> Result<Value, OutOfMemory>
    ensures { IfOk result (λ value. view value ≡ sub_data sub) }
{
    Ok(Value::try_from_str(alloc, sub_name(sub))?)
}

/// total_coeff of all blocks, or their levels.
pub(crate) fn residual_value(
    alloc: Global,
    facts: BlockFacts,
    syntax: &Syntax,
) -> Result<Value, OutOfMemory>
    ensures { IfOk result (λ value. view value ≡ residual_data facts (syntax_of syntax.now)) }
{
    match syntax {
        Syntax::PSkip | Syntax::IPcm { .. } => Ok(Value::Null),
        Syntax::INxN { levels, .. } => all_blocks_value(alloc, facts, Value::Null, levels),
        Syntax::I16x16 {
            luma_dc,
            levels,
            ..
        } => {
            let luma_dc = block_value(alloc, facts, luma_dc)?;
            all_blocks_value(alloc, facts, luma_dc, levels)
        }
        Syntax::PInter { levels, .. } => all_blocks_value(alloc, facts, Value::Null, levels),
    }
}

fn all_blocks_value<const MAXN: usize>(
    alloc: Global,
    facts: BlockFacts,
    luma_dc: Value,
    levels: &BlockLevels<MAXN>,
) -> Result<Value, OutOfMemory>
    ensures { IfOk result (λ value. view value
        ≡ all_blocks_data facts (view luma_dc) (residual_of [] levels.now)) }
{
    let mut map = Map::new(alloc);
    put(&mut map, alloc, "luma_dc", luma_dc)?;
    put_blocks(&mut map, alloc, facts, levels)?;
    Ok(Value::Object(map))
}

// All blocks but that of the DC levels of luma.
fn put_blocks<const MAXN: usize>(
    map: &mut Map<String, Value>,
    alloc: Global,
    facts: BlockFacts,
    levels: &BlockLevels<MAXN>,
) -> Result<(), OutOfMemory>
    ensures { OnOk result (members_view map.new.entries
        ≡ with_blocks facts (residual_of [] levels.now) (members_view map.old.entries)) }
{
    let cb = blocks_value(alloc, facts, &levels.cb_ac)?;
    put(map, alloc, "cb", cb)?;
    let cb_dc = block_value(alloc, facts, &levels.cb_dc)?;
    put(map, alloc, "cb_dc", cb_dc)?;
    let cr = blocks_value(alloc, facts, &levels.cr_ac)?;
    put(map, alloc, "cr", cr)?;
    let cr_dc = block_value(alloc, facts, &levels.cr_dc)?;
    put(map, alloc, "cr_dc", cr_dc)?;
    let luma = blocks_value(alloc, facts, &levels.luma)?;
    put(map, alloc, "luma", luma)?;
    Ok(())
}

fn blocks_value<const MAXN: usize>(
    alloc: Global,
    facts: BlockFacts,
    blocks: &[Levels<MAXN>],
) -> Result<Value, OutOfMemory>
    ensures { IfOk result (λ value. view value ≡ blocks_data facts blocks.now) }
{
    let values = block_values(alloc, facts, blocks)?;
    Ok(Value::from(values))
}

fn block_values<const MAXN: usize>(
    alloc: Global,
    facts: BlockFacts,
    blocks: &[Levels<MAXN>],
) -> Result<Vec<Value>, OutOfMemory>
    ensures { IfOk result (λ values. map view values.items ≡ map (block_data facts) blocks.now) }
{
    let mut values = Vec::new(alloc);
    for levels in blocks {
        values.push(block_value(alloc, facts, levels)?)?;
    }
    Ok(values)
}

fn block_value<const MAXN: usize>(
    alloc: Global,
    facts: BlockFacts,
    levels: &Levels<MAXN>,
) -> Result<Value, OutOfMemory>
    ensures { IfOk result (λ value. view value ≡ block_data facts levels.now) }
{
    match facts {
        BlockFacts::TotalCoeff => Ok(Value::from(levels.total_coeff())),
        BlockFacts::CoeffLevel => {
            let all = *levels.as_array();
            let values = level_values(alloc, &all[..count_to_last(all)])?;
            Ok(Value::from(values))
        }
    }
}

fn level_values(alloc: Global, levels: &[i16]) -> Result<Vec<Value>, OutOfMemory>
    ensures { IfOk result (λ values. map view values.items ≡ map level_data levels.now) }
{
    let mut values = Vec::new(alloc);
    for level in levels {
        values.push(Value::from(*level))?;
    }
    Ok(values)
}
