//! Macroblocks as lines of JSON.

ghost use Rattle.std.specs.Prelude.{◌≡◌, ◌++◌, false, IfOk, OnOk, string_bytes};
ghost use Rattle.serde_json.specs.Data.{string};
ghost use Rattle.serde_json.specs.View.{members_view, view};
ghost use Rattle.serde_json.specs.Written.{has_float};
ghost use Rattle.avc_types.specs.MacroblockFields.{syntax_of};
ghost use Rattle.avc_objects.specs.Json.{chroma_mode_data, fault_data, for_programs};
ghost use Rattle.avc_objects.specs.Json.{macroblock_data, pattern_data, with_coefficients};
ghost use Rattle.avc_objects.specs.JsonLines.{line_of_data, refused_data};
ghost use Rattle.avc_objects.specs.Parts.{with_fault, with_macroblock, with_modes, with_motion};
ghost use Rattle.avc_objects.specs.Parts.{with_place, with_refused, with_type};
ghost use Rattle.avc_elements.specs.Names.{type_name};

use crate::json_lists::{
    derived_modes_value, modes_value, mvd_value, ref_idx_value, residual_value, subs_value,
    vectors_value,
};
use avc_elements::{BlockFacts, add_type_name, pattern_of};
use avc_neigh::{Motion, NearMode};
use avc_selection::{Derived, MacroblockForm, MacroblockPlace};
use avc_types::{Fault, Mb, OutOfMemory, Syntax};
use serde_json::{Map, Value, put};
use std::alloc::Global;

/// Objects of JSON (RFC 8259); where COEFFICIENTS, with the levels of each block.
#[derive(Clone, Copy)]
pub struct ForPrograms<const COEFFICIENTS: bool>;

impl<const COEFFICIENTS: bool> MacroblockForm for ForPrograms<COEFFICIENTS> {
    ghost form = { for_programs COEFFICIENTS };

    fn add_macroblock(
        &self,
        alloc: Global,
        text: &mut String,
        place: MacroblockPlace,
        mb: &Mb,
        derived: &Derived,
    ) -> Result<(), OutOfMemory> {
        add_macroblock_object(alloc, text, COEFFICIENTS, place, mb, derived)
    }

    fn add_fault(
        &self,
        alloc: Global,
        text: &mut String,
        place: MacroblockPlace,
        fault: Fault,
    ) -> Result<(), OutOfMemory> {
        add_value(alloc, text, &fault_value(alloc, place, fault)?)
    }

    fn add_refusal(
        &self,
        alloc: Global,
        text: &mut String,
        unit: u64,
        fault: Fault,
    ) -> Result<(), OutOfMemory> {
        add_value(alloc, text, &refused_value(alloc, unit, fault)?)
    }
}

fn add_macroblock_object(
    alloc: Global,
    text: &mut String,
    has_coefficients: bool,
    place: MacroblockPlace,
    mb: &Mb,
    derived: &Derived,
) -> Result<(), OutOfMemory>
    ensures { OnOk result (string_bytes text.new ≡ string_bytes text.old
        ++ line_of_data (macroblock_data has_coefficients place mb.now derived.now)) }
{
    let value = macroblock_value(alloc, has_coefficients, place, mb.qp, &mb.syntax, derived)?;
    add_value(alloc, text, &value)
}

// Adds a value in a line of its own.
fn add_value(alloc: Global, text: &mut String, value: &Value) -> Result<(), OutOfMemory>
    requires { has_float (view value.now) ≡ false }
    ensures { OnOk result (string_bytes text.new ≡ string_bytes text.old
        ++ line_of_data (view value.now)) }
{
    let line = value.to_string(alloc)?;
    text.push_str(&line)?;
    text.push_str("\n")?;
    Ok(())
}

fn refused_value(alloc: Global, unit: u64, fault: Fault) -> Result<Value, OutOfMemory>
    ensures { IfOk result (λ value. view value ≡ refused_data unit fault) }
{
    let mut map = Map::new(alloc);
    put_refused(&mut map, alloc, unit, fault)?;
    Ok(Value::Object(map))
}

fn fault_value(alloc: Global, place: MacroblockPlace, fault: Fault) -> Result<Value, OutOfMemory>
    ensures { IfOk result (λ value. view value ≡ fault_data place fault) }
{
    let mut map = Map::new(alloc);
    put_place(&mut map, alloc, "fault", place)?;
    put_fault(&mut map, alloc, fault)?;
    Ok(Value::Object(map))
}

fn macroblock_value(
    alloc: Global,
    has_coefficients: bool,
    place: MacroblockPlace,
    qp: u8,
    syntax: &Syntax,
    derived: &Derived,
) -> Result<Value, OutOfMemory>
    ensures data { IfOk result (λ value. view value
        ≡ macroblock_data has_coefficients place (record {
          syntax = syntax_of syntax.now;
          qp = qp;
        }) derived.now) }
    ensures float { IfOk result (λ value. has_float (view value) ≡ false) }
{
    let mut map = Map::new(alloc);
    put_macroblock(
        &mut map,
        alloc,
        has_coefficients,
        place,
        qp,
        syntax,
        derived,
    )?;
    Ok(Value::Object(map))
}

// All members of a macroblock.
fn put_macroblock(
    map: &mut Map<String, Value>,
    alloc: Global,
    has_coefficients: bool,
    place: MacroblockPlace,
    qp: u8,
    syntax: &Syntax,
    derived: &Derived,
) -> Result<(), OutOfMemory>
    ensures { OnOk result (members_view map.new.entries
        ≡ with_macroblock has_coefficients place (record { syntax = syntax_of syntax.now; qp = qp })
        derived.now (members_view map.old.entries)) }
{
    put_type(map, alloc, qp, syntax)?;
    put_modes(map, alloc, syntax, &derived.modes)?;
    put_motion(map, alloc, syntax, &derived.motion)?;
    put_place(map, alloc, "macroblock", place)?;
    let counts = residual_value(alloc, BlockFacts::TotalCoeff, syntax)?;
    put(map, alloc, "total_coeff", counts)?;
    put_coefficients(map, alloc, has_coefficients, syntax)?;
    Ok(())
}

// Its type, what is coded of it beside its prediction, and QP_Y.
fn put_type(
    map: &mut Map<String, Value>,
    alloc: Global,
    qp: u8,
    syntax: &Syntax,
) -> Result<(), OutOfMemory>
    ensures { OnOk result (members_view map.new.entries
        ≡ with_type qp (syntax_of syntax.now) (members_view map.old.entries)) }
{
    put(map, alloc, "QPY", Value::from(qp))?;
    put(map, alloc, "coded_block_pattern", pattern_value(syntax))?;
    let chroma_mode = chroma_mode_value(syntax);
    put(map, alloc, "intra_chroma_pred_mode", chroma_mode)?;
    let mb_type = type_value(alloc, syntax)?;
    put(map, alloc, "mb_type", mb_type)?;
    let subs = subs_value(alloc, syntax)?;
    put(map, alloc, "sub_mb_type", subs)?;
    Ok(())
}

// The prediction modes of its luma blocks, as they are coded and as they follow.
fn put_modes(
    map: &mut Map<String, Value>,
    alloc: Global,
    syntax: &Syntax,
    derived_modes: &[NearMode],
) -> Result<(), OutOfMemory>
    ensures { OnOk result (members_view map.new.entries
        ≡ with_modes (syntax_of syntax.now) derived_modes.now (members_view map.old.entries)) }
{
    let derived = derived_modes_value(alloc, syntax, derived_modes)?;
    put(map, alloc, "Intra4x4PredMode", derived)?;
    let coded = modes_value(alloc, syntax)?;
    put(map, alloc, "rem_intra4x4_pred_mode", coded)?;
    Ok(())
}

// Its reference indices and vectors.
fn put_motion(
    map: &mut Map<String, Value>,
    alloc: Global,
    syntax: &Syntax,
    motion: &[Motion; 16],
) -> Result<(), OutOfMemory>
    ensures { OnOk result (members_view map.new.entries
        ≡ with_motion (syntax_of syntax.now) motion.now (members_view map.old.entries)) }
{
    let vectors = vectors_value(alloc, syntax, motion)?;
    put(map, alloc, "mv_l0", vectors)?;
    let mvd = mvd_value(alloc, syntax)?;
    put(map, alloc, "mvd_l0", mvd)?;
    let ref_idx = ref_idx_value(alloc, syntax)?;
    put(map, alloc, "ref_idx_l0", ref_idx)?;
    Ok(())
}

// What stands at a place in a slice, and where.
fn put_place(
    map: &mut Map<String, Value>,
    alloc: Global,
    kind: &str,
    place: MacroblockPlace,
) -> Result<(), OutOfMemory>
    ensures { OnOk result (members_view map.new.entries
        ≡ with_place kind.now place (members_view map.old.entries)) }
{
    let kind = Value::try_from_str(alloc, kind)?;
    put(map, alloc, "kind", kind)?;
    put(map, alloc, "mbAddr", Value::from(place.address))?;
    put(map, alloc, "slice", Value::from(place.slice))?;
    put(map, alloc, "unit", Value::from(place.unit))?;
    Ok(())
}

// That a unit is refused, and why.
fn put_refused(
    map: &mut Map<String, Value>,
    alloc: Global,
    unit: u64,
    fault: Fault,
) -> Result<(), OutOfMemory>
    ensures { OnOk result (members_view map.new.entries
        ≡ with_refused unit fault (members_view map.old.entries)) }
{
    let kind = Value::try_from_str(alloc, "refused")?;
    put(map, alloc, "kind", kind)?;
    put(map, alloc, "unit", Value::from(unit))?;
    put_fault(map, alloc, fault)?;
    Ok(())
}

// A fault, by its name and its number.
fn put_fault(map: &mut Map<String, Value>, alloc: Global, fault: Fault) -> Result<(), OutOfMemory>
    ensures { OnOk result (members_view map.new.entries
        ≡ with_fault fault (members_view map.old.entries)) }
{
    let name = Value::try_from_str(alloc, fault.name())?;
    put(map, alloc, "name", name)?;
    put(map, alloc, "number", Value::from(fault.number()))?;
    Ok(())
}

// With the levels of all blocks, where they are asked for.
fn put_coefficients(
    map: &mut Map<String, Value>,
    alloc: Global,
    has_coefficients: bool,
    syntax: &Syntax,
) -> Result<(), OutOfMemory>
    ensures { OnOk result (members_view map.new.entries
        ≡ with_coefficients has_coefficients (syntax_of syntax.now)
        (members_view map.old.entries)) }
{
    if has_coefficients {
        let levels = residual_value(alloc, BlockFacts::CoeffLevel, syntax)?;
        put(map, alloc, "coeffLevel", levels)?;
    }
    Ok(())
}

fn type_value(alloc: Global, syntax: &Syntax) -> Result<Value, OutOfMemory>
    ensures { IfOk result (λ value. view value ≡ string (type_name (syntax_of syntax.now))) }
{
    let mut name = String::new(alloc);
    add_type_name(&mut name, syntax)?;
    Ok(Value::String(name))
}

fn pattern_value(syntax: &Syntax) -> Value
    ensures { view result ≡ pattern_data (syntax_of syntax.now) }
{
    match syntax {
        Syntax::PSkip | Syntax::IPcm { .. } => Value::Null,
        Syntax::INxN { levels, .. } => Value::from(pattern_of(levels)),
        Syntax::I16x16 { levels, .. } => Value::from(pattern_of(levels)),
        Syntax::PInter { levels, .. } => Value::from(pattern_of(levels)),
    }
}

fn chroma_mode_value(syntax: &Syntax) -> Value
    ensures { view result ≡ chroma_mode_data (syntax_of syntax.now) }
{
    match syntax {
        Syntax::INxN { chroma_mode, .. } => Value::from(*chroma_mode),
        Syntax::I16x16 { chroma_mode, .. } => Value::from(*chroma_mode),
        _ => Value::Null,
    }
}
