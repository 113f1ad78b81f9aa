//! Units, headers and pieces as lines of JSON.

ghost use Rattle.std.specs.Prelude.{◌≡◌, [], false, IfOk, OnOk, codes};
ghost use Rattle.avc_params.specs.Tables.{sets_after};
ghost use Rattle.avc_units.specs.Grouping.{set_units};
ghost use Rattle.serde_json.specs.Data.{number, put as with_member};
ghost use Rattle.serde_json.specs.Find.{of_integer};
ghost use Rattle.serde_json.specs.View.{members_view, view};
ghost use Rattle.serde_json.specs.Written.{has_float};
ghost use Rattle.avc_info.specs.Adding.{AddsText};
ghost use Rattle.avc_info.specs.Json.{count};
ghost use Rattle.avc_info.specs.ListingJson.{header_data, header_json, line_of_data};
ghost use Rattle.avc_info.specs.ListingJson.{line_of_data_if, piece_data, piece_json};
ghost use Rattle.avc_info.specs.ListingJson.{pps_data, refused_data, set_data, slice_data};
ghost use Rattle.avc_info.specs.ListingJson.{sps_data, unit_data, unit_json};

use crate::form::ForPrograms;
use crate::json::{put_count, put_text};
use avc_annexb::Unit;
use avc_params::{Pps, Sps};
use avc_slice::Header;
use avc_tools::{
    ListingForm, PieceFacts, UnitFacts, flag_number, order_type, shown_height, shown_width,
    slice_qp_under, type_name,
};
use avc_types::{Fault, OutOfMemory};
use avc_units::{Brought, HeaderReader, ParameterSet};
use serde_json::{Map, Value, put};
use std::alloc::Global;

impl ListingForm for ForPrograms {
    ghost of_unit = { unit_json };

    ghost of_header = { header_json };

    ghost of_piece = { piece_json };

    fn add_unit(
        &self,
        alloc: Global,
        text: &mut String,
        facts: UnitFacts,
    ) -> Result<(), OutOfMemory> {
        add_value(alloc, text, &unit_value(alloc, facts)?)
    }

    fn add_header(
        &self,
        alloc: Global,
        text: &mut String,
        reader: &mut HeaderReader,
        unit: &Unit,
    ) -> Result<(), OutOfMemory> {
        let brought = reader.read(unit)?;
        add_brought(alloc, text, reader, unit.index, &brought)
    }

    fn add_piece(
        &self,
        alloc: Global,
        text: &mut String,
        facts: PieceFacts,
    ) -> Result<(), OutOfMemory> {
        add_value(alloc, text, &piece_value(alloc, facts)?)
    }
}

// Adds a value in a line of its own.
fn add_value(alloc: Global, text: &mut String, value: &Value) -> Result<(), OutOfMemory>
    requires { has_float (view value.now) ≡ false }
    ensures { OnOk result (AddsText text.old text.new (line_of_data (view value.now))) }
{
    let line = value.to_string(alloc)?;
    text.push_str(&line)?;
    text.push_str("\n")?;
    Ok(())
}

fn unit_value(alloc: Global, facts: UnitFacts) -> Result<Value, OutOfMemory>
    ensures { IfOk result (λ value. view value ≡ unit_data facts) }
{
    let mut map = Map::new(alloc);
    put_count(&mut map, alloc, "bytes", facts.bytes)?;
    put_count(&mut map, alloc, "first_byte", facts.first_byte)?;
    put_byte(&mut map, alloc, "nal_ref_idc", facts.nal_ref_idc)?;
    put_byte(&mut map, alloc, "nal_unit_type", facts.nal_unit_type)?;
    put_count(&mut map, alloc, "unit", facts.unit)?;
    Ok(Value::Object(map))
}

fn piece_value(alloc: Global, facts: PieceFacts) -> Result<Value, OutOfMemory>
    ensures { IfOk result (λ value. view value ≡ piece_data facts) }
{
    let mut map = Map::new(alloc);
    put_count(&mut map, alloc, "first_byte", facts.first_byte)?;
    put_count(&mut map, alloc, "pictures", facts.pictures)?;
    put_count(&mut map, alloc, "piece", facts.piece)?;
    put_count(&mut map, alloc, "unit", facts.unit)?;
    Ok(Value::Object(map))
}

// of a unit that brings this
#[tactic(auto, using(crate::proofs::Listings::set_has_no_float))]
fn add_brought(
    alloc: Global,
    text: &mut String,
    reader: &HeaderReader,
    unit: u64,
    brought: &Brought,
) -> Result<(), OutOfMemory>
    ensures { OnOk result (AddsText text.old text.new
        (line_of_data_if (header_data unit (sets_after reader.now) brought.now))) }
{
    match brought {
        Brought::Nothing => Ok(()),
        Brought::Set(set) => add_value(alloc, text, &set_value(alloc, unit, set)?),
        Brought::Slice(header) => {
            add_value(alloc, text, &slice_value(alloc, unit, reader, header)?)
        }
        Brought::Refused(fault) => add_value(alloc, text, &refused_value(alloc, unit, *fault)?),
    }
}

fn set_value(alloc: Global, unit: u64, set: &ParameterSet) -> Result<Value, OutOfMemory>
    ensures { IfOk result (λ value. view value ≡ set_data unit set.now) }
{
    match set {
        ParameterSet::OfSequence(Ok(sps)) => sps_value(alloc, unit, sps),
        ParameterSet::OfPicture(Ok(pps)) => pps_value(alloc, unit, pps),
        ParameterSet::OfSequence(Err(refused)) | ParameterSet::OfPicture(Err(refused)) => {
            refused_value(alloc, unit, refused.fault)
        }
    }
}

fn sps_value(alloc: Global, unit: u64, sps: &Sps) -> Result<Value, OutOfMemory>
    ensures { IfOk result (λ value. view value ≡ sps_data unit sps.now) }
{
    let mut map = Map::new(alloc);
    put_count(&mut map, alloc, "dpb_size", u64::from(sps.dpb_size()))?;
    put_count(&mut map, alloc, "height", shown_height(sps))?;
    put_text(&mut map, alloc, "kind", "sps")?;
    put_count(&mut map, alloc, "level_idc", u64::from(sps.level_idc))?;
    put_count(
        &mut map,
        alloc,
        "max_num_ref_frames",
        u64::from(sps.max_num_ref_frames),
    )?;
    put_count(
        &mut map,
        alloc,
        "pic_order_cnt_type",
        u64::from(order_type(&sps.order_count)),
    )?;
    put_count(&mut map, alloc, "profile_idc", u64::from(sps.profile_idc))?;
    put_count(
        &mut map,
        alloc,
        "seq_parameter_set_id",
        u64::from(sps.seq_parameter_set_id),
    )?;
    put_count(&mut map, alloc, "unit", unit)?;
    put_count(&mut map, alloc, "width", shown_width(sps))?;
    Ok(Value::Object(map))
}

fn pps_value(alloc: Global, unit: u64, pps: &Pps) -> Result<Value, OutOfMemory>
    ensures { IfOk result (λ value. view value ≡ pps_data unit pps.now) }
{
    let mut map = Map::new(alloc);
    let constrained = flag_number(pps.constrained_intra_pred_flag);
    put_byte(&mut map, alloc, "constrained_intra_pred_flag", constrained)?;
    let controlled = flag_number(pps.deblocking_filter_control_present_flag);
    put_byte(
        &mut map,
        alloc,
        "deblocking_filter_control_present_flag",
        controlled,
    )?;
    put_text(&mut map, alloc, "kind", "pps")?;
    put_byte(
        &mut map,
        alloc,
        "num_ref_idx_l0_default_active_minus1",
        pps.num_ref_idx_l0_default_active_minus1,
    )?;
    put_initial_qp(&mut map, alloc, pps)?;
    put_byte(
        &mut map,
        alloc,
        "pic_parameter_set_id",
        pps.pic_parameter_set_id,
    )?;
    put_byte(
        &mut map,
        alloc,
        "seq_parameter_set_id",
        pps.seq_parameter_set_id,
    )?;
    put_count(&mut map, alloc, "unit", unit)?;
    Ok(Value::Object(map))
}

fn put_initial_qp(map: &mut Map<String, Value>, alloc: Global, pps: &Pps) -> Result<(), OutOfMemory>
    ensures { OnOk result (members_view map.new.entries ≡ with_member (codes "pic_init_qp_minus26")
        (number (of_integer pps.now.pic_init_qp_minus26)) (members_view map.old.entries)) }
{
    put(
        map,
        alloc,
        "pic_init_qp_minus26",
        Value::from(pps.pic_init_qp_minus26),
    )?;
    Ok(())
}

// Puts a number of eight bits under a name.
fn put_byte(
    map: &mut Map<String, Value>,
    alloc: Global,
    name: &str,
    number: u8,
) -> Result<(), OutOfMemory>
    ensures { OnOk result (members_view map.new.entries
        ≡ with_member name.now (count number) (members_view map.old.entries)) }
{
    put_count(map, alloc, name, u64::from(number))
}

fn slice_value(
    alloc: Global,
    unit: u64,
    reader: &HeaderReader,
    header: &Header,
) -> Result<Value, OutOfMemory>
    ensures { IfOk result
        (λ value. view value ≡ slice_data unit (sets_after reader.now) header.now) }
{
    let mut map = Map::new(alloc);
    put_byte(&mut map, alloc, "IdrPicFlag", flag_number(header.is_idr()))?;
    let qp = slice_qp_under(reader.pps(header.pic_parameter_set_id), header);
    put_count(&mut map, alloc, "SliceQPY", qp)?;
    let first_mb = u64::from(header.first_mb_in_slice.get());
    put_count(&mut map, alloc, "first_mb_in_slice", first_mb)?;
    put_count(&mut map, alloc, "frame_num", u64::from(header.frame_num))?;
    put_text(&mut map, alloc, "kind", "slice")?;
    put_byte(
        &mut map,
        alloc,
        "pic_parameter_set_id",
        header.pic_parameter_set_id,
    )?;
    put_text(&mut map, alloc, "slice_type", type_name(header))?;
    put_count(&mut map, alloc, "unit", unit)?;
    Ok(Value::Object(map))
}

fn refused_value(alloc: Global, unit: u64, fault: Fault) -> Result<Value, OutOfMemory>
    ensures { IfOk result (λ value. view value ≡ refused_data unit fault) }
{
    let mut map = Map::new(alloc);
    put_text(&mut map, alloc, "kind", "refused")?;
    put_text(&mut map, alloc, "name", fault.name())?;
    put_byte(&mut map, alloc, "number", fault.number())?;
    put_count(&mut map, alloc, "unit", unit)?;
    Ok(Value::Object(map))
}
