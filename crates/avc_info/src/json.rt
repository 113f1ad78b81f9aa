//! A stream's facts as JSON.

ghost use Rattle.std.specs.Prelude.{◌≡◌, IfOk, OnOk, Some, codes, map, string_bytes};
ghost use Rattle.serde_json.specs.Data.{put as with_member, string};
ghost use Rattle.serde_json.specs.View.{members_view, view};
ghost use Rattle.avc_info.specs.Json.{clock_of, colour_data, count as count_data, count_if_given};
ghost use Rattle.avc_info.specs.Json.{crop_data, facts_data, flag_data, json_line};
ghost use Rattle.avc_info.specs.Json.{kind_data, kinds_data};
ghost use Rattle.avc_info.specs.Json.{ratio_data, refusal_data, sequence_data, sequence_if_given};
ghost use Rattle.avc_info.specs.Json.{set_head_data, size_data, size_if_given, sizes_data};
ghost use Rattle.avc_info.specs.Text.{level_name, profile_name};

use crate::refusals::{Refusal, RefusalKind};
use crate::stream_facts::{SetHead, StreamFacts};
use crate::text::{add_level_name, profile_name};
use avc_params::{Colour, Timing};
use avc_presentation::Ratio;
use avc_sequence::{Crop, SequenceFacts, Size, bit_rate, duration, rate_ratio};
use avc_types::OutOfMemory;
use serde_json::{Map, Value, json, put};
use std::alloc::Global;

/// A stream's facts for programs, where it has so many bytes: a line of JSON.
#[tactic(auto, using(crate::proofs::Floats::none_is_float))]
pub fn info_json(alloc: Global, facts: &StreamFacts, bytes: u64) -> Result<String, OutOfMemory>
    ensures { IfOk result (λ text. string_bytes text ≡ json_line facts.now bytes) }
{
    let mut text = facts_value(alloc, facts, bytes)?.to_string(alloc)?;
    text.push_str("\n")?;
    Ok(text)
}

fn facts_value(alloc: Global, facts: &StreamFacts, bytes: u64) -> Result<Value, OutOfMemory>
    ensures { IfOk result (λ value. view value ≡ facts_data facts.now bytes) }
{
    let mut map = Map::new(alloc);
    let pictures = facts.counts.pictures;
    let timing = clock_of(facts.sequence());
    let bits = count_if_given(bit_rate(timing, bytes, pictures));
    put(&mut map, alloc, "bits_per_second", bits)?;
    put_count(
        &mut map,
        alloc,
        "coded_video_sequences",
        facts.counts.sequences,
    )?;
    let lasts = count_if_given(duration(timing, pictures));
    put(&mut map, alloc, "duration_in_milliseconds", lasts)?;
    let first_refusal = refusal_value(alloc, facts.first_refusal)?;
    put(&mut map, alloc, "first_refusal", first_refusal)?;
    let others = Value::from(facts.sizes.others);
    put(&mut map, alloc, "more_sizes", others)?;
    put_count(&mut map, alloc, "pictures", pictures)?;
    let kinds = kinds_value(alloc, facts.refusals.kinds())?;
    put(&mut map, alloc, "refusals", kinds)?;
    let refused_set = set_head_value(alloc, facts.refused_set)?;
    put(&mut map, alloc, "refused_sequence", refused_set)?;
    put_count(&mut map, alloc, "refused_units", facts.refused)?;
    let sequence = sequence_if_given(alloc, facts.sequence())?;
    put(&mut map, alloc, "sequence", sequence)?;
    let sizes = sizes_value(alloc, facts.sizes.first.as_slice())?;
    put(&mut map, alloc, "sizes", sizes)?;
    put_count(
        &mut map,
        alloc,
        "slices_per_picture",
        facts.counts.most_slices,
    )?;
    Ok(Value::Object(map))
}

fn clock_of(sequence: &Option<SequenceFacts>) -> Option<Timing>
    ensures { result ≡ clock_of sequence.now }
{
    match sequence {
        Some(sequence) => sequence.timing,
        None => None,
    }
}

/// Puts a number under a name.
pub(crate) fn put_count(
    map: &mut Map<String, Value>,
    alloc: Global,
    name: &str,
    count: u64,
) -> Result<(), OutOfMemory>
    ensures { OnOk result (members_view map.new.entries
        ≡ with_member name.now (count_data count) (members_view map.old.entries)) }
{
    put(map, alloc, name, Value::from(count))?;
    Ok(())
}

/// Puts a text under a name.
pub(crate) fn put_text(
    map: &mut Map<String, Value>,
    alloc: Global,
    name: &str,
    text: &str,
) -> Result<(), OutOfMemory>
    ensures { OnOk result (members_view map.new.entries
        ≡ with_member name.now (string text.now) (members_view map.old.entries)) }
{
    let text = Value::try_from_str(alloc, text)?;
    put(map, alloc, name, text)?;
    Ok(())
}

fn put_level(
    map: &mut Map<String, Value>,
    alloc: Global,
    sequence: &SequenceFacts,
) -> Result<(), OutOfMemory>
    ensures { OnOk result (members_view map.new.entries
        ≡ with_member (codes "level") (string (level_name sequence.now))
        (members_view map.old.entries)) }
{
    let mut name = String::new(alloc);
    add_level_name(&mut name, sequence)?;
    put(map, alloc, "level", Value::String(name))?;
    Ok(())
}

fn put_profile(
    map: &mut Map<String, Value>,
    alloc: Global,
    sequence: &SequenceFacts,
) -> Result<(), OutOfMemory>
    ensures { OnOk result (members_view map.new.entries
        ≡ with_member (codes "profile") (string (profile_name sequence.now))
        (members_view map.old.entries)) }
{
    let name = Value::try_from_str(alloc, profile_name(sequence))?;
    put(map, alloc, "profile", name)?;
    Ok(())
}

fn sequence_if_given(alloc: Global, sequence: &Option<SequenceFacts>) -> Result<Value, OutOfMemory>
    ensures { IfOk result (λ value. view value ≡ sequence_if_given sequence.now) }
{
    match sequence {
        Some(sequence) => sequence_value(alloc, sequence),
        None => Ok(Value::Null),
    }
}

fn sequence_value(alloc: Global, sequence: &SequenceFacts) -> Result<Value, OutOfMemory>
    ensures { IfOk result (λ value. view value ≡ sequence_data sequence.now) }
{
    let mut map = Map::new(alloc);
    let place = count_if_given(sequence.chroma_place);
    put(&mut map, alloc, "chroma_sample_loc_type_top_field", place)?;
    let coded = size_value(alloc, sequence.coded)?;
    put(&mut map, alloc, "coded_size", coded)?;
    let colour = colour_value(alloc, sequence.colour)?;
    put(&mut map, alloc, "colour", colour)?;
    let crop = crop_value(alloc, sequence.crop)?;
    put(&mut map, alloc, "crop", crop)?;
    let frame_rate = ratio_value(alloc, rate_ratio(sequence.timing))?;
    put(&mut map, alloc, "frame_rate", frame_rate)?;
    put_count(&mut map, alloc, "height", sequence.height)?;
    put_level(&mut map, alloc, sequence)?;
    put_count(
        &mut map,
        alloc,
        "max_num_ref_frames",
        u64::from(sequence.max_num_ref_frames),
    )?;
    let reordered = count_if_given(sequence.max_num_reorder_frames);
    put(&mut map, alloc, "max_num_reorder_frames", reordered)?;
    put_profile(&mut map, alloc, sequence)?;
    let aspect = ratio_value(alloc, sequence.sample_aspect)?;
    put(&mut map, alloc, "sample_aspect_ratio", aspect)?;
    let full_range = flag_value(sequence.full_range);
    put(&mut map, alloc, "video_full_range_flag", full_range)?;
    put_count(&mut map, alloc, "width", sequence.width)?;
    Ok(Value::Object(map))
}

fn ratio_value(alloc: Global, ratio: Option<Ratio>) -> Result<Value, OutOfMemory>
    ensures { IfOk result (λ value. view value ≡ ratio_data ratio) }
{
    match ratio {
        Some(ratio) => Ok(json!(in alloc; {
            "denominator": ratio.denominator,
            "numerator": ratio.numerator
        })?),
        None => Ok(Value::Null),
    }
}

fn size_value(alloc: Global, size: Size) -> Result<Value, OutOfMemory>
    ensures { IfOk result (λ value. view value ≡ size_data size) }
{
    let mut map = Map::new(alloc);
    put_count(&mut map, alloc, "height", size.height)?;
    put_count(&mut map, alloc, "width", size.width)?;
    Ok(Value::Object(map))
}

fn sizes_value(alloc: Global, sizes: &[Size]) -> Result<Value, OutOfMemory>
    ensures { IfOk result (λ value. view value ≡ sizes_data sizes.now) }
{
    let values = size_values(alloc, sizes)?;
    Ok(Value::from(values))
}

fn size_values(alloc: Global, sizes: &[Size]) -> Result<Vec<Value>, OutOfMemory>
    ensures { IfOk result (λ values. map view values.items ≡ map size_data sizes.now) }
{
    let mut values = Vec::new(alloc);
    for size in sizes {
        values.push(size_value(alloc, *size)?)?;
    }
    Ok(values)
}

fn crop_value(alloc: Global, crop: Crop) -> Result<Value, OutOfMemory>
    ensures { IfOk result (λ value. view value ≡ crop_data crop) }
{
    let mut map = Map::new(alloc);
    put_count(&mut map, alloc, "bottom", crop.bottom)?;
    put_count(&mut map, alloc, "left", crop.left)?;
    put_count(&mut map, alloc, "right", crop.right)?;
    put_count(&mut map, alloc, "top", crop.top)?;
    Ok(Value::Object(map))
}

fn colour_value(alloc: Global, colour: Option<Colour>) -> Result<Value, OutOfMemory>
    ensures { IfOk result (λ value. view value ≡ colour_data colour) }
{
    match colour {
        Some(colour) => Ok(json!(in alloc; {
            "colour_primaries": u64::from(colour.colour_primaries),
            "matrix_coefficients": u64::from(colour.matrix_coefficients),
            "transfer_characteristics": u64::from(colour.transfer_characteristics)
        })?),
        None => Ok(Value::Null),
    }
}

fn flag_value(flag: Option<bool>) -> Value
    ensures { view result ≡ flag_data flag }
{
    match flag {
        Some(set) => Value::from(set),
        None => Value::Null,
    }
}

fn count_if_given(count: Option<u64>) -> Value
    ensures { view result ≡ count_if_given count }
{
    match count {
        Some(count) => Value::from(count),
        None => Value::Null,
    }
}

fn refusal_value(alloc: Global, refusal: Option<Refusal>) -> Result<Value, OutOfMemory>
    ensures { IfOk result (λ value. view value ≡ refusal_data refusal) }
{
    match refusal {
        Some(refusal) => Ok(json!(in alloc; {
            "name": refusal.fault.name(),
            "number": u64::from(refusal.fault.number()),
            "unit": refusal.unit
        })?),
        None => Ok(Value::Null),
    }
}

fn kinds_value(alloc: Global, kinds: &[RefusalKind]) -> Result<Value, OutOfMemory>
    ensures { IfOk result (λ value. view value ≡ kinds_data kinds.now) }
{
    let values = kind_values(alloc, kinds)?;
    Ok(Value::from(values))
}

fn kind_values(alloc: Global, kinds: &[RefusalKind]) -> Result<Vec<Value>, OutOfMemory>
    ensures { IfOk result (λ values. map view values.items ≡ map kind_data kinds.now) }
{
    let mut values = Vec::new(alloc);
    for kind in kinds {
        values.push(kind_value(alloc, *kind)?)?;
    }
    Ok(values)
}

fn kind_value(alloc: Global, kind: RefusalKind) -> Result<Value, OutOfMemory>
    ensures { IfOk result (λ value. view value ≡ kind_data kind) }
{
    Ok(json!(in alloc; {
        "count": kind.count,
        "first_unit": kind.first_unit,
        "name": kind.fault.name(),
        "number": u64::from(kind.fault.number())
    })?)
}

fn set_head_value(alloc: Global, head: Option<SetHead>) -> Result<Value, OutOfMemory>
    ensures { IfOk result (λ value. view value ≡ set_head_data head) }
{
    match head {
        Some(head) => set_value(alloc, head),
        None => Ok(Value::Null),
    }
}

fn set_value(alloc: Global, head: SetHead) -> Result<Value, OutOfMemory>
    ensures { IfOk result (λ value. view value ≡ set_head_data (Some head)) }
{
    let mut map = Map::new(alloc);
    let coded = size_if_given(alloc, head.coded)?;
    put(&mut map, alloc, "coded_size", coded)?;
    put_count(&mut map, alloc, "level_idc", u64::from(head.level_idc))?;
    put_count(&mut map, alloc, "profile_idc", u64::from(head.profile_idc))?;
    Ok(Value::Object(map))
}

fn size_if_given(alloc: Global, size: Option<Size>) -> Result<Value, OutOfMemory>
    ensures { IfOk result (λ value. view value ≡ size_if_given size) }
{
    match size {
        Some(size) => size_value(alloc, size),
        None => Ok(Value::Null),
    }
}
