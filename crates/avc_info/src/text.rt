//! A stream's facts for people: the lines of its sequence, its counts and its refusals.

ghost use Rattle.std.specs.Prelude.{◌≡◌, ◌++◌, IfOk, OnOk, codes, string_bytes};
ghost use Rattle.std.specs.List.{flat_map};
ghost use Rattle.avc_info.specs.Adding.{AddsText};
ghost use Rattle.avc_info.specs.PictureText.{info_text};
ghost use Rattle.avc_info.specs.Text.{clock_text, counts_line, frames_line, if_given};
ghost use Rattle.avc_info.specs.Text.{is_level_1b, kind_line, kind_lines};
ghost use Rattle.avc_info.specs.Text.{level_name, level_text, profile_name, profile_text};
ghost use Rattle.avc_info.specs.Text.{newline, references_text, refusal_text, refused_line};
ghost use Rattle.avc_info.specs.Text.{refused_set_line, refused_text, set_head_line, set_head_text};
ghost use Rattle.avc_info.specs.Text.{set_size_text};
ghost use Rattle.avc_info.specs.Text.{sequence_text, shape_line, size_text, stream_text};
ghost use Rattle.avc_info.specs.Text.{thousandths, thousandths_if_given};

use crate::picture_text::add_picture;
use crate::refusals::{Refusal, RefusalKind};
use crate::sizes::add_sizes;
use crate::slice_counts::SliceCounts;
use crate::stream_facts::{SetHead, StreamFacts};
use avc_sequence::{SequenceFacts, Size, frame_rate};
use avc_types::OutOfMemory;
use std::alloc::Global;

/// A stream's facts for people, where it has so many bytes.
pub fn info_text(alloc: Global, facts: &StreamFacts, bytes: u64) -> Result<String, OutOfMemory>
    ensures { IfOk result (λ text. string_bytes text ≡ info_text facts.now bytes) }
{
    let mut text = String::new(alloc);
    add_stream(&mut text, facts)?;
    add_picture(&mut text, bytes, facts.counts.pictures, facts.sequence())?;
    add_sizes(&mut text, &facts.sizes)?;
    Ok(text)
}

fn add_stream(text: &mut String, facts: &StreamFacts) -> Result<(), OutOfMemory>
    ensures { OnOk result (AddsText text.old text.new (stream_text facts.now)) }
{
    add_sequence(text, facts.sequence())?;
    add_counts(text, &facts.counts)?;
    add_refused(text, facts)?;
    add_kinds(text, facts.refusals.kinds())?;
    add_refused_set(text, facts.refused_set)
}

fn add_sequence(text: &mut String, sequence: &Option<SequenceFacts>) -> Result<(), OutOfMemory>
    ensures { OnOk result (AddsText text.old text.new (sequence_text sequence.now)) }
{
    match sequence {
        Some(sequence) => {
            add_shape(text, sequence)?;
            add_frames(text, sequence)?;
            Ok(())
        }
        None => Ok(()),
    }
}

fn add_shape(text: &mut String, sequence: &SequenceFacts) -> Result<(), OutOfMemory>
    ensures { OnOk result (AddsText text.old text.new (shape_line sequence.now)) }
{
    add_size(text, sequence)?;
    add_profile(text, sequence)?;
    add_level(text, sequence)?;
    add_clock(text, sequence)?;
    end_line(text)?;
    Ok(())
}

fn add_size(text: &mut String, sequence: &SequenceFacts) -> Result<(), OutOfMemory>
    ensures { OnOk result (AddsText text.old text.new (size_text sequence.now)) }
{
    let width = sequence.width;
    let height = sequence.height;
    write!(text, "size {width}x{height}")?;
    Ok(())
}

fn add_profile(text: &mut String, sequence: &SequenceFacts) -> Result<(), OutOfMemory>
    ensures { OnOk result (AddsText text.old text.new (profile_text sequence.now)) }
{
    let name = profile_name(sequence);
    write!(text, ", profile {name}")?;
    Ok(())
}

/// The profile's name (A.2).
pub fn profile_name(sequence: &SequenceFacts) -> &'static str
    ensures { result.now ≡ profile_name sequence.now }
{
    match sequence.profile_idc {
        66 => {
            if sequence.constraint_set1_flag {
                "Constrained Baseline"
            } else {
                "Baseline"
            }
        }
        77 => "Main",
        _ => "Extended",
    }
}

fn add_level(text: &mut String, sequence: &SequenceFacts) -> Result<(), OutOfMemory>
    ensures { OnOk result (AddsText text.old text.new (level_text sequence.now)) }
{
    text.push_str(", level ")?;
    add_level_name(text, sequence)
}

/// Adds the level's number (A.3.1).
pub(crate) fn add_level_name(text: &mut String, sequence: &SequenceFacts) -> Result<(), OutOfMemory>
    ensures { OnOk result (AddsText text.old text.new (level_name sequence.now)) }
{
    if is_level_1b(sequence) {
        text.push_str("1b")?;
        return Ok(());
    }
    let whole = sequence.level_idc / 10;
    let tenth = sequence.level_idc % 10;
    write!(text, "{whole}.{tenth}")?;
    Ok(())
}

/// Whether it is level 1b (7.4.2.1.1).
fn is_level_1b(sequence: &SequenceFacts) -> bool
    ensures { result ≡ is_level_1b sequence.now }
{
    sequence.level_idc == 9 || (sequence.level_idc == 11 && sequence.constraint_set3_flag)
}

fn add_clock(text: &mut String, sequence: &SequenceFacts) -> Result<(), OutOfMemory>
    ensures { OnOk result (AddsText text.old text.new (clock_text sequence.now)) }
{
    add_thousandths_if_given(text, ", frame rate", frame_rate(sequence.timing))
}

/// Adds a number by its name, where it is given.
pub(crate) fn add_if_given(
    text: &mut String,
    name: &str,
    number: Option<u64>,
) -> Result<(), OutOfMemory>
    ensures { OnOk result (AddsText text.old text.new (if_given name.now number)) }
{
    text.push_str(name)?;
    match number {
        Some(number) => write!(text, " {number}")?,
        None => text.push_str(" not given")?,
    }
    Ok(())
}

/// Adds a number by its name, where its thousandths are given.
pub(crate) fn add_thousandths_if_given(
    text: &mut String,
    name: &str,
    number: Option<u64>,
) -> Result<(), OutOfMemory>
    ensures { OnOk result (AddsText text.old text.new (thousandths_if_given name.now number)) }
{
    text.push_str(name)?;
    match number {
        Some(number) => add_thousandths(text, number),
        None => {
            text.push_str(" not given")?;
            Ok(())
        }
    }
}

fn add_thousandths(text: &mut String, number: u64) -> Result<(), OutOfMemory>
    ensures { OnOk result (AddsText text.old text.new (codes " " ++ thousandths number)) }
{
    let whole = number / 1000;
    let tenth = number / 100 % 10;
    let hundredth = number / 10 % 10;
    let thousandth = number % 10;
    write!(text, " {whole}.{tenth}{hundredth}{thousandth}")?;
    Ok(())
}

fn add_frames(text: &mut String, sequence: &SequenceFacts) -> Result<(), OutOfMemory>
    ensures { OnOk result (AddsText text.old text.new (frames_line sequence.now)) }
{
    add_references(text, sequence)?;
    add_if_given(text, ", reorder number", sequence.max_num_reorder_frames)?;
    end_line(text)?;
    Ok(())
}

fn add_references(text: &mut String, sequence: &SequenceFacts) -> Result<(), OutOfMemory>
    ensures { OnOk result (AddsText text.old text.new (references_text sequence.now)) }
{
    let references = sequence.max_num_ref_frames;
    write!(text, "reference frames {references}")?;
    Ok(())
}

fn add_counts(text: &mut String, counts: &SliceCounts) -> Result<(), OutOfMemory>
    ensures { OnOk result (AddsText text.old text.new (counts_line counts.now)) }
{
    let pictures = counts.pictures;
    let sequences = counts.sequences;
    let slices = counts.most_slices;
    writeln!(
        text,
        "pictures {pictures}, sequences {sequences}, slices a picture {slices}"
    )?;
    Ok(())
}

fn add_refused(text: &mut String, facts: &StreamFacts) -> Result<(), OutOfMemory>
    ensures { OnOk result (AddsText text.old text.new (refused_line facts.now)) }
{
    add_refused_count(text, facts.refused)?;
    add_first_refusal(text, facts.first_refusal)?;
    end_line(text)?;
    Ok(())
}

fn add_refused_count(text: &mut String, refused: u64) -> Result<(), OutOfMemory>
    ensures { OnOk result (AddsText text.old text.new (refused_text refused)) }
{
    write!(text, "refused {refused}")?;
    Ok(())
}

fn add_first_refusal(text: &mut String, refusal: Option<Refusal>) -> Result<(), OutOfMemory>
    ensures { OnOk result (AddsText text.old text.new (refusal_text refusal)) }
{
    match refusal {
        Some(refusal) => {
            let unit = refusal.unit;
            let number = refusal.fault.number();
            let name = refusal.fault.name();
            write!(text, ", the first unit {unit}: {number} {name}")?;
            Ok(())
        }
        None => Ok(()),
    }
}

// Where there are more than one.
fn add_kinds(text: &mut String, kinds: &[RefusalKind]) -> Result<(), OutOfMemory>
    ensures { OnOk result (AddsText text.old text.new (kind_lines kinds.now)) }
{
    if kinds.len() < 2 {
        return Ok(());
    }
    add_kind_lines(text, kinds)
}

fn add_kind_lines(text: &mut String, kinds: &[RefusalKind]) -> Result<(), OutOfMemory>
    ensures { OnOk result (AddsText text.old text.new (flat_map kind_line kinds.now)) }
{
    for kind in kinds {
        add_kind_line(text, *kind)?;
    }
    Ok(())
}

fn add_kind_line(text: &mut String, kind: RefusalKind) -> Result<(), OutOfMemory>
    ensures { OnOk result (AddsText text.old text.new (kind_line kind)) }
{
    let number = kind.fault.number();
    let name = kind.fault.name();
    let count = kind.count;
    let unit = kind.first_unit;
    writeln!(
        text,
        "refused as {number} {name}: {count}, the first unit {unit}"
    )?;
    Ok(())
}

// What the first sequence parameter set begins with that is refused.
fn add_refused_set(text: &mut String, head: Option<SetHead>) -> Result<(), OutOfMemory>
    ensures { OnOk result (AddsText text.old text.new (refused_set_line head)) }
{
    match head {
        Some(head) => add_set_head(text, head),
        None => Ok(()),
    }
}

fn add_set_head(text: &mut String, head: SetHead) -> Result<(), OutOfMemory>
    ensures { OnOk result (AddsText text.old text.new (set_head_line head)) }
{
    add_set_identity(text, head)?;
    add_set_size(text, head.coded)?;
    end_line(text)
}

fn add_set_identity(text: &mut String, head: SetHead) -> Result<(), OutOfMemory>
    ensures { OnOk result (AddsText text.old text.new (set_head_text head)) }
{
    let profile_idc = head.profile_idc;
    let level_idc = head.level_idc;
    write!(
        text,
        "refused sequence: profile_idc {profile_idc}, level_idc {level_idc}"
    )?;
    Ok(())
}

fn add_set_size(text: &mut String, size: Option<Size>) -> Result<(), OutOfMemory>
    ensures { OnOk result (AddsText text.old text.new (set_size_text size)) }
{
    match size {
        Some(size) => {
            let width = size.width;
            let height = size.height;
            write!(text, ", {width}x{height}")?;
        }
        None => text.push_str(", size not given")?,
    }
    Ok(())
}

pub(crate) fn end_line(text: &mut String) -> Result<(), OutOfMemory>
    ensures { OnOk result (AddsText text.old text.new newline) }
{
    text.push_str("\n")?;
    Ok(())
}
