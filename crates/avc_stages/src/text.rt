//! What is told of the stage at which a macroblock differs.

ghost use Rattle.std.specs.Prelude.{◌≡◌, ◌++◌, ◌<◌, pos, slice_index_or, OnOk, string_bytes};
ghost use Rattle.std.specs.Fmt.{signed_decimal};
ghost use Rattle.avc_stages.specs.Text.{counts_line, direction, edge_line, edge_words};
ghost use Rattle.avc_stages.specs.Text.{explained_text, lines_along, motion_lines, quarter_line};
ghost use Rattle.avc_stages.specs.Text.{quarter_words, stage_line, stage_words, stages_before};
ghost use Rattle.avc_stages.specs.Text.{vector_words};

use crate::edges::{Edge, MacroblockEdges};
use crate::motion::{InterMotion, Motion};
use crate::stage::{Counts, Stage, stage_of};
use avc_types::{Mv, OutOfMemory};

/// What is told of a macroblock that differs.
#[derive(Clone, Copy)]
pub struct Explained {
    /// Its address in the picture (mbAddr).
    pub address: usize,

    pub counts: Counts,

    pub motion: Motion,

    pub edges: MacroblockEdges,
}

/// Adds what is told of a macroblock that differs.
pub fn add_explained(text: &mut String, explained: &Explained) -> Result<(), OutOfMemory>
    ensures { OnOk result (string_bytes text.new ≡ string_bytes text.old
        ++ explained_text explained.now) }
{
    let Explained {
        address,
        counts,
        motion,
        edges,
    } = *explained;
    add_counts(text, address, counts)?;
    add_stage(text, &motion, stage_of(counts))?;
    add_motion(text, &motion)?;
    add_edges(text, true, &edges.vertical)?;
    add_edges(text, false, &edges.horizontal)?;
    Ok(())
}

fn add_counts(text: &mut String, address: usize, counts: Counts) -> Result<(), OutOfMemory>
    ensures { OnOk result (string_bytes text.new ≡ string_bytes text.old
        ++ counts_line address counts) }
{
    let Counts {
        shown,
        differing,
        unfiltered,
        unchanged,
    } = counts;
    write!(
        text,
        "macroblock {address}: {differing} of its {shown} samples differ, "
    )?;
    write!(
        text,
        "{unchanged} of these are not changed by our deblocking; "
    )?;
    writeln!(
        text,
        "{unfiltered} of the other's are ours before deblocking"
    )?;
    Ok(())
}

fn add_stage(text: &mut String, motion: &Motion, stage: Stage) -> Result<(), OutOfMemory>
    ensures { OnOk result (string_bytes text.new ≡ string_bytes text.old
        ++ stage_line motion.now stage) }
{
    text.push_str("stage: ")?;
    add_stage_words(text, motion, stage)?;
    text.push_str("\n")?;
    Ok(())
}

fn add_stage_words(text: &mut String, motion: &Motion, stage: Stage) -> Result<(), OutOfMemory>
    ensures { OnOk result (string_bytes text.new ≡ string_bytes text.old
        ++ stage_words motion.now stage) }
{
    match stage {
        Stage::Unfiltered => text.push_str(
            "deblocking (8.7): the other's samples are ours before it, so its filter changed none",
        )?,
        Stage::BeforeDeblocking => {
            text.push_str("before deblocking, unless the other filters more: ")?;
            text.push_str(stages_before(motion))?;
        }
        Stage::Deblocking => text.push_str(
            "deblocking (8.7), or before it: our filter changes each sample that differs",
        )?,
    }
    Ok(())
}

// The stages before deblocking.
fn stages_before(motion: &Motion) -> &'static str
    ensures { result.now ≡ stages_before motion.now }
{
    match motion {
        Motion::Intra => "intra prediction (8.3), residual (8.5), or samples of I_PCM (8.3.5)",
        Motion::Inter(motion) => {
            if motion.has_luma_levels {
                "inter prediction (8.4) or residual (8.5)"
            } else {
                "inter prediction (8.4), or residual of chroma (8.5)"
            }
        }
    }
}

fn add_motion(text: &mut String, motion: &Motion) -> Result<(), OutOfMemory>
    ensures { OnOk result (string_bytes text.new ≡ string_bytes text.old
        ++ motion_lines motion.now) }
{
    match motion {
        Motion::Intra => Ok(()),
        Motion::Inter(motion) => {
            add_quarter(text, motion, 0)?;
            add_quarter(text, motion, 1)?;
            add_quarter(text, motion, 2)?;
            add_quarter(text, motion, 3)?;
            Ok(())
        }
    }
}

fn add_quarter(text: &mut String, motion: &InterMotion, quarter: usize) -> Result<(), OutOfMemory>
    requires { quarter < 4 }
    ensures { OnOk result (string_bytes text.new ≡ string_bytes text.old
        ++ quarter_line motion.now quarter) }
{
    add_order_count(text, quarter, order_count_of(motion, quarter))?;
    add_vector(text, motion.vectors[4 * quarter])?;
    add_vector(text, motion.vectors[4 * quarter + 1])?;
    add_vector(text, motion.vectors[4 * quarter + 2])?;
    add_vector(text, motion.vectors[4 * quarter + 3])?;
    text.push_str("\n")?;
    Ok(())
}

fn order_count_of(motion: &InterMotion, quarter: usize) -> i32
    requires { quarter < 4 }
    ensures { result ≡ slice_index_or motion.now.order_counts quarter (pos 0) }
{
    motion.order_counts[quarter]
}

fn add_order_count(text: &mut String, quarter: usize, order_count: i32) -> Result<(), OutOfMemory>
    ensures { OnOk result (string_bytes text.new ≡ string_bytes text.old
        ++ quarter_words quarter order_count) }
{
    write!(text, "quarter {quarter}: PicOrderCnt ")?;
    add_signed(text, order_count)?;
    text.push_str(", vectors")?;
    Ok(())
}

fn add_signed(text: &mut String, number: i32) -> Result<(), OutOfMemory>
    ensures { OnOk result (string_bytes text.new ≡ string_bytes text.old ++ signed_decimal number) }
{
    write!(text, "{number}")?;
    Ok(())
}

fn add_vector(text: &mut String, vector: Mv) -> Result<(), OutOfMemory>
    ensures { OnOk result (string_bytes text.new ≡ string_bytes text.old ++ vector_words vector) }
{
    let Mv { x, y } = vector;
    write!(text, " ({x}, {y})")?;
    Ok(())
}

fn add_edges(text: &mut String, is_vertical: bool, edges: &[Edge; 4]) -> Result<(), OutOfMemory>
    ensures { OnOk result (string_bytes text.new ≡ string_bytes text.old
        ++ lines_along is_vertical edges.now) }
{
    add_edge(text, is_vertical, 0, edges[0])?;
    add_edge(text, is_vertical, 1, edges[1])?;
    add_edge(text, is_vertical, 2, edges[2])?;
    add_edge(text, is_vertical, 3, edges[3])?;
    Ok(())
}

fn add_edge(text: &mut String, is_vertical: bool, n: usize, edge: Edge) -> Result<(), OutOfMemory>
    ensures { OnOk result (string_bytes text.new ≡ string_bytes text.old
        ++ edge_line is_vertical n edge) }
{
    text.push_str(direction(is_vertical))?;
    write!(text, " edge {n}: ")?;
    add_strengths(text, edge)?;
    text.push_str("\n")?;
    Ok(())
}

fn direction(is_vertical: bool) -> &'static str
    ensures { result.now ≡ direction is_vertical }
{
    if is_vertical {
        "vertical"
    } else {
        "horizontal"
    }
}

fn add_strengths(text: &mut String, edge: Edge) -> Result<(), OutOfMemory>
    ensures { OnOk result (string_bytes text.new ≡ string_bytes text.old ++ edge_words edge) }
{
    if !edge.is_filtered {
        text.push_str("not filtered")?;
        return Ok(());
    }
    let [first, second, third, fourth] = edge.strengths;
    write!(text, "{first} {second} {third} {fourth}")?;
    Ok(())
}
