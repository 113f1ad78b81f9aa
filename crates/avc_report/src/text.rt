//! What is told of a comparison.

ghost use Rattle.std.specs.Prelude.{◌≡◌, ◌*◌, ◌++◌, ◌/◌, length, OnOk, Some, string_bytes};
ghost use Rattle.avc_difference.specs.Places.{macroblocks};
ghost use Rattle.avc_report.specs.Text.{component_name, counts_line, decibels};
ghost use Rattle.avc_report.specs.Text.{difference_text, first_line, letter};
ghost use Rattle.avc_report.specs.Text.{macroblock_words, map_lines, psnr_line, row_line};
ghost use Rattle.avc_report.specs.Text.{sample_words};

use crate::psnr::Psnr;
use avc_difference::{
    Difference, Mark, Place, Shape, macroblock_columns, macroblock_rows, macroblocks,
};
use avc_plane::Component;
use avc_types::OutOfMemory;

/// Adds what is told of a picture that differs.
pub fn add_difference(
    text: &mut String,
    number: u64,
    shape: Shape,
    difference: &Difference,
) -> Result<(), OutOfMemory>
    requires { length difference.now.marks.items ≡ macroblocks shape }
    ensures { OnOk result (string_bytes text.new ≡ string_bytes text.old
        ++ difference_text number shape difference.now) }
{
    let columns = macroblock_columns(shape);
    let rows = macroblock_rows(shape);
    add_counts(text, number, difference, macroblocks(shape))?;
    add_first(text, difference)?;
    add_map(text, columns, rows, &difference.marks)?;
    Ok(())
}

fn add_counts(
    text: &mut String,
    number: u64,
    difference: &Difference,
    all_macroblocks: usize,
) -> Result<(), OutOfMemory>
    ensures { OnOk result (string_bytes text.new ≡ string_bytes text.old
        ++ counts_line number difference.now all_macroblocks) }
{
    let samples = difference.samples;
    let all_samples = difference.all_samples;
    let macroblocks = difference.macroblocks;
    write!(
        text,
        "picture {number}: {samples} of {all_samples} samples differ, "
    )?;
    writeln!(text, "in {macroblocks} of {all_macroblocks} macroblocks")?;
    Ok(())
}

fn add_first(text: &mut String, difference: &Difference) -> Result<(), OutOfMemory>
    ensures { OnOk result (string_bytes text.new ≡ string_bytes text.old
        ++ first_line difference.now) }
{
    let ours = difference.ours;
    let theirs = difference.theirs;
    text.push_str("first: ")?;
    add_macroblock(text, difference.place)?;
    text.push_str(", ")?;
    add_sample(text, difference.place)?;
    writeln!(text, ": {ours}, the other's {theirs}")?;
    Ok(())
}

fn add_macroblock(text: &mut String, place: Place) -> Result<(), OutOfMemory>
    ensures { OnOk result (string_bytes text.new ≡ string_bytes text.old
        ++ macroblock_words place) }
{
    let address = place.address;
    let column = place.macroblock_column;
    let row = place.macroblock_row;
    write!(text, "macroblock {address} (column {column}, row {row})")?;
    Ok(())
}

fn add_sample(text: &mut String, place: Place) -> Result<(), OutOfMemory>
    ensures { OnOk result (string_bytes text.new ≡ string_bytes text.old ++ sample_words place) }
{
    let column = place.column;
    let row = place.row;
    let coded_column = place.coded_column;
    let coded_row = place.coded_row;
    text.push_str(component_name(place.component))?;
    write!(
        text,
        " sample at column {column}, row {row} (coded column {coded_column}, row {coded_row})"
    )?;
    Ok(())
}

fn component_name(component: Component) -> &'static str
    ensures { result.now ≡ component_name component }
{
    match component {
        Component::Luma => "luma",
        Component::Cb => "Cb",
        Component::Cr => "Cr",
    }
}

// A line for each row of macroblocks.
fn add_map(
    text: &mut String,
    columns: usize,
    rows: usize,
    marks: &[Mark],
) -> Result<(), OutOfMemory>
    requires { length marks.now ≡ rows * columns }
    ensures { OnOk result (string_bytes text.new ≡ string_bytes text.old
        ++ map_lines columns rows marks.now) }
{
    'rows: for row in 0..rows {
        add_row(text, &marks[row * columns..row * columns + columns])?;
    }
    Ok(())
}

fn add_row(text: &mut String, marks: &[Mark]) -> Result<(), OutOfMemory>
    ensures { OnOk result (string_bytes text.new ≡ string_bytes text.old ++ row_line marks.now) }
{
    'marks: for mark in marks {
        text.push_str(letter(*mark))?;
    }
    text.push_str("\n")?;
    Ok(())
}

fn letter(mark: Mark) -> &'static str
    ensures { result.now ≡ letter mark }
{
    match (mark.luma, mark.chroma) {
        (true, true) => "B",
        (true, false) => "L",
        (false, true) => "C",
        (false, false) => ".",
    }
}

/// Adds a line on how near the picture of this number is to the other, in decibels.
pub fn add_psnr(text: &mut String, number: u64, psnr: Psnr) -> Result<(), OutOfMemory>
    ensures { OnOk result (string_bytes text.new ≡ string_bytes text.old ++ psnr_line number psnr) }
{
    write!(text, "picture {number} psnr")?;
    add_ratio(text, " Y ", psnr.luma)?;
    add_ratio(text, " U ", psnr.cb)?;
    add_ratio(text, " V ", psnr.cr)?;
    text.push_str("\n")?;
    Ok(())
}

fn add_ratio(text: &mut String, name: &str, ratio: Option<u32>) -> Result<(), OutOfMemory>
    ensures { OnOk result (string_bytes text.new ≡ string_bytes text.old
        ++ (name.now ++ decibels ratio)) }
{
    text.push_str(name)?;
    match ratio {
        Some(hundredths) => add_decibels(text, hundredths),
        None => {
            text.push_str("inf")?;
            Ok(())
        }
    }
}

// Hundredths of a decibel, with two decimals.
fn add_decibels(text: &mut String, hundredths: u32) -> Result<(), OutOfMemory>
    ensures { OnOk result (string_bytes text.new ≡ string_bytes text.old
        ++ decibels (Some hundredths)) }
{
    let whole = hundredths / 100;
    let tenths = hundredths / 10 % 10;
    let rest = hundredths % 10;
    write!(text, "{whole}.{tenths}{rest}")?;
    Ok(())
}
