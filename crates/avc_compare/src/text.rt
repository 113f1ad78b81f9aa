//! What is told of a comparison.

ghost use Rattle.std.specs.Prelude.{OnOk};
ghost use Rattle.std.specs.List.{flat_map};
ghost use Rattle.avc_compare.specs.Adding.{AddsText};
ghost use Rattle.avc_compare.specs.Told.{displaced_line, fewer_line, findings_text, info_line};
ghost use Rattle.avc_compare.specs.Told.{more_line, sizes_line, verdict_text, HasMarks};

use crate::comparison::Findings;
use crate::displaced::Displaced;
use crate::verdict::{CompareFault, ComparedPicture, Sizes, Verdict};
use avc_console::RunFault;
use avc_report::add_difference;
use avc_types::OutOfMemory;

/// Adds what is written of what a comparison found: nothing where all is the same, and nothing
/// behind a line that could not be written.
pub fn add_findings(text: &mut String, findings: &Findings) -> Result<(), OutOfMemory>
    requires { HasMarks findings.now.verdict }
    ensures { OnOk result (AddsText text.old text.new (findings_text findings.now)) }
{
    match &findings.displaced {
        Ok(displaced) => {
            add_verdict(text, &findings.verdict)?;
            add_displaced(text, displaced.as_slice())
        }
        Err(CompareFault::Ours(RunFault::Write)) => Ok(()),
        Err(_) => add_verdict(text, &findings.verdict),
    }
}

// A line for each picture that is ours of another number.
fn add_displaced(text: &mut String, pictures: &[Displaced]) -> Result<(), OutOfMemory>
    ensures { OnOk result (AddsText text.old text.new (flat_map displaced_line pictures.now)) }
{
    'pictures: for picture in pictures {
        add_picture(text, *picture)?;
    }
    Ok(())
}

fn add_picture(text: &mut String, picture: Displaced) -> Result<(), OutOfMemory>
    ensures { OnOk result (AddsText text.old text.new (displaced_line picture)) }
{
    let Displaced { number, ours } = picture;
    writeln!(text, "picture {number} is our picture {ours}")?;
    Ok(())
}

// What is written of the verdict.
fn add_verdict(text: &mut String, verdict: &Verdict) -> Result<(), OutOfMemory>
    requires { HasMarks verdict.now }
    ensures { OnOk result (AddsText text.old text.new (verdict_text verdict.now)) }
{
    match verdict {
        Verdict::Same => Ok(()),
        Verdict::Differs(differing) => {
            let picture = differing.picture;
            add_info(text, picture)?;
            add_difference(text, picture.number, picture.shape, &differing.difference)
        }
        Verdict::Fewer(number) => add_fewer(text, *number),
        Verdict::More(number) => add_more(text, *number),
        Verdict::OtherSize(sizes) => add_sizes(text, *sizes),
    }
}

fn add_info(text: &mut String, picture: ComparedPicture) -> Result<(), OutOfMemory>
    ensures { OnOk result (AddsText text.old text.new (info_line picture)) }
{
    let ComparedPicture { number, info, .. } = picture;
    writeln!(
        text,
        "picture {number} has frame_num {}, PicOrderCnt {} and its first slice in unit {}",
        info.frame_num, info.pic_order_cnt, info.unit
    )?;
    Ok(())
}

fn add_fewer(text: &mut String, number: u64) -> Result<(), OutOfMemory>
    ensures { OnOk result (AddsText text.old text.new (fewer_line number)) }
{
    writeln!(
        text,
        "the other has fewer pictures: it ends before picture {number} is whole"
    )?;
    Ok(())
}

fn add_more(text: &mut String, number: u64) -> Result<(), OutOfMemory>
    ensures { OnOk result (AddsText text.old text.new (more_line number)) }
{
    writeln!(
        text,
        "the other has more pictures: it goes on behind all {number}"
    )?;
    Ok(())
}

fn add_sizes(text: &mut String, sizes: Sizes) -> Result<(), OutOfMemory>
    ensures { OnOk result (AddsText text.old text.new (sizes_line sizes)) }
{
    let Sizes { ours, theirs } = sizes;
    writeln!(
        text,
        "the other's pictures have {}x{} samples, and ours {}x{}",
        theirs.width, theirs.height, ours.width, ours.height
    )?;
    Ok(())
}
