//! What is told of the macroblock at which the difference of two decoders may begin.

use avc_compare::{
    CompareFault, Comparison, Differing, DisplacedPictures, Findings, Verdict, run_comparison,
};
use avc_console::{RunFault, Tally, write_text};
use avc_replay::tell_macroblock;
use avc_shell::{Input, OtherPictures};
use std::fs::File;
use std::io;
use std::io::Write;

/// Where there is nothing more to tell.
const NO_FILES: &str = "the stage of the first difference is told of files with names alone\n";

/// Where the other's picture is one of ours, so that no stage of decoding it can differ.
const IN_ANOTHER_ORDER: &str =
    "stage: output (C.4): the other's picture is ours of another number\n";

/// Where the macroblock does not come again as it did.
const NOT_TOLD: &str = "the stage of the first difference is not told: it did not come again\n";

/// Compares the two files again, and where a picture differs tells of the macroblock at which that
/// may begin.
pub(crate) fn explain_difference<W: Write>(
    rt: &HostRuntime,
    how: Comparison,
    name: Option<&str>,
    other: Option<&str>,
    writer: &mut W,
) -> Result<(), RunFault> {
    let (Some(name), Some(other)) = (name, other) else {
        return write_text(NO_FILES, writer);
    };
    let differing = match difference(rt, how, name, other)? {
        FirstDifference::Samples(differing) => differing,
        FirstDifference::Order => return write_text(IN_ANOTHER_ORDER, writer),
        FirstDifference::Other => return Ok(()),
    };
    let mut lines = opened(rt, name)?;
    let mut stream = opened(rt, name)?;
    let unit = differing.picture.info.unit;
    let pairs = &differing.difference.origin;
    if tell_macroblock(rt.alloc(), unit, pairs, &mut lines, &mut stream, writer)? {
        return Ok(());
    }
    write_text(NOT_TOLD, writer)
}

/// How two decoders differ.
enum FirstDifference {
    /// In samples of this picture.
    Samples(Differing),

    /// The other's first picture that differs is ours of another number.
    Order,

    /// In no picture.
    Other,
}

// How they differ first.
fn difference(
    rt: &HostRuntime,
    how: Comparison,
    name: &str,
    other: &str,
) -> Result<FirstDifference, RunFault> {
    let mut stream = opened(rt, name)?;
    let mut pictures = OtherPictures::new(opened(rt, other)?);
    let run = run_comparison(
        rt.alloc(),
        how,
        &mut Tally::new(false),
        &mut io::sink(),
        &mut stream,
        &mut pictures,
        &mut io::sink(),
    );
    match run {
        Ok(findings) => Ok(difference_in(findings)),
        Err(_) => Ok(FirstDifference::Other),
    }
}

fn difference_in(findings: Findings) -> FirstDifference {
    let Findings { verdict, displaced } = findings;
    match verdict {
        Verdict::Differs(differing) => {
            if is_displaced(&displaced, differing.picture.number) {
                FirstDifference::Order
            } else {
                FirstDifference::Samples(differing)
            }
        }
        _ => FirstDifference::Other,
    }
}

// Whether the other's picture of this number, the first that differs, is ours of another.
fn is_displaced(displaced: &Result<DisplacedPictures, CompareFault>, number: u64) -> bool {
    match displaced {
        Ok(pictures) => match pictures.as_slice().first() {
            Some(first) => first.number == number,
            None => false,
        },
        Err(_) => false,
    }
}

// The file with this name, from its beginning.
fn opened(rt: &HostRuntime, name: &str) -> Result<Input<File>, RunFault> {
    match File::open(rt, name) {
        Ok(file) => Ok(Input::new(file)),
        Err(_) => Err(RunFault::Read),
    }
}
