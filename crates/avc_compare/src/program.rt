//! The command `compare`.

ghost use Rattle.std.specs.Prelude.{◌≡◌, ℕ, true, if◌then◌else◌, List, Option, Err, IfErr, OnOk};
ghost use Rattle.std.specs.Io.KnownBytes.{Appends};
ghost use Rattle.avc_console.specs.Program.{TellsRun};
ghost use Rattle.avc_console.specs.Reporting.{report_in, reported_by, IsTold};
ghost use Rattle.avc_formats.specs.Formats.{StopsPicture};
ghost use Rattle.avc_console.specs.Status.{other_status};
ghost use Rattle.avc_compare.specs.Told.{ended_by, fault_names, findings_text, found_pictures};
ghost use Rattle.avc_compare.specs.Told.{is_same, names_of};
ghost use Rattle.avc_compare.specs.Told.{run_fault, run_of, verdict_status, EndsComparing};
ghost use Rattle.avc_compare.specs.Told.{HasMarks};

use crate::comparison::{Comparison, Findings, run_comparison};
use crate::displaced::DisplacedPictures;
use crate::text::add_findings;
use crate::verdict::{CompareFault, Verdict};
use avc_console::{
    Console, Counts, Ending, Names, Reporter, RunFault, Tally, Watch, tell, write_text,
};
use std::alloc::Global;
use std::io::{Read, Write};

/// The command `compare`: compares the pictures of a byte stream (Annex B) with another decoder's,
/// as I420, from a file of this name, and writes where they differ first, or nothing; behind that
/// which of the other's pictures are ours of another number; and before it, if it is wanted, a line
/// on how near each picture is. It tells on the console of each refusal when it comes, and of the
/// fault that ended the run. The status is 1 where something differs and no fault came.
pub fn compare<R: Read, O: Read, W: Write, E: Write, V: Watch>(
    alloc: Global,
    how: Comparison,
    reader: &mut R,
    other: &mut O,
    other_name: Option<&str>,
    writer: &mut W,
    console: &mut Console<'_, E, V>,
) -> Ending
    ensures { EndsComparing console.old.names other_name.entry console.old.is_explained
        how (R.remaining reader.old) (R.remaining reader.new) (O.remaining other.old)
        (O.remaining other.new) (W.contents writer.old) (W.contents writer.new)
        (E.contents console.old.errors) (E.contents console.new.errors) result }
{
    let mut tally = Tally::new(console.is_explained);
    let run = run_comparison(
        alloc,
        how,
        &mut tally,
        &mut console.errors,
        reader,
        other,
        writer,
    );
    match run {
        Ok(findings) => {
            let written = write_findings(alloc, &findings, writer);
            let found = found_with(tally.counts(), &findings.verdict);
            console.watch.end(found, written);
            let ended = ended_by(written, &findings.displaced);
            let decoded = tell_end(
                ended,
                other_name,
                &tally,
                &console.names,
                &mut console.errors,
            );
            end_with(&findings.verdict, decoded)
        }
        Err(fault) => tell_fault(
            fault,
            other_name,
            &tally,
            &console.names,
            &mut console.errors,
        ),
    }
}

// What was found of the stream: beside what was reported, the picture at which the comparison
// ended.
fn found_with(reported: Counts, verdict: &Verdict) -> Counts
    ensures pictures { result.pictures ≡ found_pictures reported.pictures verdict.now }
    ensures refused { result.refused ≡ reported.refused }
{
    match verdict {
        Verdict::Fewer(_) | Verdict::OtherSize(_) => Counts {
            pictures: reported.pictures.saturating_add(1),
            refused: reported.refused,
        },
        Verdict::Same | Verdict::Differs(_) | Verdict::More(_) => reported,
    }
}

// How a comparison ended whose findings were written so.
fn ended_by(
    written: Result<(), RunFault>,
    displaced: &Result<DisplacedPictures, CompareFault>,
) -> Result<(), CompareFault>
    ensures { result ≡ ended_by written displaced.now }
{
    match (written, displaced) {
        (Err(fault), _) => Err(CompareFault::Ours(fault)),
        (Ok(()), Err(fault)) => Err(*fault),
        (Ok(()), Ok(_)) => Ok(()),
    }
}

// Tells of how the comparison ended.
fn tell_end<E: Write>(
    ended: Result<(), CompareFault>,
    other_name: Option<&str>,
    tally: &Tally,
    names: &Names<'_>,
    errors: &mut E,
) -> Ending
    ensures { (start : Option (List ℕ))
        → IsTold start (E.contents errors.old) (reported_by tally.now)
        → TellsRun (names_of names.now other_name.entry ended) tally.now.explained
        (report_in tally.now) (run_of ended) start (E.contents errors.new) result }
{
    match ended {
        Ok(()) => tell(Ok(()), tally, names, errors),
        Err(fault) => tell_fault(fault, other_name, tally, names, errors),
    }
}

// Tells of what ended the comparison before its end.
fn tell_fault<E: Write>(
    fault: CompareFault,
    other_name: Option<&str>,
    tally: &Tally,
    names: &Names<'_>,
    errors: &mut E,
) -> Ending
    ensures { (start : Option (List ℕ))
        → IsTold start (E.contents errors.old) (reported_by tally.now)
        → TellsRun (fault_names names.now other_name.entry fault) tally.now.explained
        (report_in tally.now) (Err (run_fault fault)) start (E.contents errors.new) result }
{
    match fault {
        CompareFault::Ours(fault) => tell(Err(fault), tally, names, errors),
        CompareFault::Theirs => {
            let named = Names {
                input: other_name,
                output: names.output,
            };
            tell(Err(RunFault::Read), tally, &named, errors)
        }
    }
}

// Writes what is told of what the comparison found.
fn write_findings<W: Write>(
    alloc: Global,
    findings: &Findings,
    writer: &mut W,
) -> Result<(), RunFault>
    requires { HasMarks findings.now.verdict }
    ensures ok { OnOk result
        (Appends (W.contents writer.old) (W.contents writer.new) (findings_text findings.now)) }
    ensures err { IfErr result (λ fault. StopsPicture fault true (W.contents writer.old)
        (W.contents writer.new) (findings_text findings.now)) }
{
    let mut text = String::new(alloc);
    add_findings(&mut text, findings)?;
    write_text(&text, writer)
}

// How it ends where the run told of ended so.
fn end_with(verdict: &Verdict, decoded: Ending) -> Ending
    ensures told { result.told ≡ decoded.told }
    ensures status { result.status ≡ verdict_status verdict.now decoded.status }
{
    Ending {
        status: verdict_status(is_same(verdict), decoded.status),
        told: decoded.told,
    }
}

// Whether nothing differs.
fn is_same(verdict: &Verdict) -> bool
    ensures { result ≡ is_same verdict.now }
{
    match verdict {
        Verdict::Same => true,
        Verdict::Differs(_) | Verdict::Fewer(_) | Verdict::More(_) | Verdict::OtherSize(_) => false,
    }
}

// The exit status, by that of the run.
fn verdict_status(is_same: bool, status: u8) -> u8
    ensures { result ≡ (if is_same then status else other_status status) }
{
    if is_same || status != 0 { status } else { 1 }
}
