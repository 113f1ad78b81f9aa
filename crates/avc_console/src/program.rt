//! The commands that need no decoder, and how each tells its end.

ghost use Rattle.std.specs.Prelude.{◌≡◌, ℕ, List, Option, IfErr, IfOk, OnErr, false};
ghost use Rattle.std.specs.Io.KnownBytes.{Keeps};
ghost use Rattle.avc_tools.specs.CutPoints.{cut_point_lines_so_far};
ghost use Rattle.avc_tools.specs.Lines.{header_lines_so_far, unit_lines_so_far};
ghost use Rattle.avc_console.specs.Program.{EndsCutting, EndsListing, TellsListing, TellsRun};
ghost use Rattle.avc_console.specs.Reporting.{report_in, reported_by, IsTold};
ghost use Rattle.avc_console.specs.Telling.{Tells, TellsMore};
ghost use Rattle.avc_console.specs.Status.{fault_status};
ghost use Rattle.avc_console.specs.Messages.{cut_text, fault_line};
ghost use Rattle.avc_console.specs.declared.fault.RunFault.TheVariants as faults;

use crate::console::{Console, Names};
use crate::cutting::run_cut;
use crate::exit::{Ending, cut_status, fault_status, refused_status};
use crate::fault::RunFault;
use crate::listing::{run_headers, run_pieces, run_units};
use crate::messages::{no_piece_line, write_fault};
use crate::reporter::Reporter;
use crate::tally::Tally;
use crate::telling::write_what_is_taken;
use avc_tools::ListingForm;
use std::alloc::Global;
use std::io::{Read, Write};

/// Tells how a run ended, behind its refusals: of the fault that ended it, if one did, with the
/// name of the file that it is about.
pub fn tell<E: Write>(
    run: Result<(), RunFault>,
    tally: &Tally,
    names: &Names<'_>,
    errors: &mut E,
) -> Ending
    ensures { (start : Option (List ℕ)) →
        IsTold start (E.contents errors.old) (reported_by tally.now)
        → TellsRun names.now tally.now.explained (report_in tally.now) run start
        (E.contents errors.new) result }
{
    match run {
        Ok(()) => Ending {
            status: refused_status(tally.counts().refused),
            told: tally.is_told(),
        },
        Err(fault) => fail_behind(tally.is_told(), fault, names, errors),
    }
}

// Tells of a fault behind what was told before, where all of that was taken.
fn fail_behind<E: Write>(
    is_told: bool,
    fault: RunFault,
    names: &Names<'_>,
    errors: &mut E,
) -> Ending
    ensures status { result.status ≡ fault_status fault }
    ensures told { TellsMore is_told (E.contents errors.old) (E.contents errors.new)
        (fault_line names.now fault) result.told }
{
    if is_told {
        fail(fault, names, errors)
    } else {
        Ending {
            status: fault_status(fault),
            told: false,
        }
    }
}

/// Tells of a fault, with the name of the file that it is about, where it has one.
pub fn fail<E: Write>(fault: RunFault, names: &Names<'_>, errors: &mut E) -> Ending
    ensures status { result.status ≡ fault_status fault }
    ensures told { Tells (E.contents errors.old) (E.contents errors.new)
        (fault_line names.now fault) result.told }
{
    let told = match write_fault(fault, names, errors) {
        Ok(()) => true,
        Err(_) => false,
    };
    Ending {
        status: fault_status(fault),
        told,
    }
}

/// The command `units`: writes a line of this form for each unit of a byte stream (Annex B), and
/// tells of a fault on the console.
pub fn units<F: ListingForm + Drop, R: Read, W: Write, E: Write, V>(
    alloc: Global,
    form: F,
    reader: &mut R,
    writer: &mut W,
    console: &mut Console<'_, E, V>,
) -> Ending
    ensures { EndsListing console.old.names (unit_lines_so_far F.of_unit) (R.remaining reader.old)
        (R.remaining reader.new) (W.contents writer.old)
        (W.contents writer.new) (E.contents console.old.errors) (E.contents console.new.errors)
        result }
{
    let run = run_units(alloc, form, reader, writer);
    end_listing(run, &console.names, &mut console.errors)
}

/// The command `headers`: writes a line of this form for each parameter set and slice of a byte
/// stream (Annex B), and tells of a fault on the console.
pub fn headers<F: ListingForm + Drop, R: Read, W: Write, E: Write, V>(
    alloc: Global,
    form: F,
    reader: &mut R,
    writer: &mut W,
    console: &mut Console<'_, E, V>,
) -> Ending
    ensures { EndsListing console.old.names (header_lines_so_far F.of_header)
        (R.remaining reader.old) (R.remaining reader.new) (W.contents writer.old)
        (W.contents writer.new) (E.contents console.old.errors) (E.contents console.new.errors)
        result }
{
    let run = run_headers(alloc, form, reader, writer);
    end_listing(run, &console.names, &mut console.errors)
}

/// The command `pieces`: writes a line of this form for each piece that `cut` can write of a byte
/// stream (Annex B), and tells of a fault on the console.
pub fn pieces<F: ListingForm + Drop, R: Read, W: Write, E: Write, V>(
    alloc: Global,
    form: F,
    reader: &mut R,
    writer: &mut W,
    console: &mut Console<'_, E, V>,
) -> Ending
    ensures { EndsListing console.old.names (cut_point_lines_so_far F.of_piece)
        (R.remaining reader.old) (R.remaining reader.new) (W.contents writer.old)
        (W.contents writer.new) (E.contents console.old.errors) (E.contents console.new.errors)
        result }
{
    let run = run_pieces(alloc, form, reader, writer);
    end_listing(run, &console.names, &mut console.errors)
}

/// Tells of the fault that ended a run of `units`, `headers` or `pieces`, if one did.
pub fn end_listing<E: Write>(run: Result<(), RunFault>, names: &Names<'_>, errors: &mut E) -> Ending
    ensures { TellsListing names.now run (E.contents errors.old) (E.contents errors.new) result }
{
    match run {
        Ok(()) => Ending {
            status: 0,
            told: write_what_is_taken(&[], errors),
        },
        Err(fault) => fail(fault, names, errors),
    }
}

/// The command `cut`: writes the piece of this number, counted from 0, of a byte stream (Annex B),
/// and tells on the console of a fault, and where there is no such piece.
pub fn cut<R: Read, W: Write, E: Write, V>(
    alloc: Global,
    number: u32,
    reader: &mut R,
    writer: &mut W,
    console: &mut Console<'_, E, V>,
) -> Ending
    ensures { EndsCutting console.old.names number (R.remaining reader.old) (R.remaining reader.new)
        (W.contents writer.old)
        (W.contents writer.new) (E.contents console.old.errors) (E.contents console.new.errors)
        result }
{
    match run_cut(alloc, number, reader, writer) {
        Ok(found) => match write_no_piece(alloc, found, number, &mut console.errors) {
            Ok(told) => Ending {
                status: cut_status(found),
                told,
            },
            Err(fault) => fail(fault, &console.names, &mut console.errors),
        },
        Err(fault) => fail(fault, &console.names, &mut console.errors),
    }
}

// Tells that there is no piece of this number, where there is none. An error is want of memory for
// the text.
fn write_no_piece<E: Write>(
    alloc: Global,
    found: bool,
    number: u32,
    errors: &mut E,
) -> Result<bool, RunFault>
    ensures ok { IfOk result (λ told. Tells (E.contents errors.old) (E.contents errors.new)
        (cut_text number found) told) }
    ensures err { IfErr result (λ fault. (fault ≡ faults.Memory) ×
        Keeps (E.contents errors.old) (E.contents errors.new)) }
    ensures none { OnErr result (found ≡ false) }
{
    if found {
        return Ok(write_what_is_taken(&[], errors));
    }
    let text = no_piece_line(alloc, number)?;
    Ok(write_what_is_taken(text.as_bytes(), errors))
}
