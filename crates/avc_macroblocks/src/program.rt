//! The command `macroblocks`.

ghost use Rattle.std.specs.Prelude.{◌≡◌, IfOk, string_bytes};
ghost use Rattle.avc_console.specs.Telling.{Tells};
ghost use Rattle.avc_selection.specs.Selected.{selection_of};
ghost use Rattle.avc_macroblocks.specs.Program.{EndsMacroblocks, ListsAsked, ListsMacroblocks};
ghost use Rattle.avc_macroblocks.specs.Program.{ListsNear, absence_text, listing_status};
ghost use Rattle.avc_reading.specs.Reading.{asked_in};

use crate::form::ForPeople;
use crate::listing::MacroblockListing;
use avc_console::{Console, Ending, RunFault, fail, write_stream, write_text};
use avc_objects::ForPrograms;
use avc_reading::{MacroblockLines, MacroblockPosition};
use avc_selection::{AtMacroblock, MacroblockForm, Selection};
use avc_types::OutOfMemory;
use std::alloc::Global;
use std::io::{Read, Write};

/// The command `macroblocks`: reads a byte stream (Annex B) to its end, writes a line for each
/// macroblock that is asked for, and tells on the console of a fault, and where the picture that is
/// asked for never begins. No picture is decoded.
pub fn macroblocks<R: Read, W: Write, E: Write, V>(
    alloc: Global,
    listing: MacroblockListing,
    reader: &mut R,
    writer: &mut W,
    console: &mut Console<'_, E, V>,
) -> Ending
    ensures { EndsMacroblocks console.old.names listing (R.remaining reader.old)
        (R.remaining reader.new) (W.contents writer.old)
        (W.contents writer.new) (E.contents console.old.errors) (E.contents console.new.errors)
        result }
{
    match run_macroblocks(alloc, listing, reader, writer) {
        Ok(found) => match absence_text(alloc, listing.picture, found) {
            Ok(text) => Ending {
                status: listing_status(found),
                told: is_told(text.as_str(), &mut console.errors),
            },
            Err(_) => fail(RunFault::Memory, &console.names, &mut console.errors),
        },
        Err(fault) => fail(fault, &console.names, &mut console.errors),
    }
}

// The exit status where the picture that is asked for begins, or never does.
fn listing_status(found: bool) -> u8
    ensures { result ≡ listing_status found }
{
    if found { 0 } else { 1 }
}

// That there is no picture of this number, where one is asked for and never begins.
fn absence_text(alloc: Global, picture: Option<u64>, found: bool) -> Result<String, OutOfMemory>
    ensures { IfOk result (λ text. string_bytes text ≡ absence_text picture found) }
{
    let mut text = String::new(alloc);
    match picture {
        Some(number) if !found => {
            writeln!(text, "avcdec: no picture {number}")?;
            Ok(text)
        }
        _ => Ok(text),
    }
}

// Tells this text, and answers whether all of it was taken.
fn is_told<E: Write>(text: &str, errors: &mut E) -> bool
    ensures { Tells (E.contents errors.old) (E.contents errors.new) text.now result }
{
    match write_text(text, errors) {
        Ok(()) => true,
        Err(_) => false,
    }
}

/// Writes a line for each macroblock of a byte stream (Annex B) that is asked for, those of a slice
/// as soon as the end of its unit has been read, and answers whether the picture that is asked for
/// has begun, if one is.
pub fn run_macroblocks<R: Read, W: Write>(
    alloc: Global,
    listing: MacroblockListing,
    reader: &mut R,
    writer: &mut W,
) -> Result<bool, RunFault>
    ensures { ListsMacroblocks listing (R.remaining reader.old) (R.remaining reader.new)
        (W.contents writer.old) (W.contents writer.new) result }
{
    let picture = listing.picture;
    match (listing.is_json, listing.has_coefficients) {
        (false, false) => run_in(alloc, ForPeople::<false>, picture, reader, writer),
        (false, true) => run_in(alloc, ForPeople::<true>, picture, reader, writer),
        (true, false) => run_in(alloc, ForPrograms::<false>, picture, reader, writer),
        (true, true) => run_in(alloc, ForPrograms::<true>, picture, reader, writer),
    }
}

// Tells the macroblocks in this form.
fn run_in<F: MacroblockForm + Drop, R: Read, W: Write>(
    alloc: Global,
    form: F,
    picture: Option<u64>,
    reader: &mut R,
    writer: &mut W,
) -> Result<bool, RunFault>
    ensures { ListsAsked (asked_in F.form (selection_of picture)) (R.remaining reader.old)
        (R.remaining reader.new)
        (W.contents writer.old) (W.contents writer.new) result }
{
    let mut lines = MacroblockLines::new(alloc, form, Selection::of(picture));
    write_stream(alloc, &mut lines, reader, writer)?;
    Ok(lines.has_begun())
}

/// Writes the line for people of a macroblock and of those of its neighbours that its picture has,
/// without levels, as soon as the end of their units has been read, and answers where the
/// macroblock stands, if it comes. Once it has come no more is read.
pub fn run_macroblocks_at<R: Read, W: Write>(
    alloc: Global,
    macroblock: AtMacroblock,
    reader: &mut R,
    writer: &mut W,
) -> Result<Option<MacroblockPosition>, RunFault>
    ensures { ListsNear macroblock (R.remaining reader.old) (R.remaining reader.new)
        (W.contents writer.old) (W.contents writer.new) result }
{
    let form = ForPeople::<false>;
    let mut lines = MacroblockLines::new(alloc, form, Selection::Near(macroblock));
    write_stream(alloc, &mut lines, reader, writer)?;
    Ok(lines.position())
}
