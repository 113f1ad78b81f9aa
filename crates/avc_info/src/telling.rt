//! The commands that tell something of a stream without decoding it.

ghost use Rattle.avc_tools.specs.CutPoints.{cut_point_lines_so_far};
ghost use Rattle.avc_tools.specs.Lines.{header_lines_so_far, unit_lines_so_far};
ghost use Rattle.avc_request.specs.declared.request.Wording.{Wording};
ghost use Rattle.avc_info.specs.Info.{info_so_far};
ghost use Rattle.avc_info.specs.Telling.{EndsTelling, EndsTellingOf, ListingEnding};

use crate::form::{ForPrograms, InfoForm};
use crate::program::info;
use avc_console::{Console, Ending, Watch, headers, pieces, units};
use avc_request::{MacroblockChoice, Subject, Wording};
use avc_tools::{ForPeople, ListingForm};
use std::alloc::Global;
use std::io::{Read, Write};

// What is told of a stream, and in which wording.
#[derive(Clone, Copy)]
struct Asked {
    subject: Subject,
    wording: Wording,
}

/// What a program does where it is to tell of macroblocks.
pub trait MacroblockCommand {
    /// How that ends, in a wording.
    ghost ends: { Wording → ListingEnding };

    /// Lists these macroblocks in this wording, or tells that the program has no such command.
    fn list_macroblocks<R: Read, W: Write, E: Write, V: Watch>(
        &self,
        alloc: Global,
        choice: MacroblockChoice,
        wording: Wording,
        reader: &mut R,
        writer: &mut W,
        console: &mut Console<'_, E, V>,
    ) -> Ending
        ensures { ends wording choice console.old.names
            (R.remaining reader.old) (R.remaining reader.new)
            (W.contents writer.old) (W.contents writer.new)
            (E.contents console.old.errors) (E.contents console.new.errors) result };
}

/// Tells something of a stream in this wording; of macroblocks by this command.
pub fn tell<C: MacroblockCommand, R: Read, W: Write, E: Write, V: Watch>(
    alloc: Global,
    command: &C,
    subject: Subject,
    wording: Wording,
    reader: &mut R,
    writer: &mut W,
    console: &mut Console<'_, E, V>,
) -> Ending
    ensures { EndsTelling C.ends wording subject console.old.names
        (R.remaining reader.old) (R.remaining reader.new)
        (W.contents writer.old) (W.contents writer.new)
        (E.contents console.old.errors) (E.contents console.new.errors) result }
{
    let asked = Asked { subject, wording };
    match wording {
        Wording::Plain => tell_in(alloc, command, asked, ForPeople, reader, writer, console),
        Wording::Json => tell_in(alloc, command, asked, ForPrograms, reader, writer, console),
    }
}

// Tells it in this form, which is that of the wording.
fn tell_in<
    C: MacroblockCommand,
    F: ListingForm + InfoForm + Drop,
    R: Read,
    W: Write,
    E: Write,
    V: Watch,
>(
    alloc: Global,
    command: &C,
    asked: Asked,
    form: F,
    reader: &mut R,
    writer: &mut W,
    console: &mut Console<'_, E, V>,
) -> Ending
    ensures { EndsTellingOf asked.subject (unit_lines_so_far F.of_unit)
        (header_lines_so_far F.of_header) (cut_point_lines_so_far F.of_piece) (info_so_far F.text)
        (C.ends asked.wording) console.old.names
        (R.remaining reader.old) (R.remaining reader.new)
        (W.contents writer.old) (W.contents writer.new)
        (E.contents console.old.errors) (E.contents console.new.errors) result }
{
    match asked.subject {
        Subject::Units => units(alloc, form, reader, writer, console),
        Subject::Headers => headers(alloc, form, reader, writer, console),
        Subject::Pieces => pieces(alloc, form, reader, writer, console),
        Subject::Macroblocks(choice) => {
            command.list_macroblocks(alloc, choice, asked.wording, reader, writer, console)
        }
        Subject::Info => info(alloc, form, reader, writer, console),
    }
}
