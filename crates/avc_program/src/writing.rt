//! The output, written to where it goes.

use crate::commands::Commands;
use avc_console::{Console, RunFault, Watch, fail, fault_status};
use avc_request::Request;
use avc_shell::{FromPiece, Output, OutputFile, PictureFiles};
use avc_types::OutOfMemory;
use either::{Either, Left, Right};
use std::cell::Cell;
use std::io;
use std::io::{Printer, Read, Write};

/// What is noted while the output is written.
#[derive(Clone, Copy)]
pub(crate) struct Noted<'a> {
    /// Whether whoever reads it has left.
    pub(crate) has_left: &'a Cell<bool>,

    /// How many pictures were written or left out.
    pub(crate) pictures: &'a Cell<u64>,
}

/// How writing the output ended.
#[derive(Clone, Copy)]
pub(crate) struct Written {
    pub(crate) status: u8,

    /// Why a write failed, where one did.
    pub(crate) fault: Option<io::ErrorKind>,

    /// The number of a piece that the stream has not.
    pub(crate) missing: Option<u32>,
}

/// Writes the output of what is read, or of what is read from a piece on.
pub(crate) fn write_out_from<C: Commands, R: Read, E: Write, V: Watch>(
    rt: &HostRuntime,
    commands: &C,
    request: &Request<'_>,
    reader: &mut R,
    noted: Noted<'_>,
    console: &mut Console<'_, E, V>,
) -> Written {
    match source_of(rt, request.from, reader) {
        Ok(mut source) => {
            let written = write_out(rt, commands, request, &mut source, noted, console);
            match source {
                Left(_) => written,
                Right(reader) => ended_from(&reader, request.from, written),
            }
        }
        Err(refused) => Written {
            status: fail(RunFault::from(refused), &console.names, &mut console.errors).status,
            fault: None,
            missing: None,
        },
    }
}

// What is read, or what is read from a piece on. It is of one type, so that the commands are
// compiled once.
fn source_of<'a, R>(
    rt: &HostRuntime,
    from: Option<u32>,
    reader: &'a mut R,
) -> Result<Either<&'a mut R, FromPiece<'a, R>>, OutOfMemory> {
    match from {
        Some(number) => Ok(Right(FromPiece::new(rt.alloc(), number, reader)?)),
        None => Ok(Left(reader)),
    }
}

// How it ended where it was read from a piece on.
fn ended_from<R>(reader: &FromPiece<'_, R>, from: Option<u32>, written: Written) -> Written {
    Written {
        status: if reader.is_out_of_memory() {
            fault_status(RunFault::Memory)
        } else {
            written.status
        },
        fault: written.fault,
        missing: if reader.is_missing() && written.fault.is_none() {
            from
        } else {
            None
        },
    }
}

// Where the output goes: to a file for each picture, to one file, or to the standard output. It is
// of one type, so that the commands are compiled once.
type Destination<'a> = Either<PictureFiles<'a>, Either<OutputFile<'a>, Printer<'a, HostRuntime>>>;

fn destination_of<'a>(
    rt: &'a HostRuntime,
    request: &Request<'a>,
    pictures: &'a Cell<u64>,
) -> Destination<'a> {
    match (request.numbered, request.output) {
        (Some(name), _) => Left(PictureFiles::new(rt, name, request.input, pictures)),
        (None, Some(name)) => Right(Left(OutputFile::new(rt, name))),
        (None, None) => Right(Right(io::writer(rt))),
    }
}

// Writes the output.
fn write_out<C: Commands, R: Read, E: Write, V: Watch>(
    rt: &HostRuntime,
    commands: &C,
    request: &Request<'_>,
    reader: &mut R,
    noted: Noted<'_>,
    console: &mut Console<'_, E, V>,
) -> Written {
    let destination = destination_of(rt, request, noted.pictures);
    let mut output = Output::new(destination, noted.has_left);
    let ending = commands.carry_out_between(rt, request, reader, &mut output, console);
    Written {
        status: ending.status,
        fault: output.fault(),
        missing: None,
    }
}
