//! `avcdec`: decodes a byte stream of H.264 (Annex B), shows what is in it, and cuts it, on the
//! command line.
#![tactic(auto)]

ghost use Rattle.std.specs.Prelude.{◌≡◌, true, is_some};
ghost use Rattle.avc_cli.specs.Tasks.{ends_listing, listing_of, EndsTask};

mod comparing;
mod explaining;

use avc_console::{Console, Ending, Watch, cut};
use avc_info::{MacroblockCommand, tell};
use avc_macroblocks::{MacroblockListing, macroblocks};
use avc_program::{Commands, run};
use avc_request::{MacroblockChoice, Request, Task, Wording};
use avc_run::{decode, drawing_of, show};
use comparing::compare_files;
use std::alloc::Global;
use std::io;
use std::io::{Read, Write};
use std::process::ExitCode;

fn main(rt: HostRuntime) -> ExitCode {
    ExitCode::from(run(&rt, &WholeProgram))
}

/// All commands.
#[derive(Clone, Copy)]
struct WholeProgram;

impl Commands for WholeProgram {
    const IS_WHOLE: bool = true;

    ghost IS_WHOLE = { true };

    ghost ends = { EndsTask };

    fn carry_out_between<R: Read, W: Write, E: Write, V: Watch>(
        &self,
        rt: &HostRuntime,
        request: &Request<'_>,
        reader: &mut R,
        writer: &mut W,
        console: &mut Console<'_, E, V>,
    ) -> Ending
        ensures { EndsTask request.now.task request.now.other (is_some request.now.numbered)
            console.old.names console.old.is_explained
            (R.remaining reader.old) (R.remaining reader.new) (W.contents writer.old)
            (W.contents writer.new)
            (E.contents console.old.errors) (E.contents console.new.errors) result }
    {
        let alloc = rt.alloc();
        match request.task {
            Task::Decode(output) => decode(alloc, output, reader, writer, console),
            Task::Check(output) => decode(alloc, output, reader, &mut io::sink(), console),
            Task::Show(showing) => {
                let is_each_alone = request.numbered.is_some();
                show(alloc, showing, is_each_alone, reader, writer, console)
            }
            Task::Tell(subject, wording) => {
                tell(alloc, self, subject, wording, reader, writer, console)
            }
            Task::Cut(number) => cut(alloc, number, reader, writer, console),
            Task::Draw(number) => show(alloc, drawing_of(number), true, reader, writer, console),
            Task::Compare(comparing) => {
                compare_files(rt, request, comparing, reader, writer, console)
            }
        }
    }
}

impl MacroblockCommand for WholeProgram {
    ghost ends = { ends_listing };

    fn list_macroblocks<R: Read, W: Write, E: Write, V: Watch>(
        &self,
        alloc: Global,
        choice: MacroblockChoice,
        wording: Wording,
        reader: &mut R,
        writer: &mut W,
        console: &mut Console<'_, E, V>,
    ) -> Ending {
        macroblocks(alloc, listing_of(choice, wording), reader, writer, console)
    }
}

// What is asked of a listing of macroblocks.
fn listing_of(choice: MacroblockChoice, wording: Wording) -> MacroblockListing
    ensures { result ≡ listing_of choice wording }
{
    MacroblockListing {
        is_json: match wording {
            Wording::Json => true,
            Wording::Plain => false,
        },
        has_coefficients: choice.has_coefficients,
        picture: choice.picture,
    }
}
