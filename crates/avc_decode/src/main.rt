//! `avcdec` without the two commands that are for test benches, `compare` and `macroblocks`, so
//! that fewer crates are proved before the first picture.
#![tactic(auto)]

ghost use Rattle.std.specs.Prelude.{false, is_some};
ghost use Rattle.avc_decode.specs.Tasks.{EndsTask, EndsWithout};

use avc_console::{Console, Ending, Watch, cut};
use avc_info::{MacroblockCommand, tell};
use avc_program::{Commands, run, tell_absent};
use avc_request::{MacroblockChoice, Request, Task, Wording};
use avc_run::{decode, drawing_of, show};
use std::alloc::Global;
use std::io;
use std::io::{Read, Write};
use std::process::ExitCode;

fn main(rt: HostRuntime) -> ExitCode {
    ExitCode::from(run(&rt, &SmallProgram))
}

/// All commands but those two.
#[derive(Clone, Copy)]
struct SmallProgram;

impl Commands for SmallProgram {
    const IS_WHOLE: bool = false;

    ghost IS_WHOLE = { false };

    ghost ends = { EndsTask };

    fn carry_out_between<R: Read, W: Write, E: Write, V: Watch>(
        &self,
        rt: &HostRuntime,
        request: &Request<'_>,
        reader: &mut R,
        writer: &mut W,
        console: &mut Console<'_, E, V>,
    ) -> Ending
        ensures { EndsTask request.now.task request.now.other (is_some request.now.numbered)
            console.old.names console.old.is_explained
            (R.remaining reader.old) (R.remaining reader.new) (W.contents writer.old)
            (W.contents writer.new)
            (E.contents console.old.errors) (E.contents console.new.errors) result }
    {
        let alloc = rt.alloc();
        match request.task {
            Task::Decode(output) => decode(alloc, output, reader, writer, console),
            Task::Check(output) => decode(alloc, output, reader, &mut io::sink(), console),
            Task::Show(showing) => {
                let is_each_alone = request.numbered.is_some();
                show(alloc, showing, is_each_alone, reader, writer, console)
            }
            Task::Tell(subject, wording) => {
                tell(alloc, self, subject, wording, reader, writer, console)
            }
            Task::Cut(number) => cut(alloc, number, reader, writer, console),
            Task::Draw(number) => show(alloc, drawing_of(number), true, reader, writer, console),
            Task::Compare(_) => tell_absent(&mut console.errors),
        }
    }
}

impl MacroblockCommand for SmallProgram {
    ghost ends = { λ wording. EndsWithout };

    fn list_macroblocks<R: Read, W: Write, E: Write, V: Watch>(
        &self,
        _alloc: Global,
        _choice: MacroblockChoice,
        _wording: Wording,
        _reader: &mut R,
        _writer: &mut W,
        console: &mut Console<'_, E, V>,
    ) -> Ending {
        tell_absent(&mut console.errors)
    }
}
