//! What was asked for is done: the input is opened, the output written, and the end told.

ghost use Rattle.std.specs.Prelude.{◌≡◌, true, false, Ok};
ghost use Rattle.avc_console.specs.Status.{answer_status};
ghost use Rattle.avc_console.specs.declared.exit.Answer.TheVariants.{Misuse};
ghost use Rattle.avc_program.specs.Absent.{is_for_benches};
ghost use Rattle.avc_program.specs.Tasks.{are_losses_told};

use crate::absent::{is_for_benches, tell_absent};
use crate::commands::Commands;
use crate::observer::Observer;
use crate::writing::{Noted, Written, write_out_from};
use avc_console::{Answer, Console, Names, RunFault, answer_status, cut_status, fail};
use avc_progress::Progress;
use avc_request::{Request, Task};
use avc_shell::{
    Errors, FrameTimes, Input, LossLines, RefusalPlaces, absent_picture, ended_status,
    is_output_refused, is_progress_told, is_told_more, tell_absent_picture, tell_container,
    tell_no_piece, tell_outcome, tell_reason,
};
use either::{Either, Left, Right};
use std::cell::Cell;
use std::fs::{File, metadata};
use std::io;
use std::io::Stdin;

/// Does what was asked for, and answers the exit status.
pub(crate) fn carry_out<C: Commands>(rt: &HostRuntime, commands: &C, request: &Request<'_>) -> u8
    ensures { C.IS_WHOLE ≡ false → is_for_benches request.now.task ≡ true →
        result ≡ answer_status (Ok Misuse) }
{
    if !C::IS_WHOLE && is_for_benches(&request.task) {
        return tell_absent(&mut rt.stderr()).status;
    }
    if is_output_refused(rt, request) {
        return answer_status(Ok(Answer::Misuse));
    }
    let reader = match request.input {
        Some(name) => match File::open(rt, name) {
            Ok(file) => Right(file),
            Err(error) => {
                let ending = fail(RunFault::Read, &names_of(request), &mut rt.stderr());
                tell_reason(rt, request.input, Some(error.kind()));
                return ending.status;
            }
        },
        None => Left(rt.stdin()),
    };
    carry_out_on(rt, commands, request, Input::new(reader))
}

fn names_of<'a>(request: &Request<'a>) -> Names<'a> {
    Names {
        input: request.input,
        output: request.output,
    }
}

// Does what was asked for with this input. It is of one type whatever it is, so that the commands
// are compiled once.
fn carry_out_on<C: Commands>(
    rt: &HostRuntime,
    commands: &C,
    request: &Request<'_>,
    mut input: Input<Either<Stdin, File>>,
) -> u8 {
    let has_left = Cell::new(false);
    let progress_stands = Cell::new(false);
    let pictures = Cell::new(0);
    let manner = &request.manner;
    let is_told_more = is_told_more(rt, manner);
    let progress = Progress::new(
        rt,
        is_progress_told(rt, manner.progress),
        size_of(rt, request),
        &progress_stands,
    );
    let beside = Errors::new(rt, manner.is_quiet, &has_left, &progress_stands);
    let times = match times_of(rt, request.frame_times, beside) {
        Ok(times) => times,
        Err(error) => return fail_times(rt, request.frame_times, error.kind()),
    };
    let mut console = Console {
        names: names_of(request),
        is_explained: manner.is_explained,
        errors: Errors::new(rt, manner.is_quiet, &has_left, &progress_stands),
        watch: Observer::new(
            progress,
            RefusalPlaces::new(rt, manner.is_explained),
            LossLines::new(rt, is_told_more && are_losses_told(&request.task)),
            times,
            &pictures,
        ),
    };
    let noted = Noted {
        has_left: &has_left,
        pictures: &pictures,
    };
    let written = write_out_from(rt, commands, request, &mut input, noted, &mut console);
    tell_end(rt, request, is_told_more, &input, written, &console.watch)
}

// Whether it is told where decoding waits and how many slices it passes over.
fn are_losses_told(task: &Task) -> bool
    ensures { result ≡ are_losses_told task.now }
{
    match task {
        Task::Compare(_) => false,
        Task::Decode(_)
        | Task::Show(_)
        | Task::Check(_)
        | Task::Tell(..)
        | Task::Cut(_)
        | Task::Draw(_) => true,
    }
}

// Tells how it ended, behind what the command told itself. Answers the exit status.
fn tell_end<R>(
    rt: &HostRuntime,
    request: &Request<'_>,
    is_told_more: bool,
    input: &Input<R>,
    written: Written,
    watch: &Observer<'_>,
) -> u8 {
    tell_reason(rt, request.input, input.fault());
    tell_reason(rt, request.output, written.fault);
    let status = match watch.times_fault() {
        Some(kind) => fail_times(rt, request.frame_times, kind),
        None => written.status,
    };
    if let Some(number) = written.missing {
        tell_no_piece(rt, number);
        return cut_status(false);
    }
    if status == 0 {
        tell_container(rt, &request.task, input.first());
    }
    match watch.outcome() {
        Some(outcome) => {
            if is_told_more {
                tell_outcome(rt, outcome, watch.passed(), input.first());
            }
            if let Some(number) = absent_picture(&request.task, outcome.pictures, status) {
                tell_absent_picture(rt, number);
            }
            ended_status(
                request.manner.is_strict,
                &request.task,
                outcome.pictures,
                status,
            )
        }
        None => status,
    }
}

// What writes how long pictures take, where that is wanted.
fn times_of<'a>(
    rt: &'a HostRuntime,
    name: Option<&str>,
    errors: Errors<'a>,
) -> io::Result<Option<FrameTimes<'a>>> {
    match name {
        Some(name) => Ok(Some(FrameTimes::new(rt, name, errors)?)),
        None => Ok(None),
    }
}

// Tells that times cannot be written. Answers the exit status.
fn fail_times(rt: &HostRuntime, name: Option<&str>, kind: io::ErrorKind) -> u8 {
    let names = Names {
        input: None,
        output: name,
    };
    let ending = fail(RunFault::Write, &names, &mut rt.stderr());
    tell_reason(rt, name, Some(kind));
    ending.status
}

// How many bytes the input has, where it is a file with a name, and decoded from its beginning.
fn size_of(rt: &HostRuntime, request: &Request<'_>) -> Option<u64> {
    if request.from.is_some() {
        return None;
    }
    let about = metadata(rt, request.input?).ok()?;
    if about.is_file() {
        Some(about.len())
    } else {
        None
    }
}
