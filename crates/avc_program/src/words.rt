//! From the words of the command line to the exit status.

use crate::commands::Commands;
use crate::running::carry_out;
use avc_console::{Answer, Names, RunFault, answer_status, fail};
use avc_request::{requested, words_of};
use clap::error::ErrorKind;

/// Does what the words ask for by the commands that there are, and answers the exit status.
pub fn run<C: Commands>(rt: &HostRuntime, commands: &C) -> u8 {
    match words_of(rt) {
        Ok(words) => match requested(rt.alloc(), &words) {
            Ok(request) => carry_out(rt, commands, &request),
            Err(error) => refuse(rt, &error),
        },
        Err(error) => refuse(rt, &error),
    }
}

// The exit status after words that name nothing to do. A fault is told on the standard error.
fn refuse(rt: &HostRuntime, error: &clap::Error) -> u8 {
    let answer = answer(rt, error);
    if let Err(fault) = answer {
        let names = Names {
            input: None,
            output: None,
        };
        let _ = fail(fault, &names, &mut rt.stderr());
    }
    answer_status(answer)
}

// Prints the text that answers the words.
fn answer<R: Print + Eprint>(rt: &R, error: &clap::Error) -> Result<Answer, RunFault> {
    if error.kind() == ErrorKind::OutOfMemory {
        return Err(RunFault::Memory);
    }
    let printed = error.print(rt);
    if error.use_stderr() {
        return Ok(Answer::Misuse);
    }
    match printed {
        Ok(()) => Ok(Answer::Help),
        Err(_) => Err(RunFault::Write),
    }
}
