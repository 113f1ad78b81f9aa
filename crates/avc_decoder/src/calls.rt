//! A list of calls of a decoder, and their answers.

ghost use Rattle.std.specs.Prelude.{IfOk};
ghost use Rattle.avc_decoder.specs.Machine.{new_machine, Machine, Run, IsCallAnswer};

use crate::decoder::Decoder;
use crate::error::DecodeError;
use crate::event::Event;
use avc_decoder_core::Output;
use avc_types::{Bytes, OutOfMemory};
use std::alloc::Global;

/// A call of a decoder.
#[derive(Drop)]
pub enum Call {
    Feed(Bytes),
    Take,
    Flush,
    Reset,
}

/// The answer to a call.
#[derive(Drop)]
pub enum Reply {
    Fed(Result<(), DecodeError>),
    Taken(Result<Option<Event>, DecodeError>),
    Flushed(Result<(), DecodeError>),
    Reset,
}

/// Makes one call.
pub fn make_call<const MAX: usize>(decoder: &mut Decoder<MAX>, call: &Call) -> Reply
    ensures { IsCallAnswer MAX decoder.old call.now result decoder.new }
{
    match call {
        Call::Feed(piece) => Reply::Fed(decoder.feed(piece.as_slice())),
        Call::Take => Reply::Taken(decoder.take()),
        Call::Flush => Reply::Flushed(decoder.flush()),
        Call::Reset => {
            decoder.reset();
            Reply::Reset
        }
    }
}

/// Makes the calls on a new decoder, one after another: the answers are those of the machine. An
/// `Err` says that the list of answers found no memory.
pub fn run_calls<const MAX: usize>(
    alloc: Global,
    output: Output,
    calls: &[Call],
) -> Result<Vec<Reply>, OutOfMemory>
    ensures { IfOk result (λ replies. (last : Machine) ×
        Run MAX (new_machine output) calls.now replies.items last) }
{
    let mut decoder = Decoder::<MAX>::new(alloc, output);
    let mut replies = Vec::new(alloc);
    for call in calls {
        replies.push(make_call(&mut decoder, call))?;
    }
    Ok(replies)
}
