//! What a unit does, by what it finds.

ghost use Rattle.std.specs.Prelude.{◌≡◌};
ghost use Rattle.avc_units.specs.Grouping.{ends_picture, no_effect, readable, slice_step};
ghost use Rattle.avc_units.specs.Grouping.{unreadable};
ghost use Rattle.avc_units.specs.Kinds.{slice_or_start, open_picture_in};

use crate::heap_slice::HeapSlice;
use crate::last_header::LastHeader;
use crate::step::{Next, Step};
use avc_types::Fault;

/// What a unit finds: whether decoding runs, and the open picture, if there is one, with the header
/// of its last slice and whether it is full.
#[derive(Clone, Copy)]
pub struct UnitContext<'a> {
    pub running: bool,
    pub last: Option<&'a LastHeader>,
    pub full: bool,
}

/// Nothing.
pub(crate) fn no_effect() -> Step
    ensures { result ≡ no_effect }
{
    Step {
        closes: false,
        next: Next::Nothing,
        even_after_fault: false,
    }
}

/// An end of the picture, and then what a parameter set's unit says.
pub(crate) fn ends_picture(next: Next) -> Step
    ensures { result ≡ ends_picture next }
{
    Step {
        closes: true,
        next,
        even_after_fault: true,
    }
}

/// A slice or partition with an unreadable header.
fn unreadable(context: UnitContext, fault: Fault) -> Step
    ensures { result ≡ unreadable (open_picture_in context.entry) fault }
{
    let (closes, next) = match context.last {
        None => (false, Next::FaultOfOwn(fault)),
        Some(_) if context.full => (true, Next::FaultOfOwn(fault)),
        Some(_) => (false, Next::FaultOfOpen(fault)),
    };
    Step {
        closes,
        next,
        even_after_fault: false,
    }
}

/// A slice that can be read; `starts` says that decoding can start with it.
fn readable(context: UnitContext, starts: bool, slice: HeapSlice) -> Step
    ensures { result ≡ readable (open_picture_in context.entry) starts slice }
{
    match context.last {
        Some(last) if !last.is_followed_by_picture(&slice.get().header) => Step {
            closes: false,
            next: Next::Continues(slice),
            even_after_fault: false,
        },
        Some(_) => Step {
            closes: true,
            next: Next::Begins(slice),
            even_after_fault: starts,
        },
        None => Step {
            closes: false,
            next: Next::Begins(slice),
            even_after_fault: false,
        },
    }
}

fn slice_step(context: UnitContext, starts: bool, read: Result<HeapSlice, Fault>) -> Step
    ensures { result ≡ slice_step (open_picture_in context.entry) starts read }
{
    match read {
        Ok(slice) => readable(context, starts, slice),
        Err(fault) => unreadable(context, fault),
    }
}

/// A slice comes, or the fault in its header: where decoding waits it has to start it.
pub(crate) fn slice_or_start(
    context: UnitContext,
    starts: bool,
    read: Result<HeapSlice, Fault>,
) -> Step
    ensures { result
        ≡ slice_or_start context.entry.running (open_picture_in context.entry) starts read }
{
    if context.running {
        slice_step(context, starts, read)
    } else if starts {
        let alone = UnitContext {
            last: None,
            ..context
        };
        slice_step(alone, starts, read)
    } else {
        no_effect()
    }
}
