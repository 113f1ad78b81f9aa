//! The commands of a program.

ghost use Rattle.std.specs.Prelude.{Bool, is_some};
ghost use Rattle.avc_program.specs.Tasks.{TaskEnding};

use avc_console::{Console, Ending, Watch};
use avc_request::Request;
use std::io::{Read, Write};

/// What a program does with a stream.
pub trait Commands {
    /// Whether it has all commands; else it has not those that are for test benches.
    const IS_WHOLE: bool;

    ghost IS_WHOLE: { Bool };

    /// How a task ends.
    ghost ends: { TaskEnding };

    /// Does what was asked for from this input to this output.
    fn carry_out_between<R: Read, W: Write, E: Write, V: Watch>(
        &self,
        rt: &HostRuntime,
        request: &Request<'_>,
        reader: &mut R,
        writer: &mut W,
        console: &mut Console<'_, E, V>,
    ) -> Ending
        ensures { ends request.now.task request.now.other (is_some request.now.numbered)
            console.old.names console.old.is_explained
            (R.remaining reader.old) (R.remaining reader.new) (W.contents writer.old)
            (W.contents writer.new)
            (E.contents console.old.errors) (E.contents console.new.errors) result };
}
