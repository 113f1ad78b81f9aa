//! The commands that a program may not have.

ghost use Rattle.std.specs.Prelude.{◌≡◌};
ghost use Rattle.avc_program.specs.Absent.{is_for_benches, TellsAbsent};

use avc_console::{Answer, Ending, answer_status, write_text};
use avc_request::{Subject, Task};
use std::io::Write;

/// What is told of them.
const ABSENT: &str = "avcdec: the commands `compare` and `macroblocks` are not in this program\n";

/// Whether the task is of one of the two commands that are for test benches.
pub(crate) fn is_for_benches(task: &Task) -> bool
    ensures { result ≡ is_for_benches task.now }
{
    match task {
        Task::Compare(_) | Task::Tell(Subject::Macroblocks(_), _) => true,
        Task::Tell(Subject::Units | Subject::Headers | Subject::Pieces | Subject::Info, _)
        | Task::Decode(_)
        | Task::Show(_)
        | Task::Check(_)
        | Task::Cut(_)
        | Task::Draw(_) => false,
    }
}

/// Tells that a program has not these, and ends as after wrong words.
pub fn tell_absent<E: Write>(errors: &mut E) -> Ending
    ensures { TellsAbsent (E.contents errors.old) (E.contents errors.new) result }
{
    let told = match write_text(ABSENT, errors) {
        Ok(()) => true,
        Err(_) => false,
    };
    Ending {
        status: answer_status(Ok(Answer::Misuse)),
        told,
    }
}
