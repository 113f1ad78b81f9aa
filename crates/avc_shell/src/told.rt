//! What is told behind what a command tells itself.

ghost use Rattle.std.specs.Prelude.{◌≡◌, IfOk, string_bytes};
ghost use Rattle.avc_shell.specs.Ending.{absent_picture_line};
ghost use Rattle.avc_shell.specs.Manners.{is_line_wanted, is_more_told};

use crate::reason::reason_line;
use avc_console::{Counts, no_piece_line};
use avc_container::{container_line, container_of, no_picture_line};
use avc_explain::counts_line;
use avc_request::{Manner, Subject, Task, Telling};
use std::alloc::{AllocError, Global};
use std::io::{ErrorKind, IsTerminal, Write};

/// Tells why a file could not be read or written, where it has a name and that is known.
pub fn tell_reason(rt: &HostRuntime, name: Option<&str>, kind: Option<ErrorKind>) {
    if let (Some(name), Some(kind)) = (name, kind) {
        if let Ok(line) = reason_line(rt.alloc(), name, kind) {
            tell(rt, &line);
        }
    }
}

/// Tells how many pictures and refusals there were, and how many slices were passed over, where
/// that is known, and what a stream is in which no picture was found, by its first bytes.
pub fn tell_outcome(rt: &HostRuntime, counts: Counts, passed: Option<u64>, first: &[u8]) {
    tell(
        rt,
        counts_line(counts.pictures, counts.refused, passed).as_str(),
    );
    if counts.pictures == 0 {
        if let Ok(line) = no_picture_line(rt.alloc(), first) {
            tell(rt, &line);
        }
    }
}

/// Whether more than the lines that scripts read may be told.
pub fn is_told_more(rt: &HostRuntime, manner: &Manner) -> bool {
    is_more_told(manner, rt.stderr().is_terminal())
}

// Whether more is told, where the standard error is a terminal or not.
fn is_more_told(manner: &Manner, to_terminal: bool) -> bool
    ensures { result ≡ is_more_told manner.now to_terminal }
{
    manner.is_explained || (!manner.is_quiet && to_terminal)
}

/// Whether a line says how far decoding is.
pub fn is_progress_told(rt: &HostRuntime, progress: Telling) -> bool {
    is_line_wanted(progress, rt.stderr().is_terminal())
}

// Whether a line of progress is wanted, where the standard error is a terminal or not.
fn is_line_wanted(progress: Telling, to_terminal: bool) -> bool
    ensures { result ≡ is_line_wanted progress to_terminal }
{
    match progress {
        Telling::Always => true,
        Telling::ToTerminals => to_terminal,
        Telling::Never => false,
    }
}

/// Tells of a stream of which facts were wanted that it is a container or a picture, by its first
/// bytes.
pub fn tell_container(rt: &HostRuntime, task: &Task, first: &[u8]) {
    if let Task::Tell(Subject::Info, _) = task {
        if let Some(container) = container_of(first) {
            if let Ok(line) = container_line(rt.alloc(), container) {
                tell(rt, &line);
            }
        }
    }
}

/// Tells that a stream has no piece of this number.
pub fn tell_no_piece(rt: &HostRuntime, number: u32) {
    if let Ok(line) = no_piece_line(rt.alloc(), number) {
        tell(rt, &line);
    }
}

/// Tells that a stream has no picture of this number.
pub fn tell_absent_picture(rt: &HostRuntime, number: u64) {
    if let Ok(line) = absent_picture_line(rt.alloc(), number) {
        tell(rt, &line);
    }
}

fn absent_picture_line(alloc: Global, number: u64) -> Result<String, AllocError>
    ensures { IfOk result (λ line. string_bytes line ≡ absent_picture_line number) }
{
    let mut line = String::new(alloc);
    writeln!(line, "avcdec: no picture {number}")?;
    Ok(line)
}

/// Where the standard error takes no more, nothing is told.
pub(crate) fn tell(rt: &HostRuntime, text: &str) {
    let _ = rt.stderr().write_all(text.as_bytes());
}
