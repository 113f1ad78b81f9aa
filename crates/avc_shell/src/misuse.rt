//! Outputs that are refused before anything is read.

use crate::output::is_input;
use avc_request::Request;
use std::io::IsTerminal;

/// Tells why the output cannot be taken, where it cannot, and answers whether that is so.
pub fn is_output_refused(rt: &HostRuntime, request: &Request<'_>) -> bool {
    if let Some(times) = request.frame_times {
        if is_written_over(rt, request.input, times) {
            return true;
        }
    }
    match request.output {
        Some(output) => is_written_over(rt, request.input, output),
        None => is_terminal_refused(rt, request),
    }
}

// Where the file that is to be written is the one that is read, nothing of that would be left.
fn is_written_over(rt: &HostRuntime, input: Option<&str>, output: &str) -> bool {
    if !is_input(rt, input, output) {
        return false;
    }
    let _ = eprintln!(rt; "avcdec: {output} is the file that is read");
    true
}

// What is no text is written to a terminal only where that is wanted.
fn is_terminal_refused(rt: &HostRuntime, request: &Request<'_>) -> bool {
    if request.is_standard_output_named || !request.task.is_raw() || !rt.stdout().is_terminal() {
        return false;
    }
    let _ = eprintln!(rt; "avcdec: what is no text is written to a terminal by -o - alone");
    true
}
