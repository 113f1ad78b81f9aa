//! The standard error.

use std::cell::Cell;
use std::io;
use std::io::Write;

/// What erases the line of progress (carriage return, EL of ECMA-48).
const ERASED: &[u8] = b"\r\x1b[K";

/// The standard error. Where the program is to be quiet it takes nothing more, and says so to
/// nobody, once whoever reads the output has left. What is told takes the place of a line of
/// progress.
#[derive(Drop)]
pub struct Errors<'a> {
    rt: &'a HostRuntime,
    is_quiet: bool,
    has_left: &'a Cell<bool>,
    progress_stands: &'a Cell<bool>,
}

impl<'a> Errors<'a> {
    /// Quiet or not, and where it is noted that whoever reads the output has left, and whether a
    /// line of progress stands.
    pub fn new(
        rt: &'a HostRuntime,
        is_quiet: bool,
        has_left: &'a Cell<bool>,
        progress_stands: &'a Cell<bool>,
    ) -> Errors<'a> {
        Errors {
            rt,
            is_quiet,
            has_left,
            progress_stands,
        }
    }
}

impl Write for Errors<'_> {
    ghost use Rattle.std.specs.Prelude.{None};

    ghost contents = { λ _. None };

    fn write(&mut self, buf: &[u8]) -> io::Result<usize> {
        if self.is_quiet && self.has_left.get() {
            return Ok(buf.len());
        }
        if self.progress_stands.replace(false) {
            let _ = self.rt.stderr().write(ERASED);
        }
        self.rt.stderr().write(buf)
    }

    fn flush(&mut self) -> io::Result<()> {
        Ok(())
    }
}
