//! How long each picture took.

ghost use Rattle.std.specs.Prelude.{◌≡◌, ◌-◌, true, is_some, None, IfOk, codes};
ghost use Rattle.std.specs.Prelude.{string_bytes};
ghost use Rattle.std.specs.Duration.{as_nanos};
ghost use Rattle.avc_shell.specs.FrameTimes.{time_line};

use crate::errors::Errors;
use std::alloc::{AllocError, Global};
use std::fs::File;
use std::io;
use std::io::{ErrorKind, Write};
use std::time::{Duration, Instant};

/// What stands for the standard error.
const STANDARD: &str = "-";

/// Writes a line for each picture as soon as it was written: the nanoseconds since the one before,
/// or since the start, by the monotonic clock.
#[derive(Drop)]
pub struct FrameTimes<'a> {
    rt: &'a HostRuntime,
    start: Instant,
    // since the start, when the picture before was written
    before: Duration,
    // none for the standard error
    file: Option<File>,
    errors: Errors<'a>,
    fault: Option<ErrorKind>,
}

impl FrameTimes<'_> {
    /// Into the file of this name, which is emptied.
    pub fn new<'a>(
        rt: &'a HostRuntime,
        name: &str,
        errors: Errors<'a>,
    ) -> io::Result<FrameTimes<'a>>
        ensures before { IfOk result (λ times. as_nanos times.before ≡ 0) }
        ensures fault { IfOk result (λ times. times.fault ≡ None) }
        ensures standard { name.now ≡ codes "-" → IfOk result (λ times. times.file ≡ None) }
    {
        let file = if name == STANDARD {
            None
        } else {
            Some(File::create(rt, name)?)
        };
        Ok(FrameTimes {
            rt,
            start: Instant::now(rt)?,
            before: Duration::ZERO,
            file,
            errors,
            fault: None,
        })
    }

    /// A picture was written. Where the clock or memory fails there is no line, and after a write
    /// fault no further one.
    pub fn note_picture(&mut self)
        ensures { is_some self.old.fault ≡ true → self.new.fault ≡ self.old.fault }
    {
        if self.fault.is_some() {
            return;
        }
        if let Ok(now) = self.start.elapsed(self.rt) {
            let took = self.note_time(now);
            self.write_time(took);
        }
    }

    // The line of a picture that took so long.
    fn write_time(&mut self, nanoseconds: u128) {
        if let Ok(line) = time_line(self.rt.alloc(), nanoseconds) {
            if let Err(error) = self.write(line.as_bytes()) {
                self.fault = Some(error.kind());
            }
        }
    }

    // The nanoseconds that a picture took which was written so long after the start.
    fn note_time(&mut self, now: Duration) -> u128
        ensures took { result ≡ as_nanos now - as_nanos self.old.before }
        ensures before { self.new.before ≡ now }
    {
        let took = now.saturating_sub(self.before);
        self.before = now;
        took.as_nanos()
    }

    fn write(&mut self, line: &[u8]) -> io::Result<()> {
        match &mut self.file {
            Some(file) => file.write_all(line),
            None => self.errors.write_all(line),
        }
    }

    /// Why a write failed, where one did.
    pub fn fault(&self) -> Option<ErrorKind>
        ensures { result ≡ self.now.fault }
    {
        self.fault
    }
}

fn time_line(alloc: Global, nanoseconds: u128) -> Result<String, AllocError>
    ensures { IfOk result (λ line. string_bytes line ≡ time_line nanoseconds) }
{
    let mut line = String::new(alloc);
    writeln!(line, "{nanoseconds}")?;
    Ok(line)
}
