//! What is written.

ghost use Rattle.std.specs.Prelude.{◌≡◌, Some, None, is_some, IfErr, OnOk};
ghost use Rattle.std.specs.Io.{WritesAtMost};
ghost use Rattle.std.specs.Io.KnownBytes.{Keeps, WriteAppends};
ghost use Rattle.std.specs.IoError.{error_kind};
ghost use Rattle.avc_shell.specs.Outputs.{next_number};

use avc_request::Numbered;
use std::cell::Cell;
use std::fs::{File, metadata};
use std::io;
use std::io::{ErrorKind, Write};
use std::os::unix::fs::MetadataExt;

/// What leads to the standard input, by name.
const STANDARD_INPUT: &str = "/dev/stdin";

/// A file that is made, or emptied, by the first bytes that are written to it: a command that
/// writes nothing leaves an old one as it was.
#[derive(Drop)]
pub struct OutputFile<'a> {
    rt: &'a HostRuntime,
    name: &'a str,
    // none before the first bytes
    file: Option<File>,
}

impl<'a> OutputFile<'a> {
    /// The file of this name, not yet made.
    pub fn new(rt: &'a HostRuntime, name: &'a str) -> OutputFile<'a> {
        OutputFile {
            rt,
            name,
            file: None,
        }
    }
}

impl Write for OutputFile<'_> {
    ghost use Rattle.std.specs.Prelude.{None};

    ghost contents = { λ _. None };

    fn write(&mut self, buf: &[u8]) -> io::Result<usize> {
        if buf.is_empty() {
            return Ok(0);
        }
        if let Some(file) = &mut self.file {
            return file.write(buf);
        }
        let mut file = File::create(self.rt, self.name)?;
        let taken = file.write(buf);
        self.file = Some(file);
        taken
    }

    fn flush(&mut self) -> io::Result<()> {
        Ok(())
    }
}

/// Files of one picture each, of which each is made, or emptied, by the first bytes of its picture.
#[derive(Drop)]
pub struct PictureFiles<'a> {
    rt: &'a HostRuntime,
    name: Numbered<'a>,
    // which must not be written over
    input: Option<&'a str>,
    // how many pictures were written or left out
    pictures: &'a Cell<u64>,
    // so many before the file that stands
    before: u64,
    // of that file, once there is one
    number: u64,
    file: Option<File>,
}

impl<'a> PictureFiles<'a> {
    /// Files of these names, none of them made, where it is noted how many pictures were written or
    /// left out.
    pub fn new(
        rt: &'a HostRuntime,
        name: Numbered<'a>,
        input: Option<&'a str>,
        pictures: &'a Cell<u64>,
    ) -> PictureFiles<'a> {
        PictureFiles {
            rt,
            name,
            input,
            pictures,
            before: 0,
            number: 0,
            file: None,
        }
    }

    // Makes the file of the next picture.
    fn begin(&mut self) -> io::Result<File>
        ensures { OnOk result (self.new.number
            ≡ next_number (is_some self.old.file) self.old.number) }
    {
        let number = if self.file.is_some() {
            self.number.saturating_add(1)
        } else {
            self.number
        };
        let file = self.make(number)?;
        self.number = number;
        self.before = self.pictures.get();
        Ok(file)
    }

    // Makes the file of this number.
    fn make(&self, number: u64) -> io::Result<File> {
        let name = match self.name.file_name(self.rt.alloc(), number) {
            Ok(name) => name,
            Err(_) => return Err(io::Error::from(ErrorKind::OutOfMemory)),
        };
        if is_input(self.rt, self.input, &name) {
            return Err(io::Error::from(ErrorKind::PermissionDenied));
        }
        File::create(self.rt, &name)
    }
}

impl Write for PictureFiles<'_> {
    ghost use Rattle.std.specs.Prelude.{None};

    ghost contents = { λ _. None };

    fn write(&mut self, buf: &[u8]) -> io::Result<usize> {
        if buf.is_empty() {
            return Ok(0);
        }
        if let Some(file) = &mut self.file {
            if self.pictures.get() == self.before {
                return file.write(buf);
            }
        }
        let mut file = self.begin()?;
        let taken = file.write(buf);
        self.file = Some(file);
        taken
    }

    fn flush(&mut self) -> io::Result<()> {
        Ok(())
    }
}

/// A writer of which it is remembered why a write failed, and noted that whoever reads has left.
#[derive(Drop)]
pub struct Output<'a, W> {
    writer: W,
    fault: Option<ErrorKind>,
    has_left: &'a Cell<bool>,
}

impl<'a, W> Output<'a, W> {
    /// To which nothing has been written, and where it is noted that whoever reads has left.
    pub fn new(writer: W, has_left: &'a Cell<bool>) -> Output<'a, W>
        ensures { result.fault ≡ None }
    {
        Output {
            writer,
            fault: None,
            has_left,
        }
    }

    /// Why a write failed, where one did.
    pub fn fault(&self) -> Option<ErrorKind>
        ensures { result ≡ self.now.fault }
    {
        self.fault
    }
}

impl<W: Write> Write for Output<'_, W> {
    ghost contents = { λ o. W.contents o.writer };

    fn write(&mut self, buf: &[u8]) -> io::Result<usize>
        ensures bound { WritesAtMost result buf.now }
        ensures bytes { WriteAppends (W.contents self.old.writer) (W.contents self.new.writer)
            result buf.now }
        ensures kept { OnOk result (self.new.fault ≡ self.old.fault) }
        ensures fault { IfErr result (λ error. self.new.fault ≡ Some (error_kind error)) }
    {
        match self.writer.write(buf) {
            Ok(len) => Ok(len),
            Err(error) => {
                let kind = error.kind();
                self.fault = Some(kind);
                if let ErrorKind::BrokenPipe = kind {
                    self.has_left.set(true);
                }
                Err(error)
            }
        }
    }

    fn flush(&mut self) -> io::Result<()> {
        self.writer.flush()
    }
}

/// Whether the file that is read, by name or as the standard input, is also the one that is
/// written, through links too. What is no file on a disk, as a terminal or a pipe, loses nothing by
/// that.
pub fn is_input(rt: &HostRuntime, input: Option<&str>, output: &str) -> bool {
    let read = file_place(rt, input.unwrap_or(STANDARD_INPUT));
    let written = file_place(rt, output);
    match (read, written) {
        (Some(read), Some(written)) => {
            read.is_file && read.device == written.device && read.inode == written.inode
        }
        _ => false,
    }
}

// Where a file stands among all of the system.
#[derive(Clone, Copy)]
struct FilePlace {
    is_file: bool,
    device: u64,
    inode: u64,
}

// That of the file of this name, if there is one.
fn file_place(rt: &HostRuntime, name: &str) -> Option<FilePlace> {
    match metadata(rt, name) {
        Ok(file) => Some(FilePlace {
            is_file: file.is_file(),
            device: file.dev(),
            inode: file.ino(),
        }),
        Err(_) => None,
    }
}
