//! What is read.

ghost use Rattle.std.specs.Prelude.{◌≡◌, [], take, Some, None, IfErr, IfOk, OnOk};
ghost use Rattle.std.specs.Io.{ReadsAtMost};
ghost use Rattle.std.specs.Io.KnownBytes.{ReadConsumes};
ghost use Rattle.std.specs.IoError.{error_kind};
ghost use Rattle.avc_shell.specs.Inputs.{first_with};

use avc_container::Beginning;
use std::io;
use std::io::{ErrorKind, Read};

/// A reader of which the first bytes are remembered, and why a read failed.
#[derive(Drop)]
pub struct Input<R> {
    reader: R,
    beginning: Beginning,
    fault: Option<ErrorKind>,
}

impl<R> Input<R> {
    /// Of which nothing has been read.
    pub fn new(reader: R) -> Input<R>
        ensures beginning { result.beginning ≡ [] }
        ensures fault { result.fault ≡ None }
    {
        Input {
            reader,
            beginning: Beginning::new(),
            fault: None,
        }
    }

    /// The first bytes that were read.
    pub fn first(&self) -> &[u8]
        ensures { result.now ≡ self.now.beginning }
    {
        self.beginning.as_slice()
    }

    /// Why a read failed, where one did.
    pub fn fault(&self) -> Option<ErrorKind>
        ensures { result ≡ self.now.fault }
    {
        self.fault
    }
}

impl<R: Read> Read for Input<R> {
    ghost remaining = { λ i. R.remaining i.reader };

    fn read(&mut self, buf: &mut [u8]) -> io::Result<usize>
        ensures bound { ReadsAtMost result buf.new }
        ensures bytes { ReadConsumes (R.remaining self.old.reader) (R.remaining self.new.reader)
            result buf.new }
        ensures first { IfOk result (λ len. self.new.beginning
            ≡ first_with self.old.beginning (take len buf.new)) }
        ensures kept { OnOk result (self.new.fault ≡ self.old.fault) }
        ensures fault { IfErr result (λ error. self.new.fault ≡ Some (error_kind error)) }
    {
        match self.reader.read(buf) {
            Ok(len) => {
                self.beginning.note(&buf[..len]);
                Ok(len)
            }
            Err(error) => {
                self.fault = Some(error.kind());
                Err(error)
            }
        }
    }
}
