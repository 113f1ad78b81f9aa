//! What is decoded of a stream from one of its pieces on.

ghost use Rattle.std.specs.Prelude.{◌≡◌, ◌++◌, ◌<◌, ◌^◌, [], drop, false, length, min, take, None};
ghost use Rattle.std.specs.Prelude.{IfOk, OnOk};
ghost use Rattle.std.specs.Io.{ReadsAtMost};
ghost use Rattle.std.specs.Io.KnownBytes.{ReadConsumes};
ghost use Rattle.avc_tools.specs.Streams.{new_stream};
ghost use Rattle.avc_shell.specs.FromPieces.{is_missing, GivesOn, KeepsTail, ReadsOn};

use avc_console::{PIECE, READS};
use avc_tools::{StreamText, TailText};
use avc_types::OutOfMemory;
use std::alloc::Global;
use std::io;
use std::io::{ErrorKind, Read};

/// Reads a stream from the piece of a number on: what stands before it is read, and not given.
#[derive(Drop)]
pub struct FromPiece<'a, R> {
    reader: &'a mut R,
    tail: TailText,
    // what has come of the tail, of which the first bytes were given
    ready: Vec<u8>,
    given: usize,
    has_begun: bool,
    has_ended: bool,
    is_out_of_memory: bool,
    ghost kept: { KeepsTail tail has_begun has_ended is_out_of_memory },
}

impl<'a, R> FromPiece<'a, R> {
    /// From the piece of this number on, of a stream of which nothing was read.
    pub fn new(
        alloc: Global,
        number: u32,
        reader: &'a mut R,
    ) -> Result<FromPiece<'a, R>, OutOfMemory>
        ensures tail { IfOk result (λ from. from.tail ≡ record {
          number = number;
          stream = new_stream;
        }) }
        ensures waiting { IfOk result (λ from. drop from.given from.ready.items ≡ []) }
    {
        Ok(FromPiece {
            reader,
            tail: TailText::new(alloc, number)?,
            ready: Vec::new(alloc),
            given: 0,
            has_begun: false,
            has_ended: false,
            is_out_of_memory: false,
        })
    }

    /// Whether the stream was read to its end and has no such piece.
    pub fn is_missing(&self) -> bool
        ensures { length self.now.tail.stream.bytes < 2 ^ 64 → result ≡ is_missing self.now.tail }
    {
        self.has_ended && !self.has_begun && !self.is_out_of_memory
    }

    /// Whether memory was wanting for what is read.
    pub fn is_out_of_memory(&self) -> bool
        ensures { result ≡ self.now.tail.stream.failed }
    {
        self.is_out_of_memory
    }
}

impl<R: Read> FromPiece<'_, R> {
    // Reads on, once all that has come was given.
    fn read_on(&mut self) -> io::Result<()>
        requires { self.old.has_ended ≡ false }
        ensures given { OnOk result
            (GivesOn self.old.tail self.new.tail [] (drop self.new.given self.new.ready.items) []) }
        ensures read { OnOk result
            (ReadsOn (R.remaining self.old.reader.now) (R.remaining self.new.reader.now)
            self.old.tail.stream self.new.tail.stream) }
        ensures open_end { OnOk result (self.old.tail.stream.ended ≡ false) }
    {
        let mut piece = [0; PIECE];
        let len = self.reader.read(&mut piece)?;
        let added = if len == 0 {
            self.has_ended = true;
            self.tail.finish()
        } else {
            self.tail.feed(&piece[..len])
        };
        match added {
            Ok(added) => {
                self.has_begun = self.has_begun || !added.is_empty();
                self.ready = added;
                self.given = 0;
                Ok(())
            }
            Err(_) => {
                self.is_out_of_memory = true;
                Err(io::Error::from(ErrorKind::OutOfMemory))
            }
        }
    }
}

impl<R: Read> Read for FromPiece<'_, R> {
    ghost use Rattle.std.specs.Prelude.{None};

    ghost remaining = { λ _. None };

    fn read(&mut self, buf: &mut [u8]) -> io::Result<usize>
        ensures bound { ReadsAtMost result buf.new }
        ensures bytes { ReadConsumes None None result buf.new }
        ensures given { IfOk result
            (λ len. GivesOn self.old.tail self.new.tail (drop self.old.given self.old.ready.items)
            (drop self.new.given self.new.ready.items) (take len buf.new)) }
        ensures read { OnOk result
            (ReadsOn (R.remaining self.old.reader.now) (R.remaining self.new.reader.now)
            self.old.tail.stream self.new.tail.stream) }
    {
        'reads: for _read in 0..READS {
            if self.given < self.ready.len() {
                let len = copied(&self.ready[self.given..], buf);
                self.given += len;
                return Ok(len);
            }
            if self.has_ended {
                return Ok(0);
            }
            self.read_on()?;
        }
        Err(io::Error::from(ErrorKind::Other))
    }
}

/// Copies as many bytes as there is room for. Answers how many.
pub(crate) fn copied(bytes: &[u8], buf: &mut [u8]) -> usize
    ensures count { result ≡ min (length bytes.now) (length buf.old) }
    ensures bytes { buf.new ≡ take result bytes.now ++ drop result buf.old }
{
    let len = bytes.len().min(buf.len());
    buf[..len].copy_from_slice(&bytes[..len]);
    len
}
