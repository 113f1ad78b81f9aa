//! Bytes of a stream that were read and not yet fed.

ghost use Rattle.std.specs.Prelude.{◌≡◌, ◌<◌, ◌≤◌, [], drop, length, take, true, IfErr, IfOk};
ghost use Rattle.std.specs.Prelude.{OnErr, OnOk};
ghost use Rattle.std.specs.Io.KnownBytes.{Consumes, IsAtEnd, Keeps};
ghost use Rattle.avc_compare.specs.Kept.{nothing_read};
ghost use Rattle.avc_console.specs.declared.fault.RunFault.TheVariants as faults;

use avc_console::{RunFault, read_once};
use std::alloc::Global;
use std::io::Read;
use std::marker::Model;

/// The bytes of one read of which the first were fed. A contract sees those that were not, and
/// whether the stream has ended.
#[derive(Drop)]
pub(crate) struct Ahead {
    piece: Vec<u8>,
    start: usize,
    end: usize,
    has_ended: bool,
}

impl Model for Ahead {
    ghost use Rattle.std.specs.Prelude.{slice_range};
    ghost use Rattle.avc_compare.specs.Kept.{IsKept, Waiting};

    ghost Value = { Waiting };

    ghost view = { λ a.
        record { bytes = slice_range a.piece.items a.start a.end; ended = a.has_ended } };

    ghost invariant = { λ a. IsKept a.piece.items a.start a.end };
}

impl Ahead {
    /// Before anything was read, with room for so many bytes of one read.
    pub(crate) fn new(alloc: Global, room: usize) -> Result<Ahead, RunFault>
        requires { 0 < room }
        ensures ok { IfOk result (λ ahead. ahead ≡ nothing_read) }
        ensures err { IfErr result (λ fault. fault ≡ faults.Memory) }
    {
        Ok(Ahead {
            piece: vec![in alloc; 0; room]?,
            start: 0,
            end: 0,
            has_ended: false,
        })
    }

    /// The bytes that wait.
    pub(crate) fn as_slice(&self) -> &[u8]
        ensures { result.now ≡ self.now.bytes }
    {
        &self.piece[self.start..self.end]
    }

    /// Whether the stream has ended.
    pub(crate) fn has_ended(&self) -> bool
        ensures { result ≡ self.now.ended }
    {
        self.has_ended
    }

    /// Notes that the stream has ended.
    pub(crate) fn end(&mut self)
        ensures { self.new ≡ record self.old { ended = true } }
    {
        self.has_ended = true;
    }

    /// Lets go of the first bytes, once they were fed.
    pub(crate) fn drop_first(&mut self, used: usize)
        requires { used ≤ length self.old.bytes }
        ensures { self.new ≡ record self.old { bytes = drop used self.old.bytes } }
    {
        self.start += used;
    }

    /// Lets go of all bytes.
    pub(crate) fn clear(&mut self)
        ensures { self.new ≡ record self.old { bytes = [] } }
    {
        self.start = 0;
        self.end = 0;
    }

    /// Reads on, where none waits: once, and at most so many bytes.
    pub(crate) fn read_on<R: Read>(&mut self, most: u128, reader: &mut R) -> Result<(), RunFault>
        requires none { self.old.bytes ≡ [] }
        requires some { 0 < most }
        ensures ok { OnOk result
            (Consumes (R.remaining reader.old) (R.remaining reader.new) self.new.bytes) }
        ensures last { OnOk result (self.new.bytes ≡ [] → IsAtEnd (R.remaining reader.new)) }
        ensures few { OnOk result (length self.new.bytes ≤ most) }
        ensures ended { self.new.ended ≡ self.old.ended }
        ensures fault { IfErr result (λ fault. fault ≡ faults.Read) }
        ensures err { OnErr result (Keeps (R.remaining reader.old) (R.remaining reader.new)) }
    {
        self.start = 0;
        self.end = 0;
        self.end = read_front(&mut self.piece, most, reader)?;
        Ok(())
    }
}

// Reads to the front of a piece, once, and at most so many bytes.
fn read_front<R: Read>(piece: &mut [u8], most: u128, reader: &mut R) -> Result<usize, RunFault>
    ensures length { length piece.new ≡ length piece.old }
    ensures within { IfOk result (λ len. len ≤ length piece.new) }
    ensures few { IfOk result (λ len. len ≤ most) }
    ensures bytes { IfOk result
        (λ len. Consumes (R.remaining reader.old) (R.remaining reader.new) (take len piece.new)) }
    ensures last { IfOk result
        (λ len. len ≡ 0 → 0 < length piece.old → 0 < most → IsAtEnd (R.remaining reader.new)) }
    ensures fault { IfErr result (λ fault. fault ≡ faults.Read) }
    ensures err { OnErr result (Keeps (R.remaining reader.old) (R.remaining reader.new)) }
{
    let room = most.min(piece.len() as u128) as usize;
    read_once(reader, &mut piece[..room])
}
