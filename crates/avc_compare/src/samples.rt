//! The samples of a picture of ours, and the other's beside them.

ghost use Rattle.std.specs.Prelude.{◌≡◌, ◌+◌, ◌<◌, ◌≤◌, [], ◌++◌, length, take, IfErr, IfOk, OnErr};
ghost use Rattle.std.specs.Prelude.{OnOk};
ghost use Rattle.std.specs.Io.KnownBytes.{Consumes, IsAtEnd};
ghost use Rattle.avc_types.specs.Whole.{IsWhole};
ghost use Rattle.avc_yuv.specs.I420.{i420};
ghost use Rattle.avc_console.specs.declared.fault.RunFault.TheVariants as faults;
ghost use Rattle.avc_compare.specs.Meeting.{Meets};
ghost use Rattle.avc_compare.specs.Reading.{ReadsSome};
ghost use Rattle.avc_compare.specs.Samples.{no_samples, ReadsBeside, ReadsRest};
ghost use Rattle.avc_compare.specs.declared.verdict.CompareFault.TheVariants as ends;

use crate::ahead::Ahead;
use crate::meeting::meet_picture;
use crate::verdict::CompareFault;
use avc_console::{RunFault, read_once};
use avc_plane::SharedPicture;
use avc_yuv::{copy_i420, i420_len};
use std::alloc::Global;
use std::io::Read;
use std::marker::Model;

/// How many of the other's bytes are read at once: they stay near while they are compared.
const ROOM: usize = 131_072;

/// The samples of a picture of ours and the other's, both as I420. They are kept from one picture
/// to the next, since to make room anew for each takes longer than to compare what stands in it.
#[derive(Drop)]
pub(crate) struct Samples {
    ours: Vec<u8>,
    theirs: Vec<u8>,
    // the other's bytes that were read and not yet compared
    ahead: Ahead,
}

impl Model for Samples {
    ghost use Rattle.avc_compare.specs.Samples.{Sampled};

    ghost Value = { Sampled };

    ghost view = { λ s.
        record { ours = s.ours.items; theirs = s.theirs.items; waiting = s.ahead.bytes } };
}

impl Samples {
    /// Before the first picture.
    pub(crate) fn new(alloc: Global) -> Result<Samples, RunFault>
        ensures ok { IfOk result (λ samples. samples ≡ no_samples) }
        ensures err { IfErr result (λ fault. fault ≡ faults.Memory) }
    {
        Ok(Samples {
            ours: Vec::new(alloc),
            theirs: Vec::new(alloc),
            ahead: Ahead::new(alloc, ROOM)?,
        })
    }

    pub(crate) fn ours(&self) -> &[u8]
        ensures { result.now ≡ self.now.ours }
    {
        self.ours.as_slice()
    }

    pub(crate) fn theirs(&self) -> &[u8]
        ensures { result.now ≡ self.now.theirs }
    {
        self.theirs.as_slice()
    }

    /// Copies what is shown of a picture of ours.
    pub(crate) fn copy(&mut self, alloc: Global, picture: &SharedPicture) -> Result<(), RunFault>
        requires { IsWhole picture.now }
        ensures ok { OnOk result (self.new ≡ record self.old { ours = i420 picture.now }) }
        ensures err { IfErr result (λ fault. fault ≡ faults.Memory) }
    {
        make_room(alloc, &mut self.ours, picture)?;
        copy_i420(picture, &mut self.ours);
        Ok(())
    }

    /// Reads the other's next bytes as long as they are what is shown of a picture, piece by piece,
    /// so that each is compared while it is near. Answers how many of the first are.
    pub(crate) fn meet<O: Read>(
        &mut self,
        picture: &SharedPicture,
        other: &mut O,
    ) -> Result<u128, CompareFault>
        requires { IsWhole picture.now }
        ensures ok { IfOk result (λ met. Meets (i420 picture.now) (length (i420 picture.now)) met []
            self.new.waiting (O.remaining other.old) (O.remaining other.new)) }
        ensures over { IfOk result (λ met. met < length (i420 picture.now) → self.new.waiting ≡ []
            → IsAtEnd (O.remaining other.new)) }
        ensures fault { IfErr result (λ fault. fault ≡ ends.Theirs) }
        ensures err { OnErr result (ReadsSome (O.remaining other.old) (O.remaining other.new)) }
    {
        self.ahead.clear();
        meet_picture(picture, i420_len(picture), &mut self.ahead, other)
    }

    /// Reads the rest beside a picture of which so many bytes were met, so that the samples of both
    /// are here. Answers whether the other has so many.
    pub(crate) fn complete<O: Read>(
        &mut self,
        alloc: Global,
        picture: &SharedPicture,
        met: u128,
        other: &mut O,
    ) -> Result<bool, CompareFault>
        requires whole { IsWhole picture.now }
        requires few { met + length self.old.waiting ≤ length (i420 picture.now) }
        requires over { met < length (i420 picture.now) → self.old.waiting ≡ []
            → IsAtEnd (O.remaining other.old) }
        ensures ours { OnOk result (self.new.ours ≡ i420 picture.now) }
        ensures long { OnOk result (length self.new.theirs ≡ length (i420 picture.now)) }
        ensures reads { ReadsRest (take met (i420 picture.now) ++ self.old.waiting)
            (O.remaining other.old) (O.remaining other.new) self.new.theirs result }
    {
        self.copy(alloc, picture)?;
        make_room(alloc, &mut self.theirs, picture)?;
        let known = &self.ours[..met as usize];
        if known.len() < self.ours.len() && self.ahead.as_slice().is_empty() {
            // it has ended, and is asked for no more
            return Ok(false);
        }
        read_rest(&mut self.theirs, known, self.ahead.as_slice(), other)
    }

    /// Reads the other's next bytes, as many as this picture has. Answers whether there are so
    /// many.
    pub(crate) fn read<O: Read>(
        &mut self,
        alloc: Global,
        picture: &SharedPicture,
        other: &mut O,
    ) -> Result<bool, CompareFault>
        requires { IsWhole picture.now }
        ensures ours { self.new.ours ≡ self.old.ours }
        ensures reads { ReadsBeside picture.now (O.remaining other.old)
            (O.remaining other.new) self.new.theirs result }
    {
        make_room(alloc, &mut self.theirs, picture)?;
        read_rest(&mut self.theirs, &[], &[], other)
    }
}

// Makes room for what is shown of a picture. What stands in it then is any.
fn make_room(alloc: Global, room: &mut Vec<u8>, picture: &SharedPicture) -> Result<(), RunFault>
    requires { IsWhole picture.now }
    ensures ok { OnOk result (length room.new.items ≡ length (i420 picture.now)) }
    ensures err { IfErr result (λ fault. fault ≡ faults.Memory) }
{
    // no room has more bytes than the greatest number
    let len = i420_len(picture).min(usize::MAX as u128) as usize;
    if room.len() != len {
        // that for pictures of another size goes first
        *room = Vec::new(alloc);
        *room = vec![in alloc; 0; len]?;
    }
    Ok(())
}

// Puts these bytes in front, and reads until all is filled behind them. Answers whether it is.
fn read_rest<O: Read>(
    room: &mut [u8],
    first: &[u8],
    second: &[u8],
    other: &mut O,
) -> Result<bool, CompareFault>
    requires { length first.now + length second.now ≤ length room.old }
    ensures long { length room.new ≡ length room.old }
    ensures reads { ReadsRest (first.now ++ second.now) (O.remaining other.old)
        (O.remaining other.new) room.new result }
{
    put(room, 0, first);
    put(room, first.len(), second);
    let start = first.len() + second.len();
    let count = read_other(&mut room[start..], other)?;
    if count < room.len() - start {
        return Ok(false);
    }
    Ok(true)
}

// Copies bytes to this place.
fn put(room: &mut [u8], at: usize, bytes: &[u8])
    requires { at + length bytes.now ≤ length room.old }
    ensures long { length room.new ≡ length room.old }
    ensures front { take (at + length bytes.now) room.new ≡ take at room.old ++ bytes.now }
{
    room[at..at + bytes.len()].copy_from_slice(bytes);
}

/// Reads until all is filled, or the other ends. Answers how many bytes came.
pub(crate) fn read_other<O: Read>(bytes: &mut [u8], other: &mut O) -> Result<usize, CompareFault>
    ensures length { length bytes.new ≡ length bytes.old }
    ensures within { IfOk result (λ count. count ≤ length bytes.new) }
    ensures ok { IfOk result
        (λ count. Consumes (O.remaining other.old) (O.remaining other.new) (take count bytes.new)) }
    ensures last { IfOk result
        (λ count. count < length bytes.new → IsAtEnd (O.remaining other.new)) }
    ensures fault { IfErr result (λ fault. fault ≡ ends.Theirs) }
    ensures err { OnErr result (ReadsSome (O.remaining other.old) (O.remaining other.new)) }
{
    let mut count = 0;
    'reads: while count < bytes.len() {
        match read_once(other, &mut bytes[count..]) {
            Ok(0) => return Ok(count),
            Ok(len) => count += len,
            Err(_) => return Err(CompareFault::Theirs),
        }
    }
    Ok(count)
}
