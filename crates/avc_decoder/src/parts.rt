//! What a decoder consists of: units, their events, and those that wait.

ghost use Rattle.std.specs.Prelude.{◌≡◌, false, true, is_err, IfOk, OnErr, OnOk};
ghost use Rattle.avc_decoder.specs.OpenPictures.{LendsCurrentIn};
ghost use Rattle.avc_decoder.specs.SeenEvents.{seen_if_any};
ghost use Rattle.avc_decoder.specs.States.{after_take_in, next_event_in, stream_state};
ghost use Rattle.avc_decoder.specs.States.{Ends, EndsIn, Feeds, FeedsIn, FeedsUnit, FeedsUnitIn};
ghost use Rattle.avc_decoder.specs.States.{HandlesAll, IsNew, IsStream, IsUnitCountIn, IsWorking};

use crate::event::Event;
use crate::open_picture::OpenPicture;
use crate::outgoing::Outgoing;
use crate::stream::{Stream, frames_are_few};
use avc_annexb::Splitter;
use avc_decoder_core::Output;
use avc_plane::OutputPicture;
use avc_types::OutOfMemory;
use std::alloc::Global;

/// What a decoder works with: the units of its bytes, their events, and those of them that the
/// caller has not taken. After want of memory it may be anything.
pub struct Parts<const MAX: usize, P: OutputPicture> {
    pub splitter: Splitter<MAX>,
    pub stream: Stream,
    pub outgoing: Outgoing<P>,
}

// Written out, so that a proof takes the parts apart here alone, and not wherever a decoder is let
// go.
impl<const MAX: usize, P: OutputPicture> Drop for Parts<MAX, P> {
    fn drop(self) {
        let Parts {
            splitter: _,
            stream: _,
            outgoing: _,
        } = self;
    }
}

/// How many bytes were taken, and how many macroblocks of slices have been read.
#[derive(Clone, Copy)]
pub struct Fed {
    pub used: usize,
    pub read: u64,
}

impl<const MAX: usize, P: OutputPicture> Parts<MAX, P> {
    /// At the start of a stream.
    pub fn new(alloc: Global, output: Output) -> Self
        ensures { IsNew MAX output result }
    {
        Parts {
            splitter: Splitter::new(alloc),
            stream: Stream::new(alloc, output),
            outgoing: Outgoing::new(alloc),
        }
    }

    /// Takes the next bytes of the stream. Answers how many macroblocks of slices have been read.
    fn feed(&mut self, piece: &[u8]) -> Result<u64, OutOfMemory>
        requires { IsWorking MAX self.old }
        ensures { IfOk result (λ read. Feeds MAX self.old piece.now read self.new) }
    {
        let mut place = 0;
        while place < piece.len() {
            let fed = self.feed_unit(&piece[place..])?;
            place += fed.used;
        }
        Ok(self.stream.read)
    }

    /// Takes the next bytes of the stream up to where a unit has ended, or all where none ends.
    fn feed_unit(&mut self, bytes: &[u8]) -> Result<Fed, OutOfMemory>
        requires { IsWorking MAX self.old }
        ensures { IfOk result (λ fed. FeedsUnit MAX self.old bytes.now fed self.new) }
    {
        let used = self.splitter.feed_unit(bytes)?;
        handle_units(&mut self.splitter, &mut self.stream)?;
        frames_are_few(&self.stream);
        self.outgoing
            .put_all(self.stream.alloc, &mut self.stream.queue)?;
        Ok(Fed {
            used,
            read: self.stream.read,
        })
    }

    /// Takes the end of the stream. Answers how many macroblocks of slices were read.
    fn finish(&mut self) -> Result<u64, OutOfMemory>
        requires { IsWorking MAX self.old }
        ensures { IfOk result (λ read. Ends MAX self.old read self.new) }
    {
        self.splitter.finish()?;
        handle_units(&mut self.splitter, &mut self.stream)?;
        self.stream.finish()?;
        frames_are_few(&self.stream);
        self.outgoing
            .put_all(self.stream.alloc, &mut self.stream.queue)?;
        Ok(self.stream.read)
    }
}

/// Takes the next bytes of the stream, where it goes on. Answers how many macroblocks of slices
/// have been read.
pub fn feed<const MAX: usize, P: OutputPicture>(
    running: &mut Result<Parts<MAX, P>, OutOfMemory>,
    piece: &[u8],
) -> Result<u64, OutOfMemory>
    requires { IfOk running.old (IsWorking MAX) }
    ensures { IfOk result (λ read. FeedsIn MAX running.old piece.now read running.new) }
{
    match running {
        Ok(parts) => parts.feed(piece),
        Err(refusal) => Err(refusal.again()),
    }
}

/// Takes the next bytes of the stream up to where a unit has ended, or all where none ends, where
/// the stream goes on.
pub fn feed_unit<const MAX: usize, P: OutputPicture>(
    running: &mut Result<Parts<MAX, P>, OutOfMemory>,
    bytes: &[u8],
) -> Result<Fed, OutOfMemory>
    requires { IfOk running.old (IsWorking MAX) }
    ensures { IfOk result (λ fed. FeedsUnitIn MAX running.old bytes.now fed running.new) }
{
    match running {
        Ok(parts) => parts.feed_unit(bytes),
        Err(refusal) => Err(refusal.again()),
    }
}

/// Takes the end of the stream, where it goes on. Answers how many macroblocks of slices were read.
pub fn finish<const MAX: usize, P: OutputPicture>(
    running: &mut Result<Parts<MAX, P>, OutOfMemory>,
) -> Result<u64, OutOfMemory>
    requires { IfOk running.old (IsWorking MAX) }
    ensures { IfOk result (λ read. EndsIn MAX running.old read running.new) }
{
    match running {
        Ok(parts) => parts.finish(),
        Err(refusal) => Err(refusal.again()),
    }
}

/// An `Err` where a call was refused memory.
pub fn check<const MAX: usize, P: OutputPicture>(
    running: &Result<Parts<MAX, P>, OutOfMemory>,
) -> Result<(), OutOfMemory>
    ensures going { OnOk result (is_err running.now ≡ false) }
    ensures refused { OnErr result (is_err running.now ≡ true) }
{
    match running {
        Ok(_) => Ok(()),
        Err(refusal) => Err(refusal.again()),
    }
}

/// How many units have begun, where the stream goes on.
pub fn units_begun<const MAX: usize, P: OutputPicture>(
    running: &Result<Parts<MAX, P>, OutOfMemory>,
) -> Result<u64, OutOfMemory>
    ensures { IsUnitCountIn MAX running.now result }
{
    match running {
        Ok(parts) => Ok(parts.splitter.units_begun()),
        Err(refusal) => Err(refusal.again()),
    }
}

/// The open picture, where the stream goes on and has one.
pub fn lent_picture<const MAX: usize, P: OutputPicture>(
    running: &Result<Parts<MAX, P>, OutOfMemory>,
) -> Option<OpenPicture<'_>>
    ensures { LendsCurrentIn MAX running.now result }
{
    match running {
        Ok(parts) => parts.stream.open_picture(),
        Err(_) => None,
    }
}

/// Nothing is left but what was refused. What is dropped takes much room, which answers without a
/// refusal don't clear then.
#[cold]
#[inline(never)]
fn stop<const MAX: usize, P: OutputPicture>(
    running: &mut Result<Parts<MAX, P>, OutOfMemory>,
    refusal: &OutOfMemory,
)
    ensures { is_err running.new ≡ true }
{
    *running = Err(refusal.again());
}

/// Where memory was refused nothing else is left.
pub fn stop_at_refusal<const MAX: usize, P: OutputPicture, T: Copy>(
    running: &mut Result<Parts<MAX, P>, OutOfMemory>,
    answer: Result<T, OutOfMemory>,
) -> Result<T, OutOfMemory>
    ensures answer { result ≡ answer }
    ensures kept { OnOk result (running.new ≡ running.old) }
    ensures stopped { OnErr result (is_err running.new ≡ true) }
{
    match answer {
        Ok(done) => Ok(done),
        Err(refused) => {
            stop(running, &refused);
            Err(refused)
        }
    }
}

/// Takes the first event that was not taken, if there is one.
pub fn take_event<const MAX: usize, P: OutputPicture>(
    running: &mut Result<Parts<MAX, P>, OutOfMemory>,
) -> Option<Event<P>>
    ensures event { seen_if_any P.picture result ≡ next_event_in MAX running.old }
    ensures taken { running.new ≡ after_take_in MAX (seen_if_any P.picture result) running.old }
{
    match running {
        Ok(parts) => parts.outgoing.take(),
        Err(_) => None,
    }
}

/// Handles the units that were not taken.
fn handle_units<const MAX: usize>(
    splitter: &mut Splitter<MAX>,
    stream: &mut Stream,
) -> Result<(), OutOfMemory>
    requires splitter { splitter.old.failed ≡ false }
    requires stream { IsStream stream.old }
    ensures works { OnOk result (IsStream stream.new) }
    ensures handles { OnOk result
        (HandlesAll MAX splitter.old splitter.new (stream_state stream.old)
        (stream_state stream.new)) }
{
    while let Some(unit) = splitter.next_unit() {
        stream.unit(&unit)?;
        splitter.take_back(unit);
    }
    Ok(())
}
