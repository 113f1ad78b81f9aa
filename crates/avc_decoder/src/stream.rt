//! From a unit to its events.

ghost use Rattle.std.specs.Prelude.{◌≡◌, ◌≤◌, IfOk, IfSome, OnOk};
ghost use Rattle.avc_decoder.specs.Events.{after_next};
ghost use Rattle.avc_decoder.specs.OpenPictures.{LendsCurrent};
ghost use Rattle.avc_decoder.specs.States.{after_stream_end, after_unit_in_stream, current_in};
ghost use Rattle.avc_decoder.specs.States.{frames_in, most_frames, new_stream, phase_of};
ghost use Rattle.avc_decoder.specs.States.{stream_state, FitsPhase, HasOutcome, HasStep};
ghost use Rattle.avc_decoder.specs.States.{IsStream};
ghost use Rattle.avc_params.specs.Tables.{sets_after};
ghost use Rattle.avc_picture.specs.Decoding.{HasNoFault};

use crate::close::{close, empty, fail};
use crate::open_picture::OpenPicture;
use crate::phase::Phase;
use crate::queue::Queue;
use crate::slices::{first_slice, next_slice};
use avc_annexb::Unit;
use avc_decoder_core::{Output, Sequence};
use avc_params::ParamTable;
use avc_picture::PictureMemory;
use avc_plane::PADDING;
use avc_types::OutOfMemory;
use avc_units::{HeapSlice, Next, Step, step_of};
use std::alloc::Global;

/// Makes events of units. After want of memory it may be anything.
pub struct Stream {
    pub alloc: Global,
    pub table: ParamTable,
    /// A slice that is over, in whose place the next one is read.
    pub over: Option<HeapSlice>,
    /// The closed pictures, as far as they are needed.
    pub sequence: Sequence,
    pub phase: Phase,
    /// What pictures that are over have left, for the next one, which takes planes only where none
    /// are left over: so the stored frames, the open picture and what is left over are together
    /// never more than the frames that were stored and open at once.
    pub memory: PictureMemory<PADDING>,
    /// The events that were not taken.
    pub queue: Queue,
    /// How many macroblocks of slices have been read, as far as a u64 counts.
    pub read: u64,
}

// Written out, so that a proof takes the stream apart here alone.
impl Drop for Stream {
    fn drop(self) {
        let Stream {
            alloc: _,
            table: _,
            over: _,
            sequence: _,
            phase: _,
            memory: _,
            queue: _,
            read: _,
        } = self;
    }
}

impl Stream {
    /// At the start: it waits for a picture to start with.
    pub fn new(alloc: Global, output: Output) -> Stream
        ensures works { IsStream result }
        ensures few { frames_in result ≤ most_frames }
        ensures state { stream_state result ≡ new_stream output }
    {
        Stream {
            alloc,
            table: ParamTable::new(alloc),
            over: None,
            sequence: Sequence::new(alloc, output),
            phase: Phase::Waiting,
            memory: PictureMemory::new(),
            queue: Queue::new(alloc),
            read: 0,
        }
    }

    /// Takes the next unit: closes the open picture, where the unit does, and does what comes next.
    pub fn unit(&mut self, unit: &Unit) -> Result<(), OutOfMemory>
        requires { IsStream self.old }
        ensures works { OnOk result (IsStream self.new) }
        ensures state { OnOk result (stream_state self.new
            ≡ after_unit_in_stream unit.now (stream_state self.old)) }
    {
        let step = step_in(
            self.alloc,
            &mut self.table,
            &mut self.over,
            &self.phase,
            unit,
        )?;
        if !(step.closes & self.phase.is_open()) {
            next(self, unit.index, step.next)?;
            return Ok(());
        }
        close(self)?;
        // that was a fault, and the step says nothing then
        if self.phase.is_waiting() & !step.even_after_fault {
            return Ok(());
        }
        next(self, unit.index, step.next)?;
        Ok(())
    }

    /// Takes the end of the units: the open picture is closed, and all held pictures go out.
    pub fn finish(&mut self) -> Result<(), OutOfMemory>
        requires { IsStream self.old }
        ensures works { OnOk result (IsStream self.new) }
        ensures state { OnOk result (stream_state self.new
            ≡ after_stream_end (stream_state self.old)) }
    {
        close(self)?;
        empty(self)?;
        Ok(())
    }

    /// The open picture, if there is one.
    pub fn open_picture(&self) -> Option<OpenPicture<'_>>
        ensures { LendsCurrent self.now.sequence (current_in self.now.phase) result }
    {
        match &self.phase {
            Phase::Running(Some(current)) => Some(OpenPicture {
                decoder: &current.decoder,
                frames: self.sequence.frames(),
            }),
            _ => None,
        }
    }
}

/// There is memory of few frames. This does nothing: it says what is true of every stream.
#[inline(always)]
pub fn frames_are_few(stream: &Stream)
    requires { IsStream stream.now }
    ensures { frames_in stream.now ≤ most_frames }
{
    stream.memory.are_few();
    let _ = stream.sequence.frames();
}

/// What a unit does in this phase, and what it puts into the table. Where the next picture begins
/// is decided here (7.4.1.2.4).
fn step_in(
    alloc: Global,
    table: &mut ParamTable,
    over: &mut Option<HeapSlice>,
    phase: &Phase,
    unit: &Unit,
) -> Result<Step, OutOfMemory>
    requires { IfSome (current_in phase.now) (λ c. HasNoFault c.decoder) }
    ensures { IfOk result (λ s. HasStep table.old phase.now unit.now s table.new) }
{
    let step = step_of(alloc, table, over, phase.context(), unit)?;
    Ok(step)
}

/// Does what a unit does next, once the open picture is closed where the unit closes it.
fn next(stream: &mut Stream, unit: u64, next: Next) -> Result<(), OutOfMemory>
    requires works { IsStream stream.old }
    requires fits { FitsPhase (sets_after stream.old.table) stream.old.phase next }
    ensures { OnOk result (HasOutcome stream.old
        (after_next stream.old.sequence.output (sets_after stream.old.table) unit
        (phase_of stream.old.sequence stream.old.phase) next) stream.new) }
{
    match next {
        Next::Nothing => Ok(()),
        Next::Refusal(fault) => {
            stream.queue.refuse(unit, fault)?;
            Ok(())
        }
        Next::FaultOfOpen(fault) | Next::FaultOfOwn(fault) => {
            fail(stream, unit, fault)?;
            Ok(())
        }
        Next::Begins(slice) => {
            first_slice(stream, slice.get())?;
            stream.over = Some(slice);
            Ok(())
        }
        Next::Continues(slice) => {
            next_slice(stream, slice.get())?;
            stream.over = Some(slice);
            Ok(())
        }
    }
}
