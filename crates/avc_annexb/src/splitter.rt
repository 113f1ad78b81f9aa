//! A byte stream (Annex B) in pieces, and its units, one after another.

ghost use Rattle.std.specs.Prelude.{◌≡◌, ◌<◌, true, false, OnErr, OnOk, IfOk, IsOk, IfSome};
ghost use Rattle.avc_annexb.specs.Scanning.{has_failed};
ghost use Rattle.avc_annexb.specs.SplitterState.{new_splitter, after_feed, after_finish};
ghost use Rattle.avc_annexb.specs.SplitterState.{after_failure, next_unit_of, after_next_unit};
ghost use Rattle.avc_annexb.specs.SplitterState.{units_waiting, TakesUnit};
ghost use Rattle.avc_annexb.specs.Units.{units_begun};

use crate::scanner::Scanner;
use crate::unit::Unit;
use avc_types::{History, OutOfMemory};
use std::alloc::Global;
use std::marker::Model;

#[derive(Drop)]
enum SplitterPhase {
    Running,
    Ended,
    Failed(OutOfMemory),
}

/// Passes an answer on. Where it is that memory was refused, that is so from then on.
fn keep<T>(phase: &mut SplitterPhase, answer: Result<T, OutOfMemory>) -> Result<T, OutOfMemory>
    ensures same { result ≡ answer }
    ensures going { OnOk result (phase.new ≡ phase.old) }
    ensures refused { OnErr result (has_failed phase.new ≡ true) }
{
    match answer {
        Ok(done) => Ok(done),
        Err(refusal) => {
            *phase = SplitterPhase::Failed(refusal.again());
            Err(refusal)
        }
    }
}

/// Splits a byte stream (Annex B) into its units, in whatever pieces its bytes come. It keeps the
/// unit that is not yet over, of at most `MAX` bytes, and the units that were not taken. It is seen
/// as the bytes that it was fed, whether they are all, how many units were taken, and whether
/// memory was refused.
#[derive(Drop)]
pub struct Splitter<const MAX: usize> {
    progress: SplitterPhase,
    scanner: Scanner<MAX>,
    bytes: History<u8>,
}

impl<const MAX: usize> Model for Splitter<MAX> {
    ghost use Rattle.avc_annexb.specs.SplitterState.{SplitterState};

    ghost Value = { SplitterState };

    ghost use Rattle.avc_annexb.specs.Scanning.{splitter_state, IsSplitterState};

    ghost view = { splitter_state };

    ghost invariant = { IsSplitterState };
}

impl<const MAX: usize> Splitter<MAX> {
    /// A splitter at the start of a stream.
    pub fn new(alloc: Global) -> Self
        ensures { result ≡ new_splitter }
    {
        Splitter {
            progress: SplitterPhase::Running,
            scanner: Scanner::new(alloc),
            bytes: History::new(),
        }
    }

    /// Takes the next bytes of the stream. After an `Ok` of `finish` nothing changes. Once it
    /// answers an `Err`, for want of memory, it goes on to do so and asks for none.
    pub fn feed(&mut self, piece: &[u8]) -> Result<(), OutOfMemory>
        ensures ok { OnOk result (self.new ≡ after_feed self.old piece.now) }
        ensures going { OnOk result (self.old.failed ≡ false) }
        ensures err { OnErr result (self.new ≡ after_failure self.old) }
        ensures ended { self.old.ended ≡ true → self.old.failed ≡ false → IsOk result }
    {
        match &self.progress {
            // no memory is asked for again
            SplitterPhase::Failed(refusal) => Err(refusal.again()),
            SplitterPhase::Ended => Ok(()),
            SplitterPhase::Running => {
                keep(&mut self.progress, self.scanner.take_in(piece))?;
                self.bytes = self.bytes.with_all(piece);
                Ok(())
            }
        }
    }

    /// Takes the next bytes of the stream up to where a unit has ended, or all where none ends.
    /// Answers how many. After an `Ok` of `finish` it takes all, and nothing changes. Once it
    /// answers an `Err`, for want of memory, it goes on to do so and asks for none.
    pub fn feed_unit(&mut self, bytes: &[u8]) -> Result<usize, OutOfMemory>
        ensures ok { IfOk result (λ used. TakesUnit MAX self.old bytes.now used self.new) }
        ensures going { OnOk result (self.old.failed ≡ false) }
        ensures err { OnErr result (self.new ≡ after_failure self.old) }
        ensures ended { self.old.ended ≡ true → self.old.failed ≡ false → IsOk result }
    {
        match &self.progress {
            // no memory is asked for again
            SplitterPhase::Failed(refusal) => Err(refusal.again()),
            SplitterPhase::Ended => Ok(bytes.len()),
            SplitterPhase::Running => {
                let used = keep(&mut self.progress, self.scanner.take_unit(bytes))?;
                self.bytes = self.bytes.with_all(&bytes[..used]);
                Ok(used)
            }
        }
    }

    /// Ends the stream, and with it the last unit. A second call changes nothing. Once it answers
    /// an `Err`, for want of memory, it goes on to do so and asks for none.
    pub fn finish(&mut self) -> Result<(), OutOfMemory>
        ensures ok { OnOk result (self.new ≡ after_finish self.old) }
        ensures going { OnOk result (self.old.failed ≡ false) }
        ensures err { OnErr result (self.new ≡ after_failure self.old) }
        ensures ended { self.old.ended ≡ true → self.old.failed ≡ false → IsOk result }
    {
        match &self.progress {
            SplitterPhase::Failed(refusal) => Err(refusal.again()),
            SplitterPhase::Ended => Ok(()),
            SplitterPhase::Running => {
                keep(&mut self.progress, self.scanner.end())?;
                self.progress = SplitterPhase::Ended;
                Ok(())
            }
        }
    }

    /// The next unit whose end has been seen, if there is one. After want of memory there is none.
    pub fn next_unit(&mut self) -> Option<Unit>
        ensures unit { result ≡ next_unit_of MAX self.old }
        ensures taken { self.new ≡ after_next_unit self.old result }
        ensures fewer { IfSome result
            (λ _. units_waiting MAX self.new < units_waiting MAX self.old) }
    {
        match self.progress {
            SplitterPhase::Failed(_) => None,
            SplitterPhase::Running | SplitterPhase::Ended => self.scanner.ready.next(),
        }
    }

    /// How many units of the bytes so far have begun: those whose end has been seen, and the one
    /// under way, once it has a byte. The first byte of each unit that begins later is yet to come.
    /// After want of memory it is 0.
    pub fn units_begun(&self) -> u64
        ensures going { self.now.failed ≡ false → result ≡ units_begun MAX self.now.bytes }
        ensures failed { self.now.failed ≡ true → result ≡ 0 }
    {
        match self.progress {
            SplitterPhase::Failed(_) => 0,
            SplitterPhase::Ended => self.scanner.ready.count,
            SplitterPhase::Running => self.scanner.units_begun(),
        }
    }

    /// A unit that was handed out is over: the bytes of another will stand in its place, so that
    /// for most units no memory is taken.
    pub fn take_back(&mut self, unit: Unit)
        ensures { self.new ≡ self.old }
    {
        if let Some(body) = unit.body {
            self.scanner.take_back(body.into_vec());
        }
    }
}
