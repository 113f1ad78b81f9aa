//! What is known of a run while it goes on, and at its end.

ghost use Rattle.std.specs.Prelude.{◌≡◌, false, None, IfSome};
ghost use Rattle.std.specs.Option.{option_map};
ghost use Rattle.avc_shell.specs.LossLines.{passed_in, with_bytes, with_end, GoesOn};
ghost use Rattle.avc_progress.specs.Progress.{IsLast, IsReadOn};
ghost use Rattle.avc_program.specs.Outcomes.{outcome_after};
ghost use Rattle.avc_shell.specs.UnitPlaces.{places_with_bytes, places_with_end, FollowsOn};

use avc_console::{Counts, RunFault, Watch};
use avc_progress::Progress;
use avc_shell::{FrameTimes, LossLines, RefusalPlaces};
use avc_types::Fault;
use std::cell::Cell;
use std::io::ErrorKind;

/// Watches a run: shows how far it is and what is lost, and remembers what it came to.
#[derive(Drop)]
pub(crate) struct Observer<'a> {
    progress: Progress<'a>,
    places: RefusalPlaces<'a>,
    losses: LossLines<'a>,
    times: Option<FrameTimes<'a>>,
    pictures: &'a Cell<u64>,
    outcome: Option<Counts>,
}

impl<'a> Observer<'a> {
    /// Of a run that has not begun, and where it is noted how many pictures were written or left
    /// out.
    pub(crate) fn new(
        progress: Progress<'a>,
        places: RefusalPlaces<'a>,
        losses: LossLines<'a>,
        times: Option<FrameTimes<'a>>,
        pictures: &'a Cell<u64>,
    ) -> Observer<'a>
        ensures outcome { result.outcome ≡ None }
        ensures progress { result.progress ≡ progress.entry }
        ensures places { result.places ≡ places.entry }
        ensures losses { result.losses ≡ losses.entry }
    {
        Observer {
            progress,
            places,
            losses,
            times,
            pictures,
            outcome: None,
        }
    }

    /// What the run came to, once it has ended without a fault.
    pub(crate) fn outcome(&self) -> Option<Counts>
        ensures { result ≡ self.now.outcome }
    {
        self.outcome
    }

    /// How many slices were passed over, where that is known.
    pub(crate) fn passed(&self) -> Option<u64>
        ensures { result ≡ passed_in self.now.losses.losses }
    {
        self.losses.passed()
    }

    /// Why times could not be written, where that is so.
    pub(crate) fn times_fault(&self) -> Option<ErrorKind>
        ensures { IfSome self.now.times (λ times. result ≡ times.fault) }
    {
        match &self.times {
            Some(times) => times.fault(),
            None => None,
        }
    }
}

impl Watch for Observer<'_> {
    fn note_bytes(&mut self, piece: &[u8])
        ensures places { self.new.places.failed ≡ false →
            FollowsOn (places_with_bytes piece.now) self.old.places.places self.new.places.places }
        ensures losses { self.new.losses.failed ≡ false →
            GoesOn (with_bytes piece.now) self.old.losses.losses self.new.losses.losses }
    {
        self.places.note_bytes(piece);
        self.losses.note_bytes(piece);
    }

    fn note_end(&mut self)
        ensures places { self.new.places.failed ≡ false →
            FollowsOn places_with_end self.old.places.places self.new.places.places }
        ensures losses { self.new.losses.failed ≡ false →
            GoesOn with_end self.old.losses.losses self.new.losses.losses }
    {
        self.places.note_end();
        self.losses.note_end();
    }

    fn note_picture(&mut self) {
        self.pictures.set(self.pictures.get().saturating_add(1));
        if let Some(times) = &mut self.times {
            times.note_picture();
        }
    }

    fn note_refusal(&mut self, unit: u64, fault: Fault) {
        self.places.note_refusal(unit, fault);
        self.losses.note_refusal(unit, fault);
    }

    fn look(&mut self, piece: &[u8], counts: Counts)
        ensures { IsReadOn piece.now counts (option_map (λ m. m.state) self.old.progress.meter)
            (option_map (λ m. m.state) self.new.progress.meter) }
    {
        self.places.note_units();
        self.losses.note_units();
        self.progress.look(piece, counts);
    }

    fn end(&mut self, counts: Counts, run: Result<(), RunFault>)
        ensures progress { IsLast counts (option_map (λ m. m.state) self.old.progress.meter)
            (option_map (λ m. m.state) self.new.progress.meter) }
        ensures outcome { self.new.outcome ≡ outcome_after counts run self.old.outcome }
    {
        self.places.note_units();
        self.losses.note_units();
        self.progress.end(counts);
        self.outcome = outcome_after(counts, run, self.outcome);
    }
}

// What a run came to, where no fault ended it; or what was known before.
fn outcome_after(
    counts: Counts,
    run: Result<(), RunFault>,
    before: Option<Counts>,
) -> Option<Counts>
    ensures { result ≡ outcome_after counts run before }
{
    match run {
        Ok(()) => Some(counts),
        Err(_) => before,
    }
}
