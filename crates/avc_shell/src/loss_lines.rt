//! What is lost behind refusals, told as decoding goes on.

ghost use Rattle.std.specs.Prelude.{◌≡◌, false, true, if◌then◌else◌, is_some, Some, None};
ghost use Rattle.std.specs.Prelude.{IfOk, IfSome, OnOk};
ghost use Rattle.avc_annexb.specs.SplitterState.{next_unit_of};
ghost use Rattle.avc_console.specs.Reading.{max_unit};
ghost use Rattle.avc_shell.specs.LossLines.{is_at, passed_in, place_of, slice_behind};
ghost use Rattle.avc_shell.specs.LossLines.{with_bytes, with_end, GoesOn};
ghost use Rattle.avc_tools.specs.Losses.{behind, new_followed, seen};
ghost use Rattle.avc_types.specs.declared.fault.Fault.TheVariants as refusals;

use avc_console::{MAX_UNIT, tell_loss};
use avc_tools::{Losses, SeenUnit};
use avc_types::{Fault, OutOfMemory, WantOfMemory};

/// Tells behind the refusal of a unit with its picture that decoding waits, and counts the slices
/// that it passes over, where more than the lines that scripts read may be told.
#[derive(Drop)]
pub struct LossLines<'a> {
    rt: &'a HostRuntime,
    // none where they are not told, and once memory was wanting
    losses: Option<Losses<MAX_UNIT>>,
    failed: WantOfMemory,
    // the last slice among the units that were taken: it is refused, too, where its picture turns
    // out faulty when it is closed
    last_slice: Option<u64>,
}

impl LossLines<'_> {
    /// Of a stream of which nothing was read.
    pub fn new(rt: &HostRuntime, are_told: bool) -> LossLines<'_>
        ensures losses { result.losses ≡ (if are_told then Some new_followed else None) }
        ensures failed { result.failed ≡ false }
    {
        let losses = if are_told {
            Some(Losses::new(rt.alloc()))
        } else {
            None
        };
        LossLines {
            rt,
            losses,
            failed: WantOfMemory::none(),
            last_slice: None,
        }
    }

    /// The next bytes of the stream.
    pub fn note_bytes(&mut self, piece: &[u8])
        ensures { self.new.failed ≡ false →
            GoesOn (with_bytes piece.now) self.old.losses self.new.losses }
    {
        if let Some(losses) = &mut self.losses {
            if self.failed.keep(losses.feed(piece)).is_err() {
                self.losses = None;
            }
        }
    }

    /// The end of the stream.
    pub fn note_end(&mut self)
        ensures { self.new.failed ≡ false → GoesOn with_end self.old.losses self.new.losses }
    {
        if let Some(losses) = &mut self.losses {
            if self.failed.keep(losses.finish()).is_err() {
                self.losses = None;
            }
        }
    }

    /// A refusal, behind which a line is told where decoding waits. A unit whose forbidden_zero_bit
    /// is 1, and a parameter set, is refused alone.
    pub fn note_refusal(&mut self, unit: u64, fault: Fault)
        ensures waits { self.new.failed ≡ false → (fault ≡ refusals.ForbiddenBit → ⊥) →
            is_at self.new.last_slice unit ≡ true
            → IfSome self.new.losses (λ f. f.waits ≡ true) }
        ensures goes_on { self.new.failed ≡ false → is_some self.new.losses
            ≡ is_some self.old.losses }
    {
        if let Fault::ForbiddenBit = fault {
            return;
        }
        if let Some(losses) = &mut self.losses {
            let lost = lose_at(losses, &mut self.last_slice, unit);
            match self.failed.keep(lost) {
                Ok(is_lost) => {
                    let _ = tell_loss(unit, is_lost, &mut self.rt.stderr());
                }
                Err(_) => self.losses = None,
            }
        }
    }

    /// All refusals by the bytes so far were noted.
    pub fn note_units(&mut self)
        ensures { self.new.failed ≡ false → is_some self.new.losses ≡ is_some self.old.losses }
    {
        if let Some(losses) = &mut self.losses {
            let taken = take_all(losses, &mut self.last_slice);
            if self.failed.keep(taken).is_err() {
                self.losses = None;
            }
        }
    }

    /// How many slices were passed over, where that is known.
    pub fn passed(&self) -> Option<u64>
        ensures { result ≡ passed_in self.now.losses }
    {
        match &self.losses {
            Some(losses) => Some(losses.passed()),
            None => None,
        }
    }
}

// Takes the units up to the one at this place, where it was not taken, and answers whether it is
// refused with a picture: it is a slice.
fn lose_at(
    losses: &mut Losses<MAX_UNIT>,
    last_slice: &mut Option<u64>,
    unit: u64,
) -> Result<bool, OutOfMemory>
    ensures lost { IfOk result (λ is_lost. is_lost ≡ is_at last_slice.new unit) }
    ensures waits { IfOk result (λ is_lost. is_lost ≡ true → losses.new.waits ≡ true) }
{
    let mut is_ahead = *last_slice != Some(unit);
    'units: for _unit in 0..u64::MAX {
        if !is_ahead {
            break;
        }
        is_ahead = match take_next(losses, last_slice)? {
            Some(index) => index < unit,
            None => false,
        };
    }
    let is_lost = *last_slice == Some(unit);
    if is_lost {
        losses.lose();
    }
    Ok(is_lost)
}

// Takes all units whose end has been seen.
fn take_all(
    losses: &mut Losses<MAX_UNIT>,
    last_slice: &mut Option<u64>,
) -> Result<(), OutOfMemory> {
    'units: for _unit in 0..u64::MAX {
        if take_next(losses, last_slice)?.is_none() {
            break;
        }
    }
    Ok(())
}

// Takes the next unit, and answers its place.
fn take_next(
    losses: &mut Losses<MAX_UNIT>,
    last_slice: &mut Option<u64>,
) -> Result<Option<u64>, OutOfMemory>
    ensures place { IfOk result (λ place. place
        ≡ place_of (seen (next_unit_of max_unit losses.old.units))) }
    ensures last { OnOk result (last_slice.new
        ≡ slice_behind last_slice.old (seen (next_unit_of max_unit losses.old.units))) }
    ensures losses { OnOk result (losses.new
        ≡ behind losses.old (next_unit_of max_unit losses.old.units)) }
{
    let unit = losses.next_unit()?;
    *last_slice = slice_behind(*last_slice, unit);
    Ok(unit.map(|unit| unit.index))
}

// The last slice behind a unit, if there is one.
fn slice_behind(last: Option<u64>, unit: Option<SeenUnit>) -> Option<u64>
    ensures { result ≡ slice_behind last unit }
{
    match unit {
        Some(unit) if unit.is_slice => Some(unit.index),
        _ => last,
    }
}
