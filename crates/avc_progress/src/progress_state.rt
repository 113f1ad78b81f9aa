//! What the line of progress says, and when.

ghost use Rattle.std.specs.Prelude.{◌≡◌, ◌++◌, ◌∷◌, [], OnOk};
ghost use Rattle.std.specs.Duration.{as_nanos};
ghost use Rattle.std.specs.Io.KnownBytes.{Appends};
ghost use Rattle.avc_annexb.specs.Units.{saturated};
ghost use Rattle.avc_progress.specs.Progress.{first_place, is_line_due, line_at, millis_in};
ghost use Rattle.avc_progress.specs.Progress.{no_counts};
ghost use Rattle.avc_progress.specs.Progress.{place_after};
ghost use Rattle.avc_progress.specs.Rates.{new_search, Looks};

use crate::progress::{BytesRead, progress_line};
use crate::rate::RateSearch;
use avc_console::{Counts, RunFault, write_text};
use std::alloc::Global;
use std::io::Write;
use std::time::Duration;

/// The least time between two lines, in milliseconds: they come at most four times a second.
const INTERVAL: u128 = 250;

/// How far decoding is, and when that was told last.
#[derive(Drop)]
pub struct ProgressState {
    pub counts: Counts,
    pub place: BytesRead,
    pub rate: RateSearch,

    /// Since the start.
    pub told_at: Duration,
}

impl ProgressState {
    /// Before any read of an input of so many bytes, where that is known.
    pub fn new(alloc: Global, size: Option<u64>) -> ProgressState
        ensures counts { result.counts ≡ no_counts }
        ensures place { result.place ≡ first_place size }
        ensures rate { result.rate ≡ new_search }
        ensures told_at { as_nanos result.told_at ≡ 0 }
    {
        ProgressState {
            counts: Counts {
                pictures: 0,
                refused: 0,
            },
            place: BytesRead { read: 0, size },
            rate: RateSearch::new(alloc),
            told_at: Duration::ZERO,
        }
    }

    /// After a read: the bytes that it gave, and what the stream has come to.
    pub fn note_read(&mut self, piece: &[u8], counts: Counts)
        ensures counts { self.new.counts ≡ counts }
        ensures place { self.new.place ≡ place_after self.old.place piece.now }
        ensures rate { Looks self.old.rate.searched piece.now self.old.rate self.new.rate }
        ensures told_at { self.new.told_at ≡ self.old.told_at }
    {
        self.counts = counts;
        self.place.read = self.place.read.saturating_add(piece.len() as u64);
        self.rate.look(piece);
    }

    /// At the end of the run: what the stream has come to.
    pub fn note_end(&mut self, counts: Counts)
        ensures { self.new ≡ record self.old { counts = counts } }
    {
        self.counts = counts;
    }

    /// Whether a line is due so long after the start.
    pub fn is_line_due(&self, elapsed: Duration) -> bool
        ensures { result ≡ is_line_due (as_nanos self.now.told_at) (as_nanos elapsed) }
    {
        elapsed.saturating_sub(self.told_at).as_millis() >= INTERVAL
    }

    /// Writes the line so long after the start.
    pub fn tell<E: Write>(
        &mut self,
        alloc: Global,
        elapsed: Duration,
        errors: &mut E,
    ) -> Result<(), RunFault>
        ensures told_at { self.new ≡ record self.old { told_at = elapsed } }
        ensures line { OnOk result
            (Appends (E.contents errors.old) (E.contents errors.new)
            (line_at self.old (as_nanos elapsed))) }
    {
        self.told_at = elapsed;
        let rate = self.rate.found();
        let line = progress_line(alloc, self.counts, self.place, millis_in(elapsed), rate)?;
        write_text(&line, errors)
    }

    /// Writes the line for the last time: it is ended.
    pub fn tell_last<E: Write>(
        &mut self,
        alloc: Global,
        elapsed: Duration,
        errors: &mut E,
    ) -> Result<(), RunFault>
        ensures told_at { self.new ≡ record self.old { told_at = elapsed } }
        ensures line { OnOk result
            (Appends (E.contents errors.old) (E.contents errors.new)
            (line_at self.old (as_nanos elapsed) ++ 10 ∷ [])) }
    {
        self.tell(alloc, elapsed, errors)?;
        write_text("\n", errors)?;
        Ok(())
    }
}

// Whole milliseconds; the greatest number, once there.
fn millis_in(elapsed: Duration) -> u64
    ensures { result ≡ saturated (millis_in (as_nanos elapsed)) }
{
    elapsed.as_millis().min(u128::from(u64::MAX)) as u64
}
