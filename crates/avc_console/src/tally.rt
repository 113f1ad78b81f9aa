//! Refusals that are counted, and told at once.

ghost use Rattle.std.specs.Prelude.{◌≡◌, [], true};
ghost use Rattle.avc_console.specs.Reporting.{new_tally, reported_by};

use crate::fault::RunFault;
use crate::reporter::{Counts, Reporter};
use crate::telling::tell_refusal;
use avc_types::{Fault, History};
use std::io::Write;
use std::marker::Model;

/// Counts pictures and refusals, and tells each refusal at once on the standard error, by its line,
/// and by one that says what it means where that is wanted. It keeps no refusal, and asks for no
/// memory. A contract sees the refusals, and whether all lines were taken.
#[derive(Drop)]
pub struct Tally {
    counts: Counts,
    is_explained: bool,
    is_told: bool,
    refused: History<(u64, Fault)>,
}

impl Model for Tally {
    ghost use Rattle.std.specs.Prelude.{◌≡◌, length};
    ghost use Rattle.avc_annexb.specs.Units.{saturated};
    ghost use Rattle.avc_console.specs.Reporting.{Tallied};

    ghost Value = { Tallied };

    ghost view = { λ t. record {
      pictures = t.counts.pictures;
      refusals = t.refused.items;
      explained = t.is_explained;
      told = t.is_told;
    } };

    ghost invariant = { λ t. t.counts.refused ≡ saturated (length t.refused.items) };
}

impl Tally {
    /// Of a run that has not begun.
    pub fn new(is_explained: bool) -> Tally
        ensures { result ≡ new_tally is_explained }
    {
        Tally {
            counts: Counts {
                pictures: 0,
                refused: 0,
            },
            is_explained,
            is_told: true,
            refused: History::new(),
        }
    }

    /// Whether the standard error took all that was told.
    pub fn is_told(&self) -> bool
        ensures { result ≡ self.now.told }
    {
        self.is_told
    }
}

impl Reporter for Tally {
    ghost reported = { reported_by };

    fn count_picture(&mut self) {
        self.counts.pictures = self.counts.pictures.saturating_add(1);
    }

    fn refuse<E: Write>(
        &mut self,
        unit: u64,
        fault: Fault,
        errors: &mut E,
    ) -> Result<(), RunFault> {
        self.is_told = tell_refusal(self.is_told, self.is_explained, unit, fault, errors);
        self.refused = self.refused.with(&(unit, fault));
        self.counts.refused = self.counts.refused.saturating_add(1);
        Ok(())
    }

    fn counts(&self) -> Counts {
        self.counts
    }
}
