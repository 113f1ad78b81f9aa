//! Whoever is told of each picture and each refusal while a run goes on.

ghost use Rattle.std.specs.Prelude.{◌≡◌, ◌++◌, ◌∷◌, [], length, true, IfErr, OnOk};
ghost use Rattle.avc_annexb.specs.Units.{saturated};
ghost use Rattle.avc_console.specs.Reporting.{with_picture, with_refusal, Reported, TellsOn};
ghost use Rattle.avc_console.specs.declared.fault.RunFault.TheVariants as faults;

use crate::fault::RunFault;
use crate::report::Report;
use avc_types::Fault;
use std::io::Write;

/// How many pictures and refusals there were so far.
#[derive(Clone, Copy)]
pub struct Counts {
    /// Pictures that went out; the greatest number, once there.
    pub pictures: u64,

    /// Refusals; the greatest number, once there.
    pub refused: u64,
}

/// What a run reports to while it goes on: each picture that was written, and each refusal. Of the
/// refusals it may tell on the standard error, by a line for each, in order; where that takes no
/// more, nothing more is told.
pub trait Reporter {
    /// What was reported, and told of it.
    ghost reported: { Self → Reported };

    /// A picture was written.
    fn count_picture(&mut self)
        ensures { reported self.new ≡ with_picture (reported self.old) };

    /// A refusal has come: the place of a unit among the stream's units, from 0, and its fault. An
    /// error is want of memory to keep it.
    fn refuse<E: Write>(&mut self, unit: u64, fault: Fault, errors: &mut E) -> Result<(), RunFault>
        ensures ok { OnOk result ((reported self.new).report
            ≡ with_refusal (reported self.old).report (unit, fault)) }
        ensures err { IfErr result (λ e. (e ≡ faults.Memory) ×
            ((reported self.new).report ≡ (reported self.old).report)) }
        ensures told { TellsOn (reported self.old) (reported self.new) (E.contents errors.old)
            (E.contents errors.new) };

    /// How many pictures and refusals were reported.
    fn counts(&self) -> Counts
        ensures pictures { result.pictures ≡ (reported self.now).report.pictures }
        ensures refused { result.refused ≡ saturated (length (reported self.now).report.refused) };
}

/// All refusals are kept, and none is told.
impl Reporter for Report {
    ghost reported = { λ r. record { report = r; line = λ _. []; is_told = true } };

    fn count_picture(&mut self) {
        self.pictures = self.pictures.saturating_add(1);
    }

    fn refuse<E: Write>(
        &mut self,
        unit: u64,
        fault: Fault,
        errors: &mut E,
    ) -> Result<(), RunFault> {
        self.refused.push(unit, fault)?;
        Ok(())
    }

    fn counts(&self) -> Counts {
        Counts {
            pictures: self.pictures,
            refused: self.refused.as_slice().len() as u64,
        }
    }
}
