//! Exit statuses.

ghost use Rattle.std.specs.Prelude.{◌≡◌, ℕ, List, length};
ghost use Rattle.avc_annexb.specs.Units.{saturated};
ghost use Rattle.avc_types.specs.declared.fault.Fault.{Fault as Refused};
ghost use Rattle.avc_console.specs.Status.{answer_status, cut_status, fault_status, refused_status};
ghost use Rattle.avc_console.specs.Status.{status_of};

use crate::fault::RunFault;
use crate::report::Report;

/// How words of the command line that name nothing to do are answered.
#[derive(Clone, Copy)]
pub enum Answer {
    /// The help that they ask for was printed.
    Help,

    /// They are not taken.
    Misuse,
}

/// How a command ended.
#[derive(Clone, Copy)]
pub struct Ending {
    /// The exit status.
    pub status: u8,

    /// Whether the standard error took all that was told.
    pub told: bool,
}

/// The exit status after a fault: 3 after one of reading or writing, or at a picture of another
/// size, 4 after want of memory.
pub fn fault_status(fault: RunFault) -> u8
    ensures { result ≡ fault_status fault }
{
    match fault {
        RunFault::Read | RunFault::Endless | RunFault::Write | RunFault::Size => 3,
        RunFault::Memory => 4,
    }
}

/// The exit status after `decode`: 0 where all of the stream was decoded, 1 where something was
/// refused, and that of the fault where the run ended by one.
pub fn status(run: &Result<Report, RunFault>) -> u8
    ensures { result ≡ status_of run.now }
{
    match run {
        Ok(report) => {
            if report.refused.as_slice().is_empty() {
                0
            } else {
                1
            }
        }
        Err(fault) => fault_status(*fault),
    }
}

/// The exit status after so many refusals, where no fault ended the run: 1 where something was
/// refused.
pub(crate) fn refused_status(refused: u64) -> u8
    ensures { (refusals : List (ℕ × Refused)) → refused ≡ saturated (length refusals) →
        result ≡ refused_status refusals }
{
    if refused == 0 { 0 } else { 1 }
}

/// The exit status after `cut`: 0 where a piece has the number, and else 1.
pub fn cut_status(found: bool) -> u8
    ensures { result ≡ cut_status found }
{
    if found { 0 } else { 1 }
}

/// The exit status after words that name nothing to do: 0 after help, 2 where they are not taken,
/// and that of the fault where the answer could not be given.
pub fn answer_status(answer: Result<Answer, RunFault>) -> u8
    ensures { result ≡ answer_status answer }
{
    match answer {
        Ok(Answer::Help) => 0,
        Ok(Answer::Misuse) => 2,
        Err(fault) => fault_status(fault),
    }
}
