//! What a run came to, with all its refusals.

ghost use Rattle.std.specs.Prelude.{◌≡◌, ◌∷◌, ◌++◌, [], OnErr, OnOk};
ghost use Rattle.avc_console.specs.Reporting.{no_report};

use avc_types::{Fault, OutOfMemory};
use std::alloc::Global;
use std::marker::Model;

/// The refusals of a stream in order: each unit, by its place among the stream's units from 0, and
/// its fault. A contract sees their list.
#[derive(Drop)]
pub struct Refusals {
    refusals: Vec<(u64, Fault)>,
}

impl Model for Refusals {
    ghost use Rattle.std.specs.Prelude.{List, ℕ};
    ghost use Rattle.avc_types.specs.declared.fault.Fault.{Fault};

    ghost Value = { List (ℕ × Fault) };

    ghost view = { λ r. r.refusals.items };
}

impl Refusals {
    pub fn new(alloc: Global) -> Refusals
        ensures { result ≡ [] }
    {
        Refusals {
            refusals: Vec::new(alloc),
        }
    }

    pub fn push(&mut self, unit: u64, fault: Fault) -> Result<(), OutOfMemory>
        ensures ok { OnOk result (self.new ≡ self.old ++ (unit, fault) ∷ []) }
        ensures err { OnErr result (self.new ≡ self.old) }
    {
        self.refusals.push((unit, fault))?;
        Ok(())
    }

    pub fn as_slice(&self) -> &[(u64, Fault)]
        ensures { result.now ≡ self.now }
    {
        self.refusals.as_slice()
    }
}

/// What a run of `decode` came to.
#[derive(Drop)]
pub struct Report {
    /// How many pictures were written; the greatest number, once there.
    pub pictures: u64,

    pub refused: Refusals,
}

impl Report {
    /// Of a run that has not begun.
    pub fn new(alloc: Global) -> Report
        ensures { result ≡ no_report }
    {
        Report {
            pictures: 0,
            refused: Refusals::new(alloc),
        }
    }
}
