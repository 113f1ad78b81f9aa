//! Units that bring a parameter set (7.3.2), and why one was refused.

ghost use Rattle.std.specs.Prelude.{◌≡◌};

use avc_types::{Fault, History};
use std::marker::Model;

/// Why a parameter set was refused.
#[derive(Clone, Copy)]
pub struct SetFault {
    /// The set's id, where that had been read in range.
    pub id: Option<u8>,
    pub fault: Fault,
}

/// The RBSP of a unit, as only proofs read it: it takes no memory. A contract sees its bytes.
#[derive(Drop)]
pub struct Seen {
    bytes: History<u8>,
}

impl Model for Seen {
    ghost use Rattle.std.specs.Prelude.{ℕ, List};

    ghost Value = { List ℕ };

    ghost view = { λ s. s.bytes.items };
}

impl Seen {
    /// These bytes.
    pub fn new(rbsp: &[u8]) -> Seen
        ensures { result ≡ rbsp.now }
    {
        Seen {
            bytes: History::new().with_all(rbsp),
        }
    }
}

/// A unit that brings a parameter set, by its RBSP.
#[derive(Drop)]
pub enum SetUnit {
    /// A sequence parameter set.
    OfSps(Seen),

    /// A picture parameter set.
    OfPps(Seen),
}
