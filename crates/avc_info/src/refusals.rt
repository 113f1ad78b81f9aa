//! The units of a stream that are refused, by kinds: one for each fault.

ghost use Rattle.std.specs.Prelude.{◌≡◌, ◌≤◌, [], ◌∷◌, ◌++◌, length, position};
ghost use Rattle.avc_info.specs.Refusals.{is_fault, kind_of, kinds_of, most_kinds, with_refusal};

use arrayvec::ArrayVec;
use avc_types::{Fault, History};
use std::marker::Model;

/// Above the number of each fault, so that each may have a kind.
const MOST_KINDS: usize = 47;

/// A unit that is refused.
#[derive(Clone, Copy)]
pub struct Refusal {
    /// Its place among the stream's units, from 0.
    pub unit: u64,

    pub fault: Fault,
}

/// The units that are refused with one fault.
#[derive(Clone, Copy)]
pub struct RefusalKind {
    pub fault: Fault,

    /// How many there are. It stays at the greatest number, once there.
    pub count: u64,

    /// The place of the first of them among the stream's units, from 0.
    pub first_unit: u64,
}

// What the unused places of a list hold.
impl Default for RefusalKind {
    fn default() -> RefusalKind {
        RefusalKind {
            fault: Fault::NotYet,
            count: 0,
            first_unit: 0,
        }
    }
}

/// The units that are refused. A contract sees all of them, in order; kept are their kinds alone,
/// which are no more than there are faults.
#[derive(Drop)]
pub struct Refusals {
    kinds: ArrayVec<RefusalKind, MOST_KINDS>,
    units: History<Refusal>,
}

impl Model for Refusals {
    ghost use Rattle.std.specs.Prelude.{◌≡◌, List};
    ghost use Rattle.avc_info.specs.Refusals.{kinds_of};
    ghost use Rattle.avc_info.specs.declared.refusals.Refusal.{Refusal};

    ghost Value = { List Refusal };

    ghost view = { λ r. r.units.items };

    ghost invariant = { λ r. r.kinds.items ≡ kinds_of r.units.items };
}

impl Refusals {
    /// None yet.
    pub fn new() -> Refusals
        ensures { result ≡ [] }
    {
        Refusals {
            kinds: ArrayVec::new(),
            units: History::new(),
        }
    }

    /// Their kinds, each once, in the order in which they came first.
    pub fn kinds(&self) -> &[RefusalKind]
        ensures { result.now ≡ kinds_of self.now }
    {
        self.kinds.as_slice()
    }

    /// Takes one more.
    pub(crate) fn add(&mut self, refusal: Refusal)
        ensures { self.new ≡ self.old ++ refusal ∷ [] }
    {
        count_in(&mut self.kinds, refusal);
        self.units = self.units.with(&refusal);
    }
}

// Its kind counts it, or it begins one.
fn count_in(kinds: &mut ArrayVec<RefusalKind, MOST_KINDS>, refusal: Refusal)
    requires { length (with_refusal refusal kinds.old.items) ≤ most_kinds }
    ensures { kinds.new.items ≡ with_refusal refusal kinds.old.items }
{
    match place_of(kinds.as_slice(), refusal.fault) {
        Some(place) => kinds[place].count = kinds[place].count.saturating_add(1),
        None => kinds.push(first_of_kind(refusal)),
    }
}

fn first_of_kind(refusal: Refusal) -> RefusalKind
    ensures { result ≡ kind_of refusal (refusal ∷ []) }
{
    RefusalKind {
        fault: refusal.fault,
        count: 1,
        first_unit: refusal.unit,
    }
}

fn place_of(kinds: &[RefusalKind], fault: Fault) -> Option<usize>
    ensures { result ≡ position (λ k. is_fault fault k.fault) kinds.now }
{
    kinds
        .iter()
        .position(|kind| kind.fault.number() == fault.number())
}
