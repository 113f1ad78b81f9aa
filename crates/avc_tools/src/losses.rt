//! What a stream loses behind refusals.

ghost use Rattle.std.specs.Prelude.{◌≡◌, ◌+◌, true, false, ◌&&◌, not, if◌then◌else◌, IfOk, OnErr};
ghost use Rattle.std.specs.Prelude.{OnOk, Some};
ghost use Rattle.avc_annexb.specs.SplitterState.{after_feed, after_finish, next_unit_of};
ghost use Rattle.avc_annexb.specs.Units.{saturated};
ghost use Rattle.avc_tools.specs.Losses.{behind, behind_loss, is_passed, new_followed, seen};
ghost use Rattle.avc_units.specs.Grouping.{is_start};

use crate::writing::is_slice;
use avc_annexb::{Splitter, Unit};
use avc_types::OutOfMemory;
use avc_units::is_start;
use std::alloc::Global;
use std::marker::Model;

/// A unit that was taken.
#[derive(Clone, Copy)]
pub struct SeenUnit {
    /// Its place among the stream's units, from 0.
    pub index: u64,

    /// Whether it is a slice (types 1 to 5, Table 7-1).
    pub is_slice: bool,
}

/// Follows a byte stream (Annex B), of whose units none has more than `MAX` bytes, beside its
/// decoding: whether that waits for a unit to start with, and how many slices it passed over. Units
/// are taken one after another, and whoever takes them says which are refused with a picture. After
/// want of memory it is of no more use.
#[derive(Drop)]
pub struct Losses<const MAX: usize> {
    alloc: Global,
    splitter: Splitter<MAX>,
    waits: bool,
    passed: u64,
}

impl<const MAX: usize> Model for Losses<MAX> {
    ghost use Rattle.avc_tools.specs.Losses.{Followed};

    ghost Value = { Followed };

    ghost view = { λ l. record { units = l.splitter; waits = l.waits; passed = l.passed } };
}

impl<const MAX: usize> Losses<MAX> {
    /// At the start of a stream.
    pub fn new(alloc: Global) -> Losses<MAX>
        ensures { result ≡ new_followed }
    {
        Losses {
            alloc,
            splitter: Splitter::new(alloc),
            waits: true,
            passed: 0,
        }
    }

    /// Takes the next bytes of the stream.
    pub fn feed(&mut self, piece: &[u8]) -> Result<(), OutOfMemory>
        ensures { OnOk result (self.new
            ≡ record self.old { units = after_feed self.old.units piece.now }) }
    {
        self.splitter.feed(piece)
    }

    /// Takes the end of the stream.
    pub fn finish(&mut self) -> Result<(), OutOfMemory>
        ensures { OnOk result (self.new ≡ record self.old { units = after_finish self.old.units }) }
    {
        self.splitter.finish()
    }

    /// Takes the next unit whose end has been seen, if there is one.
    pub fn next_unit(&mut self) -> Result<Option<SeenUnit>, OutOfMemory>
        ensures unit { IfOk result (λ unit. unit ≡ seen (next_unit_of MAX self.old.units)) }
        ensures state { OnOk result (self.new ≡ behind self.old (next_unit_of MAX self.old.units)) }
    {
        match self.splitter.next_unit() {
            Some(unit) => {
                let starts = is_start(self.alloc, &unit)?;
                let passed = self.waits & is_passed(&unit, starts);
                self.passed = passed_behind(self.passed, passed);
                self.waits = self.waits & !starts;
                Ok(Some(seen(&unit)))
            }
            None => Ok(None),
        }
    }

    /// The unit that was taken last is refused with a picture.
    pub fn lose(&mut self)
        ensures { self.new ≡ behind_loss self.old }
    {
        self.waits = true;
    }

    /// How many slices were passed over; the greatest number, once there.
    pub fn passed(&self) -> u64
        ensures { result ≡ self.now.passed }
    {
        self.passed
    }
}

// What is told of a unit.
fn seen(unit: &Unit) -> SeenUnit
    ensures { Some result ≡ seen (Some unit.now) }
{
    SeenUnit {
        index: unit.index,
        is_slice: is_slice(unit),
    }
}

// How many slices were passed over, behind a unit that is one of them or not.
fn passed_behind(before: u64, passed: bool) -> u64
    ensures { result ≡ (if passed then saturated (before + 1) else before) }
{
    if passed {
        before.saturating_add(1)
    } else {
        before
    }
}

// Whether a unit is passed over while decoding waits, by whether decoding can start with it.
fn is_passed(unit: &Unit, starts: bool) -> bool
    requires { starts ≡ is_start unit.now }
    ensures { result ≡ is_passed unit.now }
{
    is_slice(unit) && unit.header < 128 && !starts
}
