//! The units that are whole and wait to be taken.

ghost use Rattle.std.specs.Prelude.{◌≡◌, [], ◌++◌, List, OnOk, Option, slice_get, length};
ghost use Rattle.std.specs.Option.{option_to_list};
ghost use Rattle.avc_annexb.specs.Scanning.{AddsUnit, AddsUnitIfAny, AreReady, HasOneMoreAtMost};
ghost use Rattle.avc_annexb.specs.Units.{PlacedUnit, numbered};

use crate::open_unit::OpenUnit;
use crate::unit::Unit;
use avc_types::{History, OutOfMemory};
use std::alloc::Global;
use std::collections::VecDeque;

/// The units that are whole and were not taken.
#[derive(Drop)]
pub struct Ready<const MAX: usize> {
    units: VecDeque<Unit>,
    // of all units so far
    pub count: u64,
    // those that were taken
    given: History<Unit>,
}

impl<const MAX: usize> Ready<MAX> {
    pub fn new(alloc: Global) -> Self
        ensures holds { AreReady MAX result [] }
        ensures given { result.given.items ≡ [] }
    {
        Ready {
            units: VecDeque::new(alloc),
            count: 0,
            given: History::new(),
        }
    }

    /// How many there are.
    pub fn len(&self) -> usize
        ensures { result ≡ length self.now.units.items }
    {
        self.units.len()
    }

    /// Adds a unit at the end, if it has bytes.
    #[inline(always)]
    pub fn add(&mut self, unit: OpenUnit<MAX>) -> Result<(), OutOfMemory>
        ensures holds { OnOk result (AddsUnit self.old self.new unit.entry) }
        ensures few { OnOk result (HasOneMoreAtMost self.old self.new) }
        ensures given { self.new.given.items ≡ self.old.given.items }
    {
        if unit.length == 0 {
            return Ok(());
        }
        self.units.push_back(unit.into_unit(self.count))?;
        self.count = self.count.saturating_add(1);
        Ok(())
    }

    /// Adds a unit at the end, if there is one and it has bytes.
    #[inline(always)]
    pub fn add_any(&mut self, unit: Option<OpenUnit<MAX>>) -> Result<(), OutOfMemory>
        ensures holds { OnOk result (AddsUnitIfAny self.old self.new unit.entry) }
        ensures few { OnOk result (HasOneMoreAtMost self.old self.new) }
        ensures given { self.new.given.items ≡ self.old.given.items }
    {
        match unit {
            Some(unit) => self.add(unit),
            None => Ok(()),
        }
    }

    /// Takes the first unit.
    pub fn next(&mut self) -> Option<Unit>
        ensures unit { (done : List PlacedUnit) → AreReady MAX self.old done →
            result ≡ slice_get (numbered MAX 0 done) (length self.old.given.items) }
        ensures holds { (done : List PlacedUnit) → AreReady MAX self.old done →
            AreReady MAX self.new done }
        ensures given { self.new.given.items ≡ self.old.given.items ++ option_to_list result }
    {
        let unit = self.units.pop_front()?;
        self.given = self.given.with(&unit);
        Some(unit)
    }
}
