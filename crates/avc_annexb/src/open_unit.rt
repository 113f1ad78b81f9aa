//! The unit whose end has not been seen, with its bytes so far.

ghost use Rattle.std.specs.Prelude.{◌≡◌, ◌<◌, ◌≤◌, ℕ, [], ◌∷◌, ◌++◌, Option, Some, OnOk, length};
ghost use Rattle.std.specs.Prelude.{replicate};
ghost use Rattle.avc_annexb.specs.Scanning.{AddsBytes, AddsBytesIfAny, IsOpenUnit, IsOpenUnitIfAny};
ghost use Rattle.avc_annexb.specs.Scanning.{closed_unit};
ghost use Rattle.avc_annexb.specs.Units.{PlacedUnit, saturated, unit_of};

use crate::unit::Unit;
use avc_types::{Bytes, OutOfMemory};

/// A unit whose end has not been seen.
#[derive(Drop)]
pub struct OpenUnit<const MAX: usize> {
    offset: u64,
    pub length: u64,
    header: u8,
    // none once the unit is too long
    body: Option<Vec<u8>>,
}

impl<const MAX: usize> OpenUnit<MAX> {
    /// A unit without bytes yet. They will stand in the place of others that are over.
    pub fn new(offset: u64, over: Vec<u8>) -> Self
        ensures { (place : ℕ) → offset ≡ saturated place →
            IsOpenUnit MAX result (record { offset = place; bytes = [] }) }
    {
        let mut body = over;
        body.clear();
        OpenUnit {
            offset,
            length: 0,
            header: 0,
            body: Some(body),
        }
    }

    /// Adds bytes. After an `Err` the unit is of no use.
    pub fn append(&mut self, bytes: &[u8]) -> Result<(), OutOfMemory>
        ensures { OnOk result (AddsBytes self.old self.new bytes.now) }
    {
        let [first, others @ ..] = bytes else {
            return Ok(());
        };
        if self.length > 0 {
            return self.extend(bytes);
        }
        self.begin(*first);
        if others.is_empty() {
            return Ok(());
        }
        self.extend(others)
    }

    // adds the first byte
    fn begin(&mut self, header: u8)
        requires { self.old.length ≡ 0 }
        ensures keeps { AddsBytes self.old self.new (header ∷ []) }
        ensures begun { 0 < self.new.length }
    {
        if MAX == 0 {
            self.body = None;
        }
        self.header = header;
        self.length = 1;
    }

    // adds bytes after the first
    fn extend(&mut self, bytes: &[u8]) -> Result<(), OutOfMemory>
        requires { 0 < self.old.length }
        ensures { OnOk result (AddsBytes self.old self.new bytes.now) }
    {
        let added = bytes.len() as u64;
        if added > (MAX as u64).saturating_sub(self.length) {
            self.body = None;
        } else if let Some(body) = &mut self.body {
            body.extend_from_slice(bytes)?;
        }
        self.length = self.length.saturating_add(added);
        Ok(())
    }

    /// Adds some zeros, at most two, and then bytes. After an `Err` the unit is of no use.
    pub fn append_after(&mut self, zeros: u8, bytes: &[u8]) -> Result<(), OutOfMemory>
        requires { zeros ≤ 2 }
        ensures { OnOk result (AddsBytes self.old self.new (replicate zeros 0 ++ bytes.now)) }
    {
        if zeros == 0 {
            return self.append(bytes);
        }
        self.append(some_zeros(zeros))?;
        self.append(bytes)
    }

    /// One, if it has bytes, and else none.
    fn begun(&self) -> u64
        ensures { (placed : PlacedUnit) → IsOpenUnit MAX self.now placed →
            result ≡ length (closed_unit (Some placed)) }
    {
        u64::from(self.length > 0)
    }

    /// The whole unit, with its place among the units.
    pub fn into_unit(self, index: u64) -> Unit
        ensures { (unit : PlacedUnit) (place : ℕ) → IsOpenUnit MAX self.entry unit →
            index ≡ saturated place → result ≡ unit_of MAX place unit }
    {
        Unit {
            index,
            offset: self.offset,
            length: self.length,
            header: self.header,
            body: self.body.map(Bytes::from_vec),
        }
    }
}

fn some_zeros(count: u8) -> &'static [u8]
    requires { count ≤ 2 }
    ensures { result.now ≡ replicate count 0 }
{
    match count {
        0 => &[],
        1 => &[0],
        _ => &[0, 0],
    }
}

/// Adds some zeros and then bytes, if there is a unit.
pub fn append_any<const MAX: usize>(
    unit: &mut Option<OpenUnit<MAX>>,
    zeros: u8,
    bytes: &[u8],
) -> Result<(), OutOfMemory>
    requires { zeros ≤ 2 }
    ensures { OnOk result (AddsBytesIfAny unit.old unit.new (replicate zeros 0 ++ bytes.now)) }
{
    match unit {
        Some(unit) => unit.append_after(zeros, bytes),
        None => Ok(()),
    }
}

/// How many units the end of the stream would make of it: one, if there is one and it has bytes.
pub fn begun_any<const MAX: usize>(unit: &Option<OpenUnit<MAX>>) -> u64
    ensures { (placed : Option PlacedUnit) → IsOpenUnitIfAny MAX unit.now placed →
        result ≡ length (closed_unit placed) }
{
    match unit {
        Some(unit) => unit.begun(),
        None => 0,
    }
}
