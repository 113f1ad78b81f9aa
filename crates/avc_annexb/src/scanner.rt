//! The search for start codes, and for the zeros that end a unit (B.1, B.2).

ghost use Rattle.std.specs.Prelude.{◌≤◌};

use crate::open_unit::{OpenUnit, append_any, begun_any};
use crate::ready::Ready;
use crate::runs::{run_length, zeros_at_start};
use avc_types::OutOfMemory;
use std::alloc::Global;
use std::mem;

/// Goes once through a stream and looks for where units begin and end.
#[derive(Drop)]
pub struct Scanner<const MAX: usize> {
    alloc: Global,
    pub ready: Ready<MAX>,
    unit: Option<OpenUnit<MAX>>,
    // the last bytes that are zeros, at most two, which are not yet in the unit
    zeros: u8,
    position: u64,
    // the bytes of a unit that is over, in whose place those of another will stand; none: no room
    over: Vec<u8>,
    ghost few: { zeros ≤ 2 },
}

impl<const MAX: usize> Scanner<MAX> {
    ghost use Rattle.std.specs.Prelude.{◌≡◌, ◌≢◌, ◌<◌, ◌≤◌, ℕ, true, [], ◌∷◌, ◌++◌, List, IfOk};
    ghost use Rattle.std.specs.Prelude.{OnOk, length, slice_index, replicate};
    ghost use Rattle.avc_annexb.specs.Scanning.{HasScanned, HasLoneZeros, HasOneMore};
    ghost use Rattle.avc_annexb.specs.Scanning.{HasOneMoreAtMost, HasTaken, AreReady};
    ghost use Rattle.avc_annexb.specs.Units.{placed_units, units_begun};

    pub fn new(alloc: Global) -> Self
        ensures scans { HasScanned MAX result [] }
        ensures given { result.ready.given.items ≡ [] }
    {
        Scanner {
            alloc,
            ready: Ready::new(alloc),
            unit: None,
            zeros: 0,
            position: 0,
            over: Vec::new(alloc),
        }
    }

    /// Bytes of a unit are over: those of another will stand in their place.
    pub fn take_back(&mut self, body: Vec<u8>)
        ensures scans { (bytes : List ℕ) → HasScanned MAX self.old bytes →
            HasScanned MAX self.new bytes }
        ensures ready { self.new.ready ≡ self.old.ready }
    {
        self.over = body;
    }

    /// Takes the next bytes of the stream. After an `Err` the scanner is of no use.
    pub fn take_in(&mut self, piece: &[u8]) -> Result<(), OutOfMemory>
        ensures ok { OnOk result ((bytes : List ℕ) → HasScanned MAX self.old bytes →
            HasScanned MAX self.new (bytes ++ piece.now)) }
        ensures given { self.new.ready.given.items ≡ self.old.ready.given.items }
    {
        let mut place = 0;
        while place < piece.len() {
            place += self.take_unit(&piece[place..])?;
        }
        Ok(())
    }

    /// Takes the next bytes of the stream up to where a unit has ended, or all where none ends.
    /// Answers how many. After an `Err` the scanner is of no use.
    pub fn take_unit(&mut self, piece: &[u8]) -> Result<usize, OutOfMemory>
        ensures ok { IfOk result (λ used. HasTaken MAX self.old piece.now used self.new) }
        ensures ended { IfOk result (λ used. used < length piece.now →
            HasOneMore self.old.ready self.new.ready) }
        ensures given { self.new.ready.given.items ≡ self.old.ready.given.items }
    {
        let waiting = self.ready.len();
        let mut place = 0;
        while place < piece.len() && self.ready.len() == waiting {
            place += self.step(&piece[place..])?;
        }
        Ok(place)
    }

    // Takes the zeros that stand here, or the 01 of a start code, or bytes without boundary.
    // Answers how many.
    fn step(&mut self, left: &[u8]) -> Result<usize, OutOfMemory>
        requires { 0 < length left.now }
        ensures ok { IfOk result (λ used. HasTaken MAX self.old left.now used self.new) }
        ensures given { self.new.ready.given.items ≡ self.old.ready.given.items }
    {
        let used = match left[0] {
            0 => {
                let count = zeros_at_start(left);
                self.zeros(count)?;
                count
            }
            1 if self.zeros == 2 => {
                self.start_code()?;
                1
            }
            _ => {
                let len = run_length(left);
                self.pass(&left[..len])?;
                len
            }
        };
        Ok(used)
    }

    /// Takes the end of the stream.
    pub fn end(&mut self) -> Result<(), OutOfMemory>
        ensures ok { OnOk result ((bytes : List ℕ) → HasScanned MAX self.old bytes →
            AreReady MAX self.new.ready (placed_units 0 true bytes)) }
        ensures given { self.new.ready.given.items ≡ self.old.ready.given.items }
    {
        // the zeros that are not yet in the unit stay out of it
        self.ready.add_any(self.unit.take())
    }

    /// How many units have begun, with the one whose end has not been seen, if it has bytes.
    pub fn units_begun(&self) -> u64
        ensures { (bytes : List ℕ) → HasScanned MAX self.now bytes →
            result ≡ units_begun MAX bytes }
    {
        self.ready.count.saturating_add(begun_any(&self.unit))
    }

    // bytes of a unit, or between units
    fn pass(&mut self, run: &[u8]) -> Result<(), OutOfMemory>
        requires lone { HasLoneZeros run.now }
        requires no_zero { 1 ≤ self.old.zeros → slice_index run.now 0 ≢ 0 }
        requires no_start { 2 ≤ self.old.zeros → slice_index run.now 0 ≢ 1 }
        ensures ok { OnOk result ((bytes : List ℕ) → HasScanned MAX self.old bytes →
            HasScanned MAX self.new (bytes ++ run.now)) }
        ensures ready { self.new.ready ≡ self.old.ready }
    {
        if run.is_empty() {
            return Ok(());
        }
        let zeros = self.zeros;
        self.zeros = 0;
        self.position = self.position.saturating_add(run.len() as u64);
        append_any(&mut self.unit, zeros, run)
    }

    // zeros, of which a third in a row ends a unit
    fn zeros(&mut self, count: usize) -> Result<(), OutOfMemory>
        ensures ok { OnOk result ((bytes : List ℕ) → HasScanned MAX self.old bytes →
            HasScanned MAX self.new (bytes ++ replicate count 0)) }
        ensures few { OnOk result (HasOneMoreAtMost self.old.ready self.new.ready) }
        ensures given { self.new.ready.given.items ≡ self.old.ready.given.items }
    {
        self.position = self.position.saturating_add(count as u64);
        if count <= (2 - self.zeros) as usize {
            self.zeros += count as u8;
            return Ok(());
        }
        self.zeros = 2;
        self.ready.add_any(self.unit.take())
    }

    // the 01 of a start code, which ends a unit and begins one
    fn start_code(&mut self) -> Result<(), OutOfMemory>
        requires { self.old.zeros ≡ 2 }
        ensures ok { OnOk result ((bytes : List ℕ) → HasScanned MAX self.old bytes →
            HasScanned MAX self.new (bytes ++ 1 ∷ [])) }
        ensures few { OnOk result (HasOneMoreAtMost self.old.ready self.new.ready) }
        ensures given { self.new.ready.given.items ≡ self.old.ready.given.items }
    {
        self.position = self.position.saturating_add(1);
        self.zeros = 0;
        let over = mem::replace(&mut self.over, Vec::new(self.alloc));
        let ended = self.unit.replace(OpenUnit::new(self.position, over));
        self.ready.add_any(ended)
    }
}
