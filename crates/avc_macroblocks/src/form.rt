//! The form for people, in which macroblocks are told.

ghost use Rattle.avc_macroblocks.specs.Lines.{for_people};

use crate::lines::{add_fault_line, add_macroblock_line, add_refusal_line};
use avc_selection::{Derived, MacroblockForm, MacroblockPlace};
use avc_types::{Fault, Mb, OutOfMemory};
use std::alloc::Global;

/// Words and numbers in decimal, with spaces between them; where COEFFICIENTS, with the levels of
/// each block.
#[derive(Clone, Copy)]
pub struct ForPeople<const COEFFICIENTS: bool>;

impl<const COEFFICIENTS: bool> MacroblockForm for ForPeople<COEFFICIENTS> {
    ghost form = { for_people COEFFICIENTS };

    fn add_macroblock(
        &self,
        alloc: Global,
        text: &mut String,
        place: MacroblockPlace,
        mb: &Mb,
        derived: &Derived,
    ) -> Result<(), OutOfMemory> {
        add_macroblock_line(alloc, text, COEFFICIENTS, place, mb, derived)
    }

    fn add_fault(
        &self,
        _alloc: Global,
        text: &mut String,
        place: MacroblockPlace,
        fault: Fault,
    ) -> Result<(), OutOfMemory> {
        add_fault_line(text, place, fault)
    }

    fn add_refusal(
        &self,
        _alloc: Global,
        text: &mut String,
        unit: u64,
        fault: Fault,
    ) -> Result<(), OutOfMemory> {
        add_refusal_line(text, unit, fault)
    }
}
