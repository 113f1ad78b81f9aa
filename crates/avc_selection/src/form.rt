//! Forms in which macroblocks are told.

ghost use Rattle.std.specs.Prelude.{◌≡◌, ◌++◌, OnOk, string_bytes};
ghost use Rattle.avc_selection.specs.Forms.{Form};

use crate::derived::Derived;
use crate::place::MacroblockPlace;
use avc_types::{Fault, Mb, OutOfMemory};
use std::alloc::Global;

/// A form in which macroblocks are told, a line for each.
pub trait MacroblockForm {
    /// What its lines are.
    ghost form: { Form };

    /// Adds the line of a macroblock at this place, for which this follows from its neighbours.
    fn add_macroblock(
        &self,
        alloc: Global,
        text: &mut String,
        place: MacroblockPlace,
        mb: &Mb,
        derived: &Derived,
    ) -> Result<(), OutOfMemory>
        ensures { OnOk result (string_bytes text.new ≡ string_bytes text.old
            ++ form.of_macroblock place mb.now derived.now) };

    /// Adds the line of a fault in a slice, at the place where its next macroblock would stand.
    fn add_fault(
        &self,
        alloc: Global,
        text: &mut String,
        place: MacroblockPlace,
        fault: Fault,
    ) -> Result<(), OutOfMemory>
        ensures { OnOk result (string_bytes text.new ≡ string_bytes text.old
            ++ form.of_fault place fault) };

    /// Adds the line of a unit that should bring a slice, and is refused.
    fn add_refusal(
        &self,
        alloc: Global,
        text: &mut String,
        unit: u64,
        fault: Fault,
    ) -> Result<(), OutOfMemory>
        ensures { OnOk result (string_bytes text.new ≡ string_bytes text.old
            ++ form.of_refusal unit fault) };
}
