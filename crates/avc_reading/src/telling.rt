//! How macroblocks are told, and which.

ghost use Rattle.std.specs.Prelude.{◌≡◌, ◌<◌, ◌^◌, ◌++◌, OnOk, string_bytes};
ghost use Rattle.avc_reading.specs.Asked.{form_in};
ghost use Rattle.avc_reading.specs.Listing.{refusal_lines};
ghost use Rattle.avc_reading.specs.Near.{is_near, is_told_near};
ghost use Rattle.avc_reading.specs.Reading.{asked_in};

use avc_selection::{Derived, MacroblockForm, MacroblockPlace, Selection};
use avc_types::{Fault, Mb, OutOfMemory};
use std::alloc::Global;

/// How macroblocks are told, and which.
#[derive(Drop)]
pub(crate) struct Telling<F> {
    pub alloc: Global,
    pub form: F,
    pub selection: Selection,
}

/// Whether the macroblock at `other` is told where that at `address` is, in a picture of this width
/// in macroblocks.
fn is_told_near(width: usize, address: u32, other: u64) -> bool
    ensures { result ≡ is_told_near width address other }
{
    if width == 0 {
        return false;
    }
    is_near(width as u128, u128::from(address), u128::from(other))
}

/// Whether an address is near another, in a picture that has columns.
fn is_near(width: u128, address: u128, other: u128) -> bool
    requires wide { 0 < width }
    requires narrow { width < 2 ^ 64 }
    requires low { address < 2 ^ 32 }
    requires bounded { other < 2 ^ 64 }
    ensures { result ≡ is_near width address other }
{
    let has_left = address % width > 0;
    let has_right = (address + 1) % width > 0;
    other == address
        || has_left && other + 1 == address
        || other + width == address
        || has_right && other + width == address + 1
        || has_left && other + width + 1 == address
}

impl<F: MacroblockForm> Telling<F> {
    /// Adds the line of a macroblock at this place of a picture of this width in macroblocks, where
    /// it is told.
    pub(crate) fn add_macroblock(
        &self,
        text: &mut String,
        width: usize,
        place: MacroblockPlace,
        mb: &Mb,
        derived: &Derived,
    ) -> Result<(), OutOfMemory>
        ensures { OnOk result (string_bytes text.new ≡ string_bytes text.old
            ++ (form_in (asked_in F.form self.now.selection) width).of_macroblock place mb.now
            derived.now) }
    {
        match self.selection {
            Selection::Whole | Selection::OfPicture(_) => {
                self.form
                    .add_macroblock(self.alloc, text, place, mb, derived)
            }
            Selection::Near(macroblock) => {
                if is_told_near(width, macroblock.address, place.address) {
                    self.form
                        .add_macroblock(self.alloc, text, place, mb, derived)
                } else {
                    Ok(())
                }
            }
        }
    }

    /// Adds the line of a fault in a slice, at the place where its next macroblock would stand,
    /// where it is told.
    pub(crate) fn add_fault(
        &self,
        text: &mut String,
        width: usize,
        place: MacroblockPlace,
        fault: Fault,
    ) -> Result<(), OutOfMemory>
        ensures { OnOk result (string_bytes text.new ≡ string_bytes text.old
            ++ (form_in (asked_in F.form self.now.selection) width).of_fault place fault) }
    {
        match self.selection {
            Selection::Whole | Selection::OfPicture(_) => {
                self.form.add_fault(self.alloc, text, place, fault)
            }
            Selection::Near(_) => Ok(()),
        }
    }

    /// Adds the line of a unit that should bring a slice, and is refused, where it is told.
    pub(crate) fn add_refusal(
        &self,
        text: &mut String,
        unit: u64,
        fault: Fault,
    ) -> Result<(), OutOfMemory>
        ensures { OnOk result (string_bytes text.new ≡ string_bytes text.old
            ++ refusal_lines (asked_in F.form self.now.selection) unit fault) }
    {
        match self.selection {
            Selection::Whole => self.form.add_refusal(self.alloc, text, unit, fault),
            Selection::OfPicture(_) | Selection::Near(_) => Ok(()),
        }
    }
}
