//! The lines of macroblocks for people.

ghost use Rattle.std.specs.Prelude.{◌≡◌, ◌++◌, OnOk, string_bytes};
ghost use Rattle.avc_types.specs.MacroblockFields.{syntax_of};
ghost use Rattle.avc_tools.specs.Lines.{newline};
ghost use Rattle.avc_elements.specs.Words.{elements_text};
ghost use Rattle.avc_macroblocks.specs.Lines.{coefficients_if, fault_line, fault_text};
ghost use Rattle.avc_macroblocks.specs.Lines.{macroblock_line, place_text, quantiser_text};
ghost use Rattle.avc_macroblocks.specs.Lines.{refusal_line, slice_text, stop_text, type_text};

use avc_elements::{add_coefficients, add_elements, add_type_name, vectors_of};
use avc_neigh::{Motion, NearMode};
use avc_selection::{Derived, MacroblockPlace};
use avc_types::{Fault, Mb, OutOfMemory, Syntax};
use std::alloc::Global;

/// Adds the line of a macroblock at this place.
pub(crate) fn add_macroblock_line(
    alloc: Global,
    text: &mut String,
    has_coefficients: bool,
    place: MacroblockPlace,
    mb: &Mb,
    derived: &Derived,
) -> Result<(), OutOfMemory>
    ensures { OnOk result (string_bytes text.new ≡ string_bytes text.old
        ++ macroblock_line has_coefficients place mb.now derived.now) }
{
    let vectors = vectors_of(alloc, &mb.syntax, &derived.motion)?;
    add_line(
        text,
        has_coefficients,
        place,
        mb,
        &derived.modes,
        vectors.as_slice(),
    )
}

// Adds the line of a macroblock whose vectors these are.
fn add_line(
    text: &mut String,
    has_coefficients: bool,
    place: MacroblockPlace,
    mb: &Mb,
    derived_modes: &[NearMode],
    vectors: &[Motion],
) -> Result<(), OutOfMemory>
    ensures { OnOk result (string_bytes text.new ≡ string_bytes text.old
        ++ (place_text place ++ type_text mb.now.syntax ++ quantiser_text mb.now.qp
        ++ elements_text mb.now.syntax derived_modes.now vectors.now
        ++ coefficients_if has_coefficients mb.now.syntax ++ newline)) }
{
    add_place(text, place)?;
    add_type(text, &mb.syntax)?;
    add_quantiser(text, mb.qp)?;
    add_elements(text, &mb.syntax, derived_modes, vectors)?;
    add_coefficients_if(text, has_coefficients, &mb.syntax)?;
    end_line(text)?;
    Ok(())
}

fn add_place(text: &mut String, place: MacroblockPlace) -> Result<(), OutOfMemory>
    ensures { OnOk result (string_bytes text.new ≡ string_bytes text.old ++ place_text place) }
{
    let unit = place.unit;
    let slice = place.slice;
    let address = place.address;
    write!(text, "{unit} slice {slice} mb {address}")?;
    Ok(())
}

fn add_type(text: &mut String, syntax: &Syntax) -> Result<(), OutOfMemory>
    ensures { OnOk result (string_bytes text.new ≡ string_bytes text.old
        ++ type_text (syntax_of syntax.now)) }
{
    text.push_str(" ")?;
    add_type_name(text, syntax)?;
    Ok(())
}

fn add_quantiser(text: &mut String, qp: u8) -> Result<(), OutOfMemory>
    ensures { OnOk result (string_bytes text.new ≡ string_bytes text.old ++ quantiser_text qp) }
{
    write!(text, " qp {qp}")?;
    Ok(())
}

fn add_coefficients_if(
    text: &mut String,
    has_coefficients: bool,
    syntax: &Syntax,
) -> Result<(), OutOfMemory>
    ensures { OnOk result (string_bytes text.new ≡ string_bytes text.old
        ++ coefficients_if has_coefficients (syntax_of syntax.now)) }
{
    if has_coefficients {
        add_coefficients(text, syntax)
    } else {
        Ok(())
    }
}

fn end_line(text: &mut String) -> Result<(), OutOfMemory>
    ensures { OnOk result (string_bytes text.new ≡ string_bytes text.old ++ newline) }
{
    text.push_str("\n")?;
    Ok(())
}

/// Adds the line of a fault in a slice, at the place where its next macroblock would stand.
pub(crate) fn add_fault_line(
    text: &mut String,
    place: MacroblockPlace,
    fault: Fault,
) -> Result<(), OutOfMemory>
    ensures { OnOk result (string_bytes text.new ≡ string_bytes text.old
        ++ fault_line place fault) }
{
    add_slice(text, place)?;
    add_fault(text, fault)?;
    add_stop(text, place)?;
    end_line(text)?;
    Ok(())
}

fn add_slice(text: &mut String, place: MacroblockPlace) -> Result<(), OutOfMemory>
    ensures { OnOk result (string_bytes text.new ≡ string_bytes text.old ++ slice_text place) }
{
    let unit = place.unit;
    let slice = place.slice;
    write!(text, "{unit} slice {slice}")?;
    Ok(())
}

fn add_fault(text: &mut String, fault: Fault) -> Result<(), OutOfMemory>
    ensures { OnOk result (string_bytes text.new ≡ string_bytes text.old ++ fault_text fault) }
{
    let number = fault.number();
    let name = fault.name();
    write!(text, " fault {number} {name}")?;
    Ok(())
}

fn add_stop(text: &mut String, place: MacroblockPlace) -> Result<(), OutOfMemory>
    ensures { OnOk result (string_bytes text.new ≡ string_bytes text.old ++ stop_text place) }
{
    let address = place.address;
    write!(text, " at macroblock {address}")?;
    Ok(())
}

/// Adds the line of a unit that should bring a slice, and is refused.
pub(crate) fn add_refusal_line(
    text: &mut String,
    unit: u64,
    fault: Fault,
) -> Result<(), OutOfMemory>
    ensures { OnOk result (string_bytes text.new ≡ string_bytes text.old
        ++ refusal_line unit fault) }
{
    let number = fault.number();
    let name = fault.name();
    writeln!(text, "{unit} refused {number} {name}")?;
    Ok(())
}
