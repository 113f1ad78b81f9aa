//! The line that says where a refused unit stands, and which value is refused.

ghost use Rattle.std.specs.Prelude.{◌≡◌, ◌++◌, IfOk, OnOk, string_bytes};
ghost use Rattle.avc_shell.specs.PlaceLines.{level_text, name_text, named_text, picture_text};
ghost use Rattle.avc_shell.specs.PlaceLines.{place_line, place_text, profile_text, side_text};
ghost use Rattle.avc_shell.specs.PlaceLines.{start_text, value_text};

use crate::unit_place::UnitPlace;
use avc_types::Fault;
use std::alloc::{AllocError, Global};

/// The line that says where a unit stands, and where its profile or level is refused, which it is.
/// Nothing where it is not known where the unit stands.
pub fn place_text(
    alloc: Global,
    place: Option<UnitPlace>,
    fault: Fault,
) -> Result<String, AllocError>
    ensures { IfOk result (λ text. string_bytes text ≡ place_text fault place) }
{
    match place {
        Some(place) => place_line(alloc, place, fault),
        None => Ok(String::new(alloc)),
    }
}

// The line of a unit that stands here.
fn place_line(alloc: Global, place: UnitPlace, fault: Fault) -> Result<String, AllocError>
    ensures { IfOk result (λ line. string_bytes line ≡ place_line fault place) }
{
    let mut line = String::from_str(alloc, "unit ")?;
    add_place(&mut line, place)?;
    add_value(&mut line, place, fault)?;
    line.push_str("\n")?;
    Ok(line)
}

// Where the unit stands.
fn add_place(line: &mut String, place: UnitPlace) -> Result<(), AllocError>
    ensures { OnOk result (string_bytes line.new ≡ string_bytes line.old
        ++ (start_text place.unit place.first_byte ++ (side_text place.is_in_picture ++ picture_text place.picture))) }
{
    add_start(line, place.unit, place.first_byte)?;
    line.push_str(side_text(place.is_in_picture))?;
    add_picture(line, place.picture)
}

// The unit, and where its first byte stands.
fn add_start(line: &mut String, unit: u64, first_byte: u64) -> Result<(), AllocError>
    ensures { OnOk result (string_bytes line.new ≡ string_bytes line.old
        ++ start_text unit first_byte) }
{
    write!(line, "{unit} begins at byte {first_byte}, ")?;
    Ok(())
}

// The coded picture.
fn add_picture(line: &mut String, picture: u64) -> Result<(), AllocError>
    ensures { OnOk result (string_bytes line.new ≡ string_bytes line.old ++ picture_text picture) }
{
    write!(line, " coded picture {picture}")?;
    Ok(())
}

// Whether it is in the picture or before it.
fn side_text(is_in_picture: bool) -> &'static str
    ensures { result.now ≡ side_text is_in_picture }
{
    if is_in_picture { "in" } else { "before" }
}

// The value that is refused, where it is a profile or a level.
fn add_value(line: &mut String, place: UnitPlace, fault: Fault) -> Result<(), AllocError>
    ensures { OnOk result (string_bytes line.new ≡ string_bytes line.old
        ++ value_text fault place) }
{
    match fault {
        Fault::Profile => add_profile(line, place.profile_idc),
        Fault::Level => add_level(line, place.level_idc),
        _ => Ok(()),
    }
}

fn add_profile(line: &mut String, profile_idc: Option<u8>) -> Result<(), AllocError>
    ensures { OnOk result (string_bytes line.new ≡ string_bytes line.old
        ++ profile_text profile_idc) }
{
    match profile_idc {
        Some(profile_idc) => add_named(line, profile_idc, name_text(profile_idc)),
        None => Ok(()),
    }
}

// The profile of this number and name, and which are taken.
fn add_named(line: &mut String, profile_idc: u8, name: &str) -> Result<(), AllocError>
    ensures { OnOk result (string_bytes line.new ≡ string_bytes line.old
        ++ named_text profile_idc name.now) }
{
    write!(line, ": profile_idc {profile_idc}")?;
    line.push_str(name)?;
    line.push_str("; 66, 77 and 88 are taken")?;
    Ok(())
}

fn add_level(line: &mut String, level_idc: Option<u8>) -> Result<(), AllocError>
    ensures { OnOk result (string_bytes line.new ≡ string_bytes line.old ++ level_text level_idc) }
{
    match level_idc {
        Some(level_idc) => {
            write!(line, ": level_idc {level_idc}")?;
            Ok(())
        }
        None => Ok(()),
    }
}

// The name of a profile (Annexes A, F, G and H), where it has one.
fn name_text(profile_idc: u8) -> &'static str
    ensures { result.now ≡ name_text profile_idc }
{
    if profile_idc == 44 {
        " (CAVLC 4:4:4 Intra)"
    } else if profile_idc == 66 {
        " (Baseline)"
    } else if profile_idc == 77 {
        " (Main)"
    } else if profile_idc == 83 {
        " (Scalable Baseline)"
    } else if profile_idc == 86 {
        " (Scalable High)"
    } else if profile_idc == 88 {
        " (Extended)"
    } else if profile_idc == 100 {
        " (High)"
    } else if profile_idc == 110 {
        " (High 10)"
    } else if profile_idc == 118 {
        " (Multiview High)"
    } else if profile_idc == 122 {
        " (High 4:2:2)"
    } else if profile_idc == 128 {
        " (Stereo High)"
    } else if profile_idc == 244 {
        " (High 4:4:4 Predictive)"
    } else {
        ""
    }
}
