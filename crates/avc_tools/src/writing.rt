//! Units behind start codes (B.1.1).

ghost use Rattle.std.specs.Prelude.{◌≡◌, [], ◌++◌, IfOk, OnOk, if◌then◌else◌};
ghost use Rattle.std.specs.List.{flat_map};
ghost use Rattle.avc_annexb.specs.Written.{written};
ghost use Rattle.avc_tools.specs.Cutting.{kept_bytes};
ghost use Rattle.avc_tools.specs.Pieces.{is_left_out, is_slice, is_within, leads};

use avc_annexb::Unit;
use avc_types::{Bytes, OutOfMemory};
use std::alloc::Global;

/// Adds a unit behind a start code.
pub(crate) fn write_unit(piece: &mut Vec<u8>, unit: &Unit) -> Result<(), OutOfMemory>
    ensures { OnOk result (piece.new.items ≡ piece.old.items ++ written unit.now) }
{
    piece.extend_from_slice(&[0, 0, 0, 1])?;
    piece.push(unit.header)?;
    match &unit.body {
        Some(body) => {
            piece.extend_from_slice(body.as_slice())?;
            Ok(())
        }
        None => Ok(()),
    }
}

/// Adds a unit so, where it is wanted.
pub(crate) fn write_if(piece: &mut Vec<u8>, unit: &Unit, wanted: bool) -> Result<(), OutOfMemory>
    ensures { OnOk result (piece.new.items ≡ piece.old.items
        ++ (if wanted then written unit.now else [])) }
{
    if wanted {
        write_unit(piece, unit)
    } else {
        Ok(())
    }
}

/// A unit behind a start code, alone.
pub(crate) fn written_unit(alloc: Global, unit: &Unit) -> Result<Bytes, OutOfMemory>
    ensures { IfOk result (λ bytes. bytes ≡ written unit.now) }
{
    let mut bytes = Vec::new(alloc);
    write_unit(&mut bytes, unit)?;
    Ok(Bytes::from_vec(bytes))
}

/// Adds the units that are kept, one after another.
pub(crate) fn write_kept(piece: &mut Vec<u8>, units: &[Option<Bytes>]) -> Result<(), OutOfMemory>
    ensures { OnOk result (piece.new.items ≡ piece.old.items ++ flat_map kept_bytes units.now) }
{
    for unit in units {
        write_bytes_of(piece, unit)?;
    }
    Ok(())
}

fn write_bytes_of(piece: &mut Vec<u8>, unit: &Option<Bytes>) -> Result<(), OutOfMemory>
    ensures { OnOk result (piece.new.items ≡ piece.old.items ++ kept_bytes unit.now) }
{
    match unit {
        Some(bytes) => {
            piece.extend_from_slice(bytes.as_slice())?;
            Ok(())
        }
        None => Ok(()),
    }
}

fn is_within(low: u8, high: u8, unit: &Unit) -> bool
    ensures { result ≡ is_within low high unit.now }
{
    let unit_type = unit.header % 32;
    (low <= unit_type) & (unit_type <= high)
}

/// Whether it is a slice (types 1 to 5, Table 7-1).
pub(crate) fn is_slice(unit: &Unit) -> bool
    ensures { result ≡ is_slice unit.now }
{
    is_within(1, 5, unit)
}

/// Whether it stands before a picture and belongs to its access unit (7.4.1.2.3).
pub(crate) fn leads(unit: &Unit) -> bool
    ensures { result ≡ leads unit.now }
{
    is_within(6, 6, unit) | is_within(14, 18, unit)
}

/// Whether it belongs to the next access unit, behind the last slice of a picture (7.4.1.2.3).
pub(crate) fn is_left_out(unit: &Unit) -> bool
    ensures { result ≡ is_left_out unit.now }
{
    is_within(6, 9, unit) | is_within(14, 18, unit)
}
