//! A piece of a whole stream, by its cut point.

ghost use Rattle.std.specs.Prelude.{◌≡◌, ◌++◌, ◌<◌, IfOk, OnOk, length, map, not, take};
ghost use Rattle.std.specs.List.{filter, flat_map, take_while};
ghost use Rattle.avc_annexb.specs.Written.{written};
ghost use Rattle.avc_units.specs.Grouping.{is_start};
ghost use Rattle.avc_tools.specs.Cutting.{HasSets, piece_at};
ghost use Rattle.avc_tools.specs.Pieces.{after_slices, is_left_out, leads, rest_of_piece};
ghost use Rattle.avc_tools.specs.Pieces.{through_slices};

use crate::sets_in_force::SetsInForce;
use crate::writing::{is_left_out, is_slice, leads, write_if, write_kept, write_unit};
use avc_annexb::Unit;
use avc_types::OutOfMemory;
use std::alloc::Global;

/// The piece whose cut point stands at this place among the units.
pub(crate) fn piece_at(
    alloc: Global,
    sets: &SetsInForce,
    units: &[Unit],
    starts: &[bool],
    place: usize,
) -> Result<Vec<u8>, OutOfMemory>
    requires place { place < length units.now }
    requires sets { HasSets (take place units.now) sets.now }
    requires starts { starts.now ≡ map is_start units.now }
    ensures { IfOk result (λ piece. piece.items ≡ piece_at units.now place) }
{
    let mut piece = Vec::new(alloc);
    write_kept(&mut piece, &sets.sps)?;
    write_kept(&mut piece, &sets.pps)?;
    let before = &units[..place];
    write_leads(&mut piece, &before[count_through_slices(before)..])?;
    write_unit(&mut piece, &units[place])?;
    write_rest(&mut piece, &units[place + 1..], &starts[place + 1..])?;
    Ok(piece)
}

// The units after a cut point that its piece has.
fn write_rest(piece: &mut Vec<u8>, after: &[Unit], starts: &[bool]) -> Result<(), OutOfMemory>
    requires { starts.now ≡ map is_start after.now }
    ensures { OnOk result (piece.new.items ≡ piece.old.items
        ++ flat_map written (rest_of_piece after.now)) }
{
    let end = count_before_start(starts);
    if end >= after.len() {
        write_units(piece, after)?;
        return Ok(());
    }
    let others = &after[..end];
    let kept = count_through_slices(others);
    write_units(piece, &others[..kept])?;
    write_not_left_out(piece, &others[kept..])?;
    Ok(())
}

fn write_units(piece: &mut Vec<u8>, units: &[Unit]) -> Result<(), OutOfMemory>
    ensures { OnOk result (piece.new.items ≡ piece.old.items ++ flat_map written units.now) }
{
    for unit in units {
        write_unit(piece, unit)?;
    }
    Ok(())
}

fn write_leads(piece: &mut Vec<u8>, units: &[Unit]) -> Result<(), OutOfMemory>
    ensures { OnOk result (piece.new.items ≡ piece.old.items
        ++ flat_map written (filter leads units.now)) }
{
    for unit in units {
        write_if(piece, unit, leads(unit))?;
    }
    Ok(())
}

fn write_not_left_out(piece: &mut Vec<u8>, units: &[Unit]) -> Result<(), OutOfMemory>
    ensures { OnOk result (piece.new.items ≡ piece.old.items
        ++ flat_map written (filter (λ u. not (is_left_out u)) units.now)) }
{
    for unit in units {
        write_if(piece, unit, !is_left_out(unit))?;
    }
    Ok(())
}

/// How many units there are up to the last slice, that one included.
fn count_through_slices(units: &[Unit]) -> usize
    ensures { result ≡ length (through_slices units.now) }
{
    let mut count = units.len();
    'slices: while count > 0 {
        if is_slice(&units[count - 1]) {
            return count;
        }
        count -= 1;
    }
    0
}

/// How many units stand before the first with which decoding can start.
fn count_before_start(starts: &[bool]) -> usize
    ensures { result ≡ length (take_while not starts.now) }
{
    for (place, starts) in starts.iter().enumerate() {
        if *starts {
            return place;
        }
    }
    starts.len()
}
