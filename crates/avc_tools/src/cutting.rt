//! All pieces of a whole stream.

ghost use Rattle.std.specs.Prelude.{◌≡◌, [], ◌∷◌, ◌++◌, ◌<◌, IfOk, OnOk, length, map, take};
ghost use Rattle.avc_units.specs.Grouping.{is_start};
ghost use Rattle.avc_tools.specs.Cutting.{HasSets, pieces_at};
ghost use Rattle.avc_tools.specs.Pieces.{pieces, pieces_from};

use crate::piece::piece_at;
use crate::sets_in_force::SetsInForce;
use crate::units::all_units;
use avc_annexb::Unit;
use avc_types::{Bytes, OutOfMemory};
use avc_units::is_start;
use std::alloc::Global;

/// The pieces of a whole byte stream (Annex B) that can be decoded by themselves: one from each
/// unit on with which decoding can start, behind the parameter sets in force there.
pub fn cut(alloc: Global, bytes: &[u8]) -> Result<Vec<Bytes>, OutOfMemory>
    ensures { IfOk result (λ all. all.items ≡ pieces bytes.now) }
{
    let units = all_units(alloc, bytes)?;
    let starts = starts_of(alloc, units.as_slice())?;
    pieces_of(alloc, units.as_slice(), starts.as_slice())
}

// Of each unit, whether decoding can start with it.
fn starts_of(alloc: Global, units: &[Unit]) -> Result<Vec<bool>, OutOfMemory>
    ensures { IfOk result (λ starts. starts.items ≡ map is_start units.now) }
{
    let mut starts = Vec::new(alloc);
    for unit in units {
        starts.push(is_start(alloc, unit)?)?;
    }
    Ok(starts)
}

fn pieces_of(alloc: Global, units: &[Unit], starts: &[bool]) -> Result<Vec<Bytes>, OutOfMemory>
    requires { starts.now ≡ map is_start units.now }
    ensures { IfOk result (λ all. all.items ≡ pieces_from [] units.now) }
{
    let mut sets = SetsInForce::new(alloc)?;
    let mut all = Vec::new(alloc);
    for (place, unit) in units.iter().enumerate() {
        add_piece(alloc, &mut all, &sets, units, starts, place)?;
        sets.take_in(alloc, unit)?;
    }
    Ok(all)
}

// Adds the piece whose cut point stands at this place, if there is one.
fn add_piece(
    alloc: Global,
    all: &mut Vec<Bytes>,
    sets: &SetsInForce,
    units: &[Unit],
    starts: &[bool],
    place: usize,
) -> Result<(), OutOfMemory>
    requires place { place < length units.now }
    requires sets { HasSets (take place units.now) sets.now }
    requires starts { starts.now ≡ map is_start units.now }
    ensures { OnOk result (all.new.items ≡ all.old.items ++ pieces_at units.now place) }
{
    if starts[place] {
        let piece = piece_at(alloc, sets, units, starts, place)?;
        all.push(Bytes::from_vec(piece))?;
    }
    Ok(())
}
