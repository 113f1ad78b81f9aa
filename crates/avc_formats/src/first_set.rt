//! The search for the sequence parameter set of the first picture.

ghost use Rattle.std.specs.Prelude.{◌≡◌, ◌++◌, ◌∷◌, [], false, IfOk, OnOk};
ghost use Rattle.avc_params.specs.Tables.{sets_after};
ghost use Rattle.avc_units.specs.Bringing.{sps_under};
ghost use Rattle.avc_units.specs.Grouping.{set_units};
ghost use Rattle.avc_formats.specs.Front.{starting_sps, IsFound, IsSaid};

use avc_annexb::{Splitter, Unit};
use avc_console::MAX_UNIT;
use avc_presentation::Presentation;
use avc_slice::Header;
use avc_types::OutOfMemory;
use avc_units::{Brought, HeaderReader, is_start};
use std::alloc::Global;

/// Takes the units whose end has been seen, up to the first with which decoding can start, and
/// answers what its set says.
pub(crate) fn find_set(
    alloc: Global,
    splitter: &mut Splitter<MAX_UNIT>,
    reader: &mut HeaderReader,
) -> Result<Option<Presentation>, OutOfMemory>
    requires { splitter.old.failed ≡ false }
    ensures { IfOk result (IsFound splitter.old splitter.new reader.old reader.new) }
{
    while let Some(unit) = splitter.next_unit() {
        let said = said_at(alloc, reader, &unit)?;
        if said.is_some() {
            return Ok(said);
        }
    }
    Ok(None)
}

// Takes a unit, and answers what the set says that its slice refers to, where decoding can start
// with it.
fn said_at(
    alloc: Global,
    reader: &mut HeaderReader,
    unit: &Unit,
) -> Result<Option<Presentation>, OutOfMemory>
    ensures said { IfOk result (IsSaid (starting_sps (sets_after reader.old) unit.now)) }
    ensures sets { OnOk result (reader.new ≡ reader.old ++ set_units (unit.now ∷ [])) }
{
    if !is_start(alloc, unit)? {
        reader.read(unit)?;
        return Ok(None);
    }
    match reader.read(unit)? {
        Brought::Slice(header) => Ok(said_under(reader, &header)),
        Brought::Nothing | Brought::Set(_) | Brought::Refused(_) => Ok(None),
    }
}

fn said_under(reader: &HeaderReader, header: &Header) -> Option<Presentation>
    ensures { IsSaid (sps_under (sets_after reader.now) header.now) result }
{
    match reader.sps_under(header) {
        Some(sps) => Some(Presentation::of(sps)),
        None => None,
    }
}
