//! What each unit brings to whoever reads macroblocks.

ghost use Rattle.std.specs.Prelude.{◌≡◌, ◌++◌, ◌∷◌, [], false, Option, Some, OnOk, is_some};
ghost use Rattle.std.specs.Prelude.{string_bytes};
ghost use Rattle.avc_annexb.specs.Units.{forbidden_zero_bit};
ghost use Rattle.avc_params.specs.Tables.{sets_after};
ghost use Rattle.avc_params.specs.Within.{IsPps, IsSps};
ghost use Rattle.avc_slice.specs.Within.{IsHeader, IsReadUnder};
ghost use Rattle.avc_units.specs.Grouping.{kind, list_of, rbsp_of, set_of, set_units};
ghost use Rattle.avc_units.specs.Grouping.{pps as pps_kind, slice as slice_kind, sps as sps_kind};
ghost use Rattle.avc_reading.specs.Listing.{brought, brought_by, brought_under};
ghost use Rattle.avc_selection.specs.Followed.{IsOpen};
ghost use Rattle.avc_selection.specs.Pictures.{OpenPicture};
ghost use Rattle.avc_reading.specs.Slices.{sets_named};
ghost use Rattle.avc_reading.specs.Reading.{IsTold, asked_in};

use crate::position::{MacroblockPosition, find};
use crate::slices::add_slice_if_listed;
use crate::telling::Telling;
use avc_annexb::Unit;
use avc_params::{ParamTable, Pps, Sps};
use avc_selection::{MacroblockForm, Picture, picture_of};
use avc_slice::{Slice, read_header};
use avc_types::{Fault, OutOfMemory};
use avc_units::{UnitKind, kind_of, rbsp_of};
use std::alloc::Global;

/// The parameter sets that a slice names (7.4.1.2.1).
#[derive(Clone, Copy)]
struct NamedSets<'a> {
    sps: &'a Sps,
    pps: &'a Pps,
}

/// Those of a slice that was read under them.
fn sets_of<'a>(table: &'a ParamTable, slice: &Slice) -> NamedSets<'a>
    requires { IsReadUnder (sets_after table.now) slice.now.rbsp slice.now.header }
    ensures named { sets_named (sets_after table.now) slice.now.header
        ≡ Some (result.pps.now, result.sps.now) }
    ensures within { IsHeader result.sps.now result.pps.now slice.now.rbsp slice.now.header }
    ensures sps { IsSps result.sps.now }
    ensures pps { IsPps result.pps.now }
{
    let Some(pps) = table.pps(slice.header.pic_parameter_set_id) else {
        unreachable!()
    };
    let Some(sps) = table.sps(pps.seq_parameter_set_id) else {
        unreachable!()
    };
    NamedSets { sps, pps }
}

/// Adds the lines of a slice, and keeps what the picture's next slice asks for.
fn add_read_slice<F: MacroblockForm>(
    telling: &Telling<F>,
    text: &mut String,
    table: &ParamTable,
    kept: &mut Option<Picture>,
    found: &mut Option<MacroblockPosition>,
    slice: &Slice,
) -> Result<(), OutOfMemory>
    requires { IsReadUnder (sets_after table.now) slice.now.rbsp slice.now.header }
    ensures { OnOk result ((p : Option OpenPicture) → IsOpen telling.now.selection p kept.old
        → IsTold (asked_in F.form telling.now.selection) slice.now.unit p
        (brought_under (sets_after table.now) p slice.now)
        kept.new (is_some found.old) (is_some found.new) (string_bytes text.old)
        (string_bytes text.new)) }
{
    let sets = sets_of(table, slice);
    let mut picture = picture_of(
        telling.alloc,
        telling.selection,
        kept.take(),
        slice.unit,
        sets.sps,
        &slice.header,
    )?;
    let first = picture.next;
    add_slice_if_listed(telling, text, &mut picture, sets.pps, slice)?;
    find(telling, found, &picture, first, sets.pps, slice)?;
    *kept = Some(picture);
    Ok(())
}

/// Adds the lines of a slice's unit; `idr` says that its type is 5.
#[tactic(auto, using(crate::proofs::Read::told_refused))]
fn add_slice_unit<F: MacroblockForm>(
    telling: &Telling<F>,
    text: &mut String,
    table: &ParamTable,
    kept: &mut Option<Picture>,
    found: &mut Option<MacroblockPosition>,
    unit: &Unit,
    idr: bool,
) -> Result<(), OutOfMemory>
    ensures { OnOk result ((p : Option OpenPicture) → IsOpen telling.now.selection p kept.old
        → IsTold (asked_in F.form telling.now.selection) unit.now.index p
        (brought_by (sets_after table.now) p unit.now (slice_kind idr))
        kept.new (is_some found.old) (is_some found.new) (string_bytes text.old)
        (string_bytes text.new)) }
{
    match rbsp_of(telling.alloc, unit)? {
        Some(rbsp) => match read_header(unit.header, rbsp.as_slice(), table) {
            Ok(header) => {
                let slice = Slice {
                    unit: unit.index,
                    header,
                    rbsp,
                };
                add_read_slice(telling, text, table, kept, found, &slice)
            }
            Err(fault) => telling.add_refusal(text, unit.index, fault),
        },
        None => telling.add_refusal(text, unit.index, Fault::NalTooLong),
    }
}

/// Takes the unit of a sequence parameter set.
fn put_sps(alloc: Global, table: &mut ParamTable, unit: &Unit) -> Result<(), OutOfMemory>
    ensures { OnOk result (table.new ≡ table.old ++ list_of (set_of sps_kind (rbsp_of unit.now))) }
{
    match rbsp_of(alloc, unit)? {
        Some(rbsp) => {
            table.put_sps(rbsp.as_slice())?;
            Ok(())
        }
        None => Ok(()),
    }
}

/// Takes the unit of a picture parameter set.
fn put_pps(alloc: Global, table: &mut ParamTable, unit: &Unit) -> Result<(), OutOfMemory>
    ensures { OnOk result (table.new ≡ table.old ++ list_of (set_of pps_kind (rbsp_of unit.now))) }
{
    match rbsp_of(alloc, unit)? {
        Some(rbsp) => {
            table.put_pps(rbsp.as_slice())?;
            Ok(())
        }
        None => Ok(()),
    }
}

/// Adds the lines of a unit, and keeps its parameter set.
#[tactic(auto, using(crate::proofs::Read::told_refused, crate::proofs::Read::told_nothing))]
pub(crate) fn add_unit<F: MacroblockForm>(
    telling: &Telling<F>,
    text: &mut String,
    table: &mut ParamTable,
    kept: &mut Option<Picture>,
    found: &mut Option<MacroblockPosition>,
    unit: &Unit,
) -> Result<(), OutOfMemory>
    ensures told { OnOk result ((p : Option OpenPicture) → IsOpen telling.now.selection p kept.old
        → IsTold (asked_in F.form telling.now.selection) unit.now.index p
        (brought (sets_after table.old) p unit.now)
        kept.new (is_some found.old) (is_some found.new) (string_bytes text.old)
        (string_bytes text.new)) }
    ensures sets { OnOk result (table.new ≡ table.old ++ set_units (unit.now ∷ [])) }
{
    if unit.header >= 128 {
        return telling.add_refusal(text, unit.index, Fault::ForbiddenBit);
    }
    match kind_of(unit.header) {
        UnitKind::Slice { idr } => add_slice_unit(telling, text, table, kept, found, unit, idr),
        UnitKind::Partition => telling.add_refusal(text, unit.index, Fault::DataPartition),
        UnitKind::Sps => put_sps(telling.alloc, table, unit),
        UnitKind::Pps => put_pps(telling.alloc, table, unit),
        UnitKind::Boundary | UnitKind::Other => Ok(()),
    }
}
