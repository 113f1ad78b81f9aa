//! What a unit does, by its kind.

ghost use Rattle.std.specs.Prelude.{◌≡◌, ◌++◌, ◌∷◌, [], true, false, is_some, IfOk, OnErr, OnOk};
ghost use Rattle.avc_annexb.specs.Units.{forbidden_zero_bit};
ghost use Rattle.avc_params.specs.Tables.{sets_after};
ghost use Rattle.avc_units.specs.GrouperState.{IfSlice, IsSliceUnder};
ghost use Rattle.avc_units.specs.Grouping.{is_read, kind, list_of, rbsp_of, set_of, set_units};
ghost use Rattle.avc_units.specs.Grouping.{step, MayWantMemory};
ghost use Rattle.avc_units.specs.Kinds.{meant, open_picture_in, step_by};

use crate::heap_slice::HeapSlice;
use crate::kinds::{UnitKind, kind_of};
use crate::sets::{put_pps, put_sps};
use crate::slices::slice_unit;
use crate::step::{Next, Step};
use crate::step_cases::{UnitContext, ends_picture, no_effect, slice_or_start};
use avc_annexb::Unit;
use avc_params::ParamTable;
use avc_types::{Fault, OutOfMemory};
use std::alloc::Global;

/// What a unit of this kind does.
fn step_by(
    alloc: Global,
    table: &mut ParamTable,
    over: &mut Option<HeapSlice>,
    context: UnitContext,
    unit: &Unit,
    unit_kind: UnitKind,
) -> Result<Step, OutOfMemory>
    requires allowed { forbidden_zero_bit unit.now.header ≡ false }
    requires kind { kind unit.now ≡ meant unit_kind }
    ensures step { IfOk result (λ s. s
        ≡ step_by context.entry (sets_after table.old) unit.now (meant unit_kind)) }
    ensures put { OnOk result (table.new ≡ table.old
        ++ list_of (set_of (meant unit_kind) (rbsp_of unit.now))) }
    ensures slice { IfOk result (λ s. IfSlice s.next (IsSliceUnder (sets_after table.new))) }
    ensures sets { IfOk result (λ s. IfSlice s.next (λ _. table.new ≡ table.old)) }
    ensures body { OnErr result (is_some unit.now.body ≡ true) }
    ensures read { OnErr result (is_read (meant unit_kind) ≡ true) }
{
    match unit_kind {
        UnitKind::Slice { idr } => slice_unit(alloc, table, over, context, unit, idr),
        UnitKind::Partition => Ok(slice_or_start(context, false, Err(Fault::DataPartition))),
        UnitKind::Sps => put_sps(alloc, table, over, unit),
        UnitKind::Pps => put_pps(alloc, table, over, unit),
        UnitKind::Boundary => Ok(ends_picture(Next::Nothing)),
        UnitKind::Other => Ok(no_effect()),
    }
}

/// What a unit does where it finds this, and what it puts into the table of the parameter sets
/// before it. A slice is put in the place of one that is over, where there is such a one. Only of a
/// slice or a parameter set that is not too long memory may be wanted.
pub fn step_of(
    alloc: Global,
    table: &mut ParamTable,
    over: &mut Option<HeapSlice>,
    context: UnitContext,
    unit: &Unit,
) -> Result<Step, OutOfMemory>
    ensures step { IfOk result (λ s. s
        ≡ step (sets_after table.old) context.entry.running (open_picture_in context.entry)
        unit.now) }
    ensures put { OnOk result (table.new ≡ table.old ++ set_units (unit.now ∷ [])) }
    ensures slice { IfOk result (λ s. IfSlice s.next (IsSliceUnder (sets_after table.new))) }
    ensures sets { IfOk result (λ s. IfSlice s.next (λ _. table.new ≡ table.old)) }
    ensures memory { OnErr result (MayWantMemory unit.now) }
{
    if unit.header >= 128 {
        return Ok(Step {
            closes: false,
            next: Next::Refusal(Fault::ForbiddenBit),
            even_after_fault: true,
        });
    }
    step_by(alloc, table, over, context, unit, kind_of(unit.header))
}
