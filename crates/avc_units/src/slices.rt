//! What a slice's unit does to the open picture.

ghost use Rattle.std.specs.Prelude.{◌≡◌, ◌&&◌, true, false, is_some, IfOk, OnErr};
ghost use Rattle.avc_annexb.specs.Units.{forbidden_zero_bit};
ghost use Rattle.avc_bits.specs.Bits.{start};
ghost use Rattle.avc_bits.specs.Codes.{ue};
ghost use Rattle.avc_params.specs.Tables.{sets_after};
ghost use Rattle.avc_slice.specs.Reading.{header_in_rbsp};
ghost use Rattle.avc_units.specs.GrouperState.{IfSlice, IsSliceUnder};
ghost use Rattle.avc_units.specs.Grouping.{kind, reads_zero, slice, with_header};
ghost use Rattle.avc_units.specs.Kinds.{slice_or_start, open_picture_in, step_by};

use crate::heap_slice::HeapSlice;
use crate::sets::{give_back, rbsp_in};
use crate::step::Step;
use crate::step_cases::{UnitContext, no_effect, slice_or_start};
use avc_annexb::Unit;
use avc_bits::BitReader;
use avc_params::ParamTable;
use avc_types::{Bytes, Fault, OutOfMemory};
use std::alloc::Global;

/// Whether first_mb_in_slice reads as 0 in the RBSP of a slice.
pub(crate) fn is_first(rbsp: &[u8]) -> bool
    ensures { result ≡ reads_zero (ue (start rbsp.now)) }
{
    let mut reader = BitReader::new(rbsp);
    match reader.ue() {
        Ok(first_mb_in_slice) => first_mb_in_slice == 0,
        Err(_) => false,
    }
}

/// Whether decoding can start with a slice of this RBSP, where `idr` says that its unit's type is
/// 5.
fn can_start(rbsp: &[u8], idr: bool) -> bool
    ensures { result ≡ (idr && reads_zero (ue (start rbsp.now))) }
{
    idr && is_first(rbsp)
}

/// The slice with this RBSP, or the fault in its header. It is read in the place of one that is
/// over, where there is such a one.
fn read_slice(
    alloc: Global,
    table: &ParamTable,
    over: &mut Option<HeapSlice>,
    unit: &Unit,
    rbsp: Bytes,
) -> Result<Result<HeapSlice, Fault>, OutOfMemory>
    ensures slice { IfOk result (λ read. read
        ≡ with_header unit.now rbsp
        (header_in_rbsp unit.now.header (sets_after table.now) rbsp)) }
    ensures kept { IfOk result (λ read. IfOk read (IsSliceUnder (sets_after table.now))) }
{
    let mut slice = HeapSlice::new(alloc, over.take(), unit.index, rbsp)?;
    match slice.read_header(unit.header, table) {
        Ok(()) => Ok(Ok(slice)),
        Err(fault) => {
            *over = Some(slice);
            Ok(Err(fault))
        }
    }
}

/// A slice's unit; `idr` says that its type is 5. The slice is put in the place of one that is
/// over, where there is such a one.
pub(crate) fn slice_unit(
    alloc: Global,
    table: &ParamTable,
    over: &mut Option<HeapSlice>,
    context: UnitContext,
    unit: &Unit,
    idr: bool,
) -> Result<Step, OutOfMemory>
    requires allowed { forbidden_zero_bit unit.now.header ≡ false }
    requires kind { kind unit.now ≡ slice idr }
    ensures step { IfOk result (λ s. s
        ≡ step_by context.entry (sets_after table.now) unit.now (slice idr)) }
    ensures slice { IfOk result (λ s. IfSlice s.next (IsSliceUnder (sets_after table.now))) }
    ensures memory { OnErr result (is_some unit.now.body ≡ true) }
{
    match rbsp_in(alloc, over, unit)? {
        Some(rbsp) => {
            let starts = can_start(rbsp.as_slice(), idr);
            // else nothing comes of it, whatever its header says
            if context.running | starts {
                let read = read_slice(alloc, table, over, unit, rbsp)?;
                return Ok(slice_or_start(context, starts, read));
            }
            give_back(over, rbsp);
            Ok(no_effect())
        }
        None => Ok(slice_or_start(context, false, Err(Fault::NalTooLong))),
    }
}
