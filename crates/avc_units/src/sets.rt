//! What a parameter set's unit does to the open picture, and to the table.

ghost use Rattle.std.specs.Prelude.{◌≡◌, ◌++◌, true, is_some, IfOk, OnErr, OnOk};
ghost use Rattle.std.specs.Option.{option_map};
ghost use Rattle.avc_units.specs.Grouping.{ends_picture, list_of, pps, rbsp_of, refusal_of};
ghost use Rattle.avc_units.specs.Grouping.{set_fault, set_of, sps};

use crate::heap_slice::HeapSlice;
use crate::step::{Next, Step};
use crate::step_cases::ends_picture;
use avc_annexb::{Unit, unescape_in};
use avc_params::{ParamTable, SetFault};
use avc_types::{Bytes, Fault, OutOfMemory};
use std::alloc::Global;

/// The RBSP of a unit that is not too long.
pub fn rbsp_of(alloc: Global, unit: &Unit) -> Result<Option<Bytes>, OutOfMemory>
    ensures value { IfOk result (λ bytes. bytes ≡ rbsp_of unit.now) }
    ensures memory { OnErr result (is_some unit.now.body ≡ true) }
{
    let mut over = None;
    rbsp_in(alloc, &mut over, unit)
}

/// The RBSP of a unit in the place of that of a slice that is over, where there is such a one.
pub(crate) fn rbsp_in(
    alloc: Global,
    over: &mut Option<HeapSlice>,
    unit: &Unit,
) -> Result<Option<Bytes>, OutOfMemory>
    ensures value { IfOk result (λ bytes. bytes ≡ rbsp_of unit.now) }
    ensures memory { OnErr result (is_some unit.now.body ≡ true) }
{
    match &unit.body {
        Some(body) => {
            let raw = unescape_in(room(alloc, over), body.as_slice())?;
            Ok(Some(Bytes::from_vec(raw)))
        }
        None => Ok(None),
    }
}

/// The bytes of the RBSP of a slice that is over, where there is such a one.
fn room(alloc: Global, over: &mut Option<HeapSlice>) -> Vec<u8> {
    match over {
        Some(slice) => slice.take_rbsp(alloc),
        None => Vec::new(alloc),
    }
}

/// An RBSP is over: the next one will stand in its place, if there is a slice to keep it.
pub(crate) fn give_back(over: &mut Option<HeapSlice>, rbsp: Bytes) {
    if let Some(slice) = over {
        slice.take_back(rbsp);
    }
}

/// The refusal of a set that has a fault.
fn refusal_of(fault: Option<SetFault>) -> Next
    ensures { result ≡ refusal_of (option_map (λ why. why.fault) fault) }
{
    match fault {
        Some(why) => Next::Refusal(why.fault),
        None => Next::Nothing,
    }
}

/// A sequence parameter set's unit ends the picture, and is refused where it has a fault.
pub(crate) fn put_sps(
    alloc: Global,
    table: &mut ParamTable,
    over: &mut Option<HeapSlice>,
    unit: &Unit,
) -> Result<Step, OutOfMemory>
    ensures step { IfOk result (λ s. s
        ≡ ends_picture (refusal_of (set_fault sps (rbsp_of unit.now)))) }
    ensures put { OnOk result (table.new ≡ table.old ++ list_of (set_of sps (rbsp_of unit.now))) }
    ensures memory { OnErr result (is_some unit.now.body ≡ true) }
{
    match rbsp_in(alloc, over, unit)? {
        Some(rbsp) => {
            let fault = table.put_sps(rbsp.as_slice())?;
            give_back(over, rbsp);
            Ok(ends_picture(refusal_of(fault)))
        }
        None => Ok(ends_picture(Next::Refusal(Fault::NalTooLong))),
    }
}

/// A picture parameter set's unit does so too.
pub(crate) fn put_pps(
    alloc: Global,
    table: &mut ParamTable,
    over: &mut Option<HeapSlice>,
    unit: &Unit,
) -> Result<Step, OutOfMemory>
    ensures step { IfOk result (λ s. s
        ≡ ends_picture (refusal_of (set_fault pps (rbsp_of unit.now)))) }
    ensures put { OnOk result (table.new ≡ table.old ++ list_of (set_of pps (rbsp_of unit.now))) }
    ensures memory { OnErr result (is_some unit.now.body ≡ true) }
{
    match rbsp_in(alloc, over, unit)? {
        Some(rbsp) => {
            let fault = table.put_pps(rbsp.as_slice())?;
            give_back(over, rbsp);
            Ok(ends_picture(refusal_of(fault)))
        }
        None => Ok(ends_picture(Next::Refusal(Fault::NalTooLong))),
    }
}
