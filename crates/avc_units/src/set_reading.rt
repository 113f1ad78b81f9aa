//! Units that bring a parameter set.

ghost use Rattle.std.specs.Prelude.{◌≡◌, true, is_some, IfOk, OnErr};
ghost use Rattle.std.specs.Option.{option_map};
ghost use Rattle.avc_units.specs.Bringing.{parameter_set};
ghost use Rattle.avc_units.specs.Grouping.{set_unit};

use crate::kinds::{UnitKind, kind_of};
use crate::sets::rbsp_of;
use avc_annexb::Unit;
use avc_params::{Pps, SetFault, Sps, read_pps, read_sps};
use avc_types::OutOfMemory;
use std::alloc::Global;

/// A parameter set as its unit brings it, or why it is refused.
#[derive(Drop)]
pub enum ParameterSet {
    /// A sequence parameter set (7.3.2.1).
    OfSequence(Result<Sps, SetFault>),

    /// A picture parameter set (7.3.2.2).
    OfPicture(Result<Pps, SetFault>),
}

/// The parameter set that a unit brings, if it does: a unit that is too long, or whose
/// forbidden_zero_bit is 1, brings none.
pub fn read_set(alloc: Global, unit: &Unit) -> Result<Option<ParameterSet>, OutOfMemory>
    ensures set { IfOk result (λ set. set ≡ option_map parameter_set (set_unit unit.now)) }
{
    if unit.header >= 128 {
        return Ok(None);
    }
    match kind_of(unit.header) {
        UnitKind::Sps => match rbsp_of(alloc, unit)? {
            Some(rbsp) => Ok(Some(ParameterSet::OfSequence(read_sps(rbsp.as_slice())))),
            None => Ok(None),
        },
        UnitKind::Pps => match rbsp_of(alloc, unit)? {
            Some(rbsp) => Ok(Some(ParameterSet::OfPicture(read_pps(rbsp.as_slice())))),
            None => Ok(None),
        },
        _ => Ok(None),
    }
}
