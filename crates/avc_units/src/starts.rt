//! Units with which decoding can start.

ghost use Rattle.std.specs.Prelude.{◌≡◌, IfOk};
ghost use Rattle.avc_units.specs.Grouping.{is_start};

use crate::sets::rbsp_of;
use crate::slices::is_first;
use avc_annexb::Unit;
use avc_types::OutOfMemory;
use std::alloc::Global;

/// Whether decoding can start with a unit: forbidden_zero_bit is 0, nal_unit_type 5, and
/// first_mb_in_slice reads as 0.
pub fn is_start(alloc: Global, unit: &Unit) -> Result<bool, OutOfMemory>
    ensures { IfOk result (λ starts. starts ≡ is_start unit.now) }
{
    if unit.header >= 128 {
        return Ok(false);
    }
    if unit.header % 32 != 5 {
        return Ok(false);
    }
    match rbsp_of(alloc, unit)? {
        Some(rbsp) => Ok(is_first(rbsp.as_slice())),
        None => Ok(false),
    }
}
