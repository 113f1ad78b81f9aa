//! A unit by its header byte and its RBSP (7.3.1).

ghost use Rattle.std.specs.Prelude.{IfOk};
ghost use Rattle.avc_rbsp.specs.Rbsps.{IsUnit};

use avc_rbsp::{BitMaker, escape};
use avc_types::OutOfMemory;
use std::alloc::Global;

/// A unit with this header byte and these bits before its stop bit.
pub fn unit_of(alloc: Global, header: u8, maker: &mut BitMaker) -> Result<Vec<u8>, OutOfMemory>
    ensures { IfOk result (λ unit. IsUnit header maker.old.bits unit.items) }
{
    // rbsp_stop_one_bit
    maker.flag(true)?;
    let body = escape(alloc, maker.bytes())?;
    let mut unit = Vec::new(alloc);
    unit.push(header)?;
    unit.extend_from_slice(&body)?;
    Ok(unit)
}
