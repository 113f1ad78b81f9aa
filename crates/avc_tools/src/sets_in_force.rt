//! The units of the parameter sets in force.

ghost use Rattle.std.specs.Prelude.{◌≡◌, ℕ, ◌<◌, Option, None, Some, OnOk, IfOk, if◌then◌else◌};
ghost use Rattle.std.specs.Prelude.{length, replicate};
ghost use Rattle.std.specs.Option.{option_map};
ghost use Rattle.avc_annexb.specs.Written.{written};
ghost use Rattle.avc_params.specs.Stored.{stored};
ghost use Rattle.avc_params.specs.Tables.{is_id, is_pps, is_sps, pps_record, sps_record};
ghost use Rattle.avc_params.specs.declared.set_unit.SetUnit.{SetUnit};
ghost use Rattle.avc_units.specs.Bringing.{parameter_set};
ghost use Rattle.avc_units.specs.Grouping.{set_unit};
ghost use Rattle.avc_units.specs.declared.set_reading.ParameterSet.TheVariants.{OfPicture};
ghost use Rattle.avc_units.specs.declared.set_reading.ParameterSet.TheVariants.{OfSequence};
ghost use Rattle.avc_tools.specs.Cutting.{AreReplaced};

use crate::writing::written_unit;
use avc_annexb::Unit;
use avc_params::laws::{pps_in_force_keeps_limits, sps_in_force_keeps_limits};
use avc_params::{Pps, SetFault, Sps};
use avc_types::{Bytes, OutOfMemory};
use avc_units::{ParameterSet, read_set};
use std::alloc::Global;

/// By id, the units whose parameter sets are in force, each written behind a start code.
#[derive(Drop)]
pub(crate) struct SetsInForce {
    pub sps: Vec<Option<Bytes>>,
    pub pps: Vec<Option<Bytes>>,
}

impl SetsInForce {
    /// No set is in force.
    pub(crate) fn new(alloc: Global) -> Result<SetsInForce, OutOfMemory>
        ensures sps { IfOk result (λ sets. sets.sps.items ≡ replicate 32 None) }
        ensures pps { IfOk result (λ sets. sets.pps.items ≡ replicate 256 None) }
    {
        Ok(SetsInForce {
            sps: no_units(alloc, 32)?,
            pps: no_units(alloc, 256)?,
        })
    }

    /// Takes the next unit.
    pub(crate) fn take_in(&mut self, alloc: Global, unit: &Unit) -> Result<(), OutOfMemory>
        ensures sps { OnOk result
            (AreReplaced is_sps sps_record (set_unit unit.now) (written unit.now) self.old.sps.items
            self.new.sps.items) }
        ensures pps { OnOk result
            (AreReplaced is_pps pps_record (set_unit unit.now) (written unit.now) self.old.pps.items
            self.new.pps.items) }
    {
        match read_set(alloc, unit)? {
            Some(set) => self.take_set(alloc, unit, &set),
            None => Ok(()),
        }
    }

    // Takes a unit that brings this set.
    fn take_set(
        &mut self,
        alloc: Global,
        unit: &Unit,
        set: &ParameterSet,
    ) -> Result<(), OutOfMemory>
        requires { option_map parameter_set (set_unit unit.now) ≡ Some set.now }
        ensures sps { OnOk result
            (AreReplaced is_sps sps_record (set_unit unit.now) (written unit.now) self.old.sps.items
            self.new.sps.items) }
        ensures pps { OnOk result
            (AreReplaced is_pps pps_record (set_unit unit.now) (written unit.now) self.old.pps.items
            self.new.pps.items) }
    {
        let written = written_unit(alloc, unit)?;
        match set {
            ParameterSet::OfSequence(set) => {
                put_sps(&mut self.sps, set, written);
                Ok(())
            }
            ParameterSet::OfPicture(set) => {
                put_pps(&mut self.pps, set, written);
                Ok(())
            }
        }
    }
}

fn no_units(alloc: Global, count: usize) -> Result<Vec<Option<Bytes>>, OutOfMemory>
    ensures { IfOk result (λ units. units.items ≡ replicate count None) }
{
    let mut units = Vec::new(alloc);
    for _id in 0..count {
        units.push(None)?;
    }
    Ok(units)
}

// A set with this id, where that was read in range, came with this unit, or was refused where there
// is none: then it erases the one before.
fn put(units: &mut Vec<Option<Bytes>>, id: Option<u8>, unit: Option<Bytes>)
    ensures long { length units.new.items ≡ length units.old.items }
    ensures units { (k : ℕ) → k < length units.old.items → stored units.new.items k
        ≡ (if is_id k id then unit else stored units.old.items k) }
{
    if let Some(id) = id {
        let id = usize::from(id);
        if id < units.len() {
            units[id] = unit;
        }
    }
}

// A sequence parameter set, which this unit brings.
fn put_sps(units: &mut Vec<Option<Bytes>>, set: &Result<Sps, SetFault>, unit: Bytes)
    ensures { (o : Option SetUnit) → option_map parameter_set o ≡ Some (OfSequence set.now)
        → AreReplaced is_sps sps_record o unit units.old.items units.new.items }
{
    sps_in_force_keeps_limits();
    match set {
        Ok(set) => put(units, Some(set.seq_parameter_set_id), Some(unit)),
        Err(refused) => put(units, refused.id, None),
    }
}

// A picture parameter set, which this unit brings.
fn put_pps(units: &mut Vec<Option<Bytes>>, set: &Result<Pps, SetFault>, unit: Bytes)
    ensures { (o : Option SetUnit) → option_map parameter_set o ≡ Some (OfPicture set.now)
        → AreReplaced is_pps pps_record o unit units.old.items units.new.items }
{
    pps_in_force_keeps_limits();
    match set {
        Ok(set) => put(units, Some(set.pic_parameter_set_id), Some(unit)),
        Err(refused) => put(units, refused.id, None),
    }
}
