//! The parameter sets in force (7.4.1.2.1).

ghost use Rattle.std.specs.Prelude.{◌≡◌, [], ◌∷◌, ◌++◌, IfOk, OnOk, OnErr, IfSome, IsSome};
ghost use Rattle.std.specs.Option.{option_copied};
ghost use Rattle.avc_params.specs.Reading.{pps_of, sps_of};
ghost use Rattle.avc_params.specs.Tables.{accepted, pps_in_force, refused, sps_in_force};
ghost use Rattle.avc_params.specs.Within.{PpsIsInForce, SpsIsInForce};

use crate::pps::Pps;
use crate::pps_reading::read_pps;
use crate::set_unit::{Seen, SetFault, SetUnit};
use crate::sps::Sps;
use crate::sps_reading::read_sps;
use crate::stored::{erase, get, put};
use avc_types::{History, OutOfMemory};
use std::alloc::Global;
use std::marker::Model;

/// The parameter sets in force (7.4.1.2.1). A contract sees all units that were put, in order; the
/// table itself keeps the sets in force alone, by their ids.
#[derive(Drop)]
pub struct ParamTable {
    sps: Vec<Option<Sps>>,
    pps: Vec<Option<Pps>>,
    units: History<SetUnit>,
}

impl Model for ParamTable {
    ghost use Rattle.std.specs.Prelude.{List};
    ghost use Rattle.avc_params.specs.Stored.{Keeps};
    ghost use Rattle.avc_params.specs.declared.set_unit.SetUnit.{SetUnit};

    ghost Value = { List SetUnit };

    ghost view = { λ t. t.units.items };

    ghost invariant = { λ t. Keeps t.units.items t.sps.items t.pps.items };
}

impl ParamTable {
    ghost use Rattle.avc_params.specs.declared.set_unit.SetUnit.TheVariants.{OfPps, OfSps};

    /// No set is in force.
    pub fn new(alloc: Global) -> ParamTable
        ensures { result ≡ [] }
    {
        ParamTable {
            sps: Vec::new(alloc),
            pps: Vec::new(alloc),
            units: History::new(),
        }
    }

    /// Takes the RBSP of a sequence parameter set. A set that is refused erases the one of its id,
    /// where that had been read in range; the answer says why. Where memory is refused nothing
    /// changes.
    pub fn put_sps(&mut self, rbsp: &[u8]) -> Result<Option<SetFault>, OutOfMemory>
        ensures fault { IfOk result (λ fault. fault ≡ refused (sps_of rbsp.now)) }
        ensures put { OnOk result (self.new ≡ self.old ++ OfSps rbsp.now ∷ []) }
        ensures unchanged { OnErr result (self.new ≡ self.old) }
        ensures growth { OnErr result (IsSome (accepted (sps_of rbsp.now))) }
    {
        let unit = SetUnit::OfSps(Seen::new(rbsp));
        match read_sps(rbsp) {
            Ok(sps) => {
                put(&mut self.sps, sps.seq_parameter_set_id, sps)?;
                self.units = self.units.with(&unit);
                Ok(None)
            }
            Err(refused) => {
                erase(&mut self.sps, refused.id);
                self.units = self.units.with(&unit);
                Ok(Some(refused))
            }
        }
    }

    /// Takes the RBSP of a picture parameter set, as `put_sps` does.
    pub fn put_pps(&mut self, rbsp: &[u8]) -> Result<Option<SetFault>, OutOfMemory>
        ensures fault { IfOk result (λ fault. fault ≡ refused (pps_of rbsp.now)) }
        ensures put { OnOk result (self.new ≡ self.old ++ OfPps rbsp.now ∷ []) }
        ensures unchanged { OnErr result (self.new ≡ self.old) }
        ensures growth { OnErr result (IsSome (accepted (pps_of rbsp.now))) }
    {
        let unit = SetUnit::OfPps(Seen::new(rbsp));
        match read_pps(rbsp) {
            Ok(pps) => {
                put(&mut self.pps, pps.pic_parameter_set_id, pps)?;
                self.units = self.units.with(&unit);
                Ok(None)
            }
            Err(refused) => {
                erase(&mut self.pps, refused.id);
                self.units = self.units.with(&unit);
                Ok(Some(refused))
            }
        }
    }

    /// The sequence parameter set in force under this id.
    pub fn sps(&self, id: u8) -> Option<&Sps>
        ensures set { option_copied result ≡ sps_in_force self.now id }
        ensures kept { IfSome result (λ sps. SpsIsInForce id sps.now) }
    {
        get(&self.sps, id)
    }

    /// The picture parameter set in force under this id.
    pub fn pps(&self, id: u8) -> Option<&Pps>
        ensures set { option_copied result ≡ pps_in_force self.now id }
        ensures kept { IfSome result (λ pps. PpsIsInForce id pps.now) }
    {
        get(&self.pps, id)
    }
}
