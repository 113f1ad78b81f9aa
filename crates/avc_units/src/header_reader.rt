//! What units bring, one after another, without what they do to pictures.

ghost use Rattle.std.specs.Prelude.{◌≡◌, ◌++◌, [], ◌∷◌, Some, IfOk, OnErr, OnOk};
ghost use Rattle.std.specs.Option.{option_copied};
ghost use Rattle.avc_params.specs.Tables.{pps_in_force, sets_after};
ghost use Rattle.avc_units.specs.Bringing.{brought, brought_by, sps_under, IfHeader};
ghost use Rattle.avc_units.specs.Grouping.{list_of, set_of, set_units, MayWantMemory};
ghost use Rattle.avc_units.specs.Kinds.{meant};

use crate::kinds::{UnitKind, kind_of};
use crate::set_reading::ParameterSet;
use crate::sets::rbsp_of;
use avc_annexb::Unit;
use avc_params::{ParamTable, Pps, Sps, read_pps, read_sps};
use avc_slice::{Header, read_header};
use avc_types::{Fault, OutOfMemory};
use std::alloc::Global;
use std::marker::Model;

/// What a unit brings.
#[derive(Drop)]
pub enum Brought {
    /// No parameter set and no slice.
    Nothing,

    Set(ParameterSet),

    /// A slice, by its header.
    Slice(Header),

    /// What it should bring is refused.
    Refused(Fault),
}

/// Reads the parameter sets and the slice headers of a stream, unit by unit. A contract sees all
/// sets that came, in order.
#[derive(Drop)]
pub struct HeaderReader {
    alloc: Global,
    table: ParamTable,
}

impl Model for HeaderReader {
    ghost use Rattle.std.specs.Prelude.{List};
    ghost use Rattle.avc_params.specs.declared.set_unit.SetUnit.{SetUnit};

    ghost Value = { List SetUnit };

    ghost view = { λ r. r.table };
}

impl HeaderReader {
    /// Before a stream.
    pub fn new(alloc: Global) -> HeaderReader
        ensures { result ≡ [] }
    {
        HeaderReader {
            alloc,
            table: ParamTable::new(alloc),
        }
    }

    /// Takes the next unit, and answers what it brings; a slice header is read under the sets of
    /// the units before. Only of a slice or a parameter set that is not too long memory may be
    /// wanted, and nothing changes then.
    pub fn read(&mut self, unit: &Unit) -> Result<Brought, OutOfMemory>
        ensures brought { IfOk result (λ b. b ≡ brought (sets_after self.old) unit.now) }
        ensures sets { OnOk result (self.new ≡ self.old ++ set_units (unit.now ∷ [])) }
        ensures slice { IfOk result (λ b. IfHeader b (λ _. self.new ≡ self.old)) }
        ensures unchanged { OnErr result (self.new ≡ self.old) }
        ensures memory { OnErr result (MayWantMemory unit.now) }
    {
        if unit.header >= 128 {
            return Ok(Brought::Refused(Fault::ForbiddenBit));
        }
        match kind_of(unit.header) {
            UnitKind::Partition => Ok(Brought::Refused(Fault::DataPartition)),
            UnitKind::Boundary | UnitKind::Other => Ok(Brought::Nothing),
            kind => match rbsp_of(self.alloc, unit)? {
                Some(rbsp) => read_rbsp(&mut self.table, unit.header, kind, rbsp.as_slice()),
                None => Ok(Brought::Refused(Fault::NalTooLong)),
            },
        }
    }

    /// The sequence parameter set in force that a slice header refers to.
    pub fn sps_under(&self, header: &Header) -> Option<&Sps>
        ensures { option_copied result ≡ sps_under (sets_after self.now) header.now }
    {
        match self.table.pps(header.pic_parameter_set_id) {
            Some(pps) => self.table.sps(pps.seq_parameter_set_id),
            None => None,
        }
    }

    /// The picture parameter set in force under this id.
    pub fn pps(&self, id: u8) -> Option<&Pps>
        ensures { option_copied result ≡ pps_in_force self.now id }
    {
        self.table.pps(id)
    }
}

// of a unit of this kind, with this first byte and this RBSP
fn read_rbsp(
    table: &mut ParamTable,
    header: u8,
    kind: UnitKind,
    rbsp: &[u8],
) -> Result<Brought, OutOfMemory>
    ensures brought { IfOk result (λ b. b
        ≡ brought_by (sets_after table.old) header (meant kind) (Some rbsp.now)) }
    ensures sets { OnOk result (table.new ≡ table.old
        ++ list_of (set_of (meant kind) (Some rbsp.now))) }
    ensures slice { IfOk result (λ b. IfHeader b (λ _. table.new ≡ table.old)) }
    ensures unchanged { OnErr result (table.new ≡ table.old) }
{
    match kind {
        UnitKind::Sps => {
            table.put_sps(rbsp)?;
            Ok(Brought::Set(ParameterSet::OfSequence(read_sps(rbsp))))
        }
        UnitKind::Pps => {
            table.put_pps(rbsp)?;
            Ok(Brought::Set(ParameterSet::OfPicture(read_pps(rbsp))))
        }
        UnitKind::Slice { .. } => match read_header(header, rbsp, table) {
            Ok(header) => Ok(Brought::Slice(header)),
            Err(fault) => Ok(Brought::Refused(fault)),
        },
        UnitKind::Partition => Ok(Brought::Refused(Fault::DataPartition)),
        UnitKind::Boundary | UnitKind::Other => Ok(Brought::Nothing),
    }
}
