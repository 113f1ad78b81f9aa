//! What a line tells of a unit.

ghost use Rattle.std.specs.Prelude.{◌≡◌};
ghost use Rattle.avc_tools.specs.Lines.{facts_of};

use avc_annexb::Unit;

/// What a line tells of a unit.
#[derive(Clone, Copy)]
pub struct UnitFacts {
    /// Its place among the stream's units, from 0.
    pub unit: u64,

    /// The place of its first byte in the stream, in bytes from 0.
    pub first_byte: u64,

    /// The number of its bytes, the first one included.
    pub bytes: u64,

    /// 0 to 31 (Table 7-1).
    pub nal_unit_type: u8,

    /// 0 to 3.
    pub nal_ref_idc: u8,
}

impl UnitFacts {
    /// Of this unit.
    pub fn of(unit: &Unit) -> UnitFacts
        ensures { result ≡ facts_of unit.now }
    {
        UnitFacts {
            unit: unit.index,
            first_byte: unit.offset,
            bytes: unit.length,
            nal_unit_type: unit.header % 32,
            nal_ref_idc: unit.header / 32 % 4,
        }
    }
}
