//! Kinds of units, by nal_unit_type (Table 7-1).

ghost use Rattle.std.specs.Prelude.{◌≡◌};
ghost use Rattle.avc_annexb.specs.Units.{nal_unit_type};
ghost use Rattle.avc_units.specs.Grouping.{kind_of};
ghost use Rattle.avc_units.specs.Kinds.{meant};

/// What a unit is to the open picture, by its nal_unit_type (Table 7-1).
#[derive(Clone, Copy)]
pub enum UnitKind {
    /// Type 5, and type 1.
    Slice { idr: bool },

    Partition,

    Sps,

    Pps,

    /// Others that end a picture.
    Boundary,

    /// All that change nothing.
    Other,
}

/// The kind by a unit's first byte.
pub fn kind_of(header: u8) -> UnitKind
    ensures { meant result ≡ kind_of (nal_unit_type header) }
{
    match header % 32 {
        1 => UnitKind::Slice { idr: false },
        2..=4 => UnitKind::Partition,
        5 => UnitKind::Slice { idr: true },
        7 => UnitKind::Sps,
        8 => UnitKind::Pps,
        6 | 9..=11 | 15..=18 => UnitKind::Boundary,
        _ => UnitKind::Other,
    }
}
