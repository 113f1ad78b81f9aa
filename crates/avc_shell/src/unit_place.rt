//! Where a unit stands in its stream, and what of its first bytes is told.

ghost use Rattle.std.specs.Prelude.{◌≡◌};
ghost use Rattle.avc_shell.specs.UnitPlaces.{begins_picture, begins_with_zero, begun_with, byte_at};
ghost use Rattle.avc_shell.specs.UnitPlaces.{byte_of_set, has_header, is_of_picture, place_of};
ghost use Rattle.avc_tools.specs.Pieces.{is_slice};

use avc_annexb::Unit;
use avc_types::Bytes;

/// nal_unit_type of a sequence parameter set (Table 7-1).
const SEQUENCE_PARAMETER_SET: u8 = 7;

/// The place of profile_idc behind the first byte of a sequence parameter set (7.3.2.1.1).
const PROFILE_IDC: usize = 0;

/// The place of level_idc there.
const LEVEL_IDC: usize = 2;

/// Where a unit stands in its stream, and of a sequence parameter set what it asks for.
#[derive(Clone, Copy)]
pub struct UnitPlace {
    /// Its place among the stream's units, from 0.
    pub unit: u64,

    /// The place of its first byte in the stream, in bytes from 0.
    pub first_byte: u64,

    /// Whether it is a slice of a coded picture; else it stands before one.
    pub is_in_picture: bool,

    /// The number of that coded picture, in decoding order from 0.
    pub picture: u64,

    /// profile_idc, where it is a sequence parameter set that has one.
    pub profile_idc: Option<u8>,

    /// level_idc, where it is a sequence parameter set that has one, and profile_idc is not 0.
    pub level_idc: Option<u8>,
}

impl UnitPlace {
    /// Of a unit with which so many coded pictures have begun.
    pub fn of(begun: u64, unit: &Unit) -> UnitPlace
        ensures { result ≡ place_of begun unit.now }
    {
        let is_in_picture = is_slice(unit) && begun > 0;
        UnitPlace {
            unit: unit.index,
            first_byte: unit.offset,
            is_in_picture,
            picture: if is_in_picture {
                begun.saturating_sub(1)
            } else {
                begun
            },
            profile_idc: byte_of_set(unit, PROFILE_IDC),
            level_idc: byte_of_set(unit, LEVEL_IDC),
        }
    }
}

/// How many coded pictures have begun with a unit, by how many had before.
pub fn begun_with(begun: u64, unit: &Unit) -> u64
    ensures { result ≡ begun_with begun unit.now }
{
    if begins_picture(unit) {
        begun.saturating_add(1)
    } else {
        begun
    }
}

/// Whether a unit is a slice that is not refused alone, with a forbidden_zero_bit of 1.
pub fn is_of_picture(unit: &Unit) -> bool
    ensures { result ≡ is_of_picture unit.now }
{
    is_slice(unit) && unit.header < 128
}

// Whether a unit is a slice (types 1 to 5, Table 7-1).
fn is_slice(unit: &Unit) -> bool
    ensures { result ≡ is_slice unit.now }
{
    let kind = unit.header % 32;
    1 <= kind && kind <= 5
}

// Whether a coded picture begins with it.
fn begins_picture(unit: &Unit) -> bool
    ensures { result ≡ begins_picture unit.now }
{
    has_header(unit.header % 32) && unit.header < 128 && begins_with_zero(byte_at(&unit.body, 0))
}

// Whether a unit of this type has a slice header.
fn has_header(kind: u8) -> bool
    ensures { result ≡ has_header kind }
{
    kind == 1 || kind == 2 || kind == 5
}

// Whether this byte begins with the code of 0.
fn begins_with_zero(byte: Option<u8>) -> bool
    ensures { result ≡ begins_with_zero byte }
{
    match byte {
        Some(byte) => byte >= 128,
        None => false,
    }
}

// The byte of a sequence parameter set that has so many behind the unit's first before it.
fn byte_of_set(unit: &Unit, place: usize) -> Option<u8>
    ensures { result ≡ byte_of_set unit.now place }
{
    if unit.header % 32 == SEQUENCE_PARAMETER_SET {
        byte_at(&unit.body, place)
    } else {
        None
    }
}

// The byte of a body that has so many before it.
fn byte_at(body: &Option<Bytes>, place: usize) -> Option<u8>
    ensures { result ≡ byte_at body.now place }
{
    match body {
        Some(bytes) => bytes.as_slice().get(place).copied(),
        None => None,
    }
}
