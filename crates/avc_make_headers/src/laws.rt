//! What is written, read again: laws of the definitions alone.

ghost use Rattle.avc_make_headers.specs.SliceUnits.{HeaderIsRead};
ghost use Rattle.avc_make_headers.specs.Units.{PpsIsRead, SpsIsRead};

/// The unit of a picture parameter set in its ranges is read as that set, with no fault.
pub fn pps_is_read()
    ensures { PpsIsRead }
{}

/// The unit of a sequence parameter set in its ranges and of a size that is taken is read as that
/// set, with no fault.
#[tactic(auto, using(crate::proofs::Headers::sps_unit_is_read))]
pub fn sps_is_read()
    ensures { SpsIsRead }
{}

/// In the unit of a slice whose header is in its ranges, the header is read as it is, at its place,
/// with no fault.
pub fn header_is_read()
    ensures { HeaderIsRead }
{}
