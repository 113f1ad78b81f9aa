//! The name of a fault by its number, as C reads it.

ghost use Rattle.avc_c.specs.FaultNames.{IsNamed, IsNumbered, IsTextWritten};
ghost use Rattle.avc_c_picture.specs.Statuses.{number_of};

use avc_c_picture::Status;
use avc_types::Fault;

/// Copies the name of the fault with this number, and a 0 behind it.
pub(crate) fn copy_name(number: u32, name: &mut [u8]) -> Status
    ensures { IsNamed number name.old (number_of result) name.new }
{
    match numbered(number) {
        Some(fault) => copy_text(fault.name(), name),
        None => Status::NoFault,
    }
}

fn copy_text(text: &str, out: &mut [u8]) -> Status
    ensures { IsTextWritten text.now out.old (number_of result) out.new }
{
    let len = text.len();
    if out.len() <= len {
        return Status::NoRoom;
    }
    out[..len].copy_from_slice(text.as_bytes());
    out[len] = 0;
    Status::Ok
}

// The fault with this number.
fn numbered(number: u32) -> Option<Fault>
    ensures { IsNumbered number result }
{
    match number {
        1 => Some(Fault::Truncated),
        2 => Some(Fault::CodeTooLong),
        3 => Some(Fault::OutOfRange),
        4 => Some(Fault::ForbiddenBit),
        5 => Some(Fault::NalTooLong),
        10 => Some(Fault::Profile),
        11 => Some(Fault::Level),
        12 => Some(Fault::PictureSize),
        13 => Some(Fault::Interlaced),
        14 => Some(Fault::Cabac),
        15 => Some(Fault::SliceGroups),
        16 => Some(Fault::WeightedPrediction),
        17 => Some(Fault::PpsExtension),
        18 => Some(Fault::DataPartition),
        19 => Some(Fault::SliceType),
        20 => Some(Fault::RedundantSlice),
        21 => Some(Fault::ArbitrarySliceOrder),
        22 => Some(Fault::MissingMacroblocks),
        30 => Some(Fault::NoParameterSet),
        31 => Some(Fault::ParameterSetChanged),
        32 => Some(Fault::FrameNumGap),
        33 => Some(Fault::FrameNumRepeated),
        34 => Some(Fault::BadIdr),
        35 => Some(Fault::PocRange),
        36 => Some(Fault::BadRefList),
        37 => Some(Fault::BadMarking),
        38 => Some(Fault::TooManyReferences),
        40 => Some(Fault::BadCode),
        41 => Some(Fault::TooManyCoefficients),
        42 => Some(Fault::TooManyMacroblocks),
        43 => Some(Fault::IntraUnavailable),
        44 => Some(Fault::VectorRange),
        45 => Some(Fault::RefMissing),
        46 => Some(Fault::NotYet),
        _ => None,
    }
}
