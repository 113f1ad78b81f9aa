//! The faults of units, parameter sets and pictures, with their numbers and names.

ghost use Rattle.std.specs.Prelude.{◌≡◌};

use std::error::Error;
use std::fmt;

/// Why a unit, a parameter set or a picture was refused. Its printed text is its name.
#[derive(Clone, Copy, Debug, PartialEq, Eq)]
pub enum Fault {
    /// An element reaches the stop bit, or there is none (7.2).
    Truncated = 1,

    /// 32 or more zeros in front of an Exp-Golomb code (9.1).
    CodeTooLong = 2,

    /// A value is outside the range that its semantics give (7.4).
    OutOfRange = 3,

    /// forbidden_zero_bit is 1; nothing else changes (7.4.1).
    ForbiddenBit = 4,

    /// A unit is longer than the limit in bytes that was set.
    NalTooLong = 5,

    /// profile_idc is not 66, 77 or 88 (A.2).
    Profile = 10,

    /// level_idc is not in Table A-1 (A.3).
    Level = 11,

    /// A side or the number of macroblocks is past the limit (7.4.2.1.1).
    PictureSize = 12,

    /// frame_mbs_only_flag is 0 (7.4.2.1.1).
    Interlaced = 13,

    /// entropy_coding_mode_flag is 1 (7.4.2.2).
    Cabac = 14,

    /// num_slice_groups_minus1 is not 0 (7.4.2.2).
    SliceGroups = 15,

    /// Kept for its number: nothing answers it.
    WeightedPrediction = 16,

    /// More data behind redundant_pic_cnt_present_flag (7.3.2.2).
    PpsExtension = 17,

    /// A unit of types 2 to 4 while decoding runs (7.4.1).
    DataPartition = 18,

    /// A slice that is neither P nor I (7.4.3).
    SliceType = 19,

    /// redundant_pic_cnt is above 0 (7.4.3).
    RedundantSlice = 20,

    /// A slice begins before the macroblock that is expected (7.4.3).
    ArbitrarySliceOrder = 21,

    /// A slice begins behind the macroblock that is expected, or a picture is closed before it is
    /// full (7.4.3).
    MissingMacroblocks = 22,

    /// The picture parameter set, or its sequence parameter set, is not in force (7.4.1.2.1).
    NoParameterSet = 30,

    /// Another sequence parameter set before the next IDR picture (7.4.1.2.1).
    ParameterSetChanged = 31,

    /// A gap in frame_num where gaps are not allowed (7.4.3).
    FrameNumGap = 32,

    /// A reference picture repeats the frame_num of the one before (7.4.3).
    FrameNumRepeated = 33,

    /// An IDR slice with nal_ref_idc 0, of type P, or with a frame_num other than 0 (7.4.1.2.4,
    /// 7.4.3).
    BadIdr = 34,

    /// An order count outside 32 signed bits (8.2.1).
    PocRange = 35,

    /// A list entry names no frame or a non-existing one, or more names than entries (8.2.4.3).
    BadRefList = 36,

    /// A marking operation that can't be carried out, or more than 64 (8.2.5.4).
    BadMarking = 37,

    /// More reference frames than max_num_ref_frames, at least 1 (8.2.5).
    TooManyReferences = 38,

    /// Bits that begin with no codeword of a table (9.1.2, 9.2).
    BadCode = 40,

    /// total_coeff, or it with total_zeros, is past the block (9.2).
    TooManyCoefficients = 41,

    /// A skip run, or more data, past the last macroblock (7.3.4).
    TooManyMacroblocks = 42,

    /// An intra prediction needs a side that is not available (8.3).
    IntraUnavailable = 43,

    /// A component of a motion vector leaves 16 bits (8.4.1).
    VectorRange = 44,

    /// A prediction from an empty list entry or a non-existing frame (8.4.2.1).
    RefMissing = 45,

    /// No call answers it: the number stays taken.
    NotYet = 46,
}

// by hand: what thiserror writes has an arm for each variant, and says nothing of the text
impl fmt::Display for Fault {
    ghost use Rattle.std.specs.Prelude.{Some};
    ghost use Rattle.avc_types.specs.Faults.{name_of};

    ghost output = { λ fault. Some (name_of fault) };

    fn fmt<W: fmt::Write>(&self, f: &mut fmt::Formatter<W>) -> fmt::Result {
        f.write_str(self.name())
    }
}

impl Error for Fault {}

impl Fault {
    ghost use Rattle.avc_types.specs.Faults.{name_of, number_of};

    /// The number by which programs tell faults apart.
    pub fn number(self) -> u8
        ensures { result ≡ number_of self }
    {
        self as u8
    }

    /// The name, in ASCII letters.
    pub fn name(self) -> &'static str
        ensures { result.now ≡ name_of self }
    {
        match self {
            Fault::Truncated => "Truncated",
            Fault::CodeTooLong => "CodeTooLong",
            Fault::OutOfRange => "OutOfRange",
            Fault::ForbiddenBit => "ForbiddenBit",
            Fault::NalTooLong => "NalTooLong",
            Fault::Profile => "Profile",
            Fault::Level => "Level",
            Fault::PictureSize => "PictureSize",
            Fault::Interlaced => "Interlaced",
            Fault::Cabac => "Cabac",
            Fault::SliceGroups => "SliceGroups",
            Fault::WeightedPrediction => "WeightedPrediction",
            Fault::PpsExtension => "PpsExtension",
            Fault::DataPartition => "DataPartition",
            Fault::SliceType => "SliceType",
            Fault::RedundantSlice => "RedundantSlice",
            Fault::ArbitrarySliceOrder => "ArbitrarySliceOrder",
            Fault::MissingMacroblocks => "MissingMacroblocks",
            Fault::NoParameterSet => "NoParameterSet",
            Fault::ParameterSetChanged => "ParameterSetChanged",
            Fault::FrameNumGap => "FrameNumGap",
            Fault::FrameNumRepeated => "FrameNumRepeated",
            Fault::BadIdr => "BadIdr",
            Fault::PocRange => "PocRange",
            Fault::BadRefList => "BadRefList",
            Fault::BadMarking => "BadMarking",
            Fault::TooManyReferences => "TooManyReferences",
            Fault::BadCode => "BadCode",
            Fault::TooManyCoefficients => "TooManyCoefficients",
            Fault::TooManyMacroblocks => "TooManyMacroblocks",
            Fault::IntraUnavailable => "IntraUnavailable",
            Fault::VectorRange => "VectorRange",
            Fault::RefMissing => "RefMissing",
            Fault::NotYet => "NotYet",
        }
    }
}
