//! What each fault means, in words.

ghost use Rattle.std.specs.Prelude.{◌≡◌};
ghost use Rattle.avc_explain.specs.Explanations.{meaning_of};

use avc_types::Fault;

/// When this fault is there, with the clause of the standard, in the words of docs/behaviour.md.
pub fn meaning_of(fault: Fault) -> &'static str
    ensures { result.now ≡ meaning_of fault }
{
    match fault {
        Fault::Truncated => "an element reaches the stop bit, or there is none (7.2)",
        Fault::CodeTooLong => "32 or more zeros in front of an Exp-Golomb code (9.1)",
        Fault::OutOfRange => "a value is outside the range that its semantics give (7.4)",
        Fault::ForbiddenBit => "forbidden_zero_bit is 1; nothing else changes (7.4.1)",
        Fault::NalTooLong => "a unit is longer than the limit (own rule)",
        Fault::Profile => "profile_idc is not 66, 77 or 88 (A.2)",
        Fault::Level => "level_idc is not in Table A-1 (A.3)",
        Fault::PictureSize => {
            "a side or the number of macroblocks is past the limit (own rule) (7.4.2.1.1)"
        }
        Fault::Interlaced => "frame_mbs_only_flag is 0 (7.4.2.1.1)",
        Fault::Cabac => "entropy_coding_mode_flag is 1 (7.4.2.2)",
        Fault::SliceGroups => "num_slice_groups_minus1 is not 0 (7.4.2.2)",
        Fault::WeightedPrediction => "never: weighted prediction is taken (7.4.2.2)",
        Fault::PpsExtension => "more data behind redundant_pic_cnt_present_flag (7.3.2.2)",
        Fault::DataPartition => "a unit of types 2 to 4 while decoding runs (7.4.1)",
        Fault::SliceType => "a slice that is neither P nor I (7.4.3)",
        Fault::RedundantSlice => "redundant_pic_cnt is above 0 (7.4.3)",
        Fault::ArbitrarySliceOrder => {
            "a slice begins before the macroblock that is expected (7.4.3)"
        }
        Fault::MissingMacroblocks => {
            "a slice begins behind the macroblock that is expected, or a picture is closed before it is full (7.4.3)"
        }
        Fault::NoParameterSet => {
            "the picture parameter set, or its sequence parameter set, is not in force (7.4.1.2.1)"
        }
        Fault::ParameterSetChanged => {
            "another sequence parameter set before the next IDR picture (7.4.1.2.1)"
        }
        Fault::FrameNumGap => "a gap in frame_num where gaps are not allowed (7.4.3)",
        Fault::FrameNumRepeated => {
            "a reference picture repeats the frame_num of the one before (own rule) (7.4.3)"
        }
        Fault::BadIdr => {
            "an IDR slice with nal_ref_idc 0, of type P, or with a frame_num other than 0 (7.4.1.2.4, 7.4.3)"
        }
        Fault::PocRange => "an order count outside 32 signed bits (own rule) (8.2.1)",
        Fault::BadRefList => {
            "a list entry names no frame or a non-existing one, or more names than entries (8.2.4.3)"
        }
        Fault::BadMarking => {
            "a marking operation that can't be carried out, or more than 64 (8.2.5.4)"
        }
        Fault::TooManyReferences => {
            "more reference frames than max_num_ref_frames, at least 1 (8.2.5)"
        }
        Fault::BadCode => "bits that begin with no codeword of a table (9.1.2, 9.2)",
        Fault::TooManyCoefficients => {
            "total_coeff, or it with total_zeros, is past the block (9.2)"
        }
        Fault::TooManyMacroblocks => "a skip run, or more data, past the last macroblock (7.3.4)",
        Fault::IntraUnavailable => "an intra prediction needs a side that is not available (8.3)",
        Fault::VectorRange => "a component of a motion vector leaves 16 bits (own rule) (8.4.1)",
        Fault::RefMissing => {
            "a prediction from an empty list entry or a non-existing frame (8.4.2.1)"
        }
        Fault::NotYet => "nothing: the number stays taken",
    }
}
