//! dec_ref_pic_marking, read (7.3.3.3).

ghost use Rattle.std.specs.Prelude.{◌≡◌};
ghost use Rattle.std.specs.Prelude.{true, Some};
ghost use Rattle.avc_types.specs.declared.references.Marking.TheVariants.{SlidingWindow};
ghost use Rattle.avc_bits.specs.Bits.{where_set};
ghost use Rattle.avc_bits.specs.Reader.{Reads};
ghost use Rattle.avc_slice.specs.Filling.{Fills, adaptive};
ghost use Rattle.avc_slice.specs.Reading.{any_operation, marking, most_operations, operations};

use crate::list::{Coded, Ending, read_up_to};
use avc_bits::BitReader;
use avc_types::{Fault, Marking, Operation, UpTo};

/// How many operations one header may have.
const MOST_OPERATIONS: u32 = 64;

/// One operation (7.3.3.3), whose memory_management_control_operation is known and not 0.
impl Coded for Operation {
    ghost item = { any_operation };

    fn read_item(reader: &mut BitReader, _most: u32, code: u32) -> Result<Operation, Fault> {
        match code {
            1 => Ok(Operation::UnmarkShortTerm(reader.ue()?)),
            2 => Ok(Operation::UnmarkLongTerm(reader.ue()?)),
            3 => {
                let difference_of_pic_nums_minus1 = reader.ue()?;
                let long_term_frame_idx = reader.ue()?;
                Ok(Operation::AssignLongTerm(difference_of_pic_nums_minus1, long_term_frame_idx))
            }
            4 => Ok(Operation::MaxLongTermFrameIdx(reader.ue()?)),
            5 => Ok(Operation::UnmarkAll),
            _ => Ok(Operation::CurrentToLongTerm(reader.ue()?)),
        }
    }
}

/// The operations up to memory_management_control_operation 0 (7.3.3.3).
fn read_operations(reader: &mut BitReader) -> Result<UpTo<Operation, 64>, Fault>
    ensures { Reads result (operations most_operations) reader.old reader.new }
{
    let ending = Ending {
        top: 6,
        stop: 0,
        fault: Fault::BadMarking,
    };
    read_up_to(reader, ending, 0, MOST_OPERATIONS)
}

/// The operations are put into the header where they stay, since they are large.
#[inline(never)]
fn put_operations(reader: &mut BitReader, place: &mut Option<Marking>) -> Result<(), Fault>
    ensures { Fills result place.new (where_set true adaptive) reader.old reader.new }
{
    *place = Some(Marking::Adaptive(read_operations(reader)?));
    Ok(())
}

/// The sliding window, in a place that is large: nothing is written where that stands there
/// already.
fn set_sliding_window(place: &mut Option<Marking>)
    ensures { place.new ≡ Some SlidingWindow }
{
    match place {
        Some(Marking::SlidingWindow) => {}
        _ => *place = Some(Marking::SlidingWindow),
    }
}

/// dec_ref_pic_marking (7.3.3.3), of an IDR picture or of another, put into the header.
pub(crate) fn put_marking(
    reader: &mut BitReader,
    idr: bool,
    place: &mut Option<Marking>,
) -> Result<(), Fault>
    ensures { Fills result place.new (where_set true (marking idr)) reader.old reader.new }
{
    if idr {
        let no_output_of_prior_pics_flag = reader.flag()?;
        let long_term_reference_flag = reader.flag()?;
        *place = Some(Marking::Idr {
            no_output_of_prior_pics_flag,
            long_term_reference_flag,
        });
        return Ok(());
    }
    let adaptive_ref_pic_marking_mode_flag = reader.flag()?;
    if adaptive_ref_pic_marking_mode_flag {
        put_operations(reader, place)
    } else {
        set_sliding_window(place);
        Ok(())
    }
}
