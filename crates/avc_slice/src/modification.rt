//! ref_pic_list_modification, read (7.3.3.1).

ghost use Rattle.std.specs.Prelude.{◌≡◌, ◌≤◌, ◌-◌};
ghost use Rattle.avc_bits.specs.Reader.{Reads};
ghost use Rattle.avc_slice.specs.Reading.{modification, modifications};

use crate::list::{Coded, Ending, read_up_to};
use avc_bits::BitReader;
use avc_types::{Fault, Modification, UpTo};

/// One entry (7.3.3.1), whose modification_of_pic_nums_idc is known. abs_diff_pic_num_minus1 is
/// limited.
impl Coded for Modification {
    ghost item = { modification };

    fn read_item(reader: &mut BitReader, most: u32, code: u32) -> Result<Modification, Fault> {
        match code {
            0 => Ok(Modification::Subtract(reader.ue_to(most)?)),
            1 => Ok(Modification::Add(reader.ue_to(most)?)),
            _ => Ok(Modification::LongTerm(reader.ue()?)),
        }
    }
}

/// The entries up to modification_of_pic_nums_idc 3 (7.3.3.1), of which `room` may stand.
pub(crate) fn read_modifications(
    reader: &mut BitReader,
    max_frame_num: u32,
    room: u32,
) -> Result<UpTo<Modification, 16>, Fault>
    requires numbers { 1 ≤ max_frame_num }
    requires room { room ≤ 16 }
    ensures { Reads result (modifications max_frame_num room) reader.old reader.new }
{
    let ending = Ending {
        top: 3,
        stop: 3,
        fault: Fault::BadRefList,
    };
    read_up_to(reader, ending, max_frame_num - 1, room)
}
