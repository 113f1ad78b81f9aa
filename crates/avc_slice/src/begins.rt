//! The first slice of a new picture (7.4.1.2.4).

ghost use Rattle.std.specs.Prelude.{◌≡◌};
ghost use Rattle.avc_slice.specs.Begins.{begins_after, picture_fields};

use crate::header::{CodedOrder, Header};

/// What of a slice header the next slice's is compared with, to find the first slice of a new
/// picture (7.4.1.2.4).
#[derive(Clone, Copy)]
pub struct PictureFields {
    pub nal_ref_idc: u8,
    pub pic_parameter_set_id: u8,
    pub frame_num: u32,
    pub idr_pic_id: Option<u32>,
    pub order: CodedOrder,
}

impl Header {
    /// What the next slice's header is compared with.
    pub fn picture_fields(&self) -> PictureFields
        ensures { result ≡ picture_fields self.now }
    {
        PictureFields {
            nal_ref_idc: self.nal_ref_idc,
            pic_parameter_set_id: self.pic_parameter_set_id,
            frame_num: self.frame_num,
            idr_pic_id: self.idr_pic_id,
            order: self.order,
        }
    }
}

/// Whether a slice with header `next` begins a new picture after a slice with the fields `last`
/// (7.4.1.2.4): where it is the first in its picture's order, or where something differs that is
/// the same in all slices of a picture.
pub fn begins_picture(last: &PictureFields, next: &Header) -> bool
    ensures { result ≡ begins_after last.now next.now }
{
    next.first_mb_in_slice.get() == 0
        || last.frame_num != next.frame_num
        || last.pic_parameter_set_id != next.pic_parameter_set_id
        || (last.nal_ref_idc == 0) != (next.nal_ref_idc == 0)
        || last.order != next.order
        || last.idr_pic_id != next.idr_pic_id
}
