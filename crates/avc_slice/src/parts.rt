//! A slice header in its parts, as they are read.

use crate::header::{CodedOrder, Deblocking, SliceType};
use crate::weights::PredWeightTable;
use avc_types::{Modification, UpTo};

/// What stands in the header up to the picture parameter set's id.
#[derive(Clone, Copy)]
pub struct Front {
    pub first_mb_in_slice: u32,
    pub slice_type: SliceType,
    pub pic_parameter_set_id: u8,
}

/// What tells the slice's picture from others.
#[derive(Clone, Copy)]
pub struct Numbers {
    pub frame_num: u32,
    pub idr_pic_id: Option<u32>,
    pub order: CodedOrder,
    pub redundant_pic_cnt: Option<u32>,
}

/// What RefPicList0 is made by, and by what its predictions are weighted.
#[derive(Drop)]
pub struct ListPart {
    pub active_override: Option<u32>,
    pub num_ref_idx_active: u32,
    pub modifications: Option<UpTo<Modification, 16>>,
    pub pred_weight_table: Option<PredWeightTable>,
}

/// How long RefPicList0 is.
#[derive(Clone, Copy)]
pub struct ActiveCount {
    pub active_override: Option<u32>,
    pub num_ref_idx_active: u32,
}

/// The quantiser and the deblocking fields.
#[derive(Clone, Copy)]
pub struct Filtering {
    pub slice_qp_delta: i32,
    pub deblocking: Option<Deblocking>,
}
