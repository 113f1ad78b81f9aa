//! A slice header (7.3.3).

ghost use Rattle.std.specs.Prelude.{◌≡◌, IfSome, slice_get};
ghost use Rattle.std.specs.List.{list_any};
ghost use Rattle.avc_slice.specs.Filling.{empty_header};
ghost use Rattle.avc_slice.specs.Header.{has_operation_5, is_unmark_all, is_idr, is_p, is_p_type};
ghost use Rattle.avc_slice.specs.Header.{is_reference};
ghost use Rattle.avc_slice.specs.Weights.{weights};
ghost use Rattle.avc_slice.specs.Within.{IsPredWeightTable};

use crate::weights::PredWeightTable;
use avc_types::{FilteredEdges, Marking, MbAddr, Modification, Operation, UpTo, Weights};

/// slice_type (Table 7-6). The last two say that all slices of the picture have this type.
#[derive(Clone, Copy, Debug, PartialEq, Eq)]
pub enum SliceType {
    /// 0.
    P,

    /// 2.
    I,

    /// 5.
    AllP,

    /// 7.
    AllI,
}

/// What a picture's order count is told by (7.3.3), for each kind of order counts.
#[derive(Clone, Copy, PartialEq, Eq)]
pub enum CodedOrder {
    /// delta_pic_order_cnt_bottom is 0 where it is not coded.
    Type0 {
        pic_order_cnt_lsb: u32,
        delta_pic_order_cnt_bottom: i32,
    },

    /// delta_pic_order_cnt[0] and [1], 0 where they are not coded.
    Type1 {
        delta_0: i32,
        delta_1: i32,
    },

    Type2,
}

/// The deblocking fields (7.3.3). The offsets are -6 to 6, and 0 where no edge is filtered.
#[derive(Clone, Copy)]
pub struct Deblocking {
    pub disable_deblocking_filter_idc: FilteredEdges,
    pub slice_alpha_c0_offset_div2: i32,
    pub slice_beta_offset_div2: i32,
}

/// A slice header (7.3.3), with the fields of the syntax under their names.
#[derive(Drop)]
pub struct Header {
    /// Of the unit's first byte, 0 to 3.
    pub nal_ref_idc: u8,

    pub first_mb_in_slice: MbAddr,

    pub slice_type: SliceType,

    pub pic_parameter_set_id: u8,

    pub frame_num: u32,

    /// In units of type 5, and in no others: 0 to 65,535.
    pub idr_pic_id: Option<u32>,

    pub order: CodedOrder,

    /// There where the picture parameter set has redundant_pic_cnt_present_flag 1; 0 then.
    pub redundant_pic_cnt: Option<u32>,

    /// num_ref_idx_l0_active_minus1, in P slices where the override flag is 1: 0 to 15.
    pub active_override: Option<u32>,

    /// The length of RefPicList0, with or without override, 1 to 16; 0 in I slices.
    pub num_ref_idx_active: u32,

    /// In P slices, where ref_pic_list_modification_flag_l0 is 1.
    pub modifications: Option<UpTo<Modification, 16>>,

    /// In P slices, where the picture parameter set has weighted_pred_flag 1.
    pub pred_weight_table: Option<PredWeightTable>,

    /// Where nal_ref_idc is not 0.
    pub marking: Option<Marking>,

    /// SliceQPY less 26 and less pic_init_qp_minus26.
    pub slice_qp_delta: i32,

    /// Where the picture parameter set has deblocking_filter_control_present_flag 1.
    pub deblocking: Option<Deblocking>,

    /// The number of bits of the RBSP before the slice data.
    pub position: u128,
}

impl SliceType {
    /// P, with or without its word on the other slices of the picture.
    pub(crate) fn is_p(self) -> bool
        ensures { result ≡ is_p_type self }
    {
        match self {
            SliceType::P | SliceType::AllP => true,
            SliceType::I | SliceType::AllI => false,
        }
    }
}

fn has_unmark_all(operations: &[Operation]) -> bool
    ensures { result ≡ list_any is_unmark_all operations.now }
{
    for operation in operations {
        match operation {
            Operation::UnmarkAll => return true,
            _ => {}
        }
    }
    false
}

impl Header {
    /// A header in which nothing stands yet.
    pub fn empty() -> Header
        ensures { result ≡ empty_header }
    {
        Header {
            nal_ref_idc: 0,
            first_mb_in_slice: MbAddr::new(0),
            slice_type: SliceType::I,
            pic_parameter_set_id: 0,
            frame_num: 0,
            idr_pic_id: None,
            order: CodedOrder::Type2,
            redundant_pic_cnt: None,
            active_override: None,
            num_ref_idx_active: 0,
            modifications: None,
            pred_weight_table: None,
            marking: None,
            slice_qp_delta: 0,
            deblocking: None,
            position: 0,
        }
    }

    /// The slice is one of an IDR picture (nal_unit_type 5).
    pub fn is_idr(&self) -> bool
        ensures { result ≡ is_idr self.now }
    {
        self.idr_pic_id.is_some()
    }

    /// The slice is one of a reference picture.
    pub fn is_reference(&self) -> bool
        ensures { result ≡ is_reference self.now }
    {
        self.nal_ref_idc != 0
    }

    /// The slice is a P slice; else it is an I slice.
    pub fn is_p(&self) -> bool
        ensures { result ≡ is_p self.now }
    {
        self.slice_type.is_p()
    }

    /// By what predictions from a reference index are weighted (8.4.2.3), where the slice has
    /// explicit weights.
    pub fn weights(&self, reference_index: usize) -> Option<Weights>
        requires { IfSome self.now.pred_weight_table
            (IsPredWeightTable self.now.num_ref_idx_active) }
        ensures { result ≡ slice_get (weights self.now) reference_index }
    {
        match &self.pred_weight_table {
            Some(table) => table.weights(reference_index),
            None => None,
        }
    }

    /// The picture has memory_management_control_operation 5 (7.4.3.3).
    pub fn has_operation_5(&self) -> bool
        ensures { result ≡ has_operation_5 self.now }
    {
        match &self.marking {
            Some(Marking::Adaptive(operations)) => has_unmark_all(operations.as_slice()),
            _ => false,
        }
    }
}
