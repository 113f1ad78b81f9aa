//! Modifications, operations and marks of reference frames (7.3.3.1, 7.3.3.3, 8.2.5).

use crate::up_to::UpTo;

/// One entry of ref_pic_list_modification (7.3.3.1): modification_of_pic_nums_idc 0, 1 or 2 with
/// its number.
#[derive(Clone, Copy)]
pub enum Modification {
    /// 0, with abs_diff_pic_num_minus1.
    Subtract(u32),

    /// 1, with abs_diff_pic_num_minus1.
    Add(u32),

    /// 2, with long_term_pic_num.
    LongTerm(u32),
}

// What the unused places of a list hold.
impl Default for Modification {
    fn default() -> Modification {
        Modification::Subtract(0)
    }
}

/// One memory_management_control_operation, 1 to 6 (7.3.3.3).
#[derive(Clone, Copy, Default)]
pub enum Operation {
    /// 1: a short-term frame becomes unused, by difference_of_pic_nums_minus1.
    UnmarkShortTerm(u32),

    /// 2: a long-term frame becomes unused, by long_term_pic_num.
    UnmarkLongTerm(u32),

    /// 3: a short-term frame becomes long-term, by difference_of_pic_nums_minus1 and
    /// long_term_frame_idx.
    AssignLongTerm(u32, u32),

    /// 4: max_long_term_frame_idx_plus1.
    MaxLongTermFrameIdx(u32),

    /// 5: all frames become unused.
    #[default]
    UnmarkAll,

    /// 6: the current picture becomes long-term, with long_term_frame_idx.
    CurrentToLongTerm(u32),
}

/// dec_ref_pic_marking (7.3.3.3), where nal_ref_idc is not 0.
#[derive(Drop)]
pub enum Marking {
    /// Of an IDR picture.
    Idr {
        no_output_of_prior_pics_flag: bool,
        long_term_reference_flag: bool,
    },

    /// adaptive_ref_pic_marking_mode_flag 0.
    SlidingWindow,

    /// adaptive_ref_pic_marking_mode_flag 1.
    Adaptive(UpTo<Operation, 64>),
}

/// How a reference frame is marked (8.2.5).
#[derive(Clone, Copy)]
pub enum Mark {
    /// For short-term reference.
    Short,

    /// For long-term reference, with LongTermFrameIdx.
    Long(u32),
}
