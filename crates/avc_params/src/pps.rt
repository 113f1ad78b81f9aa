//! A picture parameter set (7.3.2.2).

/// A picture parameter set (7.3.2.2). In each entropy_coding_mode_flag and num_slice_groups_minus1
/// are 0.
#[derive(Clone, Copy)]
pub struct Pps {
    /// 0 to 255.
    pub pic_parameter_set_id: u8,
    /// 0 to 31.
    pub seq_parameter_set_id: u8,
    pub bottom_field_pic_order_in_frame_present_flag: bool,
    /// 0 to 31.
    pub num_ref_idx_l0_default_active_minus1: u8,
    /// 0 to 31.
    pub num_ref_idx_l1_default_active_minus1: u8,
    /// P slices bring explicit weights (7.3.3.2).
    pub weighted_pred_flag: bool,
    /// 0 to 2.
    pub weighted_bipred_idc: u8,
    /// -26 to 25.
    pub pic_init_qp_minus26: i32,
    /// -26 to 25.
    pub pic_init_qs_minus26: i32,
    /// -12 to 12.
    pub chroma_qp_index_offset: i32,
    pub deblocking_filter_control_present_flag: bool,
    pub constrained_intra_pred_flag: bool,
    pub redundant_pic_cnt_present_flag: bool,
}
