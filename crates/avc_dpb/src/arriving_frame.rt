//! A frame that comes into the buffer (C.4.5).

/// What output asks of a frame that comes into the buffer: a decoded picture, or a non-existing
/// frame, which stands for a missing frame number.
#[derive(Clone, Copy)]
pub struct ArrivingFrame {
    /// PicOrderCnt; any number for a non-existing frame.
    pub pic_order_cnt: i32,

    /// No for a non-existing frame.
    pub existing: bool,

    /// nal_ref_idc is not 0. A non-existing frame is stored like a reference picture, whatever
    /// stands here.
    pub is_reference: bool,

    /// The buffer's size in frames, 1 to 16.
    pub capacity: usize,

    /// max_num_reorder_frames: at most so many pictures stay needed for output under
    /// `Output::Early`; none: no limit.
    pub max_num_reorder_frames: Option<u32>,
}
