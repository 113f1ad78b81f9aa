//! When pictures go out.

/// When pictures go out of the buffer.
#[derive(Clone, Copy, PartialEq, Eq)]
pub enum Output {
    /// Only where room is needed (C.4.5.3).
    Full,

    /// Also as soon as more pictures are needed for output than max_num_reorder_frames, where the
    /// sequence gives it (E.2.1).
    Early,
}
