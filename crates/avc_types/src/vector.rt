//! Motion vectors (8.4.1).

/// A motion vector (8.4.1), in quarter luma samples.
#[derive(Clone, Copy)]
pub struct Mv {
    /// To the right.
    pub x: i16,

    /// Down.
    pub y: i16,
}
