//! Samples of a plane, lent to be read.

/// Samples of a plane, lent to be read where they lie.
#[derive(Clone, Copy)]
pub struct LentPlane<'a> {
    /// From the first sample on. Between the rows stand other samples of the plane and its padding.
    pub samples: &'a [u8],

    /// From the first sample of a row to that of the next.
    pub stride: usize,
}
