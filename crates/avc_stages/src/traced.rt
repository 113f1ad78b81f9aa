//! A sample before and after deblocking, and the other's.

/// A sample of a macroblock of two decoders.
#[derive(Clone, Copy)]
pub struct TracedSample {
    /// Ours, after deblocking (8.7).
    pub ours: u8,

    /// Ours before deblocking: as it is predicted, with its residual (8.3, 8.4, 8.5).
    pub before: u8,

    /// The other's.
    pub theirs: u8,
}
