//! What follows for a macroblock from its neighbours.

use avc_neigh::{Motion, NearMode};

/// What follows for a macroblock from its neighbours.
#[derive(Clone, Copy)]
pub struct Derived {
    /// Intra4x4PredMode of its luma blocks in block order (8.3.1.1).
    pub modes: [NearMode; 16],

    /// Reference index and vector of its luma blocks in block order (8.4.1); all absent where a
    /// component of one of its vectors is no 16-bit number.
    pub motion: [Motion; 16],
}
