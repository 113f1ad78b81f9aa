//! What is told of each block of a macroblock.

/// What is told of each block of a macroblock.
#[derive(Clone, Copy)]
pub enum BlockFacts {
    /// total_coeff.
    TotalCoeff,

    /// Its levels, up to the last that is not 0.
    CoeffLevel,
}
