//! Laws of neighbours: their definitions alone.

ghost use Rattle.avc_neigh.specs.Laws.{AvailabilityIsFound, ModesAreFound, MotionIsFound};
ghost use Rattle.avc_neigh.specs.Laws.{TotalCoeffsAreFound};

/// The blocks beside a macroblock, as its neighbours by address have them, are those that are found
/// by sample coordinates.
#[tactic(auto, using(crate::proofs::Found::blocks_found))]
pub fn blocks_are_found()
    ensures motion { MotionIsFound }
    ensures modes { ModesAreFound }
{}

/// total_coeff of the neighbours by address is that of the macroblocks that are found by sample
/// coordinates.
pub fn total_coeffs_are_found()
    ensures { TotalCoeffsAreFound }
{}

/// Which samples beside a macroblock are there, by its neighbours by address, is what sample
/// coordinates say.
#[tactic(auto, using(crate::proofs::Found::availability_found))]
pub fn availability_is_found()
    ensures { AvailabilityIsFound }
{}
