//! Laws of pieces, over the definitions alone.

ghost use Rattle.avc_tools.specs.PieceSoFar.{PiecesAreWhole, PiecesStay};

use avc_annexb::laws::units_stay;

/// A piece whose stream comes is at the end the one that the whole stream has, and once the next
/// has begun it stays as it is, whatever follows.
#[tactic(auto, using(crate::proofs::Taking::pieces_are_whole, crate::proofs::Taking::pieces_stay))]
pub fn pieces_come_whole()
    ensures whole { PiecesAreWhole }
    ensures stay { PiecesStay }
{
    units_stay();
}
