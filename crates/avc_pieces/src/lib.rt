//! That pieces of a stream decode to what the stream does: a law, over the definitions alone.
#![tactic(auto)]

ghost use Rattle.avc_pieces.specs.Laws.{PiecesDecodeAlike};

use avc_annexb::laws::{units_are_whole, units_are_within, written_units_stand_alone};
use avc_laws::{events_keep_but_numbers, start_units_begin_anew};
use avc_units::laws::{sets_are_in_force_again, sets_in_force_are_units};

/// Where a whole stream has no refusal, and no IDR picture but the first drops the pictures before
/// it, its pictures are those of its pieces, each ended, joined in order, but for the numbers of
/// their units, which each piece counts anew.
///
/// It says nothing of streams with a refusal: a piece may decode what the whole refuses, since each
/// begins anew.
pub fn pieces_decode_alike()
    ensures { PiecesDecodeAlike }
{
    sets_are_in_force_again();
    sets_in_force_are_units();
    events_keep_but_numbers();
    start_units_begin_anew();
    written_units_stand_alone();
    units_are_within();
    units_are_whole();
}
