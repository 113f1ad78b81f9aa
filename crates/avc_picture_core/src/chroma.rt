//! The prediction of the chroma of an intra macroblock (8.3.4).
ghost use Rattle.std.specs.Prelude.{◌≡◌, ℕ, ◌*◌, true};
ghost use Rattle.std.specs.Option.{unwrap_or};
ghost use Rattle.avc_plane.specs.Plane.{with_block};
ghost use Rattle.avc_intra.specs.Chroma.{can_predict_chroma, intra_chroma};
ghost use Rattle.avc_picture_core.specs.Built.{seen_from};
ghost use Rattle.avc_picture_core.specs.Places.{HasMacroblock, IsSameSize};
ghost use Rattle.avc_picture_core.specs.Sides.{AreInside};

use crate::corner::{first_column, first_row};
use crate::places::MbPlace;
use avc_intra::{ModeChroma, Sides, lay_chroma};
use avc_plane::Plane;

/// Gives one chroma component of a macroblock its prediction.
pub(crate) fn predict_component<const PAD: usize>(
    plane: &mut Plane<PAD>,
    place: MbPlace,
    sides: Sides,
    mode: ModeChroma,
)
    requires macroblock { HasMacroblock 8 place.column place.row plane.old }
    requires mode { can_predict_chroma sides mode ≡ true }
    ensures size { IsSameSize plane.old plane.new }
    ensures samples { AreInside (8 * place.column) (8 * place.row) plane.old.width sides →
        plane.new ≡ with_block plane.old (8 * place.column) (8 * place.row) 8 8
        (λ x y. unwrap_or
        (intra_chroma sides (seen_from plane.old (8 * place.column) (8 * place.row)) mode x y)
        0) }
{
    let left = first_column(plane, 8, place.column);
    let top = first_row(plane, 8, place.row);
    let at = plane.padded_place(left, top);
    lay_chroma(plane.padded_rows_mut(), at, sides, mode);
}
