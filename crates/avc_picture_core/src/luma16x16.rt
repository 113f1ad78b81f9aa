//! The prediction of the luma of an Intra 16x16 macroblock (8.3.3).
ghost use Rattle.std.specs.Prelude.{◌≡◌, ℕ, ◌*◌, true};
ghost use Rattle.std.specs.Option.{unwrap_or};
ghost use Rattle.avc_plane.specs.Plane.{with_block};
ghost use Rattle.avc_intra.specs.Luma16x16.{can_predict16x16, intra16x16};
ghost use Rattle.avc_picture_core.specs.Built.{seen_from};
ghost use Rattle.avc_picture_core.specs.Places.{HasMacroblock, IsSameSize};
ghost use Rattle.avc_picture_core.specs.Sides.{AreInside};

use crate::corner::{first_column, first_row};
use crate::places::MbPlace;
use avc_intra::{Mode16x16, Sides, lay16x16};
use avc_plane::Plane;

/// Gives the luma of a macroblock its prediction.
pub(crate) fn predict_luma16x16<const PAD: usize>(
    plane: &mut Plane<PAD>,
    place: MbPlace,
    sides: Sides,
    mode: Mode16x16,
)
    requires macroblock { HasMacroblock 16 place.column place.row plane.old }
    requires mode { can_predict16x16 sides mode ≡ true }
    ensures size { IsSameSize plane.old plane.new }
    ensures samples { AreInside (16 * place.column) (16 * place.row) plane.old.width sides →
        plane.new ≡ with_block plane.old (16 * place.column) (16 * place.row) 16 16
        (λ x y. unwrap_or
        (intra16x16 sides (seen_from plane.old (16 * place.column) (16 * place.row)) mode x y)
        0) }
{
    let left = first_column(plane, 16, place.column);
    let top = first_row(plane, 16, place.row);
    let at = plane.padded_place(left, top);
    lay16x16(plane.padded_rows_mut(), at, sides, mode);
}
