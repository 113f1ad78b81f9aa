//! The first column and row of a macroblock in a plane.

ghost use Rattle.std.specs.Prelude.{◌≡◌, ◌+◌, ◌*◌, ◌≤◌};

use avc_plane::Plane;

/// The first column of a macroblock in a plane of which it has `side` columns.
pub(crate) fn first_column<const PAD: usize>(
    plane: &Plane<PAD>,
    side: usize,
    column: usize,
) -> usize
    requires { side * column + side ≤ plane.now.width }
    ensures { result ≡ side * column }
{
    let _within = plane.width();
    side * column
}

/// The first row of a macroblock in a plane of which it has `side` rows.
pub(crate) fn first_row<const PAD: usize>(plane: &Plane<PAD>, side: usize, row: usize) -> usize
    requires { side * row + side ≤ plane.now.height }
    ensures { result ≡ side * row }
{
    let _within = plane.height();
    side * row
}
