//! Where a macroblock lies in a picture, and where its edges lie.

ghost use Rattle.std.specs.Prelude.{◌≡◌, ◌+◌, ◌*◌, ◌^◌, ◌<◌, ◌≤◌, true, false};

/// A macroblock of a picture by its column and its row of macroblocks, with what all chroma QPs of
/// the picture depend on.
#[derive(Clone, Copy)]
pub struct Place {
    /// Macroblocks left of it.
    pub column: usize,

    /// Rows of macroblocks above it.
    pub row: usize,

    /// chroma_qp_index_offset of the picture (7.4.2.2): -12 to 12.
    pub chroma_qp_index_offset: i8,

    pub ghost columns_fit: { 16 * column + 16 < 2 ^ 64 },
    pub ghost rows_fit: { 16 * row + 16 < 2 ^ 64 },
}

/// An edge of a macroblock.
#[derive(Clone, Copy)]
pub(crate) struct MbEdge {
    pub(crate) is_vertical: bool,

    /// 0 to 3 from the left side on where it is vertical, else from the upper side on.
    pub(crate) n: usize,

    ghost low: { n < 4 },
}

/// A vertical edge of the macroblock at a place, which lies inside the picture.
#[derive(Clone, Copy)]
pub(crate) struct VerticalEdge {
    /// 0 to 3 from its left side on.
    pub(crate) n: usize,
    pub(crate) place: Place,

    ghost low: { n < 4 },
    ghost across: { 1 ≤ 4 * place.column + n },
}

/// A luma block on each side of an edge, by their numbers in block order.
#[derive(Clone, Copy)]
pub(crate) struct BlockPair {
    pub(crate) p: usize,
    pub(crate) q: usize,

    ghost p_low: { p < 16 },
    ghost q_low: { q < 16 },
}

/// An edge of the macroblock at a place, which lies inside the picture.
#[derive(Clone, Copy)]
pub(crate) struct EdgePlace {
    pub(crate) edge: MbEdge,
    pub(crate) place: Place,

    ghost across: { edge.is_vertical ≡ true → 1 ≤ 4 * place.column + edge.n },
    ghost down: { edge.is_vertical ≡ false → 1 ≤ 4 * place.row + edge.n },
}
