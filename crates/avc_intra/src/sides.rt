//! The sides of a block on which samples are available for intra prediction.

/// The sides of a block whose samples are available for intra prediction (clauses 8.3.1.2, 8.3.3
/// and 8.3.4). A side is of one block or macroblock, so its samples are available together.
#[derive(Clone, Copy)]
pub struct Sides {
    /// The samples above the block.
    pub above: bool,
    /// The four samples above to the right. Only 4x4 luma blocks ask for them.
    pub above_right: bool,
    /// The samples left of the block.
    pub left: bool,
    /// The sample above to the left.
    pub corner: bool,
}

impl Sides {
    ghost use Rattle.std.specs.Prelude.{◌≡◌};
    ghost use Rattle.avc_intra.specs.Neighbourhood.{has_corner_sides};

    /// All three of the sides that meet at the corner are available.
    pub fn has_corner_sides(self) -> bool
        ensures { result ≡ has_corner_sides self }
    {
        self.above && self.left && self.corner
    }
}
