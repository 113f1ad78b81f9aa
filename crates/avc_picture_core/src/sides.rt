//! Neighbours whose samples intra prediction may read (8.3.1.2, 8.3.3, 8.3.4).

ghost use Rattle.std.specs.Prelude.{◌≡◌, ℕ, ◌<◌, not, ◌||◌, if◌then◌else◌, true};
ghost use Rattle.std.specs.Option.{option_copied};
ghost use Rattle.avc_neigh.specs.Around.{info_of, is_intra_info};
ghost use Rattle.avc_neigh.specs.Blocks.{block_x, block_y};
ghost use Rattle.avc_neigh.specs.Laws.{holds_of};
ghost use Rattle.avc_intra.specs.declared.luma4x4.Mode4x4.{Mode4x4};
ghost use Rattle.avc_intra.specs.Luma4x4.{can_predict4x4};

use avc_intra::Sides;
use avc_neigh::{NeighbourInfo, Neighbours, is_leftmost, is_topmost};

/// Which neighbouring macroblocks (6.4.9) have samples that an intra prediction may read.
#[derive(Clone, Copy)]
pub struct ReadableNeighbours {
    /// mbAddrA, to the left.
    pub a: bool,

    /// mbAddrB, above.
    pub b: bool,

    /// mbAddrC, above right.
    pub c: bool,

    /// mbAddrD, above left.
    pub d: bool,
}

/// Whether the samples of a neighbour may be read.
fn is_readable(neighbour: Option<&NeighbourInfo>, constrained_intra_pred: bool) -> bool
    ensures { result ≡ holds_of (λ f. not constrained_intra_pred
        || is_intra_info f) (option_copied neighbour.entry) }
{
    match neighbour {
        None => false,
        Some(info) => !constrained_intra_pred || info.is_intra(),
    }
}

impl ReadableNeighbours {
    ghost use Rattle.avc_picture_core.specs.Sides.{readable_near, readable_sides};

    /// Those of a macroblock with these neighbours, by constrained_intra_pred_flag.
    pub(crate) fn of(
        neighbours: &Neighbours<'_>,
        constrained_intra_pred: bool,
    ) -> ReadableNeighbours
        ensures { result ≡ readable_near constrained_intra_pred (info_of neighbours.now) }
    {
        ReadableNeighbours {
            a: is_readable(neighbours.a, constrained_intra_pred),
            b: is_readable(neighbours.b, constrained_intra_pred),
            c: is_readable(neighbours.c, constrained_intra_pred),
            d: is_readable(neighbours.d, constrained_intra_pred),
        }
    }

    /// The three neighbours that meet at the upper left corner have samples. Each block then has
    /// the sides that any mode needs.
    #[tactic(auto, using(crate::proofs::InterTiles::surrounded))]
    pub(crate) fn has_corner_neighbours(self) -> bool
        ensures { result ≡ true → (mode : Mode4x4) (k : ℕ) → k < 16 →
            can_predict4x4 (readable_sides self k) mode ≡ true }
    {
        self.a & self.b & self.d
    }

    /// The corner of a block that stands so in its macroblock.
    fn corner(self, leftmost: bool, topmost: bool) -> bool
        ensures { result
            ≡ (if topmost then (if leftmost then self.d else self.b)
            else (if leftmost then self.a else true)) }
    {
        if topmost {
            if leftmost { self.d } else { self.b }
        } else {
            !leftmost || self.a
        }
    }

    /// The samples above and right of block `k`.
    fn above_right(self, k: usize) -> bool
        requires { k < 16 }
        ensures { result ≡ (readable_sides self k).above_right }
    {
        if is_topmost(k) {
            if k == LAST_ABOVE { self.c } else { self.b }
        } else {
            IS_EARLIER_ABOVE_RIGHT[k]
        }
    }

    /// The sides of luma block `k`. Those of block 0 are the sides of the macroblock too, for its
    /// luma and its chroma.
    pub(crate) fn sides(self, k: usize) -> Sides
        requires { k < 16 }
        ensures { result ≡ readable_sides self k }
    {
        let leftmost = is_leftmost(k);
        let topmost = is_topmost(k);
        Sides {
            above: !topmost || self.b,
            above_right: self.above_right(k),
            left: !leftmost || self.a,
            corner: self.corner(leftmost, topmost),
        }
    }
}

/// The last block of the first row.
const LAST_ABOVE: usize = 5;

/// For each luma block: the block above right of it is one of the same macroblock before it.
const IS_EARLIER_ABOVE_RIGHT: [bool; 16] = [
    false, false, true, false, false, false, true, false, true, true, true, false, true, false,
    true, false,
];
