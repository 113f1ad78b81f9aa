//! Where blocks of both chroma components are read and written.

ghost use Rattle.std.specs.Prelude.{◌≤◌};

use avc_plane::{PaddedPlane, RowsPlace};

/// The chroma planes of a reference picture.
#[derive(Clone, Copy)]
pub struct ChromaPlanes<'a, const PAD: usize> {
    pub cb: &'a PaddedPlane<PAD>,
    pub cr: &'a PaddedPlane<PAD>,
}

/// Where the rows of both begin that are read.
#[derive(Clone, Copy)]
pub struct BothPlaces {
    pub cb: RowsPlace,
    pub cr: RowsPlace,
}

/// Where the rows of both begin that W columns of pairs of rows are written into.
#[derive(Clone, Copy)]
pub struct BothTargets<const W: usize> {
    pub cb: RowsPlace,
    pub cr: RowsPlace,
    pub pairs: usize,

    ghost columns: { W ≤ 8 },
    ghost few: { pairs ≤ 4 },
    ghost apart_cb: { W ≤ cb.stride },
    ghost apart_cr: { W ≤ cr.stride },
}
