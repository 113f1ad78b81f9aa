//! The neighbouring macroblocks of the next one (6.4.9).

use crate::neighbour_info::NeighbourInfo;

/// The neighbouring macroblocks of the one that comes next (6.4.9), each where it is available: in
/// the picture, decoded earlier and of the same slice.
#[derive(Clone, Copy)]
pub struct Neighbours<'a> {
    /// mbAddrA, to the left.
    pub a: Option<&'a NeighbourInfo>,

    /// mbAddrB, above.
    pub b: Option<&'a NeighbourInfo>,

    /// mbAddrC, above right.
    pub c: Option<&'a NeighbourInfo>,

    /// mbAddrD, above left.
    pub d: Option<&'a NeighbourInfo>,
}
