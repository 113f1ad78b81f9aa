//! disable_deblocking_filter_idc (7.4.3).

/// disable_deblocking_filter_idc (7.4.3): which edges of a slice's macroblocks are filtered.
#[derive(Clone, Copy)]
pub enum FilteredEdges {
    /// 0.
    All,

    /// 1.
    NoEdges,

    /// 2: all but those to other slices.
    WithinSlice,
}
