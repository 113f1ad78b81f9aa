//! Which edges of a macroblock are filtered, and how strongly.

ghost use Rattle.std.specs.Prelude.{◌≡◌, ℕ, ◌<◌, ◌≤◌, Option, slice_index_or};
ghost use Rattle.std.specs.Option.{option_copied};
ghost use Rattle.avc_deblock.specs.FilterInfo.{edge_block, filters_between};
ghost use Rattle.avc_stages.specs.Strengths.{no_edge, AreEdges, AreStrengths, IsEdge, IsStrength};
ghost use Rattle.avc_deblock.specs.declared.mb_info.MbInfo.{MbInfo as Info};

use avc_deblock::{MbInfo, strength};
use avc_types::FilteredEdges;

/// An edge of a macroblock (8.7).
#[derive(Clone, Copy)]
pub struct Edge {
    /// Whether it is filtered: an edge of the picture, or of a slice, need not be.
    pub is_filtered: bool,

    /// Where it is, the strength bS of each quarter of it (8.7.2.1), from above or from the left.
    pub strengths: [u8; 4],
}

/// The edges of a macroblock, from its left and from its upper one on, four luma samples apart
/// (8.7).
#[derive(Clone, Copy)]
pub struct MacroblockEdges {
    pub vertical: [Edge; 4],
    pub horizontal: [Edge; 4],
}

/// The edges of a macroblock, by what the filter is told of it and of those on the left and above,
/// where the picture has these.
pub fn edges_of(left: Option<&MbInfo>, above: Option<&MbInfo>, info: &MbInfo) -> MacroblockEdges
    ensures { AreEdges (option_copied left.entry) (option_copied above.entry) info.now result }
{
    MacroblockEdges {
        vertical: edges_along(true, left, info),
        horizontal: edges_along(false, above, info),
    }
}

// Its vertical or its horizontal edges; the first is to `outer`.
fn edges_along(is_vertical: bool, outer: Option<&MbInfo>, info: &MbInfo) -> [Edge; 4]
    ensures { (n : ℕ) → n < 4 →
        IsEdge is_vertical n (option_copied outer.entry) info.now
        (slice_index_or result n no_edge) }
{
    [
        outer_edge(is_vertical, outer, info),
        inner_edge(is_vertical, info, 1),
        inner_edge(is_vertical, info, 2),
        inner_edge(is_vertical, info, 3),
    ]
}

// The edge to another macroblock, if there is one.
fn outer_edge(is_vertical: bool, outer: Option<&MbInfo>, info: &MbInfo) -> Edge
    ensures { IsEdge is_vertical 0 (option_copied outer.entry) info.now result }
{
    match outer {
        Some(outer) => Edge {
            is_filtered: filters_between(info, outer),
            strengths: strengths_along(is_vertical, outer, info, 0),
        },
        None => Edge {
            is_filtered: false,
            strengths: [0; 4],
        },
    }
}

// An edge inside the macroblock.
fn inner_edge(is_vertical: bool, info: &MbInfo, n: usize) -> Edge
    requires first { 1 ≤ n }
    requires last { n < 4 }
    ensures { (outer : Option Info) → IsEdge is_vertical n outer info.now result }
{
    Edge {
        is_filtered: filters_between(info, info),
        strengths: strengths_along(is_vertical, info, info, n),
    }
}

// Whether the edge between two macroblocks is filtered.
fn filters_between(info: &MbInfo, other: &MbInfo) -> bool
    ensures { result ≡ filters_between info.now other.now }
{
    match info.filtered_edges {
        FilteredEdges::All => true,
        FilteredEdges::NoEdges => false,
        FilteredEdges::WithinSlice => info.slice == other.slice,
    }
}

// The strengths along an edge.
fn strengths_along(is_vertical: bool, p: &MbInfo, q: &MbInfo, n: usize) -> [u8; 4]
    requires { n < 4 }
    ensures { AreStrengths is_vertical n p.now q.now result }
{
    [
        strength_in(is_vertical, p, q, n, 0),
        strength_in(is_vertical, p, q, n, 1),
        strength_in(is_vertical, p, q, n, 2),
        strength_in(is_vertical, p, q, n, 3),
    ]
}

// The strength along one quarter of an edge.
fn strength_in(is_vertical: bool, p: &MbInfo, q: &MbInfo, n: usize, k: usize) -> u8
    requires n { n < 4 }
    requires k { k < 4 }
    ensures { IsStrength is_vertical n k p.now q.now result }
{
    strength(
        p,
        edge_block(is_vertical, (n + 3) % 4, k),
        q,
        edge_block(is_vertical, n, k),
        n > 0,
    )
}

// The luma block behind an edge in one quarter of it.
fn edge_block(is_vertical: bool, n: usize, k: usize) -> usize
    requires n { n < 4 }
    requires k { k < 4 }
    ensures value { result ≡ edge_block is_vertical n k }
    ensures low { result < 16 }
{
    let (x, y) = if is_vertical { (n, k) } else { (k, n) };
    8 * (y / 2) + 4 * (x / 2) + 2 * (y % 2) + x % 2
}
