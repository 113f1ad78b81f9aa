//! The edges of one macroblock, in the order of the standard (8.7).

ghost use Rattle.std.specs.Prelude.{◌≡◌, ℕ, ◌+◌, ◌*◌, ◌<◌, ◌≤◌, ◌&&◌, true, false};
ghost use Rattle.avc_plane.specs.Frames.{planes_of};
ghost use Rattle.avc_edges.specs.OneEdge.{AreStrengths, strength_along};
ghost use Rattle.avc_deblock.specs.OneEdge.{HasRoom, KeepsRoom};
ghost use Rattle.avc_deblock.specs.FilterInfo.{filters_between};
ghost use Rattle.avc_deblock.specs.MbLimits.{AreRowLimits};
ghost use Rattle.avc_deblock.specs.MbStrengths.{AreFrom};
ghost use Rattle.avc_deblock.specs.ByInfo.{mb_by_info, strength_of, HasStrengths};
ghost use Rattle.avc_deblock.specs.Places.{edges_at, AreLimitsAt};
ghost use Rattle.avc_deblock.specs.InnerEdges.{inner_edge_at, inner_edges_at};

use crate::horizontal_edges::inner_intra_edges;
use crate::inner_edges::InnerEdges;
use crate::kept_limits::RowLimits;
use crate::known_mb::KnownMb;
use crate::mb_info::MbInfo;
use crate::mb_strengths::MbStrengths;
use crate::place::{EdgePlace, MbEdge, Place};
use crate::planes_edge::{PairLimits, edge_at};
use crate::vertical_edges::vertical_edges;
use avc_edges::{Strengths, all_three, both};
use avc_plane::Planes;
use avc_types::FilteredEdges;

impl MbInfo {
    /// The edge to macroblock `other`, which may be this one itself, is filtered.
    #[inline(always)]
    fn filters_edge_to(&self, other: &MbInfo) -> bool
        ensures { result ≡ filters_between self.now other.now }
    {
        match self.filtered_edges {
            FilteredEdges::All => true,
            FilteredEdges::NoEdges => false,
            FilteredEdges::WithinSlice => self.slice == other.slice,
        }
    }
}

/// The edge to a neighbour.
#[derive(Clone, Copy)]
struct OuterEdge {
    /// It is to be filtered. At strength 0 it need not be.
    is_filtered: bool,

    strengths: Strengths,
}

impl MbInfo {
    /// The strengths along the outer edge to `other`, by those of this macroblock.
    #[inline(always)]
    fn outer_strengths(
        &self,
        other: &MbInfo,
        is_vertical: bool,
        strengths: &MbStrengths,
    ) -> Strengths
        requires { AreFrom strengths.now is_vertical other.now self.now }
        ensures low { AreStrengths result }
        ensures value { (k : ℕ) → k < 4 →
            strength_along result k ≡ strength_of other.now self.now is_vertical 0 k }
    {
        if self.is_intra | other.is_intra {
            Strengths::Four
        } else {
            Strengths::BelowFour(strengths.at(is_vertical, 0))
        }
    }

    /// The outer edge to `other`, where `other` exists. `strengths` are those of this macroblock.
    #[inline(always)]
    fn edge_to(
        &self,
        other: &MbInfo,
        is_vertical: bool,
        exists: bool,
        strengths: &MbStrengths,
    ) -> OuterEdge
        requires { AreFrom strengths.now is_vertical other.now self.now }
        ensures on { result.is_filtered ≡ true →
            (exists && filters_between self.now other.now) ≡ true }
        ensures off { result.is_filtered ≡ false →
            (exists && filters_between self.now other.now) ≡ true →
            (k : ℕ) → k < 4 → strength_of other.now self.now is_vertical 0 k ≡ 0 }
        ensures strengths { HasStrengths result.strengths other.now self.now is_vertical 0 }
    {
        let along = self.outer_strengths(other, is_vertical, strengths);
        let may = both(exists, self.filters_edge_to(other));
        OuterEdge {
            is_filtered: both(may, !along.are_zero()),
            strengths: along,
        }
    }
}

/// Filters the edge of macroblock `q` to `p`, where it is to be filtered.
#[inline(always)]
fn outer_edge<const PAD: usize>(
    planes: &mut Planes<PAD>,
    p: &MbInfo,
    q: &MbInfo,
    is_vertical: bool,
    outer: OuterEdge,
    limits: &PairLimits,
    place: Place,
)
    requires vertical { outer.is_filtered ≡ true → is_vertical ≡ true → 1 ≤ place.column }
    requires horizontal { outer.is_filtered ≡ true → is_vertical ≡ false → 1 ≤ place.row }
    requires room { HasRoom place.column place.row (planes_of planes.old) }
    requires limits { outer.is_filtered ≡ true →
        AreLimitsAt place limits.now p.now q.now }
    requires strengths { outer.is_filtered ≡ true →
        HasStrengths outer.strengths p.now q.now is_vertical 0 }
    ensures room { KeepsRoom (planes_of planes.old) (planes_of planes.new) }
    ensures lines { planes_of planes.new
        ≡ edges_at place is_vertical outer.is_filtered false p.now q.now (planes_of planes.old) }
{
    if outer.is_filtered {
        let edge = MbEdge { is_vertical, n: 0 };
        let at = EdgePlace { edge, place };
        edge_at(planes, p, q, at, &outer.strengths, limits);
    }
}

/// Filters edge `n` inside a macroblock.
#[inline(always)]
#[tactic(auto, using(crate::proofs::FilteredPictures::edge_zero))]
fn inner_edge<const PAD: usize>(
    planes: &mut Planes<PAD>,
    inner: InnerEdges<'_>,
    is_vertical: bool,
    n: usize,
)
    requires some { 1 ≤ n }
    requires edge { n < 4 }
    requires room { HasRoom inner.place.column inner.place.row (planes_of planes.old) }
    ensures room { KeepsRoom (planes_of planes.old) (planes_of planes.new) }
    ensures lines { planes_of planes.new
        ≡ inner_edge_at inner.entry is_vertical n (planes_of planes.old) }
{
    let (q, place) = (inner.q, inner.place);
    let edge = MbEdge { is_vertical, n };
    let strengths = inner.strengths_at(is_vertical, n);
    if strengths.are_zero() {
        return;
    }
    let at = EdgePlace { edge, place };
    edge_at(planes, q, q, at, &strengths, inner.limits);
}

/// Filters the vertical edges inside a macroblock.
#[inline(always)]
fn inner_vertical<const PAD: usize>(planes: &mut Planes<PAD>, inner: InnerEdges<'_>)
    requires { HasRoom inner.place.column inner.place.row (planes_of planes.old) }
    ensures room { KeepsRoom (planes_of planes.old) (planes_of planes.new) }
    ensures lines { planes_of planes.new
        ≡ inner_edges_at inner.entry true (planes_of planes.old) }
{
    if inner.are_filtered {
        inner_edge(planes, inner, true, 1);
        inner_edge(planes, inner, true, 2);
        inner_edge(planes, inner, true, 3);
    }
}

/// Filters the vertical edges of a macroblock; `p` lies left of it, with these limits between both.
#[inline(always)]
fn all_vertical<const PAD: usize>(
    planes: &mut Planes<PAD>,
    p: &MbInfo,
    outer: OuterEdge,
    left: &PairLimits,
    inner: InnerEdges<'_>,
)
    requires some { outer.is_filtered ≡ true → 1 ≤ inner.place.column }
    requires strengths { outer.is_filtered ≡ true →
        HasStrengths outer.strengths p.now inner.q.now true 0 }
    requires room { HasRoom inner.place.column inner.place.row (planes_of planes.old) }
    requires left { outer.is_filtered ≡ true → AreLimitsAt inner.place left.now p.now inner.q.now }
    ensures room { KeepsRoom (planes_of planes.old) (planes_of planes.new) }
    ensures lines { planes_of planes.new ≡ inner_edges_at inner.entry true
        (edges_at inner.entry.place true outer.is_filtered false p.now inner.entry.q.now
        (planes_of planes.old)) }
{
    if outer.is_filtered && inner.are_filtered {
        vertical_edges(planes, p, &outer.strengths, left, inner);
    } else {
        outer_edge(planes, p, inner.q, true, outer, left, inner.place);
        inner_vertical(planes, inner);
    }
}

/// Filters the horizontal edges inside a macroblock.
#[inline(always)]
fn inner_horizontal<const PAD: usize>(planes: &mut Planes<PAD>, inner: InnerEdges<'_>)
    requires { HasRoom inner.place.column inner.place.row (planes_of planes.old) }
    ensures room { KeepsRoom (planes_of planes.old) (planes_of planes.new) }
    ensures lines { planes_of planes.new
        ≡ inner_edges_at inner.entry false (planes_of planes.old) }
{
    if !inner.are_filtered {
        return;
    }
    if inner.q.is_intra {
        inner_intra_edges(planes, inner.q, inner.limits, inner.place);
    } else {
        inner_edge(planes, inner, false, 1);
        inner_edge(planes, inner, false, 2);
        inner_edge(planes, inner, false, 3);
    }
}

/// Filters all edges of macroblock `mb`. `left` and `above` are the macroblocks there, and any
/// where there is none.
pub(crate) fn macroblock<const PAD: usize>(
    planes: &mut Planes<PAD>,
    mb: KnownMb<'_>,
    left: KnownMb<'_>,
    above: &MbInfo,
    kept: &mut RowLimits,
    place: Place,
)
    requires room { HasRoom place.column place.row (planes_of planes.old) }
    requires kept { AreRowLimits kept.old place.chroma_qp_index_offset }
    ensures room { KeepsRoom (planes_of planes.old) (planes_of planes.new) }
    ensures kept { AreRowLimits kept.new place.chroma_qp_index_offset }
    ensures lines { planes_of planes.new
        ≡ mb_by_info place.chroma_qp_index_offset place.column place.row left.entry.info.now above.now
        mb.entry.info.now (planes_of planes.old) }
{
    let strengths = MbStrengths::of(mb, left, above);
    let (q, p) = (mb.info, left.info);
    let are_filtered = both(q.filters_edge_to(q), !strengths.are_zero_inside());
    let from_left = q.edge_to(p, true, place.column > 0, &strengths);
    let from_above = q.edge_to(above, false, place.row > 0, &strengths);
    let idle = all_three(
        !are_filtered,
        !from_left.is_filtered,
        !from_above.is_filtered,
    );
    if idle {
        return;
    }
    kept.fit(
        q,
        from_left.is_filtered.then_some(p),
        from_above.is_filtered.then_some(above),
        place,
    );
    let inner = InnerEdges {
        q,
        place,
        are_filtered,
        strengths: &strengths,
        limits: &kept.inside.limits,
    };
    all_vertical(planes, p, from_left, &kept.left.limits, inner);
    outer_edge(
        planes,
        above,
        q,
        false,
        from_above,
        &kept.above.limits,
        place,
    );
    inner_horizontal(planes, inner);
}
