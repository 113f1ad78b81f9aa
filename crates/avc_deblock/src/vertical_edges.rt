//! The four vertical edges of a macroblock: those of each component one after another, since no
//! component asks for the samples of another.

ghost use Rattle.std.specs.Prelude.{◌≡◌, ℕ, ◌+◌, ◌*◌, ◌<◌, ◌≤◌, true, false};
ghost use Rattle.avc_plane.specs.Frames.{planes_of};
ghost use Rattle.avc_deblock.specs.OneEdge.{HasChromaRoom, HasRoom, KeepsRoom};
ghost use Rattle.avc_deblock.specs.ByInfo.{luma_qp_of, chroma_qp_of, HasStrengths};
ghost use Rattle.avc_deblock.specs.Places.{edges_at, vertical_chroma_at, vertical_luma_at};
ghost use Rattle.avc_deblock.specs.Places.{inner_luma_at, AreLimitsAt, HasSettings};

use crate::inner_edges::InnerEdges;
use crate::mb_info::MbInfo;
use crate::place::{EdgePlace, MbEdge, Place, VerticalEdge};
use crate::planes_edge::{PairLimits, chroma_of, luma_of};
use avc_edges::{EdgeSettings, Strengths, both, filter_three_luma, two_vertical_chroma};
use avc_plane::{Plane, Planes};

/// Filters the luma lines across a vertical edge of macroblock `q`. `p` is the macroblock on the
/// other side.
#[inline(always)]
fn luma_between<const PAD: usize>(
    luma: &mut Plane<PAD>,
    p: &MbInfo,
    q: &MbInfo,
    at: VerticalEdge,
    settings: EdgeSettings<'_>,
)
    requires columns { 16 * at.place.column + 16 ≤ luma.old.width }
    requires rows { 16 * at.place.row + 16 ≤ luma.old.height }
    requires settings { HasSettings settings p.now q.now true at.n (luma_qp_of p.now q.now) }
    ensures width { luma.new.width ≡ luma.old.width }
    ensures height { luma.new.height ≡ luma.old.height }
    ensures lines { luma.new ≡ vertical_luma_at at.place at.n p.now q.now luma.old }
{
    let (_p, _q) = (p, q);
    if settings.strengths.are_zero() {
        return;
    }
    let (n, place) = (at.n, at.place);
    let edge = MbEdge {
        is_vertical: true,
        n,
    };
    luma_of(luma, EdgePlace { edge, place }, settings);
}

/// Filters the sixteen lines of luma across the three edges inside a macroblock, which has these
/// strengths in its middle. Those of an intra macroblock are equal everywhere.
#[inline(always)]
fn inner_luma<const PAD: usize>(luma: &mut Plane<PAD>, inner: InnerEdges<'_>, middle: &Strengths)
    requires columns { 16 * inner.place.column + 16 ≤ luma.old.width }
    requires rows { 16 * inner.place.row + 16 ≤ luma.old.height }
    requires middle { HasStrengths middle.now inner.q.now inner.q.now true 2 }
    ensures { luma.new ≡ inner_luma_at inner.entry.place inner.entry.q.now luma.old }
{
    let (q, place, limits) = (inner.q, inner.place, &inner.limits.luma);
    if q.is_intra {
        let left = 16 * place.column;
        filter_three_luma::<true, PAD>(luma, left, 16 * place.row, &[3; 4], limits);
        return;
    }
    let second = inner.strengths_at(true, 1);
    let before = EdgeSettings {
        strengths: &second,
        limits,
    };
    luma_between(luma, q, q, VerticalEdge { n: 1, place }, before);
    let middle = EdgeSettings {
        strengths: middle,
        limits,
    };
    luma_between(luma, q, q, VerticalEdge { n: 2, place }, middle);
    let last = inner.strengths_at(true, 3);
    let behind = EdgeSettings {
        strengths: &last,
        limits,
    };
    luma_between(luma, q, q, VerticalEdge { n: 3, place }, behind);
}

/// Filters the lines of both components of chroma across a vertical edge, of which they have every
/// second.
#[inline(always)]
fn chroma_between<const PAD: usize>(
    cb: &mut Plane<PAD>,
    cr: &mut Plane<PAD>,
    p: &MbInfo,
    q: &MbInfo,
    at: VerticalEdge,
    settings: EdgeSettings<'_>,
)
    requires room { HasChromaRoom at.place.column at.place.row cb.old cr.old }
    requires settings { HasSettings settings p.now q.now true at.n
        (chroma_qp_of at.place.chroma_qp_index_offset p.now q.now) }
    ensures cb_width { cb.new.width ≡ cb.old.width }
    ensures cb_height { cb.new.height ≡ cb.old.height }
    ensures cr_width { cr.new.width ≡ cr.old.width }
    ensures cr_height { cr.new.height ≡ cr.old.height }
    ensures cb { cb.new ≡ vertical_chroma_at at.place at.n p.now q.now cb.old }
    ensures cr { cr.new ≡ vertical_chroma_at at.place at.n p.now q.now cr.old }
{
    let (_p, _q) = (p, q);
    if settings.strengths.are_zero() {
        return;
    }
    let (n, place) = (at.n, at.place);
    let edge = MbEdge {
        is_vertical: true,
        n,
    };
    chroma_of(cb, cr, EdgePlace { edge, place }, settings);
}

/// Filters both components of chroma across the left edge of macroblock `q`, which `p` lies left
/// of, and across the edge in its middle.
#[inline(always)]
fn chroma_edges<const PAD: usize>(
    cb: &mut Plane<PAD>,
    cr: &mut Plane<PAD>,
    p: &MbInfo,
    q: &MbInfo,
    outer: EdgeSettings<'_>,
    middle: EdgeSettings<'_>,
    place: Place,
)
    requires some { 1 ≤ place.column }
    requires room { HasChromaRoom place.column place.row cb.old cr.old }
    requires outer { HasSettings outer p.now q.now true 0
        (chroma_qp_of place.chroma_qp_index_offset p.now q.now) }
    requires middle { HasSettings middle q.now q.now true 2
        (chroma_qp_of place.chroma_qp_index_offset q.now q.now) }
    ensures cb { cb.new ≡ vertical_chroma_at place 2 q.now q.now
        (vertical_chroma_at place 0 p.now q.now cb.old) }
    ensures cr { cr.new ≡ vertical_chroma_at place 2 q.now q.now
        (vertical_chroma_at place 0 p.now q.now cr.old) }
{
    let on = both(outer.limits.is_on, middle.limits.is_on);
    let some = both(!outer.strengths.are_zero(), !middle.strengths.are_zero());
    if both(on, some) {
        let left = 8 * place.column - 4;
        let top = 8 * place.row;
        two_vertical_chroma(cb, cr, left, top, outer, middle);
    } else {
        chroma_between(cb, cr, p, q, VerticalEdge { n: 0, place }, outer);
        chroma_between(cb, cr, q, q, VerticalEdge { n: 2, place }, middle);
    }
}

/// Filters all four vertical edges of a macroblock; `p` lies left of it, with these strengths and
/// limits between both.
#[inline(always)]
pub(crate) fn vertical_edges<const PAD: usize>(
    planes: &mut Planes<PAD>,
    p: &MbInfo,
    outer: &Strengths,
    left: &PairLimits,
    inner: InnerEdges<'_>,
)
    requires some { 1 ≤ inner.place.column }
    requires outer { HasStrengths outer.now p.now inner.q.now true 0 }
    requires room { HasRoom inner.place.column inner.place.row (planes_of planes.old) }
    requires left { AreLimitsAt inner.place left.now p.now inner.q.now }
    ensures room { KeepsRoom (planes_of planes.old) (planes_of planes.new) }
    ensures lines { planes_of planes.new
        ≡ edges_at inner.entry.place true false true inner.entry.q.now inner.entry.q.now
        (edges_at inner.entry.place true true false p.now inner.entry.q.now
        (planes_of planes.old)) }
{
    let (q, place) = (inner.q, inner.place);
    let strengths = inner.strengths_at(true, 2);
    let first = EdgeSettings {
        strengths: outer,
        limits: &left.luma,
    };
    let at = VerticalEdge { n: 0, place };
    luma_between(&mut planes.luma, p, q, at, first);
    inner_luma(&mut planes.luma, inner, &strengths);
    let first = EdgeSettings {
        strengths: outer,
        limits: &left.chroma,
    };
    let middle = EdgeSettings {
        strengths: &strengths,
        limits: &inner.limits.chroma,
    };
    chroma_edges(&mut planes.cb, &mut planes.cr, p, q, first, middle, place);
}
