//! An edge of all three planes, with the limits of its two macroblocks.

ghost use Rattle.std.specs.Prelude.{◌≡◌, ℕ, ◌+◌, ◌*◌, ◌<◌, ◌≤◌, true, false};
ghost use Rattle.avc_plane.specs.Frames.{planes_of};
ghost use Rattle.avc_edges.specs.OneEdge.{AreLimits};
ghost use Rattle.avc_edges.specs.Settings.{strengths_of};
ghost use Rattle.avc_edges.specs.declared.thresholds.EdgeQp.{EdgeQp as Qps};
ghost use Rattle.avc_deblock.specs.OneEdge.{HasChromaRoom, HasRoom, KeepsRoom};
ghost use Rattle.avc_deblock.specs.ByInfo.{edge_by_info, luma_qp_of, chroma_qp_of, HasStrengths};
ghost use Rattle.avc_deblock.specs.Places.{edge_at, chroma_lines_at, luma_lines_at};
ghost use Rattle.avc_deblock.specs.Places.{AreLimitsAt};

use crate::edge_strengths::edge_strengths;
use crate::mb_info::MbInfo;
use crate::place::{EdgePlace, MbEdge, Place};
use avc_edges::{
    EdgeQp, EdgeSettings, NO_LIMITS, QpLimits, Strengths, filter_luma, horizontal_chroma,
    vertical_chroma,
};
use avc_plane::{Plane, Planes};
use avc_transform::chroma_qp;

/// What all lines between two macroblocks are filtered with.
#[derive(Clone, Copy)]
pub(crate) struct PairLimits {
    pub(crate) luma: QpLimits,
    pub(crate) chroma: QpLimits,
}

#[inline(always)]
fn luma_qps(p: &MbInfo, q: &MbInfo) -> EdgeQp
    ensures { result ≡ luma_qp_of p.now q.now }
{
    EdgeQp {
        p: p.qp,
        q: q.qp,
        offset_a: q.offset_a,
        offset_b: q.offset_b,
    }
}

#[inline(always)]
fn chroma_qps(p: &MbInfo, q: &MbInfo, place: Place) -> EdgeQp
    ensures { result ≡ chroma_qp_of place.chroma_qp_index_offset p.now q.now }
{
    EdgeQp {
        p: chroma_qp(place.chroma_qp_index_offset, p.qp),
        q: chroma_qp(place.chroma_qp_index_offset, q.qp),
        offset_a: q.offset_a,
        offset_b: q.offset_b,
    }
}

/// What stands for limits that are not made yet.
pub(crate) const NO_PAIR_LIMITS: PairLimits = PairLimits {
    luma: NO_LIMITS,
    chroma: NO_LIMITS,
};

impl PairLimits {
    /// Makes them those between `p` and `q`, with the offsets of the slice of `q`.
    #[inline(always)]
    pub(crate) fn set(&mut self, p: &MbInfo, q: &MbInfo, place: Place)
        ensures { AreLimitsAt place self.new p.now q.now }
    {
        self.luma.set(luma_qps(p, q));
        self.chroma.set(chroma_qps(p, q, place));
    }
}

/// Filters the sixteen lines of luma across an edge.
#[inline(always)]
pub(crate) fn luma_of<const PAD: usize>(
    luma: &mut Plane<PAD>,
    at: EdgePlace,
    settings: EdgeSettings<'_>,
)
    requires columns { 16 * at.place.column + 16 ≤ luma.old.width }
    requires rows { 16 * at.place.row + 16 ≤ luma.old.height }
    ensures { (qp : Qps) → AreLimits settings.entry.limits.now qp →
        luma.new ≡ luma_lines_at at (strengths_of settings.entry) qp luma.old }
{
    let (left, top) = (16 * at.place.column, 16 * at.place.row);
    let behind = 4 * at.edge.n;
    if at.edge.is_vertical {
        filter_luma::<true, PAD>(luma, left + behind - 4, top, settings);
    } else {
        filter_luma::<false, PAD>(luma, left, top + behind - 4, settings);
    }
}

/// Filters the lines of both components of chroma across an edge, of which they have every second.
#[inline(always)]
pub(crate) fn chroma_of<const PAD: usize>(
    cb: &mut Plane<PAD>,
    cr: &mut Plane<PAD>,
    at: EdgePlace,
    settings: EdgeSettings<'_>,
)
    requires room { HasChromaRoom at.place.column at.place.row cb.old cr.old }
    ensures cb { (qp : Qps) → AreLimits settings.entry.limits.now qp →
        cb.new ≡ chroma_lines_at at (strengths_of settings.entry) qp cb.old }
    ensures cr { (qp : Qps) → AreLimits settings.entry.limits.now qp →
        cr.new ≡ chroma_lines_at at (strengths_of settings.entry) qp cr.old }
{
    if at.edge.n % 2 != 0 {
        return;
    }
    let (left, top) = (8 * at.place.column, 8 * at.place.row);
    let behind = 2 * at.edge.n;
    if at.edge.is_vertical {
        vertical_chroma(cb, cr, left + behind - 4, top, settings);
    } else {
        horizontal_chroma(cb, cr, left, top + behind - 4, settings);
    }
}

/// Filters an edge of macroblock `q` in all planes at these strengths. `p` is the macroblock on the
/// other side.
#[inline(always)]
pub(crate) fn edge_at<const PAD: usize>(
    planes: &mut Planes<PAD>,
    p: &MbInfo,
    q: &MbInfo,
    at: EdgePlace,
    strengths: &Strengths,
    limits: &PairLimits,
)
    requires room { HasRoom at.place.column at.place.row (planes_of planes.old) }
    requires limits { AreLimitsAt at.place limits.now p.now q.now }
    requires strengths { HasStrengths strengths.now p.now q.now at.edge.is_vertical at.edge.n }
    ensures room { KeepsRoom (planes_of planes.old) (planes_of planes.new) }
    ensures lines { planes_of planes.new ≡ edge_at at p.now q.now (planes_of planes.old) }
{
    let (_p, _q) = (p, q);
    let luma = EdgeSettings {
        strengths,
        limits: &limits.luma,
    };
    luma_of(&mut planes.luma, at, luma);
    let chroma = EdgeSettings {
        strengths,
        limits: &limits.chroma,
    };
    chroma_of(&mut planes.cb, &mut planes.cr, at, chroma);
}

/// Filters an edge of all planes at the strengths between the two macroblocks.
#[inline(always)]
#[tactic(auto, using(crate::proofs::FilteredPictures::edge_zero))]
pub(crate) fn edge_between<const PAD: usize>(
    planes: &mut Planes<PAD>,
    p: &MbInfo,
    q: &MbInfo,
    at: EdgePlace,
    limits: &PairLimits,
)
    requires room { HasRoom at.place.column at.place.row (planes_of planes.old) }
    requires limits { AreLimitsAt at.place limits.now p.now q.now }
    ensures room { KeepsRoom (planes_of planes.old) (planes_of planes.new) }
    ensures lines { planes_of planes.new ≡ edge_at at p.now q.now (planes_of planes.old) }
{
    let strengths = edge_strengths(p, q, at.edge);
    if strengths.are_zero() {
        return;
    }
    edge_at(planes, p, q, at, &strengths, limits);
}

/// Filters edge `n` of macroblock `q` in all planes, on the samples as the edge before it left
/// them: 0 to 3 from its left edge on where it is VERTICAL, else from its upper edge on. `p` is the
/// macroblock on the other side, which is `q` itself but at edge 0. Chroma has every second edge.
pub fn edge<const VERTICAL: bool, const PAD: usize>(
    planes: &mut Planes<PAD>,
    p: &MbInfo,
    q: &MbInfo,
    n: usize,
    place: Place,
)
    requires edge { n < 4 }
    requires vertical { VERTICAL ≡ true → 1 ≤ 4 * place.column + n }
    requires horizontal { VERTICAL ≡ false → 1 ≤ 4 * place.row + n }
    requires room { HasRoom place.column place.row (planes_of planes.old) }
    ensures room { KeepsRoom (planes_of planes.old) (planes_of planes.new) }
    ensures lines { planes_of planes.new
        ≡ edge_by_info VERTICAL place.column place.row n place.chroma_qp_index_offset p.now q.now
        (planes_of planes.old) }
{
    let mut limits = NO_PAIR_LIMITS;
    limits.set(p, q, place);
    let edge = MbEdge {
        is_vertical: VERTICAL,
        n,
    };
    edge_between(planes, p, q, EdgePlace { edge, place }, &limits);
}
