//! Edges of both chroma components together (8.7.2.2 to 8.7.2.4).

ghost use Rattle.std.specs.Prelude.{◌≡◌, ◌+◌, ◌≤◌, true, false};
ghost use Rattle.avc_edges.specs.Rows.{IsNearSet};
ghost use Rattle.avc_edges.specs.OneEdge.{chroma_filtered, chroma_setting};
ghost use Rattle.avc_edges.specs.OneEdge.{AreChromaFiltered, AreLimits};
ghost use Rattle.avc_edges.specs.Settings.{strengths_of};
ghost use Rattle.avc_edges.specs.declared.thresholds.EdgeQp.{EdgeQp as Qps};

use crate::block::{FourRows, rows_of, strong_chroma, transposed, weak_chroma};
use crate::pair::{beside, joined, nearest};
use crate::settings::{EdgeSettings, StrongSettings, WeakSettings};
use crate::strengths::Strengths;
use crate::table::samples_from;
use avc_plane::Plane;

/// Filters the lines of chroma down four rows of sixteen samples: eight lines of Cb, and then eight
/// of Cr.
#[inline(always)]
fn filter_chroma(t: &mut [u8; 128], rows: FourRows, settings: EdgeSettings<'_>)
    requires { settings.limits.now.is_on ≡ true }
    ensures lines { (qp : Qps) → AreLimits settings.entry.limits.now qp →
        AreChromaFiltered (chroma_setting (strengths_of settings.entry) qp) rows.from t.old t.new }
    ensures others { IsNearSet rows.from t.old t.new }
{
    let limits = settings.limits;
    match settings.strengths {
        Strengths::Four => strong_chroma(t, rows, &StrongSettings { limits }.of_lines()),
        Strengths::BelowFour(strengths) => {
            weak_chroma(t, rows, &WeakSettings { strengths, limits }.of_chroma())
        }
    }
}

/// Filters the eight lines of Cb and the eight of Cr across a vertical edge. The edge has `left +
/// 4` columns left of it, and `top` rows above its first line.
#[inline(never)]
#[tactic(auto, using(crate::proofs::EdgesOnPlane::edge_off))]
pub fn vertical_chroma<const PAD: usize>(
    cb: &mut Plane<PAD>,
    cr: &mut Plane<PAD>,
    left: usize,
    top: usize,
    settings: EdgeSettings<'_>,
)
    requires cb_columns { left + 8 ≤ cb.old.width }
    requires cb_rows { top + 8 ≤ cb.old.height }
    requires cr_columns { left + 8 ≤ cr.old.width }
    requires cr_rows { top + 8 ≤ cr.old.height }
    ensures cb { (qp : Qps) → AreLimits settings.entry.limits.now qp → cb.new
        ≡ chroma_filtered (strengths_of settings.entry) qp true (left + 4) top cb.old }
    ensures cr { (qp : Qps) → AreLimits settings.entry.limits.now qp → cr.new
        ≡ chroma_filtered (strengths_of settings.entry) qp true (left + 4) top cr.old }
{
    if !settings.limits.is_on {
        return;
    }
    let of_cb = cb.rectangle::<8, 8, 64>(left, top);
    let of_cr = cr.rectangle::<8, 8, 64>(left, top);
    let block = joined(&of_cb, &of_cr);
    let mut lines = transposed::<8, 64, 128>(&block);
    filter_chroma(&mut lines, FourRows { from: 32 }, settings);
    let after = rows_of(&lines);
    let new_cb = samples_from(&after, 0);
    let new_cr = samples_from(&after, 64);
    cb.set_rectangle::<8, 8, 64>(left, top, &new_cb);
    cr.set_rectangle::<8, 8, 64>(left, top, &new_cr);
}

/// Filters those across two vertical edges, the second four columns right of the first. The first
/// has `left + 4` columns left of it.
#[inline(never)]
pub fn two_vertical_chroma<const PAD: usize>(
    cb: &mut Plane<PAD>,
    cr: &mut Plane<PAD>,
    left: usize,
    top: usize,
    first: EdgeSettings<'_>,
    second: EdgeSettings<'_>,
)
    requires cb_columns { left + 12 ≤ cb.old.width }
    requires cb_rows { top + 8 ≤ cb.old.height }
    requires cr_columns { left + 12 ≤ cr.old.width }
    requires cr_rows { top + 8 ≤ cr.old.height }
    requires first_on { first.limits.now.is_on ≡ true }
    requires second_on { second.limits.now.is_on ≡ true }
    ensures cb { (qp next : Qps) → AreLimits first.entry.limits.now qp →
        AreLimits second.entry.limits.now next →
        cb.new ≡ chroma_filtered (strengths_of second.entry) next true (left + 8) top
        (chroma_filtered (strengths_of first.entry) qp true (left + 4) top cb.old) }
    ensures cr { (qp next : Qps) → AreLimits first.entry.limits.now qp →
        AreLimits second.entry.limits.now next →
        cr.new ≡ chroma_filtered (strengths_of second.entry) next true (left + 8) top
        (chroma_filtered (strengths_of first.entry) qp true (left + 4) top cr.old) }
{
    let _columns = cb.width();
    let of_cb = cb.rectangle::<8, 8, 64>(left + 2, top);
    let of_cr = cr.rectangle::<8, 8, 64>(left + 2, top);
    let block = joined(&of_cb, &of_cr);
    let mut lines = transposed::<8, 64, 128>(&block);
    filter_chroma(&mut lines, FourRows { from: 0 }, first);
    filter_chroma(&mut lines, FourRows { from: 64 }, second);
    let after = rows_of(&lines);
    let new_cb = samples_from(&after, 0);
    let new_cr = samples_from(&after, 64);
    cb.set_rectangle::<8, 8, 64>(left + 2, top, &new_cb);
    cr.set_rectangle::<8, 8, 64>(left + 2, top, &new_cr);
}

/// Filters the eight lines of Cb and the eight of Cr across a horizontal edge. The edge has `top +
/// 4` rows above it, and `left` columns left of its first line.
#[inline(never)]
#[tactic(auto, using(crate::proofs::EdgesOnPlane::edge_off))]
pub fn horizontal_chroma<const PAD: usize>(
    cb: &mut Plane<PAD>,
    cr: &mut Plane<PAD>,
    left: usize,
    top: usize,
    settings: EdgeSettings<'_>,
)
    requires cb_columns { left + 8 ≤ cb.old.width }
    requires cb_rows { top + 8 ≤ cb.old.height }
    requires cr_columns { left + 8 ≤ cr.old.width }
    requires cr_rows { top + 8 ≤ cr.old.height }
    ensures cb { (qp : Qps) → AreLimits settings.entry.limits.now qp → cb.new
        ≡ chroma_filtered (strengths_of settings.entry) qp false left (top + 4) cb.old }
    ensures cr { (qp : Qps) → AreLimits settings.entry.limits.now qp → cr.new
        ≡ chroma_filtered (strengths_of settings.entry) qp false left (top + 4) cr.old }
{
    if !settings.limits.is_on {
        return;
    }
    let _rows = cb.height();
    let of_cb = cb.rectangle::<8, 8, 64>(left, top);
    let of_cr = cr.rectangle::<8, 8, 64>(left, top);
    let mut lines = beside(&of_cb, &of_cr);
    filter_chroma(&mut lines, FourRows { from: 32 }, settings);
    let new_cb = nearest(&lines, 0);
    let new_cr = nearest(&lines, 8);
    cb.set_rectangle::<8, 2, 16>(left, top + 3, &new_cb);
    cr.set_rectangle::<8, 2, 16>(left, top + 3, &new_cr);
}
