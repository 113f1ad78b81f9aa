//! An edge of luma, at the strengths of its blocks (8.7.2.2 to 8.7.2.4).

ghost use Rattle.std.specs.Prelude.{◌≡◌, ℕ, ◌<◌, slice_index};
ghost use Rattle.avc_plane.specs.Plane.{HasRectangle};
ghost use Rattle.avc_edges.specs.OneEdge.{luma_behind, strength_along, AreLimits, AreSpread};
ghost use Rattle.avc_edges.specs.PlaneLine.{HasLines};
ghost use Rattle.avc_edges.specs.Settings.{strengths_of};
ghost use Rattle.avc_edges.specs.declared.strengths.Strengths.TheVariants.{BelowFour};
ghost use Rattle.avc_edges.specs.declared.thresholds.EdgeQp.{EdgeQp as Qps};

use crate::kernels::{one_weak_edge, strong_edge, three_weak_edges};
use crate::settings::{EdgeSettings, StrongSettings, WeakSettings};
use crate::strengths::Strengths;
use crate::thresholds::QpLimits;
use avc_plane::Plane;

/// Filters the sixteen lines of luma across an edge: a vertical edge where it is VERTICAL, else a
/// horizontal one. The first sample p3 of the first line has `left` columns left of it and `top`
/// rows above it.
#[inline(always)]
#[tactic(auto, using(crate::proofs::EdgesOnPlane::edge_off))]
pub fn filter_luma<const VERTICAL: bool, const PAD: usize>(
    plane: &mut Plane<PAD>,
    left: usize,
    top: usize,
    settings: EdgeSettings<'_>,
)
    requires { HasLines VERTICAL left top plane.old }
    ensures { (qp : Qps) → AreLimits settings.entry.limits.now qp → plane.new
        ≡ luma_behind (strengths_of settings.entry) qp VERTICAL left top 4 plane.old }
{
    let limits = settings.limits;
    if !limits.is_on {
        return;
    }
    match settings.strengths {
        Strengths::Four => {
            strong_edge::<VERTICAL, PAD>(plane, left, top, StrongSettings { limits })
        }
        Strengths::BelowFour(strengths) => {
            one_weak_edge::<VERTICAL, PAD>(plane, left, top, WeakSettings { strengths, limits })
        }
    }
}

/// Filters those across three edges with the same strengths, each four samples behind the one
/// before.
#[inline(always)]
#[tactic(auto, using(crate::proofs::EdgesOnPlane::edge_off))]
pub fn filter_three_luma<const VERTICAL: bool, const PAD: usize>(
    plane: &mut Plane<PAD>,
    left: usize,
    top: usize,
    strengths: &[u8; 4],
    limits: &QpLimits,
)
    requires room { HasRectangle left top 16 16 plane.old }
    requires spread { AreSpread limits.now }
    requires strengths { (k : ℕ) → k < 4 → slice_index strengths.now k < 4 }
    ensures { (qp : Qps) → AreLimits limits.now qp → plane.new
        ≡ luma_behind (strength_along (BelowFour strengths.now)) qp VERTICAL left top 12
        (luma_behind (strength_along (BelowFour strengths.now)) qp VERTICAL left top 8
        (luma_behind (strength_along (BelowFour strengths.now)) qp VERTICAL left top 4
        plane.old)) }
{
    if !limits.is_on {
        return;
    }
    three_weak_edges::<VERTICAL, PAD>(plane, left, top, WeakSettings { strengths, limits });
}
