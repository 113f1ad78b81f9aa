//! Sixteen lines of luma across an edge, in a plane.

ghost use Rattle.std.specs.Prelude.{◌≡◌, ℕ};
ghost use Rattle.avc_edges.specs.Line.{Setting};
ghost use Rattle.avc_edges.specs.OneEdge.{edge_behind};
ghost use Rattle.avc_plane.specs.Plane.{HasRectangle};
ghost use Rattle.avc_edges.specs.PlaneLine.{HasLines};
ghost use Rattle.avc_edges.specs.Settings.{AreStrongLuma, AreWeakLuma};

use crate::block::{rows_of, rows_of_middle, strong_luma, transposed, weak_luma};
use crate::settings::{StrongSettings, WeakSettings};
use crate::square::filter_rows;
use crate::table::samples_from;
use avc_plane::Plane;

/// Filters the sixteen lines of luma across an edge at strengths of 0 to 3: a vertical edge where
/// it is VERTICAL, else a horizontal one. The first sample p3 of the first line has `left` columns
/// left of it and `top` rows above it.
#[inline(always)]
fn weak_edge<const VERTICAL: bool, const PAD: usize>(
    plane: &mut Plane<PAD>,
    left: usize,
    top: usize,
    settings: WeakSettings<'_>,
)
    requires { HasLines VERTICAL left top plane.old }
    ensures width { plane.new.width ≡ plane.old.width }
    ensures height { plane.new.height ≡ plane.old.height }
    ensures lines { (setting : ℕ → Setting) → AreWeakLuma settings.entry setting →
        plane.new ≡ edge_behind setting VERTICAL left top 4 plane.old }
{
    let (_columns, _rows) = (plane.width(), plane.height());
    let limits = settings.of_luma();
    if VERTICAL {
        let block = plane.rectangle::<8, 16, 128>(left, top);
        let mut lines = transposed::<8, 64, 128>(&block);
        weak_luma(&mut lines, &limits);
        let after = rows_of_middle(&lines);
        plane.set_rectangle::<4, 16, 64>(left + 2, top, &after);
        return;
    }
    let mut lines = plane.rectangle::<16, 8, 128>(left, top);
    weak_luma(&mut lines, &limits);
    let inner = samples_from::<128, 64>(&lines, 32);
    plane.set_rectangle::<16, 4, 64>(left, top + 2, &inner);
}

/// Those across one edge, apart from its callers.
#[inline(never)]
pub(crate) fn one_weak_edge<const VERTICAL: bool, const PAD: usize>(
    plane: &mut Plane<PAD>,
    left: usize,
    top: usize,
    settings: WeakSettings<'_>,
)
    requires { HasLines VERTICAL left top plane.old }
    ensures { (setting : ℕ → Setting) → AreWeakLuma settings.entry setting →
        plane.new ≡ edge_behind setting VERTICAL left top 4 plane.old }
{
    weak_edge::<VERTICAL, PAD>(plane, left, top, settings);
}

/// Filters the sixteen lines of luma across an edge at strength 4.
#[inline(never)]
pub(crate) fn strong_edge<const VERTICAL: bool, const PAD: usize>(
    plane: &mut Plane<PAD>,
    left: usize,
    top: usize,
    settings: StrongSettings<'_>,
)
    requires { HasLines VERTICAL left top plane.old }
    ensures { (setting : ℕ → Setting) → AreStrongLuma settings.entry setting →
        plane.new ≡ edge_behind setting VERTICAL left top 4 plane.old }
{
    let limits = settings.of_lines();
    if VERTICAL {
        let block = plane.rectangle::<8, 16, 128>(left, top);
        let mut lines = transposed::<8, 64, 128>(&block);
        strong_luma(&mut lines, &limits);
        let after = rows_of(&lines);
        plane.set_rectangle::<8, 16, 128>(left, top, &after);
        return;
    }
    let mut lines = plane.rectangle::<16, 8, 128>(left, top);
    strong_luma(&mut lines, &limits);
    plane.set_rectangle::<16, 8, 128>(left, top, &lines);
}

/// Filters those across three edges with the same strengths of 0 to 3, each four samples behind the
/// one before, which is filtered first.
#[inline(never)]
pub(crate) fn three_weak_edges<const VERTICAL: bool, const PAD: usize>(
    plane: &mut Plane<PAD>,
    left: usize,
    top: usize,
    settings: WeakSettings<'_>,
)
    requires { HasRectangle left top 16 16 plane.old }
    ensures { (setting : ℕ → Setting) → AreWeakLuma settings.entry setting →
        plane.new ≡ edge_behind setting VERTICAL left top 12
        (edge_behind setting VERTICAL left top 8
        (edge_behind setting VERTICAL left top 4 plane.old)) }
{
    let _rows = plane.height();
    if VERTICAL {
        let square = plane.rectangle::<16, 16, 256>(left, top);
        let mut lines = transposed::<16, 128, 256>(&square);
        let limits = settings.of_luma();
        filter_rows(&mut lines, 0, &limits);
        filter_rows(&mut lines, 64, &limits);
        filter_rows(&mut lines, 128, &limits);
        let after = transposed::<16, 128, 256>(&lines);
        plane.set_rectangle::<16, 16, 256>(left, top, &after);
        return;
    }
    weak_edge::<false, PAD>(plane, left, top, settings);
    weak_edge::<false, PAD>(plane, left, top + 4, settings);
    weak_edge::<false, PAD>(plane, left, top + 8, settings);
}
