//! Sixteen rows of sixteen samples across vertical edges, turned so that each line is in a lane.

ghost use Rattle.std.specs.Prelude.{◌≡◌, ℕ, ◌+◌, ◌<◌, ◌≤◌, true};
ghost use Rattle.avc_edges.specs.Line.{Setting, filtered};
ghost use Rattle.avc_edges.specs.Rows.{line_down, samples_at, IsInnerSet};
ghost use Rattle.avc_edges.specs.Fits.{FitsWeakLines};

use crate::block::weak_luma;
use crate::limits::Limits;
use crate::table::{samples_from, set_samples};

/// Filters the sixteen lines of luma down eight of its rows, which stand from a place on, at
/// strengths of 0 to 3.
#[inline(always)]
pub(crate) fn filter_rows(t: &mut [u8; 256], from: usize, limits: &Limits)
    requires room { from + 128 ≤ 256 }
    ensures lines { (s : Setting) (i : ℕ) → i < 16 → FitsWeakLines true s limits.now i →
        filtered s (line_down (samples_at from t.old) i) ≡ line_down (samples_at from t.new) i }
    ensures others { IsInnerSet from t.old t.new }
{
    let mut lines = samples_from::<256, 128>(t, from);
    weak_luma(&mut lines, limits);
    let inner = samples_from::<128, 64>(&lines, 32);
    set_samples(t, from + 32, &inner);
}
