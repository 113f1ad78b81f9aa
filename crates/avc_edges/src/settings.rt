//! What the lines of one edge are filtered with (8.7.2).

ghost use Rattle.std.specs.Prelude.{ℕ, ◌<◌, slice_index};
ghost use Rattle.avc_edges.specs.OneEdge.{AreSpread, AreStrengths, AreStrengths-prop};

use crate::strengths::Strengths;
use crate::thresholds::QpLimits;

/// What the lines of one edge are filtered with (8.7.2).
#[derive(Clone, Copy)]
pub struct EdgeSettings<'a> {
    /// The strengths along it.
    pub strengths: &'a Strengths,

    /// Those between the QPs of its two sides.
    pub limits: &'a QpLimits,

    pub ghost low: { AreStrengths strengths.now } by { AreStrengths-prop strengths.now },
    pub ghost spread: { AreSpread limits.now },
}

/// What the lines of one edge are filtered with at strengths of 0 to 3.
#[derive(Clone, Copy)]
pub(crate) struct WeakSettings<'a> {
    /// The strength of each quarter of it.
    pub(crate) strengths: &'a [u8; 4],

    /// Those between the QPs of its two sides.
    pub(crate) limits: &'a QpLimits,

    ghost low: { (k : ℕ) → k < 4 → slice_index strengths.now k < 4 },
    ghost spread: { AreSpread limits.now },
}

/// What they are filtered with at strength 4.
#[derive(Clone, Copy)]
pub(crate) struct StrongSettings<'a> {
    /// Those between the QPs of its two sides.
    pub(crate) limits: &'a QpLimits,

    ghost spread: { AreSpread limits.now },
}
