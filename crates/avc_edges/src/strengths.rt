//! The filter strengths along an edge (8.7.2.1).

ghost use Rattle.std.specs.Prelude.{◌≡◌, ℕ, ◌<◌, true};
ghost use Rattle.avc_edges.specs.OneEdge.{strength_along};

/// The filter strengths bS along one edge of a macroblock (8.7.2.1). Each is that of four luma
/// lines, which two chroma lines share.
#[derive(Clone, Copy)]
pub enum Strengths {
    /// 4 at all lines.
    Four,

    /// Each from 0 to 3.
    BelowFour([u8; 4]),
}

impl Strengths {
    /// No line is filtered.
    #[inline(always)]
    pub fn are_zero(&self) -> bool
        ensures { result ≡ true → (k : ℕ) → k < 4 → strength_along self.now k ≡ 0 }
    {
        match self {
            Strengths::Four => false,
            // all four at once
            Strengths::BelowFour(s) => u32::from_le_bytes(*s) == 0,
        }
    }
}
