//! What reading a macroblock asks of its slice and of its neighbours.

ghost use Rattle.std.specs.Prelude.{◌≡◌};
ghost use Rattle.avc_mbsyntax.specs.Steps.{context_of};

use avc_neigh::TotalCoeffs;

/// What reading a macroblock asks of its slice and of its neighbours.
#[derive(Clone, Copy)]
pub struct Context {
    /// Whether the slice is a P slice.
    pub is_p: bool,

    /// num_ref_idx_l0_active_minus1 + 1 of a P slice.
    pub num_ref_idx_active: u8,

    /// QP_Y,PRED (7.4.5): that of the macroblock before in the slice, at first the slice's.
    pub qp: u8,

    /// Of the macroblock to the left, where it is available.
    pub left: Option<TotalCoeffs>,

    /// Of the macroblock above, where it is available.
    pub up: Option<TotalCoeffs>,
}

/// What reading a macroblock asks of its slice and of its neighbours, which are lent.
#[derive(Clone, Copy)]
pub(crate) struct LentContext<'a> {
    pub is_p: bool,
    pub num_ref_idx_active: u8,
    pub qp: u8,
    pub left: Option<&'a TotalCoeffs>,
    pub up: Option<&'a TotalCoeffs>,
}

impl Context {
    pub(crate) fn lent(&self) -> LentContext<'_>
        ensures { context_of result ≡ self.now }
    {
        LentContext {
            is_p: self.is_p,
            num_ref_idx_active: self.num_ref_idx_active,
            qp: self.qp,
            left: self.left.as_ref(),
            up: self.up.as_ref(),
        }
    }
}
