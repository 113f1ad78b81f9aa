//! Where a macroblock is predicted from.

ghost use Rattle.std.specs.Prelude.{◌≡◌, ℤ, List};
ghost use Rattle.avc_stages.specs.Motions.{motion_of};

use avc_deblock::MbInfo;
use avc_types::Mv;

/// Where a macroblock is predicted from.
#[derive(Clone, Copy)]
pub enum Motion {
    /// From its own picture (8.3).
    Intra,

    /// From reference pictures (8.4).
    Inter(InterMotion),
}

/// Where an inter macroblock is predicted from (8.4).
#[derive(Clone, Copy)]
pub struct InterMotion {
    /// PicOrderCnt of the reference picture of each 8x8 quarter (8.2.1).
    pub order_counts: [i32; 4],

    /// The vectors of the sixteen luma blocks, in block order.
    pub vectors: [Mv; 16],

    /// Whether some luma block has a transform coefficient level that is not 0.
    pub has_luma_levels: bool,
}

/// Where a macroblock is predicted from, of which the filter is told this. These are PicOrderCnt of
/// the reference pictures of its quarters.
pub fn motion_of(info: &MbInfo, order_counts: [i32; 4]) -> Motion
    ensures { result ≡ motion_of info.now order_counts }
{
    if info.is_intra {
        return Motion::Intra;
    }
    Motion::Inter(InterMotion {
        order_counts,
        vectors: info.vectors,
        has_luma_levels: info.coefficients != 0,
    })
}
