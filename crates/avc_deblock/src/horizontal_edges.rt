//! The horizontal edges inside an intra macroblock: all have one strength.

ghost use Rattle.std.specs.Prelude.{◌≡◌, true, false};
ghost use Rattle.avc_plane.specs.Frames.{planes_of};
ghost use Rattle.avc_deblock.specs.OneEdge.{HasRoom, KeepsRoom};
ghost use Rattle.avc_deblock.specs.Places.{edges_at, AreLimitsAt};

use crate::mb_info::MbInfo;
use crate::place::Place;
use crate::planes_edge::PairLimits;
use avc_edges::{EdgeSettings, Strengths, filter_three_luma, horizontal_chroma};
use avc_plane::Planes;

/// Filters the three horizontal edges inside intra macroblock `q`.
#[inline(always)]
pub(crate) fn inner_intra_edges<const PAD: usize>(
    planes: &mut Planes<PAD>,
    q: &MbInfo,
    limits: &PairLimits,
    place: Place,
)
    requires intra { q.now.is_intra ≡ true }
    requires room { HasRoom place.column place.row (planes_of planes.old) }
    requires limits { AreLimitsAt place limits.now q.now q.now }
    ensures room { KeepsRoom (planes_of planes.old) (planes_of planes.new) }
    ensures lines { planes_of planes.new
        ≡ edges_at place false false true q.now q.now (planes_of planes.old) }
{
    let _q = q;
    let (left, top) = (16 * place.column, 16 * place.row);
    filter_three_luma::<false, PAD>(&mut planes.luma, left, top, &[3; 4], &limits.luma);
    let settings = EdgeSettings {
        strengths: &Strengths::BelowFour([3; 4]),
        limits: &limits.chroma,
    };
    horizontal_chroma(
        &mut planes.cb,
        &mut planes.cr,
        8 * place.column,
        8 * place.row,
        settings,
    );
}
